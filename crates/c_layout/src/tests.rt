// The layouts of a unit, as a table.

use crate::layouts::Layouts;
use c_tree::{Base, CType, Item, Local, Name, Span, StructDefinition, Unit};
use sqlite_items::Items;
use std::alloc::{AllocError, Global};
use std::test::Fail;

const NOWHERE: Span = Span { start: 0, end: 0 };

// The structs of the unit: their names, and the types of their fields.
const STRUCTS: &[(&[u8], &[(&[u8], u32)])] = &[
    (b"A", &[(b"gint", 0)]),
    (b"B", &[(b"A", 0), (b"gchar", 1), (b"A", 0)]),
    (b"C", &[(b"B", 0), (b"B", 0), (b"C", 1), (b"D", 1)]),
    (b"G", &[(b"GObject", 0), (b"GCallback", 0)]),
];

fn name(alloc: Global, text: &[u8]) -> Result<Name, AllocError> {
    let text = Items::from_slice(alloc, text)?;
    Ok(Name {
        text,
        span: NOWHERE,
    })
}

fn named(alloc: Global, text: &[u8], stars: u32) -> Result<CType, AllocError> {
    let name = name(alloc, text)?;
    Ok(CType {
        base: Base::Named(name),
        is_const: false,
        stars,
        span: NOWHERE,
    })
}

// Fields with one name each; the layouts do not look at the names.
fn fields(alloc: Global, types: &[(&[u8], u32)]) -> Result<Items<Local>, AllocError> {
    let mut fields = Items::new(alloc);
    for (text, stars) in types {
        let declared = named(alloc, *text, *stars)?;
        let name = name(alloc, b"x".as_slice())?;
        fields.push(Local { declared, name })?;
    }
    Ok(fields)
}

fn unit(alloc: Global) -> Result<Unit, AllocError> {
    let mut items = Items::new(alloc);
    items.push(Item::StructType(name(alloc, b"D".as_slice())?))?;
    for (text, types) in STRUCTS {
        items.push(Item::StructType(name(alloc, *text)?))?;
        let name = name(alloc, *text)?;
        let fields = fields(alloc, *types)?;
        items.push(Item::Struct(StructDefinition { name, fields }))?;
    }
    Ok(Unit { items })
}

#[test]
fn types_have_their_cells(rt: HostRuntime) -> Result<(), Fail> {
    let alloc = rt.alloc();
    let unit = unit(alloc)?;
    let layouts = Layouts::new(alloc, &unit)?;
    let cases: &[(&[u8], u32, u64)] = &[
        (b"gint", 0, 1),
        (b"gint", 3, 1),
        (b"GCallback", 0, 1),
        (b"GError", 0, 3),
        (b"A", 0, 1),
        (b"B", 0, 3),
        (b"C", 0, 8),
        (b"C", 1, 1),
        (b"D", 1, 1),
        (b"G", 0, 3),
    ];
    for (text, stars, wanted) in cases {
        let declared = named(alloc, *text, *stars)?;
        assert!(rt; layouts.laid_out(&declared));
        assert_eq!(rt; layouts.cells_of(&declared), *wanted);
    }
    Ok(())
}

#[test]
fn other_types_are_not_laid_out(rt: HostRuntime) -> Result<(), Fail> {
    let alloc = rt.alloc();
    let unit = unit(alloc)?;
    let layouts = Layouts::new(alloc, &unit)?;
    let cases: &[(&[u8], u32)] = &[(b"D", 0), (b"E", 0), (b"E", 1), (b"g_print", 0)];
    for (text, stars) in cases {
        let declared = named(alloc, *text, *stars)?;
        assert!(rt; !layouts.laid_out(&declared));
    }
    Ok(())
}
