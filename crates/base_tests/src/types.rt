// The two tables, by examples.

use std::alloc::Global;
use std::process::Abort;
use std::test::Fail;
use vala_types::{
    Bases, Change, IntKind, Item, ItemShape, MOST_ROWS, Rows, Shape, Ties, VType, fits,
    owner_change,
};

const OBJECT: Shape = Shape::Class(0);

const ANIMAL: Shape = Shape::Class(1);

const DOG: Shape = Shape::Class(2);

const NAMED: Shape = Shape::Interface(3);

const LOUD: Shape = Shape::Interface(4);

const PUPPY: Shape = Shape::Class(5);

const MAIN_LOOP: Shape = Shape::Class(6);

const CIRCLE: Shape = Shape::Class(7);

const OTHER_END: Shape = Shape::Class(8);

const INT: Shape = Shape::Int(IntKind::Int32);

const COLOR: Shape = Shape::Enum(20);

const POINT: Shape = Shape::Struct(21);

const ACTION: Shape = Shape::Delegate(22);

const LOAD_ERROR: Shape = Shape::Error(Some(23));

const ANY_ERROR: Shape = Shape::Error(None);

const TEXTS: Shape = Shape::Array {
    of: Item {
        shape: ItemShape::Text,
        nullable: false,
    },
};

const NULLABLE_TEXTS: Shape = Shape::Array {
    of: Item {
        shape: ItemShape::Text,
        nullable: true,
    },
};

const DOGS: Shape = Shape::Array {
    of: Item {
        shape: ItemShape::Class(2),
        nullable: false,
    },
};

const ANIMALS: Shape = Shape::Array {
    of: Item {
        shape: ItemShape::Class(1),
        nullable: false,
    },
};

fn bases(alloc: Global, list: &[u32]) -> Result<Bases, Fail> {
    Ok(Bases {
        list: Vec::from_slice(alloc, list)?,
    })
}

fn ties(rt: &impl Abort, list: Vec<Bases>) -> Ties {
    assert!(rt; list.len() <= MOST_ROWS);
    Ties {
        object: 0,
        rows: Rows { list },
    }
}

// `Animal : Object`, `Dog : Animal, Loud`, `Named : Object`, `Loud : Named`, `Puppy : Dog`, `MainLoop`, and two in a circle.
fn animals(rt: &impl Abort, alloc: Global) -> Result<Ties, Fail> {
    let rows: [&[u32]; 9] = [&[], &[0], &[1, 4], &[0], &[3], &[2], &[], &[8], &[7]];
    let mut list = Vec::new(alloc);
    for row in rows {
        list.push(bases(alloc, row)?)?;
    }
    Ok(ties(rt, list))
}

fn place(shape: Shape, owned: bool) -> VType {
    VType {
        shape,
        owned,
        nullable: false,
    }
}

#[test]
fn fits_by_the_table(rt: HostRuntime) -> Result<(), Fail> {
    let ties = animals(&rt, rt.alloc())?;
    let cases = [
        (Shape::Void, Shape::Void, true),
        (Shape::Bool, Shape::Bool, true),
        (Shape::Bool, INT, false),
        (INT, INT, true),
        (INT, Shape::Int(IntKind::Uint32), true),
        (INT, Shape::Int(IntKind::Uint16), false),
        (Shape::Int(IntKind::Int8), Shape::Int(IntKind::Char), true),
        (Shape::Int(IntKind::Char), Shape::Int(IntKind::Int8), false),
        (
            Shape::Int(IntKind::Uint64),
            Shape::Int(IntKind::Int64),
            false,
        ),
        (Shape::Int(IntKind::Long), Shape::Int(IntKind::Int64), true),
        (INT, COLOR, false),
        (COLOR, COLOR, true),
        (COLOR, Shape::Enum(24), false),
        (COLOR, INT, true),
        (COLOR, Shape::Int(IntKind::Uint8), false),
        (Shape::Null, Shape::Text, true),
        (Shape::Null, MAIN_LOOP, true),
        (Shape::Null, NAMED, true),
        (Shape::Null, ACTION, true),
        (Shape::Null, ANY_ERROR, true),
        (Shape::Null, LOAD_ERROR, true),
        (Shape::Null, TEXTS, true),
        (Shape::Null, INT, false),
        (Shape::Null, Shape::Bool, false),
        (Shape::Null, COLOR, false),
        (Shape::Null, POINT, false),
        (Shape::Null, Shape::AsyncResult, false),
        (Shape::Text, Shape::Null, false),
        (POINT, POINT, true),
        (POINT, Shape::Struct(25), false),
        (ACTION, Shape::Delegate(25), false),
        (DOG, DOG, true),
        (DOG, ANIMAL, true),
        (PUPPY, OBJECT, true),
        (ANIMAL, DOG, false),
        (DOG, LOUD, true),
        (PUPPY, NAMED, true),
        (ANIMAL, NAMED, false),
        (NAMED, OBJECT, true),
        (NAMED, ANIMAL, false),
        (LOUD, OBJECT, true),
        (LOUD, NAMED, false),
        (NAMED, DOG, false),
        (MAIN_LOOP, MAIN_LOOP, true),
        (MAIN_LOOP, OBJECT, false),
        (CIRCLE, OTHER_END, true),
        (CIRCLE, OBJECT, false),
        (Shape::Class(99), OBJECT, false),
        (LOAD_ERROR, ANY_ERROR, true),
        (ANY_ERROR, LOAD_ERROR, false),
        (LOAD_ERROR, Shape::Error(Some(25)), false),
        (TEXTS, TEXTS, true),
        (TEXTS, NULLABLE_TEXTS, true),
        (NULLABLE_TEXTS, TEXTS, true),
        (DOGS, ANIMALS, false),
        (Shape::ParamSpec, Shape::ParamSpec, true),
        (Shape::AsyncResult, Shape::ParamSpec, false),
    ];
    for (from, to, wanted) in cases {
        let value = place(from, true);
        let unowned = VType {
            shape: to,
            owned: false,
            nullable: true,
        };
        assert_eq!(rt;
            fits(&ties, &value, &unowned),
            wanted,
            "{from:?} into {to:?}"
        );
    }
    Ok(())
}

fn change(ties: &Ties, from: &VType, to: &VType) -> Option<Change> {
    if fits(ties, from, to) {
        Some(owner_change(from, to))
    } else {
        None
    }
}

// The values are given by shape, the changes in four columns: a fresh value into a place that owns and into one that does not,
// and one that is not fresh into each.
#[test]
fn changes_by_the_table(rt: HostRuntime) -> Result<(), Fail> {
    let ties = animals(&rt, rt.alloc())?;
    let keep = Change::Keep;
    let moved = Change::Move;
    let copied = Change::CopyStruct;
    let cases = [
        (
            Shape::Text,
            Shape::Text,
            [moved, keep, Change::CopyText, keep],
        ),
        (
            TEXTS,
            NULLABLE_TEXTS,
            [moved, keep, Change::CopyArray, keep],
        ),
        (POINT, POINT, [moved, moved, copied, copied]),
        (
            LOAD_ERROR,
            ANY_ERROR,
            [moved, keep, Change::CopyError, keep],
        ),
        (DOG, ANIMAL, [moved, keep, Change::AddOwner, keep]),
        (LOUD, OBJECT, [moved, keep, Change::AddOwner, keep]),
        (MAIN_LOOP, MAIN_LOOP, [moved, keep, Change::AddOwner, keep]),
        (ACTION, ACTION, [moved, keep, Change::NotCopied, keep]),
        (INT, INT, [keep, keep, keep, keep]),
        (COLOR, INT, [keep, keep, keep, keep]),
        (Shape::Bool, Shape::Bool, [keep, keep, keep, keep]),
        (Shape::Null, Shape::Text, [keep, keep, keep, keep]),
        (Shape::ParamSpec, Shape::ParamSpec, [keep, keep, keep, keep]),
    ];
    let columns = [(true, true), (true, false), (false, true), (false, false)];
    for (from, to, wanted) in cases {
        for ((fresh, owned), want) in columns.into_iter().zip(wanted) {
            let found = change(&ties, &place(from, fresh), &place(to, owned));
            assert_eq!(rt; found, Some(want), "{from:?} into {to:?}, {fresh} {owned}");
        }
    }
    Ok(())
}

fn fits_class(ties: &Ties, from: u32, base: u32) -> bool {
    fits(
        ties,
        &place(Shape::Class(from), true),
        &place(Shape::Class(base), true),
    )
}

// Each of the interfaces has the two of the next rung as its bases, so that 2^40 ways lead down.
#[test]
fn a_ladder_is_walked_once(rt: HostRuntime) -> Result<(), Fail> {
    let alloc = rt.alloc();
    let mut list = Vec::new(alloc);
    for rung in 0u32..40 {
        let next = [2 * rung + 2, 2 * rung + 3];
        list.push(bases(alloc, &next)?)?;
        list.push(bases(alloc, &next)?)?;
    }
    let ladder = ties(&rt, list);
    assert!(rt; fits_class(&ladder, 0, 81));
    assert!(rt; !fits_class(&ladder, 0, 1));
    assert!(rt; !fits_class(&ladder, 0, 99));
    Ok(())
}

#[test]
fn a_long_chain_is_walked_to_its_end(rt: HostRuntime) -> Result<(), Fail> {
    let alloc = rt.alloc();
    let mut list = Vec::new(alloc);
    for number in 0u32..100_000 {
        list.push(bases(alloc, &[number + 1])?)?;
    }
    let chain = ties(&rt, list);
    assert!(rt; fits_class(&chain, 0, 100_000));
    assert!(rt; !fits_class(&chain, 1, 0));
    assert!(rt; !fits_class(&chain, 0, 100_001));
    Ok(())
}

#[test]
fn a_circle_is_walked_once(rt: HostRuntime) -> Result<(), Fail> {
    let alloc = rt.alloc();
    let mut list = Vec::new(alloc);
    for number in 0u32..1000 {
        list.push(bases(alloc, &[(number + 1) % 1000, (number + 7) % 1000])?)?;
    }
    let circle = ties(&rt, list);
    assert!(rt; fits_class(&circle, 0, 999));
    assert!(rt; !fits_class(&circle, 0, 1000));
    assert!(rt; !fits_class(&circle, u32::MAX, 0));
    Ok(())
}
