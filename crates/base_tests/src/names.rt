// Scopes that hide and come back, and many names.

use name_table::NameTable;
use std::alloc::Global;
use std::test::Fail;

// What a name stands for and where, or 99 where it is not there.
fn seen(table: &NameTable<'_, u32>, name: &[u8]) -> (u32, usize) {
    match table.find(name) {
        Some(found) => (found.meaning, found.position),
        None => (99, 0),
    }
}

#[test]
fn inner_scopes_hide_and_outer_ones_come_back(rt: HostRuntime) -> Result<(), Fail> {
    let mut table = NameTable::new(rt.alloc());
    table.push(b"a", 1)?;
    table.push(b"b", 2)?;
    let outer = table.length();
    table.push(b"a", 3)?;
    let inner = table.length();
    table.push(b"a", 4)?;
    table.push(b"c", 5)?;
    assert_eq!(rt; seen(&table, b"a"), (4, 3));
    assert_eq!(rt; seen(&table, b"b"), (2, 1));
    assert_eq!(rt; seen(&table, b"c"), (5, 4));
    table.truncate(inner);
    assert_eq!(rt; seen(&table, b"a"), (3, 2));
    assert_eq!(rt; seen(&table, b"c"), (99, 0));
    table.truncate(outer);
    assert_eq!(rt; seen(&table, b"a"), (1, 0));
    assert_eq!(rt; table.length(), 2);
    table.push(b"a", 6)?;
    assert_eq!(rt; seen(&table, b"a"), (6, 2));
    table.truncate(0);
    assert_eq!(rt; seen(&table, b"a"), (99, 0));
    assert_eq!(rt; seen(&table, b"b"), (99, 0));
    Ok(())
}

#[test]
fn names_are_equal_as_bytes(rt: HostRuntime) -> Result<(), Fail> {
    let text = b"name names name";
    let Some((first, rest)) = text.as_slice().split_at_checked(4) else {
        return Ok(());
    };
    let mut table = NameTable::new(rt.alloc());
    table.push(first, 1)?;
    table.push(b"", 2)?;
    assert_eq!(rt; seen(&table, b"name"), (1, 0));
    assert_eq!(rt; seen(&table, b""), (2, 1));
    assert_eq!(rt; seen(&table, b"nam"), (99, 0));
    assert_eq!(rt; seen(&table, rest), (99, 0));
    Ok(())
}

#[test]
fn meanings_change(rt: HostRuntime) -> Result<(), Fail> {
    let mut table = NameTable::new(rt.alloc());
    table.push(b"a", 1)?;
    table.push(b"b", 2)?;
    table.push(b"a", 3)?;
    table.set(0, 7);
    table.set(3, 8);
    assert_eq!(rt; seen(&table, b"a"), (3, 2));
    table.set(2, 9);
    assert_eq!(rt; seen(&table, b"a"), (9, 2));
    table.truncate(5);
    table.truncate(2);
    assert_eq!(rt; seen(&table, b"a"), (7, 0));
    assert_eq!(rt; seen(&table, b"b"), (2, 1));
    Ok(())
}

const DIGITS: [u8; 10] = *b"0123456789";

// All texts of five digits, one after another.
fn numerals(alloc: Global) -> Result<Vec<u8>, Fail> {
    let mut text = Vec::new(alloc);
    for a in DIGITS {
        for b in DIGITS {
            push_thousand(&mut text, a, b)?;
        }
    }
    Ok(text)
}

fn push_thousand(text: &mut Vec<u8>, a: u8, b: u8) -> Result<(), Fail> {
    for c in DIGITS {
        for d in DIGITS {
            for e in DIGITS {
                text.extend_from_slice(&[a, b, c, d, e])?;
            }
        }
    }
    Ok(())
}

#[test]
fn a_hundred_thousand_names_take_no_time(rt: HostRuntime) -> Result<(), Fail> {
    let text = numerals(rt.alloc())?;
    let mut table = NameTable::new(rt.alloc());
    for name in text.chunks(5) {
        table.push(name, 1)?;
    }
    for name in text.chunks(5) {
        table.push(name, 2)?;
    }
    assert_eq!(rt; table.length(), 200_000);
    assert_eq!(rt; seen(&table, b"00000"), (2, 100_000));
    assert_eq!(rt; seen(&table, b"99999"), (2, 199_999));
    let mut missing = 0u64;
    for name in text.chunks(5) {
        if table.find(name).is_none() {
            missing = missing.saturating_add(1);
        }
    }
    assert_eq!(rt; missing, 0);
    table.truncate(100_000);
    assert_eq!(rt; seen(&table, b"12345"), (1, 12_345));
    table.truncate(12_345);
    assert_eq!(rt; seen(&table, b"12345"), (99, 0));
    assert_eq!(rt; seen(&table, b"12344"), (1, 12_344));
    Ok(())
}
