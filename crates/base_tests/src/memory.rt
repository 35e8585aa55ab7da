// Calls on the folders and sinks in memory.

use std::alloc::Global;
use std::test::Fail;
use vg_base::{
    Folder, FolderFault, GoodFolder, GoodSink, MemFolder, MemSink, Memory, PutFault, Sink,
    SinkFault, put_all,
};

/// Whether a call went well (`+`), found no file (`?`) or failed (`!`).
fn mark<T: Drop>(answer: Result<T, FolderFault>) -> Result<char, Memory> {
    match answer {
        Ok(_) => Ok('+'),
        Err(FolderFault::Missing) => Ok('?'),
        Err(FolderFault::Failed) => Ok('!'),
        Err(FolderFault::Memory) => Err(Memory),
    }
}

/// Reads a file, a missing one, writes that one, and reads it.
fn four_calls<F: Folder>(alloc: Global, folder: &mut F) -> Result<[char; 4], Memory> {
    let first = mark(folder.read_file(alloc, "a"))?;
    let second = mark(folder.read_file(alloc, "b"))?;
    let third = mark(folder.write_file(alloc, "b", b"new"))?;
    let fourth = mark(folder.read_file(alloc, "b"))?;
    Ok([first, second, third, fourth])
}

#[test]
fn listed_calls_fail(rt: HostRuntime) -> Result<(), Fail> {
    let alloc = rt.alloc();
    let table: [(&[u32], [char; 4]); 5] = [
        (&[], ['+', '?', '+', '+']),
        (&[2], ['+', '!', '+', '+']),
        (&[3], ['+', '?', '!', '?']),
        (&[1, 4], ['!', '?', '+', '!']),
        (&[0, 5], ['+', '?', '+', '+']),
    ];
    for (fails, want) in table {
        let mut folder = MemFolder::new(alloc, Vec::from_slice(alloc, fails)?);
        folder.add(alloc, "a", b"old")?;
        assert_eq!(rt; four_calls(alloc, &mut folder)?, want, "{fails:?}");
    }
    Ok(())
}

#[test]
fn files_are_read(rt: HostRuntime) -> Result<(), Fail> {
    let alloc = rt.alloc();
    let mut folder = GoodFolder::new(alloc);
    folder.add(alloc, "a", b"one")?;
    folder.add(alloc, "b", b"two")?;
    folder.add(alloc, "a", b"three")?;
    assert_eq!(rt; four_calls(alloc, &mut folder)?, ['+', '+', '+', '+']);
    for (name, want) in [("a", "three"), ("b", "new")] {
        let bytes = folder.read_file(alloc, name)?;
        assert_eq!(rt; bytes.as_slice(), want.as_bytes(), "{name}");
    }
    Ok(())
}

#[test]
fn sinks_take_bytes(rt: HostRuntime) -> Result<(), Fail> {
    let alloc = rt.alloc();
    let table: [(&[u32], usize, usize); 4] = [
        (&[], 2, 5),
        (&[2], 2, 2),
        (&[1], 9, 0),
        (&[2], 9, 5),
    ];
    for (fails, most, want) in table {
        let mut sink = MemSink::new(alloc, Vec::from_slice(alloc, fails)?, most);
        let count = match put_all(alloc, &mut sink, b"bytes") {
            Ok(()) => 5,
            Err(
                SinkFault {
                    taken,
                    cause: PutFault::Failed,
                },
            ) => taken,
            Err(
                SinkFault {
                    taken: _,
                    cause: PutFault::Memory,
                },
            ) => 9,
        };
        assert_eq!(rt; count, want, "{fails:?} {most}");
        assert_eq!(rt;
            sink.taken(),
            b"bytes".get(..want).unwrap_or(b""),
            "{fails:?} {most}"
        );
    }
    let mut sink = GoodSink::new(alloc);
    for piece in ["good", "", " bytes"] {
        let count = sink.put(alloc, piece.as_bytes()).ok();
        assert_eq!(rt; count, Some(piece.len()), "{piece}");
    }
    assert_eq!(rt; sink.taken(), b"good bytes".as_slice());
    Ok(())
}
