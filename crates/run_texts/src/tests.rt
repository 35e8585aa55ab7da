// The texts of a trace with an event of each kind, and of a thing of each kind.

use crate::{live_text, trace_text};
use std::alloc::AllocError;
use std::test::Fail;
use vg_base::{Bytes, Event, LiveRow, Stream, ThingKind};

#[test]
fn traces(rt: HostRuntime) -> Result<(), Fail> {
    let alloc = rt.alloc();
    let events = vec![in alloc;
        Event::Made(ThingKind::Object),
        Event::Made(ThingKind::Text),
        Event::Print {
            stream: Stream::Out,
            bytes: Bytes {
                list: vec![in alloc; 104, 105, 10]?
            }
        },
        Event::Gone(2),
        Event::Made(ThingKind::Array),
        Event::Dispatch(18446744073709551615),
        Event::Print {
            stream: Stream::Err,
            bytes: Bytes {
                list: Vec::new(alloc)
            }
        },
        Event::Gone(1),
        Event::Made(ThingKind::Activation),
    ]?;
    let Ok(text) = trace_text(alloc, events.as_slice()) else {
        return Err(AllocError.into());
    };
    assert_eq!(rt;
        text.as_slice(),
        b"made 1 object\nmade 2 text\nout 3\ngone 2\nmade 3 array\ndispatch 18446744073709551615\nerr 0\ngone 1\nmade 4 activation\n".as_slice()
    );
    Ok(())
}

#[test]
fn rows(rt: HostRuntime) -> Result<(), Fail> {
    let alloc = rt.alloc();
    let rows = [
        LiveRow {
            kind: ThingKind::Scope,
            serial: 3,
            owners: 10,
        },
        LiveRow {
            kind: ThingKind::Error,
            serial: 12,
            owners: 1,
        },
    ];
    let Ok(text) = live_text(alloc, &rows) else {
        return Err(AllocError.into());
    };
    assert_eq!(rt;
        text.as_slice(),
        b"live 3 scope 10\nlive 12 error 1\n".as_slice()
    );
    let Ok(none) = live_text(alloc, &[]) else {
        return Err(AllocError.into());
    };
    assert_eq!(rt; none.len(), 0);
    Ok(())
}
