// A value and the text that is wanted of it.

use c_lexer::NumberType;
use c_printer::{Brackets, Place, Writer, put_value};
use c_tree::{Expr, Number, Shape, Span};
use std::test::Fail;

#[test]
fn numbers(rt: HostRuntime) -> Result<(), Fail> {
    let value = Expr {
        shape: Shape::Number(Number {
            value: 5,
            kind: NumberType::Glong,
        }),
        span: Span { start: 0, end: 0 },
    };
    let mut writer = Writer::new(rt.alloc());
    let is_put = put_value(
        rt.alloc(),
        &mut writer,
        Brackets::Clear,
        Place::Anywhere,
        &value,
    )
    .is_ok();
    assert_eq!(rt; is_put, true);
    let want = b"5L".as_slice();
    assert_eq!(rt; writer.into_bytes().as_slice() == want, true);
    Ok(())
}
