// Texts by their bytes.

use crate::{compare, is_back, is_front, number_read, place_in};
use std::test::Fail;

#[test]
fn bytes_are_compared_and_found(rt: HostRuntime) -> Result<(), Fail> {
    assert_eq!(rt; compare(b"ab".as_slice(), b"ac".as_slice()), -1);
    assert_eq!(rt; compare(b"ab".as_slice(), b"a".as_slice()), 1);
    assert_eq!(rt; compare(b"".as_slice(), b"".as_slice()), 0);
    assert!(rt; is_front(b"ab".as_slice(), b"abc".as_slice()));
    assert!(rt; is_back(b"bc".as_slice(), b"abc".as_slice()));
    assert!(rt; place_in(b"b".as_slice(), b"abcb".as_slice()) == Some(1));
    assert!(rt; place_in(b"".as_slice(), b"".as_slice()) == Some(0));
    assert!(rt; place_in(b"x".as_slice(), b"abc".as_slice()).is_none());
    Ok(())
}

#[test]
fn numbers_are_held(rt: HostRuntime) -> Result<(), Fail> {
    assert_eq!(rt; number_read(b" \t-12x".as_slice()), -12);
    assert_eq!(rt; number_read(b"+7".as_slice()), 7);
    assert_eq!(rt; number_read(b"- 7".as_slice()), 0);
    assert_eq!(rt; number_read(b"9223372036854775808".as_slice()), i64::MAX);
    assert_eq!(rt; number_read(b"-99999999999999999999".as_slice()), i64::MIN);
    Ok(())
}
