// Texts and words, and the bytes that they denote.

use std::test::Fail;
use text_values::{text_value, word};

const TEXTS: &[(&[u8], &[u8])] = &[
    // No text between the quotes, and fewer quotes than a text has.
    (b"\"\"", b""),
    (b"\"\"\"\"\"\"", b""),
    (b"", b""),
    (b"\"", b""),
    (b"\"\"\"", b""),
    // Bytes that denote themselves.
    (b"\"hello\"", b"hello"),
    (b"\"it's /* no comment */\"", b"it's /* no comment */"),
    (b"\"caf\xc3\xa9\"", b"caf\xc3\xa9"),
    // Each escape.
    (b"\"\\\"\"", b"\""),
    (b"\"\\'\"", b"'"),
    (b"\"\\\\\"", b"\\"),
    (b"\"\\b\"", b"\x08"),
    (b"\"\\f\"", b"\x0c"),
    (b"\"\\n\"", b"\n"),
    (b"\"\\r\"", b"\r"),
    (b"\"\\t\"", b"\t"),
    (b"\"\\v\"", b"\x0b"),
    (b"\"\\x41\"", b"A"),
    (b"\"\\x01\"", b"\x01"),
    (b"\"\\x7f\\x7F\"", b"\x7f\x7f"),
    (b"\"\\u0041\"", b"A"),
    (b"\"\\u00e9\"", b"\xc3\xa9"),
    (b"\"\\u00E9\"", b"\xc3\xa9"),
    (b"\"\\u20ac\"", b"\xe2\x82\xac"),
    (b"\"\\ud7ff\"", b"\xed\x9f\xbf"),
    (b"\"\\ue000\"", b"\xee\x80\x80"),
    (b"\"\\uffff\"", b"\xef\xbf\xbf"),
    // What stands behind an escape.
    (b"\"\\x411\"", b"A1"),
    (b"\"\\u20acf\"", b"\xe2\x82\xacf"),
    (b"\"a\\tb\\n\"", b"a\tb\n"),
    (b"\"\\n\\n\"", b"\n\n"),
    // A backslash that another one escapes.
    (b"\"\\\\n\"", b"\\n"),
    (b"\"\\\\\\n\"", b"\\\n"),
    (b"\"\\\\\\\\\"", b"\\\\"),
    (b"\"\\\\x41\"", b"\\x41"),
    (b"\"\\x5cx41\"", b"\\x41"),
    (b"\"\\\\\\\"\"", b"\\\""),
    // A backslash that begins no escape denotes nothing. No token has one.
    (b"\"\\q\"", b"q"),
    (b"\"\\x00\"", b"x00"),
    (b"\"\\x80\"", b"x80"),
    (b"\"\\x4\"", b"x4"),
    (b"\"\\u0000\"", b"u0000"),
    (b"\"\\ud800\"", b"ud800"),
    (b"\"\\udfff\"", b"udfff"),
    (b"\"\\u20a\"", b"u20a"),
    (b"\"\\\"", b""),
    // Without escapes.
    (b"\"\"\"hello\"\"\"", b"hello"),
    (b"\"\"\"a\\nb\"\"\"", b"a\\nb"),
    (b"\"\"\"a\nb\"\"\"", b"a\nb"),
    (b"\"\"\"say \"no\" twice\"\"\"", b"say \"no\" twice"),
];

const WORDS: &[(&[u8], &[u8])] = &[
    (b"", b""),
    (b"x", b"x"),
    (b"class_", b"class_"),
    (b"@class", b"class"),
    (b"@", b""),
];

#[test]
fn texts_denote_bytes(rt: HostRuntime) -> Result<(), Fail> {
    for (text, bytes) in TEXTS {
        let value = text_value(rt.alloc(), text)?;
        assert_eq!(rt; value.as_slice(), *bytes);
    }
    Ok(())
}

#[test]
fn words_name_bytes(rt: HostRuntime) -> Result<(), Fail> {
    for (text, bytes) in WORDS {
        let value = word(rt.alloc(), text)?;
        assert_eq!(rt; value.as_slice(), *bytes);
    }
    Ok(())
}
