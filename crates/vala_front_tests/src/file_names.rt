// What names and texts are, and the laws, which are there to be called.

use std::test::Fail;
use vala_file_grammar::{
    Special, code_is_read_as_before, files_are_read_exactly, files_have_an_answer,
    files_have_one_answer, files_have_one_tree, is_c_identifier, letters, same_letters, special_of,
};

#[test]
fn laws_do_nothing(rt: HostRuntime) -> Result<(), Fail> {
    files_are_read_exactly();
    files_have_one_tree();
    code_is_read_as_before();
    files_have_an_answer();
    files_have_one_answer();
    Ok(())
}

#[test]
fn letters_tell_what_a_name_is(rt: HostRuntime) -> Result<(), Fail> {
    assert!(rt; matches!(special_of(b"get"), Some(Special::Get)));
    assert!(rt; matches!(special_of(b"set"), Some(Special::Set)));
    assert!(rt; matches!(special_of(b"CCode"), Some(Special::CCode)));
    assert!(rt;
        matches!(
            special_of(b"cheader_filename"),
            Some(Special::HeaderFilename)
        )
    );
    assert!(rt; matches!(special_of(b"cname"), Some(Special::CName)));
    assert!(rt; special_of(b"gets").is_none());
    assert!(rt; special_of(b"@get").is_none());
    assert!(rt; same_letters(letters(b"@class"), b"class"));
    assert!(rt; !same_letters(letters(b"Class"), b"class"));
    Ok(())
}

#[test]
fn identifiers_of_c(rt: HostRuntime) -> Result<(), Fail> {
    assert!(rt; is_c_identifier(b"_g2"));
    assert!(rt; is_c_identifier(b"g_object_new"));
    assert!(rt; !is_c_identifier(b""));
    assert!(rt; !is_c_identifier(b"2g"));
    assert!(rt; !is_c_identifier(b"a-b"));
    Ok(())
}
