// What a token is to the grammar of declarations, by its letters.

ghost use Rattle.std.specs.Prelude.{◌≡◌, ◌||◌};
ghost use Rattle.std.specs.List.{list_all};
ghost use Rattle.vala_grammar.specs.Trees as tree;
ghost use Rattle.vala_lexer.specs.Bytes as class;
ghost use Rattle.vala_file_grammar.specs.Kinds as spec;

/// A word that is no keyword, but stands alone in its places.
#[derive(Clone, Copy)]
pub enum Special {
    Get,
    Set,
    /// `CCode`, the attribute.
    CCode,
    /// `cheader_filename`, its first argument.
    HeaderFilename,
    /// `cname`, its second.
    CName,
}

/// Whether both have the same letters.
pub fn same_letters(one: &[u8], other: &[u8]) -> bool
    ensures { result ≡ tree.same_bytes one.now other.now }
{
    match one {
        [] => other.is_empty(),
        [a, one @ ..] => match other {
            [] => false,
            [b, other @ ..] => *a == *b && same_letters(one, other),
        },
    }
}

/// The letters of a name, without the `@` in front that makes a keyword one.
pub fn letters(name: &[u8]) -> &[u8]
    ensures { result.now ≡ tree.word name.now }
{
    match name {
        [b'@', word @ ..] => word,
        _ => name,
    }
}

/// The special word that a name is.
pub fn special_of(name: &[u8]) -> Option<Special>
    ensures { spec.base_told result ≡ spec.base_of_name name.now }
{
    if same_letters(name, b"get") {
        Some(Special::Get)
    } else if same_letters(name, b"set") {
        Some(Special::Set)
    } else if same_letters(name, b"CCode") {
        Some(Special::CCode)
    } else if same_letters(name, b"cheader_filename") {
        Some(Special::HeaderFilename)
    } else if same_letters(name, b"cname") {
        Some(Special::CName)
    } else {
        None
    }
}

fn is_letter(byte: u8) -> bool
    ensures { result ≡ class.is_letter byte }
{
    matches!(byte, b'A'..=b'Z' | b'_' | b'a'..=b'z')
}

fn is_letter_or_digit(byte: u8) -> bool
    ensures { result ≡ (class.is_letter byte || class.is_digit byte) }
{
    is_letter(byte) || matches!(byte, b'0'..=b'9')
}

fn are_letters_or_digits(bytes: &[u8]) -> bool
    ensures { result ≡ list_all (λ b. class.is_letter b || class.is_digit b) bytes.now }
{
    match bytes {
        [] => true,
        [first, others @ ..] => is_letter_or_digit(*first) && are_letters_or_digits(others),
    }
}

/// Whether the bytes that a text denotes are a C identifier.
pub fn is_c_identifier(bytes: &[u8]) -> bool
    ensures { result ≡ spec.is_c_identifier bytes.now }
{
    match bytes {
        [] => false,
        [first, others @ ..] => is_letter(*first) && are_letters_or_digits(others),
    }
}
