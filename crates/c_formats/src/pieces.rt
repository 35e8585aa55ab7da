// What a format is made of.

/// What a directive takes: a number with a sign or without, of 32 bits or 64, a character, or a text.
#[derive(Clone, Copy)]
pub enum Conversion {
    Signed { is_long: bool },
    Unsigned { is_long: bool },
    Hexadecimal { is_long: bool, is_upper: bool },
    Character,
    Text,
}

/// A directive: it fills up to a width, in front or behind, with spaces or zeros.
#[derive(Clone, Copy)]
pub struct Directive {
    pub is_left: bool,
    pub is_zeroed: bool,
    pub width: u64,
    pub conversion: Conversion,
}

/// A byte that is copied, or a directive.
#[derive(Clone, Copy)]
pub enum Piece {
    Byte(u8),
    Written(Directive),
}
