// Where the reader of a format stands, and what one byte does to it.

ghost use Rattle.std.specs.Prelude.{◌≡◌, ◌+◌, ◌*◌, nat_lt, is_some, IfSome};
ghost use Rattle.std.specs.Option.{option_map};
ghost use Rattle.c_meaning.specs.Formats.{Copying, Long, Opened, Width, conversion, directive, ends, flags, goes, is_allowed, step};
ghost use Rattle.c_formats.specs.Seen.{count_of, seen_conversion, seen_mode, seen_piece, seen_step, width_of};

use crate::pieces::{Conversion, Directive, Piece};
use c_texts::is_digit;

/// The digits of a width, which are one to three.
#[derive(Clone, Copy)]
pub enum Digits {
    One(u8),
    Two(u8, u8),
    Three(u8, u8, u8),
}

/// Where the reader stands: among bytes that are copied, behind `%`, among the flags, in the width, behind `l` or `ll`,
/// or behind what is no format.
#[derive(Clone, Copy)]
pub enum Mode {
    Copying,
    Opened,
    Flags {
        is_left: bool,
        is_zeroed: bool,
    },
    Width {
        is_left: bool,
        is_zeroed: bool,
        digits: Digits,
    },
    Long {
        is_left: bool,
        is_zeroed: bool,
        width: u64,
        is_twice: bool,
    },
    Bad,
}

/// What one byte does: the mode behind it, and the piece that it ends.
#[derive(Clone, Copy)]
pub struct Step {
    pub mode: Mode,
    pub piece: Option<Piece>,
}

fn width_of(digits: Digits) -> u64
    ensures { result ≡ width_of digits }
{
    match digits {
        Digits::One(a) => a as u64,
        Digits::Two(a, b) => a as u64 * 10 + b as u64,
        Digits::Three(a, b, c) => (a as u64 * 10 + b as u64) * 10 + c as u64,
    }
}

// One more digit of a width, if it has fewer than three.
fn with_digit(digits: Digits, digit: u8) -> Option<Digits>
    ensures more { IfSome result (λ more. (width_of more ≡ width_of digits * 10 + digit) × (count_of more ≡ count_of digits + 1)) }
    ensures fits { is_some result ≡ nat_lt (count_of digits) 3 }
{
    match digits {
        Digits::One(a) => Some(Digits::Two(a, digit)),
        Digits::Two(a, b) => Some(Digits::Three(a, b, digit)),
        Digits::Three(_, _, _) => None,
    }
}

// A byte that ends no piece.
fn goes(mode: Mode) -> Step
    ensures { seen_step result ≡ goes (seen_mode mode) }
{
    Step { mode, piece: None }
}

// A byte that ends a piece.
fn ends(piece: Piece) -> Step
    ensures { seen_step result ≡ ends (seen_piece piece) }
{
    Step {
        mode: Mode::Copying,
        piece: Some(piece),
    }
}

// The conversion of a letter.
fn conversion(is_long: bool, byte: u8) -> Option<Conversion>
    ensures { option_map seen_conversion result ≡ conversion is_long byte }
{
    if byte == 100 || byte == 105 {
        Some(Conversion::Signed { is_long })
    } else if byte == 117 {
        Some(Conversion::Unsigned { is_long })
    } else if byte == 120 {
        Some(Conversion::Hexadecimal {
            is_long,
            is_upper: false,
        })
    } else if byte == 88 {
        Some(Conversion::Hexadecimal {
            is_long,
            is_upper: true,
        })
    } else if byte == 99 && !is_long {
        Some(Conversion::Character)
    } else if byte == 115 && !is_long {
        Some(Conversion::Text)
    } else {
        None
    }
}

// A text takes no `0`.
fn is_allowed(is_zeroed: bool, conversion: Conversion) -> bool
    ensures { result ≡ is_allowed is_zeroed (seen_conversion conversion) }
{
    match conversion {
        Conversion::Text => !is_zeroed,
        _ => true,
    }
}

// A directive ends with its letter.
fn directive(is_left: bool, is_zeroed: bool, width: u64, found: Option<Conversion>) -> Step
    ensures { seen_step result ≡ directive is_left is_zeroed width (option_map seen_conversion found) }
{
    let Some(conversion) = found else {
        return goes(Mode::Bad);
    };
    if is_allowed(is_zeroed, conversion) {
        ends(Piece::Written(Directive {
            is_left,
            is_zeroed,
            width,
            conversion,
        }))
    } else {
        goes(Mode::Bad)
    }
}

// Flags, then a width, then `l` or `ll`, then a letter.
fn flags(is_left: bool, is_zeroed: bool, byte: u8) -> Step
    ensures { seen_step result ≡ flags is_left is_zeroed byte }
{
    if byte == 45 {
        goes(Mode::Flags {
            is_left: true,
            is_zeroed,
        })
    } else if byte == 48 {
        goes(Mode::Flags {
            is_left,
            is_zeroed: true,
        })
    } else if is_digit(byte) {
        goes(Mode::Width {
            is_left,
            is_zeroed,
            digits: Digits::One(byte - 48),
        })
    } else if byte == 108 {
        goes(Mode::Long {
            is_left,
            is_zeroed,
            width: 0,
            is_twice: false,
        })
    } else {
        directive(is_left, is_zeroed, 0, conversion(false, byte))
    }
}

// A byte behind digits of a width.
fn width(is_left: bool, is_zeroed: bool, digits: Digits, byte: u8) -> Step
    ensures { seen_step result ≡ step (Width is_left is_zeroed (width_of digits) (count_of digits)) byte }
{
    if is_digit(byte) {
        match with_digit(digits, byte - 48) {
            Some(digits) => goes(Mode::Width {
                is_left,
                is_zeroed,
                digits,
            }),
            None => goes(Mode::Bad),
        }
    } else if byte == 108 {
        goes(Mode::Long {
            is_left,
            is_zeroed,
            width: width_of(digits),
            is_twice: false,
        })
    } else {
        directive(
            is_left,
            is_zeroed,
            width_of(digits),
            conversion(false, byte),
        )
    }
}

// A byte behind `l` or `ll`.
fn long(is_left: bool, is_zeroed: bool, width: u64, is_twice: bool, byte: u8) -> Step
    ensures { seen_step result ≡ step (Long is_left is_zeroed width is_twice) byte }
{
    if !is_twice && byte == 108 {
        goes(Mode::Long {
            is_left,
            is_zeroed,
            width,
            is_twice: true,
        })
    } else {
        directive(is_left, is_zeroed, width, conversion(true, byte))
    }
}

// A byte among bytes that are copied, and one behind `%`.
fn copying(byte: u8) -> Step
    ensures { seen_step result ≡ step Copying byte }
{
    if byte == 37 {
        goes(Mode::Opened)
    } else {
        ends(Piece::Byte(byte))
    }
}

fn opened(byte: u8) -> Step
    ensures { seen_step result ≡ step Opened byte }
{
    if byte == 37 {
        ends(Piece::Byte(37))
    } else {
        flags(false, false, byte)
    }
}

/// What one byte does to the reader.
pub fn read_byte(mode: Mode, byte: u8) -> Step
    ensures { seen_step result ≡ step (seen_mode mode) byte }
{
    match mode {
        Mode::Copying => copying(byte),
        Mode::Opened => opened(byte),
        Mode::Flags { is_left, is_zeroed } => flags(is_left, is_zeroed, byte),
        Mode::Width {
            is_left,
            is_zeroed,
            digits,
        } => width(is_left, is_zeroed, digits, byte),
        Mode::Long {
            is_left,
            is_zeroed,
            width,
            is_twice,
        } => long(is_left, is_zeroed, width, is_twice, byte),
        Mode::Bad => goes(Mode::Bad),
    }
}
