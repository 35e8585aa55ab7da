// Literals.

ghost use Rattle.std.specs.Prelude.{◌≡◌, ◌+◌, length, pos};
ghost use Rattle.c_tree.specs.Constants as spec;
ghost use Rattle.c_constants.specs.Told.{datum_told, worth_told};

use crate::worth::{Datum, Worth};
use c_lexer::Constant;

/// The value of a capital name.
pub fn constant_worth<'a>(constant: Constant) -> Worth<'a>
    ensures { worth_told result ≡ spec.Is (spec.constant_value constant) }
{
    let number = match constant {
        Constant::Null => return Worth::Is(Datum::NoPlace),
        Constant::False => 0,
        Constant::True | Constant::SignalMatchId | Constant::ConnectAfter => 1,
        Constant::SignalRunLast | Constant::ParamReadwrite => 2,
        Constant::TypeNone | Constant::ParamConstruct => 4,
        Constant::TypeInterface | Constant::SignalMatchFunc => 8,
        Constant::TypeChar => 12,
        Constant::TypeUchar | Constant::SignalMatchData => 16,
        Constant::TypeBoolean => 20,
        Constant::TypeInt => 24,
        Constant::TypeUint => 28,
        Constant::TypeLong => 32,
        Constant::TypeUlong => 36,
        Constant::TypeInt64 => 40,
        Constant::TypeUint64 => 44,
        Constant::TypeString => 64,
        Constant::TypeObject => 80,
    };
    Worth::Is(Datum::Figure(number))
}

/// A character is its byte as a number with a sign.
pub fn character_worth<'a>(byte: u8) -> Worth<'a>
    ensures { worth_told result ≡ spec.Is (spec.Figure (spec.character_value byte)) }
{
    Worth::Is(Datum::Figure(byte.cast_signed() as i128))
}

/// The first place of a text, which has a cell more than bytes.
pub fn text_worth<'a>(bytes: &[u8]) -> Worth<'a>
    ensures { worth_told result ≡ spec.Is (spec.InText (length bytes.now + 1) (pos 0)) }
{
    Worth::Is(Datum::InText(bytes.len() as u64 + 1, 0))
}
