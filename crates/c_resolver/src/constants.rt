// Values that are known before the run.

ghost use Rattle.std.specs.Prelude.{◌≡◌, pos};
ghost use Rattle.c_tree.specs.Checks.{number_kind};
ghost use Rattle.c_tree.specs.Constants.{character_value, constant_value};
ghost use Rattle.c_tree.specs.Kinds.{long, ulong};
ghost use Rattle.c_tree.specs.Library.{constant_kind};
ghost use Rattle.c_meaning.specs.declared.cell.Cell.TheVariants.{Int};
ghost use Rattle.c_meaning.specs.Numbers.{number};
ghost use Rattle.c_meaning.specs.Values.{datum_cell};

use c_lexer::{Constant, NumberType};
use c_meaning::Cell;
use c_tree::Number;

/// A number of a count, as a `gulong`.
pub fn size_cell(count: u64) -> Cell
    ensures { result ≡ number ulong (pos count) }
{
    Cell::Uns(count)
}

/// A number of a count, as a `glong`.
pub fn place_cell(count: u64) -> Cell
    ensures { result ≡ number long (pos count) }
{
    Cell::Int(count.cast_signed())
}

/// A number as it is written.
pub fn number_cell(written: Number) -> Cell
    ensures { result ≡ number (number_kind written.kind) (pos written.value) }
{
    let low = (written.value % (1 << 32)) as u32;
    match written.kind {
        NumberType::Gint => Cell::Int(low.cast_signed() as i64),
        NumberType::Guint => Cell::Uns(low as u64),
        NumberType::Glong => place_cell(written.value),
        NumberType::Gulong => size_cell(written.value),
    }
}

/// A character is its byte as a number with a sign.
pub fn character_cell(byte: u8) -> Cell
    ensures { result ≡ Int (character_value byte) }
{
    Cell::Int(byte.cast_signed() as i64)
}

/// A capital name.
pub fn constant_cell(constant: Constant) -> Cell
    ensures { result ≡ datum_cell (constant_kind constant) (constant_value constant) }
{
    match constant {
        Constant::Null => Cell::Null,
        Constant::False => Cell::Int(0),
        Constant::True | Constant::SignalMatchId | Constant::ConnectAfter => Cell::Int(1),
        Constant::SignalRunLast | Constant::ParamReadwrite => Cell::Int(2),
        Constant::ParamConstruct => Cell::Int(4),
        Constant::SignalMatchFunc => Cell::Int(8),
        Constant::SignalMatchData => Cell::Int(16),
        Constant::TypeNone => Cell::Uns(4),
        Constant::TypeInterface => Cell::Uns(8),
        Constant::TypeChar => Cell::Uns(12),
        Constant::TypeUchar => Cell::Uns(16),
        Constant::TypeBoolean => Cell::Uns(20),
        Constant::TypeInt => Cell::Uns(24),
        Constant::TypeUint => Cell::Uns(28),
        Constant::TypeLong => Cell::Uns(32),
        Constant::TypeUlong => Cell::Uns(36),
        Constant::TypeInt64 => Cell::Uns(40),
        Constant::TypeUint64 => Cell::Uns(44),
        Constant::TypeString => Cell::Uns(64),
        Constant::TypeObject => Cell::Uns(80),
    }
}
