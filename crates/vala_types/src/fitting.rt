// Which values go into which places by themselves.

ghost use Rattle.std.specs.Prelude.{◌≡◌, ◌↔◌, IsTrue};
ghost use Rattle.vala_types.specs.Fits.{Fits};
ghost use Rattle.vala_types.specs.Ranks.{rank as rank_of};
ghost use Rattle.vala_types.specs.Tests.{class_goes, enum_goes, error_goes, int_goes, interface_goes, null_goes, same_item, shape_goes};

use crate::ties::Ties;
use crate::types::{IntKind, ItemShape, Shape, VType};

/// The place of a kind in the order of the integer types.
fn rank(kind: IntKind) -> u8
    ensures { result ≡ rank_of kind }
{
    match kind {
        IntKind::Int8 => 0,
        IntKind::Char => 1,
        IntKind::Uint8 => 2,
        IntKind::Int16 => 3,
        IntKind::Uint16 => 4,
        IntKind::Int32 => 5,
        IntKind::Uint32 => 6,
        IntKind::Long => 7,
        IntKind::Ulong => 8,
        IntKind::Int64 => 9,
        IntKind::Uint64 => 10,
    }
}

fn int_fits(from: IntKind, to: Shape) -> bool
    ensures { result ≡ int_goes from to }
{
    match to {
        Shape::Int(kind) => rank(from) <= rank(kind),
        _ => false,
    }
}

fn enum_fits(from: u32, to: Shape) -> bool
    ensures { result ≡ enum_goes from to }
{
    match to {
        Shape::Enum(number) => from == number,
        _ => int_fits(IntKind::Int32, to),
    }
}

fn class_fits(ties: &Ties, from: u32, to: Shape) -> bool
    ensures { result ≡ class_goes ties.now from to }
{
    match to {
        Shape::Class(base) => from == base || ties.has_base(from, base),
        Shape::Interface(base) => ties.has_base(from, base),
        _ => false,
    }
}

fn interface_fits(ties: &Ties, from: u32, to: Shape) -> bool
    ensures { result ≡ interface_goes ties.now from to }
{
    match to {
        Shape::Interface(number) => from == number,
        Shape::Class(number) => number == ties.object,
        _ => false,
    }
}

fn error_fits(from: Option<u32>, to: Shape) -> bool
    ensures { result ≡ error_goes from to }
{
    match (from, to) {
        (_, Shape::Error(None)) => true,
        (Some(domain), Shape::Error(Some(other))) => domain == other,
        _ => false,
    }
}

fn null_fits(to: Shape) -> bool
    ensures { result ≡ null_goes to }
{
    matches!(
        to,
        Shape::Null
            | Shape::Text
            | Shape::Class(_)
            | Shape::Interface(_)
            | Shape::Delegate(_)
            | Shape::Error(_)
            | Shape::Array { .. }
    )
}

fn is_same_item(from: ItemShape, to: ItemShape) -> bool
    ensures { result ≡ same_item from to }
{
    match (from, to) {
        (ItemShape::Bool, ItemShape::Bool) | (ItemShape::Text, ItemShape::Text) => true,
        (ItemShape::Int(a), ItemShape::Int(b)) => rank(a) == rank(b),
        (ItemShape::Error(a), ItemShape::Error(b)) => a == b,
        (ItemShape::Enum(a), ItemShape::Enum(b))
        | (ItemShape::Struct(a), ItemShape::Struct(b))
        | (ItemShape::Class(a), ItemShape::Class(b))
        | (ItemShape::Interface(a), ItemShape::Interface(b))
        | (ItemShape::Delegate(a), ItemShape::Delegate(b)) => a == b,
        _ => false,
    }
}

fn shape_fits(ties: &Ties, from: Shape, to: Shape) -> bool
    ensures { result ≡ shape_goes ties.now from to }
{
    match (from, to) {
        (Shape::Int(kind), _) => int_fits(kind, to),
        (Shape::Enum(number), _) => enum_fits(number, to),
        (Shape::Class(number), _) => class_fits(ties, number, to),
        (Shape::Interface(number), _) => interface_fits(ties, number, to),
        (Shape::Error(domain), _) => error_fits(domain, to),
        (Shape::Null, _) => null_fits(to),
        (Shape::Array { of }, Shape::Array { of: other }) => is_same_item(of.shape, other.shape),
        (Shape::Struct(a), Shape::Struct(b)) | (Shape::Delegate(a), Shape::Delegate(b)) => a == b,
        (Shape::Void, Shape::Void)
        | (Shape::Bool, Shape::Bool)
        | (Shape::Text, Shape::Text)
        | (Shape::AsyncResult, Shape::AsyncResult)
        | (Shape::ParamSpec, Shape::ParamSpec) => true,
        _ => false,
    }
}

/// Whether a value of one type goes into a place of another by itself. The types alone are looked at: that a constant goes
/// into every type that holds it, and a method or lambda into a delegate, is told where expressions are typed.
///
/// The time is linear in the numbers of classes, interfaces and bases, whatever the bases are, circles included. No memory is
/// taken, and a table of `MOST_ROWS` numbers stands on the stack.
pub fn fits(ties: &Ties, from: &VType, to: &VType) -> bool
    ensures { IsTrue result ↔ Fits ties.now from.now to.now }
{
    shape_fits(ties, from.shape, to.shape)
}
