// What happens to the ownership of a value that goes into a place.

ghost use Rattle.std.specs.Prelude.{◌≡◌};
ghost use Rattle.vala_types.specs.Changes.{Changes, owns as owns_of};
ghost use Rattle.vala_types.specs.Fits.{GoesInto};
ghost use Rattle.vala_types.specs.Rows.{into_other as other_row, into_owner as owner_row};

use crate::types::{Shape, VType};

/// What is done to a value that goes into a place.
#[derive(Clone, Copy, Debug, PartialEq, Eq)]
pub enum Change {
    /// The place gets the value as it is. No owner comes or goes.
    Keep,
    /// The place becomes the owner in place of the one that gave the value.
    Move,
    /// A new text with the same bytes goes into the place.
    CopyText,
    /// A new array goes into the place, with copies of the elements.
    CopyArray,
    /// A copy of the struct goes into the place, field by field.
    CopyStruct,
    /// A new error of the same domain, code and message goes into the place.
    CopyError,
    /// The place becomes one more owner of the object.
    AddOwner,
    /// The value cannot go there, since a delegate has no copy.
    NotCopied,
}

/// Whether a place of this type owns what it holds. A place of struct type always does.
fn owns(place: &VType) -> bool
    ensures { result ≡ owns_of place.now }
{
    place.owned || matches!(place.shape, Shape::Struct(_))
}

/// The change into a place that owns.
fn into_owner(shape: Shape, is_fresh: bool) -> Change
    ensures { result ≡ owner_row shape is_fresh }
{
    match shape {
        Shape::Void
        | Shape::Bool
        | Shape::Int(_)
        | Shape::Enum(_)
        | Shape::Null
        | Shape::AsyncResult
        | Shape::ParamSpec => Change::Keep,
        _ if is_fresh => Change::Move,
        Shape::Text => Change::CopyText,
        Shape::Array { .. } => Change::CopyArray,
        Shape::Struct(_) => Change::CopyStruct,
        Shape::Error(_) => Change::CopyError,
        Shape::Class(_) | Shape::Interface(_) => Change::AddOwner,
        Shape::Delegate(_) => Change::NotCopied,
    }
}

/// The change into a place that does not own.
fn into_other(shape: Shape, is_fresh: bool) -> Change
    ensures { result ≡ other_row shape is_fresh }
{
    match shape {
        Shape::Struct(_) if !is_fresh => Change::CopyStruct,
        _ => Change::Keep,
    }
}

/// What is done to a value of one type that goes into a place of another.
pub fn owner_change(from: &VType, to: &VType) -> Change
    requires { GoesInto from.now to.now }
    ensures { Changes from.now to.now result }
{
    if owns(to) {
        into_owner(from.shape, from.owned)
    } else {
        into_other(from.shape, from.owned)
    }
}
