// Kinds of numbers, and the kinds that numbers are computed in.

ghost use Rattle.std.specs.Prelude.{◌≡◌};
ghost use Rattle.c_tree.specs.Kinds as spec;

use c_tree::{Kind, KindBase, Width};

pub fn is_integer(kind: Kind) -> bool
    ensures { result ≡ spec.is_integer kind }
{
    matches!(kind.base, KindBase::Integer(_, _)) && kind.stars == 0
}

pub fn is_struct(kind: Kind) -> bool
    ensures { result ≡ spec.is_struct kind }
{
    matches!(kind.base, KindBase::Struct(_)) && kind.stars == 0
}

fn widened_base(base: KindBase) -> KindBase
    ensures { result ≡ spec.widened_base base }
{
    match base {
        KindBase::Integer(Width::Eight | Width::Sixteen, _) => {
            KindBase::Integer(Width::ThirtyTwo, true)
        }
        _ => base,
    }
}

/// An integer of 8 or 16 bits becomes a `gint`.
pub fn widened(kind: Kind) -> Kind
    ensures { result ≡ spec.widened kind }
{
    Kind {
        base: widened_base(kind.base),
        stars: kind.stars,
    }
}

fn common_base(a: KindBase, b: KindBase) -> KindBase
    ensures { result ≡ spec.common_base a b }
{
    match (a, b) {
        (KindBase::Integer(Width::ThirtyTwo, s), KindBase::Integer(Width::ThirtyTwo, t)) =>
            KindBase::Integer(Width::ThirtyTwo, s && t),
        (KindBase::Integer(Width::SixtyFour, s), KindBase::Integer(Width::SixtyFour, t)) =>
            KindBase::Integer(Width::SixtyFour, s && t),
        (KindBase::Integer(Width::SixtyFour, _), _) => a,
        _ => b,
    }
}

/// The kind that two integers are computed in.
pub fn common(a: Kind, b: Kind) -> Kind
    ensures { result ≡ spec.common a b }
{
    Kind {
        base: common_base(widened(a).base, widened(b).base),
        stars: 0,
    }
}
