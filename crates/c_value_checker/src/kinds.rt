// Kinds: which are equal, which values fit which places, and what operators give.

ghost use Rattle.std.specs.Prelude.{◌≡◌, Bool};
ghost use Rattle.c_tree.specs.Kinds as spec;
ghost use Rattle.c_tree.specs.declared.kinds.Kind.{Kind};

use c_tree::{BinaryOperator, Kind, KindBase, Level, Operand, Width};

pub const GPOINTER: Kind = Kind {
    base: KindBase::Void,
    stars: 1,
};

pub const INT: Kind = Kind {
    base: KindBase::Integer(Width::ThirtyTwo, true),
    stars: 0,
};

pub const UINT: Kind = Kind {
    base: KindBase::Integer(Width::ThirtyTwo, false),
    stars: 0,
};

pub const LONG: Kind = Kind {
    base: KindBase::Integer(Width::SixtyFour, true),
    stars: 0,
};

pub const ULONG: Kind = Kind {
    base: KindBase::Integer(Width::SixtyFour, false),
    stars: 0,
};

pub const TEXT: Kind = Kind {
    base: KindBase::Integer(Width::Eight, true),
    stars: 1,
};

pub const VOID: Kind = Kind {
    base: KindBase::Void,
    stars: 0,
};

pub fn bits(width: Width) -> u32
    ensures { result ≡ spec.bits width }
{
    match width {
        Width::Eight => 8,
        Width::Sixteen => 16,
        Width::ThirtyTwo => 32,
        Width::SixtyFour => 64,
    }
}

fn same_base(a: KindBase, b: KindBase) -> bool
    ensures { result ≡ spec.same_base a b }
{
    match (a, b) {
        (KindBase::Void, KindBase::Void) => true,
        (KindBase::Integer(w, s), KindBase::Integer(v, t)) => bits(w) == bits(v) && s == t,
        (KindBase::Struct(n), KindBase::Struct(m)) => n == m,
        (KindBase::Function(n), KindBase::Function(m)) => n == m,
        _ => false,
    }
}

/// One type, apart from `const`.
pub fn same(a: Kind, b: Kind) -> bool
    ensures { result ≡ spec.same a b }
{
    same_base(a.base, b.base) && a.stars == b.stars
}

pub fn is_integer(kind: Kind) -> bool
    ensures { result ≡ spec.is_integer kind }
{
    matches!(kind.base, KindBase::Integer(_, _)) && kind.stars == 0
}

pub fn is_function(kind: Kind) -> bool
    ensures { result ≡ spec.is_function kind }
{
    matches!(kind.base, KindBase::Function(_)) && kind.stars == 0
}

pub fn is_struct(kind: Kind) -> bool
    ensures { result ≡ spec.is_struct kind }
{
    matches!(kind.base, KindBase::Struct(_)) && kind.stars == 0
}

pub fn is_pointer(kind: Kind) -> bool
    ensures { result ≡ spec.is_pointer kind }
{
    kind.stars > 0
}

pub fn is_void(kind: Kind) -> bool
    ensures { result ≡ spec.is_void kind }
{
    same(kind, VOID)
}

/// What a condition is: an integer or a pointer.
pub fn is_scalar(kind: Kind) -> bool
    ensures { result ≡ spec.is_scalar kind }
{
    is_integer(kind) || is_pointer(kind)
}

pub fn is_pointer_or_function(kind: Kind) -> bool
    ensures { result ≡ spec.is_pointer_or_function kind }
{
    is_pointer(kind) || is_function(kind)
}

/// What `..` takes.
pub fn is_argument(kind: Kind) -> bool
    ensures { result ≡ spec.is_argument kind }
{
    is_integer(kind) || is_pointer_or_function(kind)
}

/// Whether a value of a kind, which may be the word `NULL`, fits a place of a kind.
pub fn fits(place: Kind, value: Kind, null: bool) -> bool
    ensures { result ≡ spec.fits place value null }
{
    (is_integer(place) && is_integer(value))
        || same(place, value)
        || (is_pointer(place)
            && is_pointer(value)
            && (same(place, GPOINTER) || same(value, GPOINTER)))
        || (null && is_pointer_or_function(place))
}

/// Whether there is a cast.
pub fn casts(to: Kind, from: Kind) -> bool
    ensures { result ≡ spec.casts to from }
{
    (is_integer(to) && is_integer(from))
        || (is_pointer_or_function(to) && is_pointer_or_function(from))
}

fn widened_base(base: KindBase) -> KindBase
    ensures { result ≡ spec.widened_base base }
{
    match base {
        KindBase::Integer(Width::Eight | Width::Sixteen, _) => {
            KindBase::Integer(Width::ThirtyTwo, true)
        }
        _ => base,
    }
}

/// An integer of 8 or 16 bits becomes a `gint`.
pub fn widened(kind: Kind) -> Kind
    ensures { result ≡ spec.widened kind }
{
    Kind {
        base: widened_base(kind.base),
        stars: kind.stars,
    }
}

fn common_base(a: KindBase, b: KindBase) -> KindBase
    ensures { result ≡ spec.common_base a b }
{
    match (a, b) {
        (KindBase::Integer(Width::ThirtyTwo, s), KindBase::Integer(Width::ThirtyTwo, t)) =>
            KindBase::Integer(Width::ThirtyTwo, s && t),
        (KindBase::Integer(Width::SixtyFour, s), KindBase::Integer(Width::SixtyFour, t)) =>
            KindBase::Integer(Width::SixtyFour, s && t),
        (KindBase::Integer(Width::SixtyFour, _), _) => a,
        _ => b,
    }
}

/// The kind that two integers are computed in.
pub fn common(a: Kind, b: Kind) -> Kind
    ensures { result ≡ spec.common a b }
{
    Kind {
        base: common_base(widened(a).base, widened(b).base),
        stars: 0,
    }
}

fn given_if(test: bool, kind: Kind) -> Option<Kind>
    ensures { result ≡ spec.given_if test kind }
{
    if test { Some(kind) } else { None }
}

fn arithmetic(a: Kind, b: Kind) -> Option<Kind>
    ensures { result ≡ spec.arithmetic a b }
{
    given_if(is_integer(a) && is_integer(b), common(a, b))
}

fn shift(a: Kind, b: Kind) -> Option<Kind>
    ensures { result ≡ spec.shift a b }
{
    given_if(is_integer(a) && is_integer(b), widened(a))
}

fn equality(a: Operand, b: Operand) -> Option<Kind>
    ensures { result ≡ spec.equality a b }
{
    given_if(
        !is_struct(a.kind)
            && !is_void(a.kind)
            && (fits(a.kind, b.kind, b.null) || fits(b.kind, a.kind, a.null)),
        INT,
    )
}

fn relation(a: Kind, b: Kind) -> Option<Kind>
    ensures { result ≡ spec.relation a b }
{
    given_if(is_integer(a) && is_integer(b), INT)
}

fn both(a: Kind, b: Kind) -> Option<Kind>
    ensures { result ≡ spec.both a b }
{
    given_if(is_scalar(a) && is_scalar(b), INT)
}

/// What an operator gives, where it takes these; `reaches` says whether the first leads to what is laid out.
fn moved(reaches: bool, a: Kind, b: Kind) -> Option<Kind>
    ensures { (f : Kind → Bool) → f a ≡ reaches → result ≡ spec.moved f a b }
{
    if reaches && is_integer(b) {
        Some(a)
    } else {
        arithmetic(a, b)
    }
}

fn difference(reaches: bool, a: Kind, b: Kind) -> Option<Kind>
    ensures { (f : Kind → Bool) → f a ≡ reaches → result ≡ spec.difference f a b }
{
    if same(a, TEXT) && same(b, TEXT) {
        Some(LONG)
    } else {
        moved(reaches, a, b)
    }
}

/// What an operator gives, where it takes these; `reaches` says whether the first leads to what is laid out.
pub fn applied(reaches: bool, operator: BinaryOperator, a: Operand, b: Operand) -> Option<Kind>
    ensures { (f : Kind → Bool) → f a.kind ≡ reaches → result ≡ spec.applied f operator a b }
{
    match operator {
        BinaryOperator::Or | BinaryOperator::And => both(a.kind, b.kind),
        BinaryOperator::Equal | BinaryOperator::Unequal => equality(a, b),
        BinaryOperator::Less
        | BinaryOperator::Greater
        | BinaryOperator::AtMost
        | BinaryOperator::AtLeast => relation(a.kind, b.kind),
        BinaryOperator::ShiftLeft | BinaryOperator::ShiftRight => shift(a.kind, b.kind),
        BinaryOperator::Add => moved(reaches, a.kind, b.kind),
        BinaryOperator::Subtract => difference(reaches, a.kind, b.kind),
        BinaryOperator::BitOr
        | BinaryOperator::BitXor
        | BinaryOperator::BitAnd
        | BinaryOperator::Multiply
        | BinaryOperator::Divide
        | BinaryOperator::Remainder => arithmetic(a.kind, b.kind),
    }
}

/// What `?:` gives of its last two.
pub fn choose(a: Operand, b: Operand) -> Option<Kind>
    ensures { result ≡ spec.chosen a b }
{
    if is_integer(a.kind) && is_integer(b.kind) {
        return Some(common(a.kind, b.kind));
    }
    if is_void(a.kind) {
        return None;
    }
    if same(a.kind, b.kind) {
        return Some(a.kind);
    }
    if a.null && is_pointer_or_function(b.kind) {
        return Some(b.kind);
    }
    if b.null && is_pointer_or_function(a.kind) {
        return Some(a.kind);
    }
    let both_point = is_pointer(a.kind) && is_pointer(b.kind);
    given_if(
        both_point && (same(a.kind, GPOINTER) || same(b.kind, GPOINTER)),
        GPOINTER,
    )
}

/// How tightly an operator binds.
pub fn level_of(operator: BinaryOperator) -> Level
    ensures { result ≡ spec.level_of operator }
{
    match operator {
        BinaryOperator::Or => Level::Or,
        BinaryOperator::And => Level::And,
        BinaryOperator::BitOr => Level::BitOr,
        BinaryOperator::BitXor => Level::BitXor,
        BinaryOperator::BitAnd => Level::BitAnd,
        BinaryOperator::Equal | BinaryOperator::Unequal => Level::Equality,
        BinaryOperator::Less
        | BinaryOperator::Greater
        | BinaryOperator::AtMost
        | BinaryOperator::AtLeast => Level::Relation,
        BinaryOperator::ShiftLeft | BinaryOperator::ShiftRight => Level::Shift,
        BinaryOperator::Add | BinaryOperator::Subtract => Level::Sum,
        BinaryOperator::Multiply | BinaryOperator::Divide | BinaryOperator::Remainder => {
            Level::Product
        }
    }
}
