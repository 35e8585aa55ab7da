// Kinds and faults, by examples.

use c_tree::{BinaryOperator, Cause, Fault, Kind, KindBase, Level, Operand, Width};
use c_value_checker::{
    applied, casts, choose, common, fits, is_argument, is_before, is_function, is_integer,
    is_pointer, is_pointer_or_function, is_scalar, is_struct, is_void, keep, level_of, same,
    widened,
};
use std::test::Fail;

const VOID: Kind = Kind {
    base: KindBase::Void,
    stars: 0,
};

const POINTER: Kind = Kind {
    base: KindBase::Void,
    stars: 1,
};

const CHAR: Kind = Kind {
    base: KindBase::Integer(Width::Eight, true),
    stars: 0,
};

const TEXT: Kind = Kind {
    base: KindBase::Integer(Width::Eight, true),
    stars: 1,
};

const INT: Kind = Kind {
    base: KindBase::Integer(Width::ThirtyTwo, true),
    stars: 0,
};

const UINT: Kind = Kind {
    base: KindBase::Integer(Width::ThirtyTwo, false),
    stars: 0,
};

const LONG: Kind = Kind {
    base: KindBase::Integer(Width::SixtyFour, true),
    stars: 0,
};

const ULONG: Kind = Kind {
    base: KindBase::Integer(Width::SixtyFour, false),
    stars: 0,
};

const STRUCT: Kind = Kind {
    base: KindBase::Struct(3),
    stars: 0,
};

const FUNCTION: Kind = Kind {
    base: KindBase::Function(0),
    stars: 0,
};

#[test]
fn numbers_are_widened_as_in_c(rt: HostRuntime) -> Result<(), Fail> {
    let cases = [
        (CHAR, CHAR, INT),
        (CHAR, UINT, UINT),
        (INT, UINT, UINT),
        (UINT, LONG, LONG),
        (LONG, ULONG, ULONG),
        (LONG, INT, LONG),
    ];
    for (a, b, c) in cases {
        assert!(rt; same(common(a, b), c));
        assert!(rt; same(common(b, a), c));
    }
    assert!(rt; same(widened(CHAR), INT));
    Ok(())
}

#[test]
fn kinds_have_their_classes(rt: HostRuntime) -> Result<(), Fail> {
    // Integer, pointer, function, struct, void, scalar, pointer or function, argument.
    let cases = [
        (INT, [true, false, false, false, false, true, false, true]),
        (TEXT, [false, true, false, false, false, true, true, true]),
        (
            FUNCTION,
            [false, false, true, false, false, false, true, true],
        ),
        (
            STRUCT,
            [false, false, false, true, false, false, false, false],
        ),
        (
            VOID,
            [false, false, false, false, true, false, false, false],
        ),
    ];
    for (kind, wanted) in cases {
        let found = [
            is_integer(kind),
            is_pointer(kind),
            is_function(kind),
            is_struct(kind),
            is_void(kind),
            is_scalar(kind),
            is_pointer_or_function(kind),
            is_argument(kind),
        ];
        assert_eq!(rt; found, wanted);
    }
    Ok(())
}

#[test]
fn values_fit_by_the_rules(rt: HostRuntime) -> Result<(), Fail> {
    // The place, the value, whether it is the word `NULL`, whether it fits, and whether there is a cast.
    let cases = [
        (INT, ULONG, false, true, true),
        (INT, TEXT, false, false, false),
        (TEXT, POINTER, false, true, true),
        (POINTER, TEXT, false, true, true),
        (TEXT, TEXT, false, true, true),
        (FUNCTION, POINTER, false, false, true),
        (FUNCTION, POINTER, true, true, true),
        (STRUCT, STRUCT, false, true, false),
        (INT, POINTER, true, false, false),
    ];
    for (place, value, null, wanted, cast) in cases {
        assert_eq!(rt; fits(place, value, null), wanted);
        assert_eq!(rt; casts(place, value), cast);
    }
    Ok(())
}

fn operand(kind: Kind) -> Operand {
    Operand { kind, null: false }
}

fn is_kind(found: Option<Kind>, wanted: Kind) -> bool {
    match found {
        Some(kind) => same(kind, wanted),
        None => false,
    }
}

#[test]
fn operators_give_their_kinds(rt: HostRuntime) -> Result<(), Fail> {
    let cases = [
        (BinaryOperator::Add, TEXT, INT, TEXT),
        (BinaryOperator::Subtract, TEXT, TEXT, LONG),
        (BinaryOperator::Equal, FUNCTION, FUNCTION, INT),
        (BinaryOperator::ShiftLeft, CHAR, ULONG, INT),
        (BinaryOperator::Or, TEXT, INT, INT),
        (BinaryOperator::BitAnd, UINT, INT, UINT),
    ];
    for (operator, a, b, wanted) in cases {
        let found = applied(true, operator, operand(a), operand(b));
        assert!(rt; is_kind(found, wanted));
    }
    let wrong = [
        (BinaryOperator::Add, INT, TEXT),
        (BinaryOperator::Equal, STRUCT, STRUCT),
        (BinaryOperator::Less, TEXT, TEXT),
        (BinaryOperator::And, FUNCTION, INT),
    ];
    for (operator, a, b) in wrong {
        let found = applied(true, operator, operand(a), operand(b));
        assert!(rt; found.is_none());
    }
    Ok(())
}

#[test]
fn choices_give_their_kinds(rt: HostRuntime) -> Result<(), Fail> {
    let null = Operand {
        kind: POINTER,
        null: true,
    };
    assert!(rt; is_kind(choose(null, operand(FUNCTION)), FUNCTION));
    assert!(rt; is_kind(choose(operand(TEXT), operand(POINTER)), POINTER));
    assert!(rt; is_kind(choose(operand(INT), operand(UINT)), UINT));
    assert!(rt; choose(operand(TEXT), operand(INT)).is_none());
    Ok(())
}

#[test]
fn operators_have_their_levels(rt: HostRuntime) -> Result<(), Fail> {
    assert!(rt; matches!(level_of(BinaryOperator::Remainder), Level::Product));
    assert!(rt; matches!(level_of(BinaryOperator::Or), Level::Or));
    Ok(())
}

fn misfit(place: u32, since: u32) -> Fault {
    Fault {
        place,
        cause: Cause::Misfit,
        since,
    }
}

#[test]
fn the_first_fault_is_kept(rt: HostRuntime) -> Result<(), Fail> {
    let undeclared = Fault {
        place: 7,
        cause: Cause::Undeclared,
        since: 7,
    };
    assert!(rt; is_before(undeclared, misfit(7, 9)));
    let mut least = None;
    keep(&mut least, 20, misfit(9, 12));
    keep(&mut least, 20, misfit(7, 9));
    keep(&mut least, 20, undeclared);
    keep(&mut least, 20, misfit(3, 21));
    assert!(rt;
        matches!(
            least,
            Some(Fault {
                place: 7,
                cause: Cause::Undeclared,
                since: 7
            })
        )
    );
    Ok(())
}
