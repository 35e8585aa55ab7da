// The kinds of values without values in them.

ghost use Rattle.std.specs.Prelude.{◌≡◌};
ghost use Rattle.c_tree.specs.Checks as spec;
ghost use Rattle.c_tree.specs.Env.{found};
ghost use Rattle.c_tree.specs.Library as library;
ghost use Rattle.c_value_checker.specs.Seen.{seen};

use c_lexer::{Constant, NumberType};
use c_tree::{Kind, KindBase, Name, Operand, Sort};
use c_value_checker::{Environment, GPOINTER, INT, LONG, UINT, ULONG};

/// The kind of a number.
pub fn number_kind(number: NumberType) -> Kind
    ensures { result ≡ spec.number_kind number }
{
    match number {
        NumberType::Gint => INT,
        NumberType::Guint => UINT,
        NumberType::Glong => LONG,
        NumberType::Gulong => ULONG,
    }
}

/// The kind of a capital name.
pub fn constant_kind(constant: Constant) -> Kind
    ensures { result ≡ library.constant_kind constant }
{
    match constant {
        Constant::Null => GPOINTER,
        Constant::True
        | Constant::False
        | Constant::SignalRunLast
        | Constant::SignalMatchId
        | Constant::SignalMatchFunc
        | Constant::SignalMatchData
        | Constant::ConnectAfter
        | Constant::ParamReadwrite
        | Constant::ParamConstruct => INT,
        _ => ULONG,
    }
}

/// The kind of a variable.
pub fn variable_kind(environment: &Environment, name: &Name) -> Option<Kind>
    ensures { result ≡ spec.variable_kind (found (seen environment.now).scopes name.now.text) }
{
    match environment.find(name) {
        Some(Sort::Variable(kind)) => kind,
        _ => None,
    }
}

/// The kind of a function as a value.
pub fn function_kind(environment: &Environment, name: &Name) -> Option<Kind>
    ensures { result ≡ spec.function_kind (found (seen environment.now).scopes name.now.text) }
{
    match environment.find(name) {
        Some(Sort::Function(number, _, _)) => Some(Kind {
            base: KindBase::Function(number),
            stars: 0,
        }),
        _ => None,
    }
}

/// The kind of an operand.
pub fn operand_kind(operand: Option<Operand>) -> Option<Kind>
    ensures { result ≡ spec.operand_kind operand }
{
    match operand {
        None => None,
        Some(operand) => Some(operand.kind),
    }
}
