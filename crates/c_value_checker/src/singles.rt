// Values without values in them.

ghost use Rattle.std.specs.Prelude.{◌≡◌, IfOk, OnOk};
ghost use Rattle.c_tree.specs.declared.code.Shape.TheOpen.{Shape-F};
ghost use Rattle.c_tree.specs.Checks.{Checked, Known, KnownSuffix, KnownChoice, KnownLink, check_shape, function_kind, number_kind, variable_kind};
ghost use Rattle.c_tree.specs.Library.{constant_kind};
ghost use Rattle.c_value_checker.specs.Judgements.{judged};
ghost use Rattle.c_value_checker.specs.Noted.{noted};
ghost use Rattle.c_value_checker.specs.Seen.{seen};

use crate::environment::Environment;
use crate::faults::Findings;
use crate::judged::{Judged, Literal};
use crate::kinds::{GPOINTER, INT, LONG, UINT, ULONG};
use crate::outcome::settle;
use c_lexer::{Constant, NumberType};
use c_tree::{CType, Kind, KindBase, Name, Sort, Span};
use vg_base::Memory;

/// The kind of a number.
pub fn number_kind(number: NumberType) -> Kind
    ensures { result ≡ number_kind number }
{
    match number {
        NumberType::Gint => INT,
        NumberType::Guint => UINT,
        NumberType::Glong => LONG,
        NumberType::Gulong => ULONG,
    }
}

/// The kind of a capital name.
pub fn constant_kind(constant: Constant) -> Kind
    ensures { result ≡ constant_kind constant }
{
    match constant {
        Constant::Null => GPOINTER,
        Constant::True
        | Constant::False
        | Constant::SignalRunLast
        | Constant::SignalMatchId
        | Constant::SignalMatchFunc
        | Constant::SignalMatchData
        | Constant::ConnectAfter
        | Constant::ParamReadwrite
        | Constant::ParamConstruct => INT,
        _ => ULONG,
    }
}

/// A value that is no literal of those that an argument may have to be.
pub fn of_kind(kind: Option<Kind>) -> Judged
    ensures { result ≡ record { literal = None; kind = kind } }
{
    Judged {
        literal: None,
        kind,
    }
}

/// A literal.
pub fn literal(literal: Literal, kind: Kind) -> Judged
    ensures { result ≡ record { literal = Some literal; kind = Some kind } }
{
    Judged {
        literal: Some(literal),
        kind: Some(kind),
    }
}

/// The kind of a variable.
pub fn check_variable(
    environment: &Environment,
    findings: &mut Findings,
    name: &Name,
) -> Option<Kind>
    ensures value { result ≡ (check_shape (Shape-F.Variable name.now)).kind (seen environment.now) }
    ensures faults { findings.new ≡ noted findings.old ((check_shape (Shape-F.Variable name.now)).faults (seen environment.now)) }
{
    match environment.find(name) {
        None => {
            findings.undeclared(name);
            None
        }
        Some(Sort::Variable(kind)) => kind,
        Some(_) => None,
    }
}

/// The kind of a function as a value.
pub fn function_kind(environment: &Environment, name: &Name) -> Option<Kind>
    ensures { result ≡ (check_shape (Shape-F.Function name.now)).kind (seen environment.now) }
{
    match environment.find(name) {
        Some(Sort::Function(number, _, _)) => Some(Kind {
            base: KindBase::Function(number),
            stars: 0,
        }),
        _ => None,
    }
}

/// `sizeof (X)`.
#[tactic(auto, using(crate::proofs::NotedLemmas::noted_append))]
pub fn check_size(
    environment: &Environment,
    findings: &mut Findings,
    declared: &CType,
    span: Span,
) -> Result<Option<Kind>, Memory>
    ensures value { IfOk result (λ kind. kind ≡ (check_shape (Shape-F.SizeOf declared.now span)).kind (seen environment.now)) }
    ensures faults { OnOk result (findings.new ≡ noted findings.old ((check_shape (Shape-F.SizeOf declared.now span)).faults (seen environment.now))) }
{
    environment.check_type(findings, declared);
    let kind = environment.kind_of(declared)?;
    Ok(settle(findings, environment.size(kind), span))
}

/// `G_STRUCT_OFFSET (X, f)`.
#[tactic(auto, using(crate::proofs::NotedLemmas::noted_append))]
pub fn check_offset(
    environment: &Environment,
    findings: &mut Findings,
    declared: &CType,
    name: &Name,
    span: Span,
) -> Result<Option<Kind>, Memory>
    ensures value { IfOk result (λ kind. kind ≡ (check_shape (Shape-F.Offset declared.now name.now span)).kind (seen environment.now)) }
    ensures faults { OnOk result (findings.new ≡ noted findings.old ((check_shape (Shape-F.Offset declared.now name.now span)).faults (seen environment.now))) }
{
    environment.check_type(findings, declared);
    let kind = environment.kind_of(declared)?;
    Ok(settle(findings, environment.offset(kind, name), span))
}
