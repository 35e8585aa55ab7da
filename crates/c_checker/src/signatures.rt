// What functions take and give, and names of functions that are there already.

ghost use Rattle.std.specs.Prelude.{◌≡◌, ◌++◌, ◌||◌, IfOk, OnOk};
ghost use Rattle.c_tree.specs.Env.{found, kind_of, number_of, opened};
ghost use Rattle.c_tree.specs.Checks.{type_faults};
ghost use Rattle.c_tree.specs.Unit as spec;
ghost use Rattle.c_checker.specs.Functions.{again_by};
ghost use Rattle.c_value_checker.specs.Noted.{noted};
ghost use Rattle.c_value_checker.specs.Seen.{seen};

use crate::tables::{add_signature, plain, takes_of};
use c_tree::{Base, Cause, Kind, KindBase, Name, Parameter, Signature, Sort, Span};
use c_value_checker::{Environment, Findings};
use std::alloc::Global;
use vg_base::Memory;

// 1. Parameters

// A name that may be missing, and that the scope has already.
fn check_new(environment: &Environment, findings: &mut Findings, name: &Option<Name>)
    ensures { findings.new ≡ noted findings.old (spec.twice_optional (seen environment.now) name.now) }
{
    if let Some(name) = name {
        environment.check_new(findings, name);
    }
}

fn declare_parameter<'n>(
    environment: &mut Environment<'n>,
    parameter: &'n Parameter,
) -> Result<(), Memory>
    ensures { OnOk result (seen environment.new ≡ spec.with_parameter (seen environment.old) parameter.now) }
{
    let kind = environment.kind_of(&parameter.declared)?;
    match &parameter.name {
        None => Ok(()),
        Some(name) => environment.declare(name, Sort::Variable(kind)),
    }
}

/// The names of parameters, in a scope that is open already.
pub fn declare_parameters<'n>(
    environment: &mut Environment<'n>,
    parameters: &'n [Parameter],
) -> Result<(), Memory>
    ensures { OnOk result (seen environment.new ≡ spec.with_parameters (seen environment.old) parameters.now) }
{
    for parameter in parameters {
        declare_parameter(environment, parameter)?;
    }
    Ok(())
}

#[tactic(auto, using(c_value_checker::proofs::NotedLemmas::noted_append))]
fn judge_parameter(environment: &Environment, findings: &mut Findings, parameter: &Parameter)
    ensures { findings.new ≡ noted findings.old (type_faults (seen environment.now) parameter.now.declared ++ spec.twice_optional (seen environment.now) parameter.now.name) }
{
    environment.check_type(findings, &parameter.declared);
    check_new(environment, findings, &parameter.name);
}

// The types and names of parameters, in a scope that is open already.
fn check_parameters<'n>(
    environment: &mut Environment<'n>,
    findings: &mut Findings,
    parameters: &'n [Parameter],
) -> Result<(), Memory>
    ensures names { OnOk result (seen environment.new ≡ spec.with_parameters (seen environment.old) parameters.now) }
    ensures faults { OnOk result (findings.new ≡ noted findings.old (spec.parameter_faults (seen environment.old) parameters.now)) }
{
    for parameter in parameters {
        judge_parameter(environment, findings, parameter);
        declare_parameter(environment, parameter)?;
    }
    Ok(())
}

// In a scope of their own.
fn check_scope<'n>(
    environment: &mut Environment<'n>,
    findings: &mut Findings,
    parameters: &'n [Parameter],
) -> Result<(), Memory>
    ensures names { OnOk result (seen environment.new ≡ seen environment.old) }
    ensures faults { OnOk result (findings.new ≡ noted findings.old (spec.parameter_faults (opened (seen environment.old)) parameters.now)) }
{
    environment.open()?;
    check_parameters(environment, findings, parameters)?;
    environment.close();
    Ok(())
}

/// Notes the faults in what a function takes and gives.
pub fn check_signature<'n>(
    environment: &mut Environment<'n>,
    findings: &mut Findings,
    signature: &'n Signature,
) -> Result<(), Memory>
    ensures names { OnOk result (seen environment.new ≡ seen environment.old) }
    ensures faults { OnOk result (findings.new ≡ noted findings.old (spec.signature_faults (seen environment.old) signature.now)) }
{
    environment.check_type(findings, &signature.result);
    check_scope(environment, findings, signature.parameters.as_slice())
}

// 2. What is laid out

fn is_void_result(signature: &Signature) -> bool
    ensures { result ≡ spec.is_void_result signature.now }
{
    matches!(signature.result.base, Base::Void) && signature.result.stars == 0
}

// What a function takes or gives is laid out where it is defined, which is known behind the `)`.
fn check_laid_out(
    environment: &Environment,
    findings: &mut Findings,
    head: Span,
    kind: Option<Kind>,
    name: &Name,
)
    ensures { findings.new ≡ noted findings.old (spec.unlaid (seen environment.now) head kind name.now) }
{
    if !environment.is_laid_out_if(kind) {
        findings.note(name.span.start, Cause::Misfit, head.end);
    }
}

fn check_result_laid_out(
    environment: &Environment,
    findings: &mut Findings,
    signature: &Signature,
) -> Result<(), Memory>
    ensures { OnOk result (findings.new ≡ noted findings.old (spec.unlaid_result (seen environment.now) signature.now)) }
{
    if !is_void_result(signature) {
        let kind = environment.kind_of(&signature.result)?;
        check_laid_out(environment, findings, signature.span, kind, &signature.name);
    }
    Ok(())
}

fn check_parameter_laid_out(
    environment: &Environment,
    findings: &mut Findings,
    head: Span,
    parameter: &Parameter,
) -> Result<(), Memory>
    ensures { OnOk result (findings.new ≡ noted findings.old (spec.unlaid_optional (seen environment.now) head (kind_of (seen environment.now) parameter.now.declared) parameter.now.name)) }
{
    let kind = environment.kind_of(&parameter.declared)?;
    if let Some(name) = &parameter.name {
        check_laid_out(environment, findings, head, kind, name);
    }
    Ok(())
}

fn check_parameters_laid_out(
    environment: &Environment,
    findings: &mut Findings,
    head: Span,
    parameters: &[Parameter],
) -> Result<(), Memory>
    ensures { OnOk result (findings.new ≡ noted findings.old (spec.unlaid_parameters (seen environment.now) head parameters.now)) }
{
    for parameter in parameters {
        check_parameter_laid_out(environment, findings, head, parameter)?;
    }
    Ok(())
}

/// Notes what a function that is defined takes and gives, and that is not laid out.
pub fn check_definition(
    environment: &Environment,
    findings: &mut Findings,
    signature: &Signature,
) -> Result<(), Memory>
    ensures { OnOk result (findings.new ≡ noted findings.old (spec.unlaid_result (seen environment.now) signature.now ++ spec.unlaid_parameters (seen environment.now) signature.now.span signature.now.parameters)) }
{
    check_result_laid_out(environment, findings, signature)?;
    check_parameters_laid_out(
        environment,
        findings,
        signature.span,
        signature.parameters.as_slice(),
    )
}

// 3. Names of functions

fn number_of(
    alloc: Global,
    environment: &Environment,
    signature: &Signature,
) -> Result<usize, Memory>
    ensures { IfOk result (λ number. number ≡ number_of (seen environment.now) (spec.takes_of (seen environment.now) signature.now)) }
{
    let takes = takes_of(alloc, environment, signature)?;
    Ok(environment.signatures.number(&takes))
}

fn check_found(
    findings: &mut Findings,
    signature: &Signature,
    number: usize,
    defines: bool,
    found: Option<Sort>,
)
    ensures { findings.new ≡ noted findings.old (again_by signature.now number defines found) }
{
    match found {
        None => {}
        Some(Sort::Function(other, is_static, is_defined)) => {
            let fine = other as usize == number
                && is_static == signature.is_static
                && !(defines && is_defined);
            if !fine {
                findings.note(signature.name.span.start, Cause::Twice, signature.span.end);
            }
        }
        Some(_) => findings.twice(&signature.name),
    }
}

/// Notes a function whose name stands for something else already.
#[tactic(auto, using(crate::proofs::FunctionLemmas::again_is))]
pub fn check_again(
    alloc: Global,
    environment: &Environment,
    findings: &mut Findings,
    signature: &Signature,
    defines: bool,
) -> Result<(), Memory>
    ensures { OnOk result (findings.new ≡ noted findings.old (spec.again (seen environment.now) signature.now defines (found (seen environment.now).scopes signature.now.name.text))) }
{
    let number = number_of(alloc, environment, signature)?;
    let found = environment.find(&signature.name);
    check_found(findings, signature, number, defines, found);
    Ok(())
}

fn is_defined_already(found: Option<Sort>) -> bool
    ensures { result ≡ spec.is_defined_already found }
{
    matches!(found, Some(Sort::Function(_, _, true)))
}

// Whether a function is defined behind a prototype or a definition.
fn is_defined(environment: &Environment, signature: &Signature, defines: bool) -> bool
    ensures { result ≡ (defines || spec.is_defined_already (found (seen environment.now).scopes signature.now.name.text)) }
{
    defines || is_defined_already(environment.find(&signature.name))
}

/// A prototype or a definition of a function.
pub fn add_function<'n>(
    alloc: Global,
    environment: &mut Environment<'n>,
    signature: &'n Signature,
    defines: bool,
) -> Result<(), Memory>
    ensures { OnOk result (seen environment.new ≡ spec.with_function (seen environment.old) signature.now defines) }
{
    let is_defined = is_defined(environment, signature, defines);
    let takes = takes_of(alloc, environment, signature)?;
    let number = add_signature(alloc, environment, takes)?;
    environment.declare(
        &signature.name,
        Sort::Function(number, signature.is_static, is_defined),
    )
}

/// `typedef R (*F) (parameters);`
pub fn add_function_type<'n>(
    alloc: Global,
    environment: &mut Environment<'n>,
    signature: &'n Signature,
) -> Result<(), Memory>
    ensures { OnOk result (seen environment.new ≡ spec.new_function_type (seen environment.old) signature.now) }
{
    let takes = takes_of(alloc, environment, signature)?;
    let number = add_signature(alloc, environment, takes)?;
    environment.declare(
        &signature.name,
        Sort::Type(plain(KindBase::Function(number))),
    )
}
