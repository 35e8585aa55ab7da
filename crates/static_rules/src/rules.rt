// The rules that a program can break: their names, their texts, and the order of refusals.

ghost use Rattle.std.specs.Prelude.{◌≡◌};
ghost use Rattle.static_rules.specs.Rules.{row_of, row_number};
ghost use Rattle.static_rules.specs.Order.{is_earlier};

use vg_base::Span;

/// The rules, in the order of their rows. Each says what is wrong, and which part of the program a refusal names.
#[derive(Clone, Copy, Debug)]
pub enum Rule {
    /// File too large: names the file.
    M1,
    /// Too many files: names the file with the number 64.
    M2,
    /// Bad byte: names the byte.
    L1,
    /// Text, character or comment without end: names the first byte of what has no end.
    L2,
    /// Bad escape: names the backslash.
    L3,
    /// Number out of range: names the number.
    L4,
    /// Identifier too long: names the identifier.
    M4,
    /// Unexpected token: names the token, or an empty span at the end of the file.
    S1,
    /// Nesting too deep: names the token.
    S2,
    /// Too many parameters or arguments: names the first one over.
    M5,
    /// Not in this profile: names the first token, or the part, that only a left-out construct explains.
    U1,
    /// Too many symbols: names the first one over.
    M3,
    /// Declared twice, or two declarations with one C name: names the later name.
    N2,
    /// No main method, or more than one: names the first file, or the second name.
    N5,
    /// Cycle of bases or of struct fields: names the first type's name.
    N6,
    /// Base of the wrong kind: names the base.
    T5,
    /// Override does not match a virtual member: names the member's name.
    T6,
    /// Abstract member is left without a body: names the class's name.
    T7,
    /// Unknown name: names the name.
    N1,
    /// Ambiguous name: names the name.
    N3,
    /// Not accessible: names the name.
    N4,
    /// Value does not fit the place: names the value.
    T1,
    /// Operator does not take these types: names the expression.
    T2,
    /// Wrong arguments: number, out or ref, property name, or a base without a creation method free of parameters: names the call, or the name of the method or class.
    T3,
    /// Not usable here: a type as value, a value as type or called without being callable: names the name.
    T4,
    /// Abstract class or interface created: names the creation.
    T8,
    /// Not assignable: names the target.
    T9,
    /// Instance member without an instance: names the name.
    T10,
    /// Type cannot be inferred: names the local or lambda.
    T11,
    /// Return does not match the method: names the statement.
    T12,
    /// Format does not match the arguments: names the format.
    T13,
    /// Constant expected: names the expression.
    T14,
    /// Used before it is assigned: names the name.
    F1,
    /// End is reached without return or break: names the method's name, the accessor's word, the lambda, or the section's first label.
    F2,
    /// Jump outside a loop or switch: names the statement.
    F3,
    /// Null may go into a place without ?: names the value.
    F4,
    /// Label twice in a switch: names the later label.
    F5,
    /// Error is neither caught nor declared; in main also a declared one: names the call, the throw, the type or the name.
    X1,
    /// Not an error type, or already caught: names the type.
    X2,
    /// Jump leaves a finally block: names the statement.
    X3,
    /// Yield outside an async method: names the yield.
    A1,
    /// Async method called without begin or yield, or begin, end or callback of a plain one: names the name.
    A2,
    /// Yield inside a finally block: names the yield.
    A3,
    /// Callback used outside its method: names the callback.
    A4,
    /// Fresh value goes into an unowned place: names the value.
    O1,
    /// Delegate cannot be copied: names the value.
    O2,
    /// Owned of a place that owns nothing: names the expression.
    O3,
    /// Owned local returned as unowned: names the value.
    O4,
    /// This or a captured variable moved, or a ref or out parameter captured: names the name.
    O5,
    /// Owned out parameter left unset: names the parameter's name.
    O6,
}

/// A broken rule, the phase in which it was broken, and the part that is named.
#[derive(Clone, Copy, Debug)]
pub struct Refusal {
    pub rule: Rule,
    pub phase: u8,
    pub span: Span,
}

/// The name of a rule, as it is printed.
pub fn rule_name(rule: Rule) -> &'static str
    ensures { result.now ≡ (row_of rule).name }
{
    match rule {
        Rule::M1 => "M1",
        Rule::M2 => "M2",
        Rule::L1 => "L1",
        Rule::L2 => "L2",
        Rule::L3 => "L3",
        Rule::L4 => "L4",
        Rule::M4 => "M4",
        Rule::S1 => "S1",
        Rule::S2 => "S2",
        Rule::M5 => "M5",
        Rule::U1 => "U1",
        Rule::M3 => "M3",
        Rule::N2 => "N2",
        Rule::N5 => "N5",
        Rule::N6 => "N6",
        Rule::T5 => "T5",
        Rule::T6 => "T6",
        Rule::T7 => "T7",
        Rule::N1 => "N1",
        Rule::N3 => "N3",
        Rule::N4 => "N4",
        Rule::T1 => "T1",
        Rule::T2 => "T2",
        Rule::T3 => "T3",
        Rule::T4 => "T4",
        Rule::T8 => "T8",
        Rule::T9 => "T9",
        Rule::T10 => "T10",
        Rule::T11 => "T11",
        Rule::T12 => "T12",
        Rule::T13 => "T13",
        Rule::T14 => "T14",
        Rule::F1 => "F1",
        Rule::F2 => "F2",
        Rule::F3 => "F3",
        Rule::F4 => "F4",
        Rule::F5 => "F5",
        Rule::X1 => "X1",
        Rule::X2 => "X2",
        Rule::X3 => "X3",
        Rule::A1 => "A1",
        Rule::A2 => "A2",
        Rule::A3 => "A3",
        Rule::A4 => "A4",
        Rule::O1 => "O1",
        Rule::O2 => "O2",
        Rule::O3 => "O3",
        Rule::O4 => "O4",
        Rule::O5 => "O5",
        Rule::O6 => "O6",
    }
}

/// What a rule says, as it is printed.
pub fn rule_text(rule: Rule) -> &'static str
    ensures { result.now ≡ (row_of rule).text }
{
    match rule {
        Rule::M1 => "file too large",
        Rule::M2 => "too many files",
        Rule::L1 => "bad byte",
        Rule::L2 => "text, character or comment without end",
        Rule::L3 => "bad escape",
        Rule::L4 => "number out of range",
        Rule::M4 => "identifier too long",
        Rule::S1 => "unexpected token",
        Rule::S2 => "nesting too deep",
        Rule::M5 => "too many parameters or arguments",
        Rule::U1 => "not in this profile",
        Rule::M3 => "too many symbols",
        Rule::N2 => "declared twice, or two declarations with one C name",
        Rule::N5 => "no main method, or more than one",
        Rule::N6 => "cycle of bases or of struct fields",
        Rule::T5 => "base of the wrong kind",
        Rule::T6 => "override does not match a virtual member",
        Rule::T7 => "abstract member is left without a body",
        Rule::N1 => "unknown name",
        Rule::N3 => "ambiguous name",
        Rule::N4 => "not accessible",
        Rule::T1 => "value does not fit the place",
        Rule::T2 => "operator does not take these types",
        Rule::T3 =>
            "wrong arguments: number, out or ref, property name, or a base without a creation method free of parameters",
        Rule::T4 =>
            "not usable here: a type as value, a value as type or called without being callable",
        Rule::T8 => "abstract class or interface created",
        Rule::T9 => "not assignable",
        Rule::T10 => "instance member without an instance",
        Rule::T11 => "type cannot be inferred",
        Rule::T12 => "return does not match the method",
        Rule::T13 => "format does not match the arguments",
        Rule::T14 => "constant expected",
        Rule::F1 => "used before it is assigned",
        Rule::F2 => "end is reached without return or break",
        Rule::F3 => "jump outside a loop or switch",
        Rule::F4 => "null may go into a place without ?",
        Rule::F5 => "label twice in a switch",
        Rule::X1 => "error is neither caught nor declared; in main also a declared one",
        Rule::X2 => "not an error type, or already caught",
        Rule::X3 => "jump leaves a finally block",
        Rule::A1 => "yield outside an async method",
        Rule::A2 =>
            "async method called without begin or yield, or begin, end or callback of a plain one",
        Rule::A3 => "yield inside a finally block",
        Rule::A4 => "callback used outside its method",
        Rule::O1 => "fresh value goes into an unowned place",
        Rule::O2 => "delegate cannot be copied",
        Rule::O3 => "owned of a place that owns nothing",
        Rule::O4 => "owned local returned as unowned",
        Rule::O5 => "this or a captured variable moved, or a ref or out parameter captured",
        Rule::O6 => "owned out parameter left unset",
    }
}

fn row_number(phase: u8, rule: Rule) -> u8
    ensures { result ≡ row_number phase rule }
{
    match rule {
        Rule::M1 => 1,
        Rule::M2 => 2,
        Rule::L1 => 3,
        Rule::L2 => 4,
        Rule::L3 => 5,
        Rule::L4 => 6,
        Rule::M4 => 7,
        Rule::S1 => 8,
        Rule::S2 => 9,
        Rule::M5 => 10,
        Rule::U1 if phase == 4 => 33,
        Rule::U1 => 11,
        Rule::M3 => 12,
        Rule::N2 => 13,
        Rule::N5 => 14,
        Rule::N6 => 15,
        Rule::T5 => 16,
        Rule::T6 => 17,
        Rule::T7 => 18,
        Rule::N1 => 19,
        Rule::N3 => 20,
        Rule::N4 => 21,
        Rule::T1 => 22,
        Rule::T2 => 23,
        Rule::T3 => 24,
        Rule::T4 => 25,
        Rule::T8 => 26,
        Rule::T9 => 27,
        Rule::T10 => 28,
        Rule::T11 => 29,
        Rule::T12 => 30,
        Rule::T13 => 31,
        Rule::T14 => 32,
        Rule::F1 => 34,
        Rule::F2 => 35,
        Rule::F3 => 36,
        Rule::F4 => 37,
        Rule::F5 => 38,
        Rule::X1 => 39,
        Rule::X2 => 40,
        Rule::X3 => 41,
        Rule::A1 => 42,
        Rule::A2 => 43,
        Rule::A3 => 44,
        Rule::A4 => 45,
        Rule::O1 => 46,
        Rule::O2 => 47,
        Rule::O3 => 48,
        Rule::O4 => 49,
        Rule::O5 => 50,
        Rule::O6 => 51,
    }
}

/// Whether the first refusal stands before the second: by phase, then file, start, end, and the rule's row.
pub fn earlier(a: &Refusal, b: &Refusal) -> bool
    ensures { result ≡ is_earlier a.now b.now }
{
    let row_a = row_number(a.phase, a.rule);
    let row_b = row_number(b.phase, b.rule);
    let by_end = a.span.end < b.span.end || (a.span.end == b.span.end && row_a < row_b);
    let by_start = a.span.start < b.span.start || (a.span.start == b.span.start && by_end);
    let by_file = a.span.file < b.span.file || (a.span.file == b.span.file && by_start);
    a.phase < b.phase || (a.phase == b.phase && by_file)
}
