// Functions of C as they run: their statements in a row, with places of the row for labels.

use crate::code::Code;
use c_tree::Kind;
use sqlite_items::Items;

/// A function of the library that has code.
#[derive(Clone, Copy)]
pub enum LibraryFunction {
    Print,
    PrintErr,
    SliceNew,
    SliceFree,
    New,
    Renew,
    Free,
    Duplicate,
    DuplicateFront,
    Concatenate,
    Format,
    Compare,
    Length,
    HasPrefix,
    HasSuffix,
    Find,
    ReadNumber,
    Abort,
    ReadLine,
    Quark,
    ErrorNew,
    ErrorCopy,
    ErrorFree,
    ErrorPropagate,
    ErrorMatches,
}

/// What `g_slice_new0` makes: a scope with a count in front, an activation, or a block that is no thing.
#[derive(Clone, Copy)]
pub enum Sliced {
    Scope,
    Activation,
    Plain,
}

/// The type before the arguments of a function of the library: its cells, and what `g_slice_new0` makes of it.
#[derive(Clone, Copy)]
pub struct TypeArgument {
    pub cells: u64,
    pub sliced: Sliced,
}

/// What is called.
pub enum Callee {
    Value(Code),
    Library(LibraryFunction, TypeArgument),
    /// What has no meaning: no well-formed unit has it.
    Nothing,
}

impl Drop for Callee {
    fn drop(self) {
        match self {
            Callee::Value(code) => drop(code),
            Callee::Library(_, _) | Callee::Nothing => {}
        }
    }
}

/// A call. The arguments are of the kinds that the function takes.
pub struct Call {
    pub callee: Callee,
    pub arguments: Items<Code>,
}

impl Drop for Call {
    fn drop(self) {
        let Call { callee, arguments } = self;
        drop(callee);
        drop(arguments);
    }
}

/// What a place takes: its kind, and the cells of that.
#[derive(Clone, Copy)]
pub struct Taken {
    pub kind: Kind,
    pub cells: u64,
}

/// A whole number by its sign and its size.
#[derive(Clone, Copy)]
pub struct Figure {
    pub is_negative: bool,
    pub size: u64,
}

/// `case n: goto L;`: the number in the kind of the value, and the place of the label.
#[derive(Clone, Copy)]
pub struct Case {
    pub number: Figure,
    pub target: u64,
}

/// A statement. Targets are places of the row of statements.
pub enum Statement {
    /// `place = value;`: the value is of the place's kind.
    Assign(Code, Code),
    Call(Call),
    /// `place = call;`
    Store(Code, Taken, Call),
    /// Where the value is false, so many statements are passed over.
    Test(Code, u64),
    /// `if (value) goto L;`
    TestJump(Code, u64),
    Jump(u64),
    Switch(Code, Items<Case>, u64),
    /// The value is of the function's kind.
    Return(Option<Code>),
    /// A label, or the start of a block that is a statement.
    Onward,
    /// So many statements are passed over, which is no step.
    Pass(u64),
}

impl Drop for Statement {
    fn drop(self) {
        match self {
            Statement::Assign(first, second) => {
                drop(first);
                drop(second);
            }
            Statement::Call(it) => drop(it),
            Statement::Store(place, _, call) => {
                drop(place);
                drop(call);
            }
            Statement::Test(it, _) => drop(it),
            Statement::TestJump(it, _) => drop(it),
            Statement::Switch(value, cases, _) => {
                drop(value);
                drop(cases);
            }
            Statement::Return(it) => drop(it),
            Statement::Jump(_) | Statement::Onward | Statement::Pass(_) => {}
        }
    }
}

/// A body: what its parameters take, the cells of a frame, and its statements.
pub struct Body {
    pub parameters: Items<Taken>,
    pub cells: u64,
    pub statements: Items<Statement>,
}

impl Drop for Body {
    fn drop(self) {
        let Body {
            parameters,
            cells: _,
            statements,
        } = self;
        drop(parameters);
        drop(statements);
    }
}

/// A function of the unit: whether it gives nothing, and its body where it is defined.
pub struct Routine {
    pub is_void: bool,
    pub body: Option<Body>,
}

impl Drop for Routine {
    fn drop(self) {
        let Routine { is_void: _, body } = self;
        drop(body);
    }
}
