// What is done once the parts of an expression are there, a variant for each row of the step table.

use crate::lambda::{ScopeAt, ThisAt};
use crate::values::{Arithmetic, Callee, Comparison, LoopCall, Part, TextCall};
use sqlite_items::Items;
use vala_types::{Change, IntKind, Item, VType};
use vg_base::Span;

/// What an expression does when its parts are evaluated. The parts of each are named with it, in their order.
#[derive(Drop)]
pub enum Operation {
    /// No parts. Gives a number, `bool`, enum member or character. A `bool` is 0 or 1.
    Number {
        is_negative: bool,
        size: u64,
    },
    /// No parts. Gives a text literal, which is no thing and never goes.
    Text(Items<u8>),
    /// No parts. Gives null.
    Null,
    /// No parts. Gives `this`.
    This(ThisAt),
    /// No parts. The local or parameter with this number.
    Local(u32, VType),
    /// No parts. The static field with this number.
    Static(u32, VType),
    /// No parts. The cell with this number of a scope, where one of its variables begins.
    Captured(ScopeAt, u32, VType),
    /// Receiver. The object's place with this number, counted over all its classes from the base on.
    Field(u32, VType),
    /// A place of struct type. The cell with this number of it.
    Member(u32, VType),
    /// Array and index. The element.
    Element(Item),
    /// Receiver. The property with this number: its getter where it is read, its setter where it is a target.
    Property(u32),
    /// A place. Moves what it holds into an owned temporary, and leaves null, or zero in the numbers of a struct.
    Take(VType),
    /// One or two integers of this type.
    Arithmetic(Arithmetic, IntKind),
    /// An integer. Its value modulo the width of this type.
    Convert(IntKind),
    /// Two integers.
    CompareNumbers(Comparison),
    /// Two texts, by their bytes; null is less than every text.
    CompareTexts(Comparison),
    /// Two references, by identity; two delegates, by code and target. Equal or unequal alone.
    CompareReferences(Comparison),
    /// A value that goes into a place. Does the change; the type is that of the place.
    Change(Change, VType),
    /// Texts and numbers.
    TextFunction(TextCall),
    /// The values of a literal format, which is this text. Prints to out, or to err.
    Print {
        is_error: bool,
        format: Items<u8>,
    },
    /// A text that is printed as it is, or `(null)`. Prints to out, or to err.
    PrintText {
        is_error: bool,
    },
    /// The values of a literal format. Gives the fresh text.
    Format(Items<u8>),
    /// Receiver where there is one, and the arguments. Calls. The span is that of the name that is called.
    Call(Callee, Span),
    /// The arguments of the creation method with this number. Makes an object of this class.
    New {
        class: u32,
        method: u32,
    },
    /// The length. A fresh array of so many empty elements.
    NewArray(Item),
    /// The elements, each owned where elements own. A fresh array that holds them.
    List(Item),
    /// The values of all cells, or none for zeros. A fresh struct.
    NewStruct(u32),
    /// Receiver where there is one. A delegate to this method. It is fresh and owns the receiver.
    MethodValue(Callee),
    /// No parts. `m.callback`: a delegate that resumes this activation and owns nothing.
    Callback {
        /// `m`. Where it is not the method that this stands in, the program is refused.
        method: u32,
        /// The span of the word `callback`.
        name: Span,
    },
    /// A place and a value. Stores the value and gives up the old one. Gives the target's value where it is used.
    Assign {
        kind: VType,
        is_used: bool,
    },
    /// A place that is also read, and a value of this type. Computes, converts to the second type and stores.
    AssignNumber {
        operator: Arithmetic,
        at: IntKind,
        to: IntKind,
        is_used: bool,
    },
    /// A place that is also read, and a text. Stores the fresh concatenation.
    AssignText {
        is_used: bool,
    },
    /// A place that is also read. Adds 1, or -1, and gives the old value where it is a postfix, else the new one.
    Increment {
        by: Arithmetic,
        kind: IntKind,
        is_postfix: bool,
        is_used: bool,
    },
    /// A place of array type and a value. Makes an array one longer, moves the elements, puts the value last.
    Append {
        of: Item,
        is_used: bool,
    },
    /// Receiver and arguments. Emits the signal with this number.
    Emit(u32),
    /// Receiver, and the handler: a lambda, or the receiver of the method that is called, where it has one.
    /// Connects the handler, for a detail or none, and gives its id.
    Connect {
        signal: u32,
        detail: Option<Items<u8>>,
        is_after: bool,
        takes_sender: bool,
        takes_arguments: bool,
        handler: Callee,
    },
    /// Receiver, and the receiver of the method where it has one. Removes all handlers of that object, signal and method.
    Disconnect {
        signal: u32,
        handler: Callee,
    },
    /// Object and id. Removes that handler of the object.
    DisconnectId,
    /// Receiver, arguments, and the callback where there is one more part. Begins the async method with this number.
    Begin {
        method: u32,
        has_receiver: bool,
        /// The span of the word `begin`.
        name: Span,
    },
    /// Receiver and arguments. Begins it, parks, and gives its result or error when it has completed.
    YieldCall {
        method: u32,
        has_receiver: bool,
    },
    /// Receiver and `res`. Moves the result out, or throws the error.
    End {
        method: u32,
        has_receiver: bool,
        /// The span of the word `end`.
        name: Span,
    },
    /// Sources of the main loop, and loops.
    Loop(LoopCall),
    /// An object. Whether it is of the type.
    Is(u32),
    /// An object. Itself where it is of the type, else null.
    As(u32),
    /// An object. Itself where it is of the type or null, else the trap `cast`.
    Cast(u32),
    /// The values of a literal format, which is the message. A fresh error.
    NewError {
        domain: u32,
        code: i32,
        format: Items<u8>,
    },
    /// A text, which is the message. A fresh error.
    NewErrorText {
        domain: u32,
        code: i32,
    },
    /// The thing. A part that is told by the thing alone.
    Part(Part),
}
