// The small enums that say which of its kind an operation is.

/// An operator that takes integers and gives one. Sums, differences, products and negations are taken modulo the width.
#[derive(Clone, Copy)]
pub enum Arithmetic {
    Add,
    Subtract,
    Multiply,
    /// The quotient, cut toward zero. A divisor 0, and the least value by -1, are the trap `division`.
    Divide,
    /// What `Divide` leaves over, with its traps.
    Remainder,
    And,
    Or,
    Xor,
    /// The shift amount is taken modulo the width of the left operand.
    ShiftLeft,
    /// Keeps the sign of a signed type.
    ShiftRight,
    /// `-x`, of one operand.
    Negate,
    /// `~x`, of one operand.
    Complement,
    /// `!x` of a `bool`.
    Not,
}

/// An operator that compares two values and gives a `bool`.
#[derive(Clone, Copy)]
pub enum Comparison {
    Equal,
    Unequal,
    Less,
    LessOrEqual,
    Greater,
    GreaterOrEqual,
}

/// What a call calls. A receiver is the first of the parts.
#[derive(Clone, Copy)]
pub enum Callee {
    /// The static method with this number.
    Static(u32),
    /// The method with this number, of the receiver. It is a use of the receiver. `base.m ()` is such a call too.
    Method(u32),
    /// The method that the receiver's class has in this slot.
    Virtual(u32),
    /// The delegate that the first part gives, of the delegate type with this number. None where that is a lambda that
    /// is connected.
    Delegate(Option<u32>),
}

/// A function of texts. Its parts are texts and numbers in the order in which they are written.
#[derive(Clone, Copy)]
pub enum TextCall {
    /// `a + b`: a fresh text.
    Concatenate,
    /// `s.length`.
    Length,
    /// `s[i]`: the byte at a place, 0 at the length; the trap `index` elsewhere.
    Byte,
    /// `s.substring (offset, length)`: a fresh text, or the trap `range`.
    Substring,
    /// `s.contains (t)`.
    Contains,
    /// `s.has_prefix (t)`.
    HasPrefix,
    /// `s.has_suffix (t)`.
    HasSuffix,
    /// `s.index_of (t, start)`: the least place at or after the start, or -1; the trap `range`.
    IndexOf,
    /// `x.to_string ()` of an integer: a fresh text.
    NumberToText,
    /// `x.to_string ()` of a `bool`: a fresh text.
    BoolToText,
    /// `int.parse (s)`: held within the type.
    ParseInt,
    /// `int64.parse (s)`.
    ParseInt64,
    /// `stdin.read_line ()`: a fresh text, or null at the end of the input.
    ReadLine,
}

/// A part of a thing that is told by its thing alone.
#[derive(Clone, Copy)]
pub enum Part {
    /// `e.message`: a text that no place owns, which goes with the error.
    ErrorMessage,
    /// `e.code`.
    ErrorCode,
    /// `a.length`.
    ArrayLength,
    /// `p.name` of what `notify` hands on.
    PropertyName,
}

/// A call of the main loop.
#[derive(Clone, Copy)]
pub enum LoopCall {
    /// `Idle.add (f)`: adds a source that is ready at once, and gives its id modulo 2^32.
    IdleAdd,
    /// `Timeout.add (ms, f)`: adds a source that is due when the clock is so much further.
    TimeoutAdd,
    /// `Source.remove (id)`: whether there was a source with the id. It gives up the source's function.
    SourceRemove,
    /// `new MainLoop ()`: a thing that counts as an object.
    New,
    /// `loop.run ()`: takes turns until `quit`. The trap `loop` where one runs.
    Run,
    /// `loop.quit ()`: the loop that runs returns after this dispatch. Nothing for another.
    Quit,
}
