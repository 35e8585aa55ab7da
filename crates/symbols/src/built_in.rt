// The built-in names.

/// What a built-in name is.
#[derive(Clone, Copy)]
pub enum BuiltInSort {
    /// `GLib`, and what only groups functions.
    Namespace,
    TypeName,
    /// A variable or a field.
    Value,
    Method,
    Signal,
}

/// How many built-in names there are. Their symbols are the first ones.
pub const BUILT_IN_COUNT: u32 = 65;
