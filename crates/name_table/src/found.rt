// What a look-up answers.

/// What a name stands for at its latest entry, and how many entries are older than that one.
#[derive(Clone, Copy)]
pub struct Found<T> {
    pub meaning: T,
    pub position: usize,
}
