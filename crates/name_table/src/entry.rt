// What the table holds for each name that was pushed.

/// A name with what it stands for, and the position of the entry of that name that it hides.
#[derive(Clone, Copy)]
pub struct Entry<'n, T> {
    pub name: &'n [u8],
    pub meaning: T,
    pub hidden: Option<usize>,
}
