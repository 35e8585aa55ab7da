// How items stand together.

/// The sort of an item of one line; longer ones are one group.
#[derive(Clone, Copy)]
pub enum Group {
    Includes,
    Types,
    Prototypes,
    Variables,
    Long,
}
