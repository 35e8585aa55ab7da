// The base of the compiler: what is observed of a run, how runs are compared, and the outside.
#![tactic(auto)]

mod calls;
mod event;
mod laws;
mod mem_folder;
mod mem_sink;
mod memory;
mod outside;
mod scanner;
mod small;

pub use calls::{includes, texts_between};
pub use event::{
    Bytes, CEnd, Entry, Event, Fault, LiveRow, Memory, Span, Stream, ThingKind, TrapKind,
    UndefKind, VEnd,
};
pub use laws::{
    agreement_composes, blocks_agree, blocks_give_headline, machines_run, mates_are_unique,
    nothing_is_undefined, one_end, prints_agree, runs_that_match_agree,
};
pub use mem_folder::{GoodFolder, MemFolder};
pub use mem_sink::{GoodSink, MemSink};
pub use outside::{Call, Folder, FolderFault, PutFault, Sink, SinkFault, put_all};
pub use scanner::tokens;
pub use small::{
    Piece, Token, one_list_of_texts, one_list_of_tokens, push_spelling, spelled_texts,
};
