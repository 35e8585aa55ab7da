// What the texts and the words of a Vala text denote.
#![tactic(auto)]

mod bytes;
mod escapes;
mod texts;
mod words;

pub use texts::text_value;
pub use words::word;
