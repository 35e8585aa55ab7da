// The text of C that is written.
#![tactic(auto)]

mod calls;
mod depth;
mod functions;
mod grade;
mod group;
mod includes;
mod items;
mod laws;
mod layouts;
mod output;
mod piece;
mod spelling;
mod statements;
mod token;
mod types;
mod unit;
mod values;
mod writer;

pub use grade::{Brackets, Place};
pub use items::put_unit;
pub use laws::{
    blocks_are_read, pieces_read_back, places_do_not_matter, tokens_are_read,
    types_and_values_are_read, what_is_written_is_read,
};
pub use output::Writer;
pub use piece::Piece;
pub use statements::put_block;
pub use token::put_token;
pub use types::put_type;
pub use unit::print;
pub use values::put_value;
