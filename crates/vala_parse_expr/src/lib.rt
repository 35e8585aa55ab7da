// The parsers of names, types, expressions and blocks.
#![tactic(auto)]

mod for_heads;
mod if_chain;
mod locals;
mod loops;
mod parse;
mod reader;
mod sections;
mod statements;
mod tries;

pub use parse::{parse_block, parse_expr, parse_init, parse_name, parse_type};
pub use reader::{read_block, read_init, read_whole};
