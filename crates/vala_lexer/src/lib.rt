// The tokens of a Vala text.
#![tactic(auto)]

mod blanks;
mod bytes;
mod cursor;
mod cut;
mod laws;
mod lexer;
mod numbers;
mod pieces;
mod signs;
mod texts;
mod token;
mod words;

pub use cursor::Lexer;
pub use laws::{
    each_token_is_longest, keywords_and_signs_are_spelled, one_list_of_tokens, texts_denote,
    tokens_cover,
};
pub use token::{IntegerType, Token, TokenKind};
