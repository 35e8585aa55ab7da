// The tokens of a text of the C dialect.
#![tactic(auto)]

mod apart;
mod blanks;
mod bytes;
mod cursor;
mod cut;
mod laws;
mod lexer;
mod numbers;
mod pieces;
mod signs;
mod texts;
mod token;
mod words;

pub use apart::needs_space;
pub use cursor::Lexer;
pub use laws::{
    each_token_is_longest, one_list_of_tokens, texts_denote, tokens_cover, tokens_stay_apart,
    words_and_signs_are_spelled,
};
pub use texts::text_value;
pub use token::{BadToken, Constant, Keyword, NumberType, Sign, Token, TokenKind};
