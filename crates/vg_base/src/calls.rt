// The texts of calls that stand between a head and a tail.

ghost use Rattle.std.specs.Prelude.{◌≡◌, ◌≢◌, ◌≤◌, ◌++◌, ◌∷◌, ◌↔◌, ℕ, List, [], IfOk, IsTrue, MatchOption, OnOk, length, map, replicate, slice_get, take};
ghost use Rattle.vg_base.specs.Small.{EndsCalls, call, calls_between, token_of};
ghost use Rattle.vg_base.specs.declared.small.Token.{Token};

use crate::event::{Bytes, Memory};
use crate::small::{Piece, Token};
use std::alloc::Global;

fn is_word(bytes: &Bytes, word: &str) -> bool
    ensures { IsTrue result ↔ bytes.now ≡ word.now }
{
    bytes.list.as_slice() == word.as_bytes()
}

fn is_piece(token: &Token, piece: &Piece) -> bool
    ensures { IsTrue result ↔ token.now ≡ token_of piece.now }
{
    match (token, piece) {
        (Token::Word(word), Piece::Word(text)) => is_word(word, text),
        (Token::Sign(sign), Piece::Sign(byte)) => *sign == *byte,
        _ => false,
    }
}

fn after_piece<'t>(tokens: &'t [Token], piece: &Piece) -> Option<&'t [Token]>
    ensures { MatchOption result
        ((rest : List Token) → tokens.now ≡ token_of piece.now ∷ rest → ⊥)
        (λ rest. tokens.now ≡ token_of piece.now ∷ rest.now) }
{
    match tokens {
        [first, rest @ ..] if is_piece(first, piece) => Some(rest),
        _ => None,
    }
}

fn after_pieces<'t>(tokens: &'t [Token], pieces: &[Piece]) -> Option<&'t [Token]>
    ensures { MatchOption result
        ((rest : List Token) → tokens.now ≡ map token_of pieces.now ++ rest → ⊥)
        (λ rest. tokens.now ≡ map token_of pieces.now ++ rest.now) }
{
    let mut rest = tokens;
    for piece in pieces {
        rest = after_piece(rest, piece)?;
    }
    Some(rest)
}

fn are_pieces(tokens: &[Token], pieces: &[Piece]) -> bool
    ensures { IsTrue result ↔ tokens.now ≡ map token_of pieces.now }
{
    match after_pieces(tokens, pieces) {
        Some(rest) => rest.is_empty(),
        None => false,
    }
}

fn first_call<'t>(tokens: &'t [Token], name: &str) -> Option<(&'t Bytes, &'t [Token])>
    ensures { MatchOption result
        ((text : List ℕ) (rest : List Token) → tokens.now ≡ call name.now text ++ rest → ⊥)
        (λ found. tokens.now ≡ call name.now found.0.now ++ found.1.now) }
{
    match tokens {
        [
            Token::Word(word),
            Token::Sign(b'('),
            Token::Text(text),
            Token::Sign(b')'),
            Token::Sign(b';'),
            rest @ ..,
        ] if is_word(word, name) => Some((text, rest)),
        _ => None,
    }
}

fn push_copy(alloc: Global, texts: &mut Vec<Bytes>, text: &Bytes) -> Result<(), Memory>
    ensures { OnOk result (texts.new.items ≡ texts.old.items ++ text.now ∷ []) }
{
    match Vec::from_slice(alloc, text.list.as_slice()) {
        Ok(list) => {
            if texts.push(Bytes { list }).is_err() {
                Err(Memory)
            } else {
                Ok(())
            }
        }
        Err(_) => Err(Memory),
    }
}

/// The texts of `head`, calls of `name` with one text each, and `tail`; None where the tokens are not so.
pub fn texts_between(
    alloc: Global,
    tokens: &[Token],
    head: &[Piece],
    name: &str,
    tail: &[Piece],
) -> Result<Option<Vec<Bytes>>, Memory>
    requires { EndsCalls name.now (map token_of tail.now) }
    ensures { IfOk result (λ found. MatchOption found
        ((texts : List (List ℕ)) → tokens.now ≡ calls_between (map token_of head.now) name.now (map token_of tail.now) texts → ⊥)
        (λ texts. tokens.now ≡ calls_between (map token_of head.now) name.now (map token_of tail.now) texts.items)) }
{
    let mut texts = Vec::new(alloc);
    let mut rest = match after_pieces(tokens, head) {
        Some(rest) => rest,
        None => return Ok(None),
    };
    while let Some((text, after)) = first_call(rest, name) {
        push_copy(alloc, &mut texts, text)?;
        rest = after;
    }
    if are_pieces(rest, tail) {
        Ok(Some(texts))
    } else {
        Ok(None)
    }
}

/// How many `#include` lines the tokens begin with.
pub fn includes(tokens: &[Token]) -> usize
    ensures within { result ≤ length tokens.now }
    ensures all { take result tokens.now ≡ replicate result Token.Include }
    ensures most { slice_get tokens.now result ≢ Some Token.Include }
{
    for (i, token) in tokens.iter().enumerate() {
        if !matches!(token, Token::Include) {
            return i;
        }
    }
    tokens.len()
}
