// What is written is read back.

ghost use Rattle.std.specs.Prelude.{◌≡◌, ◌++◌, ◌∷◌, ℕ, Bool, false, [], map, List, None};
ghost use Rattle.c_lexer.specs.Apart.{Item};
ghost use Rattle.c_lexer.specs.Texts.{text_value};
ghost use Rattle.c_lexer.specs.Tokens.{Lexeme, Tokens, all_of};
ghost use Rattle.c_lexer.specs.Written.{IsToken};
ghost use Rattle.c_printer.specs.declared.piece.Piece.{Piece};
ghost use Rattle.c_printer.specs.Laws.{BlocksAreRead, BlocksMove, TokensAreRead, TypesAreRead, ValuesAreRead};
ghost use Rattle.c_printer.specs.Put.{AreBytes, CanBePut, kind_of, spelled, spelled_text};
ghost use Rattle.c_printer.specs.Text.{Says, Text, with_token};

use c_lexer::tokens_cover;

/// What is put is a token of its class, and says what was put: a number its value and type, a character its byte, a text its bytes.
pub fn pieces_read_back()
    ensures token { (p : Piece) → CanBePut p → IsToken (spelled p) (kind_of p) }
    ensures text { (bytes : List ℕ) → AreBytes bytes → text_value (spelled_text bytes) ≡ bytes }
{}

/// The tokens of a text that is written token by token are those that were put, each at the beginning of a line where it was put so.
pub fn what_is_written_is_read()
    ensures token { (p : Piece) (ts : List Item) (first : Bool) (t : Text) → CanBePut p → Says ts first t → Says (ts ++ (spelled p, kind_of p, first) ∷ []) false (with_token t (spelled p)) }
    ensures read { (ts : List Item) (first : Bool) (t : Text) → Says ts first t → (ls : List Lexeme) × Tokens (all_of t.bytes) ls None × (map (λ (l : Lexeme). (l.text, l.kind, l.begins_line)) ls ≡ ts) }
{}

/// The tokens that are put of a type or a value that has a reading are read as that type or value, apart from places.
pub fn types_and_values_are_read()
    ensures types { TypesAreRead }
    ensures values { ValuesAreRead }
{}

/// And so are the declarations and statements of a block that has a reading.
pub fn blocks_are_read()
    ensures { BlocksAreRead }
{}

/// The bytes of a list of tokens and white space that can be written have those tokens, at their places.
pub fn tokens_are_read()
    ensures { TokensAreRead }
{
    tokens_cover();
}

/// The same tokens at other places are read as the same tree, apart from places.
pub fn places_do_not_matter()
    ensures { BlocksMove }
{}
