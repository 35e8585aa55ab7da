// What holds of the tokens of a text.

ghost use Rattle.std.specs.Prelude.{◌≡◌, ◌≤◌, ◌⊎◌, ◌++◌, ◌∷◌, ℕ, true, false, [], length, drop, map, slice_index, List, Option, Some, None, Ok};
ghost use Rattle.c_lexer.specs.declared.token.BadToken.{BadToken};
ghost use Rattle.c_lexer.specs.declared.token.TokenKind.{TokenKind};
ghost use Rattle.c_lexer.specs.declared.token.TokenKind.TheVariants.{UnusedKeyword};
ghost use Rattle.c_lexer.specs.Laws.{Covers, IsLongest};
ghost use Rattle.c_lexer.specs.Apart.{Item, Puts, needs_space};
ghost use Rattle.c_lexer.specs.Spelling.{IsOneOf, spelling, unused_keywords};
ghost use Rattle.c_lexer.specs.Texts.{text_value};
ghost use Rattle.c_lexer.specs.Tokens.{Left, Lexeme, Tokens, all_of, next_of};
ghost use Rattle.c_lexer.specs.Written.{Denotes, IsToken};

/// What is left of a text has one list of tokens, and one bad token, or none, where they stop.
pub fn one_list_of_tokens()
    ensures some { (l : Left) → (ts : List Lexeme) × (o : Option BadToken) × Tokens l ts o }
    ensures one { (l : Left) (ts us : List Lexeme) (o p : Option BadToken) → Tokens l ts o → Tokens l us p → (ts ≡ us) × (o ≡ p) }
{}

/// The tokens cover what is left of a text, in order, each the longest behind white space and comments, up to its end or the bad token; and no others do.
pub fn tokens_cover()
    ensures covers { (l : Left) (ts : List Lexeme) (o : Option BadToken) → l.at ≤ length l.bytes → Tokens l ts o → Covers l.at (drop l.at l.bytes) ts o }
    ensures only { (l : Left) (ts : List Lexeme) (o : Option BadToken) → Covers l.at (drop l.at l.bytes) ts o → Tokens l ts o }
{}

/// A token is written as the tokens of its class are; no token that stands at its place is longer.
pub fn each_token_is_longest()
    ensures written { (l : Left) (t : Lexeme) → next_of l ≡ Ok (Some t) → IsToken t.text t.kind }
    ensures longest { (l : Left) (t : Lexeme) → next_of l ≡ Ok (Some t) → (w rest : List ℕ) (kind : TokenKind) → drop t.start l.bytes ≡ w ++ rest → IsToken w kind → length w ≤ length t.text }
{}

/// The bytes of a keyword, a literal or a sign are a token of its class, and the only one; the keywords of C11 that the dialect does not use are those of the list.
pub fn words_and_signs_are_spelled()
    ensures some { (kind : TokenKind) → (spelling kind ≡ []) ⊎ IsToken (spelling kind) kind }
    ensures only { (w : List ℕ) (kind : TokenKind) → IsToken w kind → (spelling kind ≡ []) ⊎ (w ≡ spelling kind) }
    ensures unused { (w : List ℕ) → IsOneOf w unused_keywords → IsToken w UnusedKeyword }
    ensures only_unused { (w : List ℕ) (kind : TokenKind) → IsToken w kind → kind ≡ UnusedKeyword → IsOneOf w unused_keywords }
{}

/// What a text denotes: each escape its byte, and each other byte itself.
pub fn texts_denote()
    ensures { (body bytes : List ℕ) → Denotes 34 body bytes → text_value (34 ∷ body ++ 34 ∷ []) ≡ bytes }
{}

/// A token is read as itself in front of what needs no space, and so are tokens that are put one after another.
pub fn tokens_stay_apart()
    ensures one { (w z : List ℕ) (kind : TokenKind) → IsToken w kind → needs_space w (slice_index z 0) ≡ false → IsLongest w z kind }
    ensures all { (ts : List Item) (z : List ℕ) → Puts true ts z → (ls : List Lexeme) × Tokens (all_of z) ls None × (map (λ (t : Lexeme). (t.text, t.kind, t.begins_line)) ls ≡ ts) }
{}
