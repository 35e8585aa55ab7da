// What holds of the tokens of a text.

ghost use Rattle.std.specs.Prelude.{◌≡◌, ◌≢◌, ◌≤◌, ◌⊎◌, ◌++◌, ◌∷◌, ℕ, false, [], length, drop, List, Option, Some, Ok};
ghost use Rattle.std.specs.Char.{encode_utf8};
ghost use Rattle.vala_lexer.specs.Bytes.{starts_with_quotes};
ghost use Rattle.vala_lexer.specs.Texts.{denoted, escape, text_value};
ghost use Rattle.vala_lexer.specs.declared.texts.Escape.{Escape};
ghost use Rattle.vala_lexer.specs.declared.texts.Literal.TheVariants as Literal;
ghost use Rattle.vala_lexer.specs.Written.{IsToken};
ghost use Rattle.vala_lexer.specs.declared.token.TokenKind.{TokenKind};
ghost use Rattle.vala_lexer.specs.Spelling.{spelling};
ghost use Rattle.static_rules.specs.declared.rules.Refusal.{Refusal};
ghost use Rattle.vala_lexer.specs.Laws.{Covers};
ghost use Rattle.vala_lexer.specs.Tokens.{Left, Lexeme, Tokens, next_of};

/// What is left of a text has one list of tokens, and one rule, or none, that is broken where they stop.
pub fn one_list_of_tokens()
    ensures some { (l : Left) → (ts : List Lexeme) × (o : Option Refusal) × Tokens l ts o }
    ensures one { (l : Left) (ts us : List Lexeme) (o p : Option Refusal) → Tokens l ts o → Tokens l us p → (ts ≡ us) × (o ≡ p) }
{}

/// The tokens cover what is left of a text, in order and behind white space and comments, up to its end or the broken rule.
pub fn tokens_cover()
    ensures { (l : Left) (ts : List Lexeme) (o : Option Refusal) → l.at ≤ length l.bytes → Tokens l ts o → Covers l.file l.at (drop l.at l.bytes) ts o }
{}

/// A token is written as the tokens of its class are, and denotes what they denote; no token that stands at its place is longer.
pub fn each_token_is_longest()
    ensures written { (l : Left) (t : Lexeme) → next_of l ≡ Ok (Some t) → IsToken t.text t.kind }
    ensures longest { (l : Left) (t : Lexeme) → next_of l ≡ Ok (Some t) → (w rest : List ℕ) (kind : TokenKind) → drop t.span.start l.bytes ≡ w ++ rest → IsToken w kind → length w ≤ length t.text }
{}

/// The bytes of a keyword or a sign are a token of its class, and the only one.
pub fn keywords_and_signs_are_spelled()
    ensures some { (kind : TokenKind) → (spelling kind ≡ []) ⊎ IsToken (spelling kind) kind }
    ensures only { (w : List ℕ) (kind : TokenKind) → IsToken w kind → (spelling kind ≡ []) ⊎ (w ≡ spelling kind) }
{}

/// What a text denotes: between `"` each escape its character in UTF-8 and each other byte itself, and between `"""` each byte itself.
pub fn texts_denote()
    ensures verbatim { (b : List ℕ) → text_value (34 ∷ 34 ∷ 34 ∷ b ++ 34 ∷ 34 ∷ 34 ∷ []) ≡ b }
    ensures text { (b : List ℕ) → starts_with_quotes (34 ∷ b ++ 34 ∷ []) ≡ false → text_value (34 ∷ b ++ 34 ∷ []) ≡ denoted b }
    ensures nothing { denoted [] ≡ [] }
    ensures byte { (b : ℕ) (rest : List ℕ) → b ≢ 92 → denoted (b ∷ rest) ≡ b ∷ denoted rest }
    ensures escape { (rest : List ℕ) (e : Escape) → escape Literal.Text rest ≡ Some e → denoted (92 ∷ rest) ≡ encode_utf8 e.code ++ denoted (drop e.len rest) }
{}
