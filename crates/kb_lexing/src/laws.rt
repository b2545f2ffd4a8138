//! Laws of tokens: a text has one list of tokens, and which fronts keep theirs.

ghost use Rattle.std.specs.Prelude.{◌≡◌, ◌++◌, ℕ, List};
ghost use Rattle.kb_lexing.specs.Token.{Token};
ghost use Rattle.kb_lexing.specs.Spelling.{TokensOf};
ghost use Rattle.kb_lexing.specs.Lexemes.{EndsInBracket};

/// A text has at most one list of tokens.
pub fn a_text_has_one_list_of_tokens()
    ensures { (bytes : List ℕ) (tokens others : List Token)
        → TokensOf bytes tokens → TokensOf bytes others → tokens ≡ others }
{}

/// Where the last token of a front is a bracket, the tokens of the whole text begin with those of the front.
pub fn a_front_ending_in_a_bracket_keeps_its_tokens()
    ensures { (front behind : List ℕ) (tokens others : List Token) → EndsInBracket tokens
        → TokensOf front tokens → TokensOf (front ++ behind) others
        → (more : List Token) × (others ≡ tokens ++ more) }
{}
