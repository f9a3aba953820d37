//! What is true of all pieces of tokens. The function here has nothing to do: its contract is the law.

ghost use Rattle.std.specs.Prelude.{◌≡◌, ◌↔◌, Bool, List};
ghost use Rattle.css_tokens.specs.declared.token.Token.{Token};
ghost use Rattle.css_tokens.specs.declared.token.TokenKind.{TokenKind};
ghost use Rattle.css_reader.specs.Blocks.{past_piece};
ghost use Rattle.css_reader.specs.Grammar.{IsPast};

/// Whatever ends them, component values at the front of tokens leave exactly one rest: the grammar says so
/// of what `past_piece` gives, and of nothing else.
pub fn one_piece()
    ensures law { (ends : TokenKind → Bool) (tokens rest : List Token) → IsPast ends tokens rest ↔ (rest ≡ past_piece ends tokens) }
{}
