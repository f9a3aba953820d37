//! What is true of all lists of selectors. No function here has anything to do: its contract is the law.

ghost use Rattle.std.specs.Prelude.{◌≡◌, ◌↔◌, ℕ, List};
ghost use Rattle.plain_types.specs.declared.selector.Selector.{Selector};
ghost use Rattle.css_tokens.specs.declared.token.Token.{Token};
ghost use Rattle.selectors.specs.Selectors.{Selectors};
ghost use Rattle.selectors.specs.Grammar.{AreSelectors};

/// What is read from tokens is what the grammar says of them, and what it says of them is read.
pub fn grammar()
    ensures law { (text : List ℕ) (tokens : List Token) (selectors : List Selector) → Selectors text tokens selectors ↔ AreSelectors text tokens selectors }
{}

/// The grammar gives tokens one list of selectors at most.
pub fn one_reading()
    ensures law { (text : List ℕ) (tokens : List Token) (selectors other : List Selector) → AreSelectors text tokens selectors → AreSelectors text tokens other → selectors ≡ other }
{}
