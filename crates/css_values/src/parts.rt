//! The parts of which values are made. Each function here and in the files beside it reads a part at the
//! front of tokens and gives the tokens after it; Blanks at the front are passed over.

ghost use Rattle.std.specs.Prelude.{◌≡◌, ◌∷◌, [], List, ℕ, map, MatchOption, IsTrue};
ghost use Rattle.std.specs.Borrow.{Bor};
ghost use Rattle.std.specs.List.{list_all};
ghost use Rattle.std.specs.Str.{chars};
ghost use Rattle.reading.specs.Reading.{Reads, optional};
ghost use Rattle.css_definitions.specs.Words.{is_among};
ghost use Rattle.reading.specs.Characters.{is_ascii};
ghost use Rattle.css_tokens.specs.TokenReading.{is_sign, is_keyword, is_function};
ghost use Rattle.css_values.specs.Parts.{solid, past_comma, past_keyword, past_function, past_close, word_at, string_at, integer_at, natural_at, wide_words, is_counter_name, name_at, symbol_at, is_nothing_left, is_alone};

use css_tokens::token::{Token, TokenKind};
use css_tokens::token_reading::{is_function, is_keyword, is_sign, skip_whitespace};
use css_tokens::words::is_word;
use plain_types::count::Count;
use plain_types::text::Text;

/// The first token that is no Blank.
#[tactic(auto, using(crate::proofs::Solid::none_solid, crate::proofs::Solid::first_solid))]
pub(crate) fn next(tokens: &[Token]) -> Option<(&TokenKind, &[Token])>
    ensures { MatchOption result (solid tokens.now ≡ []) (λ x. solid tokens.now ≡ x.0.now ∷ solid x.1.now) }
{
    let (token, rest) = skip_whitespace(tokens).split_first()?;
    Some((&token.kind, rest))
}

pub(crate) fn past_comma(tokens: &[Token]) -> Option<&[Token]>
    ensures { Reads (λ x. solid x.now) result (past_comma (solid tokens.now)) }
{
    let (kind, rest) = next(tokens)?;
    if is_sign(',', kind) { Some(rest) } else { None }
}

/// The tokens after this keyword, in any ASCII case.
pub(crate) fn past_keyword<'a>(word: &str, tokens: &'a [Token]) -> Option<&'a [Token]>
    requires { IsTrue (is_ascii word.now) }
    ensures { Reads (λ x. solid x.now) result (past_keyword word.now (solid tokens.now)) }
{
    let (kind, rest) = next(tokens)?;
    if is_keyword(word, kind) {
        Some(rest)
    } else {
        None
    }
}

/// The tokens after this function's name and bracket, in any ASCII case.
pub(crate) fn past_function<'a>(word: &str, tokens: &'a [Token]) -> Option<&'a [Token]>
    requires { IsTrue (is_ascii word.now) }
    ensures { Reads (λ x. solid x.now) result (past_function word.now (solid tokens.now)) }
{
    let (kind, rest) = next(tokens)?;
    if is_function(word, kind) {
        Some(rest)
    } else {
        None
    }
}

/// The tokens after the end of a function: its bracket, or the end of the tokens.
pub(crate) fn past_close(tokens: &[Token]) -> Option<&[Token]>
    ensures { Reads (λ x. solid x.now) result (past_close (solid tokens.now)) }
{
    let Some((kind, rest)) = next(tokens) else {
        return Some(tokens);
    };
    if is_sign(')', kind) { Some(rest) } else { None }
}

pub(crate) fn word(tokens: &[Token]) -> Option<(&Text, &[Token])>
    ensures { Reads (λ x. (x.0.now, solid x.1.now)) result (word_at (solid tokens.now)) }
{
    let (kind, rest) = next(tokens)?;
    match kind {
        TokenKind::Word(name) => Some((name.as_text(), rest)),
        _ => None,
    }
}

pub(crate) fn string(tokens: &[Token]) -> Option<(&Text, &[Token])>
    ensures { Reads (λ x. (x.0.now, solid x.1.now)) result (string_at (solid tokens.now)) }
{
    let (kind, rest) = next(tokens)?;
    match kind {
        TokenKind::Chars(value) => Some((value.as_text(), rest)),
        _ => None,
    }
}

pub(crate) fn integer(tokens: &[Token]) -> Option<(Count, &[Token])>
    ensures { Reads (λ x. (x.0, solid x.1.now)) result (integer_at (solid tokens.now)) }
{
    let (kind, rest) = next(tokens)?;
    match kind {
        TokenKind::Number { whole: true, value } => Some((*value, rest)),
        _ => None,
    }
}

/// `<integer>?`
pub(crate) fn optional_integer(tokens: &[Token]) -> (Option<Count>, &[Token])
    ensures { optional (integer_at (solid tokens.now)) (solid tokens.now) ≡ (result.0, solid result.1.now) }
{
    match integer(tokens) {
        Some((value, rest)) => (Some(value), rest),
        None => (None, tokens),
    }
}

/// An integer of at least 0.
pub(crate) fn natural(tokens: &[Token]) -> Option<(Count, &[Token])>
    ensures { Reads (λ x. (x.0, solid x.1.now)) result (natural_at (solid tokens.now)) }
{
    let (value, rest) = integer(tokens)?;
    if value < 0 { None } else { Some((value, rest)) }
}

/// Whether the name is one of these words of ASCII characters, in any ASCII case.
pub(crate) fn is_among(words: &[&str], name: &str) -> bool
    requires { IsTrue (list_all (λ (word : Bor (List ℕ)). is_ascii word.now) words.now) }
    ensures { result ≡ is_among (map (λ (word : Bor (List ℕ)). word.now) words.now) (chars name.now) }
{
    for word in words {
        if is_word(name, word) {
            return true;
        }
    }
    false
}

/// The words that no name of an author's own is.
static WIDE_WORDS: [&str; 6] = [
    "inherit",
    "initial",
    "unset",
    "revert",
    "revert-layer",
    "default",
];

fn is_wide_word(name: &str) -> bool
    ensures { result ≡ is_among wide_words (chars name.now) }
{
    is_among(&WIDE_WORDS, name)
}

/// `<counter-name>`
pub(crate) fn name(tokens: &[Token]) -> Option<(&Text, &[Token])>
    ensures { Reads (λ x. (x.0.now, solid x.1.now)) result (name_at (solid tokens.now)) }
{
    let (name, rest) = word(tokens)?;
    if is_word(name.as_str(), "none") || is_wide_word(name.as_str()) {
        None
    } else {
        Some((name, rest))
    }
}

/// `<symbol>`: `<string> | <custom-ident>`
pub(crate) fn symbol(tokens: &[Token]) -> Option<(&Text, &[Token])>
    ensures { Reads (λ x. (x.0.now, solid x.1.now)) result (symbol_at (solid tokens.now)) }
{
    if let Some(read) = string(tokens) {
        return Some(read);
    }
    let (name, rest) = word(tokens)?;
    if is_wide_word(name.as_str()) {
        None
    } else {
        Some((name, rest))
    }
}

/// Whether no token but Blanks is left.
pub(crate) fn is_nothing_left(tokens: &[Token]) -> bool
    ensures { result ≡ is_nothing_left (solid tokens.now) }
{
    next(tokens).is_none()
}

/// Whether the keyword stands there alone.
pub(crate) fn is_alone(word: &str, tokens: &[Token]) -> bool
    requires { IsTrue (is_ascii word.now) }
    ensures { result ≡ is_alone word.now (solid tokens.now) }
{
    match past_keyword(word, tokens) {
        Some(rest) => is_nothing_left(rest),
        None => false,
    }
}
