//! Tokens read from the front of a slice, and their kinds. The layers above read values, selectors and rules
//! in these words. Each function that reads gives what it reads and the tokens after it.

ghost use Rattle.std.specs.Prelude.{◌≡◌, IsTrue};
ghost use Rattle.reading.specs.Reading.{Reads};
ghost use Rattle.reading.specs.Characters.{is_ascii};
ghost use Rattle.css_tokens.specs.TokenReading.{is_whitespace, is_sign, is_keyword, is_function, ident_at, function_at, past_delimiter, past_close, skip_whitespace};

use crate::token::{Token, TokenKind};
use crate::words::is_word;
use plain_types::text::Text;

/// `<whitespace-token>`
pub fn is_whitespace(kind: &TokenKind) -> bool
    ensures whitespace { result ≡ is_whitespace kind.now }
{
    match kind {
        TokenKind::Blank => true,
        _ => false,
    }
}

/// Whether the token is this character by itself.
pub fn is_sign(wanted: char, kind: &TokenKind) -> bool
    ensures sign { result ≡ is_sign wanted kind.now }
{
    match kind {
        TokenKind::Sign(c) => *c == wanted,
        _ => false,
    }
}

/// Whether the token is this keyword of ASCII characters, in any ASCII case.
pub fn is_keyword(word: &str, kind: &TokenKind) -> bool
    requires ascii { IsTrue (is_ascii word.now) }
    ensures keyword { result ≡ is_keyword word.now kind.now }
{
    match kind {
        TokenKind::Word(name) => is_word(name.as_str(), word),
        _ => false,
    }
}

/// Whether the token is the function of this name of ASCII characters, in any ASCII case.
pub fn is_function(word: &str, kind: &TokenKind) -> bool
    requires ascii { IsTrue (is_ascii word.now) }
    ensures function { result ≡ is_function word.now kind.now }
{
    match kind {
        TokenKind::Function(name) => is_word(name.as_str(), word),
        _ => false,
    }
}

/// The tokens after the whitespace at the front.
pub fn skip_whitespace(tokens: &[Token]) -> &[Token]
    ensures rest { result.now ≡ skip_whitespace tokens.now }
{
    let mut rest = tokens;
    'blanks: while let Some((token, after)) = rest.split_first() {
        if !is_whitespace(&token.kind) {
            break;
        }
        rest = after;
    }
    rest
}

/// `<ident-token>`
pub fn ident(tokens: &[Token]) -> Option<(&Text, &[Token])>
    ensures reads { Reads (λ x. (x.0.now, x.1.now)) result (ident_at tokens.now) }
{
    let (token, rest) = tokens.split_first()?;
    match &token.kind {
        TokenKind::Word(name) => Some((name.as_text(), rest)),
        _ => None,
    }
}

/// `<function-token>`: the name of a function, and the tokens after its bracket.
pub fn function(tokens: &[Token]) -> Option<(&Text, &[Token])>
    ensures reads { Reads (λ x. (x.0.now, x.1.now)) result (function_at tokens.now) }
{
    let (token, rest) = tokens.split_first()?;
    match &token.kind {
        TokenKind::Function(name) => Some((name.as_text(), rest)),
        _ => None,
    }
}

/// The tokens after this character.
pub fn delimiter(wanted: char, tokens: &[Token]) -> Option<&[Token]>
    ensures reads { Reads (λ x. x.now) result (past_delimiter wanted tokens.now) }
{
    let (token, rest) = tokens.split_first()?;
    if is_sign(wanted, &token.kind) {
        Some(rest)
    } else {
        None
    }
}

/// The tokens after this closing bracket, for which the end of the tokens may stand.
pub fn close(bracket: char, tokens: &[Token]) -> Option<&[Token]>
    ensures reads { Reads (λ x. x.now) result (past_close bracket tokens.now) }
{
    let Some((token, rest)) = tokens.split_first() else {
        return Some(tokens);
    };
    if is_sign(bracket, &token.kind) {
        Some(rest)
    } else {
        None
    }
}
