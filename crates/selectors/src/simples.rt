//! Simple selectors that hold no others: types, ids, classes and attributes.

ghost use Rattle.std.specs.Prelude.{◌≡◌, IfOk};
ghost use Rattle.std.specs.Str.{chars};
ghost use Rattle.reading.specs.Reading.{Reads};
ghost use Rattle.css_tokens.specs.TokenReading.{held_at, past_close, skip_whitespace};
ghost use Rattle.selectors.specs.Simples.{type_at, id_at, class_at, test_of, test_at, value_of, flag_word, flag_of, or_sensitive, bracket_end, present, flag_at, tested_at, attribute_at};

use css_tokens::token::{Token, TokenKind};
use css_tokens::token_reading::{close, delimiter, ident, skip_whitespace};
use css_tokens::words::is_word;
use plain_types::duplicate::Duplicate;
use plain_types::memory::Memory;
use plain_types::selector::Simple;
use plain_types::selector_parts::AttrTest;
use plain_types::text::Text;
use std::alloc::Global;

/// `<type-selector>`: an identifier or `*`
pub(crate) fn type_selector(
    alloc: Global,
    tokens: &[Token],
) -> Result<Option<(Simple, &[Token])>, Memory>
    ensures { IfOk result (λ r. Reads (λ x. (x.0, x.1.now)) r (type_at tokens.now)) }
{
    let Some((token, rest)) = tokens.split_first() else {
        return Ok(None);
    };
    match &token.kind {
        TokenKind::Word(name) => {
            let name = name.as_text().duplicate(alloc)?;
            Ok(Some((Simple::Element(name), rest)))
        }
        TokenKind::Sign('*') => Ok(Some((Simple::Any, rest))),
        _ => Ok(None),
    }
}

/// `<id-selector>`: a hash that is an identifier
pub(crate) fn id(alloc: Global, tokens: &[Token]) -> Result<Option<(Simple, &[Token])>, Memory>
    ensures { IfOk result (λ r. Reads (λ x. (x.0, x.1.now)) r (id_at tokens.now)) }
{
    let Some((token, rest)) = tokens.split_first() else {
        return Ok(None);
    };
    match &token.kind {
        TokenKind::Hash {
            identifier: true,
            name,
        } => {
            let name = name.as_text().duplicate(alloc)?;
            Ok(Some((Simple::Id(name), rest)))
        }
        _ => Ok(None),
    }
}

/// `<class-selector>`: `'.' <ident-token>`
pub(crate) fn class(alloc: Global, tokens: &[Token]) -> Result<Option<(Simple, &[Token])>, Memory>
    ensures { IfOk result (λ r. Reads (λ x. (x.0, x.1.now)) r (class_at tokens.now)) }
{
    let Some(rest) = delimiter('.', tokens) else {
        return Ok(None);
    };
    let Some((name, rest)) = ident(rest) else {
        return Ok(None);
    };
    Ok(Some((Simple::Class(name.duplicate(alloc)?), rest)))
}

/// `'~' | '|' | '^' | '$' | '*'`
fn sign_test(tokens: &[Token]) -> Option<(AttrTest, &[Token])>
    ensures { Reads (λ x. (x.0, x.1.now)) result (held_at test_of tokens.now) }
{
    let (token, rest) = tokens.split_first()?;
    match &token.kind {
        TokenKind::Sign('~') => Some((AttrTest::Word, rest)),
        TokenKind::Sign('|') => Some((AttrTest::Dash, rest)),
        TokenKind::Sign('^') => Some((AttrTest::Start, rest)),
        TokenKind::Sign('$') => Some((AttrTest::End, rest)),
        TokenKind::Sign('*') => Some((AttrTest::Inside, rest)),
        _ => None,
    }
}

/// `<attr-matcher>`: `[ '~' | '|' | '^' | '$' | '*' ]? '='`
fn matcher(tokens: &[Token]) -> Option<(AttrTest, &[Token])>
    ensures { Reads (λ x. (x.0, x.1.now)) result (test_at tokens.now) }
{
    if let Some(rest) = delimiter('=', tokens) {
        return Some((AttrTest::Equal, rest));
    }
    let (test, rest) = sign_test(tokens)?;
    let rest = delimiter('=', rest)?;
    Some((test, rest))
}

/// `<string-token> | <ident-token>`
fn value(tokens: &[Token]) -> Option<(&Text, &[Token])>
    ensures { Reads (λ x. (x.0.now, x.1.now)) result (held_at value_of tokens.now) }
{
    let (token, rest) = tokens.split_first()?;
    match &token.kind {
        TokenKind::Chars(value) => Some((value.as_text(), rest)),
        TokenKind::Word(value) => Some((value.as_text(), rest)),
        _ => None,
    }
}

/// `i | s`, whether ASCII case does not count
fn flag_word(word: &str) -> Option<bool>
    ensures { result ≡ flag_word (chars word.now) }
{
    if is_word(word, "i") {
        Some(true)
    } else if is_word(word, "s") {
        Some(false)
    } else {
        None
    }
}

fn written_flag(tokens: &[Token]) -> Option<(bool, &[Token])>
    ensures { Reads (λ x. (x.0, x.1.now)) result (held_at flag_of tokens.now) }
{
    let (word, rest) = ident(tokens)?;
    let fold = flag_word(word.as_str())?;
    Some((fold, rest))
}

/// `<attr-modifier>?`, after whitespace: whether ASCII case does not count
fn flag(tokens: &[Token]) -> (bool, &[Token])
    ensures fold { result.0 ≡ or_sensitive (flag_at tokens.now).0 }
    ensures rest { result.1.now ≡ (flag_at tokens.now).1 }
{
    match written_flag(skip_whitespace(tokens)) {
        Some((fold, rest)) => (fold, rest),
        None => (false, tokens),
    }
}

/// Whitespace and the bracket.
fn bracket_end(tokens: &[Token]) -> Option<&[Token]>
    ensures { Reads (λ x. x.now) result (past_close 93 (skip_whitespace tokens.now)) }
{
    close(']', skip_whitespace(tokens))
}

/// `<attr-matcher> [ <string-token> | <ident-token> ] <attr-modifier>? ']'`
fn tested<'a>(
    alloc: Global,
    name: &Text,
    tokens: &'a [Token],
) -> Result<Option<(Simple, &'a [Token])>, Memory>
    ensures { IfOk result (λ r. Reads (λ x. (x.0, x.1.now)) r (tested_at name.now tokens.now)) }
{
    let Some((test, rest)) = matcher(skip_whitespace(tokens)) else {
        return Ok(None);
    };
    let Some((value, rest)) = value(skip_whitespace(rest)) else {
        return Ok(None);
    };
    let (fold, rest) = flag(rest);
    let Some(end) = bracket_end(rest) else {
        return Ok(None);
    };
    let name = name.duplicate(alloc)?;
    let value = value.duplicate(alloc)?;
    Ok(Some((
        Simple::Attr {
            name,
            test,
            value,
            fold,
        },
        end,
    )))
}

fn present(alloc: Global, name: &Text) -> Result<Simple, Memory>
    ensures { IfOk result (λ r. r ≡ present name.now) }
{
    let name = name.duplicate(alloc)?;
    Ok(Simple::Attr {
        name,
        test: AttrTest::Present,
        value: Text::new(alloc),
        fold: false,
    })
}

/// `<attribute-selector>`
#[tactic(auto, unfolding(crate::specs::Simples::attribute_at))]
pub(crate) fn attribute(
    alloc: Global,
    tokens: &[Token],
) -> Result<Option<(Simple, &[Token])>, Memory>
    ensures { IfOk result (λ r. Reads (λ x. (x.0, x.1.now)) r (attribute_at tokens.now)) }
{
    let Some(inside) = delimiter('[', tokens) else {
        return Ok(None);
    };
    let Some((name, rest)) = ident(skip_whitespace(inside)) else {
        return Ok(None);
    };
    if let Some(end) = bracket_end(rest) {
        return Ok(Some((present(alloc, name)?, end)));
    }
    tested(alloc, name, rest)
}
