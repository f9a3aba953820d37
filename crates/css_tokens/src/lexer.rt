//! The tokens of a text.

ghost use Rattle.std.specs.Prelude.{◌≡◌, ◌++◌, IfSome, IfOk, OnOk, codes};
ghost use Rattle.std.specs.Str.{chars, IsUtf8};
ghost use Rattle.reading.specs.Reading.{Reads, past_text};
ghost use Rattle.css_definitions.specs.SheetText.{IsPrepared};
ghost use Rattle.css_tokens.specs.Tokens.{past_comment_end, comment_at, hash_at, token_at, piece_at, token_from, tokens};
ghost use Rattle.css_tokens.specs.Spans.{AreSpans};

use crate::characters::{begins, blanks, past_one};
use crate::identifiers::{ident_character, ident_sequence, starts_identifier};
use crate::numbers::number;
use crate::strings::string;
use crate::token::{Token, TokenKind};
use crate::urls::{at_keyword, named};
use plain_types::list::List;
use plain_types::memory::Memory;
use reading::characters::{first_char, past_character};
use std::alloc::Global;

/// The text after the first `*/`.
fn past_comment_end(text: &str) -> &str
    ensures gives { past_comment_end (chars text.now) ≡ chars result.now }
    ensures text { IsUtf8 result.now }
{
    let mut rest = text;
    'characters: while let Some((first, after)) = first_char(rest) {
        if first == '*' && begins('/', after) {
            return past_one(after);
        }
        rest = after;
    }
    rest
}

/// The text after the comment at its front.
fn comment(text: &str) -> Option<&str>
    ensures gives { Reads (λ x. chars x.now) result (comment_at (chars text.now)) }
    ensures text { IfSome result (λ x. IsUtf8 x.now) }
{
    let rest = past_character('*', past_character('/', text)?)?;
    Some(past_comment_end(rest))
}

/// The hash at the front, and the text after it.
#[tactic(auto, unfolding(crate::specs::Tokens::hash_at))]
fn hash(alloc: Global, text: &str) -> Result<Option<(TokenKind, &str)>, Memory>
    ensures gives { IfOk result (λ r. Reads (λ x. (x.0, chars x.1.now)) r (hash_at (chars text.now))) }
    ensures text { IfOk result (λ r. IfSome r (λ x. IsUtf8 x.1.now)) }
{
    let Some(after) = past_character('#', text) else {
        return Ok(None);
    };
    if ident_character(after).is_none() {
        return Ok(None);
    }
    let identifier = starts_identifier(after);
    let (name, rest) = ident_sequence(alloc, after)?;
    Ok(Some((TokenKind::Hash { identifier, name }, rest)))
}

fn past_comment_close(text: &str) -> Option<&str>
    ensures gives { Reads (λ x. chars x.now) result (past_text (codes "-->") (chars text.now)) }
    ensures text { IfSome result (λ x. IsUtf8 x.now) }
{
    past_character('>', past_character('-', past_character('-', text)?)?)
}

fn past_comment_open(text: &str) -> Option<&str>
    ensures gives { Reads (λ x. chars x.now) result (past_text (codes "<!--") (chars text.now)) }
    ensures text { IfSome result (λ x. IsUtf8 x.now) }
{
    past_character(
        '-',
        past_character('-', past_character('!', past_character('<', text)?)?)?,
    )
}

/// The token at the front, where no comment stands there, and the text after it.
#[tactic(auto, unfolding(crate::specs::Tokens::token_at))]
fn token(alloc: Global, text: &str) -> Result<Option<(TokenKind, &str)>, Memory>
    ensures gives { IfOk result (λ r. Reads (λ x. (x.0, chars x.1.now)) r (token_at (chars text.now))) }
    ensures text { IfOk result (λ r. IfSome r (λ x. IsUtf8 x.1.now)) }
{
    if let Some(rest) = blanks(text) {
        return Ok(Some((TokenKind::Blank, rest)));
    }
    if let Some(found) = string(alloc, text)? {
        return Ok(Some(found));
    }
    if let Some(found) = hash(alloc, text)? {
        return Ok(Some(found));
    }
    if let Some(found) = number(text) {
        return Ok(Some(found));
    }
    if let Some(rest) = past_comment_close(text) {
        return Ok(Some((TokenKind::CommentClose, rest)));
    }
    if let Some(rest) = past_comment_open(text) {
        return Ok(Some((TokenKind::CommentOpen, rest)));
    }
    if let Some(found) = named(alloc, text)? {
        return Ok(Some(found));
    }
    if let Some(found) = at_keyword(alloc, text)? {
        return Ok(Some(found));
    }
    match first_char(text) {
        Some((first, rest)) => Ok(Some((TokenKind::Sign(first), rest))),
        None => Ok(None),
    }
}

/// The comment or token at the front, and the text after it.
#[tactic(auto, unfolding(crate::specs::Tokens::piece_at))]
fn piece(alloc: Global, text: &str) -> Result<Option<(Option<TokenKind>, &str)>, Memory>
    ensures gives { IfOk result (λ r. Reads (λ x. (x.0, chars x.1.now)) r (piece_at (chars text.now))) }
    ensures text { IfOk result (λ r. IfSome r (λ x. IsUtf8 x.1.now)) }
{
    if let Some(rest) = comment(text) {
        return Ok(Some((None, rest)));
    }
    match token(alloc, text)? {
        Some((kind, rest)) => Ok(Some((Some(kind), rest))),
        None => Ok(None),
    }
}

/// The place of a token, or `Memory` where it does not fit.
fn place(bytes: usize) -> Result<u32, Memory>
    ensures { IfOk result (λ place. place ≡ bytes) }
{
    match u32::try_from(bytes) {
        Ok(place) => Ok(place),
        Err(_) => Err(Memory),
    }
}

fn push_token(
    tokens: &mut List<Token>,
    kind: Option<TokenKind>,
    start: usize,
    end: usize,
) -> Result<(), Memory>
    ensures ok { OnOk result (tokens.new ≡ tokens.old ++ token_from kind start end) }
{
    if let Some(kind) = kind {
        let start = place(start)?;
        let end = place(end)?;
        tokens.push(Token { kind, start, end })?;
    }
    Ok(())
}

/// The tokens of a prepared text, each with its place in it (CSS Syntax 3, 4.3). Comments leave none.
/// Time and memory are linear in the length of the text. A token that ends past 4 GiB answers `Memory`.
pub fn tokens(alloc: Global, text: &str) -> Result<List<Token>, Memory>
    requires prepared { IsPrepared (chars text.now) }
    ensures tokens { IfOk result (λ found. found ≡ tokens (chars text.now)) }
    ensures spans { IfOk result (λ found. AreSpans text.now 0 found) }
{
    let mut tokens = List::new(alloc);
    let mut rest = text;
    'pieces: while let Some((kind, after)) = piece(alloc, rest)? {
        let start = text.len() - rest.len();
        let end = text.len() - after.len();
        push_token(&mut tokens, kind, start, end)?;
        rest = after;
    }
    Ok(tokens)
}
