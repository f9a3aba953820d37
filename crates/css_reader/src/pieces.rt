//! Pieces of tokens, cut where no block is open (CSS Syntax 3, 5.4.7 to 5.4.9).

ghost use Rattle.std.specs.Prelude.{◌≡◌, ◌==◌, ◌&&◌, ◌++◌, if◌then◌else◌, IfOk, OnOk, reverse, take, drop, vec_len};
ghost use Rattle.std.specs.List.{list_any};
ghost use Rattle.std.specs.Option.{option_to_list};
ghost use Rattle.css_tokens.specs.TokenReading.{is_sign};
ghost use Rattle.css_reader.specs.Blocks.{closing_bracket, piece, past_piece};

use crate::piece_end::PieceEnd;
use css_tokens::token::{Token, TokenKind};
use css_tokens::token_reading::is_sign;
use plain_types::memory::Memory;
use std::alloc::Global;

/// The bracket that closes the block that this token opens.
fn closing_bracket(kind: &TokenKind) -> Option<char>
    ensures { result ≡ closing_bracket kind.now }
{
    match kind {
        TokenKind::Function(_) => Some(')'),
        TokenKind::Sign(c) => match *c {
            '(' => Some(')'),
            '[' => Some(']'),
            '{' => Some('}'),
            _ => None,
        },
        _ => None,
    }
}

/// Waits for the bracket that closes what this token opens, if it opens something.
fn open(waiting: &mut Vec<char>, kind: &TokenKind) -> Result<(), Memory>
    ensures ok { OnOk result (reverse waiting.new.items ≡ option_to_list (closing_bracket kind.now) ++ reverse waiting.old.items) }
{
    if let Some(bracket) = closing_bracket(kind) {
        waiting.push(bracket)?;
    }
    Ok(())
}

/// Goes past one token. The innermost bracket that is waited for is no more, where this token is it; else the
/// bracket of what the token opens is the innermost.
fn step(waiting: &mut Vec<char>, kind: &TokenKind) -> Result<(), Memory>
    ensures ok { OnOk result (reverse waiting.new.items ≡ (if list_any (λ bracket. is_sign bracket kind.now) (take 1 (reverse waiting.old.items)) then drop 1 (reverse waiting.old.items) else option_to_list (closing_bracket kind.now) ++ reverse waiting.old.items)) }
{
    if let Some(bracket) = waiting.pop() {
        if is_sign(bracket, kind) {
            return Ok(());
        }
        waiting.push(bracket)?;
    }
    open(waiting, kind)
}

/// Whether a piece ends before this token, where these brackets are waited for.
fn ends_here<E: PieceEnd>(waiting: &Vec<char>, kind: &TokenKind) -> bool
    ensures { result ≡ ((vec_len waiting.now == 0) && E.ends kind.now) }
{
    waiting.is_empty() && E::is_end(kind)
}

/// The tokens before the first one that ends the piece and stands in no block of it, and those from that
/// one on. One pass over the piece, with the closing brackets that it waits for in a `Vec`.
pub(crate) fn piece<'a, E: PieceEnd>(
    alloc: Global,
    tokens: &'a [Token],
) -> Result<(&'a [Token], &'a [Token]), Memory>
    ensures piece { IfOk result (λ x. x.0.now ≡ piece E.ends tokens.now) }
    ensures rest { IfOk result (λ x. x.1.now ≡ past_piece E.ends tokens.now) }
{
    let mut waiting = Vec::new(alloc);
    let mut rest = tokens;
    'tokens: while let Some((token, after)) = rest.split_first() {
        if ends_here::<E>(&waiting, &token.kind) {
            break;
        }
        step(&mut waiting, &token.kind)?;
        rest = after;
    }
    Ok(tokens.split_at(tokens.len() - rest.len()))
}

pub(crate) fn past_one(tokens: &[Token]) -> &[Token]
    ensures { result.now ≡ drop 1 tokens.now }
{
    match tokens.split_first() {
        Some((_, rest)) => rest,
        None => tokens,
    }
}
