//! The value of `quotes`.

ghost use Rattle.std.specs.Prelude.{◌≡◌, IfOk};
ghost use Rattle.reading.specs.Reading.{Reads, run_at};
ghost use Rattle.css_values.specs.Parts.{solid};
ghost use Rattle.css_values.specs.Contents.{pair_at, quotes_value};

use crate::combining::all;
use crate::parts::{is_alone, string};
use css_tokens::token::Token;
use plain_types::duplicate::Duplicate;
use plain_types::list::List;
use plain_types::memory::Memory;
use plain_types::style::{Pair, Quotes};
use std::alloc::Global;

/// `<string> <string>`
#[tactic(auto, unfolding(crate::specs::Contents::pair_at))]
fn pair(alloc: Global, tokens: &[Token]) -> Result<Option<(Pair, &[Token])>, Memory>
    ensures { IfOk result (λ r. Reads (λ x. (x.0, solid x.1.now)) r (pair_at (solid tokens.now))) }
{
    let Some((left, rest)) = string(tokens) else {
        return Ok(None);
    };
    let Some((right, rest)) = string(rest) else {
        return Ok(None);
    };
    let left = left.duplicate(alloc)?;
    let right = right.duplicate(alloc)?;
    Ok(Some((Pair { left, right }, rest)))
}

fn pairs(alloc: Global, tokens: &[Token]) -> Result<(List<Pair>, &[Token]), Memory>
    ensures { IfOk result (λ x. run_at pair_at (solid tokens.now) ≡ (x.0, solid x.1.now)) }
{
    let mut pairs = List::new(alloc);
    let mut rest = tokens;
    'pieces: while let Some((entry, after)) = pair(alloc, rest)? {
        pairs.push(entry)?;
        rest = after;
    }
    Ok((pairs, rest))
}

/// `auto | none | [ <string> <string> ]+`
#[tactic(auto, unfolding(crate::specs::Contents::quotes_value))]
pub(crate) fn quotes(alloc: Global, tokens: &[Token]) -> Result<Option<Quotes>, Memory>
    ensures { IfOk result (λ r. r ≡ quotes_value (solid tokens.now)) }
{
    if is_alone("none", tokens) {
        return Ok(Some(Quotes::Nothing));
    }
    if is_alone("auto", tokens) {
        return Ok(Some(Quotes::Auto));
    }
    let (pairs, rest) = pairs(alloc, tokens)?;
    match all(pairs, rest) {
        Some(pairs) => Ok(Some(Quotes::Pairs(pairs))),
        None => Ok(None),
    }
}
