//! The values of the counter properties.

ghost use Rattle.std.specs.Prelude.{◌≡◌, IfOk};
ghost use Rattle.reading.specs.Reading.{Reads, run_at};
ghost use Rattle.css_values.specs.Parts.{solid};
ghost use Rattle.css_values.specs.Lists.{none_or, reset_value, reversed_at, reset_at, resets, counter_op_at};

use crate::combining::all;
use crate::parts::{is_alone, name, optional_integer, past_close, past_function};
use css_tokens::token::Token;
use plain_types::count::Count;
use plain_types::duplicate::Duplicate;
use plain_types::list::List;
use plain_types::memory::Memory;
use plain_types::style::{CounterOp, ResetOp};
use plain_types::text::Text;
use std::alloc::Global;

/// `reversed( <counter-name> )`
fn reversed(tokens: &[Token]) -> Option<(&Text, &[Token])>
    ensures { Reads (λ x. (x.0.now, solid x.1.now)) result (reversed_at (solid tokens.now)) }
{
    let rest = past_function("reversed", tokens)?;
    let (name, rest) = name(rest)?;
    let end = past_close(rest)?;
    Some((name, end))
}

/// The value of an entry with this integer, or none.
fn reset_value(reversed: bool, value: Option<Count>) -> Option<Count>
    ensures { result ≡ reset_value reversed value }
{
    if reversed {
        value
    } else {
        Some(value.unwrap_or(0))
    }
}

/// `[ <counter-name> | <reversed-counter-name> ] <integer>?`
#[tactic(auto, unfolding(crate::specs::Lists::reset_at))]
fn reset(alloc: Global, tokens: &[Token]) -> Result<Option<(ResetOp, &[Token])>, Memory>
    ensures { IfOk result (λ r. Reads (λ x. (x.0, solid x.1.now)) r (reset_at (solid tokens.now))) }
{
    if let Some((name, rest)) = reversed(tokens) {
        let (value, rest) = optional_integer(rest);
        let name = name.duplicate(alloc)?;
        let value = reset_value(true, value);
        return Ok(Some((
            ResetOp {
                name,
                reversed: true,
                value,
            },
            rest,
        )));
    }
    let Some((name, rest)) = name(tokens) else {
        return Ok(None);
    };
    let (value, rest) = optional_integer(rest);
    let name = name.duplicate(alloc)?;
    let value = reset_value(false, value);
    Ok(Some((
        ResetOp {
            name,
            reversed: false,
            value,
        },
        rest,
    )))
}

fn reset_run(alloc: Global, tokens: &[Token]) -> Result<(List<ResetOp>, &[Token]), Memory>
    ensures { IfOk result (λ x. run_at reset_at (solid tokens.now) ≡ (x.0, solid x.1.now)) }
{
    let mut resets = List::new(alloc);
    let mut rest = tokens;
    'pieces: while let Some((entry, after)) = reset(alloc, rest)? {
        resets.push(entry)?;
        rest = after;
    }
    Ok((resets, rest))
}

/// `[ [ <counter-name> | <reversed-counter-name> ] <integer>? ]+ | none`
pub(crate) fn resets(alloc: Global, tokens: &[Token]) -> Result<Option<List<ResetOp>>, Memory>
    ensures { IfOk result (λ r. r ≡ resets (solid tokens.now)) }
{
    if is_alone("none", tokens) {
        return Ok(Some(List::new(alloc)));
    }
    let (resets, rest) = reset_run(alloc, tokens)?;
    Ok(all(resets, rest))
}

/// `<counter-name> <integer>?`, this value being meant where no integer stands there
#[tactic(auto, unfolding(crate::specs::Lists::counter_op_at))]
fn counter_op(
    alloc: Global,
    missing: Count,
    tokens: &[Token],
) -> Result<Option<(CounterOp, &[Token])>, Memory>
    ensures { IfOk result (λ r. Reads (λ x. (x.0, solid x.1.now)) r (counter_op_at missing (solid tokens.now))) }
{
    let Some((name, rest)) = name(tokens) else {
        return Ok(None);
    };
    let (value, rest) = optional_integer(rest);
    let name = name.duplicate(alloc)?;
    let value = value.unwrap_or(missing);
    Ok(Some((CounterOp { name, value }, rest)))
}

fn counter_op_run(
    alloc: Global,
    missing: Count,
    tokens: &[Token],
) -> Result<(List<CounterOp>, &[Token]), Memory>
    ensures { IfOk result (λ x. run_at (counter_op_at missing) (solid tokens.now) ≡ (x.0, solid x.1.now)) }
{
    let mut ops = List::new(alloc);
    let mut rest = tokens;
    'pieces: while let Some((entry, after)) = counter_op(alloc, missing, rest)? {
        ops.push(entry)?;
        rest = after;
    }
    Ok((ops, rest))
}

/// `[ <counter-name> <integer>? ]+ | none`
pub(crate) fn counter_ops(
    alloc: Global,
    missing: Count,
    tokens: &[Token],
) -> Result<Option<List<CounterOp>>, Memory>
    ensures { IfOk result (λ r. r ≡ none_or (counter_op_at missing) (solid tokens.now)) }
{
    if is_alone("none", tokens) {
        return Ok(Some(List::new(alloc)));
    }
    let (ops, rest) = counter_op_run(alloc, missing, tokens)?;
    Ok(all(ops, rest))
}
