//! What one style writes (CSS Counter Styles 3, 2).

ghost use Rattle.std.specs.Prelude.{◌≡◌, ◌+◌, ◌-◌, ◌≤◌, ◌&&◌, ℕ, IsTrue, IfOk, cond, length, encode_utf8_all};
ghost use Rattle.std.specs.Int.{is_negative};
ghost use Rattle.std.specs.List.{list_any};
ghost use Rattle.std.specs.Str.{chars};
ghost use Rattle.plain_types.specs.Table.{has_its_symbols, is_supplied};
ghost use Rattle.css_definitions.specs.CounterStyles.{automatic_range};
ghost use Rattle.css_definitions.specs.Representation.{written, uses_sign, is_in_bounds, cluster_count, missing_count, padded, signed, limited, anonymous_style};

use crate::draft::Draft;
use crate::initial::initial_draft;
use plain_types::count::Count;
use plain_types::counter_style::{Bounds, CounterStyle};
use plain_types::memory::Memory;
use plain_types::style_ref::{Anonymous, System};
use plain_types::text::Text;
use std::alloc::Global;
use unicode_segmentation::UnicodeSegmentation;

/// The text of the value in this style; none where the fallback is to write it.
pub fn write_style(
    alloc: Global,
    style: &CounterStyle,
    value: Count,
) -> Result<Option<Text>, Memory>
    requires supplied { IsTrue (has_its_symbols style.now) }
    ensures text { IfOk result (λ text. text ≡ written style.now value) }
{
    if !is_in_range(style.ranges.as_slice(), value) {
        return Ok(None);
    }
    let symbols = style.symbols.as_slice();
    let tuples = style.weights.as_slice();
    let Some(draft) = initial_draft(alloc, &style.system, symbols, tuples, value)? else {
        return Ok(None);
    };
    let Some(initial) = draft.finish() else {
        return Ok(None);
    };
    match pad(alloc, style, value, initial)? {
        Some(text) => Ok(Some(sign(alloc, style, value, text)?)),
        None => Ok(None),
    }
}

/// The text of the value in a style of `symbols()`; none where the fallback is to write it.
pub fn write_anonymous(
    alloc: Global,
    anonymous: &Anonymous,
    value: Count,
) -> Result<Option<Text>, Memory>
    requires supplied { IsTrue (is_supplied anonymous.now.system (length anonymous.now.symbols) 0) }
    ensures text { IfOk result (λ text. text ≡ written (anonymous_style anonymous.now) value) }
{
    if !is_in_automatic_range(&anonymous.system, value) {
        return Ok(None);
    }
    let symbols = anonymous.symbols.as_slice();
    let Some(draft) = initial_draft(alloc, &anonymous.system, symbols, &[], value)? else {
        return Ok(None);
    };
    let Some(text) = draft.finish() else {
        return Ok(None);
    };
    if !has_sign(&anonymous.system, value) {
        return Ok(Some(text));
    }
    let mut signed = Text::from_str(alloc, "-")?;
    signed.push_str(text.as_str())?;
    Ok(Some(signed))
}

/// Whether the value lies in one of these ranges.
fn is_in_range(ranges: &[Bounds], value: Count) -> bool
    ensures test { result ≡ list_any (is_in_bounds value) ranges.now }
{
    ranges.iter().any(|bounds| is_in_bounds(bounds, value))
}

/// Whether the value lies between these bounds, both included.
fn is_in_bounds(bounds: &Bounds, value: Count) -> bool
    ensures test { result ≡ is_in_bounds value bounds.now }
{
    let is_reached = match bounds.low {
        Some(low) => low <= value,
        None => true,
    };
    let is_passed = match bounds.high {
        Some(high) => high < value,
        None => false,
    };
    is_reached && !is_passed
}

/// Whether the value lies in the automatic range of the system.
fn is_in_automatic_range(system: &System, value: Count) -> bool
    ensures test { result ≡ list_any (is_in_bounds value) (automatic_range system.now) }
{
    match system {
        System::Alphabetic | System::Symbolic => value >= 1,
        System::Additive => value >= 0,
        System::Cyclic | System::Numeric | System::Fixed(_) | System::Extends(_) => true,
    }
}

/// Whether the system writes the value with a sign.
fn has_sign(system: &System, value: Count) -> bool
    ensures test { result ≡ (uses_sign system.now && is_negative value) }
{
    match system {
        System::Cyclic | System::Fixed(_) => false,
        System::Numeric
        | System::Alphabetic
        | System::Symbolic
        | System::Additive
        | System::Extends(_) => value < 0,
    }
}

/// How many grapheme clusters a text has.
fn cluster_count(text: &Text) -> usize
    ensures count { result ≡ cluster_count text.now }
{
    text.as_str().graphemes(true).count()
}

/// How many pad symbols the initial text of a value lacks.
fn missing_count(style: &CounterStyle, value: Count, initial: &Text) -> u64
    ensures count { result ≡ missing_count style.now value initial.now }
{
    let width = if style.width > 0 {
        style.width as u64
    } else {
        0
    };
    let missing = width.saturating_sub(cluster_count(initial) as u64);
    if has_sign(&style.system, value) {
        missing
            .saturating_sub(cluster_count(&style.before) as u64)
            .saturating_sub(cluster_count(&style.after) as u64)
    } else {
        missing
    }
}

/// The initial text of a value behind the pad symbols that it lacks, where this is not too long.
fn pad(
    alloc: Global,
    style: &CounterStyle,
    value: Count,
    initial: Text,
) -> Result<Option<Text>, Memory>
    ensures text { IfOk result (λ text. text ≡ limited (padded style.now value initial)) }
{
    let missing = missing_count(style, value, &initial);
    let mut draft = Draft::new(alloc);
    draft.push(style.pad.as_str(), missing)?;
    draft.push(initial.as_str(), 1)?;
    Ok(draft.finish())
}

/// The text of a value between the negative symbols, where it has a sign.
fn sign(alloc: Global, style: &CounterStyle, value: Count, text: Text) -> Result<Text, Memory>
    ensures text { IfOk result (λ signed_text. signed_text ≡ signed style.now value text) }
{
    if !has_sign(&style.system, value) {
        return Ok(text);
    }
    let mut signed = Text::from_str(alloc, style.before.as_str())?;
    signed.push_str(text.as_str())?;
    signed.push_str(style.after.as_str())?;
    Ok(signed)
}
