//! The algorithms of counter styles (CSS Counter Styles 3, 3.1).

ghost use Rattle.std.specs.Prelude.{◌≡◌, ◌<◌, ◌≤◌, ◌==◌, ℕ, length, OnOk, IfOk, flat_map, reverse, All};
ghost use Rattle.css_definitions.specs.Representation.{symbol, cyclic_place, fixed_place, numeric_text, alphabetic_text, symbolic_text, additive_parts, additive_rest};
ghost use Rattle.representation.specs.Draft.{extended};

use crate::draft::Draft;
use plain_types::count::Count;
use plain_types::counter_style::Weight;
use plain_types::memory::Memory;
use plain_types::text::Text;
use std::alloc::Global;

/// The place of the symbol of a cyclic system, of which there are so many.
pub fn cyclic_place(value: Count, count: usize) -> usize
    requires some { 0 < count }
    ensures place { result ≡ cyclic_place value count }
{
    if value >= 1 {
        (value - 1) as usize % count
    } else {
        count - 1 - value.unsigned_abs() as usize % count
    }
}

/// The place of the symbol of a fixed system, of which there are so many; the first one is that of the
/// value `first`.
pub fn fixed_place(value: Count, first: Count, count: usize) -> Option<usize>
    ensures place { result ≡ fixed_place value first count }
{
    if value < first {
        return None;
    }
    let place = value.abs_diff(first) as usize;
    if place < count { Some(place) } else { None }
}

/// Writes the symbols of these digits, the last digit first.
fn write_digits(symbols: &[Text], mut digits: Vec<usize>, draft: &mut Draft) -> Result<(), Memory>
    requires within { All (λ digit. digit < length symbols.now) digits.items }
    ensures ok { OnOk result (draft.new ≡ extended draft.old (flat_map (symbol symbols.now) (reverse digits.items))) }
{
    while let Some(digit) = digits.pop() {
        draft.push(symbols[digit].as_str(), 1)?;
    }
    Ok(())
}

/// Writes the digits of a positional base.
pub fn write_numeric(
    alloc: Global,
    symbols: &[Text],
    number: u64,
    draft: &mut Draft,
) -> Result<(), Memory>
    requires two { 2 ≤ length symbols.now }
    ensures ok { OnOk result (draft.new ≡ extended draft.old (numeric_text symbols.now number)) }
{
    if number == 0 {
        return draft.push(symbols[0].as_str(), 1);
    }
    let base = symbols.len() as u64;
    let mut rest = number;
    let mut digits: Vec<usize> = Vec::new(alloc);
    'digit: while rest > 0 {
        digits.push((rest % base) as usize)?;
        rest = rest / base;
    }
    write_digits(symbols, digits, draft)
}

/// Writes the digits of a bijective base.
pub fn write_alphabetic(
    alloc: Global,
    symbols: &[Text],
    number: u64,
    draft: &mut Draft,
) -> Result<(), Memory>
    requires two { 2 ≤ length symbols.now }
    ensures ok { OnOk result (draft.new ≡ extended draft.old (alphabetic_text symbols.now number)) }
{
    let base = symbols.len() as u64;
    let mut rest = number;
    let mut digits: Vec<usize> = Vec::new(alloc);
    'digit: while rest > 0 {
        digits.push(((rest - 1) % base) as usize)?;
        rest = (rest - 1) / base;
    }
    write_digits(symbols, digits, draft)
}

/// Writes one symbol, once more for each round of the symbols.
pub fn write_symbolic(symbols: &[Text], number: u64, draft: &mut Draft) -> Result<(), Memory>
    requires some { 0 < length symbols.now }
    requires positive { 0 < number }
    ensures ok { OnOk result (draft.new ≡ extended draft.old (symbolic_text symbols.now number)) }
{
    let count = symbols.len() as u64;
    let place = ((number - 1) % count) as usize;
    draft.push(symbols[place].as_str(), (number - 1) / count + 1)
}

/// Writes the tuples that a number is made of, and tells whether they leave no rest.
pub fn write_additive(tuples: &[Weight], number: u64, draft: &mut Draft) -> Result<bool, Memory>
    ensures ok { OnOk result (draft.new ≡ extended draft.old (additive_parts tuples.now number)) }
    ensures whole { IfOk result (λ is_whole. is_whole ≡ (additive_rest tuples.now number == 0)) }
{
    let mut rest = number;
    for tuple in tuples {
        let weight = tuple.weight.unsigned_abs();
        if tuple.weight >= 1 && weight <= rest {
            draft.push(tuple.symbol.as_str(), rest / weight)?;
            rest = rest % weight;
        }
    }
    Ok(rest == 0)
}
