//! Initial representations (CSS Counter Styles 3, 2, step 3).

ghost use Rattle.std.specs.Prelude.{◌≡◌, ◌<◌, ◌≤◌, ◌==◌, IsTrue, IfOk, length, pos, option_copied};
ghost use Rattle.std.specs.List.{find};
ghost use Rattle.std.specs.Option.{option_map};
ghost use Rattle.std.specs.Ordering.{int_eq};
ghost use Rattle.plain_types.specs.declared.counter_style.Weight.{Weight};
ghost use Rattle.plain_types.specs.Table.{is_supplied};
ghost use Rattle.css_definitions.specs.Representation.{symbol, limited, initial_text, additive_text, numeric_text, alphabetic_text, symbolic_text};

use crate::draft::Draft;
use crate::systems::{
    cyclic_place, fixed_place, write_additive, write_alphabetic, write_numeric, write_symbolic,
};
use plain_types::count::Count;
use plain_types::counter_style::Weight;
use plain_types::memory::Memory;
use plain_types::style_ref::System;
use plain_types::text::Text;
use std::alloc::Global;

/// What the system writes for the value, as a draft; none where it writes nothing and the fallback is to
/// be used.
pub fn initial_draft(
    alloc: Global,
    system: &System,
    symbols: &[Text],
    tuples: &[Weight],
    value: Count,
) -> Result<Option<Draft>, Memory>
    requires supplied { IsTrue (is_supplied system.now (length symbols.now) (length tuples.now)) }
    ensures text { IfOk result (λ draft. draft ≡ option_map limited (initial_text system.now symbols.now tuples.now value)) }
{
    let number = value.unsigned_abs();
    match system {
        System::Cyclic => {
            let place = cyclic_place(value, symbols.len());
            Ok(Some(one_symbol(alloc, symbols, place)?))
        }
        System::Fixed(first) => match fixed_place(value, *first, symbols.len()) {
            Some(place) => Ok(Some(one_symbol(alloc, symbols, place)?)),
            None => Ok(None),
        },
        System::Numeric => Ok(Some(numeric_draft(alloc, symbols, number)?)),
        System::Alphabetic if number > 0 => Ok(Some(alphabetic_draft(alloc, symbols, number)?)),
        System::Symbolic if number > 0 => Ok(Some(symbolic_draft(alloc, symbols, number)?)),
        System::Additive => additive_draft(alloc, tuples, number),
        System::Alphabetic | System::Symbolic | System::Extends(_) => Ok(None),
    }
}

/// The draft of the symbol at a place.
fn one_symbol(alloc: Global, symbols: &[Text], place: usize) -> Result<Draft, Memory>
    requires within { place < length symbols.now }
    ensures text { IfOk result (λ draft. draft ≡ limited (symbol symbols.now place)) }
{
    let mut draft = Draft::new(alloc);
    draft.push(symbols[place].as_str(), 1)?;
    Ok(draft)
}

/// The draft of a number in the positional base.
fn numeric_draft(alloc: Global, symbols: &[Text], number: u64) -> Result<Draft, Memory>
    requires two { 2 ≤ length symbols.now }
    ensures text { IfOk result (λ draft. draft ≡ limited (numeric_text symbols.now number)) }
{
    let mut draft = Draft::new(alloc);
    write_numeric(alloc, symbols, number, &mut draft)?;
    Ok(draft)
}

/// The draft of a number in the bijective base.
fn alphabetic_draft(alloc: Global, symbols: &[Text], number: u64) -> Result<Draft, Memory>
    requires two { 2 ≤ length symbols.now }
    ensures text { IfOk result (λ draft. draft ≡ limited (alphabetic_text symbols.now number)) }
{
    let mut draft = Draft::new(alloc);
    write_alphabetic(alloc, symbols, number, &mut draft)?;
    Ok(draft)
}

/// The draft of a repeated symbol.
fn symbolic_draft(alloc: Global, symbols: &[Text], number: u64) -> Result<Draft, Memory>
    requires some { 0 < length symbols.now }
    requires positive { 0 < number }
    ensures text { IfOk result (λ draft. draft ≡ limited (symbolic_text symbols.now number)) }
{
    let mut draft = Draft::new(alloc);
    write_symbolic(symbols, number, &mut draft)?;
    Ok(draft)
}

/// The draft of an additive number, where its tuples leave no rest.
fn additive_draft(alloc: Global, tuples: &[Weight], number: u64) -> Result<Option<Draft>, Memory>
    ensures text { IfOk result (λ draft. draft ≡ option_map limited (additive_text tuples.now number)) }
{
    let mut draft = Draft::new(alloc);
    if number == 0 {
        return match zero_symbol(tuples) {
            Some(symbol) => {
                draft.push(symbol.as_str(), 1)?;
                Ok(Some(draft))
            }
            None => Ok(None),
        };
    }
    if write_additive(tuples, number, &mut draft)? {
        Ok(Some(draft))
    } else {
        Ok(None)
    }
}

/// The first symbol of weight 0.
fn zero_symbol(tuples: &[Weight]) -> Option<&Text>
    ensures symbol { option_copied result ≡ option_map (λ (tuple : Weight). tuple.symbol) (find (λ (tuple : Weight). int_eq tuple.weight (pos 0)) tuples.now) }
{
    for tuple in tuples {
        if tuple.weight == 0 {
            return Some(&tuple.symbol);
        }
    }
    None
}
