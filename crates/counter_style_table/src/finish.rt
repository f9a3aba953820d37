//! Styles that extend others (CSS Counter Styles 3, 3.1.7).
//!
//! The styles that extend nothing are finished first. From each of the others the way goes down along
//! `extends`, to a style that is finished or to one that the way has passed, and then up again, each
//! style over the one that it extends. So each rule is passed once, and nothing recurses.

ghost use Rattle.std.specs.Prelude.{◌≡◌, ◌<◌, ℕ, true, false, Option, Some, None, IfOk, OnOk, is_some, length, map, option_copied, reverse, slice_index_or};
ghost use Rattle.std.specs.List.{filter_map, range_with_len};
ghost use Rattle.plain_types.specs.declared.counter_style.CounterStyle.{CounterStyle};
ghost use Rattle.plain_types.specs.Table.{decimal_style};
ghost use Rattle.counter_style_table.specs.Extends.{AreSettled, IsDescent, base, finished_at, is_covered, is_done, own, style_from};

use crate::describe::{extended_name, over, own_style};
use crate::predefined::decimal;
use crate::rules::Rules;
use plain_types::counter_style::CounterStyle;
use plain_types::duplicate::Duplicate;
use plain_types::list::List;
use plain_types::memory::Memory;
use std::alloc::Global;

/// A way down along `extends`.
#[derive(Drop)]
struct Descent {
    /// The places that were passed.
    path: Vec<usize>,
    /// The head of the cycle in which the way ends, if there is one.
    cycle: Option<usize>,
    /// The place that the last one extends, where that is finished.
    from: Option<usize>,
}

/// What the rule at a place extends, if it extends a style that is defined.
fn base(rules: &Rules, place: usize) -> Option<usize>
    requires within { place < length rules.now }
    ensures base { result ≡ base rules.now place }
{
    match extended_name(rules.rule(place)) {
        Some(name) => rules.find(name.as_str()),
        None => None,
    }
}

/// The style at a place that extends nothing or an undefined style, which counts as `decimal`.
fn own(
    alloc: Global,
    rules: &Rules,
    place: usize,
    decimal: &CounterStyle,
) -> Result<CounterStyle, Memory>
    requires within { place < length rules.now }
    requires decimal { decimal.now ≡ decimal_style }
    ensures style { IfOk result (λ style. style ≡ own rules.now place) }
{
    let rule = rules.rule(place);
    if extended_name(rule).is_some() {
        over(alloc, rule, decimal.duplicate(alloc)?)
    } else {
        own_style(alloc, rule)
    }
}

/// The styles of which no other is needed, each at its place.
fn own_styles(
    alloc: Global,
    rules: &Rules,
    decimal: &CounterStyle,
) -> Result<Vec<Option<CounterStyle>>, Memory>
    requires decimal { decimal.now ≡ decimal_style }
    ensures settled { IfOk result (λ styles. AreSettled rules.now styles.items) }
{
    let mut styles = Vec::new(alloc);
    for place in 0..rules.len() {
        let style = match base(rules, place) {
            Some(_) => None,
            None => Some(own(alloc, rules, place, decimal)?),
        };
        styles.push(style)?;
    }
    Ok(styles)
}

/// Which styles are finished.
fn marks(alloc: Global, styles: &[Option<CounterStyle>]) -> Result<Vec<bool>, Memory>
    ensures marks { IfOk result (λ marks. marks.items ≡ map is_some styles.now) }
{
    let mut marks = Vec::new(alloc);
    for style in styles {
        marks.push(style.is_some())?;
    }
    Ok(marks)
}

/// Goes down from a place along `extends` to the first that is finished or passed before, and marks the
/// places that are passed.
fn descend(
    alloc: Global,
    rules: &Rules,
    styles: &[Option<CounterStyle>],
    begun: &mut [bool],
    start: usize,
) -> Result<Descent, Memory>
    requires start { start < length rules.now }
    requires settled { AreSettled rules.now styles.now }
    requires room { length begun.old ≡ length rules.now }
    requires marked { (place : ℕ) → slice_index_or begun.old place false ≡ is_done styles.now place }
    ensures descent { IfOk result (λ descent. IsDescent rules.now styles.now (reverse descent.path.items) descent.cycle descent.from) }
    ensures marked { IfOk result (λ descent. (place : ℕ) → slice_index_or begun.new place false ≡ is_covered styles.now (reverse descent.path.items) place) }
    ensures start { IfOk result (λ descent. is_covered styles.now (reverse descent.path.items) start ≡ true) }
{
    let mut path: Vec<usize> = Vec::new(alloc);
    let mut at = start;
    'down: while !begun[at] {
        begun[at] = true;
        path.push(at)?;
        let Some(next) = base(rules, at) else {
            unreachable!("a style that extends nothing is finished");
        };
        at = next;
    }
    if styles[at].is_some() {
        Ok(Descent {
            path,
            cycle: None,
            from: Some(at),
        })
    } else {
        Ok(Descent {
            path,
            cycle: Some(at),
            from: None,
        })
    }
}

/// Finishes the styles of a way down, the last place first.
fn ascend(
    alloc: Global,
    rules: &Rules,
    decimal: &CounterStyle,
    styles: &mut [Option<CounterStyle>],
    descent: Descent,
) -> Result<(), Memory>
    requires decimal { decimal.now ≡ decimal_style }
    requires settled { AreSettled rules.now styles.old }
    requires descent { IsDescent rules.now styles.old (reverse descent.path.items) descent.cycle descent.from }
    ensures settled { OnOk result (AreSettled rules.now styles.new) }
    ensures done { OnOk result ((place : ℕ) → is_done styles.new place ≡ is_covered styles.old (reverse descent.path.items) place) }
{
    let Descent {
        mut path,
        mut cycle,
        mut from,
    } = descent;
    'up: while let Some(place) = path.pop() {
        let extended = style_from(styles, from, decimal).duplicate(alloc)?;
        let style = over(alloc, rules.rule(place), extended)?;
        styles[place] = Some(style);
        match cycle {
            Some(head) => {
                if head == place {
                    cycle = None;
                    from = Some(place);
                }
            }
            None => from = Some(place),
        }
    }
    Ok(())
}

/// The style at a place that is finished, or `decimal`.
fn style_from<'a>(
    styles: &'a [Option<CounterStyle>],
    from: Option<usize>,
    decimal: &'a CounterStyle,
) -> &'a CounterStyle
    requires decimal { decimal.now ≡ decimal_style }
    ensures style { result.now ≡ style_from styles.now from }
{
    match from {
        Some(place) => match styles.get(place) {
            Some(Some(style)) => style,
            _ => decimal,
        },
        None => decimal,
    }
}

/// The finished style of each rule, in the order of the rules, in time linear in the finished styles.
pub fn finish(alloc: Global, rules: &Rules) -> Result<List<CounterStyle>, Memory>
    ensures styles { IfOk result (λ styles. styles ≡ map (finished_at rules.now) (range_with_len 0 (length rules.now))) }
{
    let decimal = decimal(alloc)?;
    let mut styles = own_styles(alloc, rules, &decimal)?;
    let mut begun = marks(alloc, &styles)?;
    finish_others(alloc, rules, &decimal, &mut styles, &mut begun)?;
    gather(alloc, styles)
}

/// Finishes the styles that extend others.
fn finish_others(
    alloc: Global,
    rules: &Rules,
    decimal: &CounterStyle,
    styles: &mut [Option<CounterStyle>],
    begun: &mut [bool],
) -> Result<(), Memory>
    requires decimal { decimal.now ≡ decimal_style }
    requires settled { AreSettled rules.now styles.old }
    requires marked { begun.old ≡ map is_some styles.old }
    ensures styles { OnOk result (styles.new ≡ map (λ place. Some (finished_at rules.now place)) (range_with_len 0 (length rules.now))) }
{
    for start in 0..rules.len() {
        let descent = descend(alloc, rules, styles, begun, start)?;
        ascend(alloc, rules, decimal, styles, descent)?;
    }
    Ok(())
}

/// The styles that are finished, in their order.
fn gather(alloc: Global, styles: Vec<Option<CounterStyle>>) -> Result<List<CounterStyle>, Memory>
    ensures styles { IfOk result (λ gathered. gathered ≡ filter_map (λ (style : Option CounterStyle). style) styles.items) }
{
    let mut gathered = List::new(alloc);
    for style in styles {
        if let Some(style) = style {
            gathered.push(style)?;
        }
    }
    Ok(gathered)
}
