//! What a rule says of a style (CSS Counter Styles 3, 3).

ghost use Rattle.std.specs.Prelude.{◌≡◌, IfOk, IfSome, None, OnOk, codes, option_copied, unwrap_or};
ghost use Rattle.std.specs.List.{fold};
ghost use Rattle.std.specs.Option.{option_map};
ghost use Rattle.std.specs.Str.{chars};
ghost use Rattle.plain_types.specs.StyleNames.{style_name};
ghost use Rattle.counter_style_table.specs.Named.{named_after};
ghost use Rattle.css_definitions.specs.CounterStyles.{automatic_range, described, system_after, extended_by, initial_style, over, own_style, system_of};

use plain_types::count::Count;
use plain_types::counter_style::{Bounds, CounterStyle, Descriptor, StyleDef};
use plain_types::duplicate::Duplicate;
use plain_types::list::List;
use plain_types::memory::Memory;
use plain_types::style_name::style_name;
use plain_types::style_ref::System;
use plain_types::text::Text;
use std::alloc::Global;

/// The style of a rule that extends no other.
pub fn own_style(alloc: Global, rule: &StyleDef) -> Result<CounterStyle, Memory>
    ensures style { IfOk result (λ style. style ≡ own_style rule.now) }
{
    let system = match named_system(rule.descriptors.as_slice()) {
        Some(system) => system.duplicate(alloc)?,
        None => System::Symbolic,
    };
    over(alloc, rule, initial_style(alloc, system)?)
}

/// The style of a rule over another, which has what the rule does not say.
pub fn over(alloc: Global, rule: &StyleDef, mut style: CounterStyle) -> Result<CounterStyle, Memory>
    ensures style { IfOk result (λ over_it. over_it ≡ over rule.now style) }
{
    for descriptor in rule.descriptors.as_slice() {
        describe(alloc, &mut style, descriptor)?;
    }
    style.name = Text::from_str(alloc, style_name(rule.name.as_str()))?;
    Ok(style)
}

/// The name of the style that a rule extends, as the rule has it.
pub fn extended_name(rule: &StyleDef) -> Option<&Text>
    ensures name { option_map style_name (option_copied result) ≡ extended_by (system_of rule.now) }
    ensures written { IfSome result (λ name. system_of rule.now ≡ System.Extends name.now) }
{
    match named_system(rule.descriptors.as_slice()) {
        Some(System::Extends(name)) => Some(name),
        _ => None,
    }
}

/// The system that is named last.
pub fn named_system(descriptors: &[Descriptor]) -> Option<&System>
    ensures system { unwrap_or (option_copied result) System.Symbolic ≡ fold system_after System.Symbolic descriptors.now }
    ensures last { option_copied result ≡ fold named_after None descriptors.now }
{
    let mut named = None;
    for descriptor in descriptors {
        if let Descriptor::System(system) = descriptor {
            named = Some(system);
        }
    }
    named
}

/// Lets a descriptor say what it says of a style.
fn describe(alloc: Global, style: &mut CounterStyle, descriptor: &Descriptor) -> Result<(), Memory>
    ensures ok { OnOk result (style.new ≡ described style.old descriptor.now) }
{
    match descriptor {
        Descriptor::System(_) => {}
        Descriptor::Negative { before, after } => {
            style.before = before.duplicate(alloc)?;
            style.after = after.duplicate(alloc)?;
        }
        Descriptor::Prefix(text) => style.prefix = text.duplicate(alloc)?,
        Descriptor::Suffix(text) => style.suffix = text.duplicate(alloc)?,
        Descriptor::RangeAuto => style.ranges = automatic_range(alloc, &style.system)?,
        Descriptor::Range(ranges) => style.ranges = ranges.duplicate(alloc)?,
        Descriptor::Pad { width, symbol } => {
            style.width = *width;
            style.pad = symbol.duplicate(alloc)?;
        }
        Descriptor::Fallback(name) => style.fallback = name.duplicate(alloc)?,
        Descriptor::Symbols(symbols) => style.symbols = symbols.duplicate(alloc)?,
        Descriptor::Additive(weights) => style.weights = weights.duplicate(alloc)?,
    }
    Ok(())
}

/// A style of which only the system is known.
pub fn initial_style(alloc: Global, system: System) -> Result<CounterStyle, Memory>
    ensures style { IfOk result (λ style. style ≡ initial_style system) }
{
    let ranges = automatic_range(alloc, &system)?;
    Ok(CounterStyle {
        name: Text::new(alloc),
        system,
        symbols: List::new(alloc),
        weights: List::new(alloc),
        before: Text::from_str(alloc, "-")?,
        after: Text::new(alloc),
        prefix: Text::new(alloc),
        suffix: Text::from_str(alloc, ". ")?,
        ranges,
        width: 0,
        pad: Text::new(alloc),
        fallback: Text::from_str(alloc, "decimal")?,
    })
}

/// The automatic range of a system.
fn automatic_range(alloc: Global, system: &System) -> Result<List<Bounds>, Memory>
    ensures range { IfOk result (λ range. range ≡ automatic_range system.now) }
{
    let low = match system {
        System::Alphabetic | System::Symbolic => Some(1),
        System::Additive => Some(0),
        System::Cyclic | System::Numeric | System::Fixed(_) | System::Extends(_) => None,
    };
    let mut range = List::new(alloc);
    range.push(Bounds { low, high: None })?;
    Ok(range)
}
