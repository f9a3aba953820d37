//! What declarations and descriptors say, as short texts.

use crate::pushing::{push_all, push_number};
use plain_types::content::{Content, Item, Part, QuoteKind, Url};
use plain_types::count::Count;
use plain_types::counter_style::{Bounds, Descriptor, Weight};
use plain_types::declaration::{Declaration, Said};
use plain_types::memory::Memory;
use plain_types::style::{CounterOp, Display, ListType, Pair, Quotes, ResetOp};
use plain_types::style_ref::{StyleRef, System};
use plain_types::text::Text;

fn push_texts(texts: &[Text], out: &mut Text) -> Result<(), Memory> {
    for text in texts {
        push_all(&["'", text.as_str(), "' "], out)?;
    }
    Ok(())
}

fn push_system(system: &System, out: &mut Text) -> Result<(), Memory> {
    match system {
        System::Cyclic => out.push_str("cyclic"),
        System::Numeric => out.push_str("numeric"),
        System::Alphabetic => out.push_str("alphabetic"),
        System::Symbolic => out.push_str("symbolic"),
        System::Additive => out.push_str("additive"),
        System::Fixed(first) => {
            out.push_str("fixed ")?;
            push_number(*first, out)
        }
        System::Extends(name) => push_all(&["extends ", name.as_str()], out),
    }
}

fn push_style(style: &StyleRef, out: &mut Text) -> Result<(), Memory> {
    match style {
        StyleRef::Nothing => out.push_str("none"),
        StyleRef::Name(name) => out.push_str(name.as_str()),
        StyleRef::Symbols(style) => {
            out.push_str("symbols(")?;
            push_system(&style.system, out)?;
            out.push(' ')?;
            push_texts(style.symbols.as_slice(), out)?;
            out.push(')')
        }
    }
}

fn push_url(url: &Url, out: &mut Text) -> Result<(), Memory> {
    match url {
        Url::Given(address) => out.push_str(address.as_str()),
        Url::FromAttr(name) => push_all(&["attr(", name.as_str(), ")"], out),
    }
}

fn part_word(part: &Part) -> &'static str {
    match part {
        Part::Content => "content",
        Part::Before => "before",
        Part::After => "after",
    }
}

fn quote_word(kind: &QuoteKind) -> &'static str {
    match kind {
        QuoteKind::Open => "open ",
        QuoteKind::Close => "close ",
        QuoteKind::NoOpen => "no-open ",
        QuoteKind::NoClose => "no-close ",
    }
}

/// An item that refers to another element.
fn push_target(item: &Item, out: &mut Text) -> Result<(), Memory> {
    match item {
        Item::TargetCounter { url, name, style } => {
            out.push_str("target-counter(")?;
            push_url(url, out)?;
            push_all(&[" ", name.as_str(), " "], out)?;
            push_style(style, out)?;
            out.push_str(") ")
        }
        Item::TargetCounters {
            url,
            name,
            between,
            style,
        } => {
            out.push_str("target-counters(")?;
            push_url(url, out)?;
            push_all(&[" ", name.as_str(), " '", between.as_str(), "' "], out)?;
            push_style(style, out)?;
            out.push_str(") ")
        }
        Item::TargetText { url, part } => {
            out.push_str("target-text(")?;
            push_url(url, out)?;
            push_all(&[" ", part_word(part), ") "], out)
        }
        _ => out.push('?'),
    }
}

fn push_item(item: &Item, out: &mut Text) -> Result<(), Memory> {
    match item {
        Item::Chars(text) => push_all(&["'", text.as_str(), "' "], out),
        Item::Attr(name) => push_all(&["attr(", name.as_str(), ") "], out),
        Item::Quote(kind) => out.push_str(quote_word(kind)),
        Item::Counter { name, style } => {
            push_all(&["counter(", name.as_str(), " "], out)?;
            push_style(style, out)?;
            out.push_str(") ")
        }
        Item::Counters {
            name,
            between,
            style,
        } => {
            push_all(
                &["counters(", name.as_str(), " '", between.as_str(), "' "],
                out,
            )?;
            push_style(style, out)?;
            out.push_str(") ")
        }
        _ => push_target(item, out),
    }
}

fn push_items(items: &[Item], out: &mut Text) -> Result<(), Memory> {
    for item in items {
        push_item(item, out)?;
    }
    Ok(())
}

fn push_content(content: &Content, out: &mut Text) -> Result<(), Memory> {
    match content {
        Content::Normal => out.push_str("normal"),
        Content::Nothing => out.push_str("none"),
        Content::Items(items) => push_items(items.as_slice(), out),
    }
}

fn push_reset(reset: &ResetOp, out: &mut Text) -> Result<(), Memory> {
    if reset.reversed {
        out.push_str("reversed ")?;
    }
    out.push_str(reset.name.as_str())?;
    if let Some(value) = reset.value {
        out.push(' ')?;
        push_number(value, out)?;
    }
    out.push(',')
}

/// `nothing` for an empty list.
fn push_resets(resets: &[ResetOp], out: &mut Text) -> Result<(), Memory> {
    if resets.is_empty() {
        out.push_str("nothing")?;
    }
    for reset in resets {
        push_reset(reset, out)?;
    }
    Ok(())
}

/// `nothing` for an empty list.
fn push_ops(ops: &[CounterOp], out: &mut Text) -> Result<(), Memory> {
    if ops.is_empty() {
        out.push_str("nothing")?;
    }
    for op in ops {
        push_all(&[op.name.as_str(), " "], out)?;
        push_number(op.value, out)?;
        out.push(',')?;
    }
    Ok(())
}

fn push_pairs(pairs: &[Pair], out: &mut Text) -> Result<(), Memory> {
    for pair in pairs {
        push_all(
            &["'", pair.left.as_str(), "' '", pair.right.as_str(), "' "],
            out,
        )?;
    }
    Ok(())
}

fn push_quotes(quotes: &Quotes, out: &mut Text) -> Result<(), Memory> {
    match quotes {
        Quotes::Nothing => out.push_str("nothing"),
        Quotes::Auto => out.push_str("auto"),
        Quotes::Pairs(pairs) => push_pairs(pairs.as_slice(), out),
    }
}

fn display_word(display: &Display) -> &'static str {
    match display {
        Display::Absent => "absent",
        Display::ListItem => "list-item",
        Display::Plain => "plain",
    }
}

fn push_list_type(list_type: &ListType, out: &mut Text) -> Result<(), Memory> {
    match list_type {
        ListType::Chars(text) => push_all(&["'", text.as_str(), "'"], out),
        ListType::Style(style) => push_style(style, out),
    }
}

fn keyword<T>(said: &Said<T>) -> &'static str {
    match said {
        Said::Value(_) => "value",
        Said::Inherit => "inherit",
        Said::Initial => "initial",
        Said::Unset => "unset",
    }
}

pub fn push_declaration(declaration: &Declaration, out: &mut Text) -> Result<(), Memory> {
    match declaration {
        Declaration::Display(Said::Value(value)) => out.push_str(display_word(value)),
        Declaration::Content(Said::Value(value)) => push_content(value, out),
        Declaration::Resets(Said::Value(value)) => push_resets(value.as_slice(), out),
        Declaration::Increments(Said::Value(value)) => push_ops(value.as_slice(), out),
        Declaration::Assigns(Said::Value(value)) => push_ops(value.as_slice(), out),
        Declaration::ListStyle(Said::Value(value)) => push_list_type(value, out),
        Declaration::Quotes(Said::Value(value)) => push_quotes(value, out),
        Declaration::Display(said) => out.push_str(keyword(said)),
        Declaration::Content(said) => out.push_str(keyword(said)),
        Declaration::Resets(said) => out.push_str(keyword(said)),
        Declaration::Increments(said) => out.push_str(keyword(said)),
        Declaration::Assigns(said) => out.push_str(keyword(said)),
        Declaration::ListStyle(said) => out.push_str(keyword(said)),
        Declaration::Quotes(said) => out.push_str(keyword(said)),
    }
}

/// `_` where there is no bound.
fn push_bound(bound: Option<Count>, out: &mut Text) -> Result<(), Memory> {
    match bound {
        Some(value) => push_number(value, out),
        None => out.push('_'),
    }
}

fn push_ranges(ranges: &[Bounds], out: &mut Text) -> Result<(), Memory> {
    for range in ranges {
        push_bound(range.low, out)?;
        out.push(' ')?;
        push_bound(range.high, out)?;
        out.push(',')?;
    }
    Ok(())
}

fn push_weights(weights: &[Weight], out: &mut Text) -> Result<(), Memory> {
    for weight in weights {
        push_number(weight.weight, out)?;
        push_all(&[" '", weight.symbol.as_str(), "',"], out)?;
    }
    Ok(())
}

pub fn push_descriptor(descriptor: &Descriptor, out: &mut Text) -> Result<(), Memory> {
    match descriptor {
        Descriptor::System(system) => {
            out.push_str("system ")?;
            push_system(system, out)
        }
        Descriptor::Negative { before, after } => push_all(
            &["negative '", before.as_str(), "' '", after.as_str(), "'"],
            out,
        ),
        Descriptor::Prefix(symbol) => push_all(&["prefix '", symbol.as_str(), "'"], out),
        Descriptor::Suffix(symbol) => push_all(&["suffix '", symbol.as_str(), "'"], out),
        Descriptor::RangeAuto => out.push_str("range auto"),
        Descriptor::Range(ranges) => {
            out.push_str("range ")?;
            push_ranges(ranges.as_slice(), out)
        }
        Descriptor::Pad { width, symbol } => {
            out.push_str("pad ")?;
            push_number(*width, out)?;
            push_all(&[" '", symbol.as_str(), "'"], out)
        }
        Descriptor::Fallback(name) => push_all(&["fallback ", name.as_str()], out),
        Descriptor::Symbols(symbols) => {
            out.push_str("symbols ")?;
            push_texts(symbols.as_slice(), out)
        }
        Descriptor::Additive(weights) => {
            out.push_str("additive ")?;
            push_weights(weights.as_slice(), out)
        }
    }
}
