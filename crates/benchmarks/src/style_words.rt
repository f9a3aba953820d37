//! The styles of an element in words, by which they are compared.

use plain_types::content::{Content, Item, Url};
use plain_types::style::{CounterOp, ElementStyle, ListType, Quotes, ResetOp, Style};
use plain_types::style_ref::{Anonymous, StyleRef, System};
use plain_types::text::Text;
use std::alloc::{AllocError, Global};

fn write_system(system: &System, out: &mut String) -> Result<(), AllocError> {
    match system {
        System::Cyclic => writeln!(out, "cyclic"),
        System::Numeric => writeln!(out, "numeric"),
        System::Alphabetic => writeln!(out, "alphabetic"),
        System::Symbolic => writeln!(out, "symbolic"),
        System::Additive => writeln!(out, "additive"),
        System::Fixed(first) => writeln!(out, "fixed {}", *first),
        System::Extends(name) => writeln!(out, "extends {}", name.as_str()),
    }
}

fn write_anonymous(anonymous: &Anonymous, out: &mut String) -> Result<(), AllocError> {
    write_system(&anonymous.system, out)?;
    for symbol in anonymous.symbols.as_slice() {
        writeln!(out, "symbol {}", symbol.as_str())?;
    }
    Ok(())
}

fn write_counter_style(style: &StyleRef, out: &mut String) -> Result<(), AllocError> {
    match style {
        StyleRef::Nothing => writeln!(out, "no style"),
        StyleRef::Name(name) => writeln!(out, "style {}", name.as_str()),
        StyleRef::Symbols(anonymous) => write_anonymous(anonymous, out),
    }
}

fn write_url(url: &Url, out: &mut String) -> Result<(), AllocError> {
    match url {
        Url::Given(url) => writeln!(out, "url {}", url.as_str()),
        Url::FromAttr(name) => writeln!(out, "url of attribute {}", name.as_str()),
    }
}

fn write_counter(name: &Text, style: &StyleRef, out: &mut String) -> Result<(), AllocError> {
    writeln!(out, "counter {}", name.as_str())?;
    write_counter_style(style, out)
}

fn write_counters(
    name: &Text,
    between: &Text,
    style: &StyleRef,
    out: &mut String,
) -> Result<(), AllocError> {
    writeln!(out, "counters {}", name.as_str())?;
    writeln!(out, "between {}", between.as_str())?;
    write_counter_style(style, out)
}

fn write_item(item: &Item, out: &mut String) -> Result<(), AllocError> {
    match item {
        Item::Chars(text) => writeln!(out, "text {}", text.as_str()),
        Item::Attr(name) => writeln!(out, "attribute {}", name.as_str()),
        Item::Quote(kind) => writeln!(out, "quote {:?}", *kind),
        Item::Counter { name, style } => write_counter(name, style, out),
        Item::Counters {
            name,
            between,
            style,
        } => write_counters(name, between, style, out),
        Item::TargetCounter { url, name, style } => {
            write_url(url, out)?;
            write_counter(name, style, out)
        }
        Item::TargetCounters {
            url,
            name,
            between,
            style,
        } => {
            write_url(url, out)?;
            write_counters(name, between, style, out)
        }
        Item::TargetText { url, part } => {
            write_url(url, out)?;
            writeln!(out, "part {:?}", *part)
        }
    }
}

fn write_content(content: &Content, out: &mut String) -> Result<(), AllocError> {
    match content {
        Content::Normal => writeln!(out, "content normal"),
        Content::Nothing => writeln!(out, "content none"),
        Content::Items(items) => {
            for item in items.as_slice() {
                write_item(item, out)?;
            }
            Ok(())
        }
    }
}

fn write_resets(resets: &[ResetOp], out: &mut String) -> Result<(), AllocError> {
    for reset in resets {
        let word = if reset.reversed { "reversed" } else { "reset" };
        match reset.value {
            Some(value) => writeln!(out, "{word} {} {value}", reset.name.as_str())?,
            None => writeln!(out, "{word} {}", reset.name.as_str())?,
        }
    }
    Ok(())
}

fn write_counts(word: &str, ops: &[CounterOp], out: &mut String) -> Result<(), AllocError> {
    for op in ops {
        writeln!(out, "{word} {} {}", op.name.as_str(), op.value)?;
    }
    Ok(())
}

fn write_list_type(list_type: &ListType, out: &mut String) -> Result<(), AllocError> {
    match list_type {
        ListType::Chars(text) => writeln!(out, "marker {}", text.as_str()),
        ListType::Style(style) => write_counter_style(style, out),
    }
}

fn write_quotes(quotes: &Quotes, out: &mut String) -> Result<(), AllocError> {
    match quotes {
        Quotes::Nothing => writeln!(out, "quotes none"),
        Quotes::Auto => writeln!(out, "quotes auto"),
        Quotes::Pairs(pairs) => {
            for pair in pairs.as_slice() {
                writeln!(out, "quotes {} {}", pair.left.as_str(), pair.right.as_str())?;
            }
            Ok(())
        }
    }
}

fn write_style(style: &Style, out: &mut String) -> Result<(), AllocError> {
    writeln!(out, "display {:?}", style.display)?;
    write_content(&style.content, out)?;
    write_resets(style.resets.as_slice(), out)?;
    write_counts("increment", style.increments.as_slice(), out)?;
    write_counts("set", style.assigns.as_slice(), out)?;
    write_list_type(&style.list_type, out)?;
    write_quotes(&style.quotes, out)
}

/// All that the styles of an element and of its pseudo-elements say, a line for each part. Where no text has a line end,
/// those styles are the same that have the same words.
pub(crate) fn words_of(alloc: Global, styles: &ElementStyle) -> Result<String, AllocError> {
    let mut out = String::new(alloc);
    write_style(&styles.own, &mut out)?;
    write_style(&styles.marker, &mut out)?;
    write_style(&styles.before, &mut out)?;
    write_style(&styles.after, &mut out)?;
    Ok(out)
}
