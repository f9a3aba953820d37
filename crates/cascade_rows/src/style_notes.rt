//! Hints and styles as short texts: in what they differ from initial values.

use crate::pushing::{push_all, push_number};
use plain_types::content::{Content, Item};
use plain_types::declaration::{Declaration, Said};
use plain_types::memory::Memory;
use plain_types::style::{CounterOp, Display, ElementStyle, ListType, Quotes, ResetOp, Style};
use plain_types::style_ref::StyleRef;
use plain_types::text::Text;

fn push_resets(front: &str, resets: &[ResetOp], out: &mut Text) -> Result<(), Memory> {
    for reset in resets {
        push_all(&[front, "reset "], out)?;
        out.push_str(if reset.reversed { "reversed " } else { "" })?;
        out.push_str(reset.name.as_str())?;
        if let Some(value) = reset.value {
            out.push(' ')?;
            push_number(value, out)?;
        }
        out.push_str("; ")?;
    }
    Ok(())
}

fn push_ops(front: &str, word: &str, ops: &[CounterOp], out: &mut Text) -> Result<(), Memory> {
    for op in ops {
        out.push_str(front)?;
        out.push_str(word)?;
        push_all(&[op.name.as_str(), " "], out)?;
        push_number(op.value, out)?;
        out.push_str("; ")?;
    }
    Ok(())
}

/// What a list type other than `disc` is.
fn type_word(list_type: &ListType) -> Option<&str> {
    match list_type {
        ListType::Chars(text) => Some(text.as_str()),
        ListType::Style(StyleRef::Nothing) => Some("none"),
        ListType::Style(StyleRef::Symbols(_)) => Some("symbols"),
        ListType::Style(StyleRef::Name(name)) if name.as_str() == "disc" => None,
        ListType::Style(StyleRef::Name(name)) => Some(name.as_str()),
    }
}

/// A list type other than `disc`; one of characters in quotes.
fn push_type(front: &str, list_type: &ListType, out: &mut Text) -> Result<(), Memory> {
    let Some(word) = type_word(list_type) else {
        return Ok(());
    };
    push_all(&[front, "type "], out)?;
    match list_type {
        ListType::Chars(_) => push_all(&["'", word, "'; "], out),
        ListType::Style(_) => push_all(&[word, "; "], out),
    }
}

pub fn push_hints(hints: &[Declaration], out: &mut Text) -> Result<(), Memory> {
    for hint in hints {
        match hint {
            Declaration::Resets(Said::Value(resets)) => push_resets("", resets.as_slice(), out)?,
            Declaration::Assigns(Said::Value(assigns)) => {
                push_ops("", "set ", assigns.as_slice(), out)?
            }
            Declaration::ListStyle(Said::Value(list_type)) => push_type("", list_type, out)?,
            _ => out.push_str("another; ")?,
        }
    }
    Ok(())
}

/// The characters among the items.
fn push_characters(items: &[Item], out: &mut Text) -> Result<(), Memory> {
    for item in items {
        if let Item::Chars(text) = item {
            out.push_str(text.as_str())?;
        }
    }
    Ok(())
}

fn push_content(front: &str, content: &Content, out: &mut Text) -> Result<(), Memory> {
    match content {
        Content::Normal => Ok(()),
        Content::Nothing => push_all(&[front, "content none; "], out),
        Content::Items(items) => {
            push_all(&[front, "content '"], out)?;
            push_characters(items.as_slice(), out)?;
            out.push_str("'; ")
        }
    }
}

fn push_display(front: &str, display: &Display, out: &mut Text) -> Result<(), Memory> {
    match display {
        Display::Plain => Ok(()),
        Display::Absent => push_all(&[front, "display none; "], out),
        Display::ListItem => push_all(&[front, "display list-item; "], out),
    }
}

fn push_quotes(front: &str, quotes: &Quotes, out: &mut Text) -> Result<(), Memory> {
    match quotes {
        Quotes::Auto => Ok(()),
        Quotes::Nothing => push_all(&[front, "quotes none; "], out),
        Quotes::Pairs(_) => push_all(&[front, "quotes pairs; "], out),
    }
}

/// In what a style differs from initial values, each with the pseudo-element in front.
fn push_style(pseudo: &str, style: &Style, out: &mut Text) -> Result<(), Memory> {
    push_display(pseudo, &style.display, out)?;
    push_content(pseudo, &style.content, out)?;
    push_resets(pseudo, style.resets.as_slice(), out)?;
    push_ops(pseudo, "increment ", style.increments.as_slice(), out)?;
    push_ops(pseudo, "set ", style.assigns.as_slice(), out)?;
    push_type(pseudo, &style.list_type, out)?;
    push_quotes(pseudo, &style.quotes, out)
}

pub fn push_styles(style: &ElementStyle, out: &mut Text) -> Result<(), Memory> {
    push_style("", &style.own, out)?;
    push_style("::marker ", &style.marker, out)?;
    push_style("::before ", &style.before, out)?;
    push_style("::after ", &style.after, out)
}
