//! Attributes.

ghost use Rattle.std.specs.Prelude.{◌≡◌, IsTrue, IfSome, IfOk};
ghost use Rattle.std.specs.Str.{chars, IsUtf8};
ghost use Rattle.reading.specs.Characters.{is_quote};
ghost use Rattle.reading.specs.Reading.{run_at, Reads};
ghost use Rattle.xhtml_items.specs.Machinery.Items.{value_part_at, quoted_at, attribute_at, are_distinct};
ghost use Rattle.xhtml_items.specs.Tokens.{character_view, value_view, attribute_view, attributes_view};

use crate::characters::{as_read, is_plain};
use crate::passing::{split_at_stop, value_stops};
use crate::references::reference;
use crate::text::{past_some_blanks, skip_blanks, split_name};
use plain_types::attr::Attr;
use plain_types::list::List;
use plain_types::memory::Memory;
use plain_types::text::Text;
use reading::characters::{first_char, is_quote, past_character};
use std::alloc::Global;
use std::collections::BTreeSet;

/// A part of a value between two of these quotes: the character that it reads as.
#[tactic(auto, unfolding(crate::specs::Machinery::Items::value_part_at))]
fn value_part(quote: char, text: &str) -> Option<(char, &str)>
    ensures reads { Reads character_view result (value_part_at quote (chars text.now)) }
    ensures text { IfSome result (λ x. IsUtf8 x.1.now) }
{
    let (c, after) = first_char(text)?;
    if c == '&' {
        reference(after)
    } else if is_plain(c) && c != quote {
        Some((as_read(c), after))
    } else {
        None
    }
}

/// A value, up to its closing quote or to what can't stand in it.
fn value(alloc: Global, quote: char, text: &str) -> Result<(Text, &str), Memory>
    requires { IsTrue (is_quote quote) }
    ensures reads { IfOk result (λ x. run_at (value_part_at quote) (chars text.now) ≡ value_view x) }
    ensures text { IfOk result (λ x. IsUtf8 x.1.now) }
{
    let stops = value_stops();
    let mut value = Text::new(alloc);
    let mut rest = text;
    'parts: loop {
        let (straight, after) = split_at_stop(&stops, rest);
        value.push_str(straight)?;
        let Some((c, after)) = value_part(quote, after) else {
            return Ok((value, after));
        };
        value.push(c)?;
        rest = after;
    }
}

/// A value between two quotes.
#[tactic(auto, unfolding(crate::specs::Machinery::Items::quoted_at))]
fn quoted(alloc: Global, text: &str) -> Result<Option<(Text, &str)>, Memory>
    ensures reads { IfOk result (λ found. Reads value_view found (quoted_at (chars text.now))) }
    ensures text { IfOk result (λ found. IfSome found (λ x. IsUtf8 x.1.now)) }
{
    let Some((quote, after)) = first_char(text) else {
        return Ok(None);
    };
    if !is_quote(quote) {
        return Ok(None);
    }
    let (value, rest) = value(alloc, quote, after)?;
    match past_character(quote, rest) {
        Some(rest) => Ok(Some((value, rest))),
        None => Ok(None),
    }
}

/// An attribute, with the blanks before it.
#[tactic(auto, unfolding(crate::specs::Machinery::Items::attribute_at))]
fn first_attribute(alloc: Global, text: &str) -> Result<Option<(Attr, &str)>, Memory>
    ensures reads { IfOk result (λ found. Reads attribute_view found (attribute_at (chars text.now))) }
    ensures text { IfOk result (λ found. IfSome found (λ x. IsUtf8 x.1.now)) }
{
    let Some(start) = past_some_blanks(text) else {
        return Ok(None);
    };
    let Some((name, rest)) = split_name(start) else {
        return Ok(None);
    };
    let Some(rest) = past_character('=', skip_blanks(rest)) else {
        return Ok(None);
    };
    let Some((value, rest)) = quoted(alloc, skip_blanks(rest))? else {
        return Ok(None);
    };
    let name = Text::from_str(alloc, name)?;
    Ok(Some((Attr { name, value }, rest)))
}

/// The attributes at the front of a text.
pub(crate) fn attributes(alloc: Global, text: &str) -> Result<(List<Attr>, &str), Memory>
    ensures reads { IfOk result (λ x. run_at attribute_at (chars text.now) ≡ attributes_view x) }
    ensures text { IfOk result (λ x. IsUtf8 x.1.now) }
{
    let mut attrs = List::new(alloc);
    let mut rest = text;
    'pieces: while let Some((attr, after)) = first_attribute(alloc, rest)? {
        attrs.push(attr)?;
        rest = after;
    }
    Ok((attrs, rest))
}

/// Whether no two of the attributes have one name, in time n log n.
pub(crate) fn are_distinct(alloc: Global, attrs: &[Attr]) -> Result<bool, Memory>
    ensures { IfOk result (λ distinct. distinct ≡ are_distinct attrs.now) }
{
    let mut seen = BTreeSet::new(alloc);
    for attr in attrs {
        let is_new = seen.insert(attr.name.as_str())?;
        if !is_new {
            return Ok(false);
        }
    }
    Ok(true)
}
