//! Counter values in the style that is meant (CSS Counter Styles 3, 2, 3.7 and 5).

ghost use Rattle.std.specs.Prelude.{◌≡◌, ◌≢◌, ◌<◌, ◌++◌, IfOk, OnOk, OnErr, length, unwrap_or};
ghost use Rattle.std.specs.Fmt.{signed_decimal};
ghost use Rattle.std.specs.List.{HoldsAt};
ghost use Rattle.std.specs.Str.{chars};
ghost use Rattle.plain_types.specs.Table.{IsTable, decimal_style, style_named};
ghost use Rattle.css_definitions.specs.Representation.{represented, representation, marker_text, chosen_style};

use crate::written::{write_anonymous, write_style};
use plain_types::count::Count;
use plain_types::memory::Memory;
use plain_types::style_ref::{Anonymous, StyleRef};
use plain_types::table::Table;
use plain_types::text::Text;
use std::alloc::Global;

/// Appends the representation of the value; of `none` that is nothing. An unknown name means `decimal`,
/// and so does `symbols()` with too few symbols.
///
/// A style that does not write the value hands it to its fallback, and a chain of fallbacks ends at
/// `decimal` at the latest. Each style that is tried costs at most 64 digits and 120 code points, and the name
/// of its fallback is looked up by a hash; there are no more of them than styles.
pub fn represent(
    alloc: Global,
    table: &Table,
    style: &StyleRef,
    value: Count,
    out: &mut Text,
) -> Result<(), Memory>
    ensures ok { OnOk result (out.new ≡ out.old ++ representation table.now style.now value) }
    ensures err { OnErr result (out.new ≡ out.old) }
{
    let text = representation_of(alloc, table, style, value)?;
    out.push_str(text.as_str())
}

/// Appends prefix, representation and suffix of the value. Prefix and suffix are those of the style that is
/// meant, whichever style writes the value. Not for `none`, whose markers have no text.
///
/// It costs what `represent` costs, and the prefix and the suffix.
pub fn represent_marker(
    alloc: Global,
    table: &Table,
    style: &StyleRef,
    value: Count,
    out: &mut Text,
) -> Result<(), Memory>
    requires style { style.now ≢ StyleRef.Nothing }
    ensures ok { OnOk result (out.new ≡ out.old ++ marker_text table.now style.now value) }
    ensures err { OnErr result (out.new ≡ out.old) }
{
    let (prefix, suffix) = affixes(table, style);
    let mut marker = Text::from_str(alloc, prefix)?;
    marker.push_str(representation_of(alloc, table, style, value)?.as_str())?;
    marker.push_str(suffix)?;
    out.push_str(marker.as_str())
}

/// The representation of the value.
fn representation_of(
    alloc: Global,
    table: &Table,
    style: &StyleRef,
    value: Count,
) -> Result<Text, Memory>
    ensures text { IfOk result (λ text. text ≡ representation table.now style.now value) }
{
    match style {
        StyleRef::Nothing => Ok(Text::new(alloc)),
        StyleRef::Name(name) => represent_named(alloc, table, name.as_str(), value),
        StyleRef::Symbols(anonymous) => represent_anonymous(alloc, table, anonymous, value),
    }
}

/// The representation of the value in a style of `symbols()`.
fn represent_anonymous(
    alloc: Global,
    table: &Table,
    anonymous: &Anonymous,
    value: Count,
) -> Result<Text, Memory>
    ensures text { IfOk result (λ text. text ≡ representation table.now (StyleRef.Symbols anonymous.now) value) }
{
    if anonymous.system.is_supplied(anonymous.symbols.len(), 0) {
        if let Some(text) = write_anonymous(alloc, anonymous, value)? {
            return Ok(text);
        }
    }
    represent_named(alloc, table, "decimal", value)
}

/// The representation of the value in the style of a name.
fn represent_named(alloc: Global, table: &Table, name: &str, value: Count) -> Result<Text, Memory>
    ensures text { IfOk result (λ text. text ≡ represented table.now (unwrap_or (style_named table.now (chars name.now)) decimal_style) value) }
    ensures table { IsTable table.now }
{
    match table.find(name) {
        Some(place) => follow_fallbacks(alloc, table, place, value),
        None => decimal(alloc, value),
    }
}

/// The text of the first style that writes the value, from the style at a place along the fallbacks, which
/// end ([`crate::laws::fallbacks_end`]): there are no more turns than styles.
fn follow_fallbacks(
    alloc: Global,
    table: &Table,
    start: usize,
    value: Count,
) -> Result<Text, Memory>
    requires within { start < length table.now }
    ensures text { IfOk result (λ text. HoldsAt (λ style. text ≡ represented table.now style value) table.now start) }
{
    let mut place = start;
    for _turn in 0..table.len() {
        let style = table.style(place);
        if let Some(text) = write_style(alloc, style, value)? {
            return Ok(text);
        }
        match table.find(style.fallback.as_str()) {
            Some(next) => place = next,
            None => return decimal(alloc, value),
        }
    }
    decimal(alloc, value)
}

/// The value as `decimal` writes it.
fn decimal(alloc: Global, value: Count) -> Result<Text, Memory>
    ensures text { IfOk result (λ text. text ≡ signed_decimal value) }
{
    let digits = value.to_string(alloc)?;
    Text::from_str(alloc, digits.as_str())
}

/// Prefix and suffix of the style that is meant.
fn affixes<'a>(table: &'a Table, style: &'a StyleRef) -> (&'a str, &'a str)
    ensures prefix { chars result.0.now ≡ (chosen_style table.now style.now).prefix }
    ensures suffix { chars result.1.now ≡ (chosen_style table.now style.now).suffix }
{
    match style {
        StyleRef::Nothing => ("", ". "),
        StyleRef::Name(name) => match table.find(name.as_str()) {
            Some(place) => {
                let named = table.style(place);
                (named.prefix.as_str(), named.suffix.as_str())
            }
            None => ("", ". "),
        },
        StyleRef::Symbols(anonymous) => {
            if anonymous.system.is_supplied(anonymous.symbols.len(), 0) {
                ("", " ")
            } else {
                ("", ". ")
            }
        }
    }
}
