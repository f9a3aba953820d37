//! Declarations of the properties that make generated texts.

ghost use Rattle.std.specs.Prelude.{◌≡◌, IfOk, List, ℕ};
ghost use Rattle.std.specs.Borrow.{Bor};
ghost use Rattle.std.specs.Str.{chars};
ghost use Rattle.css_definitions.specs.Words.{is_among};
ghost use Rattle.css_values.specs.Parts.{solid};
ghost use Rattle.css_values.specs.Declarations.{plain_displays, display_word, display_value, list_type_value, css_wide, said_of, declared};

use crate::combining::only;
use crate::contents::content;
use crate::counters::{counter_ops, resets};
use crate::list_style::list_style;
use crate::parts::{is_alone, is_among, word};
use crate::quotes::quotes;
use crate::styles::list_type;
use css_tokens::token::Token;
use css_tokens::words::is_word;
use plain_types::declaration::{Declaration, Said};
use plain_types::memory::Memory;
use plain_types::style::{Display, ListType};
use std::alloc::Global;

/// The values of `display` that are neither `none` nor `list-item`.
static PLAIN_DISPLAYS: [&str; 19] = [
    "block",
    "inline",
    "inline-block",
    "flow-root",
    "flex",
    "inline-flex",
    "grid",
    "inline-grid",
    "table",
    "inline-table",
    "table-row",
    "table-row-group",
    "table-header-group",
    "table-footer-group",
    "table-column",
    "table-column-group",
    "table-cell",
    "table-caption",
    "ruby",
];

fn is_plain_display(word: &str) -> bool
    ensures { result ≡ is_among plain_displays (chars word.now) }
{
    is_among(&PLAIN_DISPLAYS, word)
}

/// `none | list-item | block | inline | ..`
fn display_word(word: &str) -> Option<Display>
    ensures { result ≡ display_word (chars word.now) }
{
    if is_word(word, "none") {
        Some(Display::Absent)
    } else if is_word(word, "list-item") {
        Some(Display::ListItem)
    } else if is_plain_display(word) {
        Some(Display::Plain)
    } else {
        None
    }
}

fn display(tokens: &[Token]) -> Option<Display>
    ensures { result ≡ display_value (solid tokens.now) }
{
    let (word, rest) = word(tokens)?;
    only(display_word(word.as_str())?, rest)
}

fn list_style_type(alloc: Global, tokens: &[Token]) -> Result<Option<ListType>, Memory>
    ensures { IfOk result (λ r. r ≡ list_type_value (solid tokens.now)) }
{
    match list_type(alloc, tokens)? {
        Some((value, rest)) => Ok(only(value, rest)),
        None => Ok(None),
    }
}

/// `inherit | initial | unset`
fn css_wide<T: Drop>(tokens: &[Token]) -> Option<Said<T>>
    ensures { result ≡ css_wide (solid tokens.now) }
{
    if is_alone("inherit", tokens) {
        Some(Said::Inherit)
    } else if is_alone("initial", tokens) {
        Some(Said::Initial)
    } else if is_alone("unset", tokens) {
        Some(Said::Unset)
    } else {
        None
    }
}

/// What the tokens say of a property for which they have this value, or none.
fn said<T: Drop>(tokens: &[Token], value: Option<T>) -> Option<Said<T>>
    ensures { result ≡ said_of (solid tokens.now) value }
{
    match css_wide(tokens) {
        Some(said) => Some(said),
        None => Some(Said::Value(value?)),
    }
}

/// What a declaration of this name and value says (the tokens after its colon, without `!important`):
/// `None` exactly where the property is none of those that make generated texts, or where the value is
/// none of its. Names and keywords count in any ASCII case. Time and memory are linear in the tokens.
#[tactic(auto, unfolding(crate::specs::Declarations::declared))]
pub fn read_declaration(
    alloc: Global,
    name: &str,
    tokens: &[Token],
) -> Result<Option<Declaration>, Memory>
    ensures declared { IfOk result (λ found. found ≡ declared (chars name.now) (solid tokens.now)) }
{
    if is_word(name, "display") {
        return Ok(said(tokens, display(tokens)).map(Declaration::Display));
    }
    if is_word(name, "content") {
        return Ok(said(tokens, content(alloc, tokens)?).map(Declaration::Content));
    }
    if is_word(name, "counter-reset") {
        return Ok(said(tokens, resets(alloc, tokens)?).map(Declaration::Resets));
    }
    if is_word(name, "counter-increment") {
        return Ok(said(tokens, counter_ops(alloc, 1, tokens)?).map(Declaration::Increments));
    }
    if is_word(name, "counter-set") {
        return Ok(said(tokens, counter_ops(alloc, 0, tokens)?).map(Declaration::Assigns));
    }
    if is_word(name, "list-style-type") {
        return Ok(said(tokens, list_style_type(alloc, tokens)?).map(Declaration::ListStyle));
    }
    if is_word(name, "list-style") {
        return Ok(said(tokens, list_style(alloc, tokens)?).map(Declaration::ListStyle));
    }
    if is_word(name, "quotes") {
        return Ok(said(tokens, quotes(alloc, tokens)?).map(Declaration::Quotes));
    }
    Ok(None)
}
