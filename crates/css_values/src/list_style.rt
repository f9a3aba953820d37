//! The value of `list-style`.

ghost use Rattle.std.specs.Prelude.{◌≡◌, ◌∷◌, ◌++◌, [], IfOk, OnOk, List};
ghost use Rattle.std.specs.List.{count_by};
ghost use Rattle.reading.specs.Reading.{Reads, run_at};
ghost use Rattle.css_values.specs.Parts.{solid};
ghost use Rattle.css_values.specs.Lists.{part_at, is_position, is_nothing, is_type, fits, given_type, default_type, type_of, list_style};

use crate::combining::all;
use crate::parts::past_keyword;
use crate::styles::list_type;
use css_tokens::token::Token;
use plain_types::duplicate::Duplicate;
use plain_types::list::List;
use plain_types::memory::Memory;
use plain_types::style::ListType;
use plain_types::style_ref::StyleRef;
use plain_types::text::Text;
use std::alloc::Global;

/// A part of the value.
#[derive(Drop)]
pub(crate) enum ListStylePart {
    /// `inside` or `outside`.
    Position,
    /// `none`.
    Nothing,
    Type(ListType),
}

/// `inside | outside | none | <'list-style-type'>`
#[tactic(auto, unfolding(crate::specs::Lists::part_at))]
fn part(alloc: Global, tokens: &[Token]) -> Result<Option<(ListStylePart, &[Token])>, Memory>
    ensures { IfOk result (λ r. Reads (λ x. (x.0, solid x.1.now)) r (part_at (solid tokens.now))) }
{
    if let Some(rest) = past_keyword("inside", tokens) {
        return Ok(Some((ListStylePart::Position, rest)));
    }
    if let Some(rest) = past_keyword("outside", tokens) {
        return Ok(Some((ListStylePart::Position, rest)));
    }
    if let Some(rest) = past_keyword("none", tokens) {
        return Ok(Some((ListStylePart::Nothing, rest)));
    }
    match list_type(alloc, tokens)? {
        Some((list_type, rest)) => Ok(Some((ListStylePart::Type(list_type), rest))),
        None => Ok(None),
    }
}

fn parts(alloc: Global, tokens: &[Token]) -> Result<(List<ListStylePart>, &[Token]), Memory>
    ensures { IfOk result (λ x. run_at part_at (solid tokens.now) ≡ (x.0, solid x.1.now)) }
{
    let mut parts = List::new(alloc);
    let mut rest = tokens;
    'pieces: while let Some((entry, after)) = part(alloc, rest)? {
        parts.push(entry)?;
        rest = after;
    }
    Ok((parts, rest))
}

fn is_position(part: &ListStylePart) -> bool
    ensures { result ≡ is_position part.now }
{
    matches!(part, ListStylePart::Position)
}

fn is_nothing(part: &ListStylePart) -> bool
    ensures { result ≡ is_nothing part.now }
{
    matches!(part, ListStylePart::Nothing)
}

fn is_type(part: &ListStylePart) -> bool
    ensures { result ≡ is_type part.now }
{
    matches!(part, ListStylePart::Type(_))
}

fn positions(parts: &[ListStylePart]) -> usize
    ensures { result ≡ count_by is_position parts.now }
{
    parts.iter().filter(|part| is_position(part)).count()
}

fn nones(parts: &[ListStylePart]) -> usize
    ensures { result ≡ count_by is_nothing parts.now }
{
    parts.iter().filter(|part| is_nothing(part)).count()
}

fn types(parts: &[ListStylePart]) -> usize
    ensures { result ≡ count_by is_type parts.now }
{
    parts.iter().filter(|part| is_type(part)).count()
}

/// Whether there are a position, an image and a type at most.
fn fits(parts: &[ListStylePart]) -> bool
    ensures { result ≡ fits parts.now }
{
    let types = types(parts);
    positions(parts) <= 1 && types <= 1 && nones(parts) <= 2 - types
}

/// The type that stands there.
fn given_type(parts: &[ListStylePart]) -> Option<&ListType>
    ensures { Reads (λ found. found.now) result (given_type parts.now) }
{
    for part in parts {
        if let ListStylePart::Type(list_type) = part {
            return Some(list_type);
        }
    }
    None
}

/// The type that is set where none stands there.
fn default_type(alloc: Global, nones: usize) -> Result<ListType, Memory>
    ensures { IfOk result (λ r. r ≡ default_type nones) }
{
    if nones > 0 {
        return Ok(ListType::Style(StyleRef::Nothing));
    }
    let disc = Text::from_str(alloc, "disc")?;
    Ok(ListType::Style(StyleRef::Name(disc)))
}

/// The type that the parts set.
fn type_of(alloc: Global, parts: &[ListStylePart]) -> Result<Option<ListType>, Memory>
    ensures { IfOk result (λ r. r ≡ type_of parts.now) }
{
    if !fits(parts) {
        return Ok(None);
    }
    match given_type(parts) {
        Some(list_type) => Ok(Some(list_type.duplicate(alloc)?)),
        None => Ok(Some(default_type(alloc, nones(parts))?)),
    }
}

/// `<'list-style-position'> || <'list-style-image'> || <'list-style-type'>`
#[tactic(auto, unfolding(crate::specs::Lists::list_style))]
pub(crate) fn list_style(alloc: Global, tokens: &[Token]) -> Result<Option<ListType>, Memory>
    ensures { IfOk result (λ r. r ≡ list_style (solid tokens.now)) }
{
    let (parts, rest) = parts(alloc, tokens)?;
    match all(parts, rest) {
        Some(parts) => type_of(alloc, parts.as_slice()),
        None => Ok(None),
    }
}
