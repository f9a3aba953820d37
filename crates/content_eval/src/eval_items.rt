//! Content items into pieces.

ghost use Rattle.std.specs.Prelude.{◌≡◌, [], IfOk, unwrap_or};
ghost use Rattle.std.specs.Str.{chars};
ghost use Rattle.counter_sets.specs.Sets.{is_missing_in};
ghost use Rattle.quote_depth.specs.Marks.{mark};
ghost use Rattle.content_eval.specs.Contents.{depth_behind, generated, piece_of, set_behind};

use crate::attributes::{attribute, url_of};
use crate::counters::{innermost_text, joined_text, with_counter};
use crate::generated::{Generated, Piece};
use crate::place::Place;
use counter_sets::counter_set::CounterSet;
use plain_types::attr::Attr;
use plain_types::content::{Item, QuoteKind};
use plain_types::duplicate::Duplicate;
use plain_types::list::List;
use plain_types::memory::Memory;
use plain_types::style::Quotes;
use plain_types::table::Table;
use plain_types::text::Text;
use quote_depth::step;
use std::alloc::Global;

/// What the items give, from left to right: a piece for each, and the counters and the depth behind them. It
/// takes time linear in the items, each counter item in the length of the set and the size of the table, and
/// each `attr()` in the number of attributes.
pub fn eval_items(
    alloc: Global,
    table: &Table,
    content: &List<Item>,
    attrs: &[Attr],
    quotes: &Quotes,
    place: &Place,
) -> Result<Generated, Memory>
    ensures generated { IfOk result (λ made. made ≡ generated table.now content.now attrs.now quotes.now place.now.creator (is_missing_in place.now.parent) place.now.set place.now.depth) }
{
    let mut pieces = List::with_capacity(alloc, content.len())?;
    let mut set = place.set.share(alloc)?;
    let mut depth = place.depth;
    for item in content.as_slice() {
        set = set_behind(alloc, place, set, item)?;
        pieces.push(piece_of(alloc, table, attrs, quotes, &set, depth, item)?)?;
        depth = depth_behind(quotes, depth, item);
    }
    Ok(Generated { pieces, set, depth })
}

/// The set behind an item.
fn set_behind(
    alloc: Global,
    place: &Place,
    set: CounterSet,
    item: &Item,
) -> Result<CounterSet, Memory>
    ensures set { IfOk result (λ behind. behind ≡ set_behind (is_missing_in place.now.parent) place.now.creator set item.now) }
{
    match item {
        Item::Counter { name, .. } | Item::Counters { name, .. } => {
            with_counter(alloc, place, set, name)
        }
        Item::Chars(_)
        | Item::Attr(_)
        | Item::Quote(_)
        | Item::TargetCounter { .. }
        | Item::TargetCounters { .. }
        | Item::TargetText { .. } => Ok(set),
    }
}

/// The depth behind an item.
fn depth_behind(quotes: &Quotes, depth: u64, item: &Item) -> u64
    ensures depth { result ≡ depth_behind depth item.now }
{
    match item {
        Item::Quote(kind) => step(quotes, depth, *kind).1,
        Item::Chars(_)
        | Item::Attr(_)
        | Item::Counter { .. }
        | Item::Counters { .. }
        | Item::TargetCounter { .. }
        | Item::TargetCounters { .. }
        | Item::TargetText { .. } => depth,
    }
}

/// The piece of an item, where the set behind it and the depth before it are these.
fn piece_of(
    alloc: Global,
    table: &Table,
    attrs: &[Attr],
    quotes: &Quotes,
    set: &CounterSet,
    depth: u64,
    item: &Item,
) -> Result<Piece, Memory>
    ensures piece { IfOk result (λ piece. piece ≡ piece_of table.now attrs.now quotes.now set.now depth item.now) }
{
    match item {
        Item::Chars(text) => characters(alloc, text.as_str()),
        Item::Attr(name) => characters(alloc, attribute(attrs, name.as_str())),
        Item::Quote(kind) => characters(alloc, mark(quotes, depth, *kind)),
        Item::Counter { name, style } => {
            let text = innermost_text(alloc, table, set, name.as_str(), style)?;
            Ok(Piece::Chars(text))
        }
        Item::Counters {
            name,
            between,
            style,
        } => {
            let text = joined_text(alloc, table, set, name.as_str(), between.as_str(), style)?;
            Ok(Piece::Chars(text))
        }
        Item::TargetCounter { url, name, style } => Ok(Piece::TargetCounter {
            url: url_of(alloc, attrs, url)?,
            name: name.duplicate(alloc)?,
            style: style.duplicate(alloc)?,
        }),
        Item::TargetCounters {
            url,
            name,
            between,
            style,
        } => Ok(Piece::TargetCounters {
            url: url_of(alloc, attrs, url)?,
            name: name.duplicate(alloc)?,
            between: between.duplicate(alloc)?,
            style: style.duplicate(alloc)?,
        }),
        Item::TargetText { url, part } => Ok(Piece::TargetText {
            url: url_of(alloc, attrs, url)?,
            part: *part,
        }),
    }
}

/// The piece of these characters.
fn characters(alloc: Global, text: &str) -> Result<Piece, Memory>
    ensures piece { IfOk result (λ piece. piece ≡ Piece.Chars (chars text.now)) }
{
    Ok(Piece::Chars(Text::from_str(alloc, text)?))
}

/// The mark that a quote keyword writes; empty where it writes none.
fn mark<'a>(quotes: &'a Quotes, depth: u64, kind: QuoteKind) -> &'a str
    ensures mark { chars result.now ≡ unwrap_or (mark quotes.now depth kind) [] }
{
    step(quotes, depth, kind).0.unwrap_or("")
}
