//! How much there is of a document.

ghost use Rattle.std.specs.Prelude.{◌≡◌, ◌≤◌, ◌+◌, true, length, is_some, option_copied};
ghost use Rattle.std.specs.Option.{option_map_or};
ghost use Rattle.forest.specs.Keys.{without_keys};
ghost use Rattle.generated_texts.specs.Lines.{keyed_lines};
ghost use Rattle.document_walk.specs.Elements.{element_count, one_where};
ghost use Rattle.marker_engine.specs.Census.{boxes_in, keyed_box_count, lines_in, saturated};

use crate::entries::find_entry;
use dirty_walk::book::Book;
use generated_texts::entry::NodeEntry;
use std::sync::ledger::Ledger;
use steps::Steps;

/// How many elements a document has, how many boxes its evaluation, and how many lines its dump. A number that is
/// too large for its type is the greatest of it.
#[derive(Clone, Copy, Debug, PartialEq, Eq)]
pub struct Census {
    pub elements: usize,
    /// The boxes of elements, and all marker, before and after boxes.
    pub boxes: usize,
    pub lines: usize,
}

fn lines_in(entry: &NodeEntry) -> usize
    ensures lines { result ≡ lines_in entry.now }
{
    entry.marker.is_some() as usize
        + entry.before.is_some() as usize
        + entry.after.is_some() as usize
}

/// The numbers with one more node, of which this is kept. Exactly of elements something is.
fn with_node(census: Census, kept: Option<&NodeEntry>) -> Census
    ensures elements { result.elements ≡ saturated (census.elements + one_where (is_some kept.entry)) }
    ensures boxes { result.boxes ≡ saturated (census.boxes + option_map_or boxes_in (option_copied kept.entry) 0) }
    ensures lines { result.lines ≡ saturated (census.lines + option_map_or lines_in (option_copied kept.entry) 0) }
{
    let (boxes, lines) = match kept {
        Some(entry) => (entry.has_box as usize, lines_in(entry)),
        None => (0, 0),
    };
    Census {
        elements: census.elements.saturating_add(kept.is_some() as usize),
        boxes: census.boxes.saturating_add(boxes + lines),
        lines: census.lines.saturating_add(lines),
    }
}

/// The numbers of a book's document, in time linear in its nodes, a step an element at most, and with no memory.
pub(crate) fn census_of<L: Ledger>(book: &Book, steps: &mut Steps<L>) -> Census
    requires settled { book.now.settled ≡ true }
    ensures elements { result.elements ≡ saturated (element_count (without_keys book.now.tree)) }
    ensures boxes { result.boxes ≡ saturated (keyed_box_count book.now.sheet book.now.tree) }
    ensures lines { result.lines ≡ saturated (length (keyed_lines book.now.sheet book.now.tree)) }
    ensures steps { steps.new ≤ steps.old + element_count (without_keys book.now.tree) }
{
    let arena = book.arena();
    let mut link = Some(arena.root());
    let mut census = Census {
        elements: 0,
        boxes: 0,
        lines: 0,
    };
    while let Some(key) = link {
        census = with_node(census, find_entry(book, key, steps));
        link = arena.next_in_order(key);
    }
    census
}
