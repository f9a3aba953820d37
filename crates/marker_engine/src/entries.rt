//! What is kept of the nodes of a document.

ghost use Rattle.std.specs.Prelude.{◌≡◌, ◌≤◌, ◌+◌, true, is_some, option_copied};
ghost use Rattle.dirty_walk.specs.Books.{fresh_entry};
ghost use Rattle.forest.specs.Spots.{IsLive};
ghost use Rattle.node_arena.specs.Nodes.{name_of};
ghost use Rattle.document_walk.specs.Elements.{one_where};

use dirty_walk::book::Book;
use generated_texts::entry::NodeEntry;
use generated_texts::laws::elements_have_entries;
use node_arena::laws::arena_holds_document;
use std::sync::ledger::Ledger;
use steps::Steps;

/// What is kept of a node: of an element what the book has, looked up once, and of a text nothing. It takes no memory
/// and constant time.
pub(crate) fn find_entry<'a, L: Ledger>(
    book: &'a Book,
    key: usize,
    steps: &mut Steps<L>,
) -> Option<&'a NodeEntry>
    requires settled { book.now.settled ≡ true }
    requires live { IsLive book.now.tree key }
    ensures entry { option_copied result ≡ fresh_entry book.now key }
    ensures element { is_some result ≡ is_some (name_of book.now.tree key) }
    ensures steps { steps.new ≤ steps.old + one_where (is_some (name_of book.now.tree key)) }
{
    // The document has distinct keys, and then exactly its elements have entries.
    arena_holds_document(book.arena());
    elements_have_entries();
    let _name = book.arena().name(key)?;
    Some(book.entry(key, steps))
}
