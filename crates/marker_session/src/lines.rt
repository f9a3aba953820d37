//! All lines of a document.

ghost use Rattle.std.specs.Prelude.{◌≡◌, ◌≤◌, ◌+◌, ◌++◌, true, None, is_some, option_copied, IfOk, OnOk};
ghost use Rattle.forest.specs.Keys.{without_keys};
ghost use Rattle.forest.specs.Spots.{IsLive};
ghost use Rattle.changed_lines.specs.Changes.{lines_at, lines_between};
ghost use Rattle.dirty_walk.specs.Books.{fresh_entry};
ghost use Rattle.document_walk.specs.Elements.{element_count, one_where};
ghost use Rattle.node_arena.specs.Nodes.{name_of};
ghost use Rattle.marker_session.specs.Sessions.{all_lines};

use changed_lines::changed_line::ChangedLine;
use changed_lines::element_lines::push_lines;
use dirty_walk::book::Book;
use generated_texts::entry::NodeEntry;
use generated_texts::laws::elements_have_entries;
use node_arena::arena::Arena;
use node_arena::laws::arena_holds_document;
use plain_types::memory::Memory;
use std::alloc::Global;
use std::sync::ledger::Ledger;
use steps::Steps;

/// What is kept of a node: of an element what the book has, looked up once, and of a text nothing.
fn find_entry<'a, L: Ledger>(
    arena: &Arena,
    book: &'a Book,
    key: usize,
    steps: &mut Steps<L>,
) -> Option<&'a NodeEntry>
    requires settled { book.now.settled ≡ true }
    requires tree { arena.now.tree ≡ book.now.tree }
    requires live { IsLive arena.now.tree key }
    ensures entry { option_copied result ≡ fresh_entry book.now key }
    ensures steps { steps.new ≤ steps.old + one_where (is_some (name_of arena.now.tree key)) }
{
    // The document has distinct keys, and then exactly its elements have entries.
    arena_holds_document(arena);
    elements_have_entries();
    let _name = arena.name(key)?;
    Some(book.entry(key, steps))
}

/// Pushes the lines of a node.
fn push_node<L: Ledger>(
    alloc: Global,
    arena: &Arena,
    book: &Book,
    key: usize,
    lines: &mut Vec<ChangedLine>,
    steps: &mut Steps<L>,
) -> Result<(), Memory>
    requires settled { book.now.settled ≡ true }
    requires tree { arena.now.tree ≡ book.now.tree }
    requires live { IsLive arena.now.tree key }
    ensures ok { OnOk result (lines.new.items ≡ lines.old.items ++ lines_at arena.now.tree (λ _. None) (fresh_entry book.now) key) }
    ensures steps { steps.new ≤ steps.old + one_where (is_some (name_of arena.now.tree key)) }
{
    let entry = find_entry(arena, book, key, steps);
    push_lines(alloc, arena, key, None, entry, lines)
}

/// The lines of all nodes of the arena of a book.
fn arena_lines<L: Ledger>(
    alloc: Global,
    arena: &Arena,
    book: &Book,
    steps: &mut Steps<L>,
) -> Result<Vec<ChangedLine>, Memory>
    requires settled { book.now.settled ≡ true }
    requires tree { arena.now.tree ≡ book.now.tree }
    ensures lines { IfOk result (λ lines. lines.items ≡ lines_between arena.now.tree (λ _. None) (fresh_entry book.now)) }
    ensures steps { steps.new ≤ steps.old + element_count (without_keys arena.now.tree) }
{
    let mut lines = Vec::new(alloc);
    let mut at = arena.root();
    'walk: loop {
        push_node(alloc, arena, book, at, &mut lines, steps)?;
        match arena.next_in_order(at) {
            Some(next) => at = next,
            None => return Ok(lines),
        }
    }
}

/// The lines of all boxes of a document, by its elements in tree order. It takes time linear in the document, and for each
/// line in the depth of its element and in its text, memory for the lines, and a step an element at most; `Memory` where
/// memory is wanting.
pub(crate) fn all_lines<L: Ledger>(
    alloc: Global,
    book: &Book,
    steps: &mut Steps<L>,
) -> Result<Vec<ChangedLine>, Memory>
    requires settled { book.now.settled ≡ true }
    ensures lines { IfOk result (λ lines. lines.items ≡ all_lines book.now) }
    ensures steps { steps.new ≤ steps.old + element_count (without_keys book.now.tree) }
{
    arena_lines(alloc, book.arena(), book, steps)
}
