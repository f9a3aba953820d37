//! The lines of a document.

ghost use Rattle.std.specs.Prelude.{◌≡◌, ◌≤◌, ◌+◌, true, OnOk, OnErr, IfOk, encode_utf8_all, is_some};
ghost use Rattle.forest.specs.Keys.{without_keys};
ghost use Rattle.forest.specs.Spots.{IsLive, label_of};
ghost use Rattle.node_arena.specs.Nodes.{characters_of, name_of};
ghost use Rattle.document_walk.specs.Elements.{element_count, one_where};
ghost use Rattle.dirty_walk.specs.Books.{fresh_entry};
ghost use Rattle.marker_engine.specs.Engines.{source_of};
ghost use Rattle.ports.specs.Causes.{HasCause};
ghost use Rattle.ports.specs.Grown.{grown, GrowsByFront};
ghost use Rattle.ports.specs.Puts.{HasPutCause};
ghost use Rattle.text_view.specs.Lines.{lines};
ghost use Rattle.text_view.specs.Machinery.Walking.{IsEnteredAt, entered_at, text_pieces};
ghost use Rattle.text_view.specs.Machinery.Writing.{behind_pieces, bytes_shown};
ghost use Rattle.text_view.specs.Views.{last_pieces, text_view, tree_pieces};

use crate::line_writer::LineWriter;
use crate::names::is_breaking;
use crate::open_element::{OpenElement, put_first, put_last};
use dirty_walk::book::Book;
use generated_texts::laws::keys_do_not_matter;
use marker_engine::engine::Engine;
use node_arena::arena::Arena;
use node_arena::laws::arena_holds_document;
use ports::failed::Failed;
use ports::put_fault::PutFault;
use ports::sink::Sink;
use std::alloc::Global;
use std::sync::ledger::Ledger;
use steps::Steps;

/// Puts the characters of a text. An element has none.
fn put_characters<O: Sink>(
    arena: &Arena,
    key: usize,
    writer: &mut LineWriter,
    out: &mut O,
) -> Result<(), Failed>
    requires live { IsLive arena.now.tree key }
    ensures ok { OnOk result (O.out out.new ≡ grown (O.out out.old) (bytes_shown writer.old (text_pieces (characters_of arena.now.tree key)))) }
    ensures state { OnOk result (writer.new ≡ behind_pieces writer.old (text_pieces (characters_of arena.now.tree key))) }
    ensures failed { OnErr result (GrowsByFront (O.out out.old) (O.out out.new) (bytes_shown writer.old (text_pieces (characters_of arena.now.tree key)))) }
    ensures cause { HasCause (O.faults out.old) (O.faults out.new) result }
{
    match arena.characters(key) {
        Some(text) => writer.put_text(text, out),
        None => Ok(()),
    }
}

/// Puts what stands first of what a node gives: the characters of a text, or what stands before the children of an
/// element with a box, which the walk then goes into.
fn enter<'a, O: Sink, L: Ledger>(
    book: &'a Book,
    key: usize,
    writer: &mut LineWriter,
    out: &mut O,
    steps: &mut Steps<L>,
) -> Result<Option<OpenElement<'a>>, PutFault>
    requires settled { book.now.settled ≡ true }
    requires live { IsLive book.now.tree key }
    ensures ok { OnOk result (O.out out.new ≡ grown (O.out out.old) (bytes_shown writer.old (entered_at (fresh_entry book.now key) (label_of book.now.tree key)))) }
    ensures state { OnOk result (writer.new ≡ behind_pieces writer.old (entered_at (fresh_entry book.now key) (label_of book.now.tree key))) }
    ensures entered { IfOk result (λ element. IsEnteredAt (fresh_entry book.now key) (label_of book.now.tree key) key element) }
    ensures failed { OnErr result (GrowsByFront (O.out out.old) (O.out out.new) (bytes_shown writer.old (entered_at (fresh_entry book.now key) (label_of book.now.tree key)))) }
    ensures cause { HasPutCause (O.faults out.old) (O.faults out.new) result }
    ensures steps { steps.new ≤ steps.old + one_where (is_some (name_of book.now.tree key)) }
{
    let arena = book.arena();
    match arena.name(key) {
        None => {
            put_characters(arena, key, writer, out)?;
            Ok(None)
        }
        Some(name) => {
            let entry = book.entry(key, steps);
            if !entry.has_box {
                return Ok(None);
            }
            let breaks = is_breaking(name);
            put_first(breaks, entry, writer, out)?;
            Ok(Some(OpenElement { key, entry, breaks }))
        }
    }
}

/// Puts what stands behind the children of an element.
fn leave<O: Sink>(
    element: &OpenElement<'_>,
    writer: &mut LineWriter,
    out: &mut O,
) -> Result<(), PutFault>
    ensures ok { OnOk result (O.out out.new ≡ grown (O.out out.old) (bytes_shown writer.old (last_pieces element.now.breaks element.now.entry.now))) }
    ensures state { OnOk result (writer.new ≡ behind_pieces writer.old (last_pieces element.now.breaks element.now.entry.now)) }
    ensures failed { OnErr result (GrowsByFront (O.out out.old) (O.out out.new) (bytes_shown writer.old (last_pieces element.now.breaks element.now.entry.now))) }
    ensures cause { HasPutCause (O.faults out.old) (O.faults out.new) result }
{
    put_last(element.breaks, element.entry, writer, out)?;
    Ok(())
}

/// Puts the lines of a book's document, in time linear in its nodes and the bytes of its texts, a step an element at
/// most. It takes memory for the elements that a node is in.
fn put_view<O: Sink, L: Ledger>(
    alloc: Global,
    book: &Book,
    out: &mut O,
    steps: &mut Steps<L>,
) -> Result<(), PutFault>
    requires settled { book.now.settled ≡ true }
    ensures ok { OnOk result (O.out out.new ≡ grown (O.out out.old) (encode_utf8_all (lines (tree_pieces (fresh_entry book.now) book.now.tree)))) }
    ensures failed { OnErr result (GrowsByFront (O.out out.old) (O.out out.new) (encode_utf8_all (lines (tree_pieces (fresh_entry book.now) book.now.tree)))) }
    ensures cause { HasPutCause (O.faults out.old) (O.faults out.new) result }
    ensures steps { steps.new ≤ steps.old + element_count (without_keys book.now.tree) }
{
    let arena = book.arena();
    let mut writer = LineWriter::new();
    let mut inside = Vec::new(alloc);
    let mut link = Some(arena.root());
    'walk: loop {
        match link {
            Some(key) => {
                let reached = enter(book, key, &mut writer, out, steps)?;
                match reached {
                    Some(element) => {
                        inside.push(element)?;
                        link = arena.first_child(key);
                    }
                    None => link = arena.next_sibling(key),
                }
            }
            None => match inside.pop() {
                None => {
                    writer.put_break(out)?;
                    return Ok(());
                }
                Some(element) => {
                    leave(&element, &mut writer, out)?;
                    link = arena.next_sibling(element.key);
                }
            },
        }
    }
}

/// Puts the lines of a document, under its sheet, to `out`. Where it fails, a front of them went out.
///
/// It takes time linear in the document and its texts, and memory for the elements that a node is in. The generated
/// texts are there already: what is kept of an element is looked up once.
pub fn view<O: Sink, L: Ledger>(
    alloc: Global,
    engine: &Engine,
    out: &mut O,
    steps: &mut Steps<L>,
) -> Result<(), PutFault>
    ensures ok { OnOk result (O.out out.new ≡ grown (O.out out.old) (text_view engine.now.sheet (source_of engine.now).tree)) }
    ensures failed { OnErr result (GrowsByFront (O.out out.old) (O.out out.new) (text_view engine.now.sheet (source_of engine.now).tree)) }
    ensures cause { HasPutCause (O.faults out.old) (O.faults out.new) result }
    ensures steps { steps.new ≤ steps.old + element_count (source_of engine.now).tree }
{
    // The book has keys of its own, and the lines are those of any keys.
    let book = engine.book();
    arena_holds_document(book.arena());
    keys_do_not_matter();
    put_view(alloc, book, out, steps)
}
