//! The lines of a dump.

ghost use Rattle.std.specs.Prelude.{◌≡◌, ◌≢◌, ◌≤◌, ◌+◌, true, OnOk, OnErr, Some, option_copied};
ghost use Rattle.std.specs.Option.{option_map_or};
ghost use Rattle.dump_definitions.specs.Dump.{dump};
ghost use Rattle.dirty_walk.specs.Books.{fresh_entry};
ghost use Rattle.forest.specs.Keys.{without_keys};
ghost use Rattle.forest.specs.Spots.{IsLive};
ghost use Rattle.generated_texts.specs.Lines.{first_lines, last_lines, lines_of, tree_lines};
ghost use Rattle.plain_types.specs.declared.box_kind.BoxKind.TheVariants as kinds;
ghost use Rattle.ports.specs.Grown.{grown, GrowsByFront};
ghost use Rattle.ports.specs.Puts.{HasPutCause};
ghost use Rattle.document_walk.specs.Elements.{element_count};

use crate::entries::find_entry;
use crate::node_path::fill_path;
use dirty_walk::book::Book;
use dump_text::put_line::put_line;
use generated_texts::entry::{BoxText, NodeEntry};
use node_arena::arena::Arena;
use plain_types::box_kind::BoxKind;
use ports::put_fault::PutFault;
use ports::sink::Sink;
use std::alloc::Global;
use std::sync::ledger::Ledger;
use steps::Steps;

/// A node that the walk is in, and what is kept of it.
#[derive(Drop)]
struct OpenNode<'a> {
    key: usize,
    entry: Option<&'a NodeEntry>,
}

/// Puts the line of a box of a node, where there is one. The positions are room for its path.
fn put_box<O: Sink>(
    positions: &mut Vec<usize>,
    arena: &Arena,
    key: usize,
    kind: BoxKind,
    text: &Option<BoxText>,
    out: &mut O,
) -> Result<(), PutFault>
    requires live { IsLive arena.now.tree key }
    requires pseudo { kind ≢ kinds.Element }
    ensures ok { OnOk result (O.out out.new ≡ grown (O.out out.old) (dump (lines_of arena.now.tree key kind text.now))) }
    ensures failed { OnErr result (GrowsByFront (O.out out.old) (O.out out.new) (dump (lines_of arena.now.tree key kind text.now))) }
    ensures cause { HasPutCause (O.faults out.old) (O.faults out.new) result }
{
    if let Some(text) = text {
        fill_path(positions, arena, key)?;
        put_line(positions.as_slice(), kind, &text.full, out)?;
    }
    Ok(())
}

/// Puts the lines of the marker and the before box of a node of which this is kept.
fn put_first<O: Sink>(
    positions: &mut Vec<usize>,
    arena: &Arena,
    key: usize,
    kept: Option<&NodeEntry>,
    out: &mut O,
) -> Result<(), PutFault>
    requires live { IsLive arena.now.tree key }
    ensures ok { OnOk result (O.out out.new ≡ grown (O.out out.old) (dump (first_lines arena.now.tree (λ _. option_copied kept.entry) key))) }
    ensures failed { OnErr result (GrowsByFront (O.out out.old) (O.out out.new) (dump (first_lines arena.now.tree (λ _. option_copied kept.entry) key))) }
    ensures cause { HasPutCause (O.faults out.old) (O.faults out.new) result }
{
    if let Some(entry) = kept {
        put_box(positions, arena, key, BoxKind::Marker, &entry.marker, out)?;
        put_box(positions, arena, key, BoxKind::Before, &entry.before, out)?;
    }
    Ok(())
}

/// Puts the line of the after box of a node of which this is kept.
fn put_last<O: Sink>(
    positions: &mut Vec<usize>,
    arena: &Arena,
    key: usize,
    kept: Option<&NodeEntry>,
    out: &mut O,
) -> Result<(), PutFault>
    requires live { IsLive arena.now.tree key }
    ensures ok { OnOk result (O.out out.new ≡ grown (O.out out.old) (dump (last_lines arena.now.tree (λ _. option_copied kept.entry) key))) }
    ensures failed { OnErr result (GrowsByFront (O.out out.old) (O.out out.new) (dump (last_lines arena.now.tree (λ _. option_copied kept.entry) key))) }
    ensures cause { HasPutCause (O.faults out.old) (O.faults out.new) result }
{
    if let Some(entry) = kept {
        put_box(positions, arena, key, BoxKind::After, &entry.after, out)?;
    }
    Ok(())
}

/// Puts the lines of a document, in time linear in its nodes and the bytes of the lines, a step an element at most. It
/// takes memory for the path of one node and for the nodes that it is in, and none for a line once there is room for these.
pub(crate) fn put_lines<O: Sink, L: Ledger>(
    alloc: Global,
    book: &Book,
    out: &mut O,
    steps: &mut Steps<L>,
) -> Result<(), PutFault>
    requires settled { book.now.settled ≡ true }
    ensures ok { OnOk result (O.out out.new ≡ grown (O.out out.old) (dump (tree_lines book.now.tree (fresh_entry book.now) book.now.tree))) }
    ensures failed { OnErr result (GrowsByFront (O.out out.old) (O.out out.new) (dump (tree_lines book.now.tree (fresh_entry book.now) book.now.tree))) }
    ensures cause { HasPutCause (O.faults out.old) (O.faults out.new) result }
    ensures steps { steps.new ≤ steps.old + element_count (without_keys book.now.tree) }
{
    let arena = book.arena();
    let mut positions = Vec::new(alloc);
    let mut inside = Vec::new(alloc);
    let mut link = Some(arena.root());
    'walk: loop {
        match link {
            Some(key) => {
                let entry = find_entry(book, key, steps);
                put_first(&mut positions, arena, key, entry, out)?;
                inside.push(OpenNode { key, entry })?;
                link = arena.first_child(key);
            }
            None => match inside.pop() {
                None => return Ok(()),
                Some(node) => {
                    put_last(&mut positions, arena, node.key, node.entry, out)?;
                    link = arena.next_sibling(node.key);
                }
            },
        }
    }
}
