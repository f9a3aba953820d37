//! The lines of a chapter in a volume.

ghost use Rattle.std.specs.Prelude.{◌≡◌, ◌≢◌, ◌≤◌, ◌+◌, ◌*◌, IfOk, OnOk, OnErr, option_copied};
ghost use Rattle.book_definitions.specs.Lines.{chapter_dump, chapter_entries};
ghost use Rattle.dump_definitions.specs.Dump.{dump};
ghost use Rattle.forest.specs.Spots.{IsLive};
ghost use Rattle.generated_texts.specs.Lines.{first_lines, last_lines, lines_of};
ghost use Rattle.generated_texts.specs.References.{kept_at};
ghost use Rattle.plain_types.specs.declared.box_kind.BoxKind.TheVariants as kinds;
ghost use Rattle.ports.specs.Grown.{grown, GrowsByFront};
ghost use Rattle.ports.specs.Puts.{HasPutCause};
ghost use Rattle.book_refs.specs.Machinery.VolumeBoxes.{IsOpenNode, box_cost, entry_alone, first_cost, last_cost, text_alone, text_in};
ghost use Rattle.book_refs.specs.ShowWork.{chapter_work};

use crate::evaluated_chapter::EvaluatedChapter;
use crate::full_texts::full_text;
use book_definitions::laws::texts_are_told_piece_by_piece;
use dump_text::put_line::put_line;
use generated_texts::entry::{BoxText, NodeEntry};
use marker_engine::node_path::fill_path;
use plain_types::box_kind::BoxKind;
use ports::put_fault::PutFault;
use ports::sink::Sink;
use std::alloc::Global;
use std::sync::ledger::Ledger;
use steps::Steps;

/// A node that the walk is in, and what is kept of it where its document stands alone.
#[derive(Drop)]
struct OpenNode<'a> {
    key: usize,
    entry: Option<&'a NodeEntry>,
}

/// Puts the line of a box of a node, if there is the box, which has this text where its document stands alone. The
/// positions are room for the node's path.
fn put_box<O: Sink, L: Ledger>(
    alloc: Global,
    positions: &mut Vec<usize>,
    volume: &[EvaluatedChapter],
    own: &EvaluatedChapter,
    key: usize,
    kind: BoxKind,
    text: &Option<BoxText>,
    out: &mut O,
    steps: &mut Steps<L>,
) -> Result<(), PutFault>
    requires live { IsLive own.now.document key }
    requires pseudo { kind ≢ kinds.Element }
    requires text { text.now ≡ text_alone own.now key kind }
    ensures ok { OnOk result (O.out out.new ≡ grown (O.out out.old) (dump (lines_of own.now.document key kind (text_in own.now key volume.now kind)))) }
    ensures failed { OnErr result (GrowsByFront (O.out out.old) (O.out out.new) (dump (lines_of own.now.document key kind (text_in own.now key volume.now kind)))) }
    ensures cause { HasPutCause (O.faults out.old) (O.faults out.new) result }
    ensures steps { steps.new ≤ steps.old + box_cost volume.now own.now key kind }
{
    texts_are_told_piece_by_piece();
    let Some(text) = text else {
        return Ok(());
    };
    fill_path(positions, own.arena(), key)?;
    if let Some(pieces) = own.pieces(key, kind, steps) {
        let full = full_text(alloc, volume, own, pieces, steps)?;
        put_line(positions.as_slice(), kind, &full, out)?;
        return Ok(());
    }
    put_line(positions.as_slice(), kind, &text.full, out)?;
    Ok(())
}

/// Puts the lines of the marker and the before box of a node, and answers what is kept of it where its document stands
/// alone.
fn enter<'a, O: Sink, L: Ledger>(
    alloc: Global,
    positions: &mut Vec<usize>,
    volume: &[EvaluatedChapter],
    own: &'a EvaluatedChapter,
    key: usize,
    out: &mut O,
    steps: &mut Steps<L>,
) -> Result<Option<&'a NodeEntry>, PutFault>
    requires live { IsLive own.now.document key }
    ensures entry { IfOk result (λ entry. option_copied entry ≡ entry_alone own.now key) }
    ensures ok { OnOk result (O.out out.new ≡ grown (O.out out.old) (dump (first_lines own.now.document (kept_at (chapter_entries volume.now own.now)) key))) }
    ensures failed { OnErr result (GrowsByFront (O.out out.old) (O.out out.new) (dump (first_lines own.now.document (kept_at (chapter_entries volume.now own.now)) key))) }
    ensures cause { HasPutCause (O.faults out.old) (O.faults out.new) result }
    ensures steps { steps.new ≤ steps.old + first_cost volume.now own.now key }
{
    let Some(entry) = own.entry(key, steps) else {
        return Ok(None);
    };
    put_box(
        alloc,
        positions,
        volume,
        own,
        key,
        BoxKind::Marker,
        &entry.marker,
        out,
        steps,
    )?;
    put_box(
        alloc,
        positions,
        volume,
        own,
        key,
        BoxKind::Before,
        &entry.before,
        out,
        steps,
    )?;
    Ok(Some(entry))
}

/// Puts the line of the after box of a node of which this is kept where its document stands alone.
fn leave<O: Sink, L: Ledger>(
    alloc: Global,
    positions: &mut Vec<usize>,
    volume: &[EvaluatedChapter],
    own: &EvaluatedChapter,
    key: usize,
    kept: Option<&NodeEntry>,
    out: &mut O,
    steps: &mut Steps<L>,
) -> Result<(), PutFault>
    requires node { IsOpenNode own.now key (option_copied kept) }
    ensures ok { OnOk result (O.out out.new ≡ grown (O.out out.old) (dump (last_lines own.now.document (kept_at (chapter_entries volume.now own.now)) key))) }
    ensures failed { OnErr result (GrowsByFront (O.out out.old) (O.out out.new) (dump (last_lines own.now.document (kept_at (chapter_entries volume.now own.now)) key))) }
    ensures cause { HasPutCause (O.faults out.old) (O.faults out.new) result }
    ensures steps { steps.new ≤ steps.old + last_cost volume.now own.now key }
{
    if let Some(entry) = kept {
        put_box(
            alloc,
            positions,
            volume,
            own,
            key,
            BoxKind::After,
            &entry.after,
            out,
            steps,
        )?;
    }
    Ok(())
}

/// Puts the lines of a chapter of a volume. It takes memory for the path of one node, for the nodes that it is in, and for the
/// texts of a box that has urls: none for another line, once there is room for the first two.
pub(crate) fn put_chapter<O: Sink, L: Ledger>(
    alloc: Global,
    volume: &[EvaluatedChapter],
    own: &EvaluatedChapter,
    out: &mut O,
    steps: &mut Steps<L>,
) -> Result<(), PutFault>
    ensures ok { OnOk result (O.out out.new ≡ grown (O.out out.old) (chapter_dump volume.now own.now)) }
    ensures failed { OnErr result (GrowsByFront (O.out out.old) (O.out out.new) (chapter_dump volume.now own.now)) }
    ensures cause { HasPutCause (O.faults out.old) (O.faults out.new) result }
    ensures steps { steps.new ≤ steps.old + 4 * chapter_work volume.now own.now }
{
    let arena = own.arena();
    let mut positions = Vec::new(alloc);
    let mut inside = Vec::new(alloc);
    let mut link = Some(arena.root());
    'walk: loop {
        match link {
            Some(key) => {
                let entry = enter(alloc, &mut positions, volume, own, key, out, steps)?;
                inside.push(OpenNode { key, entry })?;
                link = arena.first_child(key);
            }
            None => match inside.pop() {
                None => return Ok(()),
                Some(node) => {
                    leave(
                        alloc,
                        &mut positions,
                        volume,
                        own,
                        node.key,
                        node.entry,
                        out,
                        steps,
                    )?;
                    link = arena.next_sibling(node.key);
                }
            },
        }
    }
}
