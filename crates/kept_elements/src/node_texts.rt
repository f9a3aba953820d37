//! What is kept of elements, from what their evaluation tells.

ghost use Rattle.std.specs.Prelude.{◌≡◌, ◌↔◌, ◌+◌, ◌≤◌, ◌++◌, ◌∷◌, ℕ, [], length, take, IfNone, IfOk, IfSome, IsTrue, OnErr, OnOk, Some, option_copied, option_map};
ghost use Rattle.std.specs.FinMap.{get};
ghost use Rattle.generated_texts.specs.Entries.{box_text, node_entry};
ghost use Rattle.snapshot_board.specs.Records.{put_all};
ghost use Rattle.kept_elements.specs.Changes.{AreBelow, AreChanges, change_from};
ghost use Rattle.kept_elements.specs.Evaluations.{all_kept_of, kept_of};

use crate::kept::Kept;
use crate::kept_change::KeptChange;
use box_eval::element_record::ElementRecord;
use box_eval::made::Made;
use box_pieces::box_pieces::BoxPieces;
use changed_lines::element_lines::shows_other;
use content_eval::targets::Targets;
use content_eval::texts::{flat_text, full_text};
use generated_texts::entry::{BoxText, NodeEntry};
use plain_types::memory::Memory;
use plain_types::table::Table;
use snapshot_board::board::Board;
use std::alloc::Global;
use std::sync::ledger::Ledger;
use steps::Steps;
use surroundings::told::Told;
use surroundings::walked::Walked;

/// The texts of a box, where there is one.
fn box_text<T: Targets>(
    alloc: Global,
    table: &Table,
    made: &Option<Made>,
    targets: &T,
) -> Result<Option<BoxText>, Memory>
    ensures text { IfOk result (λ text. text ≡ option_map (box_text table.now (T.known targets.now)) made.now) }
{
    match made {
        Some(made) => Ok(Some(BoxText {
            flat: flat_text(alloc, table, &made.pieces, targets)?,
            full: full_text(alloc, table, &made.pieces, targets)?,
        })),
        None => Ok(None),
    }
}

fn node_entry<T: Targets>(
    alloc: Global,
    table: &Table,
    element: &ElementRecord,
    targets: &T,
) -> Result<NodeEntry, Memory>
    ensures entry { IfOk result (λ entry. entry ≡ node_entry table.now (T.known targets.now) element.now) }
{
    Ok(NodeEntry {
        has_box: element.has_box,
        own: element.own.share(alloc)?,
        exit: element.exit.share(alloc)?,
        depth_before: element.depth_before,
        depth_after: element.depth_after,
        marker: box_text(alloc, table, &element.marker, targets)?,
        before: box_text(alloc, table, &element.before, targets)?,
        after: box_text(alloc, table, &element.after, targets)?,
    })
}

/// What is kept of an element of which this is told.
pub(crate) fn kept_of<T: Targets>(
    alloc: Global,
    table: &Table,
    told: &Told,
    targets: &T,
) -> Result<Kept, Memory>
    ensures kept { IfOk result (λ kept. kept ≡ kept_of table.now (T.known targets.now) told.now) }
{
    Ok(Kept {
        entry: node_entry(alloc, table, &told.said, targets)?,
        walked: told.walked.share(alloc)?,
        pieces: BoxPieces::of(alloc, &told.said)?,
    })
}

/// Whether just this is kept of an element already.
fn is_kept(held: Option<&Kept>, kept: &Kept) -> bool
    ensures test { IsTrue result ↔ option_copied held.entry ≡ Some kept.now }
{
    match held {
        Some(held) => held.is_same(kept),
        None => false,
    }
}

/// The entry of an element of which this is kept.
fn entry_of(held: Option<&Kept>) -> Option<&NodeEntry>
    ensures entry { option_copied result ≡ option_map (λ (kept : Kept). kept.entry) (option_copied held.entry) }
{
    Some(&held?.entry)
}

/// What an element was handed of which this is kept, and what was handed on behind its children.
fn walked_in(alloc: Global, held: Option<&Kept>) -> Result<Option<Walked>, Memory>
    ensures walked { IfOk result (λ walked. walked ≡ option_map (λ (kept : Kept). kept.walked) (option_copied held.entry)) }
{
    match held {
        Some(kept) => Ok(Some(kept.walked.share(alloc)?)),
        None => Ok(None),
    }
}

/// What comes to be kept under this key, unless a board holds just this there; then it is let go. One step.
pub(crate) fn unless_held<L: Ledger>(
    alloc: Global,
    board: &Board<Kept>,
    key: usize,
    kept: Kept,
    steps: &mut Steps<L>,
) -> Result<Option<KeptChange>, Memory>
    ensures some { IfOk result (λ found. IfSome found (λ change. (change ≡ change_from board.now.held key kept) × (get board.now.held key ≡ Some kept → ⊥))) }
    ensures none { IfOk result (λ found. IfNone found (get board.now.held key ≡ Some kept)) }
    ensures step { steps.new ≡ steps.old + 1 }
{
    let held = board.get(key, steps);
    if is_kept(held, &kept) {
        return Ok(None);
    }
    let shows_other = shows_other(entry_of(held), Some(&kept.entry));
    let was = walked_in(alloc, held)?;
    Ok(Some(KeptChange {
        kept,
        shows_other,
        was,
    }))
}

pub(crate) fn push(
    changes: &mut Vec<(usize, KeptChange)>,
    key: usize,
    change: KeptChange,
) -> Result<(), Memory>
    ensures ok { OnOk result (changes.new.items ≡ changes.old.items ++ (key, change) ∷ []) }
{
    changes.push((key, change))?;
    Ok(())
}

/// Puts what is kept of the elements on a board that has room for it. It is a step for each.
pub fn put_entries<T: Targets, L: Ledger>(
    alloc: Global,
    table: &Table,
    records: &[(usize, Told)],
    targets: &T,
    board: &mut Board<Kept>,
    steps: &mut Steps<L>,
) -> Result<(), Memory>
    requires room { AreBelow board.old.room records.now }
    ensures held { OnOk result (board.new.held ≡ put_all (all_kept_of table.now (T.known targets.now) records.now) board.old.held) }
    ensures err { OnErr result ((count : ℕ) × board.new.held ≡ put_all (all_kept_of table.now (T.known targets.now) (take count records.now)) board.old.held) }
    ensures room { board.new.room ≡ board.old.room }
    ensures steps { steps.new ≤ steps.old + length records.now }
{
    for (key, told) in records {
        let kept = kept_of(alloc, table, told, targets)?;
        board.put(*key, kept, steps);
    }
    Ok(())
}

/// What is kept of the elements and is not on a board, which of them show other texts by it, and what they were handed before:
/// what is there already is let go at once. It is a step for each element.
pub fn changed_entries<T: Targets, L: Ledger>(
    alloc: Global,
    table: &Table,
    records: &[(usize, Told)],
    targets: &T,
    board: &Board<Kept>,
    steps: &mut Steps<L>,
) -> Result<Vec<(usize, KeptChange)>, Memory>
    ensures changes { IfOk result (λ changes. AreChanges board.now.held (all_kept_of table.now (T.known targets.now) records.now) changes.items) }
    ensures steps { steps.new ≤ steps.old + length records.now }
{
    let mut changes = Vec::new(alloc);
    for (key, told) in records {
        let kept = kept_of(alloc, table, told, targets)?;
        if let Some(change) = unless_held(alloc, board, *key, kept, steps)? {
            push(&mut changes, *key, change)?;
        }
    }
    Ok(changes)
}
