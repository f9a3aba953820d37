//! The references of elements in an index, before and after an edit.

ghost use Rattle.std.specs.Prelude.{◌≡◌, ◌≤◌, ◌+◌, ◌++◌, ℕ, List, flat_map, length, map, IfOk, OnErr, OnOk};
ghost use Rattle.target_index.specs.Changes.{AreReserved, refers_after_all};
ghost use Rattle.target_index.specs.Holders.{is_holder, is_reference};
ghost use Rattle.reference_reach.specs.ChangedTargets.{Evaluated};
ghost use Rattle.referring_elements.specs.Indexes.{TellsReferences};
ghost use Rattle.dirty_walk.specs.Machinery.ReferenceExchanges.{ChangesReferences, HoldersStayReserved, IsWithinKeys, LeadsBack};
ghost use Rattle.dirty_walk.specs.Machinery.ReferenceLists.{all_kept, all_told, box_references, boxes_references, element_references, exchanged, kept_box_references, kept_references, piece_references, referred, unreferred};

use box_eval::element_record::ElementRecord;
use box_eval::made::Made;
use box_pieces::box_pieces::BoxPieces;
use content_eval::generated::Piece;
use content_eval::targets::reference;
use kept_elements::kept::Kept;
use kept_elements::renewed_texts::told_keys;
use plain_types::duplicate::Duplicate;
use plain_types::list::List;
use plain_types::memory::Memory;
use plain_types::text::Text;
use snapshot_board::board::Board;
use std::alloc::Global;
use std::sync::ledger::Ledger;
use steps::Steps;
use surroundings::told::Told;
use target_index::change::IndexChange;
use target_index::index::Index;

/// An element, and an id to which it refers.
#[derive(Drop)]
struct Reference {
    key: usize,
    id: Text,
}

/// Appends the reference of a piece, where it has one.
fn put_piece(
    alloc: Global,
    key: usize,
    piece: &Piece,
    references: &mut List<Reference>,
) -> Result<(), Memory>
    ensures ok { OnOk result (references.new ≡ references.old ++ piece_references key piece.now) }
{
    let Some(id) = reference(piece) else {
        return Ok(());
    };
    let id = Text::from_str(alloc, id)?;
    references.push(Reference { key, id })?;
    Ok(())
}

/// Appends the references of pieces.
fn put_pieces(
    alloc: Global,
    key: usize,
    pieces: &[Piece],
    references: &mut List<Reference>,
) -> Result<(), Memory>
    ensures ok { OnOk result (references.new ≡ references.old ++ flat_map (piece_references key) pieces.now) }
{
    for piece in pieces {
        put_piece(alloc, key, piece, references)?;
    }
    Ok(())
}

/// Appends the references of a box of which the pieces are kept, where they are.
fn put_kept_box(
    alloc: Global,
    key: usize,
    pieces: &Option<List<Piece>>,
    references: &mut List<Reference>,
) -> Result<(), Memory>
    ensures ok { OnOk result (references.new ≡ references.old ++ kept_box_references key pieces.now) }
{
    match pieces {
        Some(pieces) => put_pieces(alloc, key, pieces.as_slice(), references),
        None => Ok(()),
    }
}

/// Appends the references of boxes of which the pieces are kept.
fn put_boxes(
    alloc: Global,
    key: usize,
    boxes: &BoxPieces,
    references: &mut List<Reference>,
) -> Result<(), Memory>
    ensures ok { OnOk result (references.new ≡ references.old ++ boxes_references key boxes.now) }
{
    put_kept_box(alloc, key, &boxes.marker, references)?;
    put_kept_box(alloc, key, &boxes.before, references)?;
    put_kept_box(alloc, key, &boxes.after, references)
}

/// Appends the references of an element by the pieces that are kept of it. It is a step.
fn put_kept<L: Ledger>(
    alloc: Global,
    board: &Board<Kept>,
    key: usize,
    references: &mut List<Reference>,
    steps: &mut Steps<L>,
) -> Result<(), Memory>
    ensures ok { OnOk result (references.new ≡ references.old ++ kept_references board.now.held key) }
    ensures step { steps.new ≡ steps.old + 1 }
{
    let Some(kept) = board.get(key, steps) else {
        return Ok(());
    };
    match &kept.pieces {
        Some(boxes) => put_boxes(alloc, key, boxes, references),
        None => Ok(()),
    }
}

/// Appends the references of the elements of these keys by what is kept of them. It is a step for each.
fn put_all_kept<L: Ledger>(
    alloc: Global,
    board: &Board<Kept>,
    keys: &[usize],
    references: &mut List<Reference>,
    steps: &mut Steps<L>,
) -> Result<(), Memory>
    ensures ok { OnOk result (references.new ≡ references.old ++ all_kept board.now.held keys.now) }
    ensures steps { OnOk result (steps.new ≡ steps.old + length keys.now) }
    ensures most { steps.new ≤ steps.old + length keys.now }
{
    for key in keys {
        put_kept(alloc, board, *key, references, steps)?;
    }
    Ok(())
}

/// Appends the references of a box.
fn put_box(
    alloc: Global,
    key: usize,
    made: &Option<Made>,
    references: &mut List<Reference>,
) -> Result<(), Memory>
    ensures ok { OnOk result (references.new ≡ references.old ++ box_references key made.now) }
{
    match made {
        Some(made) => put_pieces(alloc, key, made.pieces.as_slice(), references),
        None => Ok(()),
    }
}

/// Appends the references of an element of which this is said.
fn put_element(
    alloc: Global,
    key: usize,
    said: &ElementRecord,
    references: &mut List<Reference>,
) -> Result<(), Memory>
    ensures ok { OnOk result (references.new ≡ references.old ++ element_references key said.now) }
{
    put_box(alloc, key, &said.marker, references)?;
    put_box(alloc, key, &said.before, references)?;
    put_box(alloc, key, &said.after, references)
}

/// The references of elements of which this is told.
fn references_after(alloc: Global, told: &[(usize, Told)]) -> Result<List<Reference>, Memory>
    ensures references { IfOk result (λ references. references ≡ all_told told.now) }
{
    let mut references = List::new(alloc);
    for (key, told) in told {
        put_element(alloc, *key, &told.said, &mut references)?;
    }
    Ok(references)
}

/// The references of the elements that go, and those that these others had. It is a step for each of both.
fn references_before<L: Ledger>(
    alloc: Global,
    board: &Board<Kept>,
    takes: &[usize],
    others: &[usize],
    steps: &mut Steps<L>,
) -> Result<List<Reference>, Memory>
    ensures references { IfOk result (λ references. references ≡ all_kept board.now.held takes.now ++ all_kept board.now.held others.now) }
    ensures most { steps.new ≤ steps.old + (length takes.now + length others.now) }
{
    let mut references = List::new(alloc);
    put_all_kept(alloc, board, takes, &mut references, steps)?;
    put_all_kept(alloc, board, others, &mut references, steps)?;
    Ok(references)
}

/// Appends that elements refer to ids no longer.
fn put_unreferred(
    alloc: Global,
    references: &[Reference],
    changes: &mut List<IndexChange>,
) -> Result<(), Memory>
    ensures ok { OnOk result (changes.new ≡ changes.old ++ map unreferred references.now) }
{
    for reference in references {
        let id = reference.id.duplicate(alloc)?;
        let key = reference.key;
        changes.push(IndexChange::Unrefer { id, key })?;
    }
    Ok(())
}

/// Appends that elements refer to ids.
fn put_referred(
    alloc: Global,
    references: &[Reference],
    changes: &mut List<IndexChange>,
) -> Result<(), Memory>
    ensures ok { OnOk result (changes.new ≡ changes.old ++ map referred references.now) }
{
    for reference in references {
        let id = reference.id.duplicate(alloc)?;
        let key = reference.key;
        changes.push(IndexChange::Refer { id, key })?;
    }
    Ok(())
}

/// Appends the changes of an index where references go and others come.
fn put_exchange(
    alloc: Global,
    was: &[Reference],
    is: &[Reference],
    changes: &mut List<IndexChange>,
) -> Result<(), Memory>
    ensures ok { OnOk result (changes.new ≡ changes.old ++ exchanged was.now is.now) }
{
    put_unreferred(alloc, was, changes)?;
    put_referred(alloc, is, changes)
}

/// Exchanges references of an index for others, and answers the way back, whose memory is taken. After `Memory` the index has
/// the references that it had.
///
/// It takes memory of the ids, and time linear in them.
fn exchange(
    alloc: Global,
    index: &mut Index,
    was: &[Reference],
    is: &[Reference],
) -> Result<List<IndexChange>, Memory>
    ensures references { OnOk result ((id : List ℕ) (key : ℕ) → is_reference index.new id key ≡ refers_after_all (exchanged was.now is.now) id key (is_reference index.old id key)) }
    ensures back { IfOk result (λ back. back ≡ exchanged is.now was.now) }
    ensures reserved { IfOk result (λ back. AreReserved index.new back) }
    ensures err { OnErr result ((id : List ℕ) (key : ℕ) → is_reference index.new id key ≡ is_reference index.old id key) }
    ensures holders { (id : List ℕ) (key : ℕ) → is_holder index.new id key ≡ is_holder index.old id key }
    ensures stay { HoldersStayReserved index.old index.new }
{
    let mut changes = List::new(alloc);
    put_exchange(alloc, was, is, &mut changes)?;
    let mut back = List::new(alloc);
    put_exchange(alloc, is, was, &mut back)?;
    let mut both = List::new(alloc);
    put_exchange(alloc, was, is, &mut both)?;
    put_exchange(alloc, is, was, &mut both)?;
    index.reserve_for(alloc, both.as_slice())?;
    index.commit(changes);
    Ok(back)
}

/// Brings the references of an index to those of the edited document, where these elements are gone, and this is told of
/// others. It answers the way back, whose memory is taken; after `Memory` the index has the references that it had. It leaves the
/// holders as they are, and what is reserved for them.
///
/// It takes a step for each element that is gone, and for each of which this is told, which is counted once; and memory of the ids
/// to which they referred and refer, and time linear in them.
pub(crate) fn exchange_references<L: Ledger>(
    alloc: Global,
    index: &mut Index,
    board: &Board<Kept>,
    takes: &[usize],
    told: &[(usize, Told)],
    steps: &mut Steps<L>,
) -> Result<List<IndexChange>, Memory>
    ensures references { OnOk result ((before after : Evaluated) → ChangesReferences board.now.held takes.now told.now before after → TellsReferences index.old before → TellsReferences index.new after) }
    ensures back { IfOk result (λ back. (before after : Evaluated) → ChangesReferences board.now.held takes.now told.now before after → TellsReferences index.old before → LeadsBack back index.new index.old) }
    ensures err { OnErr result ((id : List ℕ) (key : ℕ) → is_reference index.new id key ≡ is_reference index.old id key) }
    ensures holders { (id : List ℕ) (key : ℕ) → is_holder index.new id key ≡ is_holder index.old id key }
    ensures stay { HoldersStayReserved index.old index.new }
    ensures most { IsWithinKeys told.now (length takes.now) steps.old steps.new }
{
    let others = told_keys(alloc, told)?;
    let was = references_before(alloc, board, takes, others.as_slice(), steps)?;
    let is = references_after(alloc, told)?;
    exchange(alloc, index, was.as_slice(), is.as_slice())
}
