//! The references of elements, as an index has them.

ghost use Rattle.std.specs.Prelude.{◌≡◌, ◌++◌, ℕ, List, false, flat_map, IfOk, OnErr, OnOk};
ghost use Rattle.target_index.specs.Holders.{is_holder, is_reference};
ghost use Rattle.referring_elements.specs.References.{AreOnce, TellsReferencesOf, all_changes, box_changes, element_changes, piece_changes};

use box_eval::element_record::ElementRecord;
use box_eval::made::Made;
use content_eval::generated::Piece;
use content_eval::targets::reference;
use plain_types::list::List;
use plain_types::memory::Memory;
use plain_types::text::Text;
use std::alloc::Global;
use surroundings::told::Told;
use target_index::change::IndexChange;
use target_index::index::Index;

/// Appends that an element refers to the id of a piece, where the piece has one.
fn put_piece(
    alloc: Global,
    key: usize,
    piece: &Piece,
    changes: &mut List<IndexChange>,
) -> Result<(), Memory>
    ensures ok { OnOk result (changes.new ≡ changes.old ++ piece_changes key piece.now) }
{
    let Some(id) = reference(piece) else {
        return Ok(());
    };
    let id = Text::from_str(alloc, id)?;
    changes.push(IndexChange::Refer { id, key })?;
    Ok(())
}

/// Appends that an element refers to the ids of pieces.
fn put_pieces(
    alloc: Global,
    key: usize,
    pieces: &[Piece],
    changes: &mut List<IndexChange>,
) -> Result<(), Memory>
    ensures ok { OnOk result (changes.new ≡ changes.old ++ flat_map (piece_changes key) pieces.now) }
{
    for piece in pieces {
        put_piece(alloc, key, piece, changes)?;
    }
    Ok(())
}

/// Appends that an element refers to the ids of a box of it.
fn put_box(
    alloc: Global,
    key: usize,
    made: &Option<Made>,
    changes: &mut List<IndexChange>,
) -> Result<(), Memory>
    ensures ok { OnOk result (changes.new ≡ changes.old ++ box_changes key made.now) }
{
    match made {
        Some(made) => put_pieces(alloc, key, made.pieces.as_slice(), changes),
        None => Ok(()),
    }
}

/// Appends that an element, of which this is said, refers to the ids of its boxes.
fn put_element(
    alloc: Global,
    key: usize,
    said: &ElementRecord,
    changes: &mut List<IndexChange>,
) -> Result<(), Memory>
    ensures ok { OnOk result (changes.new ≡ changes.old ++ element_changes key said.now) }
{
    put_box(alloc, key, &said.marker, changes)?;
    put_box(alloc, key, &said.before, changes)?;
    put_box(alloc, key, &said.after, changes)
}

/// That elements refer to the ids of their boxes.
fn reference_changes(alloc: Global, told: &[(usize, Told)]) -> Result<List<IndexChange>, Memory>
    ensures changes { IfOk result (λ changes. changes ≡ all_changes told.now) }
{
    let mut changes = List::new(alloc);
    for (key, element) in told {
        put_element(alloc, *key, &element.said, &mut changes)?;
    }
    Ok(changes)
}

/// Adds to an index without references those of the elements of which this is told. After `Memory` it has none, as before.
///
/// It takes memory of the references and their ids, and time linear in these and in the elements.
pub fn add_references(
    alloc: Global,
    index: &mut Index,
    told: &[(usize, Told)],
) -> Result<(), Memory>
    requires none { (id : List ℕ) (key : ℕ) → is_reference index.old id key ≡ false }
    requires once { AreOnce told.now }
    ensures holders { (id : List ℕ) (key : ℕ) → is_holder index.new id key ≡ is_holder index.old id key }
    ensures references { OnOk result (TellsReferencesOf index.new told.now) }
    ensures err { OnErr result ((id : List ℕ) (key : ℕ) → is_reference index.new id key ≡ false) }
{
    let changes = reference_changes(alloc, told)?;
    index.reserve_for(alloc, changes.as_slice())?;
    index.commit(changes);
    Ok(())
}
