//! What is told again of elements, from what is kept of them.

ghost use Rattle.std.specs.Prelude.{◌≡◌, ◌++◌, ℕ, flat_map, take, IfOk, OnErr, OnOk, option_map};
ghost use Rattle.kept_elements.specs.Machinery.Renewals.{again_by, box_again, read_in, told_again};

use crate::kept::Kept;
use box_eval::element_record::ElementRecord;
use box_eval::made::Made;
use box_pieces::box_pieces::BoxPieces;
use content_eval::generated::Piece;
use counter_sets::counter_set::CounterSet;
use plain_types::duplicate::Duplicate;
use plain_types::list::List;
use plain_types::memory::Memory;
use std::alloc::Global;
use std::collections::HashMap;
use surroundings::told::Told;

/// A box of these pieces, of whose counters nothing is said.
fn box_again(alloc: Global, pieces: &Option<List<Piece>>) -> Result<Option<Made>, Memory>
    ensures made { IfOk result (λ made. made ≡ option_map box_again pieces.now) }
{
    match pieces {
        Some(pieces) => Ok(Some(Made {
            set: CounterSet::empty(alloc)?,
            pieces: pieces.duplicate(alloc)?,
            changes: List::new(alloc),
        })),
        None => Ok(None),
    }
}

/// What is told again of an element of which this is kept, as far as what is kept rests on it.
fn told_again(alloc: Global, kept: &Kept, pieces: &BoxPieces) -> Result<Told, Memory>
    ensures told { IfOk result (λ told. told ≡ told_again kept.now pieces.now) }
{
    let entry = &kept.entry;
    Ok(Told {
        said: ElementRecord {
            has_box: entry.has_box,
            own: entry.own.share(alloc)?,
            exit: entry.exit.share(alloc)?,
            depth_before: entry.depth_before,
            depth_after: entry.depth_after,
            marker: box_again(alloc, &pieces.marker)?,
            before: box_again(alloc, &pieces.before)?,
            after: box_again(alloc, &pieces.after)?,
        },
        walked: kept.walked.share(alloc)?,
        asks: false,
        starts: List::new(alloc),
        changes: List::new(alloc),
    })
}

/// Appends what is told again of an element, where its pieces are kept.
fn put_again(
    alloc: Global,
    held: &HashMap<usize, &Kept>,
    key: usize,
    records: &mut List<(usize, Told)>,
) -> Result<(), Memory>
    ensures ok { OnOk result (records.new ≡ records.old ++ again_by (read_in held.now) key) }
    ensures err { OnErr result (records.new ≡ records.old) }
{
    let Some(kept) = held.get(&key) else {
        return Ok(());
    };
    match &kept.pieces {
        Some(pieces) => records.push((key, told_again(alloc, kept, pieces)?)),
        None => Ok(()),
    }
}

/// Appends what is told again of these elements, of those whose pieces are kept.
pub fn put_all_again(
    alloc: Global,
    held: &HashMap<usize, &Kept>,
    keys: &[usize],
    records: &mut List<(usize, Told)>,
) -> Result<(), Memory>
    ensures ok { OnOk result (records.new ≡ records.old ++ flat_map (again_by (read_in held.now)) keys.now) }
    ensures err { OnErr result ((count : ℕ) × records.new ≡ records.old ++ flat_map (again_by (read_in held.now)) (take count keys.now)) }
{
    for key in keys {
        put_again(alloc, held, *key, records)?;
    }
    Ok(())
}
