//! What is kept of elements whose texts are made again.

ghost use Rattle.std.specs.Prelude.{◌≡◌, ◌≤◌, ◌+◌, ◌*◌, ℕ, nat_eq, true, length, flat_map, IfOk, IsSome, OnOk, option_copied, take};
ghost use Rattle.std.specs.HashMap.{get};
ghost use Rattle.std.specs.List.{IsDistinct};
ghost use Rattle.forest.specs.Keys.{without_keys};
ghost use Rattle.document_walk.specs.Elements.{element_count};
ghost use Rattle.node_arena.specs.Nodes.{name_of};
ghost use Rattle.edit_work.specs.KeyedSources.{is_among};
ghost use Rattle.generated_texts.specs.References.{kept_at, known_targets};
ghost use Rattle.referring_elements.specs.Indexes.{IsIndexOf};
ghost use Rattle.kept_elements.specs.Changes.{AreChanges, Renews, TellWere};
ghost use Rattle.kept_elements.specs.Evaluations.{all_kept_of};
ghost use Rattle.referring_elements.specs.References.{said_of};
ghost use Rattle.kept_elements.specs.Known.{IsKeptIn, all_flat_texts_of};
ghost use Rattle.kept_elements.specs.RenewalSteps.{renewal_weight};
ghost use Rattle.kept_elements.specs.Renewals.{IsSomeEdit, IsSomeWalk, evaluated_as, is_told};
ghost use Rattle.kept_elements.specs.Machinery.Renewals.{AreRead, IsRenewal, IsWithinLists, ListsAll, known_again, read_in, renewed_kept, renewed_known};

use crate::again::put_all_again;
use crate::by_key::by_key;
use crate::flat_texts::{FlatTexts, all_flat_texts};
use crate::held_elements::HeldElements;
use crate::kept::Kept;
use crate::kept_change::KeptChange;
use crate::node_texts::{kept_of, push, unless_held};
use crate::renewed_targets::{RenewedTargets, target_keys};
use content_eval::targets::Targets;
use indexmap::IndexSet;
use merged_walk::stop::Stop;
use node_arena::arena::Arena;
use node_arena::laws::arena_holds_document;
use plain_types::list::List;
use plain_types::memory::Memory;
use plain_types::table::Table;
use referring_elements::changed::changed_elements;
use referring_elements::former::FormerTarget;
use referring_elements::holder_lookup::HolderLookup;
use referring_elements::referring::{Referring, referring_elements};
use snapshot_board::board::Board;
use std::alloc::Global;
use std::collections::HashMap;
use std::sync::ledger::Ledger;
use steps::Steps;
use surroundings::told::Told;
use target_index::index::Index;

/// The keys of elements of which this is told, each once. It takes memory for them, and linear time.
pub fn told_keys(alloc: Global, told: &[(usize, Told)]) -> Result<IndexSet<usize>, Memory>
    ensures keys { IfOk result (λ keys. (key : ℕ) → is_among keys.keys key ≡ is_told told.now key) }
{
    let mut keys = IndexSet::new(alloc);
    for (key, _told) in told {
        keys.insert(*key)?;
    }
    Ok(keys)
}

/// What comes to a board of these elements of which this is told by key. It is a step for each.
fn changes_of<T: Targets, L: Ledger>(
    alloc: Global,
    table: &Table,
    keys: &[usize],
    records: &HashMap<usize, &Told>,
    targets: &T,
    board: &Board<Kept>,
    steps: &mut Steps<L>,
) -> Result<Vec<(usize, KeptChange)>, Memory>
    ensures changes { IfOk result (λ changes. AreChanges board.now.held (renewed_kept table.now (T.known targets.now) (λ key. option_copied (get nat_eq records.now key)) keys.now) changes.items) }
    ensures steps { steps.new ≤ steps.old + length keys.now }
{
    let mut changes = Vec::new(alloc);
    for key in keys {
        if let Some(told) = records.get(key) {
            let kept = kept_of(alloc, table, told, targets)?;
            if let Some(change) = unless_held(alloc, board, *key, kept, steps)? {
                push(&mut changes, *key, change)?;
            }
        }
    }
    Ok(changes)
}

/// The flat texts that are made again.
fn flat_texts_again(
    alloc: Global,
    lookup: &HolderLookup<'_>,
    table: &Table,
    flat: &[(usize, Told)],
    listed: &[(usize, Told)],
    records: &HashMap<usize, &Told>,
    held: &HashMap<usize, &Kept>,
) -> Result<List<(usize, FlatTexts)>, Memory>
    requires kept { IsKeptIn records.now listed.now }
    ensures texts { IfOk result (λ texts. texts ≡ all_flat_texts_of table.now (renewed_known lookup.now.arena.now.tree (kept_at listed.now) (λ _. None) (read_in held.now)) flat.now) }
{
    let none: List<(usize, FlatTexts)> = List::new(alloc);
    let no_flats = by_key(alloc, none.as_slice())?;
    let targets = RenewedTargets {
        lookup,
        listed,
        records,
        listed_flats: none.as_slice(),
        flats: &no_flats,
        held,
    };
    all_flat_texts(alloc, table, flat, &targets)
}

/// What comes to a board of these elements of which this is told, where these are the flat texts that are made again. It is a
/// step for each of them.
fn changes_again<L: Ledger>(
    alloc: Global,
    lookup: &HolderLookup<'_>,
    table: &Table,
    told: &[usize],
    listed: &[(usize, Told)],
    records: &HashMap<usize, &Told>,
    flats: &[(usize, FlatTexts)],
    board: &Board<Kept>,
    held: &HashMap<usize, &Kept>,
    steps: &mut Steps<L>,
) -> Result<Vec<(usize, KeptChange)>, Memory>
    requires kept { IsKeptIn records.now listed.now }
    ensures changes { IfOk result (λ changes. AreChanges board.now.held (renewed_kept table.now (renewed_known lookup.now.arena.now.tree (kept_at listed.now) (kept_at flats.now) (read_in held.now)) (λ key. option_copied (get nat_eq records.now key)) told.now) changes.items) }
    ensures steps { steps.new ≤ steps.old + length told.now }
{
    let flats_by_key = by_key(alloc, flats)?;
    let targets = RenewedTargets {
        lookup,
        listed,
        records,
        listed_flats: flats,
        flats: &flats_by_key,
        held,
    };
    changes_of(alloc, table, told, records, &targets, board, steps)
}

/// What comes to a board of the elements of which this is told, where this was read of those to which they refer, and the first
/// so many have flat texts that are made again. It is a step for each.
fn changes_to<L: Ledger>(
    alloc: Global,
    lookup: &HolderLookup<'_>,
    table: &Table,
    told: &[usize],
    listed: &[(usize, Told)],
    flat_count: usize,
    board: &Board<Kept>,
    held: &HashMap<usize, &Kept>,
    steps: &mut Steps<L>,
) -> Result<Vec<(usize, KeptChange)>, Memory>
    requires within { flat_count ≤ length listed.now }
    ensures changes { IfOk result (λ changes. AreChanges board.now.held (renewed_kept table.now (known_again lookup.now.arena.now.tree table.now (take flat_count listed.now) listed.now (read_in held.now)) (kept_at listed.now) told.now) changes.items) }
    ensures steps { steps.new ≤ steps.old + length told.now }
{
    let records = by_key(alloc, listed)?;
    let flats = flat_texts_again(
        alloc,
        lookup,
        table,
        &listed[..flat_count],
        listed,
        &records,
        held,
    )?;
    changes_again(
        alloc,
        lookup,
        table,
        told,
        listed,
        &records,
        flats.as_slice(),
        board,
        held,
        steps,
    )
}

/// What comes to a board of the elements of which this is told, of which the first so many have flat texts that are made again,
/// where this was read of others already. It is a step for each element to which any of them refers, unless it was read, and one
/// for each of them.
fn entries_again<'a, L: Ledger>(
    alloc: Global,
    arena: &Arena,
    index: &Index,
    table: &Table,
    listed: &[(usize, Told)],
    flat_count: usize,
    board: &'a Board<Kept>,
    read: HeldElements<'a>,
    steps: &mut Steps<L>,
) -> Result<Vec<(usize, KeptChange)>, Memory>
    requires indexed { IsIndexOf index.now arena.now.tree }
    requires within { flat_count ≤ length listed.now }
    requires elements { (key : ℕ) → is_told listed.now key ≡ true → IsSome (name_of arena.now.tree key) }
    requires read { AreRead read.keys.keys (read_in read.kept) board.now.held }
    requires unique { IsDistinct nat_eq read.keys.keys }
    requires live { (key : ℕ) → is_among read.keys.keys key ≡ true → IsSome (name_of arena.now.tree key) }
    ensures renewal { IfOk result (λ changes. IsRenewal arena.now.tree table.now board.now.held (take flat_count listed.now) listed.now changes.items) }
    ensures steps { steps.new + length read.entry.keys.keys ≤ steps.old + 2 * element_count (without_keys arena.now.tree) }
    ensures fewer { IsWithinLists arena.now.tree listed.now steps.old steps.new }
    ensures few { IfOk result (λ changes. ListsAll listed.now (length changes.items)) }
{
    arena_holds_document(arena);
    let told = told_keys(alloc, listed)?;
    let mut lookup = HolderLookup::new(alloc, arena, index);
    let targets = target_keys(alloc, &mut lookup, listed)?;
    let mut held = read;
    held.add_all(board, targets.as_slice(), steps)?;
    changes_to(
        alloc,
        &lookup,
        table,
        told.as_slice(),
        listed,
        flat_count,
        board,
        &held.kept,
        steps,
    )
}

/// What comes to a board where this is told of the elements that were evaluated, and these others refer to what they touch.
///
/// It is a step for each of the others and of the elements to which any of these refers, each of which is read once, and one for
/// each whose texts are made again.
pub fn renewed_entries<L: Ledger>(
    alloc: Global,
    arena: &Arena,
    index: &Index,
    table: &Table,
    told: List<(usize, Told)>,
    found: &Referring,
    board: &Board<Kept>,
    steps: &mut Steps<L>,
) -> Result<Vec<(usize, KeptChange)>, Memory>
    requires indexed { IsIndexOf index.now arena.now.tree }
    requires edit { IsSomeEdit table.now arena.now.tree told board.now.held found.now.first found.now.second }
    ensures renewal { IfOk result (λ changes. (edit : IsSomeEdit table.now arena.now.tree told board.now.held found.now.first found.now.second) → Renews board.now.held (all_kept_of table.now (known_targets table.now arena.now.tree (said_of edit.is)) edit.is) changes.items) }
    ensures were { IfOk result (λ changes. TellWere board.now.held changes.items) }
    ensures steps { steps.new ≤ steps.old + 2 * element_count (without_keys arena.now.tree) }
    ensures fewer { (edit : IsSomeEdit table.now arena.now.tree told board.now.held found.now.first found.now.second) → steps.new ≤ steps.old + renewal_weight (evaluated_as edit.old edit.was) (evaluated_as arena.now.tree edit.is) edit.merge told }
    ensures few { IfOk result (λ changes. (edit : IsSomeEdit table.now arena.now.tree told board.now.held found.now.first found.now.second) → length changes.items ≤ renewal_weight (evaluated_as edit.old edit.was) (evaluated_as arena.now.tree edit.is) edit.merge told) }
{
    arena_holds_document(arena);
    let first = found.first.as_slice();
    let second = found.second.as_slice();
    let mut held = HeldElements::new(alloc);
    held.add_all(board, first, steps)?;
    held.add_all(board, second, steps)?;
    let mut records = told;
    put_all_again(alloc, &held.kept, first, &mut records)?;
    let flat_count = records.len();
    put_all_again(alloc, &held.kept, second, &mut records)?;
    entries_again(
        alloc,
        arena,
        index,
        table,
        records.as_slice(),
        flat_count,
        board,
        held,
        steps,
    )
}

/// What comes to a board where a walk from these stops has told this of the elements of an edited document, in which these ids
/// may name other elements than before; the index is that of the edited document.
///
/// It is as `renewed_entries`, once the elements are found that refer to what the edit touches.
pub fn walked_entries<L: Ledger>(
    alloc: Global,
    arena: &Arena,
    index: &Index,
    table: &Table,
    stops: &[Stop],
    former: &[FormerTarget],
    told: List<(usize, Told)>,
    board: &Board<Kept>,
    steps: &mut Steps<L>,
) -> Result<Vec<(usize, KeptChange)>, Memory>
    requires indexed { IsIndexOf index.now arena.now.tree }
    requires walk { IsSomeWalk table.now index.now former.now stops.now arena.now.tree told board.now.held }
    ensures renewal { IfOk result (λ changes. (walk : IsSomeWalk table.now index.now former.now stops.now arena.now.tree told board.now.held) → Renews board.now.held (all_kept_of table.now (known_targets table.now arena.now.tree (said_of walk.is)) walk.is) changes.items) }
    ensures were { IfOk result (λ changes. TellWere board.now.held changes.items) }
    ensures steps { steps.new ≤ steps.old + 2 * element_count (without_keys arena.now.tree) }
    ensures fewer { (walk : IsSomeWalk table.now index.now former.now stops.now arena.now.tree told board.now.held) → steps.new ≤ steps.old + renewal_weight (evaluated_as walk.old walk.was) (evaluated_as arena.now.tree walk.is) walk.merge told }
    ensures few { IfOk result (λ changes. (walk : IsSomeWalk table.now index.now former.now stops.now arena.now.tree told board.now.held) → length changes.items ≤ renewal_weight (evaluated_as walk.old walk.was) (evaluated_as arena.now.tree walk.is) walk.merge told) }
{
    let visited = told_keys(alloc, told.as_slice())?;
    let changed = changed_elements(alloc, arena, stops, visited.as_slice())?;
    let found = referring_elements(alloc, arena, index, former, changed.as_slice())?;
    renewed_entries(alloc, arena, index, table, told, &found, board, steps)
}
