//! Changes of an index, as a table.

ghost use Rattle.std.specs.Prelude.{◌≡◌, ◌∷◌, [], ℕ, nat_eq, true, codes, IfOk, IsTrue};
ghost use Rattle.std.specs.List.{list_any};
ghost use Rattle.forest.specs.Spots.{IsLive};
ghost use Rattle.target_index.specs.declared.change.IndexChange.TheVariants.{Hold, Unhold};

use crate::change::IndexChange;
use crate::index::Index;
use node_arena::arena::{Arena, has_element_root};
use plain_types::list::List;
use plain_types::memory::Memory;
use plain_types::text::Text;
use plain_types::tree::Tree;
use plain_types::tree_builder::TreeBuilder;
use std::alloc::Global;
use std::test::Fail;

/// A change of a row: the id, and the place of the element among the four of the document, in tree order.
#[derive(Clone, Copy)]
enum Step {
    Hold(&'static str, usize),
    Unhold(&'static str, usize),
    Refer(&'static str, usize),
    Unrefer(&'static str, usize),
}

/// Changes; the places of the first element that holds `x`, of all that hold it, and of all that refer to it.
type Row = (
    &'static [Step],
    Option<usize>,
    &'static [usize],
    &'static [usize],
);

static ROWS: [Row; 12] = [
    (&[], None, &[], &[]),
    (&[Step::Hold("x", 2)], Some(2), &[2], &[]),
    // the first in tree order, however the changes stand
    (
        &[Step::Hold("x", 3), Step::Hold("x", 1), Step::Hold("x", 2)],
        Some(1),
        &[1, 2, 3],
        &[],
    ),
    // an ancestor comes before what is in it
    (
        &[Step::Hold("x", 1), Step::Hold("x", 0)],
        Some(0),
        &[0, 1],
        &[],
    ),
    // the first goes, and the next one is the first
    (
        &[Step::Hold("x", 1), Step::Hold("x", 2), Step::Unhold("x", 1)],
        Some(2),
        &[2],
        &[],
    ),
    (&[Step::Hold("x", 1), Step::Unhold("x", 1)], None, &[], &[]),
    // a pair is there once, and what is not there is not taken away
    (
        &[Step::Hold("x", 1), Step::Hold("x", 1), Step::Unhold("x", 3)],
        Some(1),
        &[1],
        &[],
    ),
    (
        &[Step::Hold("x", 1), Step::Hold("x", 1), Step::Unhold("x", 1)],
        None,
        &[],
        &[],
    ),
    // ids are compared as written, and may be empty
    (
        &[Step::Hold("X", 1), Step::Hold("", 2), Step::Refer("X", 3)],
        None,
        &[],
        &[],
    ),
    // holders and references do not mix
    (
        &[Step::Refer("x", 0), Step::Refer("x", 3)],
        None,
        &[],
        &[0, 3],
    ),
    (
        &[
            Step::Hold("x", 2),
            Step::Refer("x", 2),
            Step::Unhold("x", 2),
        ],
        None,
        &[],
        &[2],
    ),
    (
        &[
            Step::Refer("x", 1),
            Step::Refer("x", 2),
            Step::Refer("y", 1),
            Step::Unrefer("x", 1),
        ],
        None,
        &[],
        &[2],
    ),
];

/// Four elements: a root with two children, the first of which has a child.
fn tree(alloc: Global) -> Result<Option<Tree>, Memory> {
    let mut builder = TreeBuilder::new(alloc);
    for ends in [0, 0, 2, 2] {
        if !builder.accepts_node() {
            return Ok(None);
        }
        builder.start(Text::from_str(alloc, "n")?, List::new(alloc))?;
        for _end in 0..ends {
            if builder.is_inside() {
                builder.end();
            }
        }
    }
    if builder.is_whole() {
        Ok(Some(builder.finish()))
    } else {
        Ok(None)
    }
}

/// The keys in tree order.
fn keys_of(alloc: Global, arena: &Arena) -> Result<Vec<usize>, Memory> {
    let mut keys = Vec::new(alloc);
    let mut at = arena.root();
    'walk: for _step in 0..8 {
        keys.push(at)?;
        match arena.next_in_order(at) {
            Some(next) => at = next,
            None => break,
        }
    }
    Ok(keys)
}

/// The change of a step; none where no element has its place.
fn change_of(alloc: Global, step: Step, keys: &[usize]) -> Result<Option<IndexChange>, Memory> {
    let (Step::Hold(name, place)
    | Step::Unhold(name, place)
    | Step::Refer(name, place)
    | Step::Unrefer(name, place)) = step;
    let id = Text::from_str(alloc, name)?;
    let Some(key) = keys.get(place) else {
        return Ok(None);
    };
    let key = *key;
    Ok(Some(match step {
        Step::Hold(_, _) => IndexChange::Hold { id, key },
        Step::Unhold(_, _) => IndexChange::Unhold { id, key },
        Step::Refer(_, _) => IndexChange::Refer { id, key },
        Step::Unrefer(_, _) => IndexChange::Unrefer { id, key },
    }))
}

/// An index after the steps, in one go.
fn index_after(alloc: Global, steps: &[Step], keys: &[usize]) -> Result<Index, Memory> {
    let mut changes = List::new(alloc);
    for step in steps {
        if let Some(change) = change_of(alloc, *step, keys)? {
            changes.push(change)?;
        }
    }
    let mut index = Index::new(alloc);
    index.reserve_for(alloc, changes.as_slice())?;
    index.commit(changes);
    Ok(index)
}

/// Whether a node of the arena has this key.
fn is_live(arena: &Arena, key: usize) -> bool
    ensures live { IsTrue result → IsLive arena.now.tree key }
{
    let mut at = arena.root();
    'walk: for _step in 0..8 {
        if at == key {
            return true;
        }
        match arena.next_in_order(at) {
            Some(next) => at = next,
            None => return false,
        }
    }
    false
}

/// Whether nodes of the arena have these keys.
fn are_live(arena: &Arena, keys: &[usize]) -> bool
    ensures live { IsTrue result → (key : ℕ) → list_any (nat_eq key) keys.now ≡ true → IsLive arena.now.tree key }
{
    for key in keys {
        if !is_live(arena, *key) {
            return false;
        }
    }
    true
}

/// The first element that holds the id, where all that hold it are live.
fn first(index: &Index, arena: &Arena, id: &str) -> Option<usize> {
    if are_live(arena, index.holders(id)) {
        index.first(arena, id)
    } else {
        None
    }
}

/// Whether these are the keys at the places, in whatever order.
fn are_at(found: &[usize], keys: &[usize], places: &[usize]) -> bool {
    let mut all = found.len() == places.len();
    for place in places {
        all = all && keys.get(*place).is_some_and(|key| found.contains(key));
    }
    all
}

/// Whether the index after the steps of a row says what the row says.
fn comes_out(alloc: Global, arena: &Arena, row: &Row) -> Result<bool, Memory> {
    let keys = keys_of(alloc, arena)?;
    let keys = keys.as_slice();
    let index = index_after(alloc, row.0, keys)?;
    let want = match row.1 {
        Some(place) => keys.get(place).copied(),
        None => None,
    };
    Ok(
        first(&index, arena, "x") == want
            && are_at(index.holders("x"), keys, row.2)
            && are_at(index.references("x"), keys, row.3),
    )
}

#[test]
fn rows_come_out(rt: HostRuntime) -> Result<(), Fail> {
    let alloc = rt.alloc();
    let Some(tree) = tree(alloc)? else {
        assert!(rt; false);
        return Ok(());
    };
    assert!(rt; has_element_root(&tree));
    let arena = Arena::from_tree(alloc, &tree)?;
    for (place, row) in ROWS.iter().enumerate() {
        assert!(rt; comes_out(alloc, &arena, row)?, "row {place}");
    }
    Ok(())
}

/// That the element of key 1 holds `x`.
fn held(alloc: Global) -> Result<IndexChange, Memory>
    ensures change { IfOk result (λ change. change ≡ Hold (codes "x") 1) }
{
    let id = Text::from_str(alloc, "x")?;
    Ok(IndexChange::Hold { id, key: 1 })
}

/// That it does not.
fn unheld(alloc: Global) -> Result<IndexChange, Memory>
    ensures change { IfOk result (λ change. change ≡ Unhold (codes "x") 1) }
{
    let id = Text::from_str(alloc, "x")?;
    Ok(IndexChange::Unhold { id, key: 1 })
}

/// The list of one change.
fn alone(alloc: Global, change: IndexChange) -> Result<List<IndexChange>, Memory>
    ensures list { IfOk result (λ changes. changes ≡ change ∷ []) }
{
    let mut changes = List::new(alloc);
    changes.push(change)?;
    Ok(changes)
}

#[test]
fn a_change_and_its_way_back_are_reserved_together(rt: HostRuntime) -> Result<(), Fail> {
    let alloc = rt.alloc();
    let mut index = Index::new(alloc);
    let mut both = alone(alloc, held(alloc)?)?;
    both.push(unheld(alloc)?)?;
    index.reserve_for(alloc, both.as_slice())?;
    let change = alone(alloc, held(alloc)?)?;
    let back = alone(alloc, unheld(alloc)?)?;
    index.commit(change);
    assert!(rt; index.holders("x") == [1].as_slice());
    index.commit(back);
    assert!(rt; index.holders("x").is_empty());
    Ok(())
}
