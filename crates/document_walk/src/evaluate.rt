//! The walk over a whole document.

ghost use Rattle.std.specs.Prelude.{◌≡◌, ◌∷◌, ◌+◌, ◌*◌, ◌≤◌, [], ℕ, None, Some, IfOk, true};
ghost use Rattle.std.specs.List.{list_any};
ghost use Rattle.forest.specs.Keys.{without_keys};
ghost use Rattle.box_eval.specs.Evaluation.{all_changes};
ghost use Rattle.box_eval.specs.Starts.{any_asks_for_start};
ghost use Rattle.merged_walk.specs.declared.stop.Way.TheVariants.{Anew};
ghost use Rattle.surroundings.specs.declared.told.Told.{Told};
ghost use Rattle.document_walk.specs.Catching.{document_of, reading, with_changes};
ghost use Rattle.document_walk.specs.CatchingUp.{told_all};
ghost use Rattle.document_walk.specs.Elements.{element_count};

use crate::catching::Catching;
use crate::sources::Sources;
use crate::walk::{begin, go};
use box_eval::change::Change;
use box_eval::starts::Starts;
use merged_walk::stop::{Stop, Way};
use plain_types::list::List;
use plain_types::memory::Memory;
use snapshot_board::board::Board;
use std::alloc::Global;
use std::sync::ledger::Ledger;
use steps::Steps;
use surroundings::told::Told;
use surroundings::walked::Walked;

/// What is told of the elements of a document, and what their boxes do to counters.
#[derive(Drop)]
pub struct Evaluated {
    /// What is told of each element, under its key, in the order in which the elements are left: the last is the
    /// root. Texts are not among them.
    pub told: List<(usize, Told)>,
    /// In tree order.
    pub changes: List<Change>,
    /// Whether some box creates a reversed counter without a number, and so asks for its start.
    pub asks: bool,
}

/// Evaluates a document.
///
/// It takes at most three steps an element, whatever it answers: one for its style, and two for its boxes. A text
/// takes none. Its stack is on the heap, of the size of the document's depth.
pub fn evaluate<L: Ledger, T: Starts>(
    alloc: Global,
    sources: &Sources<T>,
    steps: &mut Steps<L>,
) -> Result<Evaluated, Memory>
    ensures told { IfOk result (λ evaluated. evaluated.told ≡ told_all (reading T.starts sources.now) (document_of (reading T.starts sources.now))) }
    ensures changes { IfOk result (λ evaluated. evaluated.changes ≡ all_changes sources.now.table.now (document_of (reading T.starts sources.now))) }
    ensures asks { IfOk result (λ evaluated. evaluated.asks ≡ any_asks_for_start true (document_of (reading T.starts sources.now))) }
    ensures steps { steps.new ≤ steps.old + 3 * element_count (without_keys sources.now.arena.now.tree) }
{
    let none_yet = List::new(alloc);
    let walk = walk_all(alloc, sources, Some(none_yet), steps)?;
    let Catching { told, changes, .. } = walk;
    let asks = any_asks(told.as_slice());
    Ok(Evaluated {
        told,
        changes: changes.unwrap(),
        asks,
    })
}

/// What `evaluate` tells of the elements, and nothing beside: what their boxes do to counters isn't collected.
pub fn tell_all<L: Ledger, T: Starts>(
    alloc: Global,
    sources: &Sources<T>,
    steps: &mut Steps<L>,
) -> Result<List<(usize, Told)>, Memory>
    ensures told { IfOk result (λ told. told ≡ told_all (reading T.starts sources.now) (document_of (reading T.starts sources.now))) }
    ensures steps { steps.new ≤ steps.old + 3 * element_count (without_keys sources.now.arena.now.tree) }
{
    let walk = walk_all(alloc, sources, None, steps)?;
    Ok(walk.told)
}

/// A walk at the end of a document. It collects changes behind these, where there are such.
fn walk_all<L: Ledger, T: Starts>(
    alloc: Global,
    sources: &Sources<T>,
    changes: Option<List<Change>>,
    steps: &mut Steps<L>,
) -> Result<Catching, Memory>
    ensures told { IfOk result (λ walk. walk.told ≡ told_all (reading T.starts sources.now) (document_of (reading T.starts sources.now))) }
    ensures changes { IfOk result (λ walk. walk.changes ≡ with_changes changes (all_changes sources.now.table.now (document_of (reading T.starts sources.now)))) }
    ensures steps { steps.new ≤ steps.old + 3 * element_count (without_keys sources.now.arena.now.tree) }
{
    let board: Board<Walked> = Board::new(alloc);
    let root = sources.arena.root();
    let stops = stops_at(alloc, root)?;
    let mut walk = begin(alloc, sources, stops, changes)?;
    go(&mut walk, alloc, sources, &board, steps)?;
    Ok(walk)
}

/// The one stop of a document that comes, at its root.
fn stops_at(alloc: Global, root: usize) -> Result<Vec<Stop>, Memory>
    ensures stops { IfOk result (λ stops. stops.items ≡ record { depth = 0; link = Some root; way = Anew; from = None } ∷ []) }
{
    let mut stops = Vec::new(alloc);
    stops.push(Stop {
        depth: 0,
        link: Some(root),
        way: Way::Anew,
        from: None,
    })?;
    Ok(stops)
}

/// Whether one of these elements asks for the start of a reversed counter.
fn any_asks(told: &[(usize, Told)]) -> bool
    ensures test { result ≡ list_any (λ (entry : ℕ × Told). entry.1.asks) told.now }
{
    told.iter().any(|(_key, told)| told.asks)
}
