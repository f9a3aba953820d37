//! What a walk tells otherwise than before.

ghost use Rattle.std.specs.Prelude.{◌≡◌, ◌≤◌, ◌+◌, if◌then◌else◌, All, IfOk, filter, length};
ghost use Rattle.forest.specs.Spots.{IsLink};
ghost use Rattle.edit_work.specs.KeyedSources.{is_among};
ghost use Rattle.merged_walk.specs.declared.stop.Stop.{Stop};
ghost use Rattle.reference_reach.specs.MergedNodes.{elements_at_stops};
ghost use Rattle.kept_elements.specs.News.{AreNewsOf, is_handed_as_held, is_news, passed_among};

use crate::kept::Kept;
use box_eval::element_record::ElementRecord;
use box_eval::inputs::Start;
use box_eval::made::Made;
use merged_walk::stop::Stop;
use node_arena::arena::Arena;
use plain_types::duplicate::Duplicate;
use plain_types::list::List;
use plain_types::memory::Memory;
use referring_elements::changed::changed_elements;
use referring_elements::elements::Elements;
use snapshot_board::board::Board;
use std::alloc::Global;
use std::sync::ledger::Ledger;
use steps::Steps;
use surroundings::surroundings::is_handed_the_same;
use surroundings::told::Told;
use surroundings::walked::Walked;

/// The same box once more.
fn share_made(alloc: Global, made: &Option<Made>) -> Result<Option<Made>, Memory>
    ensures same { IfOk result (λ same. same ≡ made.now) }
{
    match made {
        Some(made) => Ok(Some(Made {
            set: made.set.share(alloc)?,
            pieces: made.pieces.duplicate(alloc)?,
            changes: made.changes.duplicate(alloc)?,
        })),
        None => Ok(None),
    }
}

/// The same starts once more.
fn share_starts(alloc: Global, starts: &[Start]) -> Result<List<Start>, Memory>
    ensures same { IfOk result (λ same. same ≡ starts.now) }
{
    let mut same = List::new(alloc);
    for start in starts {
        same.push(Start {
            creator: start.creator,
            name: start.name.duplicate(alloc)?,
            value: start.value,
        })?;
    }
    Ok(same)
}

/// The same once more.
fn share_told(alloc: Global, told: &Told) -> Result<Told, Memory>
    ensures same { IfOk result (λ same. same ≡ told.now) }
{
    let said = &told.said;
    Ok(Told {
        said: ElementRecord {
            has_box: said.has_box,
            own: said.own.share(alloc)?,
            exit: said.exit.share(alloc)?,
            depth_before: said.depth_before,
            depth_after: said.depth_after,
            marker: share_made(alloc, &said.marker)?,
            before: share_made(alloc, &said.before)?,
            after: share_made(alloc, &said.after)?,
        },
        walked: told.walked.share(alloc)?,
        asks: told.asks,
        starts: share_starts(alloc, told.starts.as_slice())?,
        changes: told.changes.duplicate(alloc)?,
    })
}

/// Whether an element is handed what is held of it, and so is what comes behind its children. It is a step.
fn is_handed_as_held<L: Ledger>(
    board: &Board<Kept>,
    key: usize,
    walked: &Walked,
    steps: &mut Steps<L>,
) -> bool
    ensures test { result ≡ is_handed_as_held board.now.held key walked.now }
    ensures step { steps.new ≡ steps.old + 1 }
{
    match board.get(key, steps) {
        Some(kept) => {
            let held = &kept.walked;
            is_handed_the_same(held.handed.as_ref(), walked.handed.as_ref())
                && is_handed_the_same(held.behind.as_ref(), walked.behind.as_ref())
        }
        None => false,
    }
}

/// Whether an element is one of those that a merge enters, or is handed something else than is held of it. It is a step, and none
/// for one that the merge enters.
fn is_news<L: Ledger>(
    entered: &Elements,
    board: &Board<Kept>,
    key: usize,
    told: &Told,
    steps: &mut Steps<L>,
) -> bool
    ensures test { result ≡ is_news entered.now board.now.held (key, told.now) }
    ensures step { steps.new ≡ steps.old + (if is_among entered.now key then 0 else 1) }
{
    entered.has(key) || !is_handed_as_held(board, key, &told.walked, steps)
}

/// Of what was told those that are news. It is a step for each that the merge does not enter.
fn news_among<L: Ledger>(
    alloc: Global,
    entered: &Elements,
    told: &[(usize, Told)],
    board: &Board<Kept>,
    steps: &mut Steps<L>,
) -> Result<List<(usize, Told)>, Memory>
    ensures news { IfOk result (λ news. news ≡ filter (is_news entered.now board.now.held) told.now) }
    ensures steps { steps.new ≤ steps.old + length (passed_among entered.now told.now) }
{
    let mut news = List::new(alloc);
    for (key, one) in told {
        if is_news(entered, board, *key, one, steps) {
            news.push((*key, share_told(alloc, one)?))?;
        }
    }
    Ok(news)
}

/// Of what a walk from these stops has told of the elements of an edited document: that of those which the merge enters, and of
/// those that are handed something else than a board holds of them, or hand on something else. All others are told as before.
///
/// It is a step for each element that was told and that the merge does not enter: what the edit put in was not there before, and no
/// board is asked for it. It takes memory of the size of the news, and time linear in what was told, in the stops, and in the nodes
/// of the trees that are new.
pub fn news_of<L: Ledger>(
    alloc: Global,
    arena: &Arena,
    stops: &[Stop],
    told: &[(usize, Told)],
    board: &Board<Kept>,
    steps: &mut Steps<L>,
) -> Result<List<(usize, Told)>, Memory>
    requires live { All (λ (stop : Stop). IsLink arena.now.tree stop.link) stops.now }
    ensures found { IfOk result (λ news. news ≡ filter (is_news (elements_at_stops arena.now.tree stops.now) board.now.held) told.now) }
    ensures news { IfOk result (λ news. AreNewsOf stops.now arena.now.tree told.now board.now.held news) }
    ensures steps { steps.new ≤ steps.old + length told.now }
    ensures passed { steps.new ≤ steps.old + length (passed_among (elements_at_stops arena.now.tree stops.now) told.now) }
{
    let none: List<usize> = List::new(alloc);
    let entered = changed_elements(alloc, arena, stops, none.as_slice())?;
    news_among(alloc, &entered, told, board, steps)
}
