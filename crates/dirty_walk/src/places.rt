//! The stops of an edit, and what comes to a board by what a walk from there has told.

ghost use Rattle.std.specs.Prelude.{◌≡◌, ◌≢◌, ◌≤◌, ◌+◌, ◌*◌, ℕ, None, length, List, IfNone, IfOk, IfSome, OnErr, OnOk};
ghost use Rattle.forest.specs.Keys.{without_keys};
ghost use Rattle.generated_texts.specs.StyleElements.{author_sheet};
ghost use Rattle.document_walk.specs.Elements.{element_count};
ghost use Rattle.node_arena.specs.Edits.{place_fault};
ghost use Rattle.style_reach.specs.Reaches.{all_features, reach};
ghost use Rattle.style_reach.specs.declared.extent.Reach.TheVariants as reaches;
ghost use Rattle.styled_merge.specs.ReachStops.{reach_stops};
ghost use Rattle.generated_texts.specs.References.{known_targets};
ghost use Rattle.target_index.specs.Holders.{is_holder, is_reference};
ghost use Rattle.referring_elements.specs.Indexes.{IsIndexOf, TellsReferences};
ghost use Rattle.kept_elements.specs.Changes.{AreBelow, Renews, TellWere};
ghost use Rattle.kept_elements.specs.Evaluations.{all_kept_of, document_kept, evaluated_document};
ghost use Rattle.referring_elements.specs.References.{said_of};
ghost use Rattle.kept_elements.specs.RenewalSteps.{renewal_weight};
ghost use Rattle.kept_elements.specs.Renewals.{IsSomeWalk, evaluated_as};
ghost use Rattle.dirty_walk.specs.Machinery.ReferenceExchanges.{HoldersStayReserved};
ghost use Rattle.dirty_walk.specs.Machinery.SomeNews.{IsSomeNewsRead, IsWithinNews};

use crate::board::room_for;
use crate::local_stops::LocalStops;
use crate::read_ahead::ReadAhead;
use crate::reference_exchange::exchange_references;
use crate::styled_arena::StyledArena;
use kept_elements::kept::Kept;
use kept_elements::kept_change::KeptChange;
use kept_elements::renewed_texts::walked_entries;
use merged_walk::stop::Stop;
use mini_cascade::rule_table::RuleTable;
use node_arena::arena::Arena;
use plain_types::edit::Edit;
use plain_types::list::List;
use plain_types::memory::Memory;
use referring_elements::former::FormerTarget;
use snapshot_board::board::Board;
use std::alloc::Global;
use std::sync::ledger::Ledger;
use steps::Steps;
use style_reach::extent::Reach;
use style_reach::reach::{all_features, reach};
use styled_merge::stops::stops_of_reach;
use surroundings::told::Told;
use target_index::index::Index;

/// The stops of an edit that the document allows, before it is done, where what it changes can be told by walks from its place: it
/// does not change styles everywhere.
pub(crate) fn stops_at_place(
    alloc: Global,
    arena: &Arena,
    agent: &RuleTable,
    author: &RuleTable,
    edit: &Edit,
) -> Result<Option<LocalStops>, Memory>
    requires allowed { place_fault edit.now (without_keys arena.now.tree) ≡ None }
    ensures extent { IfOk result (λ found. IfSome found (λ local. local.extent ≡ reach (all_features agent.now author.now) arena.now.tree edit.now)) }
    ensures local { IfOk result (λ found. IfSome found (λ local. local.extent ≢ reaches.All)) }
    ensures stops { IfOk result (λ found. IfSome found (λ local. local.stops.items ≡ reach_stops local.extent edit.now 0 arena.now.tree)) }
    ensures none { IfOk result (λ found. IfNone found (reach (all_features agent.now author.now) arena.now.tree edit.now ≡ reaches.All)) }
{
    let extent = reach(arena, all_features(agent.sheet(), author.sheet()), edit);
    match extent {
        Reach::All => Ok(None),
        Reach::Own | Reach::Under(_) | Reach::Both(_, _) => {
            let stops = stops_of_reach(alloc, arena, edit, extent)?;
            Ok(Some(LocalStops { extent, stops }))
        }
    }
}

/// What comes to a board where a walk from these stops has told this of a document, whose references the index tells. The board
/// is given room for it.
fn walked_changes<L: Ledger>(
    alloc: Global,
    document: &StyledArena,
    index: &Index,
    stops: &[Stop],
    former: &[FormerTarget],
    told: List<(usize, Told)>,
    board: &mut Board<Kept>,
    steps: &mut Steps<L>,
) -> Result<Vec<(usize, KeptChange)>, Memory>
    requires indexed { IsIndexOf index.now document.now.arena.now.tree }
    requires walk { IsSomeWalk document.now.styles.now.table index.now former.now stops.now document.now.arena.now.tree told board.old.held }
    ensures renewal { IfOk result (λ changes. (walk : IsSomeWalk document.now.styles.now.table index.now former.now stops.now document.now.arena.now.tree told board.old.held) → Renews board.old.held (all_kept_of document.now.styles.now.table (known_targets document.now.styles.now.table document.now.arena.now.tree (said_of walk.is)) walk.is) changes.items) }
    ensures were { IfOk result (λ changes. TellWere board.old.held changes.items) }
    ensures room { IfOk result (λ changes. AreBelow board.new.room changes.items) }
    ensures held { board.new.held ≡ board.old.held }
    ensures grown { board.old.room ≤ board.new.room }
    ensures steps { steps.new ≤ steps.old + 2 * element_count (without_keys document.now.arena.now.tree) }
    ensures fewer { (walk : IsSomeWalk document.now.styles.now.table index.now former.now stops.now document.now.arena.now.tree told board.old.held) → steps.new ≤ steps.old + renewal_weight (evaluated_as walk.old walk.was) (evaluated_as document.now.arena.now.tree walk.is) walk.merge told }
    ensures few { IfOk result (λ changes. (walk : IsSomeWalk document.now.styles.now.table index.now former.now stops.now document.now.arena.now.tree told board.old.held) → length changes.items ≤ renewal_weight (evaluated_as walk.old walk.was) (evaluated_as document.now.arena.now.tree walk.is) walk.merge told) }
{
    let changes = walked_entries(
        alloc,
        document.arena,
        index,
        &document.styles.table,
        stops,
        former,
        told,
        board,
        steps,
    )?;
    let room = room_for(changes.as_slice())?;
    board.reserve(room)?;
    Ok(changes)
}

/// What comes to a board where a walk from these stops has told news of the edited document. The index has its references then, or
/// those from before where memory is wanting.
///
/// It is a step for each element that goes and for each of which there are news, and then as `walked_entries` says.
pub(crate) fn changes_by_news<L: Ledger>(
    alloc: Global,
    document: &StyledArena,
    ahead: &ReadAhead,
    index: &mut Index,
    stops: &[Stop],
    news: List<(usize, Told)>,
    board: &mut Board<Kept>,
    steps: &mut Steps<L>,
) -> Result<Vec<(usize, KeptChange)>, Memory>
    requires indexed { IsIndexOf index.old document.now.arena.now.tree }
    requires news { IsSomeNewsRead document.now.styles.now.sheet board.old.held stops.now document.now.arena.now.tree ahead.now index.old news }
    ensures refers { OnOk result (TellsReferences index.new (evaluated_document (author_sheet document.now.styles.now.sheet document.now.arena.now.tree) document.now.arena.now.tree)) }
    ensures err { OnErr result ((id : List ℕ) (key : ℕ) → is_reference index.new id key ≡ is_reference index.old id key) }
    ensures holders { (id : List ℕ) (key : ℕ) → is_holder index.new id key ≡ is_holder index.old id key }
    ensures stay { HoldersStayReserved index.old index.new }
    ensures changes { IfOk result (λ changes. Renews board.old.held (document_kept (author_sheet document.now.styles.now.sheet document.now.arena.now.tree) document.now.arena.now.tree) changes.items) }
    ensures were { IfOk result (λ changes. TellWere board.old.held changes.items) }
    ensures room { IfOk result (λ changes. AreBelow board.new.room changes.items) }
    ensures held { board.new.held ≡ board.old.held }
    ensures grown { board.old.room ≤ board.new.room }
    ensures few { IfOk result (λ changes. IsWithinNews document.now.styles.now.sheet board.old.held stops.now document.now.arena.now.tree ahead.now news steps.old (steps.new + 2 * length changes.items)) }
    ensures most { IsWithinNews document.now.styles.now.sheet board.old.held stops.now document.now.arena.now.tree ahead.now news steps.old steps.new }
    ensures steps { steps.new ≤ steps.old + (length ahead.now.takes.now + length news + 2 * element_count (without_keys document.now.arena.now.tree)) }
{
    let told = news.as_slice();
    let back = exchange_references(alloc, index, board, ahead.takes, told, steps)?;
    match walked_changes(
        alloc,
        document,
        index,
        stops,
        ahead.former,
        news,
        board,
        steps,
    ) {
        Ok(changes) => Ok(changes),
        Err(memory) => {
            index.commit(back);
            Err(memory)
        }
    }
}
