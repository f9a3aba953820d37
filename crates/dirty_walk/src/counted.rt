//! What comes to a board by an edit, by one walk or by two.

ghost use Rattle.std.specs.Prelude.{◌≡◌, ◌≤◌, ◌+◌, ◌*◌, ℕ, List, IfOk, OnErr, OnOk, length};
ghost use Rattle.forest.specs.Keys.{without_keys};
ghost use Rattle.generated_texts.specs.StyleElements.{author_sheet};
ghost use Rattle.target_index.specs.Holders.{is_holder, is_reference};
ghost use Rattle.document_walk.specs.Elements.{element_count};
ghost use Rattle.referring_elements.specs.Indexes.{IsIndexOf, TellsReferences};
ghost use Rattle.kept_elements.specs.Changes.{AreBelow, Renews, TellWere};
ghost use Rattle.kept_elements.specs.Evaluations.{document_kept, evaluated_document};
ghost use Rattle.started_walk.specs.Countings.{Counts};
ghost use Rattle.dirty_walk.specs.Countings.{IsSomeCountedEdit, StaysCounted};
ghost use Rattle.dirty_walk.specs.Machinery.CountedEdits.{IsWithinCounted, IsWithinCountedElements};
ghost use Rattle.dirty_walk.specs.Machinery.ReferenceExchanges.{HoldersStayReserved};
ghost use Rattle.dirty_walk.specs.Machinery.SecondWalks.{IsSomeSecondWalk, IsWithinSecond, IsWithinSecondElements};

use crate::places::changes_by_news;
use crate::read_ahead::ReadAhead;
use crate::styled_arena::StyledArena;
use box_eval::starts::NoStarts;
use document_walk::sources::Sources;
use kept_elements::kept::Kept;
use kept_elements::kept_change::KeptChange;
use kept_elements::news::news_of;
use merged_walk::stop::Stop;
use plain_types::memory::Memory;
use snapshot_board::board::Board;
use started_walk::counting::Counting;
use started_walk::twice::{Twice, walk_twice};
use std::alloc::Global;
use std::sync::ledger::Ledger;
use steps::Steps;
use surroundings::told::Told;
use target_index::index::Index;

/// What comes to a board where the second walk of an edit has told this of the edited document, from its stops with the ways to the
/// turned elements. The index has the references of that document then, or those from before where memory is wanting.
fn second_changes<L: Ledger>(
    alloc: Global,
    document: &StyledArena,
    ahead: &ReadAhead,
    index: &mut Index,
    board: &mut Board<Kept>,
    told: &[(usize, Told)],
    ways: &[Stop],
    steps: &mut Steps<L>,
) -> Result<Vec<(usize, KeptChange)>, Memory>
    requires walk { IsSomeSecondWalk document.now.styles.now.sheet board.old.held ways.now document.now.arena.now.tree ahead.now index.old told.now }
    requires count { length told.now ≤ element_count (without_keys document.now.arena.now.tree) }
    requires indexed { IsIndexOf index.old document.now.arena.now.tree }
    ensures refers { OnOk result (TellsReferences index.new (evaluated_document (author_sheet document.now.styles.now.sheet document.now.arena.now.tree) document.now.arena.now.tree)) }
    ensures err { OnErr result ((id : List ℕ) (key : ℕ) → is_reference index.new id key ≡ is_reference index.old id key) }
    ensures holders { (id : List ℕ) (key : ℕ) → is_holder index.new id key ≡ is_holder index.old id key }
    ensures stay { HoldersStayReserved index.old index.new }
    ensures changes { IfOk result (λ changes. Renews board.old.held (document_kept (author_sheet document.now.styles.now.sheet document.now.arena.now.tree) document.now.arena.now.tree) changes.items) }
    ensures were { IfOk result (λ changes. TellWere board.old.held changes.items) }
    ensures room { IfOk result (λ changes. AreBelow board.new.room changes.items) }
    ensures held { board.new.held ≡ board.old.held }
    ensures grown { board.old.room ≤ board.new.room }
    ensures few { IfOk result (λ changes. IsWithinSecond document.now.styles.now.sheet board.old.held ways.now document.now.arena.now.tree ahead.now index.old told.now steps.old (steps.new + 2 * length changes.items)) }
    ensures most { IsWithinSecond document.now.styles.now.sheet board.old.held ways.now document.now.arena.now.tree ahead.now index.old told.now steps.old steps.new }
    ensures steps { IsWithinSecondElements document.now.styles.now.sheet board.old.held ways.now document.now.arena.now.tree ahead.now index.old told.now steps.old steps.new }
{
    let news = news_of(alloc, document.arena, ways, told, board, steps)?;
    changes_by_news(alloc, document, ahead, index, ways, news, board, steps)
}

/// What comes to a board by an edit, whose walks begin at these stops; the document is the edited one already, and the index has its
/// ids, and then its references. What is kept for both walks is brought to the edited document; after `Memory` it is what was kept
/// before.
///
/// One walk evaluates what the edit touches with all starts 0. Where a box asks for a start, before the edit or after it, another one
/// does with the starts of the edited document. Then the texts are made again of what is told otherwise than before, and of the
/// elements that refer to it.
pub(crate) fn changes_at_place<L: Ledger>(
    alloc: Global,
    document: &StyledArena,
    ahead: &ReadAhead,
    index: &mut Index,
    board: &mut Board<Kept>,
    counting: &mut Counting,
    stops: &[Stop],
    steps: &mut Steps<L>,
) -> Result<Vec<(usize, KeptChange)>, Memory>
    requires place { IsSomeCountedEdit document.now.styles.now.sheet board.old.held stops.now document.now.arena.now.tree ahead.now index.old counting.old }
    requires indexed { IsIndexOf index.old document.now.arena.now.tree }
    ensures refers { OnOk result (TellsReferences index.new (evaluated_document (author_sheet document.now.styles.now.sheet document.now.arena.now.tree) document.now.arena.now.tree)) }
    ensures err { OnErr result ((id : List ℕ) (key : ℕ) → is_reference index.new id key ≡ is_reference index.old id key) }
    ensures holders { (id : List ℕ) (key : ℕ) → is_holder index.new id key ≡ is_holder index.old id key }
    ensures stay { HoldersStayReserved index.old index.new }
    ensures changes { IfOk result (λ changes. Renews board.old.held (document_kept (author_sheet document.now.styles.now.sheet document.now.arena.now.tree) document.now.arena.now.tree) changes.items) }
    ensures counts { OnOk result (Counts (record { tree = document.now.arena.now.tree; sheet = document.now.styles.now.sheet }) counting.new) }
    ensures stays_counted { OnErr result (StaysCounted counting.old counting.new) }
    ensures room { IfOk result (λ changes. AreBelow board.new.room changes.items) }
    ensures held { board.new.held ≡ board.old.held }
    ensures grown { board.old.room ≤ board.new.room }
    ensures few { IfOk result (λ changes. IsWithinCounted document.now.styles.now.sheet board.old.held stops.now document.now.arena.now.tree ahead.now index.old counting.old steps.old (steps.new + 2 * length changes.items)) }
    ensures most { IsWithinCounted document.now.styles.now.sheet board.old.held stops.now document.now.arena.now.tree ahead.now index.old counting.old steps.old steps.new }
    ensures steps { IsWithinCountedElements document.now.styles.now.sheet board.old.held stops.now document.now.arena.now.tree ahead.now index.old counting.old steps.old steps.new }
{
    let sources = Sources {
        arena: document.arena,
        agent: document.agent,
        author: &document.styles.author,
        table: &document.styles.table,
        starts: &NoStarts,
    };
    let Twice {
        told,
        stops: ways,
        zeros,
        back,
    } = walk_twice(alloc, &sources, counting, board, ahead.takes, stops, steps)?;
    match second_changes(
        alloc,
        document,
        ahead,
        index,
        board,
        told.as_slice(),
        ways.as_slice(),
        steps,
    ) {
        Ok(mut changes) => {
            counting.settle(alloc, ahead.takes, zeros, changes.as_mut_slice());
            Ok(changes)
        }
        Err(memory) => {
            counting.restore(back);
            Err(memory)
        }
    }
}
