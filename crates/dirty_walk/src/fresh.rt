//! A fresh evaluation of a document under its styles.

ghost use Rattle.std.specs.Prelude.{◌≡◌, ◌≤◌, ◌+◌, ◌*◌, true, IfOk};
ghost use Rattle.forest.specs.Keys.{without_keys};
ghost use Rattle.generated_texts.specs.Documents.{agent_sheet};
ghost use Rattle.generated_texts.specs.StyleElements.{author_sheet};
ghost use Rattle.document_walk.specs.Elements.{element_count};
ghost use Rattle.dirty_walk.specs.Books.{HasRoomFor, KeepsAll};
ghost use Rattle.started_walk.specs.Countings.{Counts};
ghost use Rattle.kept_elements.specs.Changes.{AreBelow, Renews};
ghost use Rattle.dirty_walk.specs.DocumentStyles.{document_styles};
ghost use Rattle.kept_elements.specs.Evaluations.{document_kept, evaluated_document};
ghost use Rattle.referring_elements.specs.Indexes.{IsIndexOf, TellsReferences};

use crate::board::room_for;
use crate::document_styles::DocumentStyles;
use crate::evaluation::{ToldDocument, document_changes, document_told, put_document_entries};
use crate::index::index_with;
use crate::styled_arena::StyledArena;
use css_reader::sheet::read_sheet;
use kept_elements::kept::Kept;
use kept_elements::kept_change::KeptChange;
use mini_cascade::agent_sheet::AGENT_SHEET;
use mini_cascade::rule_table::RuleTable;
use node_arena::arena::Arena;
use node_arena::laws::arena_holds_document;
use plain_types::memory::Memory;
use snapshot_board::board::Board;
use started_walk::counting::Counting;
use std::alloc::Global;
use std::sync::ledger::Ledger;
use steps::Steps;
use target_index::index::Index;

/// The user agent's style sheet.
pub(crate) fn agent_sheet(alloc: Global) -> Result<RuleTable, Memory>
    ensures sheet { IfOk result (λ sheet. sheet ≡ agent_sheet) }
{
    RuleTable::new(alloc, read_sheet(alloc, AGENT_SHEET)?)
}

/// What a fresh evaluation of a document makes.
#[derive(Drop)]
pub(crate) struct Fresh<K> {
    /// What is kept of its elements.
    pub(crate) kept: K,
    /// The index of their ids and references.
    pub(crate) index: Index,
    /// What is kept for the two walks of an edit.
    pub(crate) counting: Counting,
}

/// A board with what is kept of a document's elements, and the index. One walk evaluates the document, and where a box
/// creates a reversed counter without a number a second one, with the starts that the first one tells. Then it is a step
/// for each element.
pub(crate) fn fresh_board<L: Ledger>(
    alloc: Global,
    arena: &Arena,
    agent: &RuleTable,
    styles: &DocumentStyles,
    steps: &mut Steps<L>,
) -> Result<Fresh<Board<Kept>>, Memory>
    requires agent { agent.now ≡ agent_sheet }
    requires styles { styles.now ≡ document_styles styles.now.sheet arena.now.tree }
    ensures keeps { IfOk result (λ made. KeepsAll (record { tree = arena.now.tree; sheet = styles.now.sheet; settled = true; kept = made.kept.held })) }
    ensures room { IfOk result (λ made. HasRoomFor made.kept.room arena.now.tree) }
    ensures indexed { IfOk result (λ made. IsIndexOf made.index arena.now.tree) }
    ensures refers { IfOk result (λ made. TellsReferences made.index (evaluated_document (author_sheet styles.now.sheet arena.now.tree) arena.now.tree)) }
    ensures counts { IfOk result (λ made. Counts (record { tree = arena.now.tree; sheet = styles.now.sheet }) made.counting) }
    ensures steps { steps.new ≤ steps.old + 7 * element_count (without_keys arena.now.tree) }
{
    arena_holds_document(arena);
    let document = StyledArena {
        arena,
        agent,
        styles,
    };
    let ToldDocument { told, counting } = document_told(alloc, &document, steps)?;
    let records = told.as_slice();
    let index = index_with(alloc, arena, records)?;
    let room = room_for(records)?;
    let mut board = Board::new(alloc);
    board.reserve(room)?;
    put_document_entries(
        alloc,
        arena,
        &index,
        &styles.table,
        records,
        &mut board,
        steps,
    )?;
    Ok(Fresh {
        kept: board,
        index,
        counting,
    })
}

/// What is kept of a document's elements and is not on a board, which is given room for it, and the index. The document is
/// evaluated as for `fresh_board`, and then it is a step for each element.
pub(crate) fn fresh_changes<L: Ledger>(
    alloc: Global,
    document: &StyledArena,
    board: &mut Board<Kept>,
    steps: &mut Steps<L>,
) -> Result<Fresh<Vec<(usize, KeptChange)>>, Memory>
    ensures changes { IfOk result (λ made. Renews board.old.held (document_kept (author_sheet document.now.styles.now.sheet document.now.arena.now.tree) document.now.arena.now.tree) made.kept.items) }
    ensures indexed { IfOk result (λ made. IsIndexOf made.index document.now.arena.now.tree) }
    ensures refers { IfOk result (λ made. TellsReferences made.index (evaluated_document (author_sheet document.now.styles.now.sheet document.now.arena.now.tree) document.now.arena.now.tree)) }
    ensures counts { IfOk result (λ made. Counts (record { tree = document.now.arena.now.tree; sheet = document.now.styles.now.sheet }) made.counting) }
    ensures room { IfOk result (λ made. AreBelow board.new.room made.kept.items) }
    ensures held { board.new.held ≡ board.old.held }
    ensures grown { board.old.room ≤ board.new.room }
    ensures steps { steps.new ≤ steps.old + 7 * element_count (without_keys document.now.arena.now.tree) }
{
    arena_holds_document(document.arena);
    let ToldDocument { told, counting } = document_told(alloc, document, steps)?;
    let records = told.as_slice();
    let index = index_with(alloc, document.arena, records)?;
    let changes = document_changes(
        alloc,
        document.arena,
        &index,
        &document.styles.table,
        records,
        board,
        steps,
    )?;
    let room = room_for(changes.as_slice())?;
    board.reserve(room)?;
    Ok(Fresh {
        kept: changes,
        index,
        counting,
    })
}
