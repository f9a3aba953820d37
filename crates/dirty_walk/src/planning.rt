//! What an edit makes of a book, once its document is the edited one.

ghost use Rattle.std.specs.Prelude.{◌≡◌, ◌≤◌, ◌+◌, ◌*◌, ℕ, List, None, true, is_some, length, unwrap_or, IfNone, IfOk, IfSome, OnErr, OnOk};
ghost use Rattle.forest.specs.Forest.{Forest};
ghost use Rattle.forest.specs.Keys.{Keyed, without_keys};
ghost use Rattle.plain_types.specs.declared.node.Node.{Node};
ghost use Rattle.node_arena.specs.Edits.{edited_sheet};
ghost use Rattle.document_walk.specs.Elements.{element_count};
ghost use Rattle.target_index.specs.Holders.{is_holder, is_reference};
ghost use Rattle.kept_elements.specs.Changes.{AreBelow, Renews};
ghost use Rattle.started_walk.specs.Countings.{Counts};
ghost use Rattle.dirty_walk.specs.Machinery.CountedEdits.{IsWithinEdit, IsWithinEditElements};
ghost use Rattle.dirty_walk.specs.Countings.{StandsCounted, StaysCounted};
ghost use Rattle.dirty_walk.specs.DocumentStyles.{document_styles, read_styles};
ghost use Rattle.dirty_walk.specs.Machinery.EditedArenas.{evaluated_after, kept_after, source_after, styles_after};
ghost use Rattle.dirty_walk.specs.Exchanges.{IsIndexBefore};
ghost use Rattle.referring_elements.specs.Indexes.{IsIndexOf, TellsReferences};
ghost use Rattle.dirty_walk.specs.Machinery.ReferenceExchanges.{HoldersStayReserved};

use crate::counted::changes_at_place;
use crate::document_styles::DocumentStyles;
use crate::edited_arena::EditedArena;
use crate::exchange::{ElementId, exchange_ids};
use crate::fresh::{Fresh, fresh_changes};
use crate::local_stops::LocalStops;
use crate::read_ahead::ReadAhead;
use crate::style_elements::style_texts;
use crate::styled_arena::StyledArena;
use kept_elements::kept::Kept;
use kept_elements::kept_change::KeptChange;
use node_arena::arena::Arena;
use plain_types::duplicate::Duplicate;
use plain_types::edit::Edit;
use plain_types::memory::Memory;
use plain_types::text::Text;
use snapshot_board::board::Board;
use started_walk::counting::Counting;
use std::alloc::Global;
use std::sync::ledger::Ledger;
use steps::Steps;
use styled_merge::stops::name_inserted_root;
use target_index::index::Index;

/// The text to which an edit replaces the sheet.
fn new_sheet(alloc: Global, edit: &Edit) -> Result<Option<Text>, Memory>
    ensures sheet { IfOk result (λ sheet. (old : List ℕ) → unwrap_or sheet old ≡ edited_sheet edit.now old) }
{
    match edit {
        Edit::ReplaceSheet { text } => Ok(Some(text.duplicate(alloc)?)),
        _ => Ok(None),
    }
}

/// What the document's style elements say now, and the edit's sheet, or else the one before, where these are not the
/// texts that were read already.
fn renewed_styles(
    alloc: Global,
    arena: &Arena,
    styles: &DocumentStyles,
    edit: &Edit,
) -> Result<Option<DocumentStyles>, Memory>
    requires read { styles.now ≡ read_styles styles.now.sheet styles.now.texts }
    ensures styles { IfOk result (λ new. unwrap_or new styles.now ≡ document_styles (edited_sheet edit.now styles.now.sheet) arena.now.tree) }
{
    let sheet = new_sheet(alloc, edit)?;
    let texts = style_texts(alloc, arena)?;
    styles.renewed(alloc, sheet, texts)
}

/// What an edit makes of a book whose document is the edited one already.
#[derive(Drop)]
pub(crate) struct Renewal {
    /// The styles, where they are others.
    pub(crate) styles: Option<DocumentStyles>,
    /// The index, where it is made anew.
    pub(crate) index: Option<Index>,
    /// What comes to the board.
    pub(crate) changes: Vec<(usize, KeptChange)>,
}

/// What an edit makes of a book by walks from the stops of the edit, where the key of what it put in is known now. What the sheets say
/// stays.
fn from_place<L: Ledger>(
    alloc: Global,
    document: &EditedArena,
    ahead: &ReadAhead,
    index: &mut Index,
    board: &mut Board<Kept>,
    counting: &mut Counting,
    local: LocalStops,
    steps: &mut Steps<L>,
) -> Result<Renewal, Memory>
    requires place { StandsCounted document.now.edit.now document.now.styles.now board.old.held local document.now.arena.now.tree ahead.now index.old counting.old }
    requires indexed { IsIndexOf index.old document.now.arena.now.tree }
    ensures styles { IfOk result (λ made. unwrap_or made.styles document.now.styles.now ≡ styles_after document.now) }
    ensures changes { IfOk result (λ made. Renews board.old.held (kept_after document.now) made.changes.items) }
    ensures counts { OnOk result (Counts (source_after document.now) counting.new) }
    ensures stays_counted { OnErr result (StaysCounted counting.old counting.new) }
    ensures index { IfOk result (λ made. made.index ≡ None) }
    ensures refers { OnOk result (TellsReferences index.new (evaluated_after document.now)) }
    ensures err { OnErr result ((id : List ℕ) (key : ℕ) → is_reference index.new id key ≡ is_reference index.old id key) }
    ensures holders { (id : List ℕ) (key : ℕ) → is_holder index.new id key ≡ is_holder index.old id key }
    ensures stay { HoldersStayReserved index.old index.new }
    ensures room { IfOk result (λ made. AreBelow board.new.room made.changes.items) }
    ensures held { board.new.held ≡ board.old.held }
    ensures grown { board.old.room ≤ board.new.room }
    ensures few { IfOk result (λ made. IsWithinEdit document.now.edit.now document.now.styles.now board.old.held local document.now.arena.now.tree ahead.now index.old counting.old steps.old (steps.new + 2 * length made.changes.items)) }
    ensures most { IsWithinEdit document.now.edit.now document.now.styles.now board.old.held local document.now.arena.now.tree ahead.now index.old counting.old steps.old steps.new }
    ensures steps { IsWithinEditElements document.now.edit.now document.now.styles.now board.old.held local document.now.arena.now.tree ahead.now index.old counting.old steps.old steps.new }
{
    let LocalStops { extent, mut stops } = local;
    name_inserted_root(document.arena, document.edit, extent, &mut stops);
    let styled = StyledArena {
        arena: document.arena,
        agent: document.agent,
        styles: document.styles,
    };
    let stops = stops.as_slice();
    let changes = changes_at_place(alloc, &styled, ahead, index, board, counting, stops, steps)?;
    Ok(Renewal {
        styles: None,
        index: None,
        changes,
    })
}

/// What an edit makes of a book where the whole document is evaluated. What is kept for both walks is made anew.
fn from_whole<L: Ledger>(
    alloc: Global,
    document: &EditedArena,
    board: &mut Board<Kept>,
    counting: &mut Counting,
    steps: &mut Steps<L>,
) -> Result<Renewal, Memory>
    ensures styles { IfOk result (λ made. unwrap_or made.styles document.now.styles.now ≡ styles_after document.now) }
    ensures changes { IfOk result (λ made. Renews board.old.held (kept_after document.now) made.changes.items) }
    ensures counts { OnOk result (Counts (source_after document.now) counting.new) }
    ensures same { OnErr result (counting.new ≡ counting.old) }
    ensures index { IfOk result (λ made. IfSome made.index (λ index. IsIndexOf index document.now.arena.now.tree × TellsReferences index (evaluated_after document.now))) }
    ensures some { IfOk result (λ made. is_some made.index ≡ true) }
    ensures room { IfOk result (λ made. AreBelow board.new.room made.changes.items) }
    ensures held { board.new.held ≡ board.old.held }
    ensures grown { board.old.room ≤ board.new.room }
    ensures steps { steps.new ≤ steps.old + 7 * element_count (without_keys document.now.arena.now.tree) }
{
    let new = renewed_styles(alloc, document.arena, document.styles, document.edit)?;
    let styled = StyledArena {
        arena: document.arena,
        agent: document.agent,
        styles: new.as_ref().unwrap_or(document.styles),
    };
    let Fresh {
        kept,
        index,
        counting: made,
    } = fresh_changes(alloc, &styled, board, steps)?;
    *counting = made;
    Ok(Renewal {
        styles: new,
        index: Some(index),
        changes: kept,
    })
}

/// What an edit makes of a book: by walks from its stops, or by the whole document where it has none.
fn renewed<L: Ledger>(
    alloc: Global,
    document: &EditedArena,
    ahead: &ReadAhead,
    index: &mut Index,
    board: &mut Board<Kept>,
    counting: &mut Counting,
    stops: Option<LocalStops>,
    steps: &mut Steps<L>,
) -> Result<Renewal, Memory>
    requires place { IfSome stops (λ local. StandsCounted document.now.edit.now document.now.styles.now board.old.held local document.now.arena.now.tree ahead.now index.old counting.old) }
    requires indexed { IsIndexOf index.old document.now.arena.now.tree }
    ensures styles { IfOk result (λ made. unwrap_or made.styles document.now.styles.now ≡ styles_after document.now) }
    ensures changes { IfOk result (λ made. Renews board.old.held (kept_after document.now) made.changes.items) }
    ensures counts { OnOk result (Counts (source_after document.now) counting.new) }
    ensures stays_counted { OnErr result (StaysCounted counting.old counting.new) }
    ensures index { IfOk result (λ made. IfSome made.index (λ index. IsIndexOf index document.now.arena.now.tree × TellsReferences index (evaluated_after document.now))) }
    ensures refers { IfOk result (λ made. IfNone made.index (TellsReferences index.new (evaluated_after document.now))) }
    ensures err { OnErr result ((id : List ℕ) (key : ℕ) → is_reference index.new id key ≡ is_reference index.old id key) }
    ensures holders { (id : List ℕ) (key : ℕ) → is_holder index.new id key ≡ is_holder index.old id key }
    ensures stay { HoldersStayReserved index.old index.new }
    ensures room { IfOk result (λ made. AreBelow board.new.room made.changes.items) }
    ensures held { board.new.held ≡ board.old.held }
    ensures grown { board.old.room ≤ board.new.room }
    ensures few { IfOk result (λ made. IfSome stops (λ local. IsWithinEdit document.now.edit.now document.now.styles.now board.old.held local document.now.arena.now.tree ahead.now index.old counting.old steps.old (steps.new + 2 * length made.changes.items))) }
    ensures most { IfSome stops (λ local. IsWithinEdit document.now.edit.now document.now.styles.now board.old.held local document.now.arena.now.tree ahead.now index.old counting.old steps.old steps.new) }
    ensures steps { IfSome stops (λ local. IsWithinEditElements document.now.edit.now document.now.styles.now board.old.held local document.now.arena.now.tree ahead.now index.old counting.old steps.old steps.new) }
    ensures whole { IfNone stops (steps.new ≤ steps.old + 7 * element_count (without_keys document.now.arena.now.tree)) }
{
    match stops {
        Some(local) => from_place(alloc, document, ahead, index, board, counting, local, steps),
        None => from_whole(alloc, document, board, counting, steps),
    }
}

/// What an edit makes of a book where the elements of its document that go are these. The index has the holders of the edited
/// document then, and its references, and what is kept for both walks is of that document; where memory is wanting both stay as they
/// were.
pub(crate) fn evaluated<L: Ledger>(
    alloc: Global,
    document: &EditedArena,
    ahead: &ReadAhead,
    index: &mut Index,
    board: &mut Board<Kept>,
    counting: &mut Counting,
    gone: &[ElementId],
    stops: Option<LocalStops>,
    steps: &mut Steps<L>,
) -> Result<Renewal, Memory>
    requires before { IsIndexBefore document.now.edit.now gone.now index.old document.now.arena.now.tree }
    requires place { IfSome stops (λ local. StandsCounted document.now.edit.now document.now.styles.now board.old.held local document.now.arena.now.tree ahead.now index.old counting.old) }
    ensures styles { IfOk result (λ made. unwrap_or made.styles document.now.styles.now ≡ styles_after document.now) }
    ensures changes { IfOk result (λ made. Renews board.old.held (kept_after document.now) made.changes.items) }
    ensures counts { OnOk result (Counts (source_after document.now) counting.new) }
    ensures stays_counted { OnErr result (StaysCounted counting.old counting.new) }
    ensures indexed { IfOk result (λ made. IsIndexOf (unwrap_or made.index index.new) document.now.arena.now.tree) }
    ensures refers { IfOk result (λ made. TellsReferences (unwrap_or made.index index.new) (evaluated_after document.now)) }
    ensures err { OnErr result ((id : List ℕ) (key : ℕ) → is_holder index.new id key ≡ is_holder index.old id key) }
    ensures references { OnErr result ((id : List ℕ) (key : ℕ) → is_reference index.new id key ≡ is_reference index.old id key) }
    ensures room { IfOk result (λ made. AreBelow board.new.room made.changes.items) }
    ensures held { board.new.held ≡ board.old.held }
    ensures grown { board.old.room ≤ board.new.room }
    ensures few { IfOk result (λ made. IfSome stops (λ local. IsWithinEdit document.now.edit.now document.now.styles.now board.old.held local document.now.arena.now.tree ahead.now index.old counting.old steps.old (steps.new + 2 * length made.changes.items))) }
    ensures most { IfSome stops (λ local. IsWithinEdit document.now.edit.now document.now.styles.now board.old.held local document.now.arena.now.tree ahead.now index.old counting.old steps.old steps.new) }
    ensures steps { IfSome stops (λ local. IsWithinEditElements document.now.edit.now document.now.styles.now board.old.held local document.now.arena.now.tree ahead.now index.old counting.old steps.old steps.new) }
    ensures whole { IfNone stops (steps.new ≤ steps.old + 7 * element_count (without_keys document.now.arena.now.tree)) }
{
    let back = exchange_ids(alloc, index, document.arena, document.edit, gone)?;
    match renewed(alloc, document, ahead, index, board, counting, stops, steps) {
        Ok(made) => Ok(made),
        Err(memory) => {
            index.commit(back);
            Err(memory)
        }
    }
}
