//! A document and its sheet, evaluated.

ghost use Rattle.std.specs.Prelude.{◌≡◌, ◌≢◌, ◌≤◌, ◌+◌, ◌*◌, true, false, Some, None, IfNone, IfSome, IsSome, length, unwrap_or, IfOk, OnErr, option_copied};
ghost use Rattle.std.specs.Str.{chars};
ghost use Rattle.forest.specs.Keys.{without_keys};
ghost use Rattle.node_arena.specs.Document.{HasElementRoot};
ghost use Rattle.node_arena.specs.Edits.{place_fault, edited, edited_sheet, IsEdited};
ghost use Rattle.node_arena.specs.Nodes.{name_of};
ghost use Rattle.node_arena.specs.Reversals.{IsSettled};
ghost use Rattle.css_reader.specs.Features.{features};
ghost use Rattle.generated_texts.specs.Documents.{counter_styles};
ghost use Rattle.generated_texts.specs.References.{first_holder};
ghost use Rattle.generated_texts.specs.StyleElements.{author_sheet};
ghost use Rattle.document_walk.specs.Elements.{element_count};
ghost use Rattle.style_reach.specs.Reaches.{reach};
ghost use Rattle.style_reach.specs.declared.extent.Reach.TheVariants as reaches;
ghost use Rattle.styled_merge.specs.Laws.{looks_beside};
ghost use Rattle.styled_merge.specs.ReachStops.{reach_stops};
ghost use Rattle.kept_elements.specs.Changes.{entry_at};
ghost use Rattle.dirty_walk.specs.Books.{fresh_entry, Keeps, keyed_source};
ghost use Rattle.dirty_walk.specs.DocumentStyles.{document_styles};
ghost use Rattle.dirty_walk.specs.Exchanges.{elements_in, leaving, taken_keys};
ghost use Rattle.dirty_walk.specs.FormerTargets.{AreFormerTargetsOf};
ghost use Rattle.dirty_walk.specs.FreshPieces.{fresh_pieces};
ghost use Rattle.dirty_walk.specs.Plans.{settled_after, IsPlannedBy, plan_size};
ghost use Rattle.dirty_walk.specs.WorkBounds.{IsWithinWork, StopsWithinWork};

use crate::board::{put_changes, take_entries};
use crate::document_styles::DocumentStyles;
use crate::edited_arena::EditedArena;
use crate::exchange::{ElementId, inserts_one_tree, leaving_elements, taken_keys};
use crate::former_targets::former_targets;
use crate::fresh::{Fresh, agent_sheet, fresh_board};
use crate::kept_pieces::kept_pieces;
use crate::local_stops::LocalStops;
use crate::places::stops_at_place;
use crate::plan::Plan;
use crate::planning::{Renewal, evaluated};
use crate::read_ahead::ReadAhead;
use crate::style_elements::style_texts;
use content_eval::generated::Piece;
use generated_texts::entry::NodeEntry;
use kept_elements::kept::Kept;
use mini_cascade::rule_table::RuleTable;
use node_arena::arena::Arena;
use node_arena::laws::arena_holds_document;
use node_arena::reversal::Reversal;
use plain_types::box_kind::BoxKind;
use plain_types::edit::Edit;
use plain_types::list::List;
use plain_types::memory::Memory;
use plain_types::sheet::{Features, Sheet};
use plain_types::table::Table;
use plain_types::text::Text;
use plain_types::tree::Tree;
use referring_elements::former::FormerTarget;
use referring_elements::holders::first_holder;
use snapshot_board::board::Board;
use started_walk::counting::Counting;
use std::alloc::Global;
use std::marker::Model;
use std::sync::ledger::Ledger;
use steps::Steps;
use target_index::index::Index;

/// A document and the text of its sheet, with what they say of styles, the index of the ids, and what a fresh
/// evaluation keeps of each element. Each sheet is read once.
///
/// Where an edit is planned the document and the styles are the edited ones already, and only `commit` may follow.
pub struct Book {
    arena: Arena,
    /// The user agent's sheet.
    agent: RuleTable,
    styles: DocumentStyles,
    /// What is kept of the elements. While an edit is planned it is what was kept before.
    board: Board<Kept>,
    /// The index of the ids and the references of its elements.
    index: Index,
    /// What is kept for the two walks of an edit.
    counting: Counting,
    /// The way back from an edit that is planned.
    planned: Option<Reversal>,
}

impl Drop for Book {
    fn drop(self) {
        let Book {
            arena: _,
            agent: _,
            styles: _,
            board: _,
            index: _,
            counting: _,
            planned: _,
        } = self;
    }
}

impl Model for Book {
    ghost use Rattle.std.specs.Prelude.{is_none};
    ghost use Rattle.plain_types.specs.contracts.node.Node as node;
    ghost use Rattle.kept_elements.specs.contracts.kept.Kept as kept;
    ghost use Rattle.dirty_walk.specs.Books.{IsBook, StyledDocument, coded_styled_document};

    ghost Value = { StyledDocument };

    ghost coded = { coded_styled_document node.the_row.coded kept.the_row.coded };

    ghost view = { λ book. record { tree = book.arena.tree; sheet = book.styles.sheet; settled = is_none book.planned; kept = book.board.held } };

    ghost invariant = { λ book. IsBook book.arena book.agent book.styles book.board book.index book.counting book.planned (record { tree = book.arena.tree; sheet = book.styles.sheet; settled = is_none book.planned; kept = book.board.held }) };
}

/// An arena that stands for a document, whose tree is let go.
fn arena_of(alloc: Global, document: Tree) -> Result<Arena, Memory>
    requires element { HasElementRoot document }
    ensures tree { IfOk result (λ arena. without_keys arena.tree ≡ document) }
    ensures settled { IfOk result (λ arena. IsSettled arena) }
{
    Arena::from_tree(alloc, &document)
}

/// The styles of a document under the sheet of this text, read.
fn first_styles(alloc: Global, arena: &Arena, sheet: &str) -> Result<DocumentStyles, Memory>
    ensures styles { IfOk result (λ styles. styles ≡ document_styles (chars sheet.now) arena.now.tree) }
{
    let sheet = Text::from_str(alloc, sheet)?;
    let texts = style_texts(alloc, arena)?;
    DocumentStyles::read(alloc, sheet, texts)
}

fn replace_styles(styles: &mut DocumentStyles, new: Option<DocumentStyles>)
    ensures { styles.new ≡ unwrap_or new styles.old }
{
    if let Some(new) = new {
        *styles = new;
    }
}

fn replace_index(index: &mut Index, new: Option<Index>)
    ensures { index.new ≡ unwrap_or new index.old }
{
    if let Some(new) = new {
        *index = new;
    }
}

/// What is read of a document before an edit of it is done.
#[derive(Drop)]
struct Ahead {
    /// The elements that the edit takes out, or the one whose attributes it changes.
    gone: List<ElementId>,
    /// The keys of the elements that the document has no longer then.
    takes: List<usize>,
    /// Where a walk for the edit goes, where a walk can tell what the edit changes.
    stops: Option<LocalStops>,
    /// What the ids name that the edit can give another target.
    former: List<FormerTarget>,
}

impl Book {
    /// The book of a document and the text of its sheet. The root is an element.
    ///
    /// It takes time and memory linear in the document, its sheet and its texts, beside what sets and selectors
    /// cost; a reference takes time in its id and in what it writes, however many elements have that id. `Memory` where
    /// memory is wanting.
    pub fn begin<L: Ledger>(
        alloc: Global,
        document: Tree,
        sheet: &str,
        steps: &mut Steps<L>,
    ) -> Result<Book, Memory>
        requires element { HasElementRoot document }
        ensures tree { IfOk result (λ book. without_keys book.tree ≡ document) }
        ensures sheet { IfOk result (λ book. book.sheet ≡ chars sheet.now) }
        ensures settled { IfOk result (λ book. book.settled ≡ true) }
        ensures keeps { IfOk result (λ book. Keeps book) }
        ensures steps { steps.new ≤ steps.old + 7 * element_count document }
    {
        let arena = arena_of(alloc, document)?;
        let styles = first_styles(alloc, &arena, sheet)?;
        let agent = agent_sheet(alloc)?;
        arena_holds_document(&arena);
        let Fresh {
            kept: board,
            index,
            counting,
        } = fresh_board(alloc, &arena, &agent, &styles, steps)?;
        Ok(Book {
            arena,
            agent,
            styles,
            board,
            index,
            counting,
            planned: None,
        })
    }

    /// What is read of the document before an edit that it allows.
    fn ahead(&self, alloc: Global, edit: &Edit) -> Result<Ahead, Memory>
        requires settled { self.now.settled ≡ true }
        requires allowed { place_fault edit.now (without_keys self.now.tree) ≡ None }
        ensures gone { IfOk result (λ ahead. ahead.gone ≡ elements_in (leaving edit.now self.now.tree)) }
        ensures takes { IfOk result (λ ahead. ahead.takes ≡ taken_keys edit.now (elements_in (leaving edit.now self.now.tree))) }
        ensures former { IfOk result (λ ahead. AreFormerTargetsOf edit.now self.now.tree ahead.former) }
        ensures extent { IfOk result (λ ahead. IfSome ahead.stops (λ local. local.extent ≡ reach (looks_beside self.now.sheet self.now.tree) self.now.tree edit.now)) }
        ensures local { IfOk result (λ ahead. IfSome ahead.stops (λ local. local.extent ≢ reaches.All)) }
        ensures stops { IfOk result (λ ahead. IfSome ahead.stops (λ local. local.stops.items ≡ reach_stops local.extent edit.now 0 self.now.tree)) }
        ensures none { IfOk result (λ ahead. IfNone ahead.stops (reach (looks_beside self.now.sheet self.now.tree) self.now.tree edit.now ≡ reaches.All)) }
    {
        let gone = leaving_elements(alloc, &self.arena, edit)?;
        let takes = taken_keys(alloc, edit, gone.as_slice())?;
        let stops = stops_at_place(alloc, &self.arena, &self.agent, &self.styles.author, edit)?;
        let former = former_targets(alloc, &self.arena, &self.index, edit, gone.as_slice())?;
        Ok(Ahead {
            gone,
            takes,
            stops,
            former,
        })
    }

    /// Makes ready for an edit that the document allows. The document and its styles are then the edited ones, and all
    /// memory is taken that `commit` needs; `Memory` where that is wanting, and then the book is as before.
    ///
    /// Only what the edit touches is evaluated, and the elements whose styles it can change; and the texts are made again of the
    /// elements that refer to any of these, or to an id that names another element now, and of those that refer to such ones. Where
    /// a box of the document asks for the start of a reversed counter, before the edit or after it, two walks do this: one with all
    /// starts 0, and one with the starts of the edited document, which also goes to the elements whose starts are others. Where the
    /// edit can change all styles, the edited document is evaluated whole, which costs what `begin` costs; where the texts of the
    /// sheet and of the style elements are as before, none is read. Beside that come the arena's `prepare` and `commit`.
    /// What is as before stays where it is, and with it what it has in memory. With those of `commit`, and with one more for each
    /// entry that comes, its steps are bounded by the work of the edit; so are its own where it answers `Memory`.
    pub fn plan<L: Ledger>(
        &mut self,
        alloc: Global,
        edit: &Edit,
        steps: &mut Steps<L>,
    ) -> Result<Plan, Memory>
        requires settled { self.old.settled ≡ true }
        requires allowed { place_fault edit.now (without_keys self.old.tree) ≡ None }
        ensures planned { IfOk result (λ plan. IsPlannedBy self.new plan) }
        ensures kept { IfOk result (λ _. self.new.kept ≡ self.old.kept) }
        ensures document { IfOk result (λ plan. IsEdited edit.now self.old.tree (settled_after self.new plan).tree) }
        ensures sheet { IfOk result (λ plan. (settled_after self.new plan).sheet ≡ edited_sheet edit.now self.old.sheet) }
        ensures err { OnErr result (self.new ≡ self.old) }
        ensures within_work { IfOk result (λ plan. IsWithinWork edit.now (keyed_source self.old) (keyed_source (settled_after self.new plan)) steps.old (steps.new + (plan_size plan + length plan.puts.items))) }
        ensures stops_within_work { OnErr result (StopsWithinWork edit.now (keyed_source self.old) steps.old steps.new) }
        ensures steps { steps.new ≤ steps.old + (11 * element_count (edited edit.now (without_keys self.old.tree)) + element_count (without_keys self.old.tree)) }
        ensures puts { IfOk result (λ plan. length plan.puts.items ≤ element_count (edited edit.now (without_keys self.old.tree))) }
        ensures size { IfOk result (λ plan. plan_size plan ≤ element_count (edited edit.now (without_keys self.old.tree)) + element_count (without_keys self.old.tree)) }
    {
        arena_holds_document(&self.arena);
        inserts_one_tree(edit);
        let Ahead {
            gone,
            takes,
            stops,
            former,
        } = self.ahead(alloc, edit)?;
        let prepared = self.arena.prepare(alloc, edit)?;
        let reversal = self.arena.commit(prepared);
        arena_holds_document(&self.arena);
        let document = EditedArena {
            arena: &self.arena,
            agent: &self.agent,
            styles: &self.styles,
            edit,
        };
        let ahead = ReadAhead {
            takes: takes.as_slice(),
            former: former.as_slice(),
        };
        let gone = gone.as_slice();
        let index = &mut self.index;
        let board = &mut self.board;
        let counting = &mut self.counting;
        match evaluated(
            alloc, &document, &ahead, index, board, counting, gone, stops, steps,
        ) {
            Ok(made) => {
                let Renewal {
                    styles,
                    index,
                    changes,
                } = made;
                replace_styles(&mut self.styles, styles);
                replace_index(&mut self.index, index);
                self.planned = Some(reversal);
                Ok(Plan {
                    puts: changes,
                    takes,
                })
            }
            Err(memory) => {
                self.arena.revert(reversal);
                Err(memory)
            }
        }
    }

    /// Does the planned edit: of what is kept some goes, and then some comes. It takes no memory, and time linear in
    /// that and in the nodes that the edit took out. It is a step for each entry that comes or goes.
    pub fn commit<L: Ledger>(&mut self, plan: Plan, steps: &mut Steps<L>)
        requires planned { IsPlannedBy self.old plan }
        ensures settled { self.new ≡ settled_after self.old plan }
        ensures keeps { Keeps self.new }
        ensures steps { steps.new ≡ steps.old + plan_size plan }
    {
        arena_holds_document(&self.arena);
        let Plan { puts, takes } = plan;
        take_entries(&mut self.board, takes.as_slice(), steps);
        put_changes(&mut self.board, puts, steps);
        if let Some(reversal) = self.planned.take() {
            self.arena.settle(reversal);
        }
    }

    /// The document under its keys, of which none is used that no node has. It takes no memory and constant time.
    pub fn arena(&self) -> &Arena
        requires settled { self.now.settled ≡ true }
        ensures tree { result.now.tree ≡ self.now.tree }
        ensures keys { IsSettled result.now }
    {
        &self.arena
    }

    /// The text of the sheet. It takes no memory and constant time.
    pub fn sheet(&self) -> &str
        requires settled { self.now.settled ≡ true }
        ensures text { chars result.now ≡ self.now.sheet }
    {
        self.styles.sheet.as_str()
    }

    /// The sheet that the document has of its author: that of the sheet's text, and behind it those of its style
    /// elements. It takes no memory and constant time.
    pub fn author(&self) -> &Sheet
        requires settled { self.now.settled ≡ true }
        ensures sheet { result.now ≡ author_sheet self.now.sheet self.now.tree }
    {
        self.styles.author.sheet()
    }

    /// What the selectors of this sheet look at. It takes no memory and constant time.
    pub fn features(&self) -> Features
        requires settled { self.now.settled ≡ true }
        ensures features { result ≡ features (author_sheet self.now.sheet self.now.tree) }
    {
        self.styles.features
    }

    /// What is kept of the element of this key, as it was put there. It takes no memory, constant time, and one step at
    /// most.
    pub fn entry<L: Ledger>(&self, key: usize, steps: &mut Steps<L>) -> &NodeEntry
        requires settled { self.now.settled ≡ true }
        requires element { IsSome (name_of self.now.tree key) }
        ensures entry { Some result.now ≡ fresh_entry self.now key }
        ensures held { Some result.now ≡ entry_at self.now.kept key }
        ensures steps { steps.new ≤ steps.old + 1 }
    {
        // The document has distinct keys, and then something is kept of exactly its elements.
        arena_holds_document(&self.arena);
        &self.board.get(key, steps).unwrap().entry
    }

    /// The counter styles under the document's sheet. It takes no memory and constant time.
    pub fn table(&self) -> &Table
        requires settled { self.now.settled ≡ true }
        ensures table { result.now ≡ counter_styles (author_sheet self.now.sheet self.now.tree) }
    {
        &self.styles.table
    }

    /// The first element in tree order that has this id, which is compared as written. It takes no memory, and time in the
    /// number of elements that have it, for each of them linear in how deep they are.
    pub fn first(&self, id: &str) -> Option<usize>
        requires settled { self.now.settled ≡ true }
        ensures first { result ≡ first_holder self.now.tree (chars id.now) }
        ensures element { IfSome result (λ key. IsSome (name_of self.now.tree key)) }
    {
        arena_holds_document(&self.arena);
        first_holder(&self.index, &self.arena, id)
    }

    /// The pieces of this box of the element of this key, where one of them has a url, whatever the url names. None where
    /// there is no such box, and where its pieces are characters alone, which then are the texts in the element's entry. It
    /// takes no memory, time linear in the pieces, and one step at most.
    pub fn pieces<L: Ledger>(
        &self,
        key: usize,
        kind: BoxKind,
        steps: &mut Steps<L>,
    ) -> Option<&[Piece]>
        requires settled { self.now.settled ≡ true }
        ensures pieces { option_copied result ≡ fresh_pieces self.now key kind }
        ensures steps { steps.new ≤ steps.old + 1 }
    {
        arena_holds_document(&self.arena);
        kept_pieces(self.board.get(key, steps), kind)
    }

    /// The document of a book whose edit is planned, which is the edited one already. It takes no memory and constant time.
    pub fn edited_arena(&self) -> &Arena
        requires planned { self.now.settled ≡ false }
        ensures tree { result.now.tree ≡ self.now.tree }
    {
        &self.arena
    }

    /// What was kept under this key before the edit that is planned: nothing of a node that it brings. It takes no memory,
    /// constant time, and one step.
    pub fn former<L: Ledger>(&self, key: usize, steps: &mut Steps<L>) -> Option<&NodeEntry>
        requires planned { self.now.settled ≡ false }
        ensures entry { option_copied result ≡ entry_at self.now.kept key }
        ensures step { steps.new ≡ steps.old + 1 }
    {
        Some(&self.board.get(key, steps)?.entry)
    }
}
