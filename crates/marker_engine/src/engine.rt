//! Documents under their sheets.

ghost use Rattle.std.specs.Prelude.{◌≡◌, ◌≤◌, ◌+◌, ◌*◌, Some, None, Ok, Err, IfOk, IfErr, OnOk, OnErr, length, true};
ghost use Rattle.std.specs.Str.{chars};
ghost use Rattle.changed_lines.specs.Changes.{changed_lines};
ghost use Rattle.dirty_walk.specs.Books.{Keeps, keyed_source};
ghost use Rattle.dirty_walk.specs.WorkBounds.{IsWithinWork, StopsWithinWork};
ghost use Rattle.generated_texts.specs.Lines.{document_lines, fresh_dump};
ghost use Rattle.node_arena.specs.Document.{HasElementRoot};
ghost use Rattle.node_arena.specs.Edits.{IsEdited};
ghost use Rattle.ports.specs.Grown.{grown, GrowsByFront};
ghost use Rattle.ports.specs.Puts.{HasPutCause};
ghost use Rattle.marker_engine.specs.declared.edit_fault.EditFault.TheVariants as faults;
ghost use Rattle.document_walk.specs.Elements.{element_count};
ghost use Rattle.marker_engine.specs.Census.{box_count, saturated};
ghost use Rattle.marker_engine.specs.Edited.{edited, edit_fault};
ghost use Rattle.marker_engine.specs.Engines.{source_of};

use crate::census::{Census, census_of};
use crate::edit_fault::EditFault;
use crate::lines::put_lines;
use changed_lines::changed_line::ChangedLine;
use dirty_walk::book::Book;
use edit_merge::laws::inserts_one_tree;
use generated_texts::laws::keys_do_not_matter;
use node_arena::laws::arena_holds_document;
use plain_types::edit::Edit;
use plain_types::memory::Memory;
use plain_types::tree::Tree;
use planned_lines::lines::changed_lines;
use ports::put_fault::PutFault;
use ports::sink::Sink;
use std::alloc::Global;
use std::marker::Model;
use std::sync::ledger::Ledger;
use steps::Steps;

/// A document and the text of its style sheet, evaluated.
pub struct Engine {
    book: Book,
}

impl Drop for Engine {
    fn drop(self) {
        let Engine { book: _ } = self;
    }
}

impl Model for Engine {
    ghost use Rattle.plain_types.specs.contracts.node.Node as node;
    ghost use Rattle.kept_elements.specs.contracts.kept.Kept as kept;
    ghost use Rattle.dirty_walk.specs.Books.{StyledDocument, coded_styled_document};
    ghost use Rattle.marker_engine.specs.Engines.{IsEvaluated};

    ghost Value = { StyledDocument };

    ghost coded = { coded_styled_document node.the_row.coded kept.the_row.coded };

    ghost view = { λ engine. engine.book };

    ghost invariant = { λ engine. IsEvaluated engine.book };
}

impl Engine {
    /// An engine that stands for a document and the text of its sheet. The root is an element.
    ///
    /// It takes time and memory linear in the document, its sheet and its texts, beside what sets and selectors
    /// cost, and for each reference time in the elements that hold its id, each by its depth; `Memory` where
    /// memory is wanting.
    pub fn start<L: Ledger>(
        alloc: Global,
        document: Tree,
        sheet: &str,
        steps: &mut Steps<L>,
    ) -> Result<Engine, Memory>
        requires element { HasElementRoot document }
        ensures tree { IfOk result (λ engine. (source_of engine).tree ≡ document) }
        ensures sheet { IfOk result (λ engine. engine.sheet ≡ chars sheet.now) }
        ensures keeps { IfOk result (λ engine. Keeps engine) }
        ensures steps { steps.new ≤ steps.old + 7 * element_count document }
    {
        let book = Book::begin(alloc, document, sheet, steps)?;
        Ok(Engine { book })
    }

    /// Why an edit can't be done, if it can't: the fault that `apply` would answer, want of memory aside. It takes no
    /// memory, and time linear in the lengths of the edit's paths.
    pub fn can_apply(&self, edit: &Edit) -> Option<EditFault>
        ensures allowed { IfOk (edited (source_of self.now) edit.now) (λ _. result ≡ None) }
        ensures refused { IfErr (edited (source_of self.now) edit.now) (λ fault. result ≡ Some (edit_fault fault)) }
    {
        self.book.arena().allows(edit).map(EditFault::from)
    }

    /// Does an edit. After a fault the document, its keys, the sheet and what is kept are as before, and a refused edit
    /// counts no step.
    ///
    /// Only what the edit touches is evaluated anew, and the elements whose styles it can change; and the texts of what refers
    /// to these are made again. Where an element asks for a start, before the edit or after it, two walks do this, and the elements
    /// are evaluated too whose starts are others than before. Where the edit can change styles everywhere, the edited document is
    /// evaluated whole, as `start` does it. The work of the edit bounds its steps, after `Memory` too. Beside that come the calls of
    /// the arena by which the edit is done. An entry that is another is put, and one whose element goes is taken.
    pub fn apply<L: Ledger>(
        &mut self,
        alloc: Global,
        edit: &Edit,
        steps: &mut Steps<L>,
    ) -> Result<(), EditFault>
        ensures ok { OnOk result (edited (source_of self.old) edit.now ≡ Ok (source_of self.new)) }
        ensures keys { OnOk result (IsEdited edit.now self.old.tree self.new.tree) }
        ensures keeps { Keeps self.new }
        ensures refused { IfErr (edited (source_of self.old) edit.now) (λ fault. result ≡ Err (edit_fault fault)) }
        ensures memory { IfOk (edited (source_of self.old) edit.now) (λ _. IfErr result (λ fault. fault ≡ faults.Memory)) }
        ensures failed { OnErr result (self.new ≡ self.old) }
        ensures within_work { OnOk result (IsWithinWork edit.now (keyed_source self.old) (keyed_source self.new) steps.old steps.new) }
        ensures stops_within_work { OnErr result (StopsWithinWork edit.now (keyed_source self.old) steps.old steps.new) }
        ensures steps { IfOk (edited (source_of self.old) edit.now) (λ source. steps.new ≤ steps.old + (12 * element_count source.tree + 2 * element_count (source_of self.old).tree)) }
        ensures no_steps { IfErr (edited (source_of self.old) edit.now) (λ _. steps.new ≡ steps.old) }
    {
        if let Some(fault) = self.book.arena().allows(edit) {
            return Err(fault.into());
        }
        let plan = self.book.plan(alloc, edit, steps)?;
        self.book.commit(plan, steps);
        Ok(())
    }

    /// Does an edit as [`Engine::apply`] does it, and tells which lines of the dump it changes: exactly those of `changed_lines`,
    /// with their paths in the edited document, in tree order. Where an edit was not done, all is as before, as after
    /// `apply`. Where it was done and memory was wanting for its lines alone, it stays done, and they are not told.
    ///
    /// Telling takes one step at most for each changed line, on top of what `apply` promises: one for each element that has
    /// such lines, and none for an element of which only counters are other. So it is one more at most for each element of the
    /// edited document; and the work of the edit bounds its steps with telling too. Where a line is changed, it takes memory
    /// linear in the number of the entries that come and in the lines; and time linear in the nodes from the first element to the
    /// last that has a changed line, in the texts of these elements, and for each of them in the greatest depth of any.
    pub fn apply_and_tell<L: Ledger>(
        &mut self,
        alloc: Global,
        edit: &Edit,
        steps: &mut Steps<L>,
    ) -> Result<Result<Vec<ChangedLine>, Memory>, EditFault>
        ensures ok { OnOk result (edited (source_of self.old) edit.now ≡ Ok (source_of self.new)) }
        ensures keys { OnOk result (IsEdited edit.now self.old.tree self.new.tree) }
        ensures keeps { Keeps self.new }
        ensures told { IfOk result (λ told. IfOk told (λ lines. lines.items ≡ changed_lines (keyed_source self.old) (keyed_source self.new))) }
        ensures refused { IfErr (edited (source_of self.old) edit.now) (λ fault. result ≡ Err (edit_fault fault)) }
        ensures memory { IfOk (edited (source_of self.old) edit.now) (λ _. IfErr result (λ fault. fault ≡ faults.Memory)) }
        ensures failed { OnErr result (self.new ≡ self.old) }
        ensures within_work { OnOk result (IsWithinWork edit.now (keyed_source self.old) (keyed_source self.new) steps.old steps.new) }
        ensures stops_within_work { OnErr result (StopsWithinWork edit.now (keyed_source self.old) steps.old steps.new) }
        ensures steps { IfOk (edited (source_of self.old) edit.now) (λ source. steps.new ≤ steps.old + (13 * element_count source.tree + 2 * element_count (source_of self.old).tree)) }
        ensures line_steps { IfOk (edited (source_of self.old) edit.now) (λ source. steps.new ≤ steps.old + ((12 * element_count source.tree + 2 * element_count (source_of self.old).tree) + length (changed_lines (keyed_source self.old) (keyed_source self.new)))) }
        ensures no_steps { IfErr (edited (source_of self.old) edit.now) (λ _. steps.new ≡ steps.old) }
    {
        if let Some(fault) = self.book.arena().allows(edit) {
            return Err(EditFault::from(fault));
        }
        arena_holds_document(self.book.arena());
        inserts_one_tree(edit);
        let plan = self.book.plan(alloc, edit, steps)?;
        arena_holds_document(self.book.edited_arena());
        let told = changed_lines(alloc, &self.book, &plan, steps);
        self.book.commit(plan, steps);
        Ok(told)
    }

    /// The book that the engine keeps, which is settled. It takes no memory and constant time.
    pub fn book(&self) -> &Book
        ensures book { result.now ≡ self.now }
        ensures settled { result.now.settled ≡ true }
    {
        &self.book
    }

    /// The document, a copy of its own. It takes memory of the size of the document, and time linear in it; `Memory`
    /// where that is wanting.
    pub fn document(&self, alloc: Global) -> Result<Tree, Memory>
        ensures tree { IfOk result (λ tree. tree ≡ (source_of self.now).tree) }
    {
        self.book.arena().to_tree(alloc)
    }

    /// Puts the dump of the document to `out`: a line for each marker, before and after box, in tree order. Where
    /// it fails, a front of the dump went out.
    ///
    /// It takes time linear in the document and the bytes of the dump, and memory for the path of one node and for
    /// the nodes that it is in: none for a line, once there is room for these. The texts are there already: what is
    /// kept of an element is looked up once.
    pub fn show<O: Sink, L: Ledger>(
        &self,
        alloc: Global,
        out: &mut O,
        steps: &mut Steps<L>,
    ) -> Result<(), PutFault>
        ensures ok { OnOk result (O.out out.new ≡ grown (O.out out.old) (fresh_dump self.now.sheet (source_of self.now).tree)) }
        ensures failed { OnErr result (GrowsByFront (O.out out.old) (O.out out.new) (fresh_dump self.now.sheet (source_of self.now).tree)) }
        ensures cause { HasPutCause (O.faults out.old) (O.faults out.new) result }
        ensures steps { steps.new ≤ steps.old + element_count (source_of self.now).tree }
    {
        // The book has keys of its own, and the lines are those of any keys.
        arena_holds_document(self.book.arena());
        keys_do_not_matter();
        put_lines(alloc, &self.book, out, steps)
    }

    /// The text of the sheet. It takes no memory and constant time.
    pub fn sheet(&self) -> &str
        ensures text { chars result.now ≡ self.now.sheet }
    {
        self.book.sheet()
    }

    /// The numbers of the document's elements, of the boxes of its evaluation, and of the lines of its dump.
    ///
    /// It takes time linear in the document and no memory. What is kept of an element is looked up once.
    pub fn census<L: Ledger>(&self, steps: &mut Steps<L>) -> Census
        ensures elements { result.elements ≡ saturated (element_count (source_of self.now).tree) }
        ensures boxes { result.boxes ≡ saturated (box_count self.now.sheet (source_of self.now).tree) }
        ensures lines { result.lines ≡ saturated (length (document_lines self.now.sheet (source_of self.now).tree)) }
        ensures steps { steps.new ≤ steps.old + element_count (source_of self.now).tree }
    {
        arena_holds_document(self.book.arena());
        keys_do_not_matter();
        census_of(&self.book, steps)
    }
}
