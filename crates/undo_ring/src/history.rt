//! Histories of edits.

ghost use Rattle.std.specs.Prelude.{◌≡◌, ◌↔◌, ◌≤◌, ◌+◌, ◌*◌, ◌∷◌, [], Ok, Err, IfOk, IfErr, IfSome, OnOk, OnErr, length, slice_get, take};
ghost use Rattle.std.specs.Str.{chars};
ghost use Rattle.dirty_walk.specs.Books.{keyed_source};
ghost use Rattle.dirty_walk.specs.WorkBounds.{IsWithinWork, StopsWithinWork};
ghost use Rattle.document_walk.specs.Elements.{element_count};
ghost use Rattle.edit_inverses.specs.Versions.{AreSameVersions};
ghost use Rattle.marker_engine.specs.declared.edit_fault.EditFault.TheVariants as faults;
ghost use Rattle.marker_engine.specs.Edited.{edited, edit_fault};
ghost use Rattle.marker_engine.specs.Engines.{source_of};
ghost use Rattle.node_arena.specs.Document.{HasElementRoot};
ghost use Rattle.node_arena.specs.Edits.{IsEdited};
ghost use Rattle.undo_ring.specs.declared.undo_fault.UndoFault.TheVariants as undo_faults;
ghost use Rattle.undo_ring.specs.Histories.{future, past, present};

use crate::taking::take_step;
use crate::undo_fault::UndoFault;
use circular_buffer::HeapCircularBuffer;
use edit_inverses::inverse::inverse_of;
use marker_engine::edit_fault::EditFault;
use marker_engine::engine::Engine;
use plain_types::edit::Edit;
use plain_types::memory::Memory;
use plain_types::tree::Tree;
use std::alloc::Global;
use std::marker::Model;
use std::sync::ledger::Ledger;
use steps::Steps;

/// A document under its sheet, whose last edits can be undone, and then redone.
pub struct History {
    pub(crate) engine: Engine,
    undos: HeapCircularBuffer<Edit>,
    redos: HeapCircularBuffer<Edit>,
}

impl Drop for History {
    fn drop(self) {
        let History {
            engine: _,
            undos: _,
            redos: _,
        } = self;
    }
}

impl Model for History {
    ghost use Rattle.marker_engine.specs.contracts.engine.Engine as kept_engine;
    ghost use Rattle.plain_types.specs.contracts.edit.Edit as kept_edit;
    ghost use Rattle.undo_ring.specs.Histories.{AreRings, EditHistory, coded_history, in_rings};

    ghost Value = { EditHistory };

    ghost coded = { coded_history kept_engine.the_row.coded kept_edit.the_row.coded };

    ghost view = { λ history. in_rings history.engine history.undos history.redos };

    ghost invariant = { λ history. AreRings history.engine history.undos history.redos };
}

impl History {
    /// A history that begins with a document and the text of its sheet. The root is an element. As many edits as `depth`
    /// says can be undone, the last ones.
    ///
    /// It takes time, memory and steps as `Engine::start`, and memory for `2 * depth` edits, of which none is there yet;
    /// `Memory` where that is wanting.
    pub fn start<L: Ledger>(
        alloc: Global,
        document: Tree,
        sheet: &str,
        depth: usize,
        steps: &mut Steps<L>,
    ) -> Result<History, Memory>
        requires element { HasElementRoot document }
        ensures present { IfOk result (λ history. present history ≡ record { document = document; sheet = chars sheet.now }) }
        ensures past { IfOk result (λ history. past history ≡ []) }
        ensures future { IfOk result (λ history. future history ≡ []) }
        ensures depth { IfOk result (λ history. history.depth ≡ depth) }
        ensures steps { steps.new ≤ steps.old + 7 * element_count document }
    {
        let undos = HeapCircularBuffer::with_capacity(alloc, depth)?;
        let redos = HeapCircularBuffer::with_capacity(alloc, depth)?;
        let engine = Engine::start(alloc, document, sheet, steps)?;
        Ok(History {
            engine,
            undos,
            redos,
        })
    }

    /// Does an edit, as `Engine::apply` does. It can be undone then, and nothing can be redone; where as many edits as
    /// `depth` says could be undone, the oldest of them can't any more. After a fault the history is as before.
    ///
    /// It takes what `Engine::apply` takes, and time and memory for the edit that undoes this one: of the size of what is
    /// removed, of the value that an attribute had, or of the former sheet.
    pub fn apply<L: Ledger>(
        &mut self,
        alloc: Global,
        edit: &Edit,
        steps: &mut Steps<L>,
    ) -> Result<(), EditFault>
        ensures present { OnOk result (edited (source_of self.old.book) edit.now ≡ Ok (source_of self.new.book)) }
        ensures past { OnOk result (AreSameVersions (past self.new) (take self.old.depth (present self.old ∷ past self.old))) }
        ensures future { OnOk result (future self.new ≡ []) }
        ensures keys { OnOk result (IsEdited edit.now self.old.book.tree self.new.book.tree) }
        ensures refused { IfErr (edited (source_of self.old.book) edit.now) (λ fault. result ≡ Err (edit_fault fault)) }
        ensures memory { IfOk (edited (source_of self.old.book) edit.now) (λ _. IfErr result (λ fault. fault ≡ faults.Memory)) }
        ensures failed { OnErr result (self.new ≡ self.old) }
        ensures depth { self.new.depth ≡ self.old.depth }
        ensures within_work { OnOk result (IsWithinWork edit.now (keyed_source self.old.book) (keyed_source self.new.book) steps.old steps.new) }
        ensures stops_within_work { OnErr result (StopsWithinWork edit.now (keyed_source self.old.book) steps.old steps.new) }
        ensures steps { IfOk (edited (source_of self.old.book) edit.now) (λ source. steps.new ≤ steps.old + (12 * element_count source.tree + 2 * element_count (source_of self.old.book).tree)) }
        ensures no_steps { IfErr (edited (source_of self.old.book) edit.now) (λ _. steps.new ≡ steps.old) }
    {
        if let Some(fault) = self.engine.can_apply(edit) {
            return Err(fault);
        }
        let inverse = inverse_of(alloc, self.engine.book().arena(), self.engine.sheet(), edit)?;
        self.engine.apply(alloc, edit, steps)?;
        let _oldest = self.undos.push_front(inverse);
        self.redos.clear();
        Ok(())
    }

    /// Undoes the last edit that was done and not undone: the document is as it was before that edit, but for the order
    /// of attributes, and the edit can be redone. After a fault the history is as before.
    ///
    /// It takes time, memory and steps as `apply` of the edit that undoes it.
    pub fn undo<L: Ledger>(&mut self, alloc: Global, steps: &mut Steps<L>) -> Result<(), UndoFault>
        ensures past { OnOk result (past self.old ≡ present self.new ∷ past self.new) }
        ensures future { OnOk result (AreSameVersions (future self.new) (present self.old ∷ future self.old)) }
        ensures nothing { (result ≡ Err undo_faults.Nothing) ↔ (past self.old ≡ []) }
        ensures failed { OnErr result (self.new ≡ self.old) }
        ensures keys { OnOk result (IfSome (slice_get self.old.undos 0) (λ edit. IsEdited edit self.old.book.tree self.new.book.tree)) }
        ensures depth { self.new.depth ≡ self.old.depth }
        ensures within_work { OnOk result (IfSome (slice_get self.old.undos 0) (λ edit. IsWithinWork edit (keyed_source self.old.book) (keyed_source self.new.book) steps.old steps.new)) }
        ensures stops_within_work { OnErr result (IfSome (slice_get self.old.undos 0) (λ edit. StopsWithinWork edit (keyed_source self.old.book) steps.old steps.new)) }
        ensures steps { IfSome (slice_get (past self.old) 0) (λ version. steps.new ≤ steps.old + (12 * element_count version.document + 2 * element_count (present self.old).document)) }
        ensures no_steps { past self.old ≡ [] → steps.new ≡ steps.old }
    {
        take_step(
            alloc,
            &mut self.engine,
            &mut self.undos,
            &mut self.redos,
            steps,
        )
    }

    /// Redoes the last edit that was undone and not redone: the document is as it was after that edit, but for the order
    /// of attributes, and the edit can be undone. After a fault the history is as before.
    ///
    /// It takes time, memory and steps as `apply` of the edit that it redoes.
    pub fn redo<L: Ledger>(&mut self, alloc: Global, steps: &mut Steps<L>) -> Result<(), UndoFault>
        ensures future { OnOk result (future self.old ≡ present self.new ∷ future self.new) }
        ensures past { OnOk result (AreSameVersions (past self.new) (present self.old ∷ past self.old)) }
        ensures nothing { (result ≡ Err undo_faults.Nothing) ↔ (future self.old ≡ []) }
        ensures failed { OnErr result (self.new ≡ self.old) }
        ensures keys { OnOk result (IfSome (slice_get self.old.redos 0) (λ edit. IsEdited edit self.old.book.tree self.new.book.tree)) }
        ensures depth { self.new.depth ≡ self.old.depth }
        ensures within_work { OnOk result (IfSome (slice_get self.old.redos 0) (λ edit. IsWithinWork edit (keyed_source self.old.book) (keyed_source self.new.book) steps.old steps.new)) }
        ensures stops_within_work { OnErr result (IfSome (slice_get self.old.redos 0) (λ edit. StopsWithinWork edit (keyed_source self.old.book) steps.old steps.new)) }
        ensures steps { IfSome (slice_get (future self.old) 0) (λ version. steps.new ≤ steps.old + (12 * element_count version.document + 2 * element_count (present self.old).document)) }
        ensures no_steps { future self.old ≡ [] → steps.new ≡ steps.old }
    {
        take_step(
            alloc,
            &mut self.engine,
            &mut self.redos,
            &mut self.undos,
            steps,
        )
    }

    /// The document under its sheet, as the edits leave it. It takes no memory and constant time.
    pub fn engine(&self) -> &Engine
        ensures engine { result.now ≡ self.now.book }
    {
        &self.engine
    }

    /// How many edits can be undone. It takes no memory and constant time.
    pub fn undo_count(&self) -> usize
        ensures count { result ≡ length (past self.now) }
    {
        self.undos.len()
    }

    /// How many edits can be redone. It takes no memory and constant time.
    pub fn redo_count(&self) -> usize
        ensures count { result ≡ length (future self.now) }
    {
        self.redos.len()
    }
}
