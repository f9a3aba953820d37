//! A document that the commands of a script change.

ghost use Rattle.std.specs.Prelude.{◌≡◌, ◌≤◌, ◌+◌, IfOk, OnErr};
ghost use Rattle.std.specs.Str.{chars};
ghost use Rattle.dirty_walk.specs.Books.{keyed_source};
ghost use Rattle.node_arena.specs.Document.{HasElementRoot, IsKeyedDocument};
ghost use Rattle.undo_ring.specs.Histories.{version_of};
ghost use Rattle.marker_cli.specs.Edit.{kept_edits};
ghost use Rattle.marker_cli.specs.EditSteps.{edit_steps, led_steps, start_steps};
ghost use Rattle.marker_cli.specs.Editors.{AnswersEdit, AnswersStep, depth_of, document_of, versions_of};
ghost use Rattle.marker_cli.specs.Machinery.Takings.{TakesEdit, TakesStep};
ghost use Rattle.marker_cli.specs.Versions.{begun, redone, undone};

use edit_merge::laws::inserts_one_tree;
use marker_engine::edit_fault::EditFault;
use marker_engine::engine::Engine;
use node_arena::laws::arena_holds_document;
use plain_types::edit::Edit;
use plain_types::memory::Memory;
use plain_types::tree::Tree;
use std::alloc::Global;
use std::sync::ledger::Ledger;
use steps::Steps;
use undo_ring::history::History;
use undo_ring::undo_fault::UndoFault;

/// A document under its sheet, without a history of its edits or with one. Without one an edit costs nothing beside itself.
#[derive(Drop)]
pub(crate) enum Editor {
    Plain(Engine),
    Versioned(History),
}

/// What an engine stands for is a document. The function does nothing: its contract is a law.
pub(crate) fn engine_holds_document(engine: &Engine)
    ensures { IsKeyedDocument engine.now.tree }
{
    arena_holds_document(engine.book().arena());
}

impl Editor {
    /// An editor that begins with a document and the text of its sheet. With a depth as many edits can be undone.
    pub(crate) fn start<L: Ledger>(
        alloc: Global,
        document: Tree,
        sheet: &str,
        depth: Option<u32>,
        steps: &mut Steps<L>,
    ) -> Result<Editor, Memory>
        requires element { HasElementRoot document }
        ensures versions { IfOk result (λ editor. versions_of editor ≡ begun (record { document = document; sheet = chars sheet.now })) }
        ensures depth { IfOk result (λ editor. depth_of editor ≡ kept_edits depth) }
        ensures steps { steps.new ≤ steps.old + start_steps document }
    {
        match depth {
            None => {
                let engine = Engine::start(alloc, document, sheet, steps)?;
                Ok(Editor::Plain(engine))
            }
            Some(depth) => {
                let depth = depth as usize;
                let history = History::start(alloc, document, sheet, depth, steps)?;
                Ok(Editor::Versioned(history))
            }
        }
    }

    /// The document under its sheet, as the commands leave it.
    pub(crate) fn engine(&self) -> &Engine
        ensures version { version_of result.now ≡ (versions_of self.now).present }
        ensures document { keyed_source result.now ≡ document_of self.now }
    {
        match self {
            Editor::Plain(engine) => engine,
            Editor::Versioned(history) => history.engine(),
        }
    }

    /// Does an edit, as `Engine::apply` does.
    pub(crate) fn apply<L: Ledger>(
        &mut self,
        alloc: Global,
        edit: &Edit,
        steps: &mut Steps<L>,
    ) -> Result<(), EditFault>
        ensures answer { AnswersEdit result (depth_of self.old) edit.now (versions_of self.old) (versions_of self.new) }
        ensures depth { depth_of self.new ≡ depth_of self.old }
        ensures steps { steps.new ≤ steps.old + edit_steps (versions_of self.old).present edit.now }
        ensures takes { TakesEdit result edit.now (document_of self.old) (document_of self.new) steps.old steps.new }
    {
        inserts_one_tree(edit);
        match self {
            Editor::Plain(engine) => {
                engine_holds_document(engine);
                let outcome = engine.apply(alloc, edit, steps);
                engine_holds_document(engine);
                outcome
            }
            Editor::Versioned(history) => {
                engine_holds_document(history.engine());
                let outcome = history.apply(alloc, edit, steps);
                engine_holds_document(history.engine());
                outcome
            }
        }
    }

    /// Undoes the last edit, if it can be undone.
    pub(crate) fn undo<L: Ledger>(
        &mut self,
        alloc: Global,
        steps: &mut Steps<L>,
    ) -> Result<(), UndoFault>
        ensures answer { AnswersStep result (versions_of self.old) (versions_of self.new) (undone (versions_of self.old)) }
        ensures depth { depth_of self.new ≡ depth_of self.old }
        ensures steps { steps.new ≤ steps.old + led_steps (versions_of self.old).present (undone (versions_of self.old)) }
        ensures takes { TakesStep result (undone (versions_of self.old)) (document_of self.old) (document_of self.new) steps.old steps.new }
    {
        match self {
            Editor::Plain(_) => Err(UndoFault::Nothing),
            Editor::Versioned(history) => {
                let outcome = history.undo(alloc, steps);
                engine_holds_document(history.engine());
                outcome
            }
        }
    }

    /// Redoes the last edit that was undone, if it can be redone.
    pub(crate) fn redo<L: Ledger>(
        &mut self,
        alloc: Global,
        steps: &mut Steps<L>,
    ) -> Result<(), UndoFault>
        ensures answer { AnswersStep result (versions_of self.old) (versions_of self.new) (redone (versions_of self.old)) }
        ensures depth { depth_of self.new ≡ depth_of self.old }
        ensures steps { steps.new ≤ steps.old + led_steps (versions_of self.old).present (redone (versions_of self.old)) }
        ensures takes { TakesStep result (redone (versions_of self.old)) (document_of self.old) (document_of self.new) steps.old steps.new }
    {
        match self {
            Editor::Plain(_) => Err(UndoFault::Nothing),
            Editor::Versioned(history) => {
                let outcome = history.redo(alloc, steps);
                engine_holds_document(history.engine());
                outcome
            }
        }
    }
}
