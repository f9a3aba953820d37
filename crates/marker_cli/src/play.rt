//! The commands of a script, one after another.

ghost use Rattle.std.specs.Prelude.{◌≡◌, ◌≤◌, ◌+◌, ◌⊎◌, ℕ, List, None, Option, Some, IfErr, OnOk, OnErr, sum, unwrap_or};
ghost use Rattle.std.specs.Str.{chars};
ghost use Rattle.edit_script.specs.declared.command.Command as declared;
ghost use Rattle.edit_work.specs.KeyedSources.{KeyedSource};
ghost use Rattle.forest.specs.Keys.{without_keys};
ghost use Rattle.plain_types.specs.declared.edit.Edit.TheVariants as edits;
ghost use Rattle.node_arena.specs.Edits.{place_fault};
ghost use Rattle.ports.specs.Causes.{Raises, Rose, RoseAbove};
ghost use Rattle.ports.specs.Files.{Files};
ghost use Rattle.ports.specs.Grown.{grown, GrowsByFront};
ghost use Rattle.undo_ring.specs.Histories.{version_of};
ghost use Rattle.marker_cli.specs.declared.status.FileAt.TheVariants.{Line};
ghost use Rattle.marker_cli.specs.declared.status.Status.TheVariants as status;
ghost use Rattle.marker_cli.specs.Edit.{action_output, after_edit, after_step, no_document, nothing, play, shown};
ghost use Rattle.marker_cli.specs.EditSteps.{action_steps, edit_steps, left_by_edit, script_steps, show_steps, steps_with};
ghost use Rattle.marker_cli.specs.Editors.{AnswersStep, AreSameHistories, TellsNoneApart, depth_of, document_of, versions_of};
ghost use Rattle.marker_cli.specs.Ends.{EndsAs, IsCaused, IsPutCaused, IsStop, ReadsFailed, part_status};
ghost use Rattle.marker_cli.specs.Output.{Output};
ghost use Rattle.marker_cli.specs.Run.{action_size, commands_size, size_of};
ghost use Rattle.marker_cli.specs.Machinery.Stands.{Goes, Spends};
ghost use Rattle.marker_cli.specs.Machinery.Takings.{Takes, TakesStep};
ghost use Rattle.marker_cli.specs.Turns.{text_in, with_text};
ghost use Rattle.marker_cli.specs.Versions.{Versions, edited};
ghost use Rattle.marker_cli.specs.WorkSteps.{ActionTakes, EditTakes, ScriptTakes, StepTakes, TakenWith};

use crate::editor::Editor;
use crate::fetch_text::fetch_text;
use crate::put_number::put_numbered;
use crate::show::show;
use crate::status::{FileAt, Status};
use edit_script::action::Action;
use edit_script::command::Command;
use marker_engine::edit_fault::EditFault;
use marker_engine::engine::Engine;
use plain_types::edit::Edit;
use plain_types::text::Text;
use ports::shelf::Shelf;
use ports::sink::{Sink, put_all};
use std::alloc::Global;
use std::sync::ledger::Ledger;
use steps::Steps;
use undo_ring::undo_fault::UndoFault;

/// Does the edit of the line of this number, or tells that it is refused.
fn play_edit<O: Sink, L: Ledger>(
    alloc: Global,
    number: usize,
    edit: &Edit,
    editor: &mut Editor,
    out: &mut O,
    steps: &mut Steps<L>,
) -> Result<(), Status>
    ensures told { (next : Versions → Output) → TellsNoneApart next → Goes ⊥ (Rose (O.faults out.old) (O.faults out.new))
        (after_edit (depth_of editor.old) number edit.now (versions_of editor.old) (place_fault edit.now (versions_of editor.old).present.document) next)
        (O.out out.old) (O.out out.new) (next (versions_of editor.new)) result }
    ensures depth { depth_of editor.new ≡ depth_of editor.old }
    ensures cause { IsCaused ⊥ ⊥ ⊥ (Rose (O.faults out.old) (O.faults out.new)) (part_status result) }
    ensures stops { IfErr result IsStop }
    ensures faults { O.faults out.old ≤ O.faults out.new }
    ensures left { OnOk result (AreSameHistories (versions_of editor.new) (left_by_edit (depth_of editor.old) edit.now (versions_of editor.old) (place_fault edit.now (versions_of editor.old).present.document))) }
    ensures steps { steps.new ≤ steps.old + edit_steps (versions_of editor.old).present edit.now }
    ensures takes { (files : Files) (commands : List declared.Command) → let depth = depth_of editor.old in
        Takes (EditTakes (place_fault edit.now (without_keys (document_of editor.old).tree)) edit.now (document_of editor.old)
        (ScriptTakes files depth commands (versions_of editor.old) (document_of editor.old)) (ScriptTakes files depth commands (edited depth edit.now (versions_of editor.old))))
        (ScriptTakes files depth commands (versions_of editor.new) (document_of editor.new)) steps.old steps.new result }
{
    match editor.apply(alloc, edit, steps) {
        Ok(()) => Ok(()),
        Err(EditFault::NoPlace) => Ok(put_numbered(b"refused ", number, b" no-place\n", out)?),
        Err(EditFault::IntoItself) => Ok(put_numbered(
            b"refused ",
            number,
            b" into-itself\n",
            out,
        )?),
        Err(EditFault::Memory) => Err(Status::Memory),
    }
}

/// Puts the sheet of this text in the place of the sheet.
fn replace_sheet<L: Ledger>(
    alloc: Global,
    text: Text,
    editor: &mut Editor,
    steps: &mut Steps<L>,
) -> Result<(), Status>
    ensures ok { OnOk result (AreSameHistories (versions_of editor.new) (edited (depth_of editor.old) (edits.ReplaceSheet text) (versions_of editor.old))) }
    ensures depth { depth_of editor.new ≡ depth_of editor.old }
    ensures cause { IfErr result (λ error. error ≡ status.Memory) }
    ensures steps { steps.new ≤ steps.old + edit_steps (versions_of editor.old).present (edits.ReplaceSheet text) }
    ensures takes { (files : Files) (commands : List declared.Command) → let depth = depth_of editor.old in
        Takes (EditTakes None (edits.ReplaceSheet text) (document_of editor.old) (ScriptTakes files depth commands (versions_of editor.old) (document_of editor.old))
        (ScriptTakes files depth commands (edited depth (edits.ReplaceSheet text) (versions_of editor.old))))
        (ScriptTakes files depth commands (versions_of editor.new) (document_of editor.new)) steps.old steps.new result }
{
    match editor.apply(alloc, &Edit::ReplaceSheet { text }, steps) {
        Ok(()) => Ok(()),
        Err(_) => Err(Status::Memory),
    }
}

/// Reads the file that the line of this number names, and takes its text as the sheet.
fn play_sheet<S: Shelf, L: Ledger>(
    alloc: Global,
    number: usize,
    name: &str,
    editor: &mut Editor,
    shelf: &mut S,
    steps: &mut Steps<L>,
) -> Result<(), Status>
    ensures told { (files : Files) (before : Option (List ℕ)) (next : Versions → Output) → TellsNoneApart next → S.held shelf.old ≡ Some files
        → Goes (ReadsFailed (S.honest shelf.old) (S.faults shelf.old) (S.faults shelf.new)) ⊥
        (with_text files (Line number) (chars name.now) (λ text. next (edited (depth_of editor.old) (edits.ReplaceSheet text) (versions_of editor.old))))
        before before (next (versions_of editor.new)) result }
    ensures depth { depth_of editor.new ≡ depth_of editor.old }
    ensures cause { IsCaused ⊥ (Rose (S.faults shelf.old) (S.faults shelf.new)) (RoseAbove 16777216 (S.taken shelf.old) (S.taken shelf.new)) ⊥ (part_status result) }
    ensures stops { IfErr result IsStop }
    ensures faults { S.faults shelf.old ≤ S.faults shelf.new }
    ensures taken { S.taken shelf.old ≤ S.taken shelf.new }
    ensures held { S.held shelf.new ≡ S.held shelf.old }
    ensures honest { S.honest shelf.new ≡ S.honest shelf.old }
    ensures reads { (files : Files) → S.held shelf.old ≡ Some files → OnOk result (Raises (S.taken shelf.old) (S.taken shelf.new) (size_of files (chars name.now))) }
    ensures steps { (files : Files) (next : Versions → ℕ) → TellsNoneApart next → S.held shelf.old ≡ Some files
        → Spends (steps_with (text_in (Line number) (files (chars name.now))) (λ text. edit_steps (versions_of editor.old).present (edits.ReplaceSheet text) + next (edited (depth_of editor.old) (edits.ReplaceSheet text) (versions_of editor.old))))
        steps.old steps.new (next (versions_of editor.new)) result }
    ensures takes { (files : Files) (commands : List declared.Command) → S.held shelf.old ≡ Some files → let depth = depth_of editor.old in
        Takes (TakenWith (text_in (Line number) (files (chars name.now))) (λ text.
        EditTakes None (edits.ReplaceSheet text) (document_of editor.old) (ScriptTakes files depth commands (versions_of editor.old) (document_of editor.old))
        (ScriptTakes files depth commands (edited depth (edits.ReplaceSheet text) (versions_of editor.old)))))
        (ScriptTakes files depth commands (versions_of editor.new) (document_of editor.new)) steps.old steps.new result }
{
    let text = fetch_text(alloc, shelf, FileAt::Line(number), name)?;
    replace_sheet(alloc, text, editor, steps)
}

/// Puts what the `show` of the line of this number shows.
fn put_shown<O: Sink, L: Ledger>(
    alloc: Global,
    number: usize,
    engine: &Engine,
    out: &mut O,
    steps: &mut Steps<L>,
) -> Result<(), Status>
    ensures ok { OnOk result (O.out out.new ≡ grown (O.out out.old) (shown number (version_of engine.now))) }
    ensures failed { OnErr result (GrowsByFront (O.out out.old) (O.out out.new) (shown number (version_of engine.now))) }
    ensures cause { IsPutCaused (Rose (O.faults out.old) (O.faults out.new)) result }
    ensures faults { O.faults out.old ≤ O.faults out.new }
    ensures steps { steps.new ≤ steps.old + show_steps (version_of engine.now) }
{
    put_numbered(b"show ", number, b"\n", out)?;
    show(alloc, engine, out, steps)?;
    Ok(put_all(out, b"end\n")?)
}

/// Tells that the `undo` or the `redo` of the line of this number finds nothing, where that is what it was answered.
fn put_step<O: Sink>(
    number: usize,
    outcome: Result<(), UndoFault>,
    out: &mut O,
) -> Result<(), Status>
    ensures told { (versions left : Versions) (step : Option Versions) (next : Versions → Output) → TellsNoneApart next → AnswersStep outcome versions left step
        → Goes ⊥ (Rose (O.faults out.old) (O.faults out.new)) (after_step number versions step next) (O.out out.old) (O.out out.new) (next left) result }
    ensures cause { IsCaused ⊥ ⊥ ⊥ (Rose (O.faults out.old) (O.faults out.new)) (part_status result) }
    ensures stops { IfErr result IsStop }
    ensures faults { O.faults out.old ≤ O.faults out.new }
    ensures left { (versions left : Versions) (step : Option Versions) → AnswersStep outcome versions left step → OnOk result (AreSameHistories left (unwrap_or step versions)) }
    ensures takes { (files : Files) (depth : ℕ) (commands : List declared.Command) (versions left : Versions) (step : Option Versions) (before after : KeyedSource) (old new : ℕ)
        → AnswersStep outcome versions left step → TakesStep outcome step before after old new
        → Takes (StepTakes step versions before (ScriptTakes files depth commands)) (ScriptTakes files depth commands left after) old new result }
{
    match outcome {
        Ok(()) => Ok(()),
        Err(UndoFault::Nothing) => Ok(put_numbered(b"refused ", number, b" nothing\n", out)?),
        Err(UndoFault::Memory) => Err(Status::Memory),
    }
}

/// Tells that the `in` of the line of this number finds no document of its name.
pub fn put_no_document<O: Sink>(number: usize, out: &mut O) -> Result<(), Status>
    ensures ok { OnOk result (O.out out.new ≡ grown (O.out out.old) (no_document number)) }
    ensures failed { OnErr result (GrowsByFront (O.out out.old) (O.out out.new) (no_document number)) }
    ensures cause { IsPutCaused (Rose (O.faults out.old) (O.faults out.new)) result }
    ensures faults { O.faults out.old ≤ O.faults out.new }
{
    Ok(put_numbered(b"refused ", number, b" no-document\n", out)?)
}

/// Does one command.
fn play_command<S: Shelf, O: Sink, L: Ledger>(
    alloc: Global,
    command: &Command,
    editor: &mut Editor,
    shelf: &mut S,
    out: &mut O,
    steps: &mut Steps<L>,
) -> Result<(), Status>
    ensures told { (files : Files) (next : Versions → Output) → TellsNoneApart next → S.held shelf.old ≡ Some files
        → Goes (ReadsFailed (S.honest shelf.old) (S.faults shelf.old) (S.faults shelf.new)) (Rose (O.faults out.old) (O.faults out.new))
        (action_output files (depth_of editor.old) command.now.line command.now.action (versions_of editor.old) next) (O.out out.old) (O.out out.new) (next (versions_of editor.new)) result }
    ensures depth { depth_of editor.new ≡ depth_of editor.old }
    ensures cause { IsCaused ⊥ (Rose (S.faults shelf.old) (S.faults shelf.new)) (RoseAbove 16777216 (S.taken shelf.old) (S.taken shelf.new))
        (Rose (O.faults out.old) (O.faults out.new)) (part_status result) }
    ensures stops { IfErr result IsStop }
    ensures put_faults { O.faults out.old ≤ O.faults out.new }
    ensures faults { S.faults shelf.old ≤ S.faults shelf.new }
    ensures taken { S.taken shelf.old ≤ S.taken shelf.new }
    ensures held { S.held shelf.new ≡ S.held shelf.old }
    ensures honest { S.honest shelf.new ≡ S.honest shelf.old }
    ensures reads { (files : Files) → S.held shelf.old ≡ Some files → OnOk result (Raises (S.taken shelf.old) (S.taken shelf.new) (action_size files command.now.action)) }
    ensures steps { (files : Files) (next : Versions → ℕ) → TellsNoneApart next → S.held shelf.old ≡ Some files
        → Spends (action_steps files (depth_of editor.old) command.now.line command.now.action (versions_of editor.old) next) steps.old steps.new (next (versions_of editor.new)) result }
    ensures takes { (files : Files) (commands : List declared.Command) → S.held shelf.old ≡ Some files → let depth = depth_of editor.old in
        Takes (ActionTakes files depth command.now.line command.now.action (versions_of editor.old) (document_of editor.old) (ScriptTakes files depth commands))
        (ScriptTakes files depth commands (versions_of editor.new) (document_of editor.new)) steps.old steps.new result }
{
    let number = command.line;
    match &command.action {
        Action::Change(edit) => play_edit(alloc, number, edit, editor, out, steps),
        Action::SheetFile(name) => play_sheet(alloc, number, name.as_str(), editor, shelf, steps),
        Action::Show => put_shown(alloc, number, editor.engine(), out, steps),
        Action::Undo => put_step(number, editor.undo(alloc, steps), out),
        Action::Redo => put_step(number, editor.redo(alloc, steps), out),
        Action::Enter(_) => put_no_document(number, out),
    }
}

/// Does the commands, in their order.
pub fn play<S: Shelf, O: Sink, L: Ledger>(
    alloc: Global,
    commands: &[Command],
    editor: &mut Editor,
    shelf: &mut S,
    out: &mut O,
    steps: &mut Steps<L>,
) -> Result<(), Status>
    ensures told { (files : Files) → S.held shelf.old ≡ Some files
        → EndsAs (ReadsFailed (S.honest shelf.old) (S.faults shelf.old) (S.faults shelf.new)) (Rose (O.faults out.old) (O.faults out.new))
        (play files (depth_of editor.old) commands.now (versions_of editor.old)) (O.out out.old) (O.out out.new) (part_status result) }
    ensures cause { IsCaused ⊥ (Rose (S.faults shelf.old) (S.faults shelf.new)) (RoseAbove 16777216 (S.taken shelf.old) (S.taken shelf.new))
        (Rose (O.faults out.old) (O.faults out.new)) (part_status result) }
    ensures stops { IfErr result IsStop }
    ensures put_faults { O.faults out.old ≤ O.faults out.new }
    ensures reads { (files : Files) → S.held shelf.old ≡ Some files → OnOk result (Raises (S.taken shelf.old) (S.taken shelf.new) (commands_size files commands.now)) }
    ensures steps { (files : Files) → S.held shelf.old ≡ Some files → steps.new ≤ steps.old + script_steps files (depth_of editor.old) commands.now (versions_of editor.old) }
    ensures takes { (files : Files) → S.held shelf.old ≡ Some files
        → (taken : List ℕ) × ScriptTakes files (depth_of editor.old) commands.now (versions_of editor.old) (document_of editor.old) taken × (steps.new ≤ steps.old + sum taken) }
{
    for command in commands {
        play_command(alloc, command, editor, shelf, out, steps)?;
    }
    Ok(())
}
