//! The commands `edit DOC SHEET SCRIPT` and `history DOC SHEET SCRIPT DEPTH`.

ghost use Rattle.std.specs.Prelude.{◌≡◌, ◌≤◌, ◌+◌, ℕ, IfErr, List, Ok, OnOk, Result, Some};
ghost use Rattle.std.specs.Str.{chars};
ghost use Rattle.edit_script.specs.declared.command.Command as command;
ghost use Rattle.ports.specs.Causes.{Raises, Rose, RoseAbove};
ghost use Rattle.ports.specs.Files.{Files};
ghost use Rattle.marker_cli.specs.Documents.{DocumentReadsAs, Reading};
ghost use Rattle.marker_cli.specs.Edit.{ScriptReadsAs, edit_output, kind_of};
ghost use Rattle.marker_cli.specs.EditSteps.{most_edit_steps};
ghost use Rattle.marker_cli.specs.Ends.{EndsAs, IsCaused, IsStop, ReadsFailed, part_status};
ghost use Rattle.marker_cli.specs.Names.{TellsOfLine};
ghost use Rattle.marker_cli.specs.Run.{commands_in, commands_size, size_of};
ghost use Rattle.marker_cli.specs.WorkSteps.{IsScriptWithinWork};

use crate::editor::{Editor, engine_holds_document};
use crate::fetch_text::fetch_text;
use crate::play::play;
use crate::read_texts::{read_commands, read_tree};
use crate::status::{FileAt, Status};
use edit_script::command::Command;
use edit_script::script_kind::ScriptKind;
use plain_types::list::List;
use ports::shelf::Shelf;
use ports::sink::Sink;
use std::alloc::Global;
use std::sync::ledger::Ledger;
use steps::Steps;

/// The kind of a script: with a depth it has a history.
fn script_kind(depth: Option<u32>) -> ScriptKind
    ensures { result ≡ kind_of depth }
{
    match depth {
        None => ScriptKind::Edits,
        Some(_) => ScriptKind::History,
    }
}

/// Does the commands of the script of that name with the document and the sheet of these names. The commands are
/// left in `commands` once they are read: they have the names of the files that the script's lines name. With a depth
/// they may undo and redo edits, as many as the depth says.
pub fn edit<S: Shelf, O: Sink, L: Ledger>(
    alloc: Global,
    document: &str,
    sheet: &str,
    script: &str,
    depth: Option<u32>,
    commands: &mut List<Command>,
    shelf: &mut S,
    out: &mut O,
    steps: &mut Steps<L>,
) -> Result<(), Status>
    ensures told { (files : Files) (reading : Reading) (read : Result (List command.Command) ℕ) → S.held shelf.old ≡ Some files
        → DocumentReadsAs files (chars document.now) (chars sheet.now) reading → ScriptReadsAs files (chars document.now) (chars sheet.now) (chars script.now) (kind_of depth) read
        → EndsAs (ReadsFailed (S.honest shelf.old) (S.faults shelf.old) (S.faults shelf.new)) (Rose (O.faults out.old) (O.faults out.new))
        (edit_output files (chars document.now) (chars sheet.now) (chars script.now) depth reading read) (O.out out.old) (O.out out.new) (part_status result) }
    ensures commands { (files : Files) (read : Result (List command.Command) ℕ) → S.held shelf.old ≡ Some files
        → ScriptReadsAs files (chars document.now) (chars sheet.now) (chars script.now) (kind_of depth) read → TellsOfLine (part_status result) → read ≡ Ok commands.new }
    ensures cause { IsCaused ⊥ (Rose (S.faults shelf.old) (S.faults shelf.new)) (RoseAbove 16777216 (S.taken shelf.old) (S.taken shelf.new))
        (Rose (O.faults out.old) (O.faults out.new)) (part_status result) }
    ensures faults { O.faults out.old ≤ O.faults out.new }
    ensures stops { IfErr result IsStop }
    ensures reads { (files : Files) (read : Result (List command.Command) ℕ) → S.held shelf.old ≡ Some files
        → ScriptReadsAs files (chars document.now) (chars sheet.now) (chars script.now) (kind_of depth) read → OnOk result (Raises (S.taken shelf.old) (S.taken shelf.new)
        (size_of files (chars document.now) + (size_of files (chars sheet.now) + (size_of files (chars script.now) + commands_size files (commands_in read))))) }
    ensures steps { (files : Files) (reading : Reading) (read : Result (List command.Command) ℕ) → S.held shelf.old ≡ Some files
        → DocumentReadsAs files (chars document.now) (chars sheet.now) reading → ScriptReadsAs files (chars document.now) (chars sheet.now) (chars script.now) (kind_of depth) read
        → steps.new ≤ steps.old + most_edit_steps files (chars document.now) (chars sheet.now) (chars script.now) depth reading read }
    ensures within_work { (files : Files) (reading : Reading) (read : Result (List command.Command) ℕ) → S.held shelf.old ≡ Some files
        → DocumentReadsAs files (chars document.now) (chars sheet.now) reading → ScriptReadsAs files (chars document.now) (chars sheet.now) (chars script.now) (kind_of depth) read
        → IsScriptWithinWork files (chars document.now) (chars sheet.now) (chars script.now) depth reading read steps.old steps.new }
{
    let text = fetch_text(alloc, shelf, FileAt::Word(1), document)?;
    let style = fetch_text(alloc, shelf, FileAt::Word(2), sheet)?;
    let lines = fetch_text(alloc, shelf, FileAt::Word(3), script)?;
    let tree = read_tree(alloc, text.as_str())?;
    *commands = read_commands(alloc, script_kind(depth), lines.as_str())?;
    let mut editor = Editor::start(alloc, tree, style.as_str(), depth, steps)?;
    engine_holds_document(editor.engine());
    play(alloc, commands.as_slice(), &mut editor, shelf, out, steps)
}
