//! What the texts of a run read as.

ghost use Rattle.std.specs.Prelude.{◌≡◌, ℕ, IfErr, IfOk, List, Result};
ghost use Rattle.std.specs.Str.{chars};
ghost use Rattle.edit_script.specs.Faults.{IsFault};
ghost use Rattle.edit_script.specs.Scripts.{FailsAsScript, IsScript, ReadsAsScript};
ghost use Rattle.edit_script.specs.declared.command.Command as command;
ghost use Rattle.node_arena.specs.Document.{HasElementRoot};
ghost use Rattle.xhtml_reader.specs.Readings.{ReadsAsDocument};
ghost use Rattle.xml_definitions.specs.Texts.{IsDocumentText};
ghost use Rattle.marker_cli.specs.Documents.{Reading, tree_of};
ghost use Rattle.marker_cli.specs.Edit.{commands_of};
ghost use Rattle.marker_cli.specs.Ends.{Gives, IsCaused, IsStop, part_status};
ghost use Rattle.marker_cli.specs.Names.{TellsOfLine};
ghost use Rattle.marker_cli.specs.Parts.{part_of};
ghost use Rattle.marker_cli.specs.Machinery.Statuses.{part_fault};

use crate::status::{FileAt, Status};
use edit_script::command::Command;
use edit_script::fault::ScriptFault;
use edit_script::laws::one_reading;
use edit_script::script_kind::ScriptKind;
use edit_script::{read_book_script, read_history_script, read_script};
use plain_types::list::List;
use plain_types::tree::Tree;
use std::alloc::Global;
use xhtml_reader::fault::DocFault;
use xhtml_reader::laws::one_document_reading;
use xhtml_reader::read_document;

/// The tree of a document.
pub fn read_tree(alloc: Global, text: &str) -> Result<Tree, Status>
    ensures tree { (reading : Reading) → ReadsAsDocument (chars text.now) reading → Gives (tree_of reading) result }
    ensures found { IfOk result (IsDocumentText (chars text.now)) }
    ensures element { IfOk result HasElementRoot }
    ensures cause { IsCaused ⊥ ⊥ ⊥ ⊥ (part_status result) }
    ensures file { ¬ (TellsOfLine (part_status result)) }
    ensures stops { IfErr result IsStop }
{
    // A text reads in one way: so the outcome is the one that the text has.
    one_document_reading();
    Ok(read_document(alloc, text)?)
}

/// The status with which the fault of a document of a book, which the word at this place names, ends a run.
fn part_fault(place: usize, fault: DocFault) -> Status
    ensures { result ≡ part_fault place fault }
{
    match fault {
        DocFault::Malformed { line, column } => Status::BadPart {
            file: FileAt::Word(place),
            line,
            column,
        },
        DocFault::Memory => Status::Memory,
    }
}

/// The tree of the document of a book that the word at this place names.
pub fn read_part(alloc: Global, place: usize, text: &str) -> Result<Tree, Status>
    ensures tree { (reading : Reading) → ReadsAsDocument (chars text.now) reading → Gives (part_of place reading) result }
    ensures element { IfOk result HasElementRoot }
    ensures cause { IsCaused ⊥ ⊥ ⊥ ⊥ (part_status result) }
    ensures file { ¬ (TellsOfLine (part_status result)) }
    ensures stops { IfErr result IsStop }
{
    // A text reads in one way: so the outcome is the one that the text has.
    one_document_reading();
    match read_document(alloc, text) {
        Ok(tree) => Ok(tree),
        Err(fault) => Err(part_fault(place, fault)),
    }
}

/// The commands of a script of this kind.
fn read_lines(alloc: Global, kind: ScriptKind, text: &str) -> Result<List<Command>, ScriptFault>
    ensures found { IfOk result (IsScript kind (chars text.now)) }
    ensures fault { IfErr result (IsFault (FailsAsScript kind (chars text.now))) }
{
    match kind {
        ScriptKind::Edits => read_script(alloc, text),
        ScriptKind::History => read_history_script(alloc, text),
        ScriptKind::Book => read_book_script(alloc, text),
    }
}

/// The commands of a script of this kind.
pub fn read_commands(alloc: Global, kind: ScriptKind, text: &str) -> Result<List<Command>, Status>
    ensures commands { (reading : Result (List command.Command) ℕ) → ReadsAsScript kind (chars text.now) reading → Gives (commands_of reading) result }
    ensures cause { IsCaused ⊥ ⊥ ⊥ ⊥ (part_status result) }
    ensures file { ¬ (TellsOfLine (part_status result)) }
    ensures stops { IfErr result IsStop }
{
    // A text reads in one way: so the outcome is the one that the text has.
    one_reading();
    Ok(read_lines(alloc, kind, text)?)
}
