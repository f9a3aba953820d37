//! Whole scripts.

ghost use Rattle.std.specs.Prelude.{IfErr, IfOk, OnOk};
ghost use Rattle.std.specs.Str.{chars};
ghost use Rattle.edit_script.specs.Faults.{IsFault};
ghost use Rattle.edit_script.specs.Machinery.LineFaults.{IsLineFault};
ghost use Rattle.edit_script.specs.Machinery.Reading.{AddsLine, IsBadLine};
ghost use Rattle.edit_script.specs.Scripts.{FailsAsScript, IsBookCommand, IsCommand, IsEditCommand, IsHistoryCommand, IsScript};
ghost use Rattle.edit_script.specs.declared.script_kind.ScriptKind.TheVariants.{Edits, History, Book};

use crate::action::Action;
use crate::command::Command;
use crate::fault::ScriptFault;
use crate::keyword::split_keyword;
use crate::line_fault::LineFault;
use crate::lines::{is_skipped, split_line};
use crate::operands::read_operands;
use crate::script_kind::ScriptKind;
use plain_types::list::List;
use plain_types::text::Text;
use std::alloc::Global;
use xhtml_items::text::past_word;
use xhtml_reader::without_mark;

/// The action of a line of a script of edits.
fn read_edit_action(alloc: Global, line: &str) -> Result<Action, LineFault>
    ensures found { IfOk result (IsEditCommand (chars line.now)) }
    ensures fault { IfErr result (IsLineFault (IsEditCommand (chars line.now))) }
{
    let Some((keyword, operands)) = split_keyword(line) else {
        return Err(LineFault::NoForm);
    };
    read_operands(alloc, keyword, operands)
}

/// The action of a line of a script with a history.
fn read_history_action(alloc: Global, line: &str) -> Result<Action, LineFault>
    ensures found { IfOk result (IsHistoryCommand (chars line.now)) }
    ensures fault { IfErr result (IsLineFault (IsHistoryCommand (chars line.now))) }
{
    match line {
        "undo" => Ok(Action::Undo),
        "redo" => Ok(Action::Redo),
        _ => read_edit_action(alloc, line),
    }
}

/// The action of a line of the script of a book.
fn read_book_action(alloc: Global, line: &str) -> Result<Action, LineFault>
    ensures found { IfOk result (IsBookCommand (chars line.now)) }
    ensures fault { IfErr result (IsLineFault (IsBookCommand (chars line.now))) }
{
    match past_word("in ", line) {
        Some("") => Err(LineFault::NoForm),
        Some(name) => Ok(Action::Enter(Text::from_str(alloc, name)?)),
        None => read_edit_action(alloc, line),
    }
}

fn read_action(alloc: Global, kind: ScriptKind, line: &str) -> Result<Action, LineFault>
    ensures found { IfOk result (IsCommand kind (chars line.now)) }
    ensures fault { IfErr result (IsLineFault (IsCommand kind (chars line.now))) }
{
    match kind {
        ScriptKind::Edits => read_edit_action(alloc, line),
        ScriptKind::History => read_history_action(alloc, line),
        ScriptKind::Book => read_book_action(alloc, line),
    }
}

/// Appends the command of a line, if it has one.
fn push_line(
    alloc: Global,
    kind: ScriptKind,
    commands: &mut List<Command>,
    number: usize,
    line: &str,
) -> Result<(), ScriptFault>
    ensures ok { OnOk result (AddsLine kind number (chars line.now) commands.old commands.new) }
    ensures fault { IfErr result (IsFault (IsBadLine kind number (chars line.now))) }
{
    if is_skipped(line) {
        return Ok(());
    }
    match read_action(alloc, kind, line) {
        Ok(action) => Ok(commands.push(Command {
            line: number,
            action,
        })?),
        Err(LineFault::NoForm) => Err(ScriptFault::BadLine { number }),
        Err(LineFault::Memory) => Err(ScriptFault::Memory),
    }
}

fn read_commands(alloc: Global, kind: ScriptKind, text: &str) -> Result<List<Command>, ScriptFault>
    ensures found { IfOk result (IsScript kind (chars text.now)) }
    ensures fault { IfErr result (IsFault (FailsAsScript kind (chars text.now))) }
{
    let mut commands = List::new(alloc);
    let mut rest = without_mark(text);
    let mut number = 0;
    'lines: while let Some((line, after)) = split_line(rest) {
        number += 1;
        push_line(alloc, kind, &mut commands, number, line)?;
        rest = after;
    }
    Ok(commands)
}

/// The commands of a script of edits, in the order of their lines, in time and memory linear in the text.
///
/// `BadLine` where a line is neither skipped nor a command: the first such line; `undo`, `redo` and `in NAME` are such
/// lines. No command is done here, and no file that a command names is looked at.
pub fn read_script(alloc: Global, text: &str) -> Result<List<Command>, ScriptFault>
    ensures found { IfOk result (IsScript Edits (chars text.now)) }
    ensures fault { IfErr result (IsFault (FailsAsScript Edits (chars text.now))) }
{
    read_commands(alloc, ScriptKind::Edits, text)
}

/// The commands of a script with a history, which may have the lines `undo` and `redo` too; the rest is as
/// [`read_script`] has it.
pub fn read_history_script(alloc: Global, text: &str) -> Result<List<Command>, ScriptFault>
    ensures found { IfOk result (IsScript History (chars text.now)) }
    ensures fault { IfErr result (IsFault (FailsAsScript History (chars text.now))) }
{
    read_commands(alloc, ScriptKind::History, text)
}

/// The commands of the script of a book, which may have lines `in NAME` too, where NAME is all that is left of the line;
/// the rest is as [`read_script`] has it.
pub fn read_book_script(alloc: Global, text: &str) -> Result<List<Command>, ScriptFault>
    ensures found { IfOk result (IsScript Book (chars text.now)) }
    ensures fault { IfErr result (IsFault (FailsAsScript Book (chars text.now))) }
{
    read_commands(alloc, ScriptKind::Book, text)
}
