//! The line that tells a status.

ghost use Rattle.std.specs.Prelude.{◌≡◌, ◌++◌, OnOk, OnErr, encode_utf8_all};
ghost use Rattle.ports.specs.Causes.{HasCause, Rose};
ghost use Rattle.ports.specs.Grown.{grown, GrowsByFront};
ghost use Rattle.marker_cli.specs.Lines.{GoesOut, about, message, not_well_formed, script_word};
ghost use Rattle.marker_cli.specs.Names.{file_of, name_at, sheet_name};
ghost use Rattle.marker_cli.specs.declared.status.Status.TheVariants as status;

use crate::form::is_word;
use crate::put_number::put_number;
use crate::status::{FileAt, Status};
use edit_script::action::Action;
use edit_script::command::Command;
use plain_types::text::Text;
use ports::failed::Failed;
use ports::sink::{Sink, put_all};

/// The bytes of the name of the file that a command names; of other commands none.
fn file_of(action: &Action) -> &[u8]
    ensures { result.now ≡ encode_utf8_all (file_of action.now) }
{
    match action {
        Action::SheetFile(name) => name.as_str().as_bytes(),
        Action::Change(_) | Action::Show | Action::Undo | Action::Redo | Action::Enter(_) => b"",
    }
}

/// The bytes of the name of the file that the line of this number names.
fn sheet_name(commands: &[Command], number: usize) -> &[u8]
    ensures { result.now ≡ encode_utf8_all (sheet_name commands.now number) }
{
    for command in commands {
        if command.line == number {
            return file_of(&command.action);
        }
    }
    b""
}

fn put_name<E: Sink>(
    words: &[Text],
    commands: &[Command],
    file: FileAt,
    err: &mut E,
) -> Result<(), Failed>
    ensures ok { OnOk result (E.out err.new ≡ grown (E.out err.old) (encode_utf8_all (name_at words.now commands.now file))) }
    ensures failed { OnErr result (GrowsByFront (E.out err.old) (E.out err.new) (encode_utf8_all (name_at words.now commands.now file))) }
    ensures cause { HasCause (E.faults err.old) (E.faults err.new) result }
{
    match file {
        FileAt::Word(place) if place < words.len() => put_all(
            err,
            words[place].as_str().as_bytes(),
        ),
        FileAt::Word(_) => put_all(err, b""),
        FileAt::Line(number) => put_all(err, sheet_name(commands, number)),
    }
}

/// A line about a file.
fn put_about<E: Sink>(
    words: &[Text],
    commands: &[Command],
    file: FileAt,
    what: &[u8],
    err: &mut E,
) -> Result<(), Failed>
    ensures ok { OnOk result (E.out err.new ≡ grown (E.out err.old) (about words.now commands.now file what.now)) }
    ensures failed { OnErr result (GrowsByFront (E.out err.old) (E.out err.new) (about words.now commands.now file what.now)) }
    ensures cause { HasCause (E.faults err.old) (E.faults err.new) result }
{
    put_all(err, b"marker: ")?;
    put_name(words, commands, file, err)?;
    put_all(err, what)
}

fn put_not_utf8<E: Sink>(
    words: &[Text],
    commands: &[Command],
    file: FileAt,
    offset: usize,
    err: &mut E,
) -> Result<(), Failed>
    ensures ok { OnOk result (E.out err.new ≡ grown (E.out err.old) (message words.now commands.now (status.NotUtf8 file offset))) }
    ensures failed { OnErr result (GrowsByFront (E.out err.old) (E.out err.new) (message words.now commands.now (status.NotUtf8 file offset))) }
    ensures cause { HasCause (E.faults err.old) (E.faults err.new) result }
{
    put_about(words, commands, file, b": not UTF-8 at ", err)?;
    put_number(offset, b"\n", err)
}

/// A file is no document, and the place where it fails.
fn put_malformed<E: Sink>(
    words: &[Text],
    commands: &[Command],
    file: FileAt,
    line: usize,
    column: usize,
    err: &mut E,
) -> Result<(), Failed>
    ensures ok { OnOk result (E.out err.new ≡ grown (E.out err.old) (about words.now commands.now file (not_well_formed line column))) }
    ensures failed { OnErr result (GrowsByFront (E.out err.old) (E.out err.new) (about words.now commands.now file (not_well_formed line column))) }
    ensures cause { HasCause (E.faults err.old) (E.faults err.new) result }
{
    put_about(words, commands, file, b":", err)?;
    put_number(line, b":", err)?;
    put_number(column, b": not well-formed\n", err)
}

/// The word that names the script.
fn script_word(words: &[Text]) -> FileAt
    ensures { result ≡ script_word words.now }
{
    match words.first() {
        Some(command) if is_word(command, "book") => FileAt::Word(2),
        _ => FileAt::Word(3),
    }
}

fn put_bad_line<E: Sink>(
    words: &[Text],
    commands: &[Command],
    number: usize,
    err: &mut E,
) -> Result<(), Failed>
    ensures ok { OnOk result (E.out err.new ≡ grown (E.out err.old) (message words.now commands.now (status.BadScript number))) }
    ensures failed { OnErr result (GrowsByFront (E.out err.old) (E.out err.new) (message words.now commands.now (status.BadScript number))) }
    ensures cause { HasCause (E.faults err.old) (E.faults err.new) result }
{
    put_about(words, commands, script_word(words), b":", err)?;
    put_number(number, b": bad line\n", err)
}

fn put_left_out<E: Sink>(
    words: &[Text],
    commands: &[Command],
    count: usize,
    err: &mut E,
) -> Result<(), Failed>
    ensures ok { OnOk result (E.out err.new ≡ grown (E.out err.old) (message words.now commands.now (status.LeftOut count))) }
    ensures failed { OnErr result (GrowsByFront (E.out err.old) (E.out err.new) (message words.now commands.now (status.LeftOut count))) }
    ensures cause { HasCause (E.faults err.old) (E.faults err.new) result }
{
    put_about(
        words,
        commands,
        FileAt::Word(1),
        b": texts without a place: ",
        err,
    )?;
    put_number(count, b"\n", err)
}

fn put_message<E: Sink>(
    words: &[Text],
    commands: &[Command],
    status: Status,
    err: &mut E,
) -> Result<(), Failed>
    ensures ok { OnOk result (E.out err.new ≡ grown (E.out err.old) (message words.now commands.now status)) }
    ensures failed { OnErr result (GrowsByFront (E.out err.old) (E.out err.new) (message words.now commands.now status)) }
    ensures cause { HasCause (E.faults err.old) (E.faults err.new) result }
{
    match status {
        Status::Ok => put_all(err, b""),
        Status::Memory => put_all(err, b"marker: out of memory\n"),
        Status::Usage => put_all(
            err,
            b"marker: usage: dump DOC SHEET | edit DOC SHEET SCRIPT | table SHEET STYLE FROM TO | gen SEED COUNT | history DOC SHEET SCRIPT DEPTH | text DOC SHEET | why DOC SHEET PATH | bake DOC SHEET | book SHEET SCRIPT DOC...\n",
        ),
        Status::ReadFault { file } => put_about(words, commands, file, b": read failed\n", err),
        Status::TooLarge { file } => {
            put_about(
                words,
                commands,
                file,
                b": larger than 16777216 bytes\n",
                err,
            )
        }
        Status::NotUtf8 { file, offset } => put_not_utf8(words, commands, file, offset, err),
        Status::BadDocument { line, column } => put_malformed(
            words,
            commands,
            FileAt::Word(1),
            line,
            column,
            err,
        ),
        Status::BadPart { file, line, column } => put_malformed(
            words, commands, file, line, column, err,
        ),
        Status::BadScript { number } => put_bad_line(words, commands, number, err),
        Status::WriteFault => put_all(err, b"marker: write failed\n"),
        Status::LeftOut { count } => put_left_out(words, commands, count, err),
    }
}

/// Puts the line that tells a person how a run of these words ended; `Ok` has none. The commands of the
/// script, where there is one, have the names of the files of its lines. Where `err` fails, a front of the line
/// went out. It takes no memory.
pub fn report<E: Sink>(words: &[Text], commands: &[Command], status: Status, err: &mut E)
    ensures line { GoesOut (Rose (E.faults err.old) (E.faults err.new)) (E.out err.old) (E.out err.new) (message words.now commands.now status) }
{
    if put_message(words, commands, status, err).is_ok() {
        let _ = err.flush();
    }
}
