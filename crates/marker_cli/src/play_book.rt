//! The commands of the script of a book, one after another.

ghost use Rattle.std.specs.Prelude.{◌≡◌, ◌≤◌, ◌+◌, ℕ, List, None, Option, Some, IfErr, OnOk, OnErr, sum, unwrap_or};
ghost use Rattle.std.specs.Str.{chars};
ghost use Rattle.edit_script.specs.declared.command.Command as declared;
ghost use Rattle.forest.specs.Keys.{without_keys};
ghost use Rattle.plain_types.specs.declared.edit.Edit.TheVariants as edits;
ghost use Rattle.node_arena.specs.Edits.{place_fault};
ghost use Rattle.ports.specs.Causes.{Raises, Rose, RoseAbove};
ghost use Rattle.ports.specs.Files.{Files};
ghost use Rattle.ports.specs.Grown.{grown, GrowsByFront};
ghost use Rattle.marker_cli.specs.declared.status.FileAt.TheVariants.{Line};
ghost use Rattle.marker_cli.specs.declared.status.Status.TheVariants as status;
ghost use Rattle.marker_cli.specs.Book.{after_chapter_edit, after_enter, book_action, chapter_shown, play_book};
ghost use Rattle.marker_cli.specs.BookSteps.{book_action_steps, book_left_by_edit, book_script_steps, show_chapter_steps};
ghost use Rattle.marker_cli.specs.BookWork.{BookActionTakes, BookScriptTakes};
ghost use Rattle.marker_cli.specs.Edit.{nothing};
ghost use Rattle.marker_cli.specs.EditSteps.{edit_steps, steps_with};
ghost use Rattle.marker_cli.specs.Ends.{EndsAs, IsCaused, IsPutCaused, IsStop, ReadsFailed, part_status};
ghost use Rattle.marker_cli.specs.OpenBooks as books;
ghost use Rattle.marker_cli.specs.OpenBooks.{edited_book, entered, version_in};
ghost use Rattle.marker_cli.specs.OpenVolumes.{book_of, present_document, turned_to, with_document};
ghost use Rattle.marker_cli.specs.Output.{Output};
ghost use Rattle.marker_cli.specs.Run.{action_size, commands_size, size_of};
ghost use Rattle.marker_cli.specs.Machinery.Stands.{Goes, Spends};
ghost use Rattle.marker_cli.specs.Machinery.Takings.{Takes};
ghost use Rattle.marker_cli.specs.Turns.{text_in, with_text};
ghost use Rattle.marker_cli.specs.WorkSteps.{EditTakes, TakenWith};

use crate::fetch_text::fetch_text;
use crate::open_book::OpenBook;
use crate::play::put_no_document;
use crate::put_number::put_numbered;
use crate::status::{FileAt, Status};
use edit_script::action::Action;
use edit_script::command::Command;
use marker_engine::edit_fault::EditFault;
use plain_types::edit::Edit;
use plain_types::text::Text;
use ports::shelf::Shelf;
use ports::sink::{Sink, put_all};
use std::alloc::Global;
use std::sync::ledger::Ledger;
use steps::Steps;

/// Does the edit of the line of this number, or tells that it is refused.
fn play_chapter_edit<O: Sink, L: Ledger>(
    alloc: Global,
    number: usize,
    edit: &Edit,
    book: &mut OpenBook,
    out: &mut O,
    steps: &mut Steps<L>,
) -> Result<(), Status>
    ensures told { (next : books.OpenBook → Output) → Goes ⊥ (Rose (O.faults out.old) (O.faults out.new))
        (after_chapter_edit number edit.now (book_of book.old) (place_fault edit.now (book_of book.old).present.tree) next) (O.out out.old) (O.out out.new) (next (book_of book.new)) result }
    ensures cause { IsCaused ⊥ ⊥ ⊥ (Rose (O.faults out.old) (O.faults out.new)) (part_status result) }
    ensures stops { IfErr result IsStop }
    ensures faults { O.faults out.old ≤ O.faults out.new }
    ensures left { OnOk result (book_of book.new ≡ book_left_by_edit edit.now (book_of book.old) (place_fault edit.now (book_of book.old).present.tree)) }
    ensures steps { steps.new ≤ steps.old + edit_steps (version_in (book_of book.old).present) edit.now }
    ensures takes { (files : Files) (commands : List declared.Command)
        → Takes (EditTakes (place_fault edit.now (without_keys (present_document book.old).tree)) edit.now (present_document book.old) (BookScriptTakes files commands book.old)
        (λ after. BookScriptTakes files commands (with_document book.old after)))
        (BookScriptTakes files commands book.new) steps.old steps.new result }
{
    match book.apply(alloc, edit, steps) {
        Ok(()) => Ok(()),
        Err(EditFault::NoPlace) => Ok(put_numbered(b"refused ", number, b" no-place\n", out)?),
        Err(EditFault::IntoItself) => Ok(put_numbered(
            b"refused ",
            number,
            b" into-itself\n",
            out,
        )?),
        Err(EditFault::Memory) => Err(Status::Memory),
    }
}

/// Puts the sheet of this text in the place of that of the present chapter.
fn replace_chapter_sheet<L: Ledger>(
    alloc: Global,
    text: Text,
    book: &mut OpenBook,
    steps: &mut Steps<L>,
) -> Result<(), Status>
    ensures ok { OnOk result (book_of book.new ≡ edited_book (edits.ReplaceSheet text) (book_of book.old)) }
    ensures cause { IfErr result (λ error. error ≡ status.Memory) }
    ensures steps { steps.new ≤ steps.old + edit_steps (version_in (book_of book.old).present) (edits.ReplaceSheet text) }
    ensures takes { (files : Files) (commands : List declared.Command)
        → Takes (EditTakes None (edits.ReplaceSheet text) (present_document book.old) (BookScriptTakes files commands book.old) (λ after. BookScriptTakes files commands (with_document book.old after)))
        (BookScriptTakes files commands book.new) steps.old steps.new result }
{
    match book.apply(alloc, &Edit::ReplaceSheet { text }, steps) {
        Ok(()) => Ok(()),
        Err(_) => Err(Status::Memory),
    }
}

/// Reads the file that the line of this number names, and takes its text as the sheet of the present chapter.
fn play_chapter_sheet<S: Shelf, L: Ledger>(
    alloc: Global,
    number: usize,
    name: &str,
    book: &mut OpenBook,
    shelf: &mut S,
    steps: &mut Steps<L>,
) -> Result<(), Status>
    ensures told { (files : Files) (before : Option (List ℕ)) (next : books.OpenBook → Output) → S.held shelf.old ≡ Some files
        → Goes (ReadsFailed (S.honest shelf.old) (S.faults shelf.old) (S.faults shelf.new)) ⊥
        (with_text files (Line number) (chars name.now) (λ text. next (edited_book (edits.ReplaceSheet text) (book_of book.old))))
        before before (next (book_of book.new)) result }
    ensures cause { IsCaused ⊥ (Rose (S.faults shelf.old) (S.faults shelf.new)) (RoseAbove 16777216 (S.taken shelf.old) (S.taken shelf.new)) ⊥ (part_status result) }
    ensures stops { IfErr result IsStop }
    ensures faults { S.faults shelf.old ≤ S.faults shelf.new }
    ensures taken { S.taken shelf.old ≤ S.taken shelf.new }
    ensures held { S.held shelf.new ≡ S.held shelf.old }
    ensures honest { S.honest shelf.new ≡ S.honest shelf.old }
    ensures reads { (files : Files) → S.held shelf.old ≡ Some files → OnOk result (Raises (S.taken shelf.old) (S.taken shelf.new) (size_of files (chars name.now))) }
    ensures steps { (files : Files) (next : books.OpenBook → ℕ) → S.held shelf.old ≡ Some files
        → Spends (steps_with (text_in (Line number) (files (chars name.now))) (λ text. edit_steps (version_in (book_of book.old).present) (edits.ReplaceSheet text) + next (edited_book (edits.ReplaceSheet text) (book_of book.old))))
        steps.old steps.new (next (book_of book.new)) result }
    ensures takes { (files : Files) (commands : List declared.Command) → S.held shelf.old ≡ Some files
        → Takes (TakenWith (text_in (Line number) (files (chars name.now))) (λ text.
        EditTakes None (edits.ReplaceSheet text) (present_document book.old) (BookScriptTakes files commands book.old) (λ after. BookScriptTakes files commands (with_document book.old after))))
        (BookScriptTakes files commands book.new) steps.old steps.new result }
{
    let text = fetch_text(alloc, shelf, FileAt::Line(number), name)?;
    replace_chapter_sheet(alloc, text, book, steps)
}

/// Puts what the `show` of the line of this number shows.
fn put_chapter<O: Sink, L: Ledger>(
    alloc: Global,
    number: usize,
    book: &OpenBook,
    out: &mut O,
    steps: &mut Steps<L>,
) -> Result<(), Status>
    ensures ok { OnOk result (O.out out.new ≡ grown (O.out out.old) (chapter_shown number (book_of book.now))) }
    ensures failed { OnErr result (GrowsByFront (O.out out.old) (O.out out.new) (chapter_shown number (book_of book.now))) }
    ensures cause { IsPutCaused (Rose (O.faults out.old) (O.faults out.new)) result }
    ensures faults { O.faults out.old ≤ O.faults out.new }
    ensures steps { steps.new ≤ steps.old + show_chapter_steps (book_of book.now) }
{
    put_numbered(b"show ", number, b"\n", out)?;
    book.show(alloc, out, steps)?;
    Ok(put_all(out, b"end\n")?)
}

/// Makes the document of this name the present one, or tells that the `in` of the line of this number finds none.
fn enter_chapter<O: Sink>(
    number: usize,
    name: &str,
    book: &mut OpenBook,
    out: &mut O,
) -> Result<(), Status>
    ensures told { (next : books.OpenBook → Output) → Goes ⊥ (Rose (O.faults out.old) (O.faults out.new))
        (after_enter number (book_of book.old) (entered (chars name.now) (book_of book.old)) next) (O.out out.old) (O.out out.new) (next (book_of book.new)) result }
    ensures cause { IsPutCaused (Rose (O.faults out.old) (O.faults out.new)) result }
    ensures faults { O.faults out.old ≤ O.faults out.new }
    ensures left { book_of book.new ≡ unwrap_or (entered (chars name.now) (book_of book.old)) (book_of book.old) }
    ensures turned { book.new ≡ turned_to (chars name.now) book.old }
{
    if book.enter(name) {
        Ok(())
    } else {
        put_no_document(number, out)
    }
}

/// Tells that the `undo` or the `redo` of the line of this number finds nothing: no edit of a book is kept.
fn put_nothing<O: Sink>(number: usize, out: &mut O) -> Result<(), Status>
    ensures ok { OnOk result (O.out out.new ≡ grown (O.out out.old) (nothing number)) }
    ensures failed { OnErr result (GrowsByFront (O.out out.old) (O.out out.new) (nothing number)) }
    ensures cause { IsPutCaused (Rose (O.faults out.old) (O.faults out.new)) result }
    ensures faults { O.faults out.old ≤ O.faults out.new }
{
    Ok(put_numbered(b"refused ", number, b" nothing\n", out)?)
}

/// Does one command.
fn play_book_command<S: Shelf, O: Sink, L: Ledger>(
    alloc: Global,
    command: &Command,
    book: &mut OpenBook,
    shelf: &mut S,
    out: &mut O,
    steps: &mut Steps<L>,
) -> Result<(), Status>
    ensures told { (files : Files) (next : books.OpenBook → Output) → S.held shelf.old ≡ Some files
        → Goes (ReadsFailed (S.honest shelf.old) (S.faults shelf.old) (S.faults shelf.new)) (Rose (O.faults out.old) (O.faults out.new))
        (book_action files command.now.line command.now.action (book_of book.old) next) (O.out out.old) (O.out out.new) (next (book_of book.new)) result }
    ensures cause { IsCaused ⊥ (Rose (S.faults shelf.old) (S.faults shelf.new)) (RoseAbove 16777216 (S.taken shelf.old) (S.taken shelf.new))
        (Rose (O.faults out.old) (O.faults out.new)) (part_status result) }
    ensures stops { IfErr result IsStop }
    ensures put_faults { O.faults out.old ≤ O.faults out.new }
    ensures faults { S.faults shelf.old ≤ S.faults shelf.new }
    ensures taken { S.taken shelf.old ≤ S.taken shelf.new }
    ensures held { S.held shelf.new ≡ S.held shelf.old }
    ensures honest { S.honest shelf.new ≡ S.honest shelf.old }
    ensures reads { (files : Files) → S.held shelf.old ≡ Some files → OnOk result (Raises (S.taken shelf.old) (S.taken shelf.new) (action_size files command.now.action)) }
    ensures steps { (files : Files) (next : books.OpenBook → ℕ) → S.held shelf.old ≡ Some files
        → Spends (book_action_steps files command.now.line command.now.action (book_of book.old) next) steps.old steps.new (next (book_of book.new)) result }
    ensures takes { (files : Files) (commands : List declared.Command) → S.held shelf.old ≡ Some files
        → Takes (BookActionTakes files command.now.line command.now.action book.old (BookScriptTakes files commands)) (BookScriptTakes files commands book.new) steps.old steps.new result }
{
    let number = command.line;
    match &command.action {
        Action::Change(edit) => play_chapter_edit(alloc, number, edit, book, out, steps),
        Action::SheetFile(name) => {
            play_chapter_sheet(alloc, number, name.as_str(), book, shelf, steps)
        }
        Action::Show => put_chapter(alloc, number, book, out, steps),
        Action::Undo | Action::Redo => put_nothing(number, out),
        Action::Enter(name) => enter_chapter(number, name.as_str(), book, out),
    }
}

/// Does the commands, in their order.
pub fn play_book<S: Shelf, O: Sink, L: Ledger>(
    alloc: Global,
    commands: &[Command],
    book: &mut OpenBook,
    shelf: &mut S,
    out: &mut O,
    steps: &mut Steps<L>,
) -> Result<(), Status>
    ensures told { (files : Files) → S.held shelf.old ≡ Some files
        → EndsAs (ReadsFailed (S.honest shelf.old) (S.faults shelf.old) (S.faults shelf.new)) (Rose (O.faults out.old) (O.faults out.new))
        (play_book files commands.now (book_of book.old)) (O.out out.old) (O.out out.new) (part_status result) }
    ensures cause { IsCaused ⊥ (Rose (S.faults shelf.old) (S.faults shelf.new)) (RoseAbove 16777216 (S.taken shelf.old) (S.taken shelf.new))
        (Rose (O.faults out.old) (O.faults out.new)) (part_status result) }
    ensures stops { IfErr result IsStop }
    ensures put_faults { O.faults out.old ≤ O.faults out.new }
    ensures reads { (files : Files) → S.held shelf.old ≡ Some files → OnOk result (Raises (S.taken shelf.old) (S.taken shelf.new) (commands_size files commands.now)) }
    ensures steps { (files : Files) → S.held shelf.old ≡ Some files → steps.new ≤ steps.old + book_script_steps files commands.now (book_of book.old) }
    ensures takes { (files : Files) → S.held shelf.old ≡ Some files
        → (taken : List ℕ) × BookScriptTakes files commands.now book.old taken × (steps.new ≤ steps.old + sum taken) }
{
    for command in commands {
        play_book_command(alloc, command, book, shelf, out, steps)?;
    }
    Ok(())
}
