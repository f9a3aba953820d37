//! The command `book SHEET SCRIPT DOC...`.

ghost use Rattle.std.specs.Prelude.{◌≡◌, ◌≤◌, ◌+◌, ℕ, IfErr, IfOk, List, Ok, OnOk, Option, Result, Some, length, map, sum};
ghost use Rattle.std.specs.List.{AllByRecursion, AllZip};
ghost use Rattle.std.specs.Str.{chars};
ghost use Rattle.book_refs.specs.Given.{given_source};
ghost use Rattle.book_refs.specs.declared.chapter.Chapter as given;
ghost use Rattle.edit_script.specs.declared.command.Command as command;
ghost use Rattle.node_arena.specs.Document.{HasElementRoot};
ghost use Rattle.ports.specs.Causes.{Raises, Rose, RoseAbove};
ghost use Rattle.ports.specs.Files.{Files};
ghost use Rattle.xhtml_reader.specs.Readings.{ReadsAsDocument};
ghost use Rattle.marker_cli.specs.Book.{BookScriptReadsAs, book_output};
ghost use Rattle.marker_cli.specs.BookSteps.{most_book_steps};
ghost use Rattle.marker_cli.specs.BookWork.{IsBookWithinWork};
ghost use Rattle.marker_cli.specs.Documents.{Reading};
ghost use Rattle.marker_cli.specs.Ends.{EndsAs, Gives, IsCaused, IsStop, ReadsFailed, part_status};
ghost use Rattle.marker_cli.specs.Names.{TellsOfLine};
ghost use Rattle.marker_cli.specs.OpenBooks.{chapters_of};
ghost use Rattle.marker_cli.specs.Output.{Output};
ghost use Rattle.marker_cli.specs.Parts.{HaveTexts, PartsReadAs, part_of, seen_by, trees_of, with_texts};
ghost use Rattle.marker_cli.specs.Run.{commands_in, commands_size, size_of};
ghost use Rattle.marker_cli.specs.Machinery.Stands.{Goes};
ghost use Rattle.marker_cli.specs.Words.{AreDocumentNames};

use crate::fetch_text::fetch_text;
use crate::open_book::{OpenBook, book_holds_documents};
use crate::play_book::play_book;
use crate::read_texts::{read_commands, read_part};
use crate::status::{FileAt, Status};
use book_refs::chapter::Chapter;
use edit_script::command::Command;
use edit_script::script_kind::ScriptKind;
use plain_types::duplicate::Duplicate;
use plain_types::list::List;
use plain_types::text::Text;
use ports::shelf::Shelf;
use ports::sink::Sink;
use std::alloc::Global;
use std::sync::ledger::Ledger;
use steps::Steps;

/// The texts of the documents of a book, whose turns come one after the other. Word 3 names the first.
fn fetch_texts<S: Shelf>(alloc: Global, names: &[Text], shelf: &mut S) -> Result<List<Text>, Status>
    ensures told { (files : Files) (before : Option (List ℕ)) (next : Output) → S.held shelf.old ≡ Some files
        → Goes (ReadsFailed (S.honest shelf.old) (S.faults shelf.old) (S.faults shelf.new)) ⊥ (with_texts files 3 names.now next) before before next result }
    ensures texts { (files : Files) → S.held shelf.old ≡ Some files → IfOk result (HaveTexts files 3 names.now) }
    ensures each { IfOk result (λ texts. length texts ≡ length names.now) }
    ensures cause { IsCaused ⊥ (Rose (S.faults shelf.old) (S.faults shelf.new)) (RoseAbove 16777216 (S.taken shelf.old) (S.taken shelf.new)) ⊥ (part_status result) }
    ensures file { ¬ (TellsOfLine (part_status result)) }
    ensures stops { IfErr result IsStop }
    ensures faults { S.faults shelf.old ≤ S.faults shelf.new }
    ensures taken { S.taken shelf.old ≤ S.taken shelf.new }
    ensures came { (files : Files) → S.held shelf.old ≡ Some files → OnOk result (Raises (S.taken shelf.old) (S.taken shelf.new) (sum (map (size_of files) names.now))) }
    ensures held { S.held shelf.new ≡ S.held shelf.old }
    ensures honest { S.honest shelf.new ≡ S.honest shelf.old }
{
    let mut texts = List::new(alloc);
    for (place, name) in names.iter().enumerate() {
        let text = fetch_text(alloc, shelf, FileAt::Word(place + 3), name.as_str())?;
        texts.push(text)?;
    }
    Ok(texts)
}

/// The chapter of the document of this text, which the word at this place names.
fn read_chapter(
    alloc: Global,
    place: usize,
    name: &Text,
    text: &str,
    sheet: &str,
) -> Result<Chapter, Status>
    ensures tree { (reading : Reading) → ReadsAsDocument (chars text.now) reading → Gives (part_of place reading) (seen_by (λ (chapter : given.Chapter). chapter.document) result) }
    ensures name { IfOk result (λ chapter. chapter.name ≡ name.now) }
    ensures sheet { IfOk result (λ chapter. chapter.sheet ≡ chars sheet.now) }
    ensures element { IfOk result (λ chapter. HasElementRoot chapter.document) }
    ensures cause { IsCaused ⊥ ⊥ ⊥ ⊥ (part_status result) }
    ensures file { ¬ (TellsOfLine (part_status result)) }
    ensures stops { IfErr result IsStop }
{
    let document = read_part(alloc, place, text)?;
    Ok(Chapter {
        name: name.duplicate(alloc)?,
        document,
        sheet: Text::from_str(alloc, sheet)?,
    })
}

/// The chapters of a book, one for each name and the text of its document, all with one sheet. Word 3 names the first.
fn read_chapters(
    alloc: Global,
    names: &[Text],
    texts: &[Text],
    sheet: &str,
) -> Result<List<Chapter>, Status>
    requires each { length texts.now ≡ length names.now }
    ensures trees { (readings : List Reading) → AllZip ReadsAsDocument texts.now readings
        → Gives (trees_of 3 readings) (seen_by (map (λ (chapter : given.Chapter). chapter.document)) result) }
    ensures names { IfOk result (λ chapters. map (λ (chapter : given.Chapter). chapter.name) chapters ≡ names.now) }
    ensures sources { IfOk result (λ chapters. map given_source chapters ≡ chapters_of (chars sheet.now) names.now (map (λ (chapter : given.Chapter). chapter.document) chapters)) }
    ensures roots { IfOk result (AllByRecursion (λ (chapter : given.Chapter). HasElementRoot chapter.document)) }
    ensures cause { IsCaused ⊥ ⊥ ⊥ ⊥ (part_status result) }
    ensures file { ¬ (TellsOfLine (part_status result)) }
    ensures stops { IfErr result IsStop }
{
    let mut chapters = List::new(alloc);
    for (place, name) in names.iter().enumerate() {
        let chapter = read_chapter(alloc, place + 3, name, texts[place].as_str(), sheet)?;
        chapters.push(chapter)?;
    }
    Ok(chapters)
}

/// Does the commands of the script of that name with a book, whose documents have these names and each of which begins with
/// the sheet of that name. The commands are left in `commands` once they are read: they have the names of the files that the
/// script's lines name.
pub fn book<S: Shelf, O: Sink, L: Ledger>(
    alloc: Global,
    sheet: &str,
    script: &str,
    documents: &[Text],
    commands: &mut List<Command>,
    shelf: &mut S,
    out: &mut O,
    steps: &mut Steps<L>,
) -> Result<(), Status>
    requires names { AreDocumentNames documents.now }
    ensures told { (files : Files) (readings : List Reading) (read : Result (List command.Command) ℕ) → S.held shelf.old ≡ Some files
        → PartsReadAs files (chars sheet.now) (chars script.now) documents.now readings → BookScriptReadsAs files (chars sheet.now) (chars script.now) documents.now read
        → EndsAs (ReadsFailed (S.honest shelf.old) (S.faults shelf.old) (S.faults shelf.new)) (Rose (O.faults out.old) (O.faults out.new))
        (book_output files (chars sheet.now) (chars script.now) documents.now readings read) (O.out out.old) (O.out out.new) (part_status result) }
    ensures commands { (files : Files) (read : Result (List command.Command) ℕ) → S.held shelf.old ≡ Some files
        → BookScriptReadsAs files (chars sheet.now) (chars script.now) documents.now read → TellsOfLine (part_status result) → read ≡ Ok commands.new }
    ensures cause { IsCaused ⊥ (Rose (S.faults shelf.old) (S.faults shelf.new)) (RoseAbove 16777216 (S.taken shelf.old) (S.taken shelf.new))
        (Rose (O.faults out.old) (O.faults out.new)) (part_status result) }
    ensures faults { O.faults out.old ≤ O.faults out.new }
    ensures stops { IfErr result IsStop }
    ensures reads { (files : Files) (read : Result (List command.Command) ℕ) → S.held shelf.old ≡ Some files
        → BookScriptReadsAs files (chars sheet.now) (chars script.now) documents.now read → OnOk result (Raises (S.taken shelf.old) (S.taken shelf.new)
        (size_of files (chars sheet.now) + (size_of files (chars script.now) + (sum (map (size_of files) documents.now) + commands_size files (commands_in read))))) }
    ensures steps { (files : Files) (readings : List Reading) (read : Result (List command.Command) ℕ) → S.held shelf.old ≡ Some files
        → PartsReadAs files (chars sheet.now) (chars script.now) documents.now readings → BookScriptReadsAs files (chars sheet.now) (chars script.now) documents.now read
        → steps.new ≤ steps.old + most_book_steps files (chars sheet.now) (chars script.now) documents.now readings read }
    ensures within_work { (files : Files) (readings : List Reading) (read : Result (List command.Command) ℕ) → S.held shelf.old ≡ Some files
        → PartsReadAs files (chars sheet.now) (chars script.now) documents.now readings → BookScriptReadsAs files (chars sheet.now) (chars script.now) documents.now read
        → IsBookWithinWork files (chars sheet.now) (chars script.now) documents.now readings read steps.old steps.new }
{
    let style = fetch_text(alloc, shelf, FileAt::Word(1), sheet)?;
    let lines = fetch_text(alloc, shelf, FileAt::Word(2), script)?;
    let texts = fetch_texts(alloc, documents, shelf)?;
    let chapters = read_chapters(alloc, documents, texts.as_slice(), style.as_str())?;
    *commands = read_commands(alloc, ScriptKind::Book, lines.as_str())?;
    let mut book = OpenBook::start(alloc, chapters, steps)?;
    book_holds_documents(&book);
    play_book(alloc, commands.as_slice(), &mut book, shelf, out, steps)
}
