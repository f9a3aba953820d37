//! A run.

ghost use Rattle.std.specs.Prelude.{◌≡◌, ◌⊎◌, ◌≤◌, ◌+◌, ℕ, false, [], List, IsTrue, None, Ok, Some};
ghost use Rattle.ports.specs.Causes.{Raises, Rose, RoseAbove};
ghost use Rattle.ports.specs.Files.{Files};
ghost use Rattle.ports.specs.Grown.{grown};
ghost use Rattle.edit_script.specs.declared.command.Command as command;
ghost use Rattle.marker_cli.specs.Ends.{EndsAs, IsCaused, IsSettled, IsWhole, ReadsFailed, part_status};
ghost use Rattle.marker_cli.specs.Lines.{GoesOut, message};
ghost use Rattle.marker_cli.specs.Output.{bytes_of, status_of};
ghost use Rattle.marker_cli.specs.Names.{TellsOfLine};
ghost use Rattle.marker_cli.specs.Run.{AreReadings, HasTurn, IsFormWithinWork, IsRunWithinWork, OverTexts, OverTold, Readings, TakesNoStep, commands_in, form_output, form_size, form_steps, most_run_steps, name_in, output, read_size};
ghost use Rattle.marker_cli.specs.Words.{IsOfTable, IsWithin, ReadsAsForm, form_of};
ghost use Rattle.marker_cli.specs.declared.status.FileAt.{FileAt};
ghost use Rattle.marker_cli.specs.declared.status.Status.TheVariants as status;

use crate::aspect::write_aspect;
use crate::bake::write_baked;
use crate::book::book;
use crate::edit::edit;
use crate::form::{Form, read_form};
use crate::generated::generated;
use crate::report::report;
use crate::status::Status;
use crate::table::table;
use bake_book::laws::documents_stay;
use baked_text::laws::some_output;
use edit_script::command::Command;
use plain_types::list::List;
use plain_types::text::Text;
use ports::shelf::Shelf;
use ports::sink::Sink;
use std::alloc::Global;
use std::sync::ledger::Ledger;
use steps::Steps;

fn status_of(outcome: Result<(), Status>) -> Status
    ensures { result ≡ part_status outcome }
{
    match outcome {
        Ok(()) => Status::Ok,
        Err(status) => status,
    }
}

/// Does what words of this form ask for. The commands of a script are left in `commands`.
fn perform<S: Shelf, O: Sink, L: Ledger>(
    alloc: Global,
    form: Form<'_>,
    commands: &mut List<Command>,
    shelf: &mut S,
    out: &mut O,
    steps: &mut Steps<L>,
) -> Result<(), Status>
    requires within { IsWithin (form_of form) }
    ensures told { OverTexts (S.held shelf.old) (form_of form.entry) (λ files readings.
        EndsAs (ReadsFailed (S.honest shelf.old) (S.faults shelf.old) (S.faults shelf.new)) (Rose (O.faults out.old) (O.faults out.new))
        (form_output files readings (Some (form_of form.entry))) (O.out out.old) (O.out out.new) (part_status result)) }
    ensures commands { OverTexts (S.held shelf.old) (form_of form.entry) (λ files readings. TellsOfLine (part_status result) → readings.script ≡ Ok commands.new) }
    ensures cause { IsCaused ⊥ (Rose (S.faults shelf.old) (S.faults shelf.new)) (RoseAbove 16777216 (S.taken shelf.old) (S.taken shelf.new))
        (Rose (O.faults out.old) (O.faults out.new)) (part_status result) }
    ensures faults { O.faults out.old ≤ O.faults out.new }
    ensures reads { OverTexts (S.held shelf.old) (form_of form.entry) (λ files readings.
        IsWhole (part_status result) → Raises (S.taken shelf.old) (S.taken shelf.new) (form_size files readings.script (Some (form_of form.entry)))) }
    ensures steps { OverTexts (S.held shelf.old) (form_of form.entry) (λ files readings.
        steps.new ≤ steps.old + form_steps files readings (Some (form_of form.entry))) }
    ensures within_work { OverTexts (S.held shelf.old) (form_of form.entry) (λ files readings.
        IsFormWithinWork files readings (Some (form_of form.entry)) steps.old steps.new) }
    ensures no_steps { IsOfTable (form_of form.entry) → steps.new ≡ steps.old }
{
    match form {
        Form::Aspect {
            aspect,
            document,
            sheet,
        } => write_aspect(
            alloc,
            &aspect,
            document.as_str(),
            sheet.as_str(),
            shelf,
            out,
            steps,
        ),
        Form::Bake { document, sheet } => write_baked(
            alloc,
            document.as_str(),
            sheet.as_str(),
            shelf,
            out,
            steps,
        ),
        Form::Script {
            document,
            sheet,
            script,
            depth,
        } => edit(
            alloc,
            document.as_str(),
            sheet.as_str(),
            script.as_str(),
            depth,
            commands,
            shelf,
            out,
            steps,
        ),
        Form::Book {
            sheet,
            script,
            documents,
        } => book(
            alloc,
            sheet.as_str(),
            script.as_str(),
            documents,
            commands,
            shelf,
            out,
            steps,
        ),
        Form::Table {
            sheet,
            style,
            from,
            to,
        } => table(alloc, sheet.as_str(), style.as_str(), from, to, shelf, out),
        Form::Gen { seed, count } => generated(alloc, seed, count, out, steps),
    }
}

/// Does what the words say. The commands of a script are left in `commands`.
fn perform_words<S: Shelf, O: Sink, L: Ledger>(
    alloc: Global,
    words: &[Text],
    commands: &mut List<Command>,
    shelf: &mut S,
    out: &mut O,
    steps: &mut Steps<L>,
) -> Status
    ensures readings { (files : Files) → (readings : Readings) × AreReadings words.now files readings }
    ensures told { OverTold (S.held shelf.old) words.now (λ files readings.
        EndsAs (ReadsFailed (S.honest shelf.old) (S.faults shelf.old) (S.faults shelf.new)) (Rose (O.faults out.old) (O.faults out.new))
        (output files readings) (O.out out.old) (O.out out.new) result) }
    ensures commands { OverTold (S.held shelf.old) words.now (λ files readings. TellsOfLine result → readings.script ≡ Ok commands.new) }
    ensures cause { IsCaused (ReadsAsForm words.now None) (Rose (S.faults shelf.old) (S.faults shelf.new)) (RoseAbove 16777216 (S.taken shelf.old) (S.taken shelf.new))
        (Rose (O.faults out.old) (O.faults out.new)) result }
    ensures faults { O.faults out.old ≤ O.faults out.new }
    ensures no_form { ReadsAsForm words.now None → result ≡ status.Usage }
    ensures no_output { result ≡ status.Usage → O.out out.new ≡ O.out out.old }
    ensures reads { OverTold (S.held shelf.old) words.now (λ files readings.
        IsWhole result → Raises (S.taken shelf.old) (S.taken shelf.new) (read_size files readings)) }
    ensures steps { OverTold (S.held shelf.old) words.now (λ files readings. steps.new ≤ steps.old + most_run_steps files readings) }
    ensures within_work { OverTold (S.held shelf.old) words.now (λ files readings. IsRunWithinWork files readings steps.old steps.new) }
    ensures no_steps { TakesNoStep words.now → steps.new ≡ steps.old }
{
    // Each document bakes to a text: so what is to be baked has a reading too.
    documents_stay();
    some_output();
    match read_form(alloc, words) {
        Ok(Some(form)) => status_of(perform(alloc, form, commands, shelf, out, steps)),
        Ok(None) => Status::Usage,
        Err(_) => Status::Memory,
    }
}

/// The status once `out` has handed on what it keeps back. A failed flush is a failed write.
fn flushed<O: Sink>(outcome: Status, out: &mut O) -> Status
    ensures outcome { (result ≡ outcome) ⊎ (IsSettled outcome × (result ≡ status.WriteFault) × Rose (O.faults out.old) (O.faults out.new)) }
    ensures sent { IsSettled result → O.kept out.new ≡ false }
    ensures out { O.out out.new ≡ O.out out.old }
    ensures faults { O.faults out.old ≤ O.faults out.new }
{
    match outcome {
        Status::Usage => outcome,
        Status::Memory | Status::WriteFault => {
            let _ = out.flush();
            outcome
        }
        Status::Ok
        | Status::LeftOut { .. }
        | Status::ReadFault { .. }
        | Status::TooLarge { .. }
        | Status::NotUtf8 { .. }
        | Status::BadDocument { .. }
        | Status::BadPart { .. }
        | Status::BadScript { .. } => match out.flush() {
            Ok(()) => outcome,
            Err(_) => Status::WriteFault,
        },
    }
}

/// Does what the words say, and puts the line of a status other than Ok to `err`.
///
/// The words are the arguments of the program without its name. They are told apart first, then the files
/// are read in their order, each checked for its length and for UTF-8 before the next one, then the document is
/// read, or those of a book in their order, and then the script; its commands are done in their order, and the
/// file of a `sheet` line is read when that line is done. The first fault ends the run, and its status tells it;
/// what was written until then stays. A refused edit, an undo or redo that finds nothing, and a path to no element
/// are told in the output and end nothing. Where `bake` leaves texts out, all else is written, and the status,
/// `LeftOut`, tells how many. At the end `out` is flushed, and where that fails the status is `WriteFault`, if it
/// isn't `Usage` or `Memory`. A fault of `err` changes no status.
///
/// It takes time linear in the files and the output, and what one evaluation of the document costs; for each accepted
/// edit, undo, redo and `sheet` line what `Engine::apply` of such an edit costs, within the same bound by its work,
/// and for each `show` of a book what `Volume::show` does. It takes memory for the files, the commands, the documents
/// and what is kept of their elements, and for the edits that can be undone and redone. A run that is made up takes
/// time and memory for its COUNT edits too.
pub fn run<S: Shelf, O: Sink, E: Sink, L: Ledger>(
    alloc: Global,
    words: &[Text],
    shelf: &mut S,
    out: &mut O,
    err: &mut E,
    steps: &mut Steps<L>,
) -> Status
    // There are readings of the words and the texts, and what the clauses over a told shelf say holds of all such.
    ensures readings { (files : Files) → (readings : Readings) × AreReadings words.now files readings }
    ensures told { OverTold (S.held shelf.old) words.now (λ files readings.
        EndsAs (ReadsFailed (S.honest shelf.old) (S.faults shelf.old) (S.faults shelf.new)) (Rose (O.faults out.old) (O.faults out.new))
        (output files readings) (O.out out.old) (O.out out.new) result) }
    ensures complete { OverTold (S.held shelf.old) words.now (λ files readings.
        ¬ (Rose (S.faults shelf.old) (S.faults shelf.new)) → ¬ (Rose (O.faults out.old) (O.faults out.new))
        → (result ≡ status.Memory) ⊎ ((result ≡ status_of (output files readings)) × (O.out out.new ≡ grown (O.out out.old) (bytes_of (output files readings))))) }
    ensures turn { OverTold (S.held shelf.old) words.now (λ files readings.
        (file : FileAt) → result ≡ status.ReadFault file → HasTurn (output files readings) file) }
    ensures not_held { OverTold (S.held shelf.old) words.now (λ files readings.
        (file : FileAt) → IsTrue (S.honest shelf.old) → result ≡ status.ReadFault file → files (name_in words.now readings file) ≡ None) }
    ensures missing { OverTold (S.held shelf.old) words.now (λ files readings.
        (file : FileAt) → IsTrue (S.honest shelf.old) → HasTurn (output files readings) file → files (name_in words.now readings file) ≡ None
        → (result ≡ status.Memory) ⊎ (result ≡ status.WriteFault) ⊎ (result ≡ status.ReadFault file)) }
    ensures reads { OverTold (S.held shelf.old) words.now (λ files readings.
        IsWhole result → Raises (S.taken shelf.old) (S.taken shelf.new) (read_size files readings)) }
    ensures sent { IsSettled result → O.kept out.new ≡ false }
    ensures usage { result ≡ status.Usage → ReadsAsForm words.now None }
    ensures no_form { ReadsAsForm words.now None → result ≡ status.Usage }
    ensures no_output { result ≡ status.Usage → O.out out.new ≡ O.out out.old }
    ensures read_fault { (file : FileAt) → result ≡ status.ReadFault file → Rose (S.faults shelf.old) (S.faults shelf.new) }
    ensures too_large { (file : FileAt) → result ≡ status.TooLarge file → RoseAbove 16777216 (S.taken shelf.old) (S.taken shelf.new) }
    ensures write_fault { result ≡ status.WriteFault → Rose (O.faults out.old) (O.faults out.new) }
    ensures line { ¬ (TellsOfLine result) → GoesOut (Rose (E.faults err.old) (E.faults err.new)) (E.out err.old) (E.out err.new) (message words.now [] result) }
    ensures any_line { (commands : List command.Command) × GoesOut (Rose (E.faults err.old) (E.faults err.new)) (E.out err.old) (E.out err.new) (message words.now commands result) }
    ensures sheet_line { OverTold (S.held shelf.old) words.now (λ files readings.
        TellsOfLine result → GoesOut (Rose (E.faults err.old) (E.faults err.new)) (E.out err.old) (E.out err.new) (message words.now (commands_in readings.script) result)) }
    ensures steps { OverTold (S.held shelf.old) words.now (λ files readings. steps.new ≤ steps.old + most_run_steps files readings) }
    ensures within_work { OverTold (S.held shelf.old) words.now (λ files readings. IsRunWithinWork files readings steps.old steps.new) }
    ensures no_steps { TakesNoStep words.now → steps.new ≡ steps.old }
{
    let mut commands = List::new(alloc);
    let status = perform_words(alloc, words, &mut commands, shelf, out, steps);
    let status = flushed(status, out);
    report(words, commands.as_slice(), status, err);
    status
}
