//! A run of `marker`, from its words to its status.
//!
//! `run` is the one call that the program makes. In go the words (the program's arguments), a shelf that
//! files are read from, two sinks that bytes go to, and a count of steps. Out come a status, the output in
//! the first sink, and for a status other than Ok a line in the second. `Status::code` is the number with
//! which the program exits.
//!
//! The words are of one of nine forms. `dump DOC SHEET` writes the dump of a document under a sheet, `text DOC SHEET` its
//! lines of text, and `why DOC SHEET PATH` why an element of it is numbered as it is; `bake DOC SHEET` writes the document
//! with its generated texts put in; `edit DOC SHEET SCRIPT` does the commands of a script with a document and a sheet, each
//! `show` of which writes the dump of what the accepted edits so far have left;
//! `history DOC SHEET SCRIPT DEPTH` does so too, and undoes and redoes edits, as many as the depth says; `book SHEET SCRIPT DOC...`
//! does the commands of a script with several documents, whose references may cross from one to another; `table SHEET STYLE
//! FROM TO` writes numbers in a counter style; `gen SEED COUNT` does a run that is made up. Files are read in the order of
//! the words, each checked for its length and for UTF-8, then the documents are read, then the script.
//!
//! What a run means is in `specs/`, to be read from the plain to the composed:
//!
//! - `Output`: what a run over told files is to do, as a list of events;
//! - `Words`: the forms, and which words are of which form;
//! - `Turns`, `Documents` and `Aspects`: the events of `dump DOC SHEET`, `text DOC SHEET` and `why DOC SHEET
//!   PATH`;
//! - `Bake`: those of `bake DOC SHEET`;
//! - `Versions`: the versions of a document that are there, behind and ahead, and what edits and steps make of them;
//! - `Edit`: `play`, the events of commands, and with it those of `edit DOC SHEET SCRIPT` and of `history`;
//! - `OpenBooks` and `Parts`: a book as its commands leave it, and what its documents read as;
//! - `Book`: `play_book`, the events of its commands, and with it those of `book SHEET SCRIPT DOC...`;
//! - `Table`, `Generated` and `Tallies`: those of the other two;
//! - `EditSteps` and `BookSteps`: how many steps the commands of a script take at most, over the versions or the books that they
//!   go through;
//! - `WorkSteps` and `BookWork`: the same by the work of their edits: a number for each call that the commands make, within the
//!   bounds of that call;
//! - `Run`: `output`, the events of any words, `read_size`, how many bytes are read for them, and `most_run_steps` and
//!   `IsRunWithinWork`, how many steps they take at most, by the sizes of the documents and by the work of the edits;
//! - `Ends`: `EndsAs`, how a run may end against its output, and `IsSettled`, with which statuses nothing of it is kept back;
//! - `Names`, `Lines` and `Statuses`: the line and the code of a status, and the status of a fault.
//!
//! A text such as DOC reads as one tree or fails at one place, and this is a relation (`ReadsAsDocument`), which no
//! definition computes; so it is with SCRIPT (`ReadsAsScript`), and with what DOC bakes to (`IsBaked`). So `output` takes
//! what the words and texts read as, the `Readings`. `run` gives some that are right where it comes to read them
//! (`AreReadings`), and what its other clauses say of a shelf that tells its files (`OverTold`) holds of all such.
//!
//! `Stands` says where a run stands between two of its parts, `Takings` what these take, `Editors` what a script's
//! document stands for, and `OpenVolumes` what a book's volume does. Another aspect of a document has a line in
//! `aspect_bytes` and `words_of`. A command that joins has an `.._output` of its own in `specs/`, and a line in
//! `words_of`, `TextsReadAs`, `form_output`, `form_size`, `form_steps` and `IsFormWithinWork`; a status that joins has a
//! line in `code_of`, `message`, `IsCaused`, `IsStop`, `IsSettled`, `IsWhole` and `TellsOfLine`.
//!
//! The words, the order of refusals and the lines are our own.
//!
//! ```text
//! // with d.xhtml `<ol><li/></ol>` and an empty s.css it writes the line /0 marker "1. "
//! let status = run(alloc, words.as_slice(), &mut shelf, &mut out, &mut err, &mut steps);
//! ```
#![tactic(auto)]

pub mod aspect;
mod bake;
mod book;
mod edit;
mod editor;
mod fetch_text;
pub mod form;
mod generated;
pub mod laws;
mod open_book;
mod play;
mod play_book;
mod put_number;
mod read_texts;
pub mod report;
pub mod run;
mod show;
pub mod status;
mod table;
