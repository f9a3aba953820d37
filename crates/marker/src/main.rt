//! The program `marker`: the generated texts of a styled XHTML document.
//!
//! Its arguments are the words of a run, the files of the system are its shelf, and its output and the
//! line of its status go to standard output and standard error. It exits with the status's code.
//!
//! ```text
//! $ marker dump list.xhtml empty.css
//! /0 marker "1. "
//! /1 marker "2. "
//! ```
#![tactic(auto)]

ghost use Rattle.std.specs.Prelude.{◌≡◌, ◌<◌, None};
ghost use Rattle.marker_cli.specs.Words.{ReadsAsForm};
ghost use Rattle.marker_cli.specs.declared.status.Status.TheVariants as status;

use marker_cli::form::read_form;
use marker_cli::report::report;
use marker_cli::run::run;
use marker_cli::status::Status;
use plain_types::list::List;
use plain_types::text::Text;
use ports::file_shelf::FileShelf;
use ports::std_sink::StdSink;
use std::env;
use std::io::{BufWriter, ErrorKind, Write};
use std::marker::Brand;
use std::process::ExitCode;
use std::sync::ledger::{Blank, Ledger};
use steps::Steps;

/// The arguments after the program's name.
fn read_words(rt: &HostRuntime) -> Result<List<Text>, Status> {
    let args = match env::args(rt) {
        Ok(args) => args,
        Err(error) if error.kind() == ErrorKind::OutOfMemory => return Err(Status::Memory),
        Err(_) => return Err(Status::Usage),
    };
    let mut words = List::new(rt.alloc());
    for arg in args.skip(1) {
        words.push(Text::from_str(rt.alloc(), arg.as_str())?)?;
    }
    Ok(words)
}

/// Ends without a run, with the line of this status.
fn end_with(rt: &HostRuntime, status: Status) -> Status
    ensures status { result ≡ status }
{
    report(&[], &[], status, &mut StdSink::new(rt.stderr()));
    status
}

/// Runs words, with a count of steps that nobody reads. The writer keeps output back, and the run flushes it.
fn run_form<L: Ledger, W: Write + Drop>(
    rt: &HostRuntime,
    blank: Blank,
    words: &[Text],
    writer: W,
) -> Status
    requires name { blank.name ≡ L.name }
    requires parts { blank.parts ≡ L.parts }
    requires some { 0 < L.parts }
    ensures usage { result ≡ status.Usage → ReadsAsForm words.now None }
{
    let mut shelf = FileShelf::new(rt);
    let mut out = StdSink::new(writer);
    let mut err = StdSink::new(rt.stderr());
    let mut steps = Steps::<L>::open(rt, blank);
    run(
        rt.alloc(),
        words,
        &mut shelf,
        &mut out,
        &mut err,
        &mut steps,
    )
}

/// Runs words over standard output, whose bytes a buffer keeps back.
fn run_buffered<L: Ledger>(rt: &HostRuntime, blank: Blank, words: &[Text]) -> Status
    requires name { blank.name ≡ L.name }
    requires parts { blank.parts ≡ L.parts }
    requires some { 0 < L.parts }
    ensures usage { result ≡ status.Usage → ReadsAsForm words.now None }
{
    match BufWriter::new(rt.alloc(), rt.stdout()) {
        Ok(writer) => run_form::<L, _>(rt, blank, words, writer),
        Err(_) => end_with(rt, Status::Memory),
    }
}

/// Runs words, which end as Usage exactly where they are of no form. The writer's buffer is taken after that is
/// known, so that want of memory can't hide it.
fn run_words<L: Ledger>(rt: &HostRuntime, blank: Blank, words: &[Text]) -> Status
    requires name { blank.name ≡ L.name }
    requires parts { blank.parts ≡ L.parts }
    requires some { 0 < L.parts }
    ensures no_form { ReadsAsForm words.now None → result ≡ status.Usage }
    ensures usage { result ≡ status.Usage → ReadsAsForm words.now None }
{
    match read_form(rt.alloc(), words) {
        Ok(Some(_)) => run_buffered::<L>(rt, blank, words),
        Ok(None) => end_with(rt, Status::Usage),
        Err(_) => end_with(rt, Status::Memory),
    }
}

fn main(rt: HostRuntime) -> ExitCode {
    let status = match read_words(&rt) {
        Ok(words) => run_words::<Brand>(&rt, Blank::new(1), words.as_slice()),
        Err(status) => end_with(&rt, status),
    };
    ExitCode::from(status.code())
}
