//! The commands that write an aspect of a document under a sheet: `dump DOC SHEET`, `text DOC SHEET` and
//! `why DOC SHEET PATH`.

ghost use Rattle.std.specs.Prelude.{◌≡◌, ◌≤◌, ◌+◌, ◌*◌, Some, IfErr, OnOk, OnErr};
ghost use Rattle.std.specs.Str.{chars};
ghost use Rattle.document_walk.specs.Elements.{element_count};
ghost use Rattle.marker_engine.specs.Engines.{source_of};
ghost use Rattle.node_arena.specs.Document.{HasElementRoot};
ghost use Rattle.ports.specs.Causes.{Raises, Rose, RoseAbove};
ghost use Rattle.ports.specs.Files.{Files};
ghost use Rattle.ports.specs.Grown.{grown, GrowsByFront};
ghost use Rattle.text_view.specs.Views.{text_view};
ghost use Rattle.why_report.specs.Accounts.{account};
ghost use Rattle.marker_cli.specs.Aspects.{account_or_refusal, aspect_bytes, aspect_output, most_steps};
ghost use Rattle.marker_cli.specs.Documents.{DocumentReadsAs, Reading};
ghost use Rattle.marker_cli.specs.Ends.{EndsAs, IsCaused, IsPutCaused, IsStop, ReadsFailed, part_status};
ghost use Rattle.marker_cli.specs.Names.{TellsOfLine};
ghost use Rattle.marker_cli.specs.Run.{size_of};

use crate::fetch_text::fetch_text;
use crate::read_texts::read_tree;
use crate::show::show;
use crate::status::{FileAt, Status};
use marker_engine::engine::Engine;
use plain_types::path::Path;
use plain_types::tree::Tree;
use ports::shelf::Shelf;
use ports::sink::{Sink, put_all};
use std::alloc::Global;
use std::sync::ledger::Ledger;
use steps::Steps;
use text_view::view::view;
use why_report::explain::explain;
use why_report::why_fault::WhyFault;

/// What is written of a document under a sheet.
#[derive(Drop)]
pub enum Aspect {
    /// Its dump.
    Dump,
    /// Its lines of text.
    Text,
    /// Why the element at this path is numbered and marked as it is.
    Why(Path),
}

/// Puts the lines of text.
fn put_text<O: Sink, L: Ledger>(
    alloc: Global,
    engine: &Engine,
    out: &mut O,
    steps: &mut Steps<L>,
) -> Result<(), Status>
    ensures ok { OnOk result (O.out out.new ≡ grown (O.out out.old) (text_view engine.now.sheet (source_of engine.now).tree)) }
    ensures failed { OnErr result (GrowsByFront (O.out out.old) (O.out out.new) (text_view engine.now.sheet (source_of engine.now).tree)) }
    ensures cause { IsPutCaused (Rose (O.faults out.old) (O.faults out.new)) result }
    ensures faults { O.faults out.old ≤ O.faults out.new }
    ensures steps { steps.new ≤ steps.old + element_count (source_of engine.now).tree }
{
    Ok(view(alloc, engine, out, steps)?)
}

/// Puts the account of the element at a path, or a line that the path leads to none.
fn put_account<O: Sink, L: Ledger>(
    alloc: Global,
    path: &Path,
    engine: &Engine,
    out: &mut O,
    steps: &mut Steps<L>,
) -> Result<(), Status>
    ensures ok { OnOk result (O.out out.new ≡ grown (O.out out.old) (account_or_refusal (account engine.now.sheet (source_of engine.now).tree path.now))) }
    ensures failed { OnErr result (GrowsByFront (O.out out.old) (O.out out.new) (account_or_refusal (account engine.now.sheet (source_of engine.now).tree path.now))) }
    ensures cause { IsPutCaused (Rose (O.faults out.old) (O.faults out.new)) result }
    ensures faults { O.faults out.old ≤ O.faults out.new }
    ensures step { steps.new ≤ steps.old + 1 }
{
    match explain(alloc, engine, path, out, steps) {
        Ok(()) => Ok(()),
        Err(WhyFault::NoElement) => Ok(put_all(out, b"refused no-element\n")?),
        Err(WhyFault::WriteFault) => Err(Status::WriteFault),
        Err(WhyFault::Memory) => Err(Status::Memory),
    }
}

/// Puts this aspect of what an engine stands for.
fn put_shown<O: Sink, L: Ledger>(
    alloc: Global,
    aspect: &Aspect,
    engine: &Engine,
    out: &mut O,
    steps: &mut Steps<L>,
) -> Result<(), Status>
    requires element { HasElementRoot (source_of engine.now).tree }
    ensures ok { OnOk result (O.out out.new ≡ grown (O.out out.old) (aspect_bytes aspect.now engine.now.sheet (source_of engine.now).tree)) }
    ensures failed { OnErr result (GrowsByFront (O.out out.old) (O.out out.new) (aspect_bytes aspect.now engine.now.sheet (source_of engine.now).tree)) }
    ensures cause { IsPutCaused (Rose (O.faults out.old) (O.faults out.new)) result }
    ensures faults { O.faults out.old ≤ O.faults out.new }
    ensures steps { steps.new ≤ steps.old + element_count (source_of engine.now).tree }
{
    match aspect {
        Aspect::Dump => show(alloc, engine, out, steps),
        Aspect::Text => put_text(alloc, engine, out, steps),
        Aspect::Why(path) => put_account(alloc, path, engine, out, steps),
    }
}

/// Puts this aspect of a document, whose root is an element, under the sheet of this text.
fn put_aspect<O: Sink, L: Ledger>(
    alloc: Global,
    aspect: &Aspect,
    tree: Tree,
    sheet: &str,
    out: &mut O,
    steps: &mut Steps<L>,
) -> Result<(), Status>
    requires element { HasElementRoot tree }
    ensures ok { OnOk result (O.out out.new ≡ grown (O.out out.old) (aspect_bytes aspect.now (chars sheet.now) tree)) }
    ensures failed { OnErr result (GrowsByFront (O.out out.old) (O.out out.new) (aspect_bytes aspect.now (chars sheet.now) tree)) }
    ensures cause { IsPutCaused (Rose (O.faults out.old) (O.faults out.new)) result }
    ensures faults { O.faults out.old ≤ O.faults out.new }
    ensures steps { steps.new ≤ steps.old + 8 * element_count tree }
{
    let engine = Engine::start(alloc, tree, sheet, steps)?;
    put_shown(alloc, aspect, &engine, out, steps)
}

/// Writes this aspect of the document of this name under the sheet of that name.
pub fn write_aspect<S: Shelf, O: Sink, L: Ledger>(
    alloc: Global,
    aspect: &Aspect,
    document: &str,
    sheet: &str,
    shelf: &mut S,
    out: &mut O,
    steps: &mut Steps<L>,
) -> Result<(), Status>
    ensures told { (files : Files) (reading : Reading) → S.held shelf.old ≡ Some files
        → DocumentReadsAs files (chars document.now) (chars sheet.now) reading
        → EndsAs (ReadsFailed (S.honest shelf.old) (S.faults shelf.old) (S.faults shelf.new)) (Rose (O.faults out.old) (O.faults out.new))
        (aspect_output files aspect.now (chars document.now) (chars sheet.now) reading) (O.out out.old) (O.out out.new) (part_status result) }
    ensures cause { IsCaused ⊥ (Rose (S.faults shelf.old) (S.faults shelf.new)) (RoseAbove 16777216 (S.taken shelf.old) (S.taken shelf.new))
        (Rose (O.faults out.old) (O.faults out.new)) (part_status result) }
    ensures file { ¬ (TellsOfLine (part_status result)) }
    ensures stops { IfErr result IsStop }
    ensures faults { O.faults out.old ≤ O.faults out.new }
    ensures reads { (files : Files) → S.held shelf.old ≡ Some files
        → OnOk result (Raises (S.taken shelf.old) (S.taken shelf.new) (size_of files (chars document.now) + size_of files (chars sheet.now))) }
    ensures steps { (files : Files) (reading : Reading) → S.held shelf.old ≡ Some files
        → DocumentReadsAs files (chars document.now) (chars sheet.now) reading → steps.new ≤ steps.old + most_steps reading }
{
    let text = fetch_text(alloc, shelf, FileAt::Word(1), document)?;
    let style = fetch_text(alloc, shelf, FileAt::Word(2), sheet)?;
    let tree = read_tree(alloc, text.as_str())?;
    put_aspect(alloc, aspect, tree, style.as_str(), out, steps)
}
