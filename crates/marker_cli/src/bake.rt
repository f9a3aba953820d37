//! The command `bake DOC SHEET`.

ghost use Rattle.std.specs.Prelude.{◌≡◌, ◌≤◌, ◌+◌, ◌*◌, ℕ, IfErr, IfOk, List, OnErr, OnOk, Some, encode_utf8_all};
ghost use Rattle.std.specs.Str.{chars};
ghost use Rattle.bake_book.specs.Dressing.{dressed_document};
ghost use Rattle.bake_definitions.specs.Places.{left_out, placed};
ghost use Rattle.bake_definitions.specs.Woven.{IsBaked};
ghost use Rattle.baked_text.specs.Walks.{saturated};
ghost use Rattle.document_walk.specs.Elements.{element_count};
ghost use Rattle.ports.specs.Causes.{Raises, Rose, RoseAbove};
ghost use Rattle.ports.specs.Files.{Files};
ghost use Rattle.ports.specs.Grown.{grown, GrowsByFront};
ghost use Rattle.xml_definitions.specs.Texts.{IsDocumentText};
ghost use Rattle.marker_cli.specs.Bake.{BakesTo, bake_output, most_bake_steps, with_left_out};
ghost use Rattle.marker_cli.specs.Documents.{DocumentReadsAs, Reading};
ghost use Rattle.marker_cli.specs.Ends.{EndsAs, IsCaused, IsPutCaused, IsRefusal, IsWhole, ReadsFailed, part_status};
ghost use Rattle.marker_cli.specs.Names.{TellsOfLine};
ghost use Rattle.marker_cli.specs.Run.{size_of};

use crate::fetch_text::fetch_text;
use crate::read_texts::read_tree;
use crate::status::{FileAt, Status};
use bake_book::bake::bake;
use marker_engine::engine::Engine;
use plain_types::tree::Tree;
use ports::shelf::Shelf;
use ports::sink::Sink;
use std::alloc::Global;
use std::sync::ledger::Ledger;
use steps::Steps;

/// How a run ends that wrote all, where so many texts found no place.
fn told_left_out(count: usize) -> Result<(), Status>
    ensures status { part_status result ≡ with_left_out count }
    ensures refused { IfErr result IsRefusal }
{
    if count == 0 {
        Ok(())
    } else {
        Err(Status::LeftOut { count })
    }
}

/// Puts what the text of a document bakes to under the sheet of this text, and answers how many texts found no place.
fn put_baked<O: Sink, L: Ledger>(
    alloc: Global,
    text: &str,
    tree: Tree,
    sheet: &str,
    out: &mut O,
    steps: &mut Steps<L>,
) -> Result<usize, Status>
    requires document { IsDocumentText (chars text.now) tree }
    ensures ok { OnOk result ((output : List ℕ) → IsBaked (chars text.now) (placed (dressed_document (chars sheet.now) tree)) output
        → O.out out.new ≡ grown (O.out out.old) (encode_utf8_all output)) }
    ensures left_out { IfOk result (λ count. count ≡ saturated (left_out (dressed_document (chars sheet.now) tree))) }
    ensures failed { OnErr result ((output : List ℕ) → IsBaked (chars text.now) (placed (dressed_document (chars sheet.now) tree)) output
        → GrowsByFront (O.out out.old) (O.out out.new) (encode_utf8_all output)) }
    ensures cause { IsPutCaused (Rose (O.faults out.old) (O.faults out.new)) result }
    ensures faults { O.faults out.old ≤ O.faults out.new }
    ensures steps { steps.new ≤ steps.old + (9 * element_count tree + 1) }
{
    let engine = Engine::start(alloc, tree, sheet, steps)?;
    Ok(bake(alloc, &engine, text, out, steps)?)
}

/// Writes the document of this name with the texts that the sheet of that name generates in it.
pub fn write_baked<S: Shelf, O: Sink, L: Ledger>(
    alloc: Global,
    document: &str,
    sheet: &str,
    shelf: &mut S,
    out: &mut O,
    steps: &mut Steps<L>,
) -> Result<(), Status>
    ensures told { (files : Files) (reading : Reading) (baked : List ℕ) → S.held shelf.old ≡ Some files
        → DocumentReadsAs files (chars document.now) (chars sheet.now) reading → BakesTo files (chars document.now) (chars sheet.now) reading baked
        → EndsAs (ReadsFailed (S.honest shelf.old) (S.faults shelf.old) (S.faults shelf.new)) (Rose (O.faults out.old) (O.faults out.new))
        (bake_output files (chars document.now) (chars sheet.now) reading baked) (O.out out.old) (O.out out.new) (part_status result) }
    ensures cause { IsCaused ⊥ (Rose (S.faults shelf.old) (S.faults shelf.new)) (RoseAbove 16777216 (S.taken shelf.old) (S.taken shelf.new))
        (Rose (O.faults out.old) (O.faults out.new)) (part_status result) }
    ensures refused { IfErr result IsRefusal }
    ensures file { ¬ (TellsOfLine (part_status result)) }
    ensures faults { O.faults out.old ≤ O.faults out.new }
    ensures reads { (files : Files) → S.held shelf.old ≡ Some files
        → IsWhole (part_status result) → Raises (S.taken shelf.old) (S.taken shelf.new) (size_of files (chars document.now) + size_of files (chars sheet.now)) }
    ensures steps { (files : Files) (reading : Reading) → S.held shelf.old ≡ Some files
        → DocumentReadsAs files (chars document.now) (chars sheet.now) reading → steps.new ≤ steps.old + most_bake_steps reading }
{
    let text = fetch_text(alloc, shelf, FileAt::Word(1), document)?;
    let style = fetch_text(alloc, shelf, FileAt::Word(2), sheet)?;
    let tree = read_tree(alloc, text.as_str())?;
    let left_out = put_baked(alloc, text.as_str(), tree, style.as_str(), out, steps)?;
    told_left_out(left_out)
}
