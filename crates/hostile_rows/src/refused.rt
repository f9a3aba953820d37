//! Edits that are refused memory, and then done again.
//!
//! By themselves these rows refuse none. `rt try --test --fail-alloc N` does, and so does the part `again` of
//! `bench/hostile.sh`, which lets each of these rows run with a request for memory that is refused, one at a time.

ghost use Rattle.std.specs.Prelude.{◌≡◌, ◌<◌};

use edit_script::generate;
use edit_script::generator::GeneratedRun;
use marker_engine::edit_fault::EditFault;
use marker_engine::engine::Engine;
use node_arena::arena::has_element_root;
use plain_types::edit::Edit;
use ports::fixed_sink::FixedSink;
use std::alloc::Global;
use std::marker::Brand;
use std::sync::ledger::{Blank, Ledger};
use std::test::Fail;
use steps::Steps;

/// Seed and COUNT of a run that is made up, whose document has some 1,000 elements, and how many of its edits are done.
const SEED: u32 = 1;

const COUNT: u32 = 1_240;

const EDITS: usize = 200;

/// Room for the dump of that document.
const ROOM: usize = 100_000;

/// Does an edit, and where it is refused memory does it again. One that has no place changes nothing.
fn do_edit<L: Ledger>(
    alloc: Global,
    engine: &mut Engine,
    edit: &Edit,
    steps: &mut Steps<L>,
) -> Result<(), EditFault> {
    let mut answer = engine.apply(alloc, edit, steps);
    if answer == Err(EditFault::Memory) {
        answer = engine.apply(alloc, edit, steps);
    }
    match answer {
        Err(EditFault::Memory) => Err(EditFault::Memory),
        _ => Ok(()),
    }
}

fn do_edits<L: Ledger>(
    alloc: Global,
    engine: &mut Engine,
    edits: &[Edit],
    steps: &mut Steps<L>,
) -> Result<(), EditFault> {
    for edit in edits.iter().take(EDITS) {
        do_edit(alloc, engine, edit, steps)?;
    }
    Ok(())
}

/// What an engine shows after the edits.
fn shown<L: Ledger>(
    alloc: Global,
    engine: &mut Engine,
    edits: &[Edit],
    steps: &mut Steps<L>,
) -> Result<FixedSink, Fail> {
    do_edits(alloc, engine, edits, steps)?;
    let mut out = FixedSink::new(alloc, ROOM)?;
    engine.show(alloc, &mut out, steps)?;
    Ok(out)
}

/// The dump of the document that is made up, after its edits.
fn dump_after<L: Ledger>(rt: &HostRuntime, blank: Blank) -> Result<FixedSink, Fail>
    requires name { blank.name ≡ L.name }
    requires parts { blank.parts ≡ L.parts }
    requires some { 0 < L.parts }
{
    let alloc = rt.alloc();
    let mut steps = Steps::<L>::open(rt, blank);
    let GeneratedRun {
        document,
        sheet,
        edits,
    } = generate(alloc, SEED, COUNT)?;
    if !has_element_root(&document) {
        return Err(Fail::from("no document"));
    }
    let mut engine = Engine::start(alloc, document, sheet.as_str(), &mut steps)?;
    shown(alloc, &mut engine, edits.as_slice(), &mut steps)
}

/// The same, with steps that nobody reads.
fn dump_of_run(rt: &HostRuntime) -> Result<FixedSink, Fail> {
    dump_after::<Brand>(rt, Blank::new(1))
}

/// The edits are done twice. At most one of the two runs is refused memory, and the dumps are the same.
#[test]
fn edits_refused_memory_are_done_again(rt: HostRuntime) -> Result<(), Fail> {
    let first = dump_of_run(&rt)?;
    let second = dump_of_run(&rt)?;
    assert!(rt; first.bytes() == second.bytes());
    Ok(())
}
