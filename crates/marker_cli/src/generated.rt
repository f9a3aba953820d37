//! The command `gen SEED COUNT`.

ghost use Rattle.std.specs.Prelude.{◌≡◌, ◌≤◌, ◌<◌, ◌+◌, ◌^◌, ℕ, IfErr, IfOk, List, OnOk, OnErr, [], sum};
ghost use Rattle.dirty_walk.specs.Books.{keyed_source};
ghost use Rattle.forest.specs.Keys.{without_keys};
ghost use Rattle.marker_engine.specs.Edited.{edited};
ghost use Rattle.marker_engine.specs.Engines.{source_of};
ghost use Rattle.node_arena.specs.Edits.{place_fault};
ghost use Rattle.plain_types.specs.declared.edit.Edit as declared;
ghost use Rattle.ports.specs.Causes.{HasCause, Rose};
ghost use Rattle.ports.specs.Grown.{grown, GrowsByFront};
ghost use Rattle.marker_cli.specs.EditSteps.{edit_steps};
ghost use Rattle.marker_cli.specs.Ends.{EndsAs, IsCaused, IsStop, part_status};
ghost use Rattle.marker_cli.specs.Generated.{IsGeneratedWithinWork, after_edits, edits_steps, generated_output, most_generated_steps, number_lines, numbers, outcome_steps, unedited, version_in, with_answer};
ghost use Rattle.marker_cli.specs.Output.{ends, writes};
ghost use Rattle.marker_cli.specs.Machinery.Takings.{Takes};
ghost use Rattle.marker_cli.specs.Machinery.Tallies.{tallied};
ghost use Rattle.marker_cli.specs.WorkSteps.{EditTakes, EditsTake};
ghost use Rattle.marker_cli.specs.declared.status.Status.TheVariants as status;

use crate::editor::engine_holds_document;
use crate::put_number::put_numbered;
use crate::status::Status;
use edit_merge::laws::inserts_one_tree;
use edit_script::generate;
use edit_script::generator::GeneratedRun;
use marker_engine::census::Census;
use marker_engine::edit_fault::EditFault;
use marker_engine::engine::Engine;
use plain_types::edit::Edit;
use plain_types::memory::Memory;
use ports::failed::Failed;
use ports::sink::Sink;
use std::alloc::Global;
use std::sync::ledger::Ledger;
use steps::Steps;

/// How many edits were accepted and refused.
#[derive(Clone, Copy)]
struct Tally {
    accepted: usize,
    refused: usize,
}

/// Does an edit and counts it, as accepted or as refused.
fn apply_counted<L: Ledger>(
    alloc: Global,
    edit: &Edit,
    engine: &mut Engine,
    tally: Tally,
    steps: &mut Steps<L>,
) -> Result<Tally, Memory>
    requires few { tally.accepted + tally.refused + 1 < 2 ^ 64 }
    ensures counted { IfOk result (λ new. tallied (source_of engine.new) new ≡ with_answer (tallied (source_of engine.old) tally) (edited (source_of engine.old) edit.now)) }
    ensures sum { IfOk result (λ new. new.accepted + new.refused ≡ tally.accepted + tally.refused + 1) }
    ensures steps { steps.new ≤ steps.old + edit_steps (version_in (source_of engine.old)) edit.now }
    ensures takes { (edits : List declared.Edit) → Takes (EditTakes (place_fault edit.now (without_keys engine.old.tree)) edit.now (keyed_source engine.old) (EditsTake edits (keyed_source engine.old)) (EditsTake edits))
        (EditsTake edits (keyed_source engine.new)) steps.old steps.new result }
{
    inserts_one_tree(edit);
    engine_holds_document(engine);
    let outcome = engine.apply(alloc, edit, steps);
    engine_holds_document(engine);
    match outcome {
        Ok(()) => Ok(Tally {
            accepted: tally.accepted + 1,
            refused: tally.refused,
        }),
        Err(EditFault::NoPlace | EditFault::IntoItself) => Ok(Tally {
            accepted: tally.accepted,
            refused: tally.refused + 1,
        }),
        Err(EditFault::Memory) => Err(Memory),
    }
}

/// Does the edits in their order.
fn apply_all<L: Ledger>(
    alloc: Global,
    edits: &[Edit],
    engine: &mut Engine,
    steps: &mut Steps<L>,
) -> Result<Tally, Memory>
    ensures tally { IfOk result (λ tally. tallied (source_of engine.new) tally ≡ after_edits edits.now (unedited (source_of engine.old))) }
    ensures steps { steps.new ≤ steps.old + edits_steps edits.now (unedited (source_of engine.old)) }
    ensures takes { Takes (EditsTake edits.now (keyed_source engine.old)) (EditsTake [] (keyed_source engine.new)) steps.old steps.new result }
{
    let mut tally = Tally {
        accepted: 0,
        refused: 0,
    };
    for edit in edits {
        tally = apply_counted(alloc, edit, engine, tally, steps)?;
    }
    Ok(tally)
}

/// Puts the lines about a run.
fn put_numbers<O: Sink>(census: Census, tally: Tally, out: &mut O) -> Result<(), Failed>
    ensures ok { OnOk result (O.out out.new ≡ grown (O.out out.old) (number_lines census.elements census.boxes tally.accepted tally.refused census.lines)) }
    ensures failed { OnErr result (GrowsByFront (O.out out.old) (O.out out.new) (number_lines census.elements census.boxes tally.accepted tally.refused census.lines)) }
    ensures cause { HasCause (O.faults out.old) (O.faults out.new) result }
{
    put_numbered(b"elements ", census.elements, b"\n", out)?;
    put_numbered(b"boxes ", census.boxes, b"\n", out)?;
    put_numbered(b"accepted ", tally.accepted, b"\n", out)?;
    put_numbered(b"refused ", tally.refused, b"\n", out)?;
    put_numbered(b"lines ", census.lines, b"\n", out)
}

/// Does the edits of a run, and writes how much there is of its document then, and how many edits were accepted and
/// refused.
fn put_outcome<O: Sink, L: Ledger>(
    alloc: Global,
    edits: &[Edit],
    engine: &mut Engine,
    out: &mut O,
    steps: &mut Steps<L>,
) -> Result<(), Status>
    ensures told { EndsAs ⊥ (Rose (O.faults out.old) (O.faults out.new)) (writes (numbers (after_edits edits.now (unedited (source_of engine.old)))) (ends status.Ok)) (O.out out.old) (O.out out.new) (part_status result) }
    ensures cause { IsCaused ⊥ ⊥ ⊥ (Rose (O.faults out.old) (O.faults out.new)) (part_status result) }
    ensures stops { IfErr result IsStop }
    ensures faults { O.faults out.old ≤ O.faults out.new }
    ensures steps { steps.new ≤ steps.old + outcome_steps edits.now (source_of engine.old) }
    ensures takes { (taken : List ℕ) × EditsTake edits.now (keyed_source engine.old) taken × (steps.new ≤ steps.old + sum taken) }
{
    let tally = apply_all(alloc, edits, engine, steps)?;
    Ok(put_numbers(engine.census(steps), tally, out)?)
}

/// Makes up the run of this seed with so many edits, does it, and writes how much there is of its document then,
/// and how many edits were accepted and refused.
pub fn generated<O: Sink, L: Ledger>(
    alloc: Global,
    seed: u32,
    count: u32,
    out: &mut O,
    steps: &mut Steps<L>,
) -> Result<(), Status>
    ensures told { EndsAs ⊥ (Rose (O.faults out.old) (O.faults out.new)) (generated_output seed count) (O.out out.old) (O.out out.new) (part_status result) }
    ensures cause { IsCaused ⊥ ⊥ ⊥ (Rose (O.faults out.old) (O.faults out.new)) (part_status result) }
    ensures stops { IfErr result IsStop }
    ensures faults { O.faults out.old ≤ O.faults out.new }
    ensures steps { steps.new ≤ steps.old + most_generated_steps seed count }
    ensures within_work { IsGeneratedWithinWork seed count steps.old steps.new }
{
    let GeneratedRun {
        document,
        sheet,
        edits,
    } = generate(alloc, seed, count)?;
    let mut engine = Engine::start(alloc, document, sheet.as_str(), steps)?;
    engine_holds_document(&engine);
    put_outcome(alloc, edits.as_slice(), &mut engine, out, steps)
}
