//! The dump of what an engine stands for.

ghost use Rattle.std.specs.Prelude.{◌≡◌, ◌≤◌, ◌+◌, OnOk, OnErr};
ghost use Rattle.document_walk.specs.Elements.{element_count};
ghost use Rattle.generated_texts.specs.Lines.{fresh_dump};
ghost use Rattle.marker_engine.specs.Engines.{source_of};
ghost use Rattle.ports.specs.Causes.{Rose};
ghost use Rattle.ports.specs.Grown.{grown, GrowsByFront};
ghost use Rattle.marker_cli.specs.Ends.{IsPutCaused};

use crate::status::Status;
use marker_engine::engine::Engine;
use ports::sink::Sink;
use std::alloc::Global;
use std::sync::ledger::Ledger;
use steps::Steps;

/// Puts the dump.
pub fn show<O: Sink, L: Ledger>(
    alloc: Global,
    engine: &Engine,
    out: &mut O,
    steps: &mut Steps<L>,
) -> Result<(), Status>
    ensures ok { OnOk result (O.out out.new ≡ grown (O.out out.old) (fresh_dump engine.now.sheet (source_of engine.now).tree)) }
    ensures failed { OnErr result (GrowsByFront (O.out out.old) (O.out out.new) (fresh_dump engine.now.sheet (source_of engine.now).tree)) }
    ensures cause { IsPutCaused (Rose (O.faults out.old) (O.faults out.new)) result }
    ensures faults { O.faults out.old ≤ O.faults out.new }
    ensures steps { steps.new ≤ steps.old + element_count (source_of engine.now).tree }
{
    Ok(engine.show(alloc, out, steps)?)
}
