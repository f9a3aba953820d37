//! Records that a walk reads.

ghost use Rattle.std.specs.Prelude.{◌≡◌, ◌+◌, ℕ, Option, option_copied};
ghost use Rattle.surroundings.specs.declared.walked.Walked.{Walked};
ghost use Rattle.document_walk.specs.Catching.{kept_on};

use snapshot_board::board::Board;
use std::sync::ledger::Ledger;
use steps::Steps;
use surroundings::walked::Walked;

/// A record of an element that keeps what the element was handed, and what was handed on behind its children.
pub trait Snapshot {
    /// What it keeps.
    ghost walked: { Self → Walked };

    /// What it keeps of that.
    fn walked(&self) -> &Walked
        ensures walked { result.now ≡ walked self.now };
}

impl Snapshot for Walked {
    ghost walked = { λ walked. walked };

    fn walked(&self) -> &Walked {
        self
    }
}

/// What is kept of the elements of a document: all that a walk reads of an evaluation before it.
pub trait Snapshots {
    /// What was handed to the element of a key and behind its children, where it is kept.
    ghost kept: { Self → ℕ → Option Walked };

    /// It, of the element of this key. It is a step.
    fn walked<L: Ledger>(&self, key: usize, steps: &mut Steps<L>) -> Option<&Walked>
        ensures walked { option_copied result ≡ kept self.now key }
        ensures step { steps.new ≡ steps.old + 1 };
}

impl<R: Snapshot + Drop> Snapshots for Board<R> {
    ghost kept = { λ board. kept_on R.walked board };

    fn walked<L: Ledger>(&self, key: usize, steps: &mut Steps<L>) -> Option<&Walked> {
        Some(self.get(key, steps)?.walked())
    }
}
