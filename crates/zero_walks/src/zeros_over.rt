//! What a walk with all starts 0 compares with, where only what differs is kept apart.

ghost use Rattle.std.specs.Prelude.{◌≡◌, ◌+◌, option_copied};

use crate::zero_walks::ZeroWalks;
use document_walk::snapshot::Snapshots;
use std::sync::ledger::Ledger;
use steps::Steps;
use surroundings::walked::Walked;

/// What is kept of elements where all starts are 0, over a board: of an element of which nothing is kept so, what the board keeps.
#[derive(Drop)]
pub struct ZerosOver<'a, B> {
    pub zeros: &'a ZeroWalks,
    pub board: &'a B,
}

impl<'a, B: Snapshots> Snapshots for ZerosOver<'a, B> {
    ghost use Rattle.std.specs.FinMap.{get};
    ghost use Rattle.std.specs.Option.{option_or};

    ghost kept = { λ over key. option_or (get over.zeros.now.held key) (B.kept over.board.now key) };

    fn walked<L: Ledger>(&self, key: usize, steps: &mut Steps<L>) -> Option<&Walked> {
        if let Some(walked) = self.zeros.get(key) {
            steps.tick();
            return Some(walked);
        }
        self.board.walked(key, steps)
    }
}
