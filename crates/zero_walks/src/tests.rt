//! What is kept, as a walk reads it, alone and over a board.

ghost use Rattle.std.specs.Prelude.{◌≡◌, ◌<◌};

use crate::zero_walks::ZeroWalks;
use crate::zeros_over::ZerosOver;
use document_walk::snapshot::Snapshots;
use plain_types::memory::Memory;
use std::alloc::Global;
use std::marker::Brand;
use std::sync::ledger::{Blank, Ledger};
use std::test::Fail;
use steps::Steps;
use surroundings::surroundings::Surroundings;
use surroundings::walked::Walked;

/// What the root of a document without children is handed, and hands on.
fn walked_root(alloc: Global) -> Result<Walked, Memory> {
    Ok(Walked {
        handed: Some(Surroundings::of_root(alloc)?),
        behind: None,
    })
}

/// Whether a walk finds something under a key.
fn is_kept<B: Snapshots, L: Ledger>(board: &B, key: usize, steps: &mut Steps<L>) -> bool {
    board.walked(key, steps).is_some()
}

/// Whether what is put is there, and what is taken is not; there is nothing past the room.
fn comes_out<L: Ledger>(alloc: Global, steps: &mut Steps<L>) -> Result<bool, Memory> {
    let mut zeros = ZeroWalks::new(alloc);
    zeros.reserve(4)?;
    zeros.put(1, walked_root(alloc)?);
    zeros.put(3, walked_root(alloc)?);
    zeros.take(1);
    zeros.take(7);
    Ok(!is_kept(&zeros, 1, steps) && is_kept(&zeros, 3, steps) && !is_kept(&zeros, 4, steps))
}

/// Whether what is kept is read over a board, and what is given is kept where there is room.
fn stands_over<L: Ledger>(alloc: Global, steps: &mut Steps<L>) -> Result<bool, Memory> {
    let mut board = ZeroWalks::new(alloc);
    board.reserve(4)?;
    board.put(3, walked_root(alloc)?);
    let mut zeros = ZeroWalks::new(alloc);
    zeros.reserve(2)?;
    zeros.put_missing(1, Some(walked_root(alloc)?));
    zeros.put_missing(2, Some(walked_root(alloc)?));
    zeros.put_missing(0, None);
    let over = ZerosOver {
        zeros: &zeros,
        board: &board,
    };
    Ok(
        is_kept(&over, 1, steps)
            && is_kept(&over, 3, steps)
            && !is_kept(&over, 0, steps)
            && !is_kept(&over, 2, steps),
    )
}

fn all_come_out<L: Ledger>(rt: &HostRuntime, blank: Blank, alloc: Global) -> Result<bool, Memory>
    requires name { blank.name ≡ L.name }
    requires parts { blank.parts ≡ L.parts }
    requires some { 0 < L.parts }
{
    let mut steps = Steps::<L>::open(rt, blank);
    Ok(comes_out(alloc, &mut steps)? && stands_over(alloc, &mut steps)?)
}

#[test]
fn what_is_put_is_there(rt: HostRuntime) -> Result<(), Fail> {
    let alloc = rt.alloc();
    assert!(rt; all_come_out::<Brand>(&rt, Blank::new(1), alloc)?);
    Ok(())
}
