//! Accesses of a board, as a table.

ghost use Rattle.std.specs.Prelude.{◌≡◌, ◌<◌, ◌≤◌};

use crate::board::Board;
use plain_types::memory::Memory;
use std::alloc::Global;
use std::marker::Brand;
use std::sync::ledger::{Blank, Ledger};
use std::test::Fail;
use steps::Steps;

/// The room that is reserved for a row.
const ROOM: usize = 4;

/// An access of a key, with the record that it is to answer.
#[derive(Clone, Copy)]
enum Access {
    Put(usize, u32, Option<u32>),
    Get(usize, Option<u32>),
    Take(usize, Option<u32>),
}

static ROWS: [&[Access]; 8] = [
    // nothing is there
    &[Access::Get(0, None), Access::Take(3, None)],
    // past the room there is never a record
    &[Access::Get(4, None), Access::Take(usize::MAX, None)],
    // what is put is there, under its key alone
    &[
        Access::Put(1, 10, None),
        Access::Get(1, Some(10)),
        Access::Get(0, None),
        Access::Get(2, None),
    ],
    // the record before is answered, and the new one is kept
    &[
        Access::Put(1, 10, None),
        Access::Put(1, 20, Some(10)),
        Access::Get(1, Some(20)),
    ],
    // what is taken is not there any more, and what is under other keys is
    &[
        Access::Put(0, 10, None),
        Access::Put(3, 20, None),
        Access::Take(0, Some(10)),
        Access::Take(0, None),
        Access::Get(0, None),
        Access::Get(3, Some(20)),
    ],
    // to take what is not there takes nothing
    &[
        Access::Put(2, 10, None),
        Access::Take(1, None),
        Access::Get(2, Some(10)),
    ],
    // a key is used again
    &[
        Access::Put(2, 10, None),
        Access::Take(2, Some(10)),
        Access::Put(2, 20, None),
        Access::Get(2, Some(20)),
    ],
    // a record is not changed by being read
    &[
        Access::Put(3, 10, None),
        Access::Get(3, Some(10)),
        Access::Get(3, Some(10)),
    ],
];

/// Whether the access answers what it is to answer.
fn answers<L: Ledger>(board: &mut Board<u32>, access: Access, steps: &mut Steps<L>) -> bool
    requires { ROOM ≤ board.old.room }
    ensures { board.new.room ≡ board.old.room }
{
    match access {
        Access::Put(key, value, before) => { key < ROOM && board.put(key, value, steps) == before }
        Access::Get(key, value) => board.get(key, steps).copied() == value,
        Access::Take(key, before) => board.take(key, steps) == before,
    }
}

/// Whether the accesses of a row answer so, one after the other, on a board with room.
fn comes_out<L: Ledger>(
    alloc: Global,
    row: &[Access],
    steps: &mut Steps<L>,
) -> Result<bool, Memory> {
    let mut board = Board::new(alloc);
    board.reserve(ROOM)?;
    for access in row {
        if !answers(&mut board, *access, steps) {
            return Ok(false);
        }
    }
    // to reserve less, or more, keeps what is there
    let before = board.get(3, steps).copied();
    board.reserve(1)?;
    board.reserve(9)?;
    Ok(board.get(3, steps).copied() == before)
}

/// The first row that does not come out.
fn first_wrong<L: Ledger>(
    rt: &HostRuntime,
    blank: Blank,
    alloc: Global,
) -> Result<Option<usize>, Memory>
    requires name { blank.name ≡ L.name }
    requires parts { blank.parts ≡ L.parts }
    requires some { 0 < L.parts }
{
    let mut steps = Steps::<L>::open(rt, blank);
    for (place, row) in ROWS.iter().enumerate() {
        if !comes_out(alloc, row, &mut steps)? {
            return Ok(Some(place));
        }
    }
    Ok(None)
}

#[test]
fn rows_come_out(rt: HostRuntime) -> Result<(), Fail> {
    let alloc = rt.alloc();
    assert_eq!(rt; first_wrong::<Brand>(&rt, Blank::new(1), alloc)?, None);
    Ok(())
}
