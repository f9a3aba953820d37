//! What comes to what is kept of elements where all starts are 0.

ghost use Rattle.std.specs.Prelude.{◌≡◌, IfOk};
ghost use Rattle.std.specs.FinMap.{empty};
ghost use Rattle.kept_elements.specs.Changes.{AreBelow};
ghost use Rattle.snapshot_board.specs.Records.{put_all};
ghost use Rattle.zero_walks.specs.Told.{walked_of};

use crate::room::room_for;
use plain_types::memory::Memory;
use std::alloc::Global;
use surroundings::told::Told;
use surroundings::walked::Walked;
use zero_walks::zero_walks::{ZeroWalks, walked_of};

/// What comes to what is kept of a walk with all starts 0, which is given room for it.
pub(crate) fn zeros_of(
    alloc: Global,
    zeros: &mut ZeroWalks,
    told: &[(usize, Told)],
) -> Result<Vec<(usize, Walked)>, Memory>
    ensures walked { IfOk result (λ walked. walked.items ≡ walked_of told.now) }
    ensures room { IfOk result (λ walked. AreBelow zeros.new.room walked.items) }
    ensures held { zeros.new.held ≡ zeros.old.held }
{
    let walked = walked_of(alloc, told)?;
    let room = room_for(walked.as_slice())?;
    zeros.reserve(room)?;
    Ok(walked)
}

/// What is kept of elements where all starts are 0, of which a walk with these starts has told this.
pub(crate) fn zeros_told(alloc: Global, told: &[(usize, Told)]) -> Result<ZeroWalks, Memory>
    ensures held { IfOk result (λ zeros. zeros.held ≡ put_all (walked_of told.now) empty) }
{
    let mut zeros = ZeroWalks::new(alloc);
    let walked = zeros_of(alloc, &mut zeros, told)?;
    zeros.bring(&[], walked);
    Ok(zeros)
}
