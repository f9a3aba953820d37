//! What elements were handed before their changes.

ghost use Rattle.std.specs.Prelude.{◌≡◌};
ghost use Rattle.zero_walks.specs.Missing.{put_missing};
ghost use Rattle.started_walk.specs.Settled.{saved, without_was, without_were};

use kept_elements::kept_change::KeptChange;
use zero_walks::zero_walks::ZeroWalks;

/// Moves what an element was handed before out of its change, and keeps it where nothing is kept of the element and there is room.
fn save_one(zeros: &mut ZeroWalks, change: &mut (usize, KeptChange))
    ensures held { zeros.new.held ≡ put_missing zeros.old.room change.old.0 change.old.1.was zeros.old.held }
    ensures room { zeros.new.room ≡ zeros.old.room }
    ensures change { change.new ≡ without_was change.old }
{
    zeros.put_missing(change.0, change.1.was.take());
}

/// The same of these elements. It takes no memory, and time linear in their number.
pub(crate) fn save(zeros: &mut ZeroWalks, changes: &mut [(usize, KeptChange)])
    ensures held { zeros.new.held ≡ saved zeros.old.room changes.old zeros.old.held }
    ensures room { zeros.new.room ≡ zeros.old.room }
    ensures changes { changes.new ≡ without_were changes.old }
{
    for change in changes.iter_mut() {
        save_one(zeros, change);
    }
}
