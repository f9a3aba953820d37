//! The count of steps, by which a contract bounds how much work a call does.
//!
//! A step is one call of the cascade for an element (`style_of` of `mini_cascade`), one of either of the two calls
//! that evaluate an element (`eval_element` and `close_element` of `box_eval`), or one access to a record that is
//! kept (`get`, `put` and `take` of a board of `snapshot_board`). Nothing else is a step.
//! What takes a step is lent a `&mut Steps<L>` and ticks it once, so that a caller's clause can say how much
//! the number rose, as `steps.new ≤ steps.old + 3 * element_count document`, three steps an element.
//!
//! The count takes no bytes when the program runs: contracts see a number, the code has none to read.
//! The number has no end, so it never saturates and never wraps.
//!
//! No library body can count privately, with steps that its contract doesn't show. A count is opened
//! with a `&HostRuntime`, which only `main` and tests have, or with a [`CallFromC`], which only a
//! function that C calls is given: the fields of both are private, and no function makes either. Two
//! counts are never mistaken for one another either: `L` names the ledger that a count belongs to.
//!
//! ```
//! fn settle<L: Ledger>(steps: &mut Steps<L>) -> usize
//!     ensures steps { steps.new ≡ steps.old + 2 }
//! {
//!     steps.tick();
//!     steps.tick();
//!     8
//! }
//!
//! // the caller picks the ledger: settled::<Brand>(&rt, Blank::new(1))
//! fn settled<L: Ledger>(rt: &HostRuntime, blank: Blank) -> usize
//!     requires name { blank.name ≡ L.name }
//!     requires parts { blank.parts ≡ L.parts }
//!     requires some { 0 < L.parts }
//! {
//!     let mut steps = Steps::<L>::open(rt, blank);
//!     settle(&mut steps)
//! }
//! ```
#![tactic(auto)]

ghost use Rattle.std.specs.Prelude.{◌≡◌, ℕ, ◌+◌, ◌<◌};

use std::marker::Model;
use std::sync::ledger::{Blank, Book, Ledger, Share};

/// The leave to open a count that a call from C brings. It takes no bytes, so C passes nothing for it.
#[repr(C)]
#[derive(Drop)]
pub struct CallFromC {
    seal: (),
}

/// How many steps were taken since it was opened. Only `tick` changes it.
#[derive(Drop)]
pub struct Steps<L: Ledger> {
    book: Book<L>,
    share: Share<L>,
}

impl<L: Ledger> Model for Steps<L> {
    ghost Value = { ℕ };

    ghost view = { λ steps. steps.book.total };

    ghost invariant = { λ steps. 0 < steps.share.parts };
}

impl<L: Ledger> Steps<L> {
    /// A count that stands at 0. The blank is used up, so that a ledger has one count. The runtime is
    /// only the leave to open one.
    pub fn open(_rt: &HostRuntime, blank: Blank) -> Steps<L>
        requires name { blank.name ≡ L.name }
        requires parts { blank.parts ≡ L.parts }
        requires some { 0 < L.parts }
        ensures zero { result ≡ 0 }
    {
        Steps::of(blank)
    }

    /// A count that stands at 0, for a call from C. The blank and the leave are used up, so that one
    /// call opens one count.
    pub fn open_for_c(_leave: CallFromC, blank: Blank) -> Steps<L>
        requires name { blank.name ≡ L.name }
        requires parts { blank.parts ≡ L.parts }
        requires some { 0 < L.parts }
        ensures zero { result ≡ 0 }
    {
        Steps::of(blank)
    }

    fn of(blank: Blank) -> Steps<L>
        requires name { blank.name ≡ L.name }
        requires parts { blank.parts ≡ L.parts }
        requires some { 0 < L.parts }
        ensures zero { result ≡ 0 }
    {
        let (book, share) = blank.open::<L>();
        Steps { book, share }
    }

    /// Counts one step, in constant time.
    pub fn tick(&mut self)
        ensures step { self.new ≡ self.old + 1 }
    {
        self.book.add(&mut self.share, 1);
    }
}

#[cfg(test)]
mod tests {
    use super::*;
    use std::marker::Brand;
    use std::test::Fail;

    fn settle<L: Ledger>(steps: &mut Steps<L>) -> usize
        ensures steps { steps.new ≡ steps.old + 2 }
    {
        steps.tick();
        steps.tick();
        8
    }

    fn settled<L: Ledger>(rt: &HostRuntime, blank: Blank) -> usize
        requires name { blank.name ≡ L.name }
        requires parts { blank.parts ≡ L.parts }
        requires some { 0 < L.parts }
    {
        let mut steps = Steps::<L>::open(rt, blank);
        settle(&mut steps)
    }

    #[test]
    fn opens_and_ticks(rt: HostRuntime) -> Result<(), Fail> {
        assert_eq!(rt; settled::<Brand>(&rt, Blank::new(1)), 8);
        Ok(())
    }
}
