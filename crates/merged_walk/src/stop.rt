//! Where a walk over two merged forests has to go.

/// How a walk goes on at a stop.
#[derive(Clone, Copy)]
pub enum Way {
    /// Past a tree that is gone.
    Past,
    /// Into a node that stays and has a place in it, or has another label.
    Inside,
    /// Into a tree that comes.
    Anew,
}

/// A stop of a walk: a place, or a node that has one in it.
#[derive(Clone, Copy)]
pub struct Stop {
    /// How many nodes it is in.
    pub depth: usize,
    /// The node of the new forest at which the walk goes on; with none the level ends there.
    pub link: Option<usize>,
    /// How it goes on.
    pub way: Way,
    /// The element of the old forest, on the same level, that was handed what was handed at the stop; with none that
    /// is told by their parent.
    pub from: Option<usize>,
}
