//! Changes of an arena's nodes that can be done without memory.

use plain_types::node::Node;

/// A place among the children of a node.
#[derive(Clone, Copy)]
pub(crate) struct ChildPlace {
    pub(crate) parent: usize,
    pub(crate) index: usize,
}

/// What becomes of the nodes. The opposite of a change is a change too.
#[derive(Drop)]
pub(crate) enum Change {
    Nothing,
    /// The node under this key becomes another.
    Relabel {
        key: usize,
        node: Node,
    },
    /// A node that is kept aside, with all under it, becomes a child. The keys are those of them all.
    PutIn {
        key: usize,
        keys: Vec<usize>,
        place: ChildPlace,
    },
    /// A child is put aside, with all under it. The keys are those of them all.
    TakeOut {
        key: usize,
        keys: Vec<usize>,
        place: ChildPlace,
    },
    /// A child becomes the child at another place, told as it is once the node is taken out.
    Move {
        key: usize,
        from: ChildPlace,
        to: ChildPlace,
    },
}
