//! Nodes in tree order.

use crate::duplicate::Duplicate;
use crate::memory::Memory;
use crate::node::Node;
use std::alloc::Global;

/// A node as it stands in tree order: how many elements it is in, and itself.
#[derive(Drop)]
pub struct Row {
    pub depth: usize,
    pub node: Node,
}

impl Duplicate for Row {
    fn duplicate(&self, alloc: Global) -> Result<Row, Memory> {
        Ok(Row {
            depth: self.depth,
            node: self.node.duplicate(alloc)?,
        })
    }
}
