//! Trees of nodes.

ghost use Rattle.std.specs.Prelude.{◌≡◌, ◌<◌, length};
ghost use Rattle.std.specs.List.{HoldsAt};
ghost use Rattle.plain_types.specs.Rows.{rows};
ghost use Rattle.plain_types.specs.Tree.{IsTree};
ghost use Rattle.plain_types.specs.View.{Shows};

use crate::duplicate::Duplicate;
use crate::list::List;
use crate::memory::Memory;
use crate::node::{Node, NodeView};
use crate::row::Row;
use std::alloc::Global;
use std::marker::Model;

/// A tree of nodes: a document, or the one node of a fragment. Contracts see the forest of its root.
///
/// The nodes are kept in tree order, each with its depth, so that no call recurses and a tree may be of
/// any depth. A node is named by its place in tree order, from 0, the root's.
#[derive(Drop)]
pub struct Tree {
    pub(crate) nodes: List<Row>,
}

impl Model for Tree {
    ghost use Rattle.forest.specs.Forest.{Forest, coded_forest};
    ghost use Rattle.plain_types.specs.declared.node.Node.{Node};
    ghost use Rattle.plain_types.specs.contracts.node.Node as node;
    ghost use Rattle.plain_types.specs.Rows.{IsSpelled, forest_of};

    ghost Value = { Forest Node };

    ghost coded = { coded_forest node.the_row.coded };

    ghost view = { λ tree. forest_of tree.nodes };

    ghost invariant = { λ tree. IsSpelled tree.nodes };
}

impl Tree {
    /// How many nodes there are: at least 1. Constant time. What every tree is, `IsTree` says.
    pub fn len(&self) -> usize
        ensures nodes { result ≡ length (rows 0 self.now) }
        ensures sound { IsTree self.now }
    {
        self.nodes.len()
    }

    /// How many elements the node at this place of tree order is in. Constant time.
    pub fn depth(&self, place: usize) -> usize
        requires { place < length (rows 0 self.now) }
        ensures depth { HoldsAt (λ row. result ≡ row.depth) (rows 0 self.now) place }
    {
        self.nodes.as_slice()[place].depth
    }

    /// The node at this place of tree order. Constant time.
    pub fn node(&self, place: usize) -> NodeView<'_>
        requires { place < length (rows 0 self.now) }
        ensures shown { HoldsAt (λ row. Shows row.node result) (rows 0 self.now) place }
    {
        match &self.nodes.as_slice()[place].node {
            Node::Element { name, attrs } => NodeView::Element {
                name: name.as_str(),
                attrs: attrs.as_slice(),
            },
            Node::Text(characters) => NodeView::Text {
                characters: characters.as_str(),
            },
        }
    }
}

impl Duplicate for Tree {
    fn duplicate(&self, alloc: Global) -> Result<Tree, Memory> {
        Ok(Tree {
            nodes: self.nodes.duplicate(alloc)?,
        })
    }
}
