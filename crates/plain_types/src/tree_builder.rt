//! Trees that are being built.

ghost use Rattle.std.specs.Prelude.{◌≡◌, ◌∷◌, ◌++◌, ◌+◌, ◌-◌, IsTrue, OnOk, OnErr, []};
ghost use Rattle.plain_types.specs.Building.{accepts_node, is_inside, is_whole};
ghost use Rattle.plain_types.specs.Rows.{forest_of, row, rows};
ghost use Rattle.plain_types.specs.Tree.{HasDistinctNames};
ghost use Rattle.plain_types.specs.declared.node.Node.TheVariants as kind;

use crate::attr::Attr;
use crate::list::List;
use crate::memory::Memory;
use crate::node::Node;
use crate::row::Row;
use crate::text::Text;
use crate::tree::Tree;
use std::alloc::Global;
use std::marker::Model;

/// A tree that is being built from its first node to its last, as a document is read: `start` and `end`
/// stand for the tags of an element, `text` for its characters. Contracts see the nodes so far in tree
/// order, each with its depth, and how many elements are begun and not ended.
///
/// Each call takes constant time, amortized over the calls.
#[derive(Drop)]
pub struct TreeBuilder {
    nodes: List<Row>,
    begun: usize,
}

impl Model for TreeBuilder {
    ghost use Rattle.plain_types.specs.Building.{Building, IsBuilding};

    ghost Value = { Building };

    ghost view = { λ builder. record { rows = builder.nodes; inside = builder.begun } };

    ghost invariant = { λ builder. IsBuilding builder.nodes builder.begun };
}

impl TreeBuilder {
    /// A builder without nodes. It takes no memory.
    pub fn new(alloc: Global) -> TreeBuilder
        ensures empty { result ≡ record { rows = []; inside = 0 } }
    {
        TreeBuilder {
            nodes: List::new(alloc),
            begun: 0,
        }
    }

    /// Whether a node may come now: there is none yet, or an element is begun and not ended.
    pub fn accepts_node(&self) -> bool
        ensures { result ≡ accepts_node self.now }
    {
        self.nodes.as_slice().is_empty() || self.begun > 0
    }

    /// Whether an element is begun and not ended.
    pub fn is_inside(&self) -> bool
        ensures { result ≡ is_inside self.now }
    {
        self.begun > 0
    }

    /// Whether the tree may be finished now: there is a node, and no element is left open.
    pub fn is_whole(&self) -> bool
        ensures { result ≡ is_whole self.now }
    {
        !self.nodes.as_slice().is_empty() && self.begun == 0
    }

    /// Begins an element, whose attributes have distinct names.
    pub fn start(&mut self, name: Text, attrs: List<Attr>) -> Result<(), Memory>
        requires accepts { IsTrue (accepts_node self.old) }
        requires distinct { HasDistinctNames attrs }
        ensures ok { OnOk result (self.new ≡ record { rows = self.old.rows ++ row self.old.inside (kind.Element name attrs) ∷ []; inside = self.old.inside + 1 }) }
        ensures err { OnErr result (self.new ≡ self.old) }
    {
        let node = Node::Element { name, attrs };
        self.nodes.push(Row {
            depth: self.begun,
            node,
        })?;
        // The contract of `len` says that the count fits.
        let _count = self.nodes.len();
        self.begun += 1;
        Ok(())
    }

    /// Puts a run of characters.
    pub fn text(&mut self, characters: Text) -> Result<(), Memory>
        requires { IsTrue (accepts_node self.old) }
        ensures ok { OnOk result (self.new ≡ record { rows = self.old.rows ++ row self.old.inside (kind.Text characters) ∷ []; inside = self.old.inside }) }
        ensures err { OnErr result (self.new ≡ self.old) }
    {
        let node = Node::Text(characters);
        self.nodes.push(Row {
            depth: self.begun,
            node,
        })?;
        Ok(())
    }

    /// Ends the innermost element.
    pub fn end(&mut self)
        requires { IsTrue (is_inside self.old) }
        ensures ended { self.new ≡ record { rows = self.old.rows; inside = self.old.inside - 1 } }
    {
        self.begun -= 1;
    }

    /// The tree that was built.
    pub fn finish(self) -> Tree
        requires { IsTrue (is_whole self) }
        ensures rows { rows 0 result ≡ self.rows }
        ensures tree { result ≡ forest_of self.rows }
    {
        let TreeBuilder { nodes, begun: _ } = self;
        Tree { nodes }
    }
}
