//! Nodes of documents.

use crate::attr::Attr;
use crate::duplicate::Duplicate;
use crate::list::List;
use crate::memory::Memory;
use crate::text::Text;
use std::alloc::Global;

/// A node of a document, without its children.
#[derive(Drop)]
pub enum Node {
    /// An element with its attributes in their order. In a `Tree` no two of them have one name.
    Element { name: Text, attrs: List<Attr> },
    /// A run of characters.
    Text(Text),
}

/// A node as it can be looked at where it stands.
#[derive(Clone, Copy)]
pub enum NodeView<'a> {
    Element { name: &'a str, attrs: &'a [Attr] },
    Text { characters: &'a str },
}

impl Duplicate for Node {
    fn duplicate(&self, alloc: Global) -> Result<Node, Memory> {
        match self {
            Node::Element { name, attrs } => Ok(Node::Element {
                name: name.duplicate(alloc)?,
                attrs: attrs.duplicate(alloc)?,
            }),
            Node::Text(characters) => Ok(Node::Text(characters.duplicate(alloc)?)),
        }
    }
}
