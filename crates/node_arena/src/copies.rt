//! Copies of nodes that are looked at.

ghost use Rattle.std.specs.Prelude.{◌≡◌, IfOk};
ghost use Rattle.node_arena.specs.Copies.{shown_node};

use plain_types::attr::Attr;
use plain_types::duplicate::Duplicate;
use plain_types::list::List;
use plain_types::memory::Memory;
use plain_types::node::{Node, NodeView};
use plain_types::text::Text;
use std::alloc::Global;

/// A list of copies of the attributes.
fn copied_attrs(alloc: Global, attrs: &[Attr]) -> Result<List<Attr>, Memory>
    ensures same { IfOk result (λ copy. copy ≡ attrs.now) }
{
    let mut copy = List::with_capacity(alloc, attrs.len())?;
    for attr in attrs {
        copy.push(attr.duplicate(alloc)?)?;
    }
    Ok(copy)
}

/// A node of its own, as the view shows it.
pub(crate) fn copied_node(alloc: Global, view: NodeView<'_>) -> Result<Node, Memory>
    ensures same { IfOk result (λ node. node ≡ shown_node view.entry) }
{
    match view {
        NodeView::Element { name, attrs } => Ok(Node::Element {
            name: Text::from_str(alloc, name)?,
            attrs: copied_attrs(alloc, attrs)?,
        }),
        NodeView::Text { characters } => Ok(Node::Text(Text::from_str(alloc, characters)?)),
    }
}
