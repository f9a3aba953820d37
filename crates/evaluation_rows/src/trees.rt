//! The trees of documents, and whether two are the same.

ghost use Rattle.std.specs.Prelude.{IfOk, IfSome};
ghost use Rattle.node_arena.specs.Document.{HasElementRoot};

use node_arena::arena::has_element_root;
use plain_types::attr::Attr;
use plain_types::memory::Memory;
use plain_types::node::NodeView;
use plain_types::tree::Tree;
use std::alloc::Global;
use xhtml_reader::fault::DocFault;
use xhtml_reader::read_document;

/// The tree of the document; none where the text is no document.
pub fn tree_of(alloc: Global, text: &str) -> Result<Option<Tree>, Memory>
    ensures element { IfOk result (λ found. IfSome found HasElementRoot) }
{
    match read_document(alloc, text) {
        Ok(tree) if has_element_root(&tree) => Ok(Some(tree)),
        Ok(_) => Ok(None),
        Err(DocFault::Malformed { line: _, column: _ }) => Ok(None),
        Err(DocFault::Memory) => Err(Memory),
    }
}

/// Whether attributes are the same, in the same order.
fn same_attrs(first: &[Attr], second: &[Attr]) -> bool {
    first.len() == second.len()
        && first.iter().zip(second).all(|(one, other)| {
            one.name.as_str() == other.name.as_str() && one.value.as_str() == other.value.as_str()
        })
}

/// Whether nodes are the same, without their children.
fn same_node(first: NodeView<'_>, second: NodeView<'_>) -> bool {
    match (first, second) {
        (
            NodeView::Element { name, attrs },
            NodeView::Element {
                name: other_name,
                attrs: other_attrs,
            },
        ) => name == other_name && same_attrs(attrs, other_attrs),
        (NodeView::Text { characters }, NodeView::Text { characters: others }) => {
            characters == others
        }
        _ => false,
    }
}

/// Whether trees are the same.
pub fn same_tree(first: &Tree, second: &Tree) -> bool {
    if first.len() != second.len() {
        return false;
    }
    for place in 0..first.len() {
        let same = first.depth(place) == second.depth(place)
            && same_node(first.node(place), second.node(place));
        if !same {
            return false;
        }
    }
    true
}
