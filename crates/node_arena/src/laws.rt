//! Laws of arenas and of their trees. The functions do nothing: each contract is a law, proved of every document.

ghost use Rattle.node_arena.specs.Document.{IsKeyedDocument};
ghost use Rattle.node_arena.specs.Laws.{OfEachDocument, EachNodeHasAPath, EachPathIsItsNodes, IsOrderTotal, IsOrderStrict, IsOrderTransitive, ArePlacesByKey};

use crate::arena::Arena;

/// An arena holds a document: no two nodes have one key, the one root is an element, texts have no children, and
/// the attributes of an element differ in name.
pub fn arena_holds_document(arena: &Arena)
    ensures document { IsKeyedDocument arena.now.tree }
{
    let _root = arena.root;
}

/// A path leads to at most one node, and a node has one path.
pub fn paths_name_nodes()
    ensures each_node { OfEachDocument EachNodeHasAPath }
    ensures each_path { OfEachDocument EachPathIsItsNodes }
{}

/// Tree order is a total order of the nodes.
pub fn tree_order_is_total()
    ensures total { OfEachDocument IsOrderTotal }
    ensures strict { OfEachDocument IsOrderStrict }
    ensures transitive { OfEachDocument IsOrderTransitive }
{}

/// The places of a document are its nodes in tree order, each with its path.
pub fn places_are_by_key()
    ensures places { OfEachDocument ArePlacesByKey }
{}
