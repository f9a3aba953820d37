//! The stops of an edit where what it reaches goes and comes, from the document before it.

ghost use Rattle.std.specs.Prelude.{◌≡◌, IfOk, None};
ghost use Rattle.forest.specs.Forest.{Forest};
ghost use Rattle.forest.specs.Keys.{Keyed, without_keys};
ghost use Rattle.plain_types.specs.declared.node.Node.{Node};
ghost use Rattle.plain_types.specs.declared.sheet.Features.{Features};
ghost use Rattle.node_arena.specs.Edits.{place_fault};
ghost use Rattle.edit_merge.specs.EditMerges.{inserted_key};
ghost use Rattle.style_reach.specs.Reaches.{reach};
ghost use Rattle.styled_merge.specs.ReachStops.{reach_stops};

use edit_merge::nodes::{stops_at_node, stops_at_nodes};
use edit_merge::stops::{name_inserted, stops_of_edit};
use merged_walk::stop::Stop;
use node_arena::arena::Arena;
use node_arena::laws::arena_holds_document;
use plain_types::edit::Edit;
use plain_types::memory::Memory;
use std::alloc::Global;
use style_reach::extent::Reach;

/// The stops of an edit that the document allows and that is not done yet, in tree order, where what it reaches goes and
/// comes. Where it reaches no more than the edited trees and inserts one, 0 stands for the key of that tree's root until
/// [`name_inserted_root`].
///
/// It takes memory and time linear in the depths of the edit's places and of the nodes that it reaches, and time linear in
/// the siblings behind these up to the first element; `Memory` where that is wanting.
pub fn stops_of_reach(
    alloc: Global,
    arena: &Arena,
    edit: &Edit,
    extent: Reach,
) -> Result<Vec<Stop>, Memory>
    requires allowed { place_fault edit.now (without_keys arena.now.tree) ≡ None }
    requires reach { (features : Features) × (extent ≡ reach features arena.now.tree edit.now) }
    ensures stops { IfOk result (λ stops. stops.items ≡ reach_stops extent edit.now 0 arena.now.tree) }
{
    arena_holds_document(arena);
    match extent {
        Reach::Own => stops_of_edit(alloc, arena, edit),
        Reach::Under(top) => stops_at_node(alloc, arena, top),
        Reach::Both(first, second) => stops_at_nodes(alloc, arena, first, second),
        Reach::All => stops_at_node(alloc, arena, arena.root()),
    }
}

/// Puts the key of an inserted root into the stops of the edit, which is done now, if one of them goes on there. Time
/// linear in the edit's path.
pub fn name_inserted_root(arena: &Arena, edit: &Edit, extent: Reach, stops: &mut Vec<Stop>)
    ensures stops { (old : Forest (Keyed Node)) → stops.old.items ≡ reach_stops extent edit.now 0 old → stops.new.items ≡ reach_stops extent edit.now (inserted_key edit.now arena.now.tree) old }
{
    match extent {
        Reach::Own => name_inserted(arena, edit, stops),
        Reach::Under(_) | Reach::Both(_, _) | Reach::All => {}
    }
}
