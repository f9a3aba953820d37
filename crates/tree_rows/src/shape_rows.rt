//! Trees of every shape of up to four nodes, compared in all calls with the depths that they are made from; deep and
//! wide trees.

ghost use Rattle.forest.specs.Spots.{IsLive};

use node_arena::arena::{Arena, has_element_root};
use plain_types::attr::Attr;
use plain_types::list::List;
use plain_types::memory::Memory;
use plain_types::path::Path;
use plain_types::text::Text;
use plain_types::tree::Tree;
use plain_types::tree_builder::TreeBuilder;
use std::alloc::Global;
use std::test::Fail;

/// The depths of the nodes of a tree.
type Shape = &'static [usize];

/// Every shape of up to four nodes.
static SHAPES: [Shape; 9] = [
    &[0],
    &[0, 1],
    &[0, 1, 1],
    &[0, 1, 2],
    &[0, 1, 1, 1],
    &[0, 1, 1, 2],
    &[0, 1, 2, 1],
    &[0, 1, 2, 2],
    &[0, 1, 2, 3],
];

/// A leaf at an odd place is a text; all other nodes are elements.
fn is_text(depths: &[usize], place: usize) -> bool {
    let leaf = match (depths.get(place), depths.iter().skip(place).nth(1)) {
        (Some(depth), Some(next)) => next <= depth,
        _ => true,
    };
    place % 2 == 1 && leaf
}

/// The tree of a shape, whose elements are `n` with the attribute `a` of value `v`, and whose texts are `t`.
fn tree_of(alloc: Global, depths: &[usize]) -> Result<Option<Tree>, Memory> {
    let mut builder = TreeBuilder::new(alloc);
    let mut open = 0;
    for (place, &depth) in depths.iter().enumerate() {
        for _ended in depth..open {
            if builder.is_inside() {
                builder.end();
            }
        }
        if !builder.accepts_node() {
            return Ok(None);
        }
        if is_text(depths, place) {
            builder.text(Text::from_str(alloc, "t")?)?;
            open = depth;
        } else {
            let mut attrs = List::new(alloc);
            attrs.push(Attr {
                name: Text::from_str(alloc, "a")?,
                value: Text::from_str(alloc, "v")?,
            })?;
            builder.start(Text::from_str(alloc, "n")?, attrs)?;
            open = depth.saturating_add(1);
        }
    }
    for _ended in 0..open {
        if builder.is_inside() {
            builder.end();
        }
    }
    if builder.is_whole() {
        Ok(Some(builder.finish()))
    } else {
        Ok(None)
    }
}

/// The nearest node before it that is less deep.
fn parent_of(depths: &[usize], place: usize) -> Option<usize> {
    let depth = depths.get(place)?;
    for other in (0..place).rev() {
        if depths.get(other)? < depth {
            return Some(other);
        }
    }
    None
}

/// The nodes whose parent it is; the root alone has none.
fn children_of(
    alloc: Global,
    depths: &[usize],
    parent: Option<usize>,
) -> Result<Vec<usize>, Memory> {
    let mut children = Vec::new(alloc);
    for place in 0..depths.len() {
        if parent_of(depths, place) == parent {
            children.push(place)?;
        }
    }
    Ok(children)
}

/// The keys in tree order.
fn keys_of(alloc: Global, arena: &Arena) -> Result<Vec<usize>, Memory> {
    let mut keys = Vec::new(alloc);
    let mut at = arena.root();
    'walk: for _step in 0..8 {
        keys.push(at)?;
        match arena.next_in_order(at) {
            Some(next) => at = next,
            None => break,
        }
    }
    Ok(keys)
}

fn key_of(keys: &[usize], place: Option<&usize>) -> Option<usize> {
    keys.get(*place?).copied()
}

/// Whether a node has the parent and the children of its place.
fn has_its_links(
    alloc: Global,
    arena: &Arena,
    depths: &[usize],
    keys: &[usize],
    place: usize,
    at: usize,
) -> Result<bool, Memory>
    requires { IsLive arena.now.tree at }
{
    let parent = parent_of(depths, place);
    let children = children_of(alloc, depths, Some(place))?;
    for index in 0..5 {
        if arena.child(at, index) != key_of(keys, children.as_slice().get(index)) {
            return Ok(false);
        }
    }
    Ok(
        arena.parent(at) == key_of(keys, parent.as_ref())
            && arena.child_count(at) == children.len()
            && arena.first_child(at) == key_of(keys, children.as_slice().first())
            && arena.last_child(at) == key_of(keys, children.as_slice().last()),
    )
}

/// Whether a node has the index and the siblings of its place, and its path ends so.
fn has_its_siblings(
    alloc: Global,
    arena: &Arena,
    depths: &[usize],
    keys: &[usize],
    place: usize,
    at: usize,
) -> Result<bool, Memory>
    requires { IsLive arena.now.tree at }
{
    let siblings = children_of(alloc, depths, parent_of(depths, place))?;
    let index = arena.index_of(at);
    let previous = match index.checked_sub(1) {
        Some(before) => key_of(keys, siblings.as_slice().get(before)),
        None => None,
    };
    let path = arena.path_of(alloc, at)?;
    let last = path.as_slice().last().copied();
    Ok(
        key_of(keys, siblings.as_slice().get(index)) == Some(at)
            && arena.previous_sibling(at) == previous
            && arena.next_sibling(at)
                == key_of(keys, siblings.as_slice().get(index.saturating_add(1)))
            && arena.at(&path) == Some(at)
            && Some(path.as_slice().len()) == depths.get(place).copied()
            && last.unwrap_or(0) == index,
    )
}

/// Whether a node comes before just those of later places.
fn has_its_order(arena: &Arena, place: usize, at: usize) -> bool
    requires { IsLive arena.now.tree at }
{
    let mut other = arena.root();
    'walk: for other_place in 0..8 {
        if arena.precedes(at, other) != (place < other_place) {
            return false;
        }
        match arena.next_in_order(other) {
            Some(next) => other = next,
            None => break,
        }
    }
    true
}

/// Whether a node says what its place says.
fn has_its_words(arena: &Arena, depths: &[usize], place: usize, at: usize) -> bool
    requires { IsLive arena.now.tree at }
{
    if is_text(depths, place) {
        arena.name(at).is_none()
            && arena.characters(at) == Some("t")
            && arena.attrs(at).is_empty()
            && arena.attr(at, "a").is_none()
    } else {
        arena.name(at) == Some("n")
            && arena.characters(at).is_none()
            && arena.attrs(at).len() == 1
            && arena.attr(at, "a") == Some("v")
            && arena.attr(at, "A").is_none()
    }
}

/// Whether all calls on a node give what its place gives.
fn is_right_at(
    alloc: Global,
    arena: &Arena,
    depths: &[usize],
    keys: &[usize],
    place: usize,
    at: usize,
) -> Result<bool, Memory>
    requires { IsLive arena.now.tree at }
{
    Ok(
        has_its_links(alloc, arena, depths, keys, place, at)?
            && has_its_siblings(alloc, arena, depths, keys, place, at)?
            && has_its_order(arena, place, at)
            && has_its_words(arena, depths, place, at),
    )
}

/// Whether all calls on each node give what its place gives.
fn is_right_everywhere(
    alloc: Global,
    arena: &Arena,
    depths: &[usize],
    keys: &[usize],
) -> Result<bool, Memory> {
    let mut at = arena.root();
    'walk: for place in 0..8 {
        if !is_right_at(alloc, arena, depths, keys, place, at)? {
            return Ok(false);
        }
        match arena.next_in_order(at) {
            Some(next) => at = next,
            None => return Ok(place + 1 == depths.len()),
        }
    }
    Ok(false)
}

/// Whether a tree has nodes of these depths.
fn has_depths(tree: &Tree, depths: &[usize]) -> bool {
    let mut same = tree.len() == depths.len();
    for (place, depth) in depths.iter().enumerate() {
        same = same && place < tree.len() && tree.depth(place) == *depth;
    }
    same
}

/// Whether an arena of this shape gives in all calls what the shape gives.
fn is_right(alloc: Global, depths: &[usize]) -> Result<bool, Memory> {
    let Some(tree) = tree_of(alloc, depths)? else {
        return Ok(false);
    };
    if !has_element_root(&tree) {
        return Ok(false);
    }
    let arena = Arena::from_tree(alloc, &tree)?;
    let keys = keys_of(alloc, &arena)?;
    let back = arena.to_tree(alloc)?;
    Ok(has_depths(&back, depths) && is_right_everywhere(alloc, &arena, depths, keys.as_slice())?)
}

/// The first shape whose arena gives something else in some call.
fn first_wrong(alloc: Global, shapes: &[Shape]) -> Result<Option<Shape>, Memory> {
    for shape in shapes {
        if !is_right(alloc, shape)? {
            return Ok(Some(shape));
        }
    }
    Ok(None)
}

#[test]
fn every_shape_up_to_four_nodes(rt: HostRuntime) -> Result<(), Fail> {
    assert_eq!(rt; first_wrong(rt.alloc(), &SHAPES)?, None);
    Ok(())
}

/// A path into a root with two leaves, and whether a node is there.
type Led = (&'static [usize], bool);

static PATHS: [Led; 8] = [
    (&[0], true),
    (&[0, 0], false),
    (&[1], true),
    (&[1, 0], false),
    (&[2], false),
    (&[2, 0], false),
    (&[usize::MAX], false),
    (&[usize::MAX, 0], false),
];

/// The first path that leads elsewhere.
fn first_astray(alloc: Global, table: &[Led]) -> Result<Option<&'static [usize]>, Fail> {
    let tree = tree_of(alloc, &[0, 1, 1])?.ok_or("no tree")?;
    if !has_element_root(&tree) {
        return Err(Fail::from("no document"));
    }
    let arena = Arena::from_tree(alloc, &tree)?;
    for (steps, found) in table {
        if arena.at(&Path::of(alloc, steps)?).is_some() != *found {
            return Ok(Some(steps));
        }
    }
    Ok(None)
}

#[test]
fn paths_past_the_tree_lead_nowhere(rt: HostRuntime) -> Result<(), Fail> {
    assert_eq!(rt; first_astray(rt.alloc(), &PATHS)?, None);
    Ok(())
}

/// A root with so many elements in it: one in the other, or side by side.
fn large_tree(alloc: Global, count: usize, nested: bool) -> Result<Option<Tree>, Memory> {
    let mut builder = TreeBuilder::new(alloc);
    builder.start(Text::from_str(alloc, "n")?, List::new(alloc))?;
    for _element in 0..count {
        if !builder.accepts_node() {
            return Ok(None);
        }
        builder.start(Text::from_str(alloc, "n")?, List::new(alloc))?;
        if !nested && builder.is_inside() {
            builder.end();
        }
    }
    for _element in 0..count {
        if nested && builder.is_inside() {
            builder.end();
        }
    }
    if builder.is_inside() {
        builder.end();
    }
    if builder.is_whole() {
        Ok(Some(builder.finish()))
    } else {
        Ok(None)
    }
}

/// How many nodes a walk in tree order meets behind the root, up to so many, and whether the root
/// precedes the last and the last has a path of this length and this last position.
fn is_walked(
    alloc: Global,
    arena: &Arena,
    count: usize,
    length: usize,
    position: usize,
) -> Result<bool, Memory> {
    let mut at = arena.root();
    let mut met = 0;
    'walk: for step in 0..count {
        match arena.next_in_order(at) {
            Some(next) => at = next,
            None => break,
        }
        met = step;
    }
    let path = arena.path_of(alloc, at)?;
    Ok(
        met == count.saturating_sub(1)
            && arena.next_in_order(at).is_none()
            && arena.precedes(arena.root(), at)
            && !arena.precedes(at, arena.root())
            && path.as_slice().len() == length
            && path.as_slice().last().copied() == Some(position)
            && arena.at(&path) == Some(at),
    )
}

/// How many elements stand in the root, whether one in the other; and the length and the last position of the path of
/// the last.
type Large = (usize, bool, usize, usize);

static LARGE: [Large; 2] = [(100_000, true, 100_000, 0), (1_000_000, false, 1, 999_999)];

/// Whether an arena of this many nodes is walked as the row says, and gives as many back.
fn is_whole(alloc: Global, row: &Large) -> Result<bool, Memory> {
    let (count, nested, length, position) = *row;
    let Some(tree) = large_tree(alloc, count, nested)? else {
        return Ok(false);
    };
    if !has_element_root(&tree) {
        return Ok(false);
    }
    let arena = Arena::from_tree(alloc, &tree)?;
    Ok(
        is_walked(alloc, &arena, count, length, position)?
            && Some(arena.to_tree(alloc)?.len()) == count.checked_add(1),
    )
}

/// The first count of elements whose tree is another.
fn first_wrong_count(alloc: Global, table: &[Large]) -> Result<Option<usize>, Memory> {
    for row in table {
        if !is_whole(alloc, row)? {
            return Ok(Some(row.0));
        }
    }
    Ok(None)
}

#[test]
fn deep_and_wide_trees(rt: HostRuntime) -> Result<(), Fail> {
    assert_eq!(rt; first_wrong_count(rt.alloc(), &LARGE)?, None);
    Ok(())
}
