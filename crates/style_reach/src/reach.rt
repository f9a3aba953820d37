//! The reach of an edit.

ghost use Rattle.std.specs.Prelude.{◌≡◌, option_and_then};
ghost use Rattle.forest.specs.Paths.{key_at};
ghost use Rattle.forest.specs.Spots.{IsLink, IsLive};
ghost use Rattle.style_reach.specs.Reaches.{all_features, attribute_at, both, coming_at, going_at, reach, reach_in_tree, seen_from, under};
ghost use Rattle.style_reach.specs.TouchedSheets.{holds_style, is_in_style, parent_at, passes, tells_language, touches_sheet};

use crate::extent::Reach;
use crate::style_elements::{have_style, holds_style, is_in_style, is_style};
use css_reader::features::features;
use node_arena::arena::Arena;
use plain_types::edit::Edit;
use plain_types::path::Path;
use plain_types::sheet::{Features, Sheet};
use plain_types::text::Text;

/// What the selectors of the user agent's sheet and of the author's look at. It takes no memory, and time linear in the
/// selectors.
pub fn all_features(agent: &Sheet, author: &Sheet) -> Features
    ensures features { result ≡ all_features agent.now author.now }
{
    let of_agent = features(agent);
    let of_author = features(author);
    Features {
        siblings: of_agent.siblings || of_author.siblings,
        positions: of_agent.positions || of_author.positions,
        empties: of_agent.empties || of_author.empties,
    }
}

/// The parent of the node at a path.
fn parent_at(arena: &Arena, path: &Path) -> Option<usize>
    ensures parent { result ≡ parent_at arena.now.tree path.now }
    ensures live { IsLink arena.now.tree result }
{
    arena.parent(arena.at(path)?)
}

/// Whether there is a node, and it stands in a style element or is one.
fn is_some_in_style(arena: &Arena, key: Option<usize>) -> bool
    requires live { IsLink arena.now.tree key }
    ensures { result ≡ passes (is_in_style arena.now.tree) key }
{
    match key {
        Some(key) => is_in_style(arena, key),
        None => false,
    }
}

/// Whether there is a node, and a style element stands in it or it is one.
fn does_some_hold_style(arena: &Arena, key: Option<usize>) -> bool
    requires live { IsLink arena.now.tree key }
    ensures { result ≡ passes (holds_style arena.now.tree) key }
{
    match key {
        Some(key) => holds_style(arena, key),
        None => false,
    }
}

/// Whether an attribute of this name says in which language the sheet of a style element is written.
fn tells_language(arena: &Arena, path: &Path, name: &Text) -> bool
    ensures { result ≡ tells_language arena.now.tree path.now name.now }
{
    match arena.at(path) {
        Some(key) => is_style(arena, key) && name.as_str() == "type",
        None => false,
    }
}

/// Whether an edit touches the sheet or a style element.
fn touches_sheet(arena: &Arena, edit: &Edit) -> bool
    ensures { result ≡ touches_sheet arena.now.tree edit.now }
{
    match edit {
        Edit::Insert {
            parent,
            index: _,
            fragment,
        } => have_style(fragment) || is_some_in_style(arena, arena.at(parent)),
        Edit::Remove { path } => {
            does_some_hold_style(arena, arena.at(path))
                || is_some_in_style(arena, parent_at(arena, path))
        }
        Edit::Move {
            from,
            parent,
            index: _,
        } => {
            does_some_hold_style(arena, arena.at(from))
                || is_some_in_style(arena, parent_at(arena, from))
                || is_some_in_style(arena, arena.at(parent))
        }
        Edit::SetAttr {
            path,
            name,
            value: _,
        } => tells_language(arena, path, name),
        Edit::UnsetAttr { path, name } => tells_language(arena, path, name),
        Edit::ReplaceSheet { text: _ } => true,
    }
}

/// From where a change among the children of a node is seen, if selectors look at more than the element and its
/// ancestors.
fn seen_from(arena: &Arena, features: Features, parent: usize) -> Option<usize>
    requires live { IsLive arena.now.tree parent }
    ensures { result ≡ seen_from features arena.now.tree parent }
{
    if features.siblings && features.empties {
        Some(arena.parent(parent).unwrap_or(parent))
    } else if features.siblings || features.positions || features.empties {
        Some(parent)
    } else {
        None
    }
}

/// From where it is seen that a child comes at the node of a path.
fn coming_at(arena: &Arena, features: Features, parent: &Path) -> Option<usize>
    ensures { result ≡ coming_at features arena.now.tree parent.now }
{
    seen_from(arena, features, arena.at(parent)?)
}

/// From where it is seen that the node of a path goes.
fn going_at(arena: &Arena, features: Features, path: &Path) -> Option<usize>
    ensures { result ≡ going_at features arena.now.tree path.now }
{
    seen_from(arena, features, parent_at(arena, path)?)
}

/// From where an attribute of the element of a path is seen, beside from that element and what stands in it.
fn attribute_at(arena: &Arena, features: Features, path: &Path) -> Option<usize>
    ensures { result ≡ attribute_at features arena.now.tree path.now }
{
    if features.siblings {
        parent_at(arena, path)
    } else {
        None
    }
}

fn under(top: Option<usize>) -> Reach
    ensures { result ≡ under top }
{
    match top {
        Some(top) => Reach::Under(top),
        None => Reach::Own,
    }
}

fn both(first: Option<usize>, second: Option<usize>) -> Reach
    ensures { result ≡ both first second }
{
    match (first, second) {
        (Some(first), Some(second)) => Reach::Both(first, second),
        _ => Reach::Own,
    }
}

/// The reach of an edit that touches no sheet.
fn reach_in_tree(arena: &Arena, features: Features, edit: &Edit) -> Reach
    ensures { result ≡ reach_in_tree features arena.now.tree edit.now }
{
    match edit {
        Edit::Insert {
            parent,
            index: _,
            fragment: _,
        } => under(coming_at(arena, features, parent)),
        Edit::Remove { path } => under(going_at(arena, features, path)),
        Edit::Move {
            from,
            parent,
            index: _,
        } => both(
            going_at(arena, features, from),
            coming_at(arena, features, parent),
        ),
        Edit::SetAttr {
            path,
            name: _,
            value: _,
        } => under(attribute_at(arena, features, path)),
        Edit::UnsetAttr { path, name: _ } => under(attribute_at(arena, features, path)),
        Edit::ReplaceSheet { text: _ } => Reach::All,
    }
}

/// Where the edit can change styles, in a document under sheets whose selectors look at this. A path that leads nowhere
/// names nothing. It takes no memory, and time linear in the edit's paths, in the nodes that it puts in, takes out or
/// moves, and in the depth of their parents.
pub fn reach(arena: &Arena, features: Features, edit: &Edit) -> Reach
    ensures reach { result ≡ reach features arena.now.tree edit.now }
{
    if touches_sheet(arena, edit) {
        Reach::All
    } else {
        reach_in_tree(arena, features, edit)
    }
}
