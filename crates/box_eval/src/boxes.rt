//! Which boxes an element has (CSS Display 3, 2.5, CSS Lists 3, 3, and CSS Pseudo-Elements 4, 4).

ghost use Rattle.std.specs.Prelude.{◌≡◌, Some, None, cond, option_copied};
ghost use Rattle.box_eval.specs.Boxes.{generates_box, has_items, has_marker, has_pseudo_box, is_absent, is_list_item, is_unmarked, marks};
ghost use Rattle.box_eval.specs.Elements.{items_of};

use plain_types::content::{Content, Item};
use plain_types::list::List;
use plain_types::style::{Display, ElementStyle, ListType, Style};
use plain_types::style_ref::StyleRef;

/// Whether it is `none`.
fn is_absent(display: Display) -> bool
    ensures test { result ≡ is_absent display }
{
    match display {
        Display::Absent => true,
        Display::ListItem | Display::Plain => false,
    }
}

/// Whether an element of this style generates a box, where it is the root or its parent has one.
pub fn generates_box(style: &ElementStyle) -> bool
    ensures test { result ≡ generates_box style.now }
{
    !is_absent(style.own.display)
}

/// Whether it is `list-item`.
pub(crate) fn is_list_item(display: Display) -> bool
    ensures test { result ≡ is_list_item display }
{
    match display {
        Display::ListItem => true,
        Display::Absent | Display::Plain => false,
    }
}

/// Whether it is `none`.
fn is_unmarked(list_type: &ListType) -> bool
    ensures test { result ≡ is_unmarked list_type.now }
{
    match list_type {
        ListType::Style(StyleRef::Nothing) => true,
        ListType::Style(StyleRef::Name(_)) => false,
        ListType::Style(StyleRef::Symbols(_)) => false,
        ListType::Chars(_) => false,
    }
}

/// Whether a marker of this `content` says something.
fn marks(content: &Content, list_type: &ListType) -> bool
    ensures test { result ≡ marks content.now list_type.now }
{
    match content {
        Content::Normal => !is_unmarked(list_type),
        Content::Nothing => false,
        Content::Items(_) => true,
    }
}

/// Whether an element that has a box has a marker.
pub(crate) fn has_marker(style: &ElementStyle) -> bool
    ensures test { result ≡ has_marker style.now }
{
    is_list_item(style.own.display) && marks(&style.marker.content, &style.own.list_type)
}

/// Whether it is a list of items.
fn has_items(content: &Content) -> bool
    ensures test { result ≡ has_items content.now }
{
    match content {
        Content::Items(_) => true,
        Content::Normal | Content::Nothing => false,
    }
}

/// Whether `::before` or `::after` of an element that has a box has one.
pub(crate) fn has_pseudo_box(style: &Style) -> bool
    ensures test { result ≡ has_pseudo_box style.now }
{
    has_items(&style.content) && !is_absent(style.display)
}

/// The items of `::before` or `::after`, where it has a box.
pub(crate) fn pseudo_items(style: &Style) -> Option<&List<Item>>
    ensures items { option_copied result ≡ cond (has_pseudo_box style.now) (Some (items_of style.now.content)) None }
{
    match (&style.content, style.display) {
        (Content::Items(items), Display::ListItem | Display::Plain) => Some(items),
        _ => None,
    }
}
