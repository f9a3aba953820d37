//! The styles of all elements of a document.

ghost use Rattle.std.specs.Prelude.{◌≡◌, IfOk};
ghost use Rattle.std.specs.List.{All};
ghost use Rattle.forest.specs.Spots.{IsLive};

use crate::style_words::words_of;
use css_reader::sheet::read_sheets;
use mini_cascade::rule_table::RuleTable;
use mini_cascade::style_attributes::inline_declarations;
use mini_cascade::style_of::style_of;
use node_arena::arena::Arena;
use plain_types::duplicate::Duplicate;
use plain_types::list::List;
use plain_types::memory::Memory;
use plain_types::sheet::Sheet;
use plain_types::style::ElementStyle;
use plain_types::text::Text;
use selector_match::siblings::Siblings;
use std::alloc::Global;
use std::collections::HashMap;
use std::sync::ledger::Ledger;
use steps::Steps;

/// The styles of an element, and the same in words.
#[derive(Drop)]
pub(crate) struct Styled {
    styles: ElementStyle,
    pub(crate) words: String,
}

/// The keys of the nodes of a document, in tree order.
pub(crate) fn keys_of(alloc: Global, arena: &Arena) -> Result<Vec<usize>, Memory>
    ensures live { IfOk result (λ keys. All (IsLive arena.now.tree) keys.items) }
{
    let mut keys = Vec::new(alloc);
    let mut at = arena.root();
    'walk: for _ in 0..usize::MAX {
        keys.push(at)?;
        match arena.next_in_order(at) {
            Some(next) => at = next,
            None => break,
        }
    }
    Ok(keys)
}

/// Whether a node is this one, or stands in it.
pub(crate) fn is_within(arena: &Arena, top: usize, key: usize) -> bool
    requires live { IsLive arena.now.tree key }
{
    let mut at = key;
    'climb: for _ in 0..usize::MAX {
        if at == top {
            return true;
        }
        match arena.parent(at) {
            Some(parent) => at = parent,
            None => break,
        }
    }
    false
}

/// The characters of the texts in a node.
fn characters_in(alloc: Global, arena: &Arena, keys: &[usize], top: usize) -> Result<Text, Memory>
    requires live { All (IsLive arena.now.tree) keys.now }
{
    let mut all = Text::new(alloc);
    for key in keys {
        if is_within(arena, top, *key) {
            if let Some(characters) = arena.characters(*key) {
                all.push_str(characters)?;
            }
        }
    }
    Ok(all)
}

/// Whether a node is a style element whose sheet is one of CSS. Other words for this language than these do not come up here.
fn has_sheet(arena: &Arena, key: usize) -> bool
    requires live { IsLive arena.now.tree key }
{
    let language = arena.attr(key, "type").unwrap_or("text/css");
    arena.name(key) == Some("style") && (language == "text/css" || language.is_empty())
}

/// The author's sheet: that of this text, and behind it those of the style elements.
pub(crate) fn author_sheet(alloc: Global, arena: &Arena, sheet: &Text) -> Result<Sheet, Memory> {
    let keys = keys_of(alloc, arena)?;
    let mut texts = List::new(alloc);
    texts.push(sheet.duplicate(alloc)?)?;
    for key in keys.as_slice() {
        if has_sheet(arena, *key) {
            texts.push(characters_in(alloc, arena, keys.as_slice(), *key)?)?;
        }
    }
    read_sheets(alloc, texts.as_slice())
}

/// The styles of an element, whose parent's are among these.
fn style_element<L: Ledger>(
    alloc: Global,
    siblings: &mut Siblings<'_>,
    agent: &RuleTable,
    author: &RuleTable,
    all: &HashMap<usize, Styled>,
    key: usize,
    steps: &mut Steps<L>,
) -> Result<Styled, Memory>
    requires live { IsLive siblings.old key }
    ensures tree { siblings.new ≡ siblings.old }
{
    let arena = siblings.arena();
    let parent = match arena.parent(key) {
        Some(parent) => all.get(&parent),
        None => None,
    };
    let above = match parent {
        Some(parent) => Some(&parent.styles.own),
        None => None,
    };
    let inline = inline_declarations(alloc, arena, key)?;
    let inline = inline.as_slice();
    let styles = style_of(alloc, siblings, agent, author, inline, above, key, steps)?;
    let words = words_of(alloc, &styles)?;
    Ok(Styled { styles, words })
}

/// The styles of the elements of a document, by key.
pub(crate) fn styles_of<L: Ledger>(
    alloc: Global,
    arena: &Arena,
    agent: &RuleTable,
    author: &RuleTable,
    steps: &mut Steps<L>,
) -> Result<HashMap<usize, Styled>, Memory> {
    let keys = keys_of(alloc, arena)?;
    let mut siblings = Siblings::new(alloc, arena);
    let mut all = HashMap::new(alloc);
    for key in keys.as_slice() {
        if arena.name(*key).is_some() {
            let found = style_element(alloc, &mut siblings, agent, author, &all, *key, steps)?;
            all.insert(*key, found)?;
        }
    }
    Ok(all)
}
