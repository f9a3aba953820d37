//! The style elements of a document.

ghost use Rattle.std.specs.Prelude.{◌≡◌, ◌++◌, true, false, codes, IfOk, OnOk};
ghost use Rattle.std.specs.Option.{option_map_or};
ghost use Rattle.forest.specs.Spots.{IsLive, label_of};
ghost use Rattle.node_arena.specs.Nodes.{attr_of};
ghost use Rattle.generated_texts.specs.StyleElements.{has_sheet, is_css, style_text_of, style_texts};

use css_tokens::words::is_word;
use kept_elements::characters::characters_under;
use node_arena::arena::Arena;
use plain_types::list::List;
use plain_types::memory::Memory;
use plain_types::text::Text;
use std::alloc::Global;

/// Whether the `type` of a node is that of CSS: none, an empty one, or `text/css` in any ASCII case.
fn has_type_of_css(arena: &Arena, key: usize) -> bool
    requires live { IsLive arena.now.tree key }
    ensures { result ≡ option_map_or is_css (attr_of arena.now.tree key (codes "type")) true }
{
    match arena.attr(key, "type") {
        Some(kind) => kind.is_empty() || is_word(kind, "text/css"),
        None => true,
    }
}

/// Whether a node is a style element with a style sheet of CSS.
fn has_sheet(arena: &Arena, key: usize) -> bool
    requires live { IsLive arena.now.tree key }
    ensures { result ≡ option_map_or has_sheet (label_of arena.now.tree key) false }
{
    arena.name(key) == Some("style") && has_type_of_css(arena, key)
}

/// Appends the text of a node, where it is a style element with a style sheet of CSS.
fn put_style_text(
    alloc: Global,
    arena: &Arena,
    key: usize,
    texts: &mut List<Text>,
) -> Result<(), Memory>
    requires live { IsLive arena.now.tree key }
    ensures ok { OnOk result (texts.new ≡ texts.old ++ style_text_of arena.now.tree key) }
{
    if has_sheet(arena, key) {
        texts.push(characters_under(alloc, arena, key)?)?;
    }
    Ok(())
}

/// The texts of the style elements that have a style sheet of CSS, in tree order: the characters under each.
///
/// It takes memory for these texts, and time linear in the document; what stands in a style element is passed once more
/// for each such element that it stands in.
pub(crate) fn style_texts(alloc: Global, arena: &Arena) -> Result<List<Text>, Memory>
    ensures texts { IfOk result (λ texts. texts ≡ style_texts arena.now.tree) }
{
    let mut texts = List::new(alloc);
    let mut at = arena.root();
    'walk: loop {
        put_style_text(alloc, arena, at, &mut texts)?;
        match arena.next_in_order(at) {
            Some(next) => at = next,
            None => return Ok(texts),
        }
    }
}
