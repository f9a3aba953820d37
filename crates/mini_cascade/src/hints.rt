//! Presentational hints: what the attributes of HTML's lists say, as declarations.

ghost use Rattle.std.specs.Prelude.{◌≡◌, ◌++◌, IsTrue, IfOk, OnOk, OnErr, Some};
ghost use Rattle.std.specs.Option.{option_to_list};
ghost use Rattle.std.specs.Str.{chars};
ghost use Rattle.reading.specs.Characters.{is_ascii};
ghost use Rattle.forest.specs.Spots.{IsLive};
ghost use Rattle.plain_types.specs.declared.style_ref.StyleRef.TheVariants as style_ref;
ghost use Rattle.node_arena.specs.Nodes.{attrs_of};
ghost use Rattle.mini_cascade.specs.Hints.{list_reset, start_reset, start_hint, item_value, value_hint, numbering, bullet, type_style, type_hint, hints_of};

use crate::texts::{attr, integer_attr, is_exactly};
use css_tokens::words::is_word;
use node_arena::arena::Arena;
use plain_types::count::{Count, add_counts};
use plain_types::declaration::{Declaration, Said};
use plain_types::list::List;
use plain_types::memory::Memory;
use plain_types::style::{CounterOp, ListType, ResetOp};
use plain_types::style_ref::StyleRef;
use plain_types::text::Text;
use std::alloc::Global;

/// Of which lists the types of markers count.
#[derive(Clone, Copy)]
pub(crate) enum MarkerTypes {
    Numbered,
    Bulleted,
    Either,
}

/// A reset of `list-item`.
fn list_reset(alloc: Global, reversed: bool, value: Option<Count>) -> Result<ResetOp, Memory>
    ensures { IfOk result (λ reset. reset ≡ list_reset reversed value) }
{
    Ok(ResetOp {
        name: Text::from_str(alloc, "list-item")?,
        reversed,
        value,
    })
}

/// The reset of a numbered list that is reversed or not, and has this start.
pub(crate) fn start_reset(
    alloc: Global,
    reversed: bool,
    start: Option<Count>,
) -> Result<Option<ResetOp>, Memory>
    ensures { IfOk result (λ reset. reset ≡ start_reset reversed start) }
{
    let value = match start {
        None if !reversed => return Ok(None),
        None => None,
        Some(start) if reversed => Some(add_counts(start, 1)),
        Some(start) => Some(add_counts(start, -1)),
    };
    Ok(Some(list_reset(alloc, reversed, value)?))
}

/// What `start` and `reversed` say.
fn start_hint(alloc: Global, arena: &Arena, key: usize) -> Result<Option<Declaration>, Memory>
    requires { IsLive arena.now.tree key }
    ensures { IfOk result (λ hint. hint ≡ start_hint (attrs_of arena.now.tree key)) }
{
    let reversed = attr(arena, key, "reversed").is_some();
    let start = integer_attr(arena, key, "start");
    let Some(reset) = start_reset(alloc, reversed, start)? else {
        return Ok(None);
    };
    let mut resets = List::new(alloc);
    resets.push(reset)?;
    Ok(Some(Declaration::Resets(Said::Value(resets))))
}

/// A setting of `list-item`.
fn item_value(alloc: Global, value: Count) -> Result<CounterOp, Memory>
    ensures { IfOk result (λ op. op ≡ item_value value) }
{
    Ok(CounterOp {
        name: Text::from_str(alloc, "list-item")?,
        value,
    })
}

/// What `value` says.
fn value_hint(alloc: Global, arena: &Arena, key: usize) -> Result<Option<Declaration>, Memory>
    requires { IsLive arena.now.tree key }
    ensures { IfOk result (λ hint. hint ≡ value_hint (attrs_of arena.now.tree key)) }
{
    let Some(value) = integer_attr(arena, key, "value") else {
        return Ok(None);
    };
    let mut assigns = List::new(alloc);
    assigns.push(item_value(alloc, value)?)?;
    Ok(Some(Declaration::Assigns(Said::Value(assigns))))
}

/// The counter style of this name, which is of ASCII characters.
fn named(alloc: Global, name: &str) -> Result<Option<StyleRef>, Memory>
    requires ascii { IsTrue (is_ascii name.now) }
    ensures style { IfOk result (λ style. style ≡ Some (style_ref.Name name.now)) }
{
    Ok(Some(StyleRef::Name(Text::from_str(alloc, name)?)))
}

/// The style of a type of numbered lists.
fn numbering(alloc: Global, kind: &str) -> Result<Option<StyleRef>, Memory>
    ensures { IfOk result (λ style. style ≡ numbering (chars kind.now)) }
{
    if is_exactly(kind, "1") {
        named(alloc, "decimal")
    } else if is_exactly(kind, "a") {
        named(alloc, "lower-alpha")
    } else if is_exactly(kind, "A") {
        named(alloc, "upper-alpha")
    } else if is_exactly(kind, "i") {
        named(alloc, "lower-roman")
    } else if is_exactly(kind, "I") {
        named(alloc, "upper-roman")
    } else {
        Ok(None)
    }
}

/// The style of a type of other lists.
fn bullet(alloc: Global, kind: &str) -> Result<Option<StyleRef>, Memory>
    ensures { IfOk result (λ style. style ≡ bullet (chars kind.now)) }
{
    if is_word(kind, "none") {
        Ok(Some(StyleRef::Nothing))
    } else if is_word(kind, "disc") {
        named(alloc, "disc")
    } else if is_word(kind, "circle") {
        named(alloc, "circle")
    } else if is_word(kind, "square") {
        named(alloc, "square")
    } else {
        Ok(None)
    }
}

/// The style of a type, where the types of these lists count.
fn type_style(alloc: Global, types: MarkerTypes, kind: &str) -> Result<Option<StyleRef>, Memory>
    ensures { IfOk result (λ style. style ≡ type_style types (chars kind.now)) }
{
    match types {
        MarkerTypes::Numbered => numbering(alloc, kind),
        MarkerTypes::Bulleted => bullet(alloc, kind),
        MarkerTypes::Either => match numbering(alloc, kind)? {
            Some(style) => Ok(Some(style)),
            None => bullet(alloc, kind),
        },
    }
}

/// What `type` says.
fn type_hint(
    alloc: Global,
    arena: &Arena,
    key: usize,
    types: MarkerTypes,
) -> Result<Option<Declaration>, Memory>
    requires { IsLive arena.now.tree key }
    ensures { IfOk result (λ hint. hint ≡ type_hint types (attrs_of arena.now.tree key)) }
{
    let Some(kind) = attr(arena, key, "type") else {
        return Ok(None);
    };
    match type_style(alloc, types, kind)? {
        Some(style) => Ok(Some(Declaration::ListStyle(Said::Value(ListType::Style(style))))),
        None => Ok(None),
    }
}

/// Appends a hint, if there is one.
fn add(hints: &mut List<Declaration>, hint: Option<Declaration>) -> Result<(), Memory>
    ensures ok { OnOk result (hints.new ≡ hints.old ++ option_to_list hint) }
    ensures err { OnErr result (hints.new ≡ hints.old) }
{
    match hint {
        Some(hint) => hints.push(hint),
        None => Ok(()),
    }
}

/// What the attributes `start`, `reversed`, `value` and `type` of an `ol`, `ul` or `li` say, as normal
/// declarations; at most one for a property. The sources are CSS Lists 3, Appendix A, and HTML, 15.3.7.
///
/// Memory is constant, time linear in the element's attributes and in the lengths of these four.
pub fn hints(alloc: Global, arena: &Arena, key: usize) -> Result<List<Declaration>, Memory>
    requires { IsLive arena.now.tree key }
    ensures hints { IfOk result (λ hints. hints ≡ hints_of arena.now.tree key) }
{
    let mut hints = List::new(alloc);
    let Some(name) = arena.name(key) else {
        return Ok(hints);
    };
    if is_exactly(name, "ol") {
        add(&mut hints, start_hint(alloc, arena, key)?)?;
        add(
            &mut hints,
            type_hint(alloc, arena, key, MarkerTypes::Numbered)?,
        )?;
    } else if is_exactly(name, "ul") {
        add(
            &mut hints,
            type_hint(alloc, arena, key, MarkerTypes::Bulleted)?,
        )?;
    } else if is_exactly(name, "li") {
        add(&mut hints, value_hint(alloc, arena, key)?)?;
        add(
            &mut hints,
            type_hint(alloc, arena, key, MarkerTypes::Either)?,
        )?;
    }
    Ok(hints)
}
