//! Styles from the declarations that apply: the specified values (CSS Cascade 5, 4.3 and 7).

ghost use Rattle.std.specs.Prelude.{◌≡◌, IfOk};
ghost use Rattle.mini_cascade.specs.Properties.{initial_values};
ghost use Rattle.mini_cascade.specs.Styles.{specified, style_under};

use crate::candidate::Candidates;
use crate::property::{
    ContentProperty, CounterIncrement, CounterReset, CounterSet, DisplayProperty, ListStyleType,
    Property, QuotesProperty,
};
use plain_types::content::Content;
use plain_types::declaration::Said;
use plain_types::duplicate::Duplicate;
use plain_types::list::List;
use plain_types::memory::Memory;
use plain_types::style::{CounterOp, Display, ListType, Quotes, ResetOp, Style};
use plain_types::style_ref::StyleRef;
use plain_types::text::Text;
use std::alloc::Global;

/// The style in which every property has its initial value.
pub(crate) fn initial_values(alloc: Global) -> Result<Style, Memory>
    ensures { IfOk result (λ style. style ≡ initial_values) }
{
    Ok(Style {
        display: Display::Plain,
        content: Content::Normal,
        resets: List::new(alloc),
        increments: List::new(alloc),
        assigns: List::new(alloc),
        list_type: ListType::Style(StyleRef::Name(Text::from_str(alloc, "disc")?)),
        quotes: Quotes::Auto,
    })
}

/// The value of a property, where the parent has this style.
fn specified<'a, V, P: Property<V>>(
    candidates: &Candidates<'a>,
    parent: &'a Style,
    initial: &'a Style,
) -> &'a V
    requires { initial.now ≡ initial_values }
    ensures { result.now ≡ specified candidates.now parent.now P.definition }
{
    match candidates.cascaded::<V, P>() {
        Some(Said::Value(value)) => value,
        Some(Said::Inherit) => P::value(parent),
        Some(Said::Initial) => P::value(initial),
        Some(Said::Unset) | None => {
            if P::is_inherited() {
                P::value(parent)
            } else {
                P::value(initial)
            }
        }
    }
}

/// The style that these declarations give where the parent has this style.
pub(crate) fn style_under<'a>(
    alloc: Global,
    candidates: &Candidates<'a>,
    parent: &'a Style,
    initial: &'a Style,
) -> Result<Style, Memory>
    requires { initial.now ≡ initial_values }
    ensures { IfOk result (λ style. style ≡ style_under candidates.now parent.now) }
{
    let display = specified::<Display, DisplayProperty>(candidates, parent, initial);
    let content = specified::<Content, ContentProperty>(candidates, parent, initial);
    let resets = specified::<List<ResetOp>, CounterReset>(candidates, parent, initial);
    let increments = specified::<List<CounterOp>, CounterIncrement>(candidates, parent, initial);
    let assigns = specified::<List<CounterOp>, CounterSet>(candidates, parent, initial);
    let list_type = specified::<ListType, ListStyleType>(candidates, parent, initial);
    let quotes = specified::<Quotes, QuotesProperty>(candidates, parent, initial);
    Ok(Style {
        display: *display,
        content: content.duplicate(alloc)?,
        resets: resets.duplicate(alloc)?,
        increments: increments.duplicate(alloc)?,
        assigns: assigns.duplicate(alloc)?,
        list_type: list_type.duplicate(alloc)?,
        quotes: quotes.duplicate(alloc)?,
    })
}
