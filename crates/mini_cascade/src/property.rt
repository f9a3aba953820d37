//! The properties that make generated texts.

ghost use Rattle.std.specs.Prelude.{◌≡◌, option_copied, refl};
ghost use Rattle.mini_cascade.specs.Properties as properties;
ghost use Rattle.mini_cascade.specs.Properties.{Definition, initial_values};

use plain_types::content::Content;
use plain_types::declaration::{Declaration, Said};
use plain_types::list::List;
use plain_types::style::{CounterOp, Display, ListType, Quotes, ResetOp, Style};

/// A property that makes generated texts, with the type of its values.
pub(crate) trait Property<V> {
    ghost definition: { Definition V };

    /// What a declaration says of it, if it is one of this property.
    fn said(what: &Declaration) -> Option<&Said<V>>
        ensures { option_copied result ≡ definition.said_by what.now };

    /// Its value in a style.
    fn value(style: &Style) -> &V
        ensures { result.now ≡ definition.value_in style.now };

    /// Whether a value is inherited where none is declared.
    fn is_inherited() -> bool
        ensures { result ≡ definition.is_inherited };

    ghost is_initial: { definition.initial ≡ definition.value_in initial_values };
}

/// `display`.
pub(crate) struct DisplayProperty;

impl Property<Display> for DisplayProperty {
    ghost definition = { properties.display };

    ghost is_initial = { refl };

    fn said(what: &Declaration) -> Option<&Said<Display>> {
        match what {
            Declaration::Display(said) => Some(said),
            _ => None,
        }
    }

    fn value(style: &Style) -> &Display {
        &style.display
    }

    fn is_inherited() -> bool {
        false
    }
}

/// `content`.
pub(crate) struct ContentProperty;

impl Property<Content> for ContentProperty {
    ghost definition = { properties.content };

    ghost is_initial = { refl };

    fn said(what: &Declaration) -> Option<&Said<Content>> {
        match what {
            Declaration::Content(said) => Some(said),
            _ => None,
        }
    }

    fn value(style: &Style) -> &Content {
        &style.content
    }

    fn is_inherited() -> bool {
        false
    }
}

/// `counter-reset`.
pub(crate) struct CounterReset;

impl Property<List<ResetOp>> for CounterReset {
    ghost definition = { properties.counter_reset };

    ghost is_initial = { refl };

    fn said(what: &Declaration) -> Option<&Said<List<ResetOp>>> {
        match what {
            Declaration::Resets(said) => Some(said),
            _ => None,
        }
    }

    fn value(style: &Style) -> &List<ResetOp> {
        &style.resets
    }

    fn is_inherited() -> bool {
        false
    }
}

/// `counter-increment`.
pub(crate) struct CounterIncrement;

impl Property<List<CounterOp>> for CounterIncrement {
    ghost definition = { properties.counter_increment };

    ghost is_initial = { refl };

    fn said(what: &Declaration) -> Option<&Said<List<CounterOp>>> {
        match what {
            Declaration::Increments(said) => Some(said),
            _ => None,
        }
    }

    fn value(style: &Style) -> &List<CounterOp> {
        &style.increments
    }

    fn is_inherited() -> bool {
        false
    }
}

/// `counter-set`.
pub(crate) struct CounterSet;

impl Property<List<CounterOp>> for CounterSet {
    ghost definition = { properties.counter_set };

    ghost is_initial = { refl };

    fn said(what: &Declaration) -> Option<&Said<List<CounterOp>>> {
        match what {
            Declaration::Assigns(said) => Some(said),
            _ => None,
        }
    }

    fn value(style: &Style) -> &List<CounterOp> {
        &style.assigns
    }

    fn is_inherited() -> bool {
        false
    }
}

/// `list-style-type`.
pub(crate) struct ListStyleType;

impl Property<ListType> for ListStyleType {
    ghost definition = { properties.list_style_type };

    ghost is_initial = { refl };

    fn said(what: &Declaration) -> Option<&Said<ListType>> {
        match what {
            Declaration::ListStyle(said) => Some(said),
            _ => None,
        }
    }

    fn value(style: &Style) -> &ListType {
        &style.list_type
    }

    fn is_inherited() -> bool {
        true
    }
}

/// `quotes`.
pub(crate) struct QuotesProperty;

impl Property<Quotes> for QuotesProperty {
    ghost definition = { properties.quotes };

    ghost is_initial = { refl };

    fn said(what: &Declaration) -> Option<&Said<Quotes>> {
        match what {
            Declaration::Quotes(said) => Some(said),
            _ => None,
        }
    }

    fn value(style: &Style) -> &Quotes {
        &style.quotes
    }

    fn is_inherited() -> bool {
        true
    }
}
