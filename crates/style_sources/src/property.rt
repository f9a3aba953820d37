//! The properties that make generated texts.

ghost use Rattle.std.specs.Prelude.{◌≡◌};
ghost use Rattle.style_sources.specs.Properties.{declares, undeclared};

use crate::value_source::ValueSource;
use plain_types::declaration::Declaration;

/// A property that makes generated texts.
#[derive(Clone, Copy, Debug, PartialEq, Eq)]
pub enum Property {
    Display,
    Content,
    CounterReset,
    CounterIncrement,
    CounterSet,
    ListStyleType,
    Quotes,
}

impl Property {
    /// Whether a declaration is one of this property.
    pub(crate) fn is_declared_by(self, what: &Declaration) -> bool
        ensures { result ≡ declares self what.now }
    {
        match self {
            Property::Display => matches!(what, Declaration::Display(_)),
            Property::Content => matches!(what, Declaration::Content(_)),
            Property::CounterReset => matches!(what, Declaration::Resets(_)),
            Property::CounterIncrement => matches!(what, Declaration::Increments(_)),
            Property::CounterSet => matches!(what, Declaration::Assigns(_)),
            Property::ListStyleType => matches!(what, Declaration::ListStyle(_)),
            Property::Quotes => matches!(what, Declaration::Quotes(_)),
        }
    }

    /// Where its value comes from where no declaration applies. The root has no parent.
    pub(crate) fn undeclared(self, is_root: bool) -> ValueSource
        ensures { result ≡ undeclared is_root self }
    {
        match self {
            Property::ListStyleType | Property::Quotes if !is_root => ValueSource::Inherited,
            _ => ValueSource::Initial,
        }
    }
}
