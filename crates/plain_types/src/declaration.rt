//! Declarations.

use crate::content::Content;
use crate::list::List;
use crate::style::{CounterOp, Display, ListType, Quotes, ResetOp};

/// What a declaration says of a property: a value, or a keyword that every property has (CSS Cascade 5, 7.3).
#[derive(Drop)]
pub enum Said<T> {
    Value(T),
    Inherit,
    Initial,
    Unset,
}

/// A declaration of one of the properties that make generated texts.
#[derive(Drop)]
pub enum Declaration {
    Display(Said<Display>),
    Content(Said<Content>),
    /// `counter-reset`.
    Resets(Said<List<ResetOp>>),
    /// `counter-increment`.
    Increments(Said<List<CounterOp>>),
    /// `counter-set`.
    Assigns(Said<List<CounterOp>>),
    /// `list-style-type`, or `list-style` as far as it sets the type.
    ListStyle(Said<ListType>),
    Quotes(Said<Quotes>),
}

/// A declaration as it stands in a rule.
#[derive(Drop)]
pub struct Declared {
    pub what: Declaration,
    pub important: bool,
}
