//! Computed styles, as far as generated texts need them.

use crate::content::Content;
use crate::count::Count;
use crate::duplicate::Duplicate;
use crate::list::List;
use crate::memory::Memory;
use crate::style_ref::StyleRef;
use crate::text::Text;
use std::alloc::Global;

/// The value of `display` (CSS Display 3, 2): `none`, `list-item`, or any other.
#[derive(Clone, Copy, Debug, PartialEq, Eq)]
pub enum Display {
    /// `none`.
    Absent,
    ListItem,
    Plain,
}

/// The value of `list-style-type` (CSS Lists 3, 3.3): a string, or a counter style.
#[derive(Drop)]
pub enum ListType {
    Chars(Text),
    Style(StyleRef),
}

impl Duplicate for ListType {
    fn duplicate(&self, alloc: Global) -> Result<ListType, Memory> {
        match self {
            ListType::Chars(text) => Ok(ListType::Chars(text.duplicate(alloc)?)),
            ListType::Style(style) => Ok(ListType::Style(style.duplicate(alloc)?)),
        }
    }
}

/// A pair of quotation marks.
#[derive(Drop)]
pub struct Pair {
    pub left: Text,
    pub right: Text,
}

impl Duplicate for Pair {
    fn duplicate(&self, alloc: Global) -> Result<Pair, Memory> {
        Ok(Pair {
            left: self.left.duplicate(alloc)?,
            right: self.right.duplicate(alloc)?,
        })
    }
}

/// The value of `quotes` (CSS Generated Content 3, 3.1).
#[derive(Drop)]
pub enum Quotes {
    /// `none`.
    Nothing,
    Auto,
    /// From the outermost in.
    Pairs(List<Pair>),
}

impl Duplicate for Quotes {
    fn duplicate(&self, alloc: Global) -> Result<Quotes, Memory> {
        match self {
            Quotes::Nothing => Ok(Quotes::Nothing),
            Quotes::Auto => Ok(Quotes::Auto),
            Quotes::Pairs(pairs) => Ok(Quotes::Pairs(pairs.duplicate(alloc)?)),
        }
    }
}

/// An entry of `counter-reset` (CSS Lists 3, 4.1). A reversed counter may have no value: it then starts so
/// that it counts down to 1.
#[derive(Drop)]
pub struct ResetOp {
    pub name: Text,
    pub reversed: bool,
    pub value: Option<Count>,
}

impl Duplicate for ResetOp {
    fn duplicate(&self, alloc: Global) -> Result<ResetOp, Memory> {
        Ok(ResetOp {
            name: self.name.duplicate(alloc)?,
            reversed: self.reversed,
            value: self.value,
        })
    }
}

/// An entry of `counter-increment` or `counter-set` (CSS Lists 3, 4.2).
#[derive(Drop)]
pub struct CounterOp {
    pub name: Text,
    pub value: Count,
}

impl Duplicate for CounterOp {
    fn duplicate(&self, alloc: Global) -> Result<CounterOp, Memory> {
        Ok(CounterOp {
            name: self.name.duplicate(alloc)?,
            value: self.value,
        })
    }
}

/// The properties that make generated texts, of an element or of one of its pseudo-elements.
pub struct Style {
    pub display: Display,
    pub content: Content,
    /// `counter-reset`.
    pub resets: List<ResetOp>,
    /// `counter-increment`.
    pub increments: List<CounterOp>,
    /// `counter-set`.
    pub assigns: List<CounterOp>,
    /// `list-style-type`.
    pub list_type: ListType,
    pub quotes: Quotes,
}

impl Drop for Style {
    fn drop(self) {
        let Style {
            display: _,
            content: _,
            resets: _,
            increments: _,
            assigns: _,
            list_type: _,
            quotes: _,
        } = self;
    }
}

/// The styles of an element and of its pseudo-elements `::marker`, `::before` and `::after`.
pub struct ElementStyle {
    pub own: Style,
    pub marker: Style,
    pub before: Style,
    pub after: Style,
}

impl Drop for ElementStyle {
    fn drop(self) {
        let ElementStyle {
            own: _,
            marker: _,
            before: _,
            after: _,
        } = self;
    }
}
