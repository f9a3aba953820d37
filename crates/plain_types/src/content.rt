//! What `content` says (CSS Generated Content 3, 2).

use crate::duplicate::Duplicate;
use crate::list::List;
use crate::memory::Memory;
use crate::style_ref::StyleRef;
use crate::text::Text;
use std::alloc::Global;

/// The URL of a target: as given, or the value of an attribute of the originating element.
#[derive(Drop)]
pub enum Url {
    Given(Text),
    FromAttr(Text),
}

impl Duplicate for Url {
    fn duplicate(&self, alloc: Global) -> Result<Url, Memory> {
        match self {
            Url::Given(url) => Ok(Url::Given(url.duplicate(alloc)?)),
            Url::FromAttr(name) => Ok(Url::FromAttr(name.duplicate(alloc)?)),
        }
    }
}

/// Which text of a target `target-text()` takes.
#[derive(Clone, Copy, Debug, PartialEq, Eq)]
pub enum Part {
    Content,
    Before,
    After,
}

/// The quote keywords of `content`.
#[derive(Clone, Copy, Debug, PartialEq, Eq)]
pub enum QuoteKind {
    Open,
    Close,
    NoOpen,
    NoClose,
}

/// An item of `content`.
#[derive(Drop)]
pub enum Item {
    /// A string.
    Chars(Text),
    /// `attr(name)`.
    Attr(Text),
    /// A quote keyword.
    Quote(QuoteKind),
    /// `counter(name, style)`.
    Counter {
        name: Text,
        style: StyleRef,
    },
    /// `counters(name, between, style)`.
    Counters {
        name: Text,
        between: Text,
        style: StyleRef,
    },
    /// `target-counter(url, name, style)`.
    TargetCounter {
        url: Url,
        name: Text,
        style: StyleRef,
    },
    /// `target-counters(url, name, between, style)`.
    TargetCounters {
        url: Url,
        name: Text,
        between: Text,
        style: StyleRef,
    },
    /// `target-text(url, part)`.
    TargetText {
        url: Url,
        part: Part,
    },
}

impl Duplicate for Item {
    fn duplicate(&self, alloc: Global) -> Result<Item, Memory> {
        match self {
            Item::Chars(text) => Ok(Item::Chars(text.duplicate(alloc)?)),
            Item::Attr(name) => Ok(Item::Attr(name.duplicate(alloc)?)),
            Item::Quote(kind) => Ok(Item::Quote(*kind)),
            Item::Counter { name, style } => Ok(Item::Counter {
                name: name.duplicate(alloc)?,
                style: style.duplicate(alloc)?,
            }),
            Item::Counters {
                name,
                between,
                style,
            } => Ok(Item::Counters {
                name: name.duplicate(alloc)?,
                between: between.duplicate(alloc)?,
                style: style.duplicate(alloc)?,
            }),
            Item::TargetCounter { url, name, style } => Ok(Item::TargetCounter {
                url: url.duplicate(alloc)?,
                name: name.duplicate(alloc)?,
                style: style.duplicate(alloc)?,
            }),
            Item::TargetCounters {
                url,
                name,
                between,
                style,
            } => Ok(Item::TargetCounters {
                url: url.duplicate(alloc)?,
                name: name.duplicate(alloc)?,
                between: between.duplicate(alloc)?,
                style: style.duplicate(alloc)?,
            }),
            Item::TargetText { url, part } => Ok(Item::TargetText {
                url: url.duplicate(alloc)?,
                part: *part,
            }),
        }
    }
}

/// The value of `content`.
#[derive(Drop)]
pub enum Content {
    Normal,
    /// `none`.
    Nothing,
    Items(List<Item>),
}

impl Duplicate for Content {
    fn duplicate(&self, alloc: Global) -> Result<Content, Memory> {
        match self {
            Content::Normal => Ok(Content::Normal),
            Content::Nothing => Ok(Content::Nothing),
            Content::Items(items) => Ok(Content::Items(items.duplicate(alloc)?)),
        }
    }
}
