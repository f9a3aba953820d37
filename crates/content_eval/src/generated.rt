//! What a list of content items gives.

use counter_sets::counter_set::CounterSet;
use plain_types::content::Part;
use plain_types::duplicate::Duplicate;
use plain_types::list::List;
use plain_types::memory::Memory;
use plain_types::style_ref::StyleRef;
use plain_types::text::Text;
use std::alloc::Global;

/// What an item gives: characters, or a target function (CSS Generated Content 3, 2.6) with its url looked up.
#[derive(Drop)]
pub enum Piece {
    Chars(Text),
    /// `target-counter(url, name, style)`.
    TargetCounter {
        url: Text,
        name: Text,
        style: StyleRef,
    },
    /// `target-counters(url, name, between, style)`.
    TargetCounters {
        url: Text,
        name: Text,
        between: Text,
        style: StyleRef,
    },
    /// `target-text(url, part)`.
    TargetText {
        url: Text,
        part: Part,
    },
}

impl Duplicate for Piece {
    fn duplicate(&self, alloc: Global) -> Result<Piece, Memory> {
        match self {
            Piece::Chars(text) => Ok(Piece::Chars(text.duplicate(alloc)?)),
            Piece::TargetCounter { url, name, style } => Ok(Piece::TargetCounter {
                url: url.duplicate(alloc)?,
                name: name.duplicate(alloc)?,
                style: style.duplicate(alloc)?,
            }),
            Piece::TargetCounters {
                url,
                name,
                between,
                style,
            } => Ok(Piece::TargetCounters {
                url: url.duplicate(alloc)?,
                name: name.duplicate(alloc)?,
                between: between.duplicate(alloc)?,
                style: style.duplicate(alloc)?,
            }),
            Piece::TargetText { url, part } => Ok(Piece::TargetText {
                url: url.duplicate(alloc)?,
                part: *part,
            }),
        }
    }
}

/// The pieces of a list of items, in order, and the counters and the quote depth as it leaves them.
#[derive(Drop)]
pub struct Generated {
    pub pieces: List<Piece>,
    pub set: CounterSet,
    pub depth: u64,
}
