//! Counters.

use crate::box_id::BoxId;
use crate::count::Count;
use crate::duplicate::Duplicate;
use crate::memory::Memory;
use crate::shared_text::SharedText;
use std::alloc::Global;

/// A counter (CSS Lists 3, 4): its name, the box that created it, whether `counter-reset` made it count
/// down to 1 (`reversed()`), and its value. Copies share the name.
#[derive(Drop)]
pub struct Counter {
    pub name: SharedText,
    pub creator: BoxId,
    pub reversed: bool,
    pub value: Count,
}

impl Duplicate for Counter {
    fn duplicate(&self, alloc: Global) -> Result<Counter, Memory> {
        Ok(Counter {
            name: self.name.duplicate(alloc)?,
            creator: self.creator,
            reversed: self.reversed,
            value: self.value,
        })
    }
}
