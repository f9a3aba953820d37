//! What a box does to counters.

use plain_types::box_id::BoxId;
use plain_types::duplicate::Duplicate;
use plain_types::memory::Memory;
use plain_types::text::Text;
use reversed_start::event::Event;
use std::alloc::Global;

/// A box increments or sets a counter: the counter, named by its creator and its name, and the event.
#[derive(Drop)]
pub struct Change {
    pub creator: BoxId,
    pub name: Text,
    pub event: Event,
}

impl Duplicate for Change {
    fn duplicate(&self, alloc: Global) -> Result<Change, Memory> {
        Ok(Change {
            creator: self.creator,
            name: self.name.duplicate(alloc)?,
            event: self.event,
        })
    }
}
