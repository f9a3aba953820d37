//! Attributes of elements.

use crate::duplicate::Duplicate;
use crate::memory::Memory;
use crate::text::Text;
use std::alloc::Global;

/// An attribute, with its value as it reads once references are resolved.
#[derive(Drop)]
pub struct Attr {
    pub name: Text,
    pub value: Text,
}

impl Duplicate for Attr {
    fn duplicate(&self, alloc: Global) -> Result<Attr, Memory> {
        Ok(Attr {
            name: self.name.duplicate(alloc)?,
            value: self.value.duplicate(alloc)?,
        })
    }
}
