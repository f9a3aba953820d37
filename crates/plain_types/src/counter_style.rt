//! Counter styles.

use crate::count::Count;
use crate::duplicate::Duplicate;
use crate::list::List;
use crate::memory::Memory;
use crate::style_ref::System;
use crate::text::Text;
use std::alloc::Global;

/// A range of values; a missing bound is infinite.
#[derive(Clone, Copy, Debug, PartialEq, Eq)]
pub struct Bounds {
    pub low: Option<Count>,
    pub high: Option<Count>,
}

impl Duplicate for Bounds {
    fn duplicate(&self, _alloc: Global) -> Result<Bounds, Memory> {
        Ok(*self)
    }
}

/// A tuple of `additive-symbols`.
#[derive(Drop)]
pub struct Weight {
    pub weight: Count,
    pub symbol: Text,
}

impl Duplicate for Weight {
    fn duplicate(&self, alloc: Global) -> Result<Weight, Memory> {
        Ok(Weight {
            weight: self.weight,
            symbol: self.symbol.duplicate(alloc)?,
        })
    }
}

/// A descriptor of `@counter-style` (CSS Counter Styles 3, 3).
#[derive(Drop)]
pub enum Descriptor {
    System(System),
    Negative { before: Text, after: Text },
    Prefix(Text),
    Suffix(Text),
    /// `range: auto`.
    RangeAuto,
    Range(List<Bounds>),
    Pad { width: Count, symbol: Text },
    Fallback(Text),
    Symbols(List<Text>),
    /// `additive-symbols`.
    Additive(List<Weight>),
}

impl Duplicate for Descriptor {
    fn duplicate(&self, alloc: Global) -> Result<Descriptor, Memory> {
        match self {
            Descriptor::System(system) => Ok(Descriptor::System(system.duplicate(alloc)?)),
            Descriptor::Negative { before, after } => Ok(Descriptor::Negative {
                before: before.duplicate(alloc)?,
                after: after.duplicate(alloc)?,
            }),
            Descriptor::Prefix(text) => Ok(Descriptor::Prefix(text.duplicate(alloc)?)),
            Descriptor::Suffix(text) => Ok(Descriptor::Suffix(text.duplicate(alloc)?)),
            Descriptor::RangeAuto => Ok(Descriptor::RangeAuto),
            Descriptor::Range(ranges) => Ok(Descriptor::Range(ranges.duplicate(alloc)?)),
            Descriptor::Pad { width, symbol } => Ok(Descriptor::Pad {
                width: *width,
                symbol: symbol.duplicate(alloc)?,
            }),
            Descriptor::Fallback(name) => Ok(Descriptor::Fallback(name.duplicate(alloc)?)),
            Descriptor::Symbols(symbols) => Ok(Descriptor::Symbols(symbols.duplicate(alloc)?)),
            Descriptor::Additive(weights) => Ok(Descriptor::Additive(weights.duplicate(alloc)?)),
        }
    }
}

/// A `@counter-style` rule: its name, and of each descriptor the last that is read.
#[derive(Drop)]
pub struct StyleDef {
    pub name: Text,
    pub descriptors: List<Descriptor>,
}

impl Duplicate for StyleDef {
    fn duplicate(&self, alloc: Global) -> Result<StyleDef, Memory> {
        Ok(StyleDef {
            name: self.name.duplicate(alloc)?,
            descriptors: self.descriptors.duplicate(alloc)?,
        })
    }
}

/// A finished counter style: no descriptor is missing, and `extends` is resolved.
pub struct CounterStyle {
    pub name: Text,
    pub system: System,
    pub symbols: List<Text>,
    /// `additive-symbols`.
    pub weights: List<Weight>,
    /// What stands before a negative number ..
    pub before: Text,
    /// .. and after it.
    pub after: Text,
    pub prefix: Text,
    pub suffix: Text,
    pub ranges: List<Bounds>,
    /// `pad`: to how many grapheme clusters ..
    pub width: Count,
    /// .. and with which symbol.
    pub pad: Text,
    pub fallback: Text,
}

impl Drop for CounterStyle {
    fn drop(self) {
        let CounterStyle {
            name: _,
            system: _,
            symbols: _,
            weights: _,
            before: _,
            after: _,
            prefix: _,
            suffix: _,
            ranges: _,
            width: _,
            pad: _,
            fallback: _,
        } = self;
    }
}

impl Duplicate for CounterStyle {
    fn duplicate(&self, alloc: Global) -> Result<CounterStyle, Memory> {
        Ok(CounterStyle {
            name: self.name.duplicate(alloc)?,
            system: self.system.duplicate(alloc)?,
            symbols: self.symbols.duplicate(alloc)?,
            weights: self.weights.duplicate(alloc)?,
            before: self.before.duplicate(alloc)?,
            after: self.after.duplicate(alloc)?,
            prefix: self.prefix.duplicate(alloc)?,
            suffix: self.suffix.duplicate(alloc)?,
            ranges: self.ranges.duplicate(alloc)?,
            width: self.width,
            pad: self.pad.duplicate(alloc)?,
            fallback: self.fallback.duplicate(alloc)?,
        })
    }
}
