//! Sets of elements.

ghost use Rattle.std.specs.Prelude.{◌≡◌, ◌==◌, ◌||◌, ℕ, nat_eq, [], OnOk};
ghost use Rattle.std.specs.List.{IsDistinct};
ghost use Rattle.edit_work.specs.KeyedSources.{is_among};

use indexmap::IndexSet;
use plain_types::memory::Memory;
use std::alloc::Global;
use std::marker::Model;

/// Elements by their keys, each once, in the order in which they were found.
#[derive(Drop)]
pub struct Keys {
    set: IndexSet<usize>,
}

impl Model for Keys {
    ghost use Rattle.std.specs.Prelude.{List, ℕ};

    ghost Value = { List ℕ };

    ghost view = { λ keys. keys.set.keys };
}

impl Keys {
    /// No elements. It takes no memory.
    pub(crate) fn new(alloc: Global) -> Keys
        ensures empty { result ≡ [] }
    {
        Keys {
            set: IndexSet::new(alloc),
        }
    }

    /// The elements, each once.
    pub fn as_slice(&self) -> &[usize]
        ensures keys { result.now ≡ self.now }
        ensures once { IsDistinct nat_eq result.now }
    {
        self.set.as_slice()
    }

    /// Adds an element, where it is not there.
    fn add(&mut self, key: usize) -> Result<(), Memory>
        ensures ok { OnOk result ((other : ℕ) → is_among self.new other ≡ (is_among self.old other || key == other)) }
    {
        self.set.insert(key)?;
        Ok(())
    }

    /// Adds elements, those of them that are not there.
    pub(crate) fn add_all(&mut self, keys: &[usize]) -> Result<(), Memory>
        ensures ok { OnOk result ((other : ℕ) → is_among self.new other ≡ (is_among self.old other || is_among keys.now other)) }
    {
        for key in keys {
            self.add(*key)?;
        }
        Ok(())
    }
}
