//! Values by names.

ghost use Rattle.std.specs.Prelude.{◌≡◌, ℕ, List, [], Some, OnOk, cond, None};
ghost use Rattle.std.specs.Option.{option_or};
ghost use Rattle.std.specs.Str.{bytes_eq, chars};
ghost use Rattle.counter_sets.specs.ByNames.{is_at, value_of};

use indexmap::IndexMap;
use plain_types::memory::Memory;
use std::alloc::Global;
use std::marker::Model;

/// From so many names on, that are asked for one after the other, a look-up is made for them. For fewer it does not pay.
pub const MANY: usize = 32;

/// A value for each of some names. Names are compared as written.
#[derive(Drop)]
pub struct ByName<V> {
    by_name: IndexMap<String, V>,
}

impl<V> Model for ByName<V> {
    ghost use Rattle.std.specs.Prelude.{ℕ, List};
    ghost use Rattle.std.specs.String.{string_bytes};
    ghost use Rattle.counter_sets.specs.ByNames.{by_names};

    ghost Value = { List (List ℕ × V) };

    ghost view = { λ values. by_names string_bytes values.by_name.entries };
}

impl<V: Copy + Drop> ByName<V> {
    /// No names. It takes no memory.
    pub fn new(alloc: Global) -> ByName<V>
        ensures empty { result ≡ [] }
    {
        ByName {
            by_name: IndexMap::new(alloc),
        }
    }

    /// The value of a name, where it has one. It takes no memory, and time linear in the name, as long as few names
    /// have one hash.
    pub fn get(&self, name: &str) -> Option<V>
        ensures value { result ≡ value_of self.now (chars name.now) }
    {
        self.by_name.get(name).copied()
    }

    /// Gives a name this value, in place of the one that it has.
    pub fn put(&mut self, alloc: Global, name: &str, value: V) -> Result<(), Memory>
        ensures ok { OnOk result ((other : List ℕ) → value_of self.new other ≡ cond (bytes_eq other (chars name.now)) (Some value) (value_of self.old other)) }
    {
        self.by_name.insert(String::from_str(alloc, name)?, value)?;
        Ok(())
    }

    /// Gives a name this value, where it has none.
    pub fn put_first(&mut self, alloc: Global, name: &str, value: V) -> Result<(), Memory>
        ensures ok { OnOk result ((other : List ℕ) → value_of self.new other ≡ option_or (value_of self.old other) (cond (bytes_eq other (chars name.now)) (Some value) None)) }
    {
        if self.by_name.contains_key(name) {
            return Ok(());
        }
        self.by_name.insert(String::from_str(alloc, name)?, value)?;
        Ok(())
    }
}

/// Whether the place that was found is this one.
pub fn is_at(found: Option<usize>, place: usize) -> bool
    ensures test { result ≡ is_at found place }
{
    match found {
        Some(at) => at == place,
        None => false,
    }
}
