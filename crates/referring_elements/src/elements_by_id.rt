//! Elements by ids.

ghost use Rattle.std.specs.Prelude.{◌≡◌, ℕ, List, [], Some, None, OnErr, OnOk, cond};
ghost use Rattle.std.specs.Option.{option_or};
ghost use Rattle.std.specs.Str.{bytes_eq, chars};
ghost use Rattle.referring_elements.specs.ElementsById.{element_of};

use indexmap::IndexMap;
use plain_types::memory::Memory;
use std::alloc::Global;
use std::marker::Model;

/// An element, by its key, for each of some ids. Ids are compared as written.
#[derive(Drop)]
pub(crate) struct ElementsById {
    by_id: IndexMap<String, usize>,
}

impl Model for ElementsById {
    ghost use Rattle.std.specs.Prelude.{ℕ, List};
    ghost use Rattle.std.specs.String.{string_bytes};
    ghost use Rattle.referring_elements.specs.ElementsById.{elements_of};

    ghost Value = { List (List ℕ × ℕ) };

    ghost view = { λ elements. elements_of string_bytes elements.by_id.entries };
}

impl ElementsById {
    /// No ids.
    pub(crate) fn new(alloc: Global) -> ElementsById
        ensures empty { result ≡ [] }
    {
        ElementsById {
            by_id: IndexMap::new(alloc),
        }
    }

    /// The element of an id, where it has one.
    pub(crate) fn get(&self, id: &str) -> Option<usize>
        ensures element { result ≡ element_of self.now (chars id.now) }
    {
        self.by_id.get(id).copied()
    }

    /// Gives an id this element, where it has none.
    pub(crate) fn put_first(&mut self, alloc: Global, id: &str, key: usize) -> Result<(), Memory>
        ensures ok { OnOk result ((other : List ℕ) → element_of self.new other ≡ option_or (element_of self.old other) (cond (bytes_eq other (chars id.now)) (Some key) None)) }
        ensures err { OnErr result (self.new ≡ self.old) }
    {
        if self.by_id.contains_key(id) {
            return Ok(());
        }
        let name = String::from_str(alloc, id)?;
        self.by_id.insert(name, key)?;
        Ok(())
    }
}
