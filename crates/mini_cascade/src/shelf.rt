//! Places of rules, filed under names.

ghost use Rattle.std.specs.Prelude.{◌≡◌, ◌&&◌, ◌||◌, ℕ, nat_eq, List, [], OnOk};
ghost use Rattle.std.specs.Str.{bytes_eq};
ghost use Rattle.mini_cascade.specs.Machinery.Shelves.{filed_at, is_filed};

use indexmap::IndexMap;
use plain_types::list::List;
use plain_types::memory::Memory;
use std::alloc::Global;

/// Places of rules in their sheet, filed under the bytes of names.
#[derive(Drop)]
pub(crate) struct Shelf {
    by_name: IndexMap<Vec<u8>, List<usize>>,
}

impl Shelf {
    /// A shelf without places. It takes no memory.
    pub(crate) fn new(alloc: Global) -> Shelf
        ensures empty { (name : List ℕ) → filed_at result name ≡ [] }
    {
        Shelf {
            by_name: IndexMap::new(alloc),
        }
    }

    /// What is filed under a name, in time linear in the name.
    pub(crate) fn places(&self, name: &[u8]) -> &[usize]
        ensures places { result.now ≡ filed_at self.now name.now }
    {
        match self.by_name.get(name) {
            Some(places) => places.as_slice(),
            None => &[],
        }
    }

    /// Files a place under a name, in amortized time linear in the name.
    pub(crate) fn file(&mut self, alloc: Global, name: &[u8], place: usize) -> Result<(), Memory>
        ensures ok { OnOk result ((other : List ℕ) (one : ℕ) → is_filed self.new other one ≡ (is_filed self.old other one || (bytes_eq other name.now && nat_eq one place))) }
    {
        if let Some(places) = self.by_name.get_mut(name) {
            return places.push(place);
        }
        let mut places = List::new(alloc);
        places.push(place)?;
        self.by_name.insert(Vec::from_slice(alloc, name)?, places)?;
        Ok(())
    }
}
