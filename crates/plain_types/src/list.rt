//! Owned lists.

ghost use Rattle.std.specs.Prelude.{◌≡◌, ◌↔◌, ◌++◌, ◌∷◌, [], IfOk, IsTrue, OnOk, OnErr, length};

use crate::duplicate::Duplicate;
use crate::memory::Memory;
use std::alloc::Global;
use std::marker::Model;

/// Items in order, over a `Vec`. Contracts see the list of the items and nothing of room or place in
/// memory, so that equal lists are equal values.
#[derive(Drop)]
pub struct List<T> {
    items: Vec<T>,
}

impl<T> Model for List<T> {
    ghost use Rattle.std.specs.Prelude.{List};
    ghost use Rattle.std.specs.Coded.{coded_list};

    ghost Value = { List T };

    ghost coded = { coded_list T.code };

    ghost view = { λ list. list.items.items };
}

impl<T> List<T> {
    /// The list without items. It takes no memory.
    pub fn new(alloc: Global) -> List<T>
        ensures empty { result ≡ [] }
    {
        List {
            items: Vec::new(alloc),
        }
    }

    /// The list without items, with room in memory for so many.
    pub fn with_capacity(alloc: Global, capacity: usize) -> Result<List<T>, Memory>
        ensures empty { IfOk result (λ list. list ≡ []) }
    {
        Ok(List {
            items: Vec::with_capacity(alloc, capacity)?,
        })
    }

    /// The items as a slice.
    pub fn as_slice(&self) -> &[T]
        ensures items { result.now ≡ self.now }
    {
        self.items.as_slice()
    }

    /// How many items there are.
    pub fn len(&self) -> usize
        ensures length { result ≡ length self.now }
    {
        self.items.len()
    }

    /// Whether there is no item.
    pub fn is_empty(&self) -> bool
        ensures empty { IsTrue result ↔ (self.now ≡ []) }
    {
        self.items.is_empty()
    }

    /// Appends the item, in amortized constant time. After `Memory` the item is dropped. A list of one item takes room for
    /// no more, since most lists have one.
    pub fn push(&mut self, item: T) -> Result<(), Memory>
    where
        T: Drop,
        ensures ok { OnOk result (self.new ≡ self.old ++ item ∷ []) }
        ensures err { OnErr result (self.new ≡ self.old) }
    {
        if self.items.is_empty() {
            self.items.reserve_exact(1)?;
        }
        self.items.push(item)?;
        Ok(())
    }
}

impl List<u8> {
    /// Appends the bytes, in amortized time linear in them.
    pub fn extend(&mut self, bytes: &[u8]) -> Result<(), Memory>
        ensures ok { OnOk result (self.new ≡ self.old ++ bytes.now) }
        ensures err { OnErr result (self.new ≡ self.old) }
    {
        self.items.extend_from_slice(bytes)?;
        Ok(())
    }
}

impl<T: Duplicate + Drop> Duplicate for List<T> {
    fn duplicate(&self, alloc: Global) -> Result<List<T>, Memory> {
        let mut copy = List::with_capacity(alloc, self.len())?;
        for item in self.as_slice() {
            copy.push(item.duplicate(alloc)?)?;
        }
        Ok(copy)
    }
}
