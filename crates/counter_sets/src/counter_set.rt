//! Sets that share their lists.

ghost use Rattle.std.specs.Prelude.{◌≡◌, ◌≢◌, ◌↔◌, None, Some, ◌++◌, ◌∷◌, [], ◌<◌, IfNone, IfOk, IfSome, IsTrue, length, option_copied, false, remove, unwrap_or};
ghost use Rattle.std.specs.List.{fold};
ghost use Rattle.std.specs.Option.{option_map_or};
ghost use Rattle.std.specs.Str.{chars};
ghost use Rattle.counter_sets.specs.Indexes.{HaveOwnNames};
ghost use Rattle.counter_sets.specs.Sets.{AreDistinct, assigned, incremented, inherited, innermost, innermost_place, instantiated, is_missing_in, replaced_place, change_at, with_value};

use crate::counters::{are_equal, copy_with_capacity, is_missing_in, last_place};
use crate::inheriting::{copy_inherited, is_inherited};
use crate::instantiating::copy_left;
use plain_types::box_id::BoxId;
use plain_types::count::{Count, add_counts};
use plain_types::counter::Counter;
use plain_types::memory::Memory;
use plain_types::shared_text::SharedText;
use plain_types::text::Text;
use std::alloc::Global;
use std::marker::Model;
use std::rc::Rc;

/// The counters in whose scope a box is, the innermost of a name last, in a list that sets can share.
#[derive(Drop)]
pub struct CounterSet {
    counters: Rc<Vec<Counter>>,
}

impl Model for CounterSet {
    ghost use Rattle.std.specs.Prelude.{List};
    ghost use Rattle.plain_types.specs.declared.counter.Counter.{Counter};

    ghost Value = { List Counter };

    ghost use Rattle.counter_sets.specs.Sets.{AreDistinct};

    ghost view = { λ set. set.counters.value.items };

    ghost invariant = { λ set. AreDistinct set.counters.value.items };
}

#[cfg(test)]
impl CounterSet {
    /// Whether both sets hold one list in memory.
    pub(crate) fn shares_with(&self, other: &CounterSet) -> bool {
        Rc::ptr_eq(&self.counters, &other.counters)
    }
}

impl CounterSet {
    /// The set without counters.
    pub fn empty(alloc: Global) -> Result<CounterSet, Memory>
        ensures empty { IfOk result (λ set. set ≡ []) }
    {
        CounterSet::of(alloc, Vec::new(alloc))
    }

    /// The set that a box inherits (CSS Lists 3, 4.4): the parent's counters, then those that the sibling
    /// before it has besides, each with its value in the set of the box just before in tree order. Where one
    /// of these three is that set, its list is shared, as by `share`, and none is made. It takes time linear in the
    /// sets' lengths where the parent's counters come first in the sibling's set, and what a box inherits stands in
    /// that order at the front of the preceding set, or of its front: so it is in the sets of boxes. Else it takes
    /// time in the product of the lengths.
    pub fn inherit(
        alloc: Global,
        parent: &CounterSet,
        sibling: Option<&CounterSet>,
        preceding: Option<&CounterSet>,
    ) -> Result<CounterSet, Memory>
        ensures set { IfOk result (λ set. set ≡ inherited parent.now (option_copied sibling.entry) (option_copied preceding.entry)) }
    {
        if let Some(set) = find_inherited(parent, sibling, preceding) {
            return set.share(alloc);
        }
        let values = counters_of(preceding);
        let counters = copy_inherited(alloc, parent.as_slice(), counters_of(sibling), values)?;
        CounterSet::of(alloc, counters)
    }

    /// The set with a new counter at its end (CSS Lists 3, 4.4). The innermost counter of its name goes where
    /// the parent's set lacks it: the box itself or an earlier sibling created it. The list is changed in place where
    /// no other set shares it, and copied first where one does. It takes time linear in the sets' lengths. The
    /// caller sees to it that no other counter of the set is the same as the new one.
    pub fn instantiate(
        self,
        alloc: Global,
        parent: &CounterSet,
        counter: Counter,
    ) -> Result<CounterSet, Memory>
        requires distinct { AreDistinct (instantiated (is_missing_in parent.now) self counter) }
        ensures set { IfOk result (λ set. set ≡ instantiated (is_missing_in parent.now) self counter) }
    {
        let mut counters = self.without_replaced(alloc, parent, counter.name.as_str())?;
        counters.push(counter)?;
        CounterSet::of(alloc, counters)
    }

    /// The set with these new counters at its end, one after the other as by `instantiate`. They have names of their
    /// own, and the caller sees to it that none is the same as another counter of the set. It takes time linear in
    /// the sets' lengths and in the new counters where the parent's counters come first in the set: so it is in the
    /// sets of boxes.
    pub fn instantiate_all(
        self,
        alloc: Global,
        parent: &CounterSet,
        counters: Vec<Counter>,
    ) -> Result<CounterSet, Memory>
        requires names { HaveOwnNames counters.items }
        requires distinct { AreDistinct (fold (instantiated (is_missing_in parent.now)) self counters.items) }
        ensures set { IfOk result (λ set. set ≡ fold (instantiated (is_missing_in parent.now)) self counters.items) }
    {
        let mut new = counters;
        let mut all = copy_left(alloc, self.as_slice(), parent.as_slice(), new.as_slice())?;
        all.append(&mut new)?;
        CounterSet::of(alloc, all)
    }

    /// The set with the innermost counter of the name raised (CSS Lists 3, 4.2), saturated. Where there is
    /// none, the box `creator` creates one with 0 first. The list is changed in place, or copied first, as by
    /// `instantiate`; where the value stays as it is, it is neither changed nor copied. It takes time linear in the
    /// set's length.
    pub fn increment(
        self,
        alloc: Global,
        parent: &CounterSet,
        name: &Text,
        by: Count,
        creator: BoxId,
    ) -> Result<CounterSet, Memory>
        ensures set { IfOk result (λ set. set ≡ incremented (is_missing_in parent.now) creator self name.now by) }
    {
        match self.innermost_place(name.as_str()) {
            Some(place) => {
                let value = add_counts(self.as_slice()[place].value, by);
                self.with_value(alloc, place, value)
            }
            None => self.with_new(alloc, name, creator, add_counts(0, by)),
        }
    }

    /// The set with another value for the innermost counter of the name (CSS Lists 3, 4.2). Where there is
    /// none, the box `creator` creates one. The list is changed in place, or copied first, as by `instantiate`;
    /// where the counter has that value already, it is neither changed nor copied. It takes time linear in the set's
    /// length.
    pub fn assign(
        self,
        alloc: Global,
        parent: &CounterSet,
        name: &Text,
        value: Count,
        creator: BoxId,
    ) -> Result<CounterSet, Memory>
        ensures set { IfOk result (λ set. set ≡ assigned (is_missing_in parent.now) creator self name.now value) }
    {
        match self.innermost_place(name.as_str()) {
            Some(place) => self.with_value(alloc, place, value),
            None => self.with_new(alloc, name, creator, value),
        }
    }

    /// The same set, in constant time over the same list; over a copy of it where the list can have no
    /// further holder.
    pub fn share(&self, alloc: Global) -> Result<CounterSet, Memory>
        ensures same { IfOk result (λ set. set ≡ self.now) }
    {
        match self.counters.clone() {
            Ok(counters) => Ok(CounterSet { counters }),
            Err(_) => CounterSet::of(
                alloc,
                copy_with_capacity(alloc, self.as_slice(), self.len())?,
            ),
        }
    }

    /// Whether both sets have the same counters with the same values, in the same order. It takes no memory, and time
    /// linear in the sets' lengths, also where they share a list.
    pub fn is_same(&self, other: &CounterSet) -> bool
        ensures test { IsTrue result ↔ (self.now ≡ other.now) }
    {
        are_equal(self.as_slice(), other.as_slice())
    }

    /// The innermost counter of the name. It takes no memory, and time linear in the set's length.
    pub fn innermost(&self, name: &str) -> Option<&Counter>
        ensures innermost { option_copied result ≡ innermost self.now (chars name.now) }
    {
        let place = self.innermost_place(name)?;
        Some(&self.as_slice()[place])
    }

    /// The counters, the innermost of a name last. It takes no memory.
    pub fn as_slice(&self) -> &[Counter]
        ensures counters { result.now ≡ self.now }
        ensures distinct { AreDistinct self.now }
    {
        self.counters.as_slice()
    }

    /// The set of these counters.
    fn of(alloc: Global, counters: Vec<Counter>) -> Result<CounterSet, Memory>
        requires distinct { AreDistinct counters.items }
        ensures counters { IfOk result (λ set. set ≡ counters.items) }
    {
        Ok(CounterSet {
            counters: Rc::new(alloc, counters)?,
        })
    }

    /// How many counters there are.
    pub(crate) fn len(&self) -> usize
        ensures length { result ≡ length self.now }
    {
        self.as_slice().len()
    }

    /// The counters in a list that no set holds: that of this set where no other one shares it, and else a copy with
    /// room for so many.
    fn into_counters(self, alloc: Global, capacity: usize) -> Result<Vec<Counter>, Memory>
        ensures counters { IfOk result (λ counters. counters.items ≡ self) }
        ensures distinct { IfOk result (λ counters. AreDistinct counters.items) }
    {
        match Rc::try_unwrap(self.counters) {
            Ok(counters) => Ok(counters),
            Err(shared) => copy_with_capacity(alloc, shared.as_slice(), capacity),
        }
    }

    /// The place of the innermost counter of a name.
    pub(crate) fn innermost_place(&self, name: &str) -> Option<usize>
        ensures place { result ≡ innermost_place self.now (chars name.now) }
        ensures within { IfSome result (λ place. place < length self.now) }
    {
        last_place(self.as_slice(), name)
    }

    /// Whether this is the set that a box inherits from these.
    fn is_inherited(
        &self,
        parent: &CounterSet,
        sibling: Option<&CounterSet>,
        preceding: Option<&CounterSet>,
    ) -> bool
        ensures test { IsTrue result ↔ (self.now ≡ inherited parent.now (option_copied sibling.entry) (option_copied preceding.entry)) }
    {
        is_inherited(
            self.as_slice(),
            parent.as_slice(),
            counters_of(sibling),
            counters_of(preceding),
        )
    }

    /// The place of the counter whose place a new one of this name takes.
    fn replaced_place(&self, parent: &CounterSet, name: &str) -> Option<usize>
        ensures place { result ≡ replaced_place (is_missing_in parent.now) self.now (chars name.now) }
        ensures within { IfSome result (λ place. place < length self.now) }
    {
        let place = self.innermost_place(name)?;
        if is_missing_in(parent.as_slice(), place, &self.as_slice()[place]) {
            Some(place)
        } else {
            None
        }
    }

    /// The counters but for that whose place a new one of this name takes, in a list that no set holds, which has room
    /// for the new one if it was copied.
    fn without_replaced(
        self,
        alloc: Global,
        parent: &CounterSet,
        name: &str,
    ) -> Result<Vec<Counter>, Memory>
        ensures counters { IfOk result (λ counters. counters.items ≡ option_map_or (remove self) (replaced_place (is_missing_in parent.now) self (chars name.now)) self) }
    {
        let len = self.len();
        match self.replaced_place(parent, name) {
            Some(place) => {
                let mut counters = self.into_counters(alloc, len)?;
                let _replaced = counters.remove(place);
                Ok(counters)
            }
            None => self.into_counters(alloc, len + 1),
        }
    }

    /// The set with this value for the counter at a place.
    pub(crate) fn with_value(
        self,
        alloc: Global,
        place: usize,
        value: Count,
    ) -> Result<CounterSet, Memory>
        requires within { place < length self }
        ensures set { IfOk result (λ set. set ≡ change_at (with_value (λ _. value)) self place) }
    {
        if self.as_slice()[place].value == value {
            return Ok(self);
        }
        let len = self.len();
        let mut counters = self.into_counters(alloc, len)?;
        counters[place].value = value;
        CounterSet::of(alloc, counters)
    }

    /// The set with a new counter that is not reversed, of a name that has none.
    pub(crate) fn with_new(
        self,
        alloc: Global,
        name: &Text,
        creator: BoxId,
        value: Count,
    ) -> Result<CounterSet, Memory>
        requires unused { innermost_place self name.now ≡ None }
        ensures set { IfOk result (λ set. set ≡ self ++ record { name = name.now; creator = creator; reversed = false; value = value } ∷ []) }
    {
        let name = SharedText::from_str(alloc, name.as_str())?;
        let len = self.len();
        let mut counters = self.into_counters(alloc, len + 1)?;
        counters.push(Counter {
            name,
            creator,
            reversed: false,
            value,
        })?;
        CounterSet::of(alloc, counters)
    }
}

/// The first of the sets that is the one that a box inherits from them.
fn find_inherited<'a>(
    parent: &'a CounterSet,
    sibling: Option<&'a CounterSet>,
    preceding: Option<&'a CounterSet>,
) -> Option<&'a CounterSet>
    ensures found { IfSome result (λ set. set.now ≡ inherited parent.now (option_copied sibling.entry) (option_copied preceding.entry)) }
    ensures parent { IfNone result (parent.now ≢ inherited parent.now (option_copied sibling.entry) (option_copied preceding.entry)) }
    ensures sibling { IfNone result (option_copied sibling.entry ≢ Some (inherited parent.now (option_copied sibling.entry) (option_copied preceding.entry))) }
    ensures preceding { IfNone result (option_copied preceding.entry ≢ Some (inherited parent.now (option_copied sibling.entry) (option_copied preceding.entry))) }
{
    for set in [Some(parent), sibling, preceding] {
        if let Some(set) = set
            && set.is_inherited(parent, sibling, preceding)
        {
            return Some(set);
        }
    }
    None
}

/// The counters of a set, and none where there is no set.
fn counters_of<'a>(set: Option<&'a CounterSet>) -> &'a [Counter]
    ensures counters { result.now ≡ unwrap_or (option_copied set.entry) [] }
    ensures distinct { AreDistinct (unwrap_or (option_copied set.entry) []) }
{
    match set {
        Some(set) => set.as_slice(),
        None => &[],
    }
}
