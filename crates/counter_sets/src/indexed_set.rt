//! Sets with a look-up of their innermost counters.

ghost use Rattle.std.specs.Prelude.{◌≡◌, ℕ, List, None, Some, ◌++◌, ◌∷◌, [], ◌<◌, IfOk, IfSome, false, length, option_copied};
ghost use Rattle.std.specs.Str.{chars};
ghost use Rattle.plain_types.specs.declared.counter.Counter.{Counter};
ghost use Rattle.counter_sets.specs.ByNames.{value_of};
ghost use Rattle.counter_sets.specs.Indexes.{HasPlaces};
ghost use Rattle.counter_sets.specs.Sets.{assigned, incremented, innermost, innermost_place, is_missing_in, change_at, with_value};

use crate::by_name::{ByName, MANY};
use crate::counter_set::CounterSet;
use crate::counters::last_places;
use plain_types::box_id::BoxId;
use plain_types::count::{Count, add_counts};
use plain_types::counter::Counter;
use plain_types::memory::Memory;
use plain_types::text::Text;
use std::alloc::Global;
use std::marker::Model;

/// A set of counters, which keeps the places of the innermost ones where it is asked for many names. Contracts see
/// the set.
#[derive(Drop)]
pub struct IndexedSet {
    set: CounterSet,
    places: Option<ByName<usize>>,
}

impl Model for IndexedSet {
    ghost use Rattle.std.specs.Prelude.{List};
    ghost use Rattle.plain_types.specs.declared.counter.Counter.{Counter};

    ghost Value = { List Counter };

    ghost use Rattle.counter_sets.specs.Indexes.{HasPlaces};

    ghost view = { λ indexed. indexed.set };

    ghost invariant = { λ indexed. HasPlaces indexed.places indexed.set };
}

impl IndexedSet {
    /// The set, which is asked for so many names. Where these are many, the places of its counters are looked for at
    /// once, in time linear in its length; else each time that a name is asked for.
    pub fn of(alloc: Global, set: CounterSet, asked: usize) -> Result<IndexedSet, Memory>
        ensures set { IfOk result (λ indexed. indexed ≡ set) }
    {
        if asked < MANY {
            return Ok(IndexedSet { set, places: None });
        }
        let places = last_places(alloc, set.as_slice())?;
        Ok(IndexedSet {
            set,
            places: Some(places),
        })
    }

    /// The set alone.
    pub fn into_set(self) -> CounterSet
        ensures set { result ≡ self }
    {
        let IndexedSet { set, places: _ } = self;
        set
    }

    /// The set with the innermost counter of the name raised, as by `CounterSet::increment`.
    pub fn increment(
        self,
        alloc: Global,
        parent: &CounterSet,
        name: &Text,
        by: Count,
        creator: BoxId,
    ) -> Result<IndexedSet, Memory>
        ensures set { IfOk result (λ set. set ≡ incremented (is_missing_in parent.now) creator self name.now by) }
    {
        match self.innermost_place(name.as_str()) {
            Some(place) => {
                let value = add_counts(self.as_slice()[place].value, by);
                self.with_value(alloc, place, value)
            }
            None => self.with_new(alloc, name, creator, add_counts(0, by)),
        }
    }

    /// The set with another value for the innermost counter of the name, as by `CounterSet::assign`.
    pub fn assign(
        self,
        alloc: Global,
        parent: &CounterSet,
        name: &Text,
        value: Count,
        creator: BoxId,
    ) -> Result<IndexedSet, Memory>
        ensures set { IfOk result (λ set. set ≡ assigned (is_missing_in parent.now) creator self name.now value) }
    {
        match self.innermost_place(name.as_str()) {
            Some(place) => self.with_value(alloc, place, value),
            None => self.with_new(alloc, name, creator, value),
        }
    }

    /// The innermost counter of the name. It takes no memory.
    pub fn innermost(&self, name: &str) -> Option<&Counter>
        ensures innermost { option_copied result ≡ innermost self.now (chars name.now) }
    {
        let place = self.innermost_place(name)?;
        Some(&self.as_slice()[place])
    }

    /// The counters, the innermost of a name last.
    fn as_slice(&self) -> &[Counter]
        ensures counters { result.now ≡ self.now }
    {
        self.set.as_slice()
    }

    /// The place of the innermost counter of a name.
    fn innermost_place(&self, name: &str) -> Option<usize>
        ensures place { result ≡ innermost_place self.now (chars name.now) }
        ensures within { IfSome result (λ place. place < length self.now) }
    {
        match &self.places {
            Some(places) => places.get(name),
            None => self.set.innermost_place(name),
        }
    }

    /// The set with this value for the counter at a place.
    fn with_value(self, alloc: Global, place: usize, value: Count) -> Result<IndexedSet, Memory>
        requires within { place < length self }
        ensures set { IfOk result (λ set. set ≡ change_at (with_value (λ _. value)) self place) }
    {
        let IndexedSet { set, places } = self;
        let set = set.with_value(alloc, place, value)?;
        Ok(IndexedSet { set, places })
    }

    /// The set with a new counter that is not reversed, of a name that has none.
    fn with_new(
        self,
        alloc: Global,
        name: &Text,
        creator: BoxId,
        value: Count,
    ) -> Result<IndexedSet, Memory>
        requires unused { innermost_place self name.now ≡ None }
        ensures set { IfOk result (λ set. set ≡ self ++ record { name = name.now; creator = creator; reversed = false; value = value } ∷ []) }
    {
        let IndexedSet { set, places } = self;
        let places = with_place(alloc, places, name.as_str(), set.len())?;
        let set = set.with_new(alloc, name, creator, value)?;
        Ok(IndexedSet { set, places })
    }
}

/// The places of a set's innermost counters, with that of a counter of this name more at its end.
fn with_place(
    alloc: Global,
    places: Option<ByName<usize>>,
    name: &str,
    place: usize,
) -> Result<Option<ByName<usize>>, Memory>
    ensures more { IfOk result (λ more. (set : List Counter) (counter : Counter) → counter.name ≡ chars name.now → length set ≡ place → HasPlaces places set → HasPlaces more (set ++ counter ∷ [])) }
{
    match places {
        Some(mut places) => {
            places.put(alloc, name, place)?;
            Ok(Some(places))
        }
        None => Ok(None),
    }
}
