//! What a box is handed by the boxes before it.

ghost use Rattle.std.specs.Prelude.{◌≡◌, IfOk, option_copied};
ghost use Rattle.std.specs.Option.{option_eq};
ghost use Rattle.box_eval.specs.Elements.{at_root};
ghost use Rattle.surroundings.specs.Surroundings.{handed_behind, handed_inside, inputs_from, is_same, is_same_set, last_made, surroundings_of};

use box_eval::entry::{Closing, Entry};
use box_eval::inputs::{Inputs, Start};
use box_eval::made::Made;
use counter_sets::counter_set::CounterSet;
use plain_types::list::List;
use plain_types::memory::Memory;
use std::alloc::Global;

/// The counters and the quote depth that the first box of an element is handed (CSS Lists 3, 4.4).
#[derive(Drop)]
pub struct Surroundings {
    /// The counters of the parent box.
    pub parent: CounterSet,
    /// Those of the sibling box before, where there is one.
    pub sibling: Option<CounterSet>,
    /// Those of the box just before in tree order, where there is one.
    pub preceding: Option<CounterSet>,
    /// The quote depth behind that box.
    pub depth: u64,
}

impl Surroundings {
    /// What the root is handed: no counters, and the quote depth 0.
    pub fn of_root(alloc: Global) -> Result<Surroundings, Memory>
        ensures root { IfOk result (λ around. around ≡ surroundings_of at_root) }
    {
        Ok(Surroundings {
            parent: CounterSet::empty(alloc)?,
            sibling: None,
            preceding: None,
            depth: 0,
        })
    }

    /// What the children of an element with a box are handed. It shares the element's sets, in constant time.
    pub fn inside(alloc: Global, entry: &Entry) -> Result<Surroundings, Memory>
        ensures inside { IfOk result (λ around. around ≡ handed_inside entry.now) }
    {
        let parent = entry.own.share(alloc)?;
        let (sibling, preceding) = match last_made(entry) {
            Some(made) => (Some(made.set.share(alloc)?), made.set.share(alloc)?),
            None => (None, entry.own.share(alloc)?),
        };
        Ok(Surroundings {
            parent,
            sibling,
            preceding: Some(preceding),
            depth: entry.depth,
        })
    }

    /// What is handed on behind an element with a box that has these counters, where the element is handed this. It
    /// shares all sets, in constant time.
    pub fn behind(
        &self,
        alloc: Global,
        own: &CounterSet,
        closing: &Closing,
    ) -> Result<Surroundings, Memory>
        ensures behind { IfOk result (λ around. around ≡ handed_behind self.now.parent own.now closing.now) }
    {
        Ok(Surroundings {
            parent: self.parent.share(alloc)?,
            sibling: Some(own.share(alloc)?),
            preceding: Some(closing.exit.share(alloc)?),
            depth: closing.depth,
        })
    }

    /// The inputs of the element of this key that is handed this, with these starts. It shares all sets, in constant
    /// time.
    pub fn inputs(&self, alloc: Global, key: usize, starts: List<Start>) -> Result<Inputs, Memory>
        ensures inputs { IfOk result (λ inputs. inputs ≡ inputs_from key starts self.now) }
    {
        let Surroundings {
            parent,
            sibling,
            preceding,
            depth,
        } = self.share(alloc)?;
        Ok(Inputs {
            key,
            parent,
            sibling,
            preceding,
            depth,
            starts,
        })
    }

    /// The same once more, in constant time over the same lists, or over copies where a list can have no further
    /// holder.
    pub fn share(&self, alloc: Global) -> Result<Surroundings, Memory>
        ensures same { IfOk result (λ around. around ≡ self.now) }
    {
        Ok(Surroundings {
            parent: self.parent.share(alloc)?,
            sibling: share_set(alloc, self.sibling.as_ref())?,
            preceding: share_set(alloc, self.preceding.as_ref())?,
            depth: self.depth,
        })
    }

    /// Whether the same is handed. It takes no memory, and time linear in the sets' lengths.
    pub fn is_same(&self, other: &Surroundings) -> bool
        ensures test { result ≡ is_same self.now other.now }
    {
        is_same_set(&self.parent, &other.parent)
            && is_same_option(self.sibling.as_ref(), other.sibling.as_ref())
            && is_same_option(self.preceding.as_ref(), other.preceding.as_ref())
            && self.depth == other.depth
    }
}

/// The same once more where something is handed, as by [`Surroundings::share`].
pub fn share_handed(
    alloc: Global,
    handed: Option<&Surroundings>,
) -> Result<Option<Surroundings>, Memory>
    ensures same { IfOk result (λ same. same ≡ option_copied handed.entry) }
{
    match handed {
        Some(around) => Ok(Some(around.share(alloc)?)),
        None => Ok(None),
    }
}

/// Whether the same is handed, or nothing at both. It takes no memory, and time linear in the sets' lengths.
pub fn is_handed_the_same(one: Option<&Surroundings>, other: Option<&Surroundings>) -> bool
    ensures test { result ≡ option_eq is_same (option_copied one.entry) (option_copied other.entry) }
{
    match (one, other) {
        (Some(one), Some(other)) => one.is_same(other),
        (None, None) => true,
        _ => false,
    }
}

/// The last box of an element before its children, beside its own.
fn last_made(entry: &Entry) -> Option<&Made>
    ensures made { option_copied result ≡ last_made entry.now }
{
    match &entry.before {
        Some(made) => Some(made),
        None => entry.marker.as_ref(),
    }
}

/// The same set, where there is one.
fn share_set(alloc: Global, set: Option<&CounterSet>) -> Result<Option<CounterSet>, Memory>
    ensures same { IfOk result (λ same. same ≡ option_copied set.entry) }
{
    match set {
        Some(set) => Ok(Some(set.share(alloc)?)),
        None => Ok(None),
    }
}

/// Whether both sets have the same counters with the same values.
fn is_same_set(one: &CounterSet, other: &CounterSet) -> bool
    ensures test { result ≡ is_same_set one.now other.now }
{
    one.is_same(other)
}

/// Whether both sets are the same, or neither is there.
fn is_same_option(one: Option<&CounterSet>, other: Option<&CounterSet>) -> bool
    ensures test { result ≡ option_eq is_same_set (option_copied one.entry) (option_copied other.entry) }
{
    match (one, other) {
        (Some(one), Some(other)) => is_same_set(one, other),
        (None, None) => true,
        _ => false,
    }
}
