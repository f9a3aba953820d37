//! What came of matching the left parts of selectors, kept for elements.

ghost use Rattle.std.specs.Prelude.{◌≡◌, IfSome, IsTrue, [], slice_get};
ghost use Rattle.forest.specs.Forest.{Forest};
ghost use Rattle.forest.specs.Keys.{Keyed};
ghost use Rattle.plain_types.specs.declared.node.Node.{Node};
ghost use Rattle.selector_match.specs.Machinery.Lookups.{standing_at};
ghost use Rattle.selector_match.specs.Machinery.Outcomes.{AreOfPart, AreOutcomes, IsFor, IsOutcome};

use crate::copies::copy_of;
use crate::fingerprint::fingerprint;
use crate::same::is_same;
use indexmap::IndexMap;
use plain_types::memory::Memory;
use plain_types::selector::Selector;
use std::alloc::Global;
use std::cell::Cell;

/// So many left parts are noted at a time.
const MANY: usize = 64;

/// So many nodes are passed by in the time that it takes to keep an outcome.
const PRICE: usize = 32;

/// So many outcomes are kept before all are let go: they take some 50 bytes each.
const MOST: usize = 1_048_576;

/// A part of a selector: its compounds before a place, with the combinators between them.
#[derive(Drop)]
pub(crate) struct LeftPart {
    pub(crate) selector: Selector,
    pub(crate) place: usize,
}

/// What came of matching a left part before elements, by their keys: the place where the row of siblings ends, or nothing
/// where it is not matched.
#[derive(Drop)]
pub(crate) struct PartOutcomes {
    pub(crate) part: LeftPart,
    pub(crate) by_key: IndexMap<usize, Option<usize>>,
}

/// The outcomes that are kept, and the left parts of which one was asked for that is not.
#[derive(Drop)]
pub(crate) struct Outcomes {
    pub(crate) parts: Vec<PartOutcomes>,
    places: IndexMap<u64, usize>,
    wanted: Cell<Vec<LeftPart>>,
    /// Whether one was missing since this was asked.
    missed: Cell<bool>,
    /// How many nodes were passed by where one was missing, and how many are to be before those of a part are kept.
    paid: Cell<usize>,
    price: Cell<usize>,
    /// How many are kept.
    kept: usize,
    alloc: Global,
}

impl LeftPart {
    /// Whether it is this part of this selector.
    fn is(&self, selector: &Selector, place: usize) -> bool
        ensures { IsTrue result → IsFor selector.now place self.now }
    {
        self.place == place && is_same(&self.selector, selector)
    }
}

impl PartOutcomes {
    /// Keeps an outcome for an element.
    fn keep(&mut self, key: usize, outcome: Option<usize>) -> Result<(), Memory>
        ensures right { (tree : Forest (Keyed Node)) → AreOfPart tree self.old → IsOutcome self.old.part.selector self.old.part.place (standing_at tree key) outcome → AreOfPart tree self.new }
    {
        self.by_key.insert(key, outcome)?;
        Ok(())
    }
}

/// Whether a left part is among these.
fn contains(parts: &[LeftPart], selector: &Selector, place: usize) -> bool {
    for part in parts {
        if part.is(selector, place) {
            return true;
        }
    }
    false
}

impl Outcomes {
    /// No outcomes. It takes no memory.
    pub(crate) fn new(alloc: Global) -> Outcomes
        ensures empty { result.parts.items ≡ [] }
    {
        Outcomes {
            parts: Vec::new(alloc),
            places: IndexMap::new(alloc),
            wanted: Cell::new(Vec::new(alloc)),
            missed: Cell::new(false),
            paid: Cell::new(0),
            price: Cell::new(0),
            kept: 0,
            alloc,
        }
    }

    /// Those of a left part.
    fn of(&self, selector: &Selector, place: usize) -> Option<&PartOutcomes>
        ensures of_part { IfSome result (λ outcomes. IsFor selector.now place outcomes.now.part) }
        ensures right { IfSome result (λ outcomes. (tree : Forest (Keyed Node)) → AreOutcomes tree self.now.parts.items → AreOfPart tree outcomes.now) }
    {
        let number = self.places.get(&fingerprint(selector, place))?;
        let part = self.parts.get(*number)?;
        if part.part.is(selector, place) {
            Some(part)
        } else {
            None
        }
    }

    /// What came of matching a left part before an element. One that is missing is noted, after so many nodes were passed by.
    pub(crate) fn get(
        &self,
        key: usize,
        selector: &Selector,
        place: usize,
        passed: usize,
    ) -> Option<Option<usize>>
        ensures { IfSome result (λ outcome. (tree : Forest (Keyed Node)) → AreOutcomes tree self.now.parts.items → IsOutcome selector.now place (standing_at tree key) outcome) }
    {
        if let Some(part) = self.of(selector, place) {
            if let Some(outcome) = part.by_key.get(&key) {
                return Some(*outcome);
            }
        }
        self.missed.set(true);
        if self.is_worth_keeping(passed) {
            self.note(selector, place);
        }
        None
    }

    /// Whether as many nodes were passed by, these among them, as it takes to keep outcomes for all that lie between: so an
    /// edit that touches few elements keeps nothing, and to keep outcomes never takes much longer than to do without.
    fn is_worth_keeping(&self, passed: usize) -> bool {
        self.paid.set(self.paid.get().saturating_add(passed));
        self.price
            .set(self.price.get().max(passed.saturating_mul(PRICE)));
        self.paid.get() >= self.price.get()
    }

    /// Notes a left part.
    fn note(&self, selector: &Selector, place: usize) {
        let mut wanted = self.wanted.replace(Vec::new(self.alloc));
        if wanted.len() < MANY && !contains(wanted.as_slice(), selector, place) {
            if let Ok(selector) = copy_of(self.alloc, selector) {
                let _refused = wanted.push(LeftPart { selector, place });
            }
        }
        self.wanted.set(wanted);
    }

    /// The left parts that were noted, where it is worth to keep outcomes of all of them now.
    pub(crate) fn take_wanted(&self) -> Vec<LeftPart> {
        let wanted = self.wanted.replace(Vec::new(self.alloc));
        if self.paid.get() >= self.price.get().saturating_mul(wanted.len()) {
            return wanted;
        }
        self.wanted.set(wanted);
        Vec::new(self.alloc)
    }

    /// Begins to count anew how many nodes are passed by.
    pub(crate) fn settle(&self) {
        self.paid.set(0);
        self.price.set(0);
    }

    /// Whether one was missing since this was asked.
    pub(crate) fn take_missed(&self) -> bool {
        self.missed.replace(false)
    }

    /// Where the outcomes of a left part are, or are to be put.
    pub(crate) fn place_of(&mut self, part: LeftPart) -> Result<usize, Memory>
        ensures right { (tree : Forest (Keyed Node)) → AreOutcomes tree self.old.parts.items → AreOutcomes tree self.new.parts.items }
    {
        let mark = fingerprint(&part.selector, part.place);
        if let Some(number) = self.places.get(&mark) {
            if let Some(held) = self.parts.get(*number) {
                if held.part.is(&part.selector, part.place) {
                    return Ok(*number);
                }
            }
        }
        let number = self.parts.len();
        self.parts.push(PartOutcomes {
            part,
            by_key: IndexMap::new(self.alloc),
        })?;
        self.places.insert(mark, number)?;
        Ok(number)
    }

    /// Whether so many are kept that they are to be let go.
    pub(crate) fn are_many(&self) -> bool {
        self.kept >= MOST
    }

    /// Lets all go. None is kept again before as many nodes are passed by as it took to keep these.
    pub(crate) fn let_go(&mut self)
        ensures empty { self.new.parts.items ≡ [] }
    {
        self.parts.clear();
        self.places.clear();
        self.paid.set(0);
        self.price.set(self.kept.saturating_mul(PRICE));
        self.kept = 0;
    }

    /// Whether an outcome is kept for an element.
    pub(crate) fn has(&self, number: usize, key: usize) -> bool {
        match self.parts.get(number) {
            Some(part) => part.by_key.contains_key(&key),
            None => false,
        }
    }

    /// Keeps an outcome for an element.
    #[tactic(auto, using(crate::proofs::OutcomeLaws::put_all))]
    pub(crate) fn put(
        &mut self,
        number: usize,
        key: usize,
        outcome: Option<usize>,
    ) -> Result<(), Memory>
        ensures right { (tree : Forest (Keyed Node)) → AreOutcomes tree self.old.parts.items → IfSome (slice_get self.old.parts.items number) (λ outcomes. IsOutcome outcomes.part.selector outcomes.part.place (standing_at tree key) outcome) → AreOutcomes tree self.new.parts.items }
    {
        if number >= self.parts.len() {
            return Ok(());
        }
        self.parts[number].keep(key, outcome)?;
        self.kept = self.kept.saturating_add(1);
        Ok(())
    }
}
