//! Rules, filed by their selectors.

ghost use Rattle.std.specs.Prelude.{◌≡◌, ◌&&◌, ◌||◌, ℕ, nat_eq, List, false, IfOk, OnOk, option_copied};
ghost use Rattle.std.specs.Borrow.{Bor};
ghost use Rattle.std.specs.List.{list_any};
ghost use Rattle.std.specs.List.Sorted.{IsStrictlyIncreasing};
ghost use Rattle.std.specs.Option.{option_map_or};
ghost use Rattle.forest.specs.Spots.{IsLive};
ghost use Rattle.selector_match.specs.Attributes.{parts};
ghost use Rattle.mini_cascade.specs.Machinery.Shelves.{AreFiled, HaveSameMembers, has_slot, is_filed, is_in_slot};
ghost use Rattle.mini_cascade.specs.RuleTables.{Slot, Other, is_same_slot, slot_of, slots_of};

use crate::shelf::Shelf;
use crate::slot::filed_under;
use crate::words::words;
use node_arena::arena::Arena;
use plain_types::list::List;
use plain_types::memory::Memory;
use plain_types::selector::Simple;
use plain_types::sheet::StyleRule;
use std::alloc::Global;

/// The places of the rules of a sheet, each filed in the slots of its selectors.
#[derive(Drop)]
pub(crate) struct Shelves {
    ids: Shelf,
    classes: Shelf,
    names: Shelf,
    others: List<usize>,
}

/// Puts places in order, each once.
fn put_in_order(places: &mut Vec<usize>)
    ensures ascending { IsStrictlyIncreasing places.new.items }
    ensures members { HaveSameMembers places.new.items places.old.items }
{
    places.sort_unstable();
    places.dedup();
}

/// Appends what is filed under a name, if there is one.
fn add_named(places: &mut Vec<usize>, shelf: &Shelf, name: Option<&str>) -> Result<(), Memory>
    ensures ok { OnOk result ((place : ℕ) → list_any (nat_eq place) places.new.items ≡ (list_any (nat_eq place) places.old.items || option_map_or (λ (bytes : List ℕ). is_filed shelf.now bytes place) (option_copied name.entry) false)) }
{
    if let Some(name) = name {
        places.extend_from_slice(shelf.places(name.as_bytes()))?;
    }
    Ok(())
}

/// Appends what is filed under these names.
fn add_all(places: &mut Vec<usize>, shelf: &Shelf, names: &[&[u8]]) -> Result<(), Memory>
    ensures ok { OnOk result ((place : ℕ) → list_any (nat_eq place) places.new.items ≡ (list_any (nat_eq place) places.old.items || list_any (λ (name : Bor (List ℕ)). is_filed shelf.now name.now place) names.now)) }
{
    for name in names {
        places.extend_from_slice(shelf.places(name))?;
    }
    Ok(())
}

/// Appends what is filed under the words of a text, if there is one. No word counts twice.
fn add_words(
    alloc: Global,
    places: &mut Vec<usize>,
    shelf: &Shelf,
    text: Option<&str>,
) -> Result<(), Memory>
    ensures ok { OnOk result ((place : ℕ) → list_any (nat_eq place) places.new.items ≡ (list_any (nat_eq place) places.old.items || option_map_or (λ (bytes : List ℕ). list_any (λ word. is_filed shelf.now word place) (parts bytes)) (option_copied text.entry) false)) }
{
    match text {
        Some(text) => add_all(places, shelf, words(alloc, text.as_bytes())?.as_slice()),
        None => Ok(()),
    }
}

impl Shelves {
    fn new(alloc: Global) -> Shelves
        ensures empty { (slot : Slot) (place : ℕ) → is_in_slot result slot place ≡ false }
    {
        Shelves {
            ids: Shelf::new(alloc),
            classes: Shelf::new(alloc),
            names: Shelf::new(alloc),
            others: List::new(alloc),
        }
    }

    /// Files a place in the slot of a simple selector.
    fn file_under(&mut self, alloc: Global, under: &Simple, place: usize) -> Result<(), Memory>
        ensures ok { OnOk result ((slot : Slot) (one : ℕ) → is_in_slot self.new slot one ≡ (is_in_slot self.old slot one || (is_same_slot (slot_of under.now) slot && nat_eq one place))) }
    {
        match under {
            Simple::Id(name) => self.ids.file(alloc, name.as_str().as_bytes(), place),
            Simple::Class(name) => self.classes.file(alloc, name.as_str().as_bytes(), place),
            Simple::Element(name) => self.names.file(alloc, name.as_str().as_bytes(), place),
            _ => self.others.push(place),
        }
    }

    /// Files a place in the slot of a simple selector, or with the others.
    fn file(&mut self, alloc: Global, under: Option<&Simple>, place: usize) -> Result<(), Memory>
        ensures ok { OnOk result ((slot : Slot) (one : ℕ) → is_in_slot self.new slot one ≡ (is_in_slot self.old slot one || (is_same_slot (option_map_or slot_of (option_copied under.entry) Other) slot && nat_eq one place))) }
    {
        match under {
            Some(under) => self.file_under(alloc, under, place),
            None => self.others.push(place),
        }
    }

    /// Files the place of a rule in the slots of its selectors.
    fn file_rule(&mut self, alloc: Global, rule: &StyleRule, place: usize) -> Result<(), Memory>
        ensures ok { OnOk result ((slot : Slot) (one : ℕ) → is_in_slot self.new slot one ≡ (is_in_slot self.old slot one || (has_slot slot rule.now && nat_eq one place))) }
    {
        for selector in rule.selectors.as_slice() {
            self.file(alloc, filed_under(selector), place)?;
        }
        Ok(())
    }

    /// The rules of a sheet, filed. Time and memory are linear in their selectors and in the names in these.
    pub(crate) fn of(alloc: Global, rules: &[StyleRule]) -> Result<Shelves, Memory>
        ensures filed { IfOk result (AreFiled rules.now) }
    {
        let mut shelves = Shelves::new(alloc);
        for (place, rule) in rules.iter().enumerate() {
            shelves.file_rule(alloc, rule, place)?;
        }
        Ok(shelves)
    }

    /// The places of the rules that are filed where an element is looked up, each once, in their order. Time and memory
    /// are linear in these and in the element's name, id and class, beside what it takes to sort them.
    pub(crate) fn places(
        &self,
        alloc: Global,
        arena: &Arena,
        key: usize,
    ) -> Result<Vec<usize>, Memory>
        requires live { IsLive arena.now.tree key }
        ensures ascending { IfOk result (λ places. IsStrictlyIncreasing places.items) }
        ensures filed { IfOk result (λ places. (place : ℕ) → list_any (nat_eq place) places.items ≡ list_any (λ slot. is_in_slot self.now slot place) (slots_of arena.now.tree key)) }
    {
        let mut places = Vec::from_slice(alloc, self.others.as_slice())?;
        add_named(&mut places, &self.names, arena.name(key))?;
        add_named(&mut places, &self.ids, arena.attr(key, "id"))?;
        add_words(alloc, &mut places, &self.classes, arena.attr(key, "class"))?;
        put_in_order(&mut places);
        Ok(places)
    }
}
