//! Sheets whose rules are found by what their selectors ask for.

ghost use Rattle.std.specs.Prelude.{◌≡◌, ◌++◌, IfOk, OnOk, map, slice_get};
ghost use Rattle.std.specs.List.{filter_map};
ghost use Rattle.std.specs.Map.Iter.{deref};
ghost use Rattle.std.specs.Option.{option_to_list};
ghost use Rattle.forest.specs.Spots.{IsLive};
ghost use Rattle.mini_cascade.specs.RuleTables.{CandidatesDeclareAll, MatchingAreLookedAt, candidates};

use crate::shelves::Shelves;
use node_arena::arena::Arena;
use plain_types::memory::Memory;
use plain_types::sheet::{Sheet, StyleRule};
use std::alloc::Global;
use std::marker::Model;

/// A sheet, whose rules are filed by the ids, classes and names that the last compounds of their selectors ask for. A
/// clause sees the sheet.
pub struct RuleTable {
    sheet: Sheet,
    shelves: Shelves,
}

impl Drop for RuleTable {
    fn drop(self) {
        let RuleTable {
            sheet: _,
            shelves: _,
        } = self;
    }
}

impl Model for RuleTable {
    ghost use Rattle.plain_types.specs.declared.sheet.Sheet.{Sheet};
    ghost use Rattle.plain_types.specs.contracts.sheet.Sheet as rules_of;
    ghost use Rattle.mini_cascade.specs.Machinery.Shelves.{AreFiled};

    ghost Value = { Sheet };

    ghost coded = { rules_of.the_row.coded };

    ghost view = { λ table. table.sheet };

    ghost invariant = { λ table. AreFiled table.sheet.rules table.shelves };
}

/// Appends the rule at this place, if there is one.
fn add_rule_at<'a>(
    found: &mut Vec<&'a StyleRule>,
    rules: &'a [StyleRule],
    place: usize,
) -> Result<(), Memory>
    ensures ok { OnOk result (map deref found.new.items ≡ map deref found.old.items ++ option_to_list (slice_get rules.now place)) }
{
    if let Some(rule) = rules.get(place) {
        found.push(rule)?;
    }
    Ok(())
}

/// The rules at these places.
fn rules_at<'a>(
    alloc: Global,
    rules: &'a [StyleRule],
    places: &[usize],
) -> Result<Vec<&'a StyleRule>, Memory>
    ensures rules { IfOk result (λ found. map deref found.items ≡ filter_map (slice_get rules.now) places.now) }
{
    let mut found = Vec::with_capacity(alloc, places.len())?;
    for place in places {
        add_rule_at(&mut found, rules, *place)?;
    }
    Ok(found)
}

impl RuleTable {
    /// The sheet, with its rules filed. Time and memory are linear in their selectors and in the names in these.
    pub fn new(alloc: Global, sheet: Sheet) -> Result<RuleTable, Memory>
        ensures sheet { IfOk result (λ table. table ≡ sheet) }
    {
        let shelves = Shelves::of(alloc, sheet.rules.as_slice())?;
        Ok(RuleTable { sheet, shelves })
    }

    /// The sheet.
    pub fn sheet(&self) -> &Sheet
        ensures sheet { result.now ≡ self.now }
    {
        &self.sheet
    }

    /// The rules that are looked at for an element, in the order of the sheet. Time and memory are linear in these and in
    /// the element's name, id and class, beside what it takes to sort them.
    pub(crate) fn candidates<'a>(
        &'a self,
        alloc: Global,
        arena: &Arena,
        key: usize,
    ) -> Result<Vec<&'a StyleRule>, Memory>
        requires live { IsLive arena.now.tree key }
        ensures candidates { IfOk result (λ found. map deref found.items ≡ candidates arena.now.tree key self.now.rules) }
    {
        let places = self.shelves.places(alloc, arena, key)?;
        rules_at(alloc, self.sheet.rules.as_slice(), places.as_slice())
    }
}

/// A selector that matches an element is looked at for it, and so the candidates declare what all rules do. The function
/// here has nothing to do: its contract is the law.
pub fn table_misses_no_rule()
    ensures selectors { MatchingAreLookedAt }
    ensures declarations { CandidatesDeclareAll }
{}
