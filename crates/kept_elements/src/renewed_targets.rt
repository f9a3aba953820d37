//! What is known of the elements that ids name, where texts are made again.

ghost use Rattle.std.specs.Prelude.{◌≡◌, ◌||◌, false, ℕ, IfOk, OnOk, option_copied, option_map};
ghost use Rattle.std.specs.List.{filter_map, list_any};
ghost use Rattle.std.specs.Option.{option_and_then, option_map_or};
ghost use Rattle.std.specs.Str.{chars};
ghost use Rattle.forest.specs.Spots.{IsLink};
ghost use Rattle.content_eval.specs.Targets.{reference, target_id};
ghost use Rattle.edit_work.specs.KeyedSources.{is_among, references_in, references_of};
ghost use Rattle.generated_texts.specs.References.{first_holder, kept_at};
ghost use Rattle.referring_elements.specs.Found.{is_named};
ghost use Rattle.kept_elements.specs.Known.{IsKeptIn, flat_in};
ghost use Rattle.kept_elements.specs.Machinery.Renewals.{its_counters, its_flat, kept_flat, some_names};

use crate::characters::characters_under;
use crate::flat_texts::FlatTexts;
use crate::kept::Kept;
use box_eval::element_record::ElementRecord;
use box_eval::made::Made;
use content_eval::generated::Piece;
use content_eval::targets::{Targets, reference, target_id};
use counter_sets::counter_set::CounterSet;
use generated_texts::entry::{BoxText, NodeEntry};
use indexmap::IndexSet;
use plain_types::content::Part;
use plain_types::memory::Memory;
use plain_types::text::Text;
use referring_elements::holder_lookup::HolderLookup;
use std::alloc::Global;
use std::collections::HashMap;
use surroundings::told::Told;

/// The counters of an element's own box, as it is told of, or else by what is held of it.
fn its_counters<'a>(told: Option<&'a Told>, kept: Option<&'a Kept>) -> Option<&'a CounterSet>
    ensures counters { option_copied result ≡ its_counters (option_copied told.entry) (option_copied kept.entry) }
{
    match (told, kept) {
        (Some(told), _) => {
            if told.said.has_box {
                Some(&told.said.own)
            } else {
                None
            }
        }
        (None, Some(kept)) => {
            if kept.entry.has_box {
                Some(&kept.entry.own)
            } else {
                None
            }
        }
        (None, None) => None,
    }
}

/// The flat text of a box.
fn flat_of(text: &Option<BoxText>) -> Option<&Text>
    ensures flat { option_copied result ≡ option_map (λ (text : BoxText). text.flat) text.now }
{
    match text {
        Some(text) => Some(&text.flat),
        None => None,
    }
}

/// The flat text of a box in what is kept of an element; its own content is no box.
fn kept_flat(entry: &NodeEntry, part: Part) -> Option<&Text>
    ensures flat { option_copied result ≡ kept_flat entry.now part }
{
    match part {
        Part::Content => None,
        Part::Before => flat_of(&entry.before),
        Part::After => flat_of(&entry.after),
    }
}

/// The flat text of a box that is made again.
fn made_flat(texts: &FlatTexts, part: Part) -> Option<&Text>
    ensures flat { option_copied result ≡ flat_in texts.now part }
{
    match part {
        Part::Content => None,
        Part::Before => texts.before.as_ref(),
        Part::After => texts.after.as_ref(),
    }
}

/// The flat text of a box of an element, as it is made again, or else as it is held.
fn its_flat<'a>(
    texts: Option<&'a FlatTexts>,
    kept: Option<&'a Kept>,
    part: Part,
) -> Option<&'a Text>
    ensures flat { option_copied result ≡ its_flat (option_copied texts.entry) (option_copied kept.entry) part }
{
    match (texts, kept) {
        (Some(texts), _) => made_flat(texts, part),
        (None, Some(kept)) => kept_flat(&kept.entry, part),
        (None, None) => None,
    }
}

/// The elements of a document as target functions of those see them whose texts are made again.
#[derive(Drop)]
pub struct RenewedTargets<'a> {
    pub lookup: &'a HolderLookup<'a>,
    /// What is told of those elements, and the same by key.
    pub listed: &'a [(usize, Told)],
    pub records: &'a HashMap<usize, &'a Told>,
    /// Their flat texts, as far as they are made again, and the same by key.
    pub listed_flats: &'a [(usize, FlatTexts)],
    pub flats: &'a HashMap<usize, &'a FlatTexts>,
    /// What is held of elements, by key.
    pub held: &'a HashMap<usize, &'a Kept>,
    ghost kept: { IsKeptIn records.now listed.now },
    ghost kept_flats: { IsKeptIn flats.now listed_flats.now },
}

impl<'a> RenewedTargets<'a> {
    /// The element that a url names.
    fn target(&self, url: &str) -> Option<usize>
        ensures target { result ≡ option_and_then (first_holder self.now.lookup.now.arena.now.tree) (target_id (chars url.now)) }
        ensures live { IsLink self.now.lookup.now.arena.now.tree result }
    {
        self.lookup.of(target_id(url)?)
    }
}

impl<'a> Targets for RenewedTargets<'a> {
    ghost use Rattle.generated_texts.specs.References.{kept_at};
    ghost use Rattle.kept_elements.specs.Machinery.Renewals.{read_in, renewed_known};

    ghost known = { λ targets. renewed_known targets.lookup.now.arena.now.tree (kept_at targets.listed.now) (kept_at targets.listed_flats.now) (read_in targets.held.now) };

    fn counters(&self, url: &str) -> Option<&CounterSet> {
        let key = self.target(url)?;
        its_counters(
            self.records.get(&key).copied(),
            self.held.get(&key).copied(),
        )
    }

    fn characters(&self, alloc: Global, url: &str) -> Result<Text, Memory> {
        match self.target(url) {
            Some(key) => characters_under(alloc, self.lookup.arena, key),
            None => Ok(Text::new(alloc)),
        }
    }

    fn flat(&self, url: &str, part: Part) -> Option<&Text> {
        let key = self.target(url)?;
        its_flat(
            self.flats.get(&key).copied(),
            self.held.get(&key).copied(),
            part,
        )
    }
}

/// Adds the element that an id names, where there is one.
fn add_target(
    alloc: Global,
    lookup: &mut HolderLookup<'_>,
    id: Option<&str>,
    keys: &mut IndexSet<usize>,
) -> Result<(), Memory>
    ensures ok { OnOk result ((other : ℕ) → is_among keys.new.keys other ≡ (is_among keys.old.keys other || option_map_or (is_named lookup.old.arena.now.tree other) (option_map chars (option_copied id.entry)) false)) }
    ensures tree { lookup.new.arena.now.tree ≡ lookup.old.arena.now.tree }
{
    let Some(id) = id else {
        return Ok(());
    };
    if let Some(key) = lookup.find(alloc, id)? {
        keys.insert(key)?;
    }
    Ok(())
}

/// Adds the elements to which pieces refer.
fn add_pieces(
    alloc: Global,
    lookup: &mut HolderLookup<'_>,
    pieces: &[Piece],
    keys: &mut IndexSet<usize>,
) -> Result<(), Memory>
    ensures ok { OnOk result ((other : ℕ) → is_among keys.new.keys other ≡ (is_among keys.old.keys other || list_any (is_named lookup.old.arena.now.tree other) (filter_map reference pieces.now))) }
    ensures tree { lookup.new.arena.now.tree ≡ lookup.old.arena.now.tree }
{
    for piece in pieces {
        add_target(alloc, lookup, reference(piece), keys)?;
    }
    Ok(())
}

/// Adds the elements to which a box refers.
fn add_box(
    alloc: Global,
    lookup: &mut HolderLookup<'_>,
    made: &Option<Made>,
    keys: &mut IndexSet<usize>,
) -> Result<(), Memory>
    ensures ok { OnOk result ((other : ℕ) → is_among keys.new.keys other ≡ (is_among keys.old.keys other || list_any (is_named lookup.old.arena.now.tree other) (references_in made.now))) }
    ensures tree { lookup.new.arena.now.tree ≡ lookup.old.arena.now.tree }
{
    match made {
        Some(made) => add_pieces(alloc, lookup, made.pieces.as_slice(), keys),
        None => Ok(()),
    }
}

/// Adds the elements to which an element refers.
fn add_element(
    alloc: Global,
    lookup: &mut HolderLookup<'_>,
    said: &ElementRecord,
    keys: &mut IndexSet<usize>,
) -> Result<(), Memory>
    ensures ok { OnOk result ((other : ℕ) → is_among keys.new.keys other ≡ (is_among keys.old.keys other || list_any (is_named lookup.old.arena.now.tree other) (references_of said.now))) }
    ensures tree { lookup.new.arena.now.tree ≡ lookup.old.arena.now.tree }
{
    add_box(alloc, lookup, &said.marker, keys)?;
    add_box(alloc, lookup, &said.before, keys)?;
    add_box(alloc, lookup, &said.after, keys)
}

/// The elements to which those refer of which this is told, each once.
pub fn target_keys(
    alloc: Global,
    lookup: &mut HolderLookup<'_>,
    records: &[(usize, Told)],
) -> Result<IndexSet<usize>, Memory>
    ensures keys { IfOk result (λ keys. (key : ℕ) → is_among keys.keys key ≡ some_names lookup.old.arena.now.tree records.now key) }
    ensures tree { lookup.new.arena.now.tree ≡ lookup.old.arena.now.tree }
{
    let mut keys = IndexSet::new(alloc);
    for (_key, told) in records {
        add_element(alloc, lookup, &told.said, &mut keys)?;
    }
    Ok(keys)
}
