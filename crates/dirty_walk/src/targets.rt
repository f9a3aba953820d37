//! What a document's evaluation knows of the elements that ids name.

ghost use Rattle.std.specs.Prelude.{◌≡◌, ◌≢◌, ℕ, nat_eq, Some, None, IfOk, IfSome, option_copied};
ghost use Rattle.std.specs.HashMap.{get};
ghost use Rattle.std.specs.Option.{option_and_then, option_map_or};
ghost use Rattle.std.specs.Str.{chars};
ghost use Rattle.forest.specs.Spots.{IsLink};
ghost use Rattle.content_eval.specs.Targets.{target_id};
ghost use Rattle.generated_texts.specs.References.{first_holder, kept_at};
ghost use Rattle.kept_elements.specs.Known.{IsKeptIn, flat_in};

use crate::named_elements::NamedElements;
use content_eval::targets::{Targets, target_id};
use counter_sets::counter_set::CounterSet;
use kept_elements::characters::characters_under;
use kept_elements::flat_texts::FlatTexts;
use plain_types::content::Part;
use plain_types::memory::Memory;
use plain_types::text::Text;
use referring_elements::holders::first_holder;
use std::alloc::Global;
use std::collections::HashMap;
use surroundings::told::Told;

/// The elements of a document as target functions see them.
#[derive(Drop)]
pub(crate) struct DocumentTargets<'a> {
    pub(crate) named: &'a NamedElements<'a>,
    /// What the evaluation tells of the elements, and the same by key.
    pub(crate) listed: &'a [(usize, Told)],
    pub(crate) records: &'a HashMap<usize, &'a Told>,
    /// The flat texts of the elements, as far as they are known, and the same by key.
    pub(crate) listed_flats: &'a [(usize, FlatTexts)],
    pub(crate) flats: &'a HashMap<usize, &'a FlatTexts>,
    ghost kept: { IsKeptIn records.now listed.now },
    ghost kept_flats: { IsKeptIn flats.now listed_flats.now },
}

impl<'a> DocumentTargets<'a> {
    /// The element that a url names.
    fn target(&self, url: &str) -> Option<usize>
        ensures target { result ≡ option_and_then (first_holder self.now.named.now.arena.now.tree) (target_id (chars url.now)) }
        ensures live { IsLink self.now.named.now.arena.now.tree result }
    {
        self.named.of(target_id(url)?)
    }
}

impl<'a> Targets for DocumentTargets<'a> {
    ghost use Rattle.kept_elements.specs.Known.{known_by};

    ghost known = { λ targets. known_by targets.named.now.arena.now.tree targets.listed.now targets.listed_flats.now };

    fn counters(&self, url: &str) -> Option<&CounterSet> {
        let told: &Told = self.records.get(&self.target(url)?)?;
        if told.said.has_box {
            Some(&told.said.own)
        } else {
            None
        }
    }

    fn characters(&self, alloc: Global, url: &str) -> Result<Text, Memory> {
        match self.target(url) {
            Some(key) => characters_under(alloc, self.named.arena, key),
            None => Ok(Text::new(alloc)),
        }
    }

    fn flat(&self, url: &str, part: Part) -> Option<&Text> {
        let texts: &FlatTexts = self.flats.get(&self.target(url)?)?;
        match part {
            Part::Content => None,
            Part::Before => texts.before.as_ref(),
            Part::After => texts.after.as_ref(),
        }
    }
}
