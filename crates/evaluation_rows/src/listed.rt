//! Elements that urls name, as a list: what the rows on references ask.

ghost use Rattle.std.specs.Prelude.{◌≡◌, option_copied};
ghost use Rattle.std.specs.Option.{option_and_then};
ghost use Rattle.std.specs.Str.{chars};
ghost use Rattle.content_eval.specs.Targets.{target_id};
ghost use Rattle.evaluation_rows.specs.Listed.{has_id, target_of};

use content_eval::targets::{Targets, target_id};
use counter_sets::counter_set::CounterSet;
use plain_types::content::Part;
use plain_types::duplicate::Duplicate;
use plain_types::list::List;
use plain_types::memory::Memory;
use plain_types::text::Text;
use std::alloc::Global;

/// An element that urls can name: its counters where it has a box, its characters, and the flat texts of its
/// before and after boxes.
#[derive(Drop)]
pub struct Target {
    pub id: Text,
    pub set: Option<CounterSet>,
    pub characters: Text,
    pub before: Option<Text>,
    pub after: Option<Text>,
}

/// Elements in tree order.
#[derive(Drop)]
pub struct Listed {
    pub targets: List<Target>,
}

/// Whether the element has this id, compared as written.
fn has_id(id: &str, target: &Target) -> bool
    ensures test { result ≡ has_id (chars id.now) target.now }
{
    id == target.id.as_str()
}

/// The first element of this id.
fn find_target<'a>(targets: &'a [Target], id: &str) -> Option<&'a Target>
    ensures target { option_copied result ≡ target_of targets.now (chars id.now) }
{
    targets.iter().find(|target| has_id(id, target))
}

impl Listed {
    /// The element that a url names.
    fn target(&self, url: &str) -> Option<&Target>
        ensures target { option_copied result ≡ option_and_then (target_of self.now.targets) (target_id (chars url.now)) }
    {
        match target_id(url) {
            Some(id) => find_target(self.targets.as_slice(), id),
            None => None,
        }
    }
}

impl Targets for Listed {
    ghost use Rattle.evaluation_rows.specs.Listed.{known_of};

    ghost known = { λ listed. known_of listed.targets };

    fn counters(&self, url: &str) -> Option<&CounterSet> {
        self.target(url)?.set.as_ref()
    }

    fn characters(&self, alloc: Global, url: &str) -> Result<Text, Memory> {
        match self.target(url) {
            Some(target) => target.characters.duplicate(alloc),
            None => Ok(Text::new(alloc)),
        }
    }

    fn flat(&self, url: &str, part: Part) -> Option<&Text> {
        let target = self.target(url)?;
        match part {
            Part::Content => None,
            Part::Before => target.before.as_ref(),
            Part::After => target.after.as_ref(),
        }
    }
}
