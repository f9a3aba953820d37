//! The one element at which a piece aims, as target functions see it.

ghost use Rattle.forest.specs.Spots.{IsLive};

use content_eval::targets::{Targets, target_id};
use counter_sets::counter_set::CounterSet;
use kept_elements::characters::characters_under;
use node_arena::arena::Arena;
use plain_types::content::Part;
use plain_types::memory::Memory;
use plain_types::text::Text;
use std::alloc::Global;

/// An element that each url names which begins with `#`, whatever its id. No box of it has a text: flat texts do not ask
/// for any.
#[derive(Drop)]
pub(crate) struct OneTarget<'a> {
    pub(crate) arena: &'a Arena,
    pub(crate) key: usize,
    /// The counters of its own box, where it has one.
    pub(crate) counters: Option<&'a CounterSet>,
    ghost live: { IsLive arena.now.tree key },
}

impl<'a> Targets for OneTarget<'a> {
    ghost use Rattle.std.specs.Prelude.{option_copied};
    ghost use Rattle.book_refs.specs.Machinery.TargetElements.{known_alone};

    ghost known = { λ target. known_alone (option_copied target.counters) target.arena.now.tree target.key };

    fn counters(&self, url: &str) -> Option<&CounterSet> {
        let _id = target_id(url)?;
        self.counters
    }

    fn characters(&self, alloc: Global, url: &str) -> Result<Text, Memory> {
        match target_id(url) {
            Some(_id) => characters_under(alloc, self.arena, self.key),
            None => Ok(Text::new(alloc)),
        }
    }

    fn flat(&self, _url: &str, _part: Part) -> Option<&Text> {
        None
    }
}
