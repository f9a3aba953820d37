//! What ids named before an edit.

ghost use Rattle.std.specs.Prelude.{◌≡◌, IfOk};
ghost use Rattle.generated_texts.specs.References.{first_holder};

use crate::holder_lookup::HolderLookup;
use plain_types::memory::Memory;
use plain_types::text::Text;
use std::alloc::Global;

/// An id, and the element that it named before an edit: the first in tree order that held it.
#[derive(Drop)]
pub struct FormerTarget {
    pub id: Text,
    pub element: Option<usize>,
}

impl FormerTarget {
    /// What an id names in a document, which is not edited yet. It costs what `find` of the lookup costs.
    pub fn of(
        alloc: Global,
        lookup: &mut HolderLookup<'_>,
        id: Text,
    ) -> Result<FormerTarget, Memory>
        ensures id { IfOk result (λ target. target.id ≡ id) }
        ensures element { IfOk result (λ target. target.element ≡ first_holder lookup.old.arena.now.tree id) }
        ensures tree { lookup.new.arena.now.tree ≡ lookup.old.arena.now.tree }
    {
        let element = lookup.find(alloc, id.as_str())?;
        Ok(FormerTarget { id, element })
    }
}
