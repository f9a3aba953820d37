//! Changes of an index.

ghost use Rattle.std.specs.Prelude.{◌≡◌, option_copied};
ghost use Rattle.std.specs.Option.{option_map};
ghost use Rattle.std.specs.Str.{chars};
ghost use Rattle.target_index.specs.Changes.{added_id};

use plain_types::text::Text;

/// A change of the pairs of an index. One that adds a pair which is there, or takes away one which is not,
/// changes nothing.
#[derive(Drop)]
pub enum IndexChange {
    /// The element holds the id.
    Hold { id: Text, key: usize },
    /// The element does not hold the id.
    Unhold { id: Text, key: usize },
    /// The element refers to the id.
    Refer { id: Text, key: usize },
    /// The element does not refer to the id.
    Unrefer { id: Text, key: usize },
}

/// The two relations between elements and ids.
#[derive(Clone, Copy, Debug, PartialEq, Eq)]
pub(crate) enum Relation {
    Holder,
    Reference,
}

impl IndexChange {
    /// The id to which the change adds a pair of this relation.
    pub(crate) fn added_id(&self, relation: Relation) -> Option<&str>
        ensures id { option_map chars (option_copied result) ≡ added_id relation self.now }
    {
        match (self, relation) {
            (IndexChange::Hold { id, .. }, Relation::Holder)
            | (IndexChange::Refer { id, .. }, Relation::Reference) => Some(id.as_str()),
            _ => None,
        }
    }
}
