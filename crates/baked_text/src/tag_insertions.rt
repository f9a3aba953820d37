//! What is put in at the tags of a document.

ghost use Rattle.std.specs.Prelude.{◌≡◌, ◌<◌, ◌≤◌, ◌+◌, List, OnOk, drop, get_or, length};
ghost use Rattle.std.specs.Str.{chars, IsUtf8};
ghost use Rattle.bake_definitions.specs.Baked.{Annotated};
ghost use Rattle.bake_definitions.specs.Tags.{Tag, next_tag};
ghost use Rattle.baked_text.specs.Walks.{insertion_view};
ghost use Rattle.forest.specs.Forest.{Forest};

use plain_types::box_kind::BoxKind;
use plain_types::memory::Memory;
use std::sync::ledger::Ledger;
use steps::Steps;

/// A walk over the tags of a document, in the order of its text: an element begins, its content, it ends. At the first
/// tag of an element the texts before its content are put in, at the second those behind it.
pub trait TagInsertions {
    /// The document, with what is to be put into it.
    ghost document: { Self → Forest Annotated };

    /// The tags that are left.
    ghost left: { Self → List Tag };

    /// The name of the next tag's element; behind the last tag it is empty.
    fn name(&self) -> &str
        ensures name { chars result.now ≡ (next_tag (left self.now)).name }
        ensures text { IsUtf8 result.now };

    /// How many texts are to be put in at the next tag; behind the last tag none.
    fn count(&self) -> usize
        ensures { result ≡ length (next_tag (left self.now)).insertions };

    /// One of these texts, and the kind of its box.
    fn insertion(&self, index: usize) -> (BoxKind, &str)
        requires { index < length (next_tag (left self.now)).insertions }
        ensures insertion { insertion_view result ≡ get_or (next_tag (left self.now)).insertions index (insertion_view result) }
        ensures text { IsUtf8 result.1.now };

    /// Goes past the next tag. It takes a step at most, and none where no tag is left.
    fn pass<L: Ledger>(&mut self, steps: &mut Steps<L>) -> Result<(), Memory>
        ensures left { OnOk result (left self.new ≡ drop 1 (left self.old)) }
        ensures steps { steps.new + length (left self.new) ≤ steps.old + length (left self.old) };
}
