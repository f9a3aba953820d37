//! A document with its generated texts.

ghost use Rattle.std.specs.Prelude.{◌≡◌, ◌≤◌, ◌+◌, ℕ, List, IfOk, OnOk, OnErr, encode_utf8_all, length};
ghost use Rattle.std.specs.Str.{chars};
ghost use Rattle.bake_definitions.specs.Baked.{without_insertions};
ghost use Rattle.bake_definitions.specs.Places.{left_out, placed};
ghost use Rattle.bake_definitions.specs.Tags.{tags_of};
ghost use Rattle.bake_definitions.specs.Woven.{IsBaked};
ghost use Rattle.baked_text.specs.Walks.{saturated};
ghost use Rattle.ports.specs.Grown.{grown, GrowsByFront};
ghost use Rattle.ports.specs.Puts.{HasPutCause};
ghost use Rattle.xml_definitions.specs.Texts.{IsDocumentText};

use crate::put_items::put_items;
use crate::splitting::front_before;
use crate::tag_insertions::TagInsertions;
use ports::put_fault::PutFault;
use ports::sink::{Sink, put_all};
use std::alloc::Global;
use std::sync::ledger::Ledger;
use steps::Steps;
use xhtml_reader::{has_line_feeds_alone, with_line_feeds, without_mark};

/// Puts the text of a document with what is put in at its tags, and answers how many texts found no place, because their
/// element takes no `span`. That count stays at its greatest value.
///
/// After a fault a front of the bytes went out. The text is read once, item by item. Beside what the walk over the tags
/// takes, it takes memory for the attributes of one tag and, where the text has a carriage return, for a copy of it; and
/// time linear in the text and in what is put in, but for the attributes of a tag: n of them take n log n. It takes a step a
/// tag at most, those of the walk.
pub fn put_baked<T: TagInsertions, O: Sink, L: Ledger>(
    alloc: Global,
    text: &str,
    tags: &mut T,
    out: &mut O,
    steps: &mut Steps<L>,
) -> Result<usize, PutFault>
    requires document { IsDocumentText (chars text.now) (without_insertions (T.document tags.old)) }
    requires begun { T.left tags.old ≡ tags_of (T.document tags.old) }
    ensures ok { OnOk result ((output : List ℕ) → IsBaked (chars text.now) (placed (T.document tags.old)) output
        → O.out out.new ≡ grown (O.out out.old) (encode_utf8_all output)) }
    ensures left_out { IfOk result (λ count. count ≡ saturated (left_out (T.document tags.old))) }
    ensures failed { OnErr result ((output : List ℕ) → IsBaked (chars text.now) (placed (T.document tags.old)) output
        → GrowsByFront (O.out out.old) (O.out out.new) (encode_utf8_all output)) }
    ensures cause { HasPutCause (O.faults out.old) (O.faults out.new) result }
    ensures steps { steps.new + length (T.left tags.new) ≤ steps.old + length (T.left tags.old) }
{
    let kept = without_mark(text);
    put_all(out, front_before(text, kept).as_bytes())?;
    if has_line_feeds_alone(kept) {
        return put_items(alloc, kept, kept, tags, out, steps);
    }
    let read = with_line_feeds(alloc, kept)?;
    put_items(alloc, kept, read.as_str(), tags, out, steps)
}
