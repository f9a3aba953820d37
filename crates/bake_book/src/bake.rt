//! The text of a document, with its generated texts put in.

ghost use Rattle.std.specs.Prelude.{◌≡◌, ◌≤◌, ◌+◌, ◌*◌, ℕ, List, IfOk, OnOk, OnErr, encode_utf8_all};
ghost use Rattle.std.specs.Str.{chars};
ghost use Rattle.bake_book.specs.Dressing.{dressed_document};
ghost use Rattle.bake_definitions.specs.Places.{left_out, placed};
ghost use Rattle.bake_definitions.specs.Woven.{IsBaked};
ghost use Rattle.baked_text.specs.Walks.{saturated};
ghost use Rattle.document_walk.specs.Elements.{element_count};
ghost use Rattle.marker_engine.specs.Engines.{source_of};
ghost use Rattle.ports.specs.Grown.{grown, GrowsByFront};
ghost use Rattle.ports.specs.Puts.{HasPutCause};
ghost use Rattle.xml_definitions.specs.Texts.{IsDocumentText};

use crate::book_tags::BookTags;
use crate::laws::documents_stay;
use baked_text::put_baked::put_baked;
use marker_engine::engine::Engine;
use ports::put_fault::PutFault;
use ports::sink::Sink;
use std::alloc::Global;
use std::sync::ledger::Ledger;
use steps::Steps;

/// Puts the text of an engine's document to `out`, with what its sheet puts into it, and answers how many texts found no
/// place, because their element takes no `span`. That count stays at its greatest value.
///
/// After a fault a front of the bytes went out. It takes time linear in the text and in what is put in, but for the
/// attributes of a tag: n of them take n log n. It takes memory for the elements that a tag is in, for the attributes of one
/// tag and, where the text has a carriage return, for a copy of it. The generated texts are there already: what is kept of an
/// element is looked up at each of its two tags, a step each.
pub fn bake<O: Sink, L: Ledger>(
    alloc: Global,
    engine: &Engine,
    text: &str,
    out: &mut O,
    steps: &mut Steps<L>,
) -> Result<usize, PutFault>
    requires document { IsDocumentText (chars text.now) (source_of engine.now).tree }
    ensures ok { OnOk result ((output : List ℕ) → IsBaked (chars text.now) (placed (dressed_document engine.now.sheet (source_of engine.now).tree)) output
        → O.out out.new ≡ grown (O.out out.old) (encode_utf8_all output)) }
    ensures left_out { IfOk result (λ count. count ≡ saturated (left_out (dressed_document engine.now.sheet (source_of engine.now).tree))) }
    ensures failed { OnErr result ((output : List ℕ) → IsBaked (chars text.now) (placed (dressed_document engine.now.sheet (source_of engine.now).tree)) output
        → GrowsByFront (O.out out.old) (O.out out.new) (encode_utf8_all output)) }
    ensures cause { HasPutCause (O.faults out.old) (O.faults out.new) result }
    ensures steps { steps.new ≤ steps.old + (2 * element_count (source_of engine.now).tree + 1) }
{
    documents_stay();
    let mut tags = BookTags::begin(alloc, engine.book(), steps)?;
    put_baked(alloc, text, &mut tags, out, steps)
}
