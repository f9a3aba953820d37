//! The flat texts of boxes in a volume.

ghost use Rattle.std.specs.Prelude.{◌≡◌, ◌≢◌, ◌≤◌, ◌+◌, ◌∷◌, ◌++◌, [], IfOk, IsSome, OnOk, count_by, cond, flat_map, option_copied, option_map, Some, None};
ghost use Rattle.std.specs.Option.{option_map_or};
ghost use Rattle.std.specs.Str.{chars};
ghost use Rattle.book_definitions.specs.BoxLaws.{flat_piece};
ghost use Rattle.book_definitions.specs.Texts.{flat_in_volume, url_of, with_url};
ghost use Rattle.box_eval.specs.declared.made.Made.{Made};
ghost use Rattle.box_pieces.specs.BoxPieces.{has_url};
ghost use Rattle.content_eval.specs.Targets.{flat_text};
ghost use Rattle.document_walk.specs.Elements.{one_where};
ghost use Rattle.node_arena.specs.Nodes.{name_of};
ghost use Rattle.plain_types.specs.declared.box_kind.BoxKind.TheVariants as kinds;
ghost use Rattle.reading.specs.Punctuation.{number_sign};
ghost use Rattle.book_refs.specs.Machinery.TargetElements.{known_at};
ghost use Rattle.book_refs.specs.Machinery.VolumeBoxes.{box_at, characters_of, text_of};
ghost use Rattle.book_refs.specs.ShowWork.{urls_in};

use crate::evaluated_chapter::EvaluatedChapter;
use crate::one_target::OneTarget;
use crate::target_element::{TargetElement, target};
use book_definitions::laws::texts_are_told_piece_by_piece;
use content_eval::generated::Piece;
use content_eval::texts::flat_text;
use counter_sets::counter_set::CounterSet;
use generated_texts::entry::{BoxText, NodeEntry};
use plain_types::box_kind::BoxKind;
use plain_types::duplicate::Duplicate;
use plain_types::list::List;
use plain_types::memory::Memory;
use plain_types::table::Table;
use plain_types::text::Text;
use std::alloc::Global;
use std::sync::ledger::Ledger;
use steps::Steps;

/// A copy of a piece whose url, where it has one, is a `#` alone.
fn with_sign(alloc: Global, piece: &Piece) -> Result<Piece, Memory>
    ensures piece { IfOk result (λ copy. copy ≡ with_url (number_sign ∷ []) piece.now) }
{
    let url = Text::from_str(alloc, "#")?;
    match piece {
        Piece::Chars(text) => Ok(Piece::Chars(text.duplicate(alloc)?)),
        Piece::TargetCounter { name, style, .. } => Ok(Piece::TargetCounter {
            url,
            name: name.duplicate(alloc)?,
            style: style.duplicate(alloc)?,
        }),
        Piece::TargetCounters {
            name,
            between,
            style,
            ..
        } => Ok(Piece::TargetCounters {
            url,
            name: name.duplicate(alloc)?,
            between: between.duplicate(alloc)?,
            style: style.duplicate(alloc)?,
        }),
        Piece::TargetText { part, .. } => Ok(Piece::TargetText { url, part: *part }),
    }
}

/// The counters of an element's own box, where it has one.
fn box_counters(entry: &NodeEntry) -> Option<&CounterSet>
    ensures counters { option_copied result ≡ cond entry.now.has_box (Some entry.now.own) None }
{
    if entry.has_box {
        Some(&entry.own)
    } else {
        None
    }
}

/// Appends the flat text of a piece with a url, which names this element.
fn push_reference<L: Ledger>(
    alloc: Global,
    table: &Table,
    piece: &Piece,
    there: &TargetElement<'_>,
    out: &mut Text,
    steps: &mut Steps<L>,
) -> Result<(), Memory>
    requires element { IsSome (name_of there.now.chapter.now.document there.now.key) }
    ensures ok { OnOk result (out.new ≡ out.old ++ flat_text table.now (known_at there.now.chapter.now there.now.key) (with_url (number_sign ∷ []) piece.now ∷ [])) }
    ensures steps { steps.new ≤ steps.old + 1 }
{
    let entry = there.chapter.element_entry(there.key, steps);
    let targets = OneTarget {
        arena: there.chapter.arena(),
        key: there.key,
        counters: box_counters(entry),
    };
    let mut alone = List::new(alloc);
    alone.push(with_sign(alloc, piece)?)?;
    let text = flat_text(alloc, table, &alone, &targets)?;
    out.push_str(text.as_str())
}

/// The url of a piece, if it has one. Constant time.
fn url_of(piece: &Piece) -> Option<&str>
    ensures url { option_map chars (option_copied result) ≡ url_of piece.now }
{
    match piece {
        Piece::Chars(_) => None,
        Piece::TargetCounter { url, .. }
        | Piece::TargetCounters { url, .. }
        | Piece::TargetText { url, .. } => Some(url.as_str()),
    }
}

/// Appends the characters of a piece; one with a url has none of its own.
fn push_characters(piece: &Piece, out: &mut Text) -> Result<(), Memory>
    ensures ok { OnOk result (out.new ≡ out.old ++ characters_of piece.now) }
{
    match piece {
        Piece::Chars(text) => out.push_str(text.as_str()),
        Piece::TargetCounter { .. } | Piece::TargetCounters { .. } | Piece::TargetText { .. } => {
            Ok(())
        }
    }
}

/// Appends the flat text of a piece of a chapter: where it has a url, by the element at which that aims. It is one step for a
/// url, and none for characters.
pub(crate) fn push_flat_piece<L: Ledger>(
    alloc: Global,
    volume: &[EvaluatedChapter],
    own: &EvaluatedChapter,
    piece: &Piece,
    out: &mut Text,
    steps: &mut Steps<L>,
) -> Result<(), Memory>
    ensures ok { OnOk result (out.new ≡ out.old ++ flat_piece volume.now own.now piece.now) }
    ensures steps { steps.new ≤ steps.old + one_where (has_url piece.now) }
{
    texts_are_told_piece_by_piece();
    let Some(url) = url_of(piece) else {
        return push_characters(piece, out);
    };
    match target(volume, own, url) {
        Some(there) => push_reference(alloc, own.table(), piece, &there, out, steps),
        None => Ok(()),
    }
}

/// Appends the flat texts of pieces of a chapter.
fn push_flat_pieces<L: Ledger>(
    alloc: Global,
    volume: &[EvaluatedChapter],
    own: &EvaluatedChapter,
    pieces: &[Piece],
    out: &mut Text,
    steps: &mut Steps<L>,
) -> Result<(), Memory>
    ensures ok { OnOk result (out.new ≡ out.old ++ flat_in_volume volume.now own.now pieces.now) }
    ensures steps { steps.new ≤ steps.old + count_by has_url pieces.now }
{
    for piece in pieces {
        push_flat_piece(alloc, volume, own, piece, out, steps)?;
    }
    Ok(())
}

/// A box of an element of which this is kept; its own box has no text.
fn box_of(entry: &NodeEntry, kind: BoxKind) -> Option<&BoxText>
    ensures text { option_copied result ≡ text_of entry.now kind }
{
    match kind {
        BoxKind::Element => None,
        BoxKind::Marker => entry.marker.as_ref(),
        BoxKind::Before => entry.before.as_ref(),
        BoxKind::After => entry.after.as_ref(),
    }
}

/// Appends the flat text that a box of an element has in the volume, if there is the box. Where no piece of it has a url,
/// that text is kept.
pub(crate) fn push_flat_box<L: Ledger>(
    alloc: Global,
    volume: &[EvaluatedChapter],
    there: &TargetElement<'_>,
    kind: BoxKind,
    out: &mut Text,
    steps: &mut Steps<L>,
) -> Result<(), Memory>
    requires element { IsSome (name_of there.now.chapter.now.document there.now.key) }
    ensures ok { OnOk result (out.new ≡ out.old ++ option_map_or (λ (made : Made). flat_in_volume volume.now there.now.chapter.now made.pieces) (box_at there.now.chapter.now there.now.key kind) []) }
    ensures steps { steps.new ≤ steps.old + (2 + urls_in (box_at there.now.chapter.now there.now.key kind)) }
{
    texts_are_told_piece_by_piece();
    let chapter = there.chapter;
    if let Some(pieces) = chapter.pieces(there.key, kind, steps) {
        return push_flat_pieces(alloc, volume, chapter, pieces, out, steps);
    }
    match box_of(chapter.element_entry(there.key, steps), kind) {
        Some(text) => out.push_str(text.flat.as_str()),
        None => Ok(()),
    }
}
