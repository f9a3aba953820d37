//! The texts of boxes in a volume that are shown.

ghost use Rattle.std.specs.Prelude.{◌≡◌, ◌≤◌, ◌+◌, ◌*◌, ◌++◌, [], IfOk, OnOk, sum_by};
ghost use Rattle.std.specs.Option.{option_map_or};
ghost use Rattle.std.specs.Str.{chars};
ghost use Rattle.book_definitions.specs.Aims.{target};
ghost use Rattle.book_definitions.specs.BoxLaws.{full_piece};
ghost use Rattle.book_definitions.specs.Texts.{full_in_volume};
ghost use Rattle.book_refs.specs.Machinery.TargetElements.{flat_text_there};
ghost use Rattle.book_refs.specs.ShowWork.{piece_work, url_work};

use crate::evaluated_chapter::EvaluatedChapter;
use crate::flat_texts::{push_flat_box, push_flat_piece};
use crate::target_element::target;
use book_definitions::laws::texts_are_told_piece_by_piece;
use content_eval::generated::Piece;
use plain_types::box_kind::BoxKind;
use plain_types::content::Part;
use plain_types::memory::Memory;
use plain_types::text::Text;
use std::alloc::Global;
use std::sync::ledger::Ledger;
use steps::Steps;

/// Appends the flat text of a box of the element at which a url of a chapter aims.
fn push_box_there<L: Ledger>(
    alloc: Global,
    volume: &[EvaluatedChapter],
    own: &EvaluatedChapter,
    url: &str,
    kind: BoxKind,
    out: &mut Text,
    steps: &mut Steps<L>,
) -> Result<(), Memory>
    ensures ok { OnOk result (out.new ≡ out.old ++ flat_text_there volume.now (target volume.now own.now (chars url.now)) kind) }
    ensures steps { steps.new ≤ steps.old + 4 * url_work volume.now own.now (chars url.now) }
{
    match target(volume, own, url) {
        Some(there) => push_flat_box(alloc, volume, &there, kind, out, steps),
        None => Ok(()),
    }
}

/// Appends the full text of a piece of a chapter.
fn push_full_piece<L: Ledger>(
    alloc: Global,
    volume: &[EvaluatedChapter],
    own: &EvaluatedChapter,
    piece: &Piece,
    out: &mut Text,
    steps: &mut Steps<L>,
) -> Result<(), Memory>
    ensures ok { OnOk result (out.new ≡ out.old ++ full_piece volume.now own.now piece.now) }
    ensures steps { steps.new ≤ steps.old + 4 * piece_work volume.now own.now piece.now }
{
    texts_are_told_piece_by_piece();
    match piece {
        Piece::Chars(_) | Piece::TargetCounter { .. } | Piece::TargetCounters { .. } => {
            push_flat_piece(alloc, volume, own, piece, out, steps)
        }
        Piece::TargetText { url, part } => match *part {
            Part::Content => push_flat_piece(alloc, volume, own, piece, out, steps),
            Part::Before => push_box_there(
                alloc,
                volume,
                own,
                url.as_str(),
                BoxKind::Before,
                out,
                steps,
            ),
            Part::After => push_box_there(
                alloc,
                volume,
                own,
                url.as_str(),
                BoxKind::After,
                out,
                steps,
            ),
        },
    }
}

/// The full text of a box of a chapter that has these pieces.
pub(crate) fn full_text<L: Ledger>(
    alloc: Global,
    volume: &[EvaluatedChapter],
    own: &EvaluatedChapter,
    pieces: &[Piece],
    steps: &mut Steps<L>,
) -> Result<Text, Memory>
    ensures text { IfOk result (λ text. text ≡ full_in_volume volume.now own.now pieces.now) }
    ensures steps { steps.new ≤ steps.old + 4 * sum_by (piece_work volume.now own.now) pieces.now }
{
    let mut text = Text::new(alloc);
    for piece in pieces {
        push_full_piece(alloc, volume, own, piece, &mut text, steps)?;
    }
    Ok(text)
}
