//! Whether pieces of boxes are the same.

ghost use Rattle.std.specs.Prelude.{◌≡◌, ◌↔◌, IsTrue};

use crate::same_styles::{is_same_style, is_same_text};
use content_eval::generated::Piece;
use plain_types::content::Part;
use plain_types::list::List;

fn is_same_part(one: Part, other: Part) -> bool
    ensures test { IsTrue result ↔ (one ≡ other) }
{
    match (one, other) {
        (Part::Content, Part::Content)
        | (Part::Before, Part::Before)
        | (Part::After, Part::After) => true,
        _ => false,
    }
}

fn is_same_piece(one: &Piece, other: &Piece) -> bool
    ensures test { IsTrue result ↔ (one.now ≡ other.now) }
{
    match (one, other) {
        (Piece::Chars(one), Piece::Chars(other)) => is_same_text(one, other),
        (
            Piece::TargetCounter { url, name, style },
            Piece::TargetCounter {
                url: other_url,
                name: other_name,
                style: other_style,
            },
        ) => {
            is_same_text(url, other_url)
                && is_same_text(name, other_name)
                && is_same_style(style, other_style)
        }
        (
            Piece::TargetCounters {
                url,
                name,
                between,
                style,
            },
            Piece::TargetCounters {
                url: other_url,
                name: other_name,
                between: other_between,
                style: other_style,
            },
        ) => {
            is_same_text(url, other_url)
                && is_same_text(name, other_name)
                && is_same_text(between, other_between)
                && is_same_style(style, other_style)
        }
        (
            Piece::TargetText { url, part },
            Piece::TargetText {
                url: other_url,
                part: other_part,
            },
        ) => is_same_text(url, other_url) && is_same_part(*part, *other_part),
        _ => false,
    }
}

/// Whether pieces are the same, one by one.
fn are_same(pieces: &[Piece], others: &[Piece]) -> bool
    ensures test { IsTrue result ↔ (pieces.now ≡ others.now) }
{
    pieces.len() == others.len()
        && pieces
            .iter()
            .zip(others)
            .all(|(one, other)| is_same_piece(one, other))
}

/// Whether both boxes have the same pieces, or neither is there.
pub(crate) fn are_same_boxes(one: &Option<List<Piece>>, other: &Option<List<Piece>>) -> bool
    ensures test { IsTrue result ↔ (one.now ≡ other.now) }
{
    match (one, other) {
        (Some(one), Some(other)) => are_same(one.as_slice(), other.as_slice()),
        (None, None) => true,
        _ => false,
    }
}
