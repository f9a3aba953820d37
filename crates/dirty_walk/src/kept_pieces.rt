//! The pieces of a box, as they are kept of its element.

ghost use Rattle.std.specs.Prelude.{◌≡◌, option_copied};
ghost use Rattle.std.specs.Option.{option_and_then};
ghost use Rattle.dirty_walk.specs.Machinery.KeptPieces.{kept_box, kept_pieces, where_url};

use box_pieces::box_pieces::{BoxPieces, some_has_url};
use content_eval::generated::Piece;
use kept_elements::kept::Kept;
use plain_types::box_kind::BoxKind;
use plain_types::list::List;

/// The pieces of this box, where one of them has a url.
fn where_url(pieces: &Option<List<Piece>>) -> Option<&[Piece]>
    ensures pieces { option_copied result ≡ option_and_then where_url pieces.now }
{
    match pieces {
        Some(pieces) if some_has_url(pieces.as_slice()) => Some(pieces.as_slice()),
        _ => None,
    }
}

/// Those of this box, of all that are kept of an element.
fn of_box(boxes: &BoxPieces, kind: BoxKind) -> Option<&[Piece]>
    ensures pieces { option_copied result ≡ option_and_then where_url (kept_box boxes.now kind) }
{
    match kind {
        BoxKind::Element => None,
        BoxKind::Marker => where_url(&boxes.marker),
        BoxKind::Before => where_url(&boxes.before),
        BoxKind::After => where_url(&boxes.after),
    }
}

/// The pieces of this box of an element of which this is kept, where one of them has a url; none where nothing is kept. It
/// takes no memory, and time linear in the pieces.
pub(crate) fn kept_pieces(kept: Option<&Kept>, kind: BoxKind) -> Option<&[Piece]>
    ensures pieces { option_copied result ≡ option_and_then (λ kept. kept_pieces kept kind) (option_copied kept.entry) }
{
    let boxes = kept?.pieces.as_ref()?;
    of_box(boxes, kind)
}
