//! The pieces of the boxes of an element.

ghost use Rattle.std.specs.Prelude.{◌≡◌, ◌↔◌, IfOk, IsTrue, is_some, option_map};
ghost use Rattle.box_eval.specs.declared.made.Made.{Made};
ghost use Rattle.content_eval.specs.Targets.{reference};
ghost use Rattle.box_pieces.specs.BoxPieces.{has_url, has_url_in, has_urls, pieces_in, pieces_of, pieces_with_urls, refers, refers_in, some_has_url, some_refers};

use crate::same_pieces::are_same_boxes;
use box_eval::element_record::ElementRecord;
use box_eval::made::Made;
use content_eval::generated::Piece;
use content_eval::targets::reference;
use plain_types::duplicate::Duplicate;
use plain_types::list::List;
use plain_types::memory::Memory;
use std::alloc::Global;

/// The pieces of an element's marker, before and after box, where it has them.
pub struct BoxPieces {
    pub marker: Option<List<Piece>>,
    pub before: Option<List<Piece>>,
    pub after: Option<List<Piece>>,
}

impl Drop for BoxPieces {
    fn drop(self) {
        let BoxPieces {
            marker: _,
            before: _,
            after: _,
        } = self;
    }
}

fn is_reference(piece: &Piece) -> bool
    ensures { result ≡ is_some (reference piece.now) }
{
    reference(piece).is_some()
}

fn some_refers(pieces: &[Piece]) -> bool
    ensures { result ≡ some_refers pieces.now }
{
    pieces.iter().any(|piece| is_reference(piece))
}

fn refers_in(made: &Option<Made>) -> bool
    ensures { result ≡ refers_in made.now }
{
    match made {
        Some(made) => some_refers(made.pieces.as_slice()),
        None => false,
    }
}

/// Whether a box of an element holds a reference to an id, whether an element has it or not. It takes no memory, and time
/// linear in the pieces.
pub fn refers(element: &ElementRecord) -> bool
    ensures test { result ≡ refers element.now }
{
    refers_in(&element.marker) || refers_in(&element.before) || refers_in(&element.after)
}

fn has_url(piece: &Piece) -> bool
    ensures { result ≡ has_url piece.now }
{
    match piece {
        Piece::Chars(_) => false,
        Piece::TargetCounter { .. } | Piece::TargetCounters { .. } | Piece::TargetText { .. } => {
            true
        }
    }
}

/// Whether a piece has a url, whatever the url names: a target function gives it. It takes no memory, and time linear in the
/// pieces.
pub fn some_has_url(pieces: &[Piece]) -> bool
    ensures test { result ≡ some_has_url pieces.now }
{
    pieces.iter().any(|piece| has_url(piece))
}

fn has_url_in(made: &Option<Made>) -> bool
    ensures { result ≡ has_url_in made.now }
{
    match made {
        Some(made) => some_has_url(made.pieces.as_slice()),
        None => false,
    }
}

fn has_urls(element: &ElementRecord) -> bool
    ensures { result ≡ has_urls element.now }
{
    has_url_in(&element.marker) || has_url_in(&element.before) || has_url_in(&element.after)
}

fn pieces_in(alloc: Global, made: &Option<Made>) -> Result<Option<List<Piece>>, Memory>
    ensures pieces { IfOk result (λ pieces. pieces ≡ option_map pieces_in made.now) }
{
    match made {
        Some(made) => Ok(Some(made.pieces.duplicate(alloc)?)),
        None => Ok(None),
    }
}

fn pieces_of(alloc: Global, element: &ElementRecord) -> Result<BoxPieces, Memory>
    ensures pieces { IfOk result (λ pieces. pieces ≡ pieces_of element.now) }
{
    Ok(BoxPieces {
        marker: pieces_in(alloc, &element.marker)?,
        before: pieces_in(alloc, &element.before)?,
        after: pieces_in(alloc, &element.after)?,
    })
}

impl BoxPieces {
    /// The pieces of the boxes of an element, where one of them has a url, whatever it names; of each other element none. It
    /// takes memory in the pieces that it answers, and time linear in the element's pieces.
    pub fn of(alloc: Global, element: &ElementRecord) -> Result<Option<BoxPieces>, Memory>
        ensures pieces { IfOk result (λ pieces. pieces ≡ pieces_with_urls element.now) }
    {
        if has_urls(element) {
            Ok(Some(pieces_of(alloc, element)?))
        } else {
            Ok(None)
        }
    }

    /// Whether both are the same. It takes no memory, and time linear in the pieces.
    pub fn is_same(&self, other: &BoxPieces) -> bool
        ensures test { IsTrue result ↔ (self.now ≡ other.now) }
    {
        are_same_boxes(&self.marker, &other.marker)
            && are_same_boxes(&self.before, &other.before)
            && are_same_boxes(&self.after, &other.after)
    }
}
