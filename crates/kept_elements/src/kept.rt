//! What a book keeps of elements.

ghost use Rattle.std.specs.Prelude.{◌≡◌, ◌↔◌, IsTrue, option_copied};

use box_pieces::box_pieces::BoxPieces;
use document_walk::snapshot::Snapshot;
use generated_texts::entry::NodeEntry;
use surroundings::walked::Walked;

/// What is kept of an element: its entry, what a walk reads that does not come to it, and what its texts are made from again.
pub struct Kept {
    pub entry: NodeEntry,
    pub walked: Walked,
    /// The pieces of its boxes, where one of them has a url.
    pub pieces: Option<BoxPieces>,
}

impl Drop for Kept {
    fn drop(self) {
        let Kept {
            entry: _,
            walked: _,
            pieces: _,
        } = self;
    }
}

impl Kept {
    /// Whether both are the same. It takes no memory, and time linear in the texts, the sets and the pieces.
    pub fn is_same(&self, other: &Kept) -> bool
        ensures test { IsTrue result ↔ (self.now ≡ other.now) }
    {
        self.entry.is_same(&other.entry)
            && self.walked.is_same(&other.walked)
            && are_same_pieces(self.pieces.as_ref(), other.pieces.as_ref())
    }
}

/// Whether both pieces are the same, or neither are there.
fn are_same_pieces(one: Option<&BoxPieces>, other: Option<&BoxPieces>) -> bool
    ensures test { IsTrue result ↔ (option_copied one.entry ≡ option_copied other.entry) }
{
    match (one, other) {
        (Some(one), Some(other)) => one.is_same(other),
        (None, None) => true,
        _ => false,
    }
}

impl Snapshot for Kept {
    ghost walked = { λ kept. kept.walked };

    fn walked(&self) -> &Walked {
        &self.walked
    }
}
