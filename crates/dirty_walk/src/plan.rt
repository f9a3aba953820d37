//! Edits that a book is ready to do.

ghost use Rattle.std.specs.Prelude.{◌≡◌};

use kept_elements::kept_change::KeptChange;
use plain_types::list::List;

/// What becomes of a book by an edit, whose document and styles have it already: what of that which
/// it keeps comes anew, and what goes. The book that planned it commits it before it does anything else.
#[derive(Drop)]
pub struct Plan {
    /// What comes to be kept, each under the key of its element.
    pub(crate) puts: Vec<(usize, KeptChange)>,
    /// The keys of the elements that are gone.
    pub(crate) takes: List<usize>,
}

impl Plan {
    /// What comes to be kept, each under the key of its element, and which of these elements show other texts by it. It takes
    /// no memory and constant time.
    pub fn puts(&self) -> &[(usize, KeptChange)]
        ensures puts { result.now ≡ self.now.puts.items }
    {
        self.puts.as_slice()
    }
}
