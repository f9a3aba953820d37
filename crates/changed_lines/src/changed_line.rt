//! A line that an edit changes.

use plain_types::box_kind::BoxKind;
use plain_types::path::Path;
use plain_types::text::Text;

/// A box that shows another text than before an edit.
#[derive(Drop)]
pub struct ChangedLine {
    /// Where its element is in the document after the edit.
    pub path: Path,
    pub kind: BoxKind,
    /// The text that it shows now. There is none where the box is gone and its element stays.
    pub text: Option<Text>,
}
