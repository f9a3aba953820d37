//! What a line of a script asks for.

use plain_types::edit::Edit;
use plain_types::text::Text;

/// What a line of a script asks for (our own).
#[derive(Drop)]
pub enum Action {
    /// An edit of the document.
    Change(Edit),
    /// The sheet becomes that of the file of this name, which has a character at least.
    SheetFile(Text),
    /// The document's texts are shown as they then are.
    Show,
    /// The last accepted edit that is not undone is undone. Only a script with a history has this.
    Undo,
    /// The last edit that was undone is done again. Only a script with a history has this.
    Redo,
    /// The document of this name, which has a character at least, becomes the present one. Only the script of a book
    /// has this.
    Enter(Text),
}
