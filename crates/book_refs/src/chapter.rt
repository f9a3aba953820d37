//! Chapters, as they are given.

use plain_types::text::Text;
use plain_types::tree::Tree;

/// A chapter of a volume: its name, by which the urls of others name it, its document, and the text of its sheet.
#[derive(Drop)]
pub struct Chapter {
    pub name: Text,
    pub document: Tree,
    pub sheet: Text,
}
