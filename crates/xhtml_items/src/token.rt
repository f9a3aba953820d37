//! Tokens.

use plain_types::attr::Attr;
use plain_types::list::List;

/// An item as it was read. Names and the text of sections are parts of the text that was read.
#[derive(Drop)]
pub enum Token<'a> {
    Doctype,
    Comment,
    Instruction,
    StartTag { name: &'a str, attrs: List<Attr> },
    EmptyTag { name: &'a str, attrs: List<Attr> },
    EndTag { name: &'a str },
    Reference(char),
    Section(&'a str),
    Character(char),
}
