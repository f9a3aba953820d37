//! The lines of a dump.
//!
//! A dump is the text that the program writes: one line `PATH KIND "TEXT"` for each marker, before and
//! after box. The path names the element that the box belongs to, as `/` or `/0/12`. The text stands in
//! quotes with its escapes: `\"`, `\\` and `\n` for the quote, the backslash and the line feed, and
//! `\u{h}` for the other controls below U+0020 and for U+007F. The format is our own.
//!
//! What goes in is a box's path, as a slice of its positions, its kind and its text, what comes out goes to
//! a sink. Nothing here takes memory: a text goes out in the runs between its escapes. The layers above
//! know these bytes by `line_text`, `quoted` and `dump` of the definitions of a dump; `proofs/DumpLemmas`
//! says that a dump's bytes are those of its lines, one after the other.
//!
//! ```
//! // puts `/0/1 marker "2. "` and a line feed
//! put_line(&[0, 1], BoxKind::Marker, &Text::from_str(alloc, "2. ")?, out)?;
//! ```
#![tactic(auto)]

pub mod put_line;
pub mod put_quoted;
#[cfg(test)]
mod tests;
