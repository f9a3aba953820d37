//! Counter values as texts: the representations of CSS Counter Styles 3.
//!
//! What goes in is a table of finished counter styles, a reference to a style as `list-style-type` and
//! `counter()` have it, and a value; the text is appended to one that is handed in. `represent` appends
//! the representation (section 2), `represent_marker` a list marker with prefix and suffix (3.3, 3.4).
//!
//! | Module | Section | It has |
//! |---|---|---|
//! | `systems`, `initial` | 3.1 | the algorithm of each system |
//! | `written` | 3.2, 3.5, 3.6 | one style: range, padding in grapheme clusters, sign |
//! | `represent` | 3.7, 4, 5 | the style that is meant, and its fallbacks |
//! | `laws` | 3.7 | that chains of fallbacks end |
//! | `draft` | our own | a text that is given up once it is longer than 120 code points |
//!
//! A text that would be too long, or that repeats an empty symbol, is decided without writing it out, so
//! 9223372036854775807 in a symbolic style takes no longer than 5. Fallbacks may lead in a circle: then
//! `decimal` writes the value. The layers above know this crate by `representation` and `marker_text` of
//! the definitions.
//!
//! ```
//! // "iv", where the table has the predefined styles
//! represent(alloc, &table, &StyleRef::Name(Text::from_str(alloc, "lower-roman")?), 4, &mut out)?;
//! ```
#![tactic(auto)]

mod draft;
mod initial;
pub mod laws;
pub mod represent;
mod systems;
mod written;
