//! The values of declarations and descriptors (CSS Lists 3, CSS Counter Styles 3, CSS Generated Content 3).
//!
//! The floor above the tokens: `declarations` reads a declaration of one of the properties that make
//! generated texts, and `descriptors` a descriptor of `@counter-style`. What goes in is the name and the
//! tokens of the value; what comes out is the value in the types of `plain_types`, or `None` exactly
//! where the grammar has no reading. Above each small function stands the grammar line that it reads.
//! Blanks may stand between all parts; names and keywords count in any ASCII case.
//!
//! The layer above knows it by the words `declared` (`specs/Declarations.antt`) and `described`
//! (`specs/Descriptors.antt`), over `solid` tokens, those without Blanks (`specs/Parts.antt`). They are
//! functions from a name and the kinds of tokens to a value or nothing, a line for each line of the
//! grammars.
//!
//! ```text
//! let text = prepare_text(alloc, "reversed(a) 3 b")?;
//! let tokens = tokens(alloc, text.as_str())?;
//! let declaration = read_declaration(alloc, "counter-reset", tokens.as_slice())?;
//! // Some(Declaration::Resets(..)): `a` reversed with 3, and `b` with 0
//! ```
#![tactic(auto)]

mod combining;
mod contents;
mod counters;
pub mod declarations;
pub mod descriptors;
mod list_style;
mod parts;
mod quotes;
mod styles;
mod targets;
