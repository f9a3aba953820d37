//! The tokens of a style sheet (CSS Syntax 3, 3.3 and 4).
//!
//! The first floor of reading sheets: the text of a sheet is prepared (`sheet_text`) and cut into tokens
//! (`lexer`). Every text has tokens; nothing is refused here. A token (`token`) is its kind, with escapes
//! resolved and whole numbers saturated to counts, and its bytes in the prepared text; comments leave
//! none. The layers above read declarations, selectors and rules from slices of tokens, in the words of
//! `token_reading`. They also take from here what reads signs and digits (`numbers`), characters
//! (`characters`), and names that count in any ASCII case (`words`).
//!
//! The layer above knows it by the words `prepared` (of the definitions' `SheetText`), `tokens`
//! (`specs/Tokens.antt`: the rules in their order, at each place the first that applies) and `AreSpans`
//! (`specs/Spans.antt`: the places are in order, and each is its slice of the text).
//!
//! ```text
//! let text = prepare_text(alloc, "a { content: counter(c) }")?;
//! let tokens = tokens(alloc, text.as_str())?;    // a Word, a Blank, a Sign, a Blank, ..
//! ```
#![tactic(auto)]

pub mod characters;
mod identifiers;
pub mod lexer;
pub mod numbers;
pub mod sheet_text;
mod strings;
pub mod token;
pub mod token_reading;
pub mod token_text;
mod urls;
pub mod words;
