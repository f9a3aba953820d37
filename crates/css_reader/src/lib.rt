//! Style sheets: rules, declarations, and the recovery from what is not understood (CSS Syntax 3, 5).
//!
//! The floor above tokens, values and selectors. `sheet` reads whole texts: what goes in is the text as it
//! was fetched (`read_sheet`), or the texts of several sheets that are to count as one (`read_sheets`); what
//! comes out are their style rules and counter styles in the types of `plain_types`. `inline` reads the value
//! of a `style` attribute (`read_inline`, CSS Style Attributes, 3 "Syntax and Parsing"): what comes out are its
//! declarations. Every text is a sheet and has declarations; what is not understood is left out, as CSS leaves
//! it out. `features` tells what the selectors of a sheet look at, for those who will keep styles right under
//! edits; nothing uses it yet.
//!
//! Below them `pieces` cuts tokens where no block is open, `rules` cuts a sheet into rules and a block into
//! what may be declarations, and `declarations` reads these. Nothing recurses on brackets: a piece is cut by
//! one pass that keeps the closing brackets that it waits for, up to what ends it (`piece_end`). What is cut
//! can be had by itself, before it is read: `rules::rule`, `rules::part` and `declarations::cut`.
//!
//! The layers above know this crate by the words `sheet`, `sheets` and `inline_declarations`
//! (`specs/Sheets.antt`) and `features` (`specs/Features.antt`). A sheet is told from its text in four steps, a
//! file of `specs/` each: `Blocks` (what stands in a block, and what outside of it), `Rules`, `Declarations`,
//! `Sheets`. Each is a function, so a text has exactly one sheet. `laws` says that the first is what the grammar
//! of component values says.
//!
//! ```text
//! let sheet = read_sheet(alloc, "p { content: none; color: red } @media print { p {} }")?;
//! // one rule with one declaration, and no counter style
//! let declared = read_inline(alloc, "content: none; color: red; counter-reset: x")?;
//! // two declarations
//! ```
#![tactic(auto)]

pub mod declarations;
pub mod features;
pub mod inline;
pub mod laws;
mod piece_end;
mod pieces;
pub mod rules;
pub mod sheet;
