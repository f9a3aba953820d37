//! Selectors (Selectors 4, CSS Pseudo-Elements 4): which elements a rule is for, and how specific it is.
//!
//! The floor above tokens and values: `selector_list` reads the list of selectors before a rule's block,
//! and `counting` counts a selector's specificity. What goes in is the text of a sheet and the tokens of the
//! list; what comes out are the selectors in the types of `plain_types`, or `None` exactly where the grammar
//! has no reading. One bad selector makes the list bad. Above each small function stands the grammar line
//! that it reads. Between the parts of a selector whitespace means something, so tokens are read with their
//! Blanks; the text is needed for the An+B notation, which is read from the source.
//!
//! `:is()`, `:where()` and `:not()` hold lists of compound selectors and are nested at most sixteen deep,
//! counted together. Nothing recurses further, and no token is read more than a few times.
//!
//! The layer above knows it by the words `selector_list text tokens`, the selectors of these tokens of the
//! text or nothing, and `Selectors text tokens selectors`, that they are these (`specs/Selectors.antt`);
//! and by `specificity selector` and `is_less` (`specs/Specificity.antt`). `AreSelectors text tokens selectors`
//! (`specs/Grammar.antt`) is the grammar as a relation; [`laws`] says that the two agree, and that tokens have
//! at most one reading.
//!
//! ```text
//! let text = prepare_text(alloc, ":is(#a, b) > c.d:nth-child(2n + 1)::before")?;
//! let tokens = tokens(alloc, text.as_str())?;
//! let selectors = read_selectors(alloc, text.as_str(), tokens.as_slice())?;    // Some, of one selector
//! let found = specificity(&selectors.unwrap().as_slice()[0]);                    // 1, 2, 2
//! ```
#![tactic(auto)]

mod an_plus_b;
mod compounds;
pub mod counting;
pub mod laws;
mod pseudo_classes;
pub mod selector_list;
mod simples;
pub mod specificity;
