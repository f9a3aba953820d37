//! The cascade of one element, and which styles an edit can change, as tables of tests.
//!
//! | Module | Its rows |
//! |---|---|
//! | `hint_rows` | attributes of lists and list items, and their hints |
//! | `style_rows` | rules of both sheets, and the styles of a list item under them |
//! | `attribute_rows` | the same with `style` attributes |
//! | `reach_rows` | edits of a document under a sheet, and their reach |
//!
//! A row of the cascade styles an element in a list: `documents` makes that document, `styling` its styles, and
//! `style_notes` a text of what is not initial in them. What is expected is worked out by hand. The rows stand here,
//! above mini_cascade and style_reach, so that those are proved once.
#![tactic(auto)]

#[cfg(test)]
mod attribute_rows;
#[cfg(test)]
mod documents;
#[cfg(test)]
mod hint_rows;
#[cfg(test)]
mod pushing;
#[cfg(test)]
mod reach_rows;
#[cfg(test)]
mod style_notes;
#[cfg(test)]
mod style_rows;
#[cfg(test)]
mod styling;
