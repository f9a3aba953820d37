//! The layers below the walk over texts, as tables of tests: which elements a selector matches, the cascade, and what
//! boxes make of counters, quotes and content.
//!
//! | Module | Its rows |
//! |---|---|
//! | `cascade` | styles of elements, from the texts of a document and a sheet |
//! | `matching` | which elements a selector matches, from the texts of a document and a selector |
//! | `evaluation` | what boxes make of counters, quotes and content, from the texts of a document and a sheet |
//! | `contents` | what values of `content` give |
//! | `references` | what content gives that refers to other elements |
//! | `starts` | the starts of reversed counters, by what boxes do to counters |
//! | `values` | the plain types: each call once, and copies |
//!
//! Trees are read and compared by [`trees`]; [`listed`] has the elements that the rows on references ask. These, [`lines`]
//! and [`shown`] serve the rows of the crates above too. What is expected is worked out by hand from the rules in docs/. The
//! rows stand here, above the other crates, so that those are proved once.
#![tactic(auto)]

#[cfg(test)]
mod cascade;
#[cfg(test)]
mod contents;
#[cfg(test)]
mod evaluation;
pub mod lines;
pub mod listed;
#[cfg(test)]
mod matching;
#[cfg(test)]
mod references;
pub mod shown;
#[cfg(test)]
mod starts;
pub mod trees;
#[cfg(test)]
mod values;
