//! Documents under keys, their edits, and scripts of edits, as tables of tests.
//!
//! | Module | Its rows |
//! |---|---|
//! | `shape_rows` | small trees of every shape, deep ones and wide ones, in all calls of an arena |
//! | `edit_rows` | edits of small documents, with what becomes of them or why they are refused |
//! | `script_rows` | scripts, with their commands or the number of the bad line; runs that are made up |
//!
//! What is expected is worked out by hand. The rows stand here, above node_arena and edit_script, so that those are
//! proved once.
#![tactic(auto)]

#[cfg(test)]
mod edit_rows;
#[cfg(test)]
mod pushing;
#[cfg(test)]
mod script_rows;
#[cfg(test)]
mod shape_rows;
