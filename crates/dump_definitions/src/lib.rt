//! The lines of a dump, as definitions.
//!
//! This crate has no code to call. Its one file in `specs/` says how the texts of boxes are written: which characters
//! are escaped, what a line is, and the bytes of all lines. The format is this project's own.
#![tactic(auto)]
