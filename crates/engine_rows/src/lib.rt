//! Books and engines under edits by calls, without a script, as tables of tests.
//!
//! | Module | Its rows |
//! |---|---|
//! | `edits` | edits of documents and sheets, and the dump after each |
//! | `books` | what is kept of elements under such edits, by key |
//! | `told_lines` | the lines that such edits change |
//! | `engines` | how many elements, boxes and lines there are, and how many steps it takes to show and to count them |
//!
//! What is expected is worked out by hand from the rules in docs/.
#![tactic(auto)]

#[cfg(test)]
mod books;
#[cfg(test)]
mod edits;
#[cfg(test)]
mod engines;
#[cfg(test)]
mod told_lines;
