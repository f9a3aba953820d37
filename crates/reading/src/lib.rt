//! Reading a text from its front.
//!
//! The `specs/` say what a reading function gives, how one reading follows another, the runs of characters that pass
//! a test, and the classes and the names of characters that documents and sheets share. `proofs/` has the laws of
//! runs. The definitions of documents and of sheets are written in these words.
//!
//! [`characters`] is the code that the readers of both begin with: the first character of a text, what is left after
//! one, and two of the classes.
//!
//! `first_char("éa")` is `é` and the text `a`; `past_character('a', "éa")` is `None`.
#![tactic(auto)]

pub mod characters;
