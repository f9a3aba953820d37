//! What a document is, as definitions.
//!
//! This crate has no code to call. Its `specs/` say which items a text spells, which lists of items are a document or
//! a fragment, the tree that they have, and where a text stops being one, production by production of XML 1.0 and as
//! if the program did not exist. Where a rule is this project's own choice, the comment says "our own".
#![tactic(auto)]
