//! The characters and the identifiers of sheets, counter styles, and numbers as texts, as definitions.
//!
//! This crate has no code to call. Its `specs/` speak in the terms of CSS Syntax 3 and CSS Counter Styles 3, as if the
//! program did not exist. The grammars of tokens, values and selectors stand in the crates that read them; which boxes
//! have which texts stands above, in `box_eval`, `content_eval` and `generated_texts`. Where a rule is this project's
//! own choice, the comment says "our own".
#![tactic(auto)]
