//! Documents that are equal but for the order of the attributes of each element have the same generated texts.
//!
//! Whatever makes generated texts asks for attributes by their names: selectors, the hints of lists, `style` attributes,
//! style elements, `attr()`, and ids, to which references lead. `generated_texts` says what the texts are, and
//! `same_documents` which documents are the same. This crate proves that two of these have one dump, step by step along the
//! way from a document to its lines: each step is a law (`specs/Laws.antt`).
//!
//! The layers above know it by the contract of [`laws::same_documents_have_same_texts`]. The crate has no code: the
//! functions of [`laws`] do nothing, and each contract is a law.
//!
//! ```text
//! <ol start="3" reversed="reversed"><li/></ol>   and   <ol reversed="reversed" start="3"><li/></ol>
//! have the same line under any sheet; under an empty one it is    /0 marker "3. "
//! ```
#![tactic(auto)]

pub mod laws;
