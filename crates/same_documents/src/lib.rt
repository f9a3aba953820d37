//! Documents that are equal but for the order of the attributes of each element, and that edits do not tell them apart.
//!
//! XML gives the order of an element's attributes no meaning, and no generated text depends on it: attributes are asked
//! for by name. An edit that is undone can leave it other than it was, since an attribute that is set anew goes last. So what an
//! undo gives back is a document that is the same in the sense of this crate.
//!
//! | File of `specs/` | It says |
//! |---|---|
//! | `Sameness.antt` | which attributes, nodes and documents are the same |
//! | `Laws.antt` | that this is an equivalence relation, that the attributes differ in order alone, and that an edit does the same to such documents |
//!
//! The layers above know it by `AreSame document other` (`Sameness.antt`). The crate has no code: the functions of
//! [`laws`] do nothing, and each contract is a law.
//!
//! ```text
//! <a href="#t" id="u"/>   and   <a id="u" href="#t"/>    are the same;
//! unset `href` and set it to `#t` again:                 the first becomes the second.
//! ```
#![tactic(auto)]

pub mod laws;
