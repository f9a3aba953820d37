//! Documents with their generated texts written into them, as definitions.
//!
//! This crate has no code to call. Its `specs/` say what is put into a document and how it is written, which tree comes
//! of it, and which text: the document's own characters with the insertions between them, all but the `/` of an
//! empty-element tag into which something is put. They know no style sheet. The form of what is put in is this project's
//! own; where a standard has the rule, the comment names it.
//!
//! | File | It says |
//! |---|---|
//! | `Insertions.antt` | what is put into an element: its name, its class, its characters, and which elements take none |
//! | `Baked.antt` | the tree with the insertions, `baked`, and the tree without them, `taken_out` |
//! | `Places.antt` | which insertions have a place, and how many are left out |
//! | `Tags.antt` | the tags of a document, with what is put in at each |
//! | `Pieces.antt` | a text as the pieces of which it is made, each as it stands in the file |
//! | `Woven.antt` | the pieces with the insertions between them, `woven`, and the text that a text bakes to, `IsBaked` |
//! | `Grown.antt` | that a text is another one with elements put in, `IsGrown` |
//!
//! A text `<ol><li>a</li><li/></ol>` whose two items have the markers `1. ` and `2. ` bakes to
//! `<ol><li><span class="baked-marker">1. </span>a</li><li><span class="baked-marker">2. </span></li></ol>`.
#![tactic(auto)]
