//! A volume of several documents, as definitions: its chapters, and the references from one to another.
//!
//! A chapter has a name, a document and a sheet. Each document is evaluated alone: its counters, depths and counter
//! styles are its own. References alone cross chapters. A url `#id` aims at the first element of that id in its own
//! chapter, `name#id` at that of the chapter of this name, and any other at nothing.
//!
//! | File of `specs/` | It says |
//! |---|---|
//! | `Chapters.antt` | what a chapter and a volume are, and what is said of a chapter's elements |
//! | `Aims.antt` | at which chapter and which of its elements a url aims |
//! | `Texts.antt` | the flat and full texts of a box in a volume |
//! | `Lines.antt` | the lines of a chapter, and its dump |
//! | `Fresh.antt` | the lines and the dump of a chapter, by documents whose nodes have no keys |
//! | `Laws.antt` | that keys do not matter, that a chapter whose urls give no name has the lines of its document alone, that only texts cross chapters, and on which chapters they rest |
//! | `BoxLaws.antt` | what the texts of a box in a volume rest on, piece by piece |
//!
//! The layers above know it by `fresh_chapter_dump volume chapter` (`Fresh.antt`): the dump of a fresh evaluation of the
//! volume, of this chapter; and by `chapter_dump` (`Lines.antt`), the same where nodes have keys. The crate has no code: the
//! functions of [`laws`] do nothing, and each contract is a law.
//!
//! ```text
//! chapter a    <p><a href="b#t"/></p>         under    a::after { content: target-counter(attr(href), s) }
//! chapter b    <body><h1 id="t"/></body>      under    h1 { counter-increment: s }
//!
//! the dump of a is    /0 after "1"
//! ```
#![tactic(auto)]

pub mod laws;
