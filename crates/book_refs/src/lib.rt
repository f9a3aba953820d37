//! Volumes of several documents, whose references may cross from one to another.
//!
//! A [`volume::Volume`] is made of chapters, each a document with a name and a sheet of its own. It keeps an `Engine`
//! (`marker_engine`) for each: counters, depths and counter styles are those of the chapter's own document, evaluated as if it
//! stood alone. So an edit of a chapter costs what it costs there, and is refused where it is refused there.
//!
//! What crosses chapters is texts alone, and no volume keeps them: `Volume::show` tells the texts of boxes with urls anew at
//! each call, piece by piece, by the elements at which the urls aim. Those of all other boxes are as in the chapter's own
//! document, and are there already.
//!
//! Contracts see a volume as the list of its chapters (`Chapter` of `book_definitions`), whose nodes have keys. The layer above
//! knows this crate by `MakeVolume` and `given_source` of `specs/Given.antt`: of which chapters a volume can be made, and what
//! each is made of; by `IsEditedAt` of `specs/Edited.antt`: what an edit makes of a volume; by `place_named` of
//! `specs/Volumes.antt`; by `fresh_chapter_dump` of `book_definitions`: the dump of a chapter in a fresh evaluation of its
//! volume; and by `chapter_work` and `fresh_chapter_work` of `specs/ShowWork.antt`: how much work it is to show one, where nodes
//! have keys, and of documents without them. That both are the same is a law ([`laws`]).
//!
//! ```text
//! let mut volume = Volume::begin(alloc, chapters, steps)?;          // of the names a and b
//! let place = volume.find("b");                                     // Some(1)
//! volume.apply(alloc, 1, &Edit::Remove { path }, steps)?;
//! volume.show(alloc, 0, &mut out, steps)?;                          // the dump of the chapter a
//! ```
#![tactic(auto)]

pub mod chapter;
mod evaluated_chapter;
mod flat_texts;
mod full_texts;
pub mod laws;
mod lines;
mod one_target;
mod target_element;
pub mod volume;
