//! Documents that are open in programs that are not Rattle. `include/marker.h` declares what stands here.
//!
//! A program keeps a document as a [`handle::Handle`], one pointer that is null where none is open. Each call takes the
//! session out of the handle, does its work with plain Rattle (`marker_session`), and puts it back, so that no other
//! function has a raw pointer. What a program may do wrong within the types is answered by a code ([`codes`]): no exported
//! function has a `requires`. Bytes go in as slices and out into slices of the program, and nothing that is allocated
//! here is handed out but behind the handle.
//!
//! | File | It has |
//! |---|---|
//! | [`exports`] | the calls that open, close, edit, list, dump and count |
//! | [`lists`] | the calls that read the list and the dump |
//! | [`answer`] | what calls answer |
//! | `specs/Codes.antt` | the numbers of codes |
//! | `specs/Answers.antt` | what an answer of a call says |
#![tactic(auto)]

pub mod answer;
mod codes;
pub mod exports;
pub mod handle;
pub mod lists;
mod loose;
mod slot;
