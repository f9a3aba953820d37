//! A document and its sheet, with what their evaluation keeps of each element.
//!
//! A [`book::Book`] is made from a tree and the text of a style sheet, and tells the [`NodeEntry`] of each element: its
//! counters, its depths, and the texts of its boxes. What that is is said by `generated_texts`. With its entry what an
//! element was handed is kept, and what was handed on behind its children, and the pieces of its boxes where one of them
//! has a url ([`Kept`]). It lies on a board of `snapshot_board`, under the key of the element: each element has
//! it, and a text has not.
//!
//! The author's sheet is that of the text, and behind it those of the document's style elements. A book keeps it read:
//! an edit that leaves these texts as they are reads none, one that changes some reads all of them anew, and the user
//! agent's sheet is read when the book begins. It keeps the index of the document's ids too, of which an edit changes
//! those of the elements that come and go, and the references of those that are evaluated. And it keeps what the two walks of an
//! edit need beside the board (`started_walk::counting`). Where a document is evaluated whole all these are made anew.
//!
//! An edit is planned and then committed. `plan` evaluates the edited document, and compares what is to be kept of each
//! element with what the board keeps; the [`plan::Plan`] has what is new, with which of these elements show another text
//! by it, and the keys of the elements that are gone. It does all that can want memory, and leaves the board as it is.
//! `commit` takes and puts, and cannot fail; between the two the book isn't settled, and can't be asked. What is as
//! before stays, with its texts and counters.
//!
//! `plan` walks from the place of the edit (`started_walk::twice`), and evaluates only what the edit touches and the nodes that
//! it reaches, with all that is in them: in these alone it can change other styles (`style_reach`). Of what the walk tells, that is
//! left out which can only be told as before (`kept_elements::news`). The texts of an element that refers to ids rest on their
//! targets too. They are made again where it refers to one that was told otherwise or is another than before, or to one that refers
//! so (`kept_elements::renewed_texts`).
//!
//! Where a box asks for the start of a reversed counter, an edit can change it that is far from the box. So where one asks, before
//! the edit or after it, `plan` walks twice: with all starts 0, which tells what boxes do to counters, and so which starts are
//! others than before; and with the starts of the edited document. Where none asks, both walks would tell the same, and the first
//! one is enough.
//!
//! Where an edit reaches everywhere, `plan` evaluates the whole document: by one walk, and by a second one with the starts, where a
//! box asks for one.
//!
//! Steps are counted. A whole evaluation takes at most 6 for each element, a walk from a place at most 4, and two walks at most 8; it
//! is one for each record that is read, put or taken. The work of an edit (`edit_work`) bounds them.
//!
//! The layer above knows this crate by `StyledDocument`, `fresh_entry` and `Keeps` of `specs/Books.antt`: what a book
//! stands for, what a fresh evaluation keeps of an element, and that the book keeps it; and by `settled_after`,
//! `IsPlannedBy` and `plan_size` of `specs/Plans.antt`: what a planned edit makes of a book, which plans are a book's,
//! and how much comes and goes. Between the two `specs/PlannedEntries.antt` says what is kept of the edited document,
//! by what the plan puts and by what was kept before. `specs/WorkBounds.antt` says how the work bounds the steps,
//! `specs/Places.antt` where walks from a place stand, and `specs/Countings.antt` what is kept for them. What private
//! functions say, of one walk or two and of what these cost, is in `specs/Machinery`. What a volume
//! of several documents needs of each, beside entries, a settled book tells too: its counter styles, the first element
//! of an id, and by `fresh_pieces` of `specs/FreshPieces.antt` the pieces of a box where one of them has a url.
//!
//! ```text
//! let mut book = Book::begin(alloc, tree, "h1 { counter-increment: section }", steps)?;
//! let plan = book.plan(alloc, &edit, steps)?;      // where `book.arena().allows(&edit)` was None
//! book.commit(plan, steps);
//! let entry = book.entry(book.arena().root(), steps);
//! ```
//!
//! [`NodeEntry`]: generated_texts::entry::NodeEntry
//! [`Kept`]: kept_elements::kept::Kept
#![tactic(auto)]

mod board;
pub mod book;
mod counted;
mod document_styles;
mod edited_arena;
mod evaluation;
mod exchange;
mod former_targets;
mod fresh;
mod index;
mod kept_pieces;
pub mod laws;
mod local_stops;
mod named_elements;
mod places;
pub mod plan;
mod planning;
mod read_ahead;
mod reference_exchange;
mod style_elements;
mod styled_arena;
mod targets;
