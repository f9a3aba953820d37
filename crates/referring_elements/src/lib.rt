//! The elements whose texts an edit changes through references, found by an index.
//!
//! `reference_reach` says which these are: of an edit that changes some elements, those that refer to an id with a changed
//! target, and those that refer to an id whose target is one of them. This crate finds them, by the index of the edited
//! document (`target_index`), which has each pair of an element and an id to which it refers. It neither walks over the
//! document nor reads what is said of an element.
//!
//! The user says of each id that can name another element than before which one it named ([`former::FormerTarget`]), and
//! which elements of the document are changed: those that a walk has visited, and those at the stops of the walk
//! ([`changed::changed_elements`]). An id counts only where the element is the first that holds it: many
//! elements may refer to an id that an inserted element holds too, and none of their texts changes where an earlier one
//! has it.
//!
//! Which elements refer to which ids is put into an index by [`references::add_references`], once the document is evaluated.
//! Where the references of a whole document are followed, the elements that its ids name are found at once, by one walk
//! ([`first_holders::FirstHolders`]): the index looks at all elements that have an id, for each reference to it. Where the
//! references of some elements are followed, and where former targets are read, each id that several elements have is looked up
//! once ([`holder_lookup::HolderLookup`]).
//!
//! ```text
//! let mut lookup = HolderLookup::new(alloc, &arena, &index);      // before the edit
//! let former = FormerTarget::of(alloc, &mut lookup, id)?;         // for each id that it can give another target
//! let changed = changed_elements(alloc, &arena, &stops, &visited)?;
//! let found = referring_elements(alloc, &arena, &index, &former, changed.as_slice())?;
//! for key in found.first.as_slice() { .. }         // flat and full texts again
//! for key in found.second.as_slice() { .. }        // full texts again
//! ```
//!
//! In its contracts stand `refers` and `refers_through` of `reference_reach`, and of `specs/` here `IsIndexOf` and
//! `TellsReferences` (`Indexes`), which say what an index knows of a document, `TellsReferencesOf` (`References`), and
//! `AreFormerTargets` (`Former`). Which ids an edit can give another target is said by a law of `reference_reach`: those of
//! the nodes that it takes out, moves or puts in, and of the element whose attributes it changes.
#![tactic(auto)]

pub mod changed;
pub mod elements;
mod elements_by_id;
pub mod first_holders;
pub mod former;
pub mod holder_lookup;
pub mod holders;
pub mod references;
pub mod referring;
