//! Where the values of an element's properties come from.
//!
//! The cascade (`mini_cascade`) gives an element its style; this crate tells why the style is so: for each property the
//! declaration that wins, which is the greatest of those that apply, or that there is none. What goes in are the two
//! sheets, the element's hints and its `style` attribute, read; what comes out is a [`value_source::ValueSource`] for a
//! property: a declaration by the place of its rule, a hint or the `style` attribute, and whether it is important;
//! `inherited`; or `initial`.
//!
//! The declarations that apply to the element are put into a list, in the order in which they appear, each with where it
//! stands ([`declarations::Declarations`]); and of those of a property the greatest is found.
//!
//! The layer above knows it by `value_source_at tree agent author key property` (`specs/Sources.antt`), which is
//! `value_source_of is_root property declarations` of the `placed_declarations`: those by which the cascade styles the
//! element, each with its place. [`laws`] says that the style has the value of the declaration that wins.
//!
//! ```text
//! let hints = hints(alloc, &arena, key)?;                     // <ol start="3"/>
//! let inline = inline_declarations(alloc, &arena, key)?;
//! let siblings = Siblings::new(alloc, &arena);
//! let applying = Declarations::of(alloc, &siblings, key, &agent, hints.as_slice(), &author, inline.as_slice())?;
//! applying.source(Property::CounterReset, true)               // the hint
//! applying.source(Property::Quotes, true)                     // initial
//! ```
#![tactic(auto)]

pub mod declarations;
mod greatest;
pub mod laws;
pub mod place;
mod placed;
pub mod property;
pub mod value_source;
