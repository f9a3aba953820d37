//! Finished counter styles: from the `@counter-style` rules of a sheet to a table.
//!
//! In go the rules as they are read, each with the descriptors that it gives; out comes a `Table`, in which
//! every style has all that it needs to write a number. The predefined styles are in it too. The rules are
//! those of CSS Counter Styles 3, 3 and 6: the last rule of a name that defines a style replaces the others
//! and a predefined style whole, `extends` is resolved, and styles that extend one another in a circle
//! extend `decimal` (3.1.7).
//!
//! The layer above knows this crate by `finished_styles` of the definitions, which [`build::build`] equals.
//! Each chain of `extends` ends, as [`laws`] says, and each rule is passed once: nothing recurses on the sheet.
//!
//! ```text
//! // @counter-style z { system: extends decimal; pad: 4 "0" }
//! let table = build(alloc, &styles)?;
//! let place = table.find("z");        // the style there has the digits of decimal, and a pad of its own
//! ```
#![tactic(auto)]

pub mod build;
mod defines;
mod describe;
mod finish;
pub mod laws;
mod predefined;
mod rules;
