//! Sheets under which nothing is generated.
//!
//! A document that has its generated texts written into it must not get them a second time. A sheet is silent where it says
//! `content: none !important` of `::marker`, `::before` and `::after` of every element, and no other important `content`;
//! `specs/Silence.antt` says it of the rules of a sheet. So these rules silence a sheet, wherever in it they stand:
//!
//! ```text
//! *::marker, *::before, *::after { content: none !important }
//! ```
//!
//! The crate has no code. The functions of [`laws`] do nothing, and each contract is a law: under a silent sheet no document
//! has a line in its dump. Sheets in style elements count as the author's; declarations in `style` attributes do not reach
//! pseudo-elements, whatever they say.
#![tactic(auto)]

pub mod laws;
