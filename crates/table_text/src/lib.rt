//! The rows of a table: how values are written in one counter style.
//!
//! A row is `VALUE "TEXT"` and a line feed. TEXT is the representation of the value, without prefix and
//! suffix, in quotes and with the escapes of a dump. The format is our own.
//!
//! What goes in is a table of finished counter styles, the style that is meant and the first and the last
//! value; what comes out goes to a sink. The layer above knows these bytes by `rows` and `values_between`.
//!
//! ```
//! // puts `3 "iii"`, a line feed, `4 "iv"` and a line feed
//! put_rows(alloc, &table, &StyleRef::Name(lower_roman), 3, 4, out)?;
//! ```
#![tactic(auto)]

pub mod put_rows;
