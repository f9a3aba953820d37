//! What is kept of elements, under their keys, where each access is counted.
//!
//! A [`board::Board`] is a finite map from keys to records. Its keys are those of an arena, small numbers that are
//! used again, so each key below the board's room has a slot, and an access takes constant time. It is one step too,
//! of a [`Steps`](steps::Steps), whether a record is found or not: where what a caller keeps stands on a board, its
//! bound on steps says how many of these records it reads and writes.
//!
//! [`board::Board::reserve`] takes all memory that keys below a room need, and changes no record. The other calls take
//! none: `put` asks for the room instead, and cannot fail.
//!
//! The layer above knows this crate by `Records`, `put_all` and `take_all` of `specs/Records.antt`. `get`, `insert`,
//! `remove` and `empty` are those of std's `FinMap`.
//!
//! ```text
//! let mut board = Board::new(alloc);
//! board.reserve(8)?;                                  // room for the keys 0 to 7
//! let before = board.put(5, heading, steps);          // None, and a step
//! let kept = board.get(5, steps);                     // the heading, and a step
//! let none = board.get(9, steps);                     // None, and a step: there is no room for this key
//! let taken = board.take(5, steps);                   // the heading, and a step
//! ```
#![tactic(auto)]

pub mod board;
#[cfg(test)]
mod tests;
