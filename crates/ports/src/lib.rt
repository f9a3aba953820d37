//! The outside: places that files are read from, and places that bytes go to.
//!
//! A shelf answers reads of named files, a sink takes bytes. Both are traits, so that all above is
//! proved for whatever stands behind them, and a caller can hand in files and sinks of its own. What a
//! shelf or a sink is comes as ghost members: `held` are the files of a shelf, and `out` the bytes of a
//! sink, where it tells them; `faults` is how many calls failed, and `taken` how many bytes were
//! answered. A shelf is `honest` where it tells its files and fails on none of them. A sink has bytes `kept` back
//! from when it takes some until a flush answers Ok, if it is one that keeps any.
//!
//! | Type | It is | It tells |
//! |---|---|---|
//! | `FileShelf` | the files of the system | nothing |
//! | `StdSink` | a writer of the system, as standard output | nothing |
//! | `HonestShelf` | files in memory | its files |
//! | `MemoryShelf` | files in memory, where the calls of given numbers fail | its files |
//! | `TrickleShelf` | the same, where a call answers no more than so many bytes | its files |
//! | `FixedSink` | bytes in memory, up to a given room | its bytes |
//! | `MemorySink` | the same, where the calls of given numbers fail | its bytes |
//! | `TrickleSink` | the same, where a call takes no more than so many bytes | its bytes |
//!
//! `fetch` reads a whole file, `put_all` puts a whole slice. Of a file nothing is known but what the
//! shelf answers: the two devices of the system are the edge where proofs end.
//!
//! No public standard speaks of these: all is our own. The layers above know this crate by `Files`,
//! `Fetches`, `grown` and `GrowsByFront` for bytes, and by `Rose`, `RoseAbove` and `HasCause` for
//! counts. A function that puts several pieces has the three clauses of `put_all` again, or `HasPutCause`
//! in place of the last where it takes memory too:
//!
//! ```
//! fn put_pair<O: Sink>(left: &[u8], right: &[u8], out: &mut O) -> Result<(), Failed>
//!     ensures ok { OnOk result (O.out out.new ≡ grown (O.out out.old) (left.now ++ right.now)) }
//!     ensures failed { OnErr result (GrowsByFront (O.out out.old) (O.out out.new) (left.now ++ right.now)) }
//!     ensures cause { HasCause (O.faults out.old) (O.faults out.new) result }
//! {
//!     put_all(out, left)?;
//!     put_all(out, right)
//! }
//! ```
#![tactic(auto)]

pub mod failed;
pub mod fetch;
pub mod file_shelf;
pub mod fixed_sink;
pub mod honest_shelf;
pub mod memory_shelf;
pub mod memory_sink;
pub mod named_file;
pub mod put_fault;
mod room;
pub mod shelf;
pub mod sink;
pub mod std_sink;
#[cfg(test)]
mod tests;
pub mod trickle_shelf;
pub mod trickle_sink;
