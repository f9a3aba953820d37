//! Whole runs over what a stranger could hand in, and over files and outputs that fail, as tables of tests.
//!
//! | Module | Its rows |
//! |---|---|
//! | `fronts` | every front of a document, of a sheet and of a script |
//! | `lines` | scripts with a line that is no command |
//! | `devices` | files and outputs that move a byte at a time, and each read and each write that fails |
//! | `refused` | edits that are refused memory, and then done again |
//!
//! A run is over files in memory (`runs`); that of most rows is over an article with a script of its edits (`article`).
//! What is expected is worked out by hand from the rules in docs/, or follows from what a run without faults writes: a
//! run that a fault ends has written a front of that. The rows stand apart from those of `worked_rows`, so that
//! neither is proved again for the other.
#![tactic(auto)]

#[cfg(test)]
mod article;
#[cfg(test)]
mod devices;
#[cfg(test)]
mod fronts;
#[cfg(test)]
mod lines;
#[cfg(test)]
mod refused;
#[cfg(test)]
mod runs;
