//! Whole runs over memory, as tables of tests.
//!
//! | Module | Its rows |
//! |---|---|
//! | `tests` | runs of `marker_cli::run` that end with a fault; and `comes_out`, by which each row of a run is tried |
//! | `dumps` | runs of `dump DOC SHEET`, and prefixes of sheets and deep documents |
//! | `scripts` | runs of `edit DOC SHEET SCRIPT` and of `gen SEED COUNT` |
//! | `histories` | runs of `history DOC SHEET SCRIPT DEPTH` |
//! | `books` | runs of `book SHEET SCRIPT DOC...` |
//! | `style_elements`, `style_attributes` | runs of both over documents that have these |
//! | `texts`, `accounts` | runs of `text DOC SHEET` and of `why DOC SHEET PATH` |
//! | `baked` | runs of `bake DOC SHEET` |
//! | `tables` | runs of `table SHEET STYLE FROM TO`, with the author's styles |
//! | `predefined` | the same with the predefined styles, at the ends of their ranges |
//! | `messages` | no runs: the messages of `UndoFault` and `WhyFault`, which no run shows |
//!
//! A row has the words, the files in memory, and what must come out on both sinks and as code (`rows`). What is expected is
//! worked out by hand from the rules in docs/; of the predefined counter styles it is the standard's. All stand here,
//! above the other crates, so that those are proved once.
#![tactic(auto)]

#[cfg(test)]
mod accounts;
#[cfg(test)]
mod baked;
#[cfg(test)]
mod books;
#[cfg(test)]
mod dumps;
#[cfg(test)]
mod histories;
#[cfg(test)]
mod messages;
#[cfg(test)]
mod predefined;
#[cfg(test)]
mod rows;
#[cfg(test)]
mod scripts;
#[cfg(test)]
mod style_attributes;
#[cfg(test)]
mod style_elements;
#[cfg(test)]
mod tables;
#[cfg(test)]
mod tests;
#[cfg(test)]
mod texts;
