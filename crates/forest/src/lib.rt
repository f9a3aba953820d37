//! Ordered forests, as definitions.
//!
//! This crate has no code to call. It holds the words in which every layer above speaks of a
//! document's tree, in `specs/`, and the laws about them, in `proofs/`.
//!
//! A forest is trees that stand side by side, and each node has a label. A document is the forest of
//! its one root. With labels that are nodes it is a tree without keys; with labels that are `Keyed`
//! nodes it is a tree whose nodes can be named by a number.
#![tactic(auto)]
