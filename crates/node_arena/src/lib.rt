//! A document in an arena, whose nodes are named by keys, and its edits.
//!
//! An [`arena::Arena`] is made from a `Tree` whose root is an element, and gives that tree back. Between
//! the two every node has a key, a number of the arena's choice, and each look-up goes by it: the parent,
//! the children and siblings of a node, its name, characters and attributes, its path, and which of two
//! nodes comes first. The terms are those of DOM, 1.1 "Trees": parent, child, sibling, index, tree order,
//! preceding. A path (our own) is the list of child positions from the root down, from 0; every child counts.
//!
//! Contracts see an arena as a `Document`, whose `tree` is a forest of one root with keyed nodes. All that
//! they say of a node is a word of the crate `forest`, told of that tree: `IsLive tree key`, which each
//! look-up asks of its key, and `parent_of`, `child_of`, `index_of`, `next_sibling_of`, `key_at`, `path_of`,
//! `Precedes` and their like. The law `arena_holds_document` of [`laws`] gives the facts that hold of every
//! document as well: distinct keys, one root that is an element, texts without children, elements whose
//! attributes differ in name. The others there hold of such trees without any arena.
//!
//! A document changes by an `Edit` of plain_types. `Arena::allows` tells whether it may be done, `prepare`
//! takes all memory for it, `commit` does it, and then `revert` takes it back or `settle` ends it. Nodes that
//! stay keep their keys, new ones have keys that weren't used, and the keys of nodes that go are used until
//! then. What an edit makes of a tree is said by paths (`edited`), with keys and without them alike; contracts
//! see of a `Prepared` the tree that `commit` leads to (`tree_after`), and of a `Reversal` the one that `revert`
//! leads to (`tree_before`).
//!
//! An arena whose edits are ended uses exactly the keys of its document's nodes (`IsSettled`), and between
//! `commit` and its end those of the nodes before the edit as well (`IsCommitted`): `proofs/KeyLaws.antt`.
//!
//! No call recurses, so a tree may be of any depth. Only `from_tree`, `to_tree`, `path_of` and `prepare` take
//! memory.
//!
//! ```text
//! let mut arena = Arena::from_tree(alloc, &tree)?;    // <ol><li>a</li><li>b</li></ol>
//! let list = arena.root();
//! let second = arena.child(list, 1);                  // the key of the second item
//! let item = arena.at(&Path::of(alloc, &[1])?);       // the same
//! if arena.allows(&edit).is_none() {                  // the first item goes
//!     let prepared = arena.prepare(alloc, &edit)?;
//!     let reversal = arena.commit(prepared);          // the path of the second item is `/0` now
//!     arena.settle(reversal);
//! }
//! ```
#![tactic(auto)]

mod add_tree;
mod allowed;
mod apply;
pub mod arena;
mod attrs;
mod change;
mod children;
mod copies;
mod edits;
mod entry;
pub mod laws;
pub mod place_fault;
pub mod prepared;
mod preparing;
pub mod reversal;
