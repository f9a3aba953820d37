//! The plain types that every crate shares, each with a copy that equals its source.
//!
//! - Texts, lists and paths, which contracts see as lists (`text`, `list`, `path`), texts that copies share
//!   (`shared_text`), the answer for want of memory (`memory`), and copies (`duplicate`).
//! - Documents: nodes with their attributes (`node`, `attr`), and trees of them with their builder
//!   (`tree`, `tree_builder`). A tree is seen as the forest of its root, `specs/Tree.antt`; code walks
//!   it in tree order, node by node with its depth (`row`), `specs/Rows.antt`.
//! - Style sheets as they are read (`selector` and `selector_parts`, `declaration`, `counter_style`, `sheet`), and
//!   styles as the cascade makes them (`style`, `content`), in the terms of the CSS modules.
//! - Tables of finished counter styles (`table`), the names under which they are kept (`style_name`), and the
//!   systems of styles and what names one (`style_ref`).
//! - Counters and boxes (`count`, `counter`, `box_id`, `box_kind`), and edits (`edit`).
//!
//! ```text
//! let mut builder = TreeBuilder::new(alloc);
//! builder.start(Text::from_str(alloc, "ol")?, List::new(alloc))?;
//! builder.end();
//! let tree = builder.finish();    // the tree of `<ol/>`
//! ```
#![tactic(auto)]

pub mod attr;
pub mod box_id;
pub mod box_kind;
pub mod content;
pub mod count;
pub mod counter;
pub mod counter_style;
pub mod declaration;
pub mod duplicate;
pub mod edit;
pub mod list;
pub mod memory;
pub mod node;
pub mod path;
pub mod row;
pub mod selector;
pub mod selector_parts;
pub mod shared_text;
pub mod sheet;
pub mod style;
pub mod style_name;
pub mod style_ref;
pub mod table;
pub mod text;
pub mod tree;
pub mod tree_builder;
