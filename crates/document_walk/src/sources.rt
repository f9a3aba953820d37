//! What a walk reads.

use mini_cascade::rule_table::RuleTable;
use node_arena::arena::Arena;
use plain_types::table::Table;

/// A document, the sheets and counter styles that it has, and what tells the starts of its reversed counters.
#[derive(Drop)]
pub struct Sources<'a, T> {
    pub arena: &'a Arena,
    pub agent: &'a RuleTable,
    pub author: &'a RuleTable,
    pub table: &'a Table,
    pub starts: &'a T,
}
