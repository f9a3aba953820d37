//! Documents as they are evaluated.

ghost use Rattle.std.specs.Prelude.{◌≡◌};
ghost use Rattle.generated_texts.specs.Documents.{agent_sheet};
ghost use Rattle.dirty_walk.specs.DocumentStyles.{document_styles};

use crate::document_styles::DocumentStyles;
use mini_cascade::rule_table::RuleTable;
use node_arena::arena::Arena;

/// A document with what it is evaluated under: the user agent's sheet and its styles.
#[derive(Drop)]
pub(crate) struct StyledArena<'a> {
    pub(crate) arena: &'a Arena,
    pub(crate) agent: &'a RuleTable,
    pub(crate) styles: &'a DocumentStyles,
    ghost agent_is: { agent.now ≡ agent_sheet },
    ghost styles_are: { styles.now ≡ document_styles styles.now.sheet arena.now.tree },
}
