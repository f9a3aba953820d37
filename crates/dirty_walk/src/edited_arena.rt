//! Documents that are edited, before they are evaluated.

ghost use Rattle.std.specs.Prelude.{◌≡◌};
ghost use Rattle.generated_texts.specs.Documents.{agent_sheet};
ghost use Rattle.dirty_walk.specs.DocumentStyles.{read_styles};

use crate::document_styles::DocumentStyles;
use mini_cascade::rule_table::RuleTable;
use node_arena::arena::Arena;
use plain_types::edit::Edit;

/// A document that is edited already, with its edit, the user agent's sheet, and the styles that the document had before
/// the edit.
#[derive(Drop)]
pub(crate) struct EditedArena<'a> {
    pub(crate) arena: &'a Arena,
    pub(crate) agent: &'a RuleTable,
    pub(crate) styles: &'a DocumentStyles,
    pub(crate) edit: &'a Edit,
    ghost agent_is: { agent.now ≡ agent_sheet },
    ghost read: { styles.now ≡ read_styles styles.now.sheet styles.now.texts },
}
