//! The style of an element.

ghost use Rattle.std.specs.Prelude.{◌≡◌, ◌+◌, IfOk, option_copied};
ghost use Rattle.forest.specs.Spots.{IsLive};
ghost use Rattle.mini_cascade.specs.StyleAttributes.{inline_of};
ghost use Rattle.mini_cascade.specs.Styles.{element_style, styles_under};

use crate::applicable::{Applicable, collect};
use crate::defaulting::{initial_values, style_under};
use crate::hints::hints;
use crate::rule_table::RuleTable;
use plain_types::declaration::Declared;
use plain_types::memory::Memory;
use plain_types::style::{ElementStyle, Style};
use selector_match::siblings::Siblings;
use std::alloc::Global;
use std::sync::ledger::Ledger;
use steps::Steps;

/// The styles that the declarations in these lists give.
fn styles_under<'a>(
    alloc: Global,
    lists: &Applicable<'a>,
    parent: Option<&'a Style>,
) -> Result<ElementStyle, Memory>
    ensures { IfOk result (λ style. style ≡ styles_under lists.now.own lists.now.marker lists.now.before lists.now.after (option_copied parent.entry)) }
{
    let initial = initial_values(alloc)?;
    let above = parent.unwrap_or(&initial);
    let own = style_under(alloc, &lists.own, above, &initial)?;
    let marker = style_under(alloc, &lists.marker, &own, &initial)?;
    let before = style_under(alloc, &lists.before, &own, &initial)?;
    let after = style_under(alloc, &lists.after, &own, &initial)?;
    Ok(ElementStyle {
        own,
        marker,
        before,
        after,
    })
}

/// The styles of an element and of its pseudo-elements, by the rules of the user agent and of the author, by
/// the element's hints and by its `style` attribute. `inline` are the declarations of this attribute, as
/// [`inline_declarations`](crate::style_attributes::inline_declarations) reads them. `parent` is the own style
/// of the element's parent, and `None` for the root, which inherits initial values. One step is counted, also
/// where the answer is `Memory`.
///
/// Of the rules those alone are looked at that their tables have for the element, and each of their selectors is matched
/// once; declarations of rules that do not match are not looked at. Counts of siblings that the matching asked for are
/// kept for later calls.
pub fn style_of<L: Ledger>(
    alloc: Global,
    siblings: &mut Siblings<'_>,
    agent: &RuleTable,
    author: &RuleTable,
    inline: &[Declared],
    parent: Option<&Style>,
    key: usize,
    steps: &mut Steps<L>,
) -> Result<ElementStyle, Memory>
    requires live { IsLive siblings.old key }
    requires inline { inline.now ≡ inline_of siblings.old key }
    ensures tree { siblings.new ≡ siblings.old }
    ensures style { IfOk result (λ style. style ≡ element_style siblings.old agent.now author.now key (option_copied parent.entry)) }
    ensures step { steps.new ≡ steps.old + 1 }
{
    steps.tick();
    let hints = hints(alloc, siblings.arena(), key)?;
    let lists = collect(
        alloc,
        siblings,
        key,
        agent,
        hints.as_slice(),
        author,
        inline,
    )?;
    siblings.keep(alloc, key);
    styles_under(alloc, &lists, parent)
}
