//! How tests style a list item in a numbered list.

ghost use Rattle.std.specs.Prelude.{◌≡◌, ◌<◌};
ghost use Rattle.forest.specs.Spots.{IsLive};

use crate::documents::{Attribute, arena_of};
use crate::style_notes::push_styles;
use css_tokens::lexer::tokens;
use css_tokens::sheet_text::prepare_text;
use css_values::declarations::read_declaration;
use mini_cascade::rule_table::RuleTable;
use mini_cascade::style_attributes::inline_declarations;
use mini_cascade::style_of::style_of;
use node_arena::arena::Arena;
use plain_types::declaration::Declared;
use plain_types::list::List;
use plain_types::memory::Memory;
use plain_types::sheet::{Sheet, StyleRule};
use plain_types::style::{ElementStyle, Style};
use plain_types::text::Text;
use selector_match::siblings::Siblings;
use selectors::selector_list::read_selectors;
use std::alloc::Global;
use std::marker::Brand;
use std::sync::ledger::{Blank, Ledger};
use steps::Steps;

/// Whose rule it is.
#[derive(Clone, Copy)]
pub enum Whose {
    Agent,
    AgentImportant,
    Author,
    AuthorImportant,
}

/// A rule: whose it is, its selectors, and the name and value of its declaration.
pub type Rule = (Whose, &'static str, &'static str, &'static str);

fn rule_of(alloc: Global, rule: &Rule) -> Result<Option<StyleRule>, Memory> {
    let text = prepare_text(alloc, rule.1)?;
    let pieces = tokens(alloc, text.as_str())?;
    let Some(selectors) = read_selectors(alloc, text.as_str(), pieces.as_slice())? else {
        return Ok(None);
    };
    let value = prepare_text(alloc, rule.3)?;
    let pieces = tokens(alloc, value.as_str())?;
    let Some(what) = read_declaration(alloc, rule.2, pieces.as_slice())? else {
        return Ok(None);
    };
    let important = matches!(rule.0, Whose::AgentImportant | Whose::AuthorImportant);
    let mut declared = List::new(alloc);
    declared.push(Declared { what, important })?;
    Ok(Some(StyleRule {
        selectors,
        declared,
    }))
}

#[derive(Clone, Copy, PartialEq, Eq)]
enum Origin {
    UserAgent,
    Author,
}

fn origin_of(whose: Whose) -> Origin {
    match whose {
        Whose::Agent | Whose::AgentImportant => Origin::UserAgent,
        Whose::Author | Whose::AuthorImportant => Origin::Author,
    }
}

/// The sheet of the rules of this origin.
fn table_of(alloc: Global, rules: &[Rule], of: Origin) -> Result<RuleTable, Memory> {
    let mut sheet = Sheet {
        rules: List::new(alloc),
        styles: List::new(alloc),
    };
    for rule in rules {
        if origin_of(rule.0) == of {
            if let Some(rule) = rule_of(alloc, rule)? {
                sheet.rules.push(rule)?;
            }
        }
    }
    RuleTable::new(alloc, sheet)
}

/// The styles of an element under its parent's.
fn styles<L: Ledger>(
    alloc: Global,
    arena: &Arena,
    agent: &RuleTable,
    author: &RuleTable,
    parent: Option<&Style>,
    key: usize,
    steps: &mut Steps<L>,
) -> Result<ElementStyle, Memory>
    requires { IsLive arena.now.tree key }
{
    let inline = inline_declarations(alloc, arena, key)?;
    style_of(
        alloc,
        &mut Siblings::new(alloc, arena),
        agent,
        author,
        inline.as_slice(),
        parent,
        key,
        steps,
    )
}

/// The styles of the element in the root, from those of the root.
fn styles_between<L: Ledger>(
    alloc: Global,
    arena: &Arena,
    agent: &RuleTable,
    author: &RuleTable,
    steps: &mut Steps<L>,
) -> Result<Option<ElementStyle>, Memory> {
    let root = arena.root();
    let above = styles(alloc, arena, agent, author, None, root, steps)?;
    let Some(child) = arena.child(root, 0) else {
        return Ok(None);
    };
    let parent = Some(&above.own);
    Ok(Some(styles(alloc, arena, agent, author, parent, child, steps)?))
}

/// What is told of the styles of the element in the root, under the rules of both sheets.
fn told_styles<L: Ledger>(
    rt: &HostRuntime,
    blank: Blank,
    arena: &Arena,
    rules: &[Rule],
) -> Result<Option<Text>, Memory>
    requires name { blank.name ≡ L.name }
    requires parts { blank.parts ≡ L.parts }
    requires some { 0 < L.parts }
{
    let alloc = rt.alloc();
    let mut steps = Steps::<L>::open(rt, blank);
    let agent = table_of(alloc, rules, Origin::UserAgent)?;
    let author = table_of(alloc, rules, Origin::Author)?;
    let Some(styles) = styles_between(alloc, arena, &agent, &author, &mut steps)? else {
        return Ok(None);
    };
    let mut out = Text::new(alloc);
    push_styles(&styles, &mut out)?;
    Ok(Some(out))
}

/// Whether an `li` with these attributes, in an `ol` with those, has these styles under the rules.
pub fn is_styled(
    rt: &HostRuntime,
    list: &[Attribute],
    item: &[Attribute],
    rules: &[Rule],
    expected: &str,
) -> Result<bool, Memory> {
    let Some(arena) = arena_of(rt.alloc(), list, "li", item)? else {
        return Ok(false);
    };
    match told_styles::<Brand>(rt, Blank::new(1), &arena, rules)? {
        Some(told) => Ok(told.as_str() == expected),
        None => Ok(false),
    }
}
