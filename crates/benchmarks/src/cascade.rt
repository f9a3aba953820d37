//! Work with the cascade.

ghost use Rattle.std.specs.Prelude.{◌≡◌, ◌<◌};

use mini_cascade::rule_table::RuleTable;
use mini_cascade::style_attributes::inline_declarations;
use mini_cascade::style_of::style_of;
use node_arena::arena::{Arena, has_element_root};
use plain_types::attr::Attr;
use plain_types::declaration::{Declaration, Declared, Said};
use plain_types::list::List;
use plain_types::memory::Memory;
use plain_types::selector::{Compound, Selector, Simple};
use plain_types::selector_parts::PseudoElement;
use plain_types::sheet::{Sheet, StyleRule};
use plain_types::style::Quotes;
use plain_types::text::Text;
use plain_types::tree::Tree;
use plain_types::tree_builder::TreeBuilder;
use selector_match::siblings::Siblings;
use std::alloc::Global;
use std::marker::Brand;
use std::sync::ledger::{Blank, Ledger};
use steps::Steps;

/// The name of a class.
fn class(alloc: Global, number: usize) -> Result<Text, Memory> {
    Text::from_str(alloc, format!(in alloc; "c{number}")?.as_str())
}

/// Begins an element of this class.
fn start(alloc: Global, number: usize, builder: &mut TreeBuilder) -> Result<(), Memory> {
    let mut attrs = List::new(alloc);
    attrs.push(Attr {
        name: Text::from_str(alloc, "class")?,
        value: class(alloc, number)?,
    })?;
    if builder.accepts_node() {
        builder.start(Text::from_str(alloc, "a")?, attrs)?;
    }
    Ok(())
}

/// A root with so many children, each of a class of its own.
fn tree_of(alloc: Global, elements: usize) -> Result<Option<Tree>, Memory> {
    let mut builder = TreeBuilder::new(alloc);
    start(alloc, 0, &mut builder)?;
    for number in 0..elements {
        start(alloc, number, &mut builder)?;
        if builder.is_inside() {
            builder.end();
        }
    }
    if builder.is_inside() {
        builder.end();
    }
    if builder.is_whole() {
        Ok(Some(builder.finish()))
    } else {
        Ok(None)
    }
}

/// A rule for the elements of this class.
fn rule(alloc: Global, number: usize) -> Result<StyleRule, Memory> {
    let mut simples = List::new(alloc);
    simples.push(Simple::Class(class(alloc, number)?))?;
    let mut compounds = List::new(alloc);
    compounds.push(Compound { simples })?;
    let mut selectors = List::new(alloc);
    selectors.push(Selector {
        compounds,
        joins: List::new(alloc),
        pseudo: PseudoElement::Own,
    })?;
    let mut declared = List::new(alloc);
    declared.push(Declared {
        what: Declaration::Quotes(Said::Value(Quotes::Nothing)),
        important: false,
    })?;
    Ok(StyleRule {
        selectors,
        declared,
    })
}

/// A sheet of so many rules, each for a class of its own.
fn sheet_of(alloc: Global, rules: usize) -> Result<Sheet, Memory> {
    let mut sheet = Sheet {
        rules: List::new(alloc),
        styles: List::new(alloc),
    };
    for number in 0..rules {
        sheet.rules.push(rule(alloc, number)?)?;
    }
    Ok(sheet)
}

/// The same sheet, with its rules filed.
fn table_of(alloc: Global, rules: usize) -> Result<RuleTable, Memory> {
    RuleTable::new(alloc, sheet_of(alloc, rules)?)
}

/// The styles of the root and of its children; how many children there are.
fn style_all<L: Ledger>(
    rt: &HostRuntime,
    blank: Blank,
    arena: &Arena,
    agent: &RuleTable,
    author: &RuleTable,
) -> Result<usize, Memory>
    requires name { blank.name ≡ L.name }
    requires parts { blank.parts ≡ L.parts }
    requires some { 0 < L.parts }
{
    let alloc = rt.alloc();
    let mut steps = Steps::<L>::open(rt, blank);
    let root = arena.root();
    let inline = inline_declarations(alloc, arena, root)?;
    let inline = inline.as_slice();
    let mut siblings = Siblings::new(alloc, arena);
    let above = style_of(
        alloc,
        &mut siblings,
        agent,
        author,
        inline,
        None,
        root,
        &mut steps,
    )?;
    let count = arena.child_count(root);
    for index in 0..count {
        if let Some(key) = arena.child(root, index) {
            let parent = Some(&above.own);
            let inline = inline_declarations(alloc, arena, key)?;
            let inline = inline.as_slice();
            let _style = style_of(
                alloc,
                &mut siblings,
                agent,
                author,
                inline,
                parent,
                key,
                &mut steps,
            )?;
        }
    }
    Ok(count)
}

/// Gives each of so many elements its style by so many rules.
pub(crate) fn perform(rt: &HostRuntime, elements: usize, rules: usize) -> Option<usize> {
    let alloc = rt.alloc();
    let tree = tree_of(alloc, elements).ok()??;
    if !has_element_root(&tree) {
        return None;
    }
    let arena = Arena::from_tree(alloc, &tree).ok()?;
    let agent = table_of(alloc, 0).ok()?;
    let author = table_of(alloc, rules).ok()?;
    style_all::<Brand>(rt, Blank::new(1), &arena, &agent, &author).ok()
}
