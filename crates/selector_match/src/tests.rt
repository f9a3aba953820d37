//! What no sheet can say of selectors, and one that a sheet can, worked out by hand.

use crate::matching::matches;
use crate::siblings::Siblings;
use node_arena::arena::{Arena, has_element_root};
use plain_types::attr::Attr;
use plain_types::list::List;
use plain_types::memory::Memory;
use plain_types::selector::{Compound, Selector, Simple};
use plain_types::selector_parts::{Join, PseudoElement};
use plain_types::text::Text;
use plain_types::tree::Tree;
use plain_types::tree_builder::TreeBuilder;
use std::alloc::Global;
use std::test::Fail;

/// A node: its depth, its name or nothing for a text, and an attribute or the text's characters.
type Row = (usize, &'static str, &'static str, &'static str);

/// A list of two items, of which the first holds a text without characters; the places are those of tree order.
static DOCUMENT: [Row; 5] = [
    (0, "ul", "", ""), // 0
    (1, "li", "class", ""), // 1
    (2, "", "", ""), // 2
    (1, "li", "class", "a"), // 3
    (2, "", "", "x"), // 4
];

/// How many compounds without simple selectors, how many `>`, and the nodes that are matched.
static SHAPES: [(usize, usize, &'static [usize]); 6] = [
    (1, 0, &[0, 1, 3]),
    (2, 1, &[1, 3]),
    // no compound, a combinator too many, one too few
    (0, 0, &[]),
    (0, 1, &[]),
    (1, 1, &[]),
    (2, 0, &[]),
];

/// Elements in a row or nested in each other, so many of each name; a selector of such names with this combinator between
/// them; and how many elements it matches. They are so many that outcomes are kept, and asked for.
static CROWDS: [(
    Join,
    &'static [(&'static str, usize)],
    &'static [&'static str],
    usize,
); 12] = [
    // there is no `i`, it comes first, or it comes in the middle
    (Join::Later, &[("b", 90)], &["i", "b"], 0),
    (Join::Later, &[("i", 1), ("b", 90)], &["i", "b"], 90),
    (
        Join::Later,
        &[("b", 70), ("i", 1), ("b", 80)],
        &["i", "b"],
        80,
    ),
    // the first two compounds in their order, and in the other
    (
        Join::Later,
        &[("i", 1), ("b", 70), ("u", 1), ("b", 80)],
        &["i", "u", "b"],
        80,
    ),
    (
        Join::Later,
        &[("u", 1), ("b", 70), ("i", 1), ("b", 80)],
        &["i", "u", "b"],
        0,
    ),
    (
        Join::Later,
        &[("u", 70), ("i", 1), ("u", 70), ("b", 80)],
        &["i", "u", "b"],
        80,
    ),
    // the same nested in each other
    (Join::Descendant, &[("b", 90)], &["i", "b"], 0),
    (Join::Descendant, &[("i", 1), ("b", 90)], &["i", "b"], 90),
    (
        Join::Descendant,
        &[("b", 70), ("i", 1), ("b", 80)],
        &["i", "b"],
        80,
    ),
    (
        Join::Descendant,
        &[("i", 1), ("b", 70), ("u", 1), ("b", 80)],
        &["i", "u", "b"],
        80,
    ),
    (
        Join::Descendant,
        &[("u", 1), ("b", 70), ("i", 1), ("b", 80)],
        &["i", "u", "b"],
        0,
    ),
    (
        Join::Descendant,
        &[("u", 70), ("i", 1), ("u", 70), ("b", 80)],
        &["i", "u", "b"],
        80,
    ),
];

fn tree_of(alloc: Global, rows: &[Row]) -> Result<Option<Tree>, Memory> {
    let mut builder = TreeBuilder::new(alloc);
    let mut open = 0;
    for (depth, name, attr, value) in rows {
        for _ended in *depth..open {
            if builder.is_inside() {
                builder.end();
            }
        }
        if !builder.accepts_node() {
            return Ok(None);
        }
        if name.is_empty() {
            builder.text(Text::from_str(alloc, value)?)?;
            open = *depth;
        } else {
            let mut attrs = List::new(alloc);
            if !attr.is_empty() {
                attrs.push(Attr {
                    name: Text::from_str(alloc, attr)?,
                    value: Text::from_str(alloc, value)?,
                })?;
            }
            builder.start(Text::from_str(alloc, name)?, attrs)?;
            open = depth.saturating_add(1);
        }
    }
    for _ended in 0..open {
        if builder.is_inside() {
            builder.end();
        }
    }
    if builder.is_whole() {
        Ok(Some(builder.finish()))
    } else {
        Ok(None)
    }
}

/// The places, in tree order, of the nodes that the selector matches.
fn matched(alloc: Global, arena: &Arena, selector: &Selector) -> Result<Vec<usize>, Memory> {
    let mut places = Vec::new(alloc);
    let mut siblings = Siblings::new(alloc, arena);
    let mut at = arena.root();
    'walk: for place in 0..300 {
        if matches(&siblings, at, selector) {
            places.push(place)?;
        }
        siblings.keep(alloc, at);
        match arena.next_in_order(at) {
            Some(next) => at = next,
            None => break,
        }
    }
    Ok(places)
}

fn arena_of(alloc: Global) -> Result<Option<Arena>, Memory> {
    match tree_of(alloc, &DOCUMENT)? {
        Some(tree) if has_element_root(&tree) => Ok(Some(Arena::from_tree(alloc, &tree)?)),
        _ => Ok(None),
    }
}

fn start(alloc: Global, builder: &mut TreeBuilder, name: &str) -> Result<(), Memory> {
    if builder.accepts_node() {
        builder.start(Text::from_str(alloc, name)?, List::new(alloc))?;
    }
    Ok(())
}

fn end(builder: &mut TreeBuilder) {
    if builder.is_inside() {
        builder.end();
    }
}

/// So many elements of each name under a root, nested in each other where the combinator leads up, and else in a row.
fn crowd(alloc: Global, join: Join, names: &[(&str, usize)]) -> Result<Option<Arena>, Memory> {
    let mut builder = TreeBuilder::new(alloc);
    start(alloc, &mut builder, "r")?;
    for (name, count) in names {
        for _element in 0..*count {
            start(alloc, &mut builder, name)?;
            if join == Join::Later {
                end(&mut builder);
            }
        }
    }
    for _ended in 0..300 {
        end(&mut builder);
    }
    if !builder.is_whole() {
        return Ok(None);
    }
    let tree = builder.finish();
    if has_element_root(&tree) {
        Ok(Some(Arena::from_tree(alloc, &tree)?))
    } else {
        Ok(None)
    }
}

/// The selector of these names with this combinator between them.
fn joined(alloc: Global, join: Join, names: &[&str]) -> Result<Selector, Memory> {
    let mut compounds = List::new(alloc);
    let mut joins = List::new(alloc);
    for name in names {
        let mut simples = List::new(alloc);
        simples.push(Simple::Element(Text::from_str(alloc, name)?))?;
        compounds.push(Compound { simples })?;
        if compounds.len() > 1 {
            joins.push(join)?;
        }
    }
    Ok(Selector {
        compounds,
        joins,
        pseudo: PseudoElement::Own,
    })
}

fn bare(alloc: Global, compound_count: usize, join_count: usize) -> Result<Selector, Memory> {
    let mut compounds = List::new(alloc);
    for _compound in 0..compound_count {
        compounds.push(Compound {
            simples: List::new(alloc),
        })?;
    }
    let mut joins = List::new(alloc);
    for _join in 0..join_count {
        joins.push(Join::Child)?;
    }
    Ok(Selector {
        compounds,
        joins,
        pseudo: PseudoElement::Own,
    })
}

/// `ul > li:first-child::before`
fn first_item(alloc: Global) -> Result<Selector, Memory> {
    let mut list = List::new(alloc);
    list.push(Simple::Element(Text::from_str(alloc, "ul")?))?;
    let mut item = List::new(alloc);
    item.push(Simple::Element(Text::from_str(alloc, "li")?))?;
    item.push(Simple::Nth {
        a: 0,
        b: 1,
        from_end: false,
        same_type: false,
    })?;
    let mut compounds = List::new(alloc);
    compounds.push(Compound { simples: list })?;
    compounds.push(Compound { simples: item })?;
    let mut joins = List::new(alloc);
    joins.push(Join::Child)?;
    Ok(Selector {
        compounds,
        joins,
        pseudo: PseudoElement::Before,
    })
}

/// Whether the selector of this simple selector alone matches the nodes of these places.
fn is_matched(
    alloc: Global,
    arena: &Arena,
    simple: Simple,
    expected: &[usize],
) -> Result<bool, Memory> {
    let mut simples = List::new(alloc);
    simples.push(simple)?;
    let mut compounds = List::new(alloc);
    compounds.push(Compound { simples })?;
    let selector = Selector {
        compounds,
        joins: List::new(alloc),
        pseudo: PseudoElement::Own,
    };
    Ok(matched(alloc, arena, &selector)?.as_slice() == expected)
}

#[test]
fn a_selector_that_a_sheet_can_say(rt: HostRuntime) -> Result<(), Fail> {
    let alloc = rt.alloc();
    let Some(arena) = arena_of(alloc)? else {
        assert!(rt; false);
        return Ok(());
    };
    let selector = first_item(alloc)?;
    assert_eq!(rt;
        matched(alloc, &arena, &selector)?.as_slice(),
        [1].as_slice()
    );
    Ok(())
}

#[test]
fn shapes(rt: HostRuntime) -> Result<(), Fail> {
    let alloc = rt.alloc();
    let Some(arena) = arena_of(alloc)? else {
        assert!(rt; false);
        return Ok(());
    };
    for (row, (compounds, joins, expected)) in SHAPES.iter().enumerate() {
        let selector = bare(alloc, *compounds, *joins)?;
        let found = matched(alloc, &arena, &selector)?;
        assert!(rt; found.as_slice() == *expected, "row {row}");
    }
    Ok(())
}

#[test]
fn simple_selectors_that_no_sheet_has(rt: HostRuntime) -> Result<(), Fail> {
    let alloc = rt.alloc();
    let Some(arena) = arena_of(alloc)? else {
        assert!(rt; false);
        return Ok(());
    };
    let none = Simple::Is(List::new(alloc));
    assert!(rt; is_matched(alloc, &arena, none, &[])?);
    let all = Simple::Not(List::new(alloc));
    assert!(rt; is_matched(alloc, &arena, all, &[0, 1, 3])?);
    let no_class = Simple::Class(Text::new(alloc));
    assert!(rt; is_matched(alloc, &arena, no_class, &[])?);
    // a text without characters leaves its element empty, which no text of a document says
    assert!(rt; is_matched(alloc, &arena, Simple::Empty, &[1])?);
    Ok(())
}

#[test]
fn crowds(rt: HostRuntime) -> Result<(), Fail> {
    let alloc = rt.alloc();
    for (row, (join, names, selector, expected)) in CROWDS.iter().enumerate() {
        let Some(arena) = crowd(alloc, *join, names)? else {
            assert!(rt; false);
            return Ok(());
        };
        let selector = joined(alloc, *join, selector)?;
        assert_eq!(rt;
            matched(alloc, &arena, &selector)?.len(),
            *expected,
            "row {row}"
        );
    }
    Ok(())
}
