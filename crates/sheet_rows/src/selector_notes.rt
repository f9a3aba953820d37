//! Selectors as short texts.

use crate::pushing::{push_all, push_number};
use plain_types::memory::Memory;
use plain_types::selector::{Compound, Selector, Simple};
use plain_types::selector_parts::{AttrTest, Join, PseudoElement};
use plain_types::text::Text;

fn test_sign(test: &AttrTest) -> &'static str {
    match test {
        AttrTest::Present => "",
        AttrTest::Equal => "=",
        AttrTest::Word => "~=",
        AttrTest::Dash => "|=",
        AttrTest::Start => "^=",
        AttrTest::End => "$=",
        AttrTest::Inside => "*=",
    }
}

fn nth_word(from_end: bool, same_type: bool) -> &'static str {
    match (from_end, same_type) {
        (false, false) => ":nth-child(",
        (true, false) => ":nth-last-child(",
        (false, true) => ":nth-of-type(",
        (true, true) => ":nth-last-of-type(",
    }
}

fn push_value(test: &AttrTest, value: &str, fold: bool, out: &mut Text) -> Result<(), Memory> {
    out.push_str(test_sign(test))?;
    push_all(&["'", value, "'"], out)?;
    out.push_str(if fold { " i" } else { "" })
}

fn push_attr(
    name: &str,
    test: &AttrTest,
    value: &str,
    fold: bool,
    out: &mut Text,
) -> Result<(), Memory> {
    push_all(&["[", name], out)?;
    if *test != AttrTest::Present {
        push_value(test, value, fold, out)?;
    }
    out.push(']')
}

#[cycle(push)]
fn push_simple(simple: &Simple, out: &mut Text) -> Result<(), Memory> {
    match simple {
        Simple::Any => out.push('*'),
        Simple::Element(name) => out.push_str(name.as_str()),
        Simple::Id(name) => push_all(&["#", name.as_str()], out),
        Simple::Class(name) => push_all(&[".", name.as_str()], out),
        Simple::Root => out.push_str(":root"),
        Simple::Empty => out.push_str(":empty"),
        Simple::Never => out.push_str(":never"),
        Simple::Attr {
            name,
            test,
            value,
            fold,
        } => push_attr(name.as_str(), test, value.as_str(), *fold, out),
        Simple::Only { same_type: false } => out.push_str(":only-child"),
        Simple::Only { same_type: true } => out.push_str(":only-of-type"),
        Simple::Nth {
            a,
            b,
            from_end,
            same_type,
        } => push_nth(nth_word(*from_end, *same_type), *a, *b, out),
        Simple::Is(choices) => push_choices(":is(", choices.as_slice(), out),
        Simple::Weightless(choices) => push_choices(":where(", choices.as_slice(), out),
        Simple::Not(choices) => push_choices(":not(", choices.as_slice(), out),
    }
}

fn push_nth(word: &str, a: i32, b: i32, out: &mut Text) -> Result<(), Memory> {
    out.push_str(word)?;
    push_number(a, out)?;
    out.push(' ')?;
    push_number(b, out)?;
    out.push(')')
}

#[cycle(push)]
fn push_choices(front: &str, choices: &[Compound], out: &mut Text) -> Result<(), Memory> {
    out.push_str(front)?;
    let mut is_first = true;
    for compound in choices {
        if !is_first {
            out.push_str(", ")?;
        }
        push_compound(compound, out)?;
        is_first = false;
    }
    out.push(')')
}

#[cycle(push)]
fn push_compound(compound: &Compound, out: &mut Text) -> Result<(), Memory> {
    push_simples(compound.simples.as_slice(), out)
}

#[cycle(push)]
fn push_simples(simples: &[Simple], out: &mut Text) -> Result<(), Memory> {
    for simple in simples {
        push_simple(simple, out)?;
    }
    Ok(())
}

pub fn join_sign(join: Join) -> &'static str {
    match join {
        Join::Descendant => " ",
        Join::Child => " > ",
        Join::Next => " + ",
        Join::Later => " ~ ",
    }
}

pub fn pseudo_word(pseudo: PseudoElement) -> &'static str {
    match pseudo {
        PseudoElement::Own => "",
        PseudoElement::Marker => "::marker",
        PseudoElement::Before => "::before",
        PseudoElement::After => "::after",
        PseudoElement::Never => "::never",
    }
}

fn push_selector(selector: &Selector, out: &mut Text) -> Result<(), Memory> {
    let mut joins = selector.joins.as_slice().iter();
    for compound in selector.compounds.as_slice() {
        push_compound(compound, out)?;
        if let Some(join) = joins.next() {
            out.push_str(join_sign(*join))?;
        }
    }
    out.push_str(pseudo_word(selector.pseudo))
}

pub fn push_selectors(selectors: &[Selector], out: &mut Text) -> Result<(), Memory> {
    let mut between = "";
    for selector in selectors {
        out.push_str(between)?;
        push_selector(selector, out)?;
        between = ", ";
    }
    Ok(())
}
