//! Styles of a list item with a `style` attribute, worked out by hand from the rules of the cascade.

use crate::documents::Attribute;
use crate::styling::{Rule, Whose, is_styled};
use plain_types::memory::Memory;
use std::test::Fail;

/// A `style` attribute, rules, and in what the styles of the `li` in `<ol><li id="b" style=".."/></ol>` differ
/// from initial values.
type Row = (&'static str, &'static [Rule], &'static str);

static RANKED: [Row; 11] = [
    // an important rule is above a normal declaration of the attribute
    (
        "display: list-item",
        &[(Whose::AuthorImportant, "*", "display", "none")],
        "display none; ",
    ),
    // which is above every normal rule, an id's too
    (
        "display: list-item",
        &[(Whose::Author, "#b", "display", "none")],
        "display list-item; ",
    ),
    (
        "display: list-item",
        &[(Whose::Author, "ol > li#b[style]", "display", "none")],
        "display list-item; ",
    ),
    (
        "display: list-item",
        &[(Whose::AgentImportant, "#b", "display", "none")],
        "display list-item; ",
    ),
    // an important one of the attribute is above all rules
    (
        "display: list-item !important",
        &[(Whose::AuthorImportant, "#b", "display", "none")],
        "display list-item; ",
    ),
    (
        "display: list-item !important",
        &[(Whose::Author, "#b", "display", "none")],
        "display list-item; ",
    ),
    // of two in the attribute the later, and the important one before the normal one
    (
        "display: none; display: list-item",
        &[(Whose::Author, "#b", "display", "none")],
        "display list-item; ",
    ),
    (
        "display: none !important; display: list-item",
        &[],
        "display none; ",
    ),
    (
        "display: none !important; display: list-item !important",
        &[],
        "display list-item; ",
    ),
    // keywords of every property
    (
        "display: initial",
        &[(Whose::Author, "#b", "display", "none")],
        "",
    ),
    // each property for itself
    (
        "display: list-item",
        &[
            (Whose::Author, "li", "display", "none"),
            (Whose::Author, "li", "counter-set", "c 1"),
        ],
        "display list-item; set c 1; ",
    ),
];

/// The attribute is of the element alone; its pseudo-elements inherit from it.
static PSEUDO_ELEMENTS: [Row; 4] = [
    (
        "display: none; content: 'x'",
        &[],
        "display none; content 'x'; ",
    ),
    (
        "display: none !important; content: 'x' !important",
        &[
            (Whose::Author, "li::marker", "content", "'m'"),
            (Whose::Author, "li::before", "content", "'b'"),
            (Whose::Author, "li::after", "content", "'a'"),
        ],
        "display none; content 'x'; ::marker content 'm'; ::before content 'b'; ::after content 'a'; ",
    ),
    (
        "content: 'x'",
        &[(Whose::Author, "li::marker", "content", "inherit")],
        "content 'x'; ::marker content 'x'; ",
    ),
    (
        "list-style-type: square",
        &[(Whose::Author, "li::before", "list-style-type", "disc")],
        "type square; ::marker type square; ::after type square; ",
    ),
];

/// What is not understood is left out.
static BROKEN: [Row; 8] = [
    (
        "",
        &[(Whose::Author, "li", "display", "none")],
        "display none; ",
    ),
    (
        "display: list-item; display; display: ; display: 3; display: none none; 3: none; : none",
        &[],
        "display list-item; ",
    ),
    (
        "display: list-item; display: none !importan; display: none ! 3",
        &[],
        "display list-item; ",
    ),
    (
        "color: red; display: none; float: left",
        &[],
        "display none; ",
    ),
    (
        "display: list-item; } display: none",
        &[],
        "display list-item; ",
    ),
    ("}; display: none", &[], "display none; "),
    ("display: none/*; display: list-item", &[], "display none; "),
    (";;content:'a;b';", &[], "content 'a;b'; "),
];

/// Attributes of the `ol` and of the `li` in `<ol><li/></ol>`, rules, and in what the styles of the `li` differ from
/// initial values.
type Placed = (
    &'static [Attribute],
    &'static [Attribute],
    &'static [Rule],
    &'static str,
);

static PLACED: [Placed; 9] = [
    // what the list's attribute says is inherited where the property is
    (
        &[("style", "list-style-type: square")],
        &[],
        &[],
        "type square; ::marker type square; ::before type square; ::after type square; ",
    ),
    (
        &[("style", "display: none; content: 'x'; counter-reset: c 3")],
        &[],
        &[],
        "",
    ),
    (
        &[("style", "counter-reset: c 3")],
        &[("style", "counter-reset: inherit")],
        &[],
        "reset c 3; ",
    ),
    // and gives way to what is declared of the item, however weak that is
    (
        &[("style", "list-style-type: square !important")],
        &[],
        &[(Whose::Agent, "li", "list-style-type", "disc")],
        "",
    ),
    (
        &[("style", "list-style-type: square")],
        &[("style", "list-style-type: disc")],
        &[],
        "",
    ),
    // hints are below the attribute
    (
        &[],
        &[
            ("type", "square"),
            ("value", "7"),
            ("style", "list-style-type: '-'; counter-set: c 1"),
        ],
        &[],
        "set c 1; type '-'; ::marker type '-'; ::before type '-'; ::after type '-'; ",
    ),
    (
        &[],
        &[
            ("style", "list-style-type: '-'"),
            ("type", "square"),
            ("value", "7"),
        ],
        &[(Whose::AuthorImportant, "li", "list-style-type", "disc")],
        "set list-item 7; ",
    ),
    (
        &[],
        &[("value", "7"), ("style", "display: list-item")],
        &[],
        "display list-item; set list-item 7; ",
    ),
    // names of attributes count as they are written
    (&[], &[("STYLE", "display: none")], &[], ""),
];

/// The place of the first row whose styles are others; none where each is as it says.
fn first_wrong(rt: &HostRuntime, table: &[Row]) -> Result<Option<usize>, Memory> {
    for (place, (style, rules, expected)) in table.iter().enumerate() {
        let item = [("id", "b"), ("style", *style)];
        if !is_styled(rt, &[], &item, rules, expected)? {
            return Ok(Some(place));
        }
    }
    Ok(None)
}

#[test]
fn attributes_stand_above_rules(rt: HostRuntime) -> Result<(), Fail> {
    assert_eq!(rt; first_wrong(&rt, &RANKED)?, None);
    assert_eq!(rt; first_wrong(&rt, &PSEUDO_ELEMENTS)?, None);
    assert_eq!(rt; first_wrong(&rt, &BROKEN)?, None);
    Ok(())
}

/// The same for the attributes of each row.
fn first_misplaced(rt: &HostRuntime, table: &[Placed]) -> Result<Option<usize>, Memory> {
    for (place, (list, item, rules, expected)) in table.iter().enumerate() {
        if !is_styled(rt, list, item, rules, expected)? {
            return Ok(Some(place));
        }
    }
    Ok(None)
}

#[test]
fn attributes_stand_on_lists_and_items(rt: HostRuntime) -> Result<(), Fail> {
    assert_eq!(rt; first_misplaced(&rt, &PLACED)?, None);
    Ok(())
}
