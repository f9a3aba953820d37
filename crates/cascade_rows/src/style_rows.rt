//! Styles of a list item in a numbered list, worked out by hand from the rules of the cascade.

use crate::documents::Attribute;
use crate::styling::{Rule, Whose, is_styled};
use plain_types::memory::Memory;
use std::test::Fail;

/// Rules, and in what the styles of the `li` in `<ol><li id="b"/></ol>` differ from initial values.
type Row = (&'static [Rule], &'static str);

/// Specificity and order.
static ORDER: [Row; 12] = [
    (&[], ""),
    (
        &[(Whose::Author, "li", "display", "list-item")],
        "display list-item; ",
    ),
    // of equals the last
    (
        &[
            (Whose::Author, "li", "display", "none"),
            (Whose::Author, "li", "display", "list-item"),
        ],
        "display list-item; ",
    ),
    // specificity before order: ids, then classes, then types, and no sum of them
    (
        &[
            (Whose::Author, "#b", "display", "none"),
            (Whose::Author, "li", "display", "list-item"),
        ],
        "display none; ",
    ),
    (
        &[
            (Whose::Author, "#b", "display", "none"),
            (
                Whose::Author,
                "li[id][id][id][id][id][id][id][id][id][id][id]",
                "display",
                "list-item",
            ),
        ],
        "display none; ",
    ),
    (
        &[
            (Whose::Author, "[id]", "display", "none"),
            (Whose::Author, "ol > li", "display", "list-item"),
        ],
        "display none; ",
    ),
    (
        &[
            (Whose::Author, "ol li", "display", "none"),
            (Whose::Author, "li", "display", "list-item"),
        ],
        "display none; ",
    ),
    (
        &[
            (Whose::Author, "li", "display", "none"),
            (Whose::Author, ":where(#b)", "display", "list-item"),
        ],
        "display none; ",
    ),
    // of a rule's selectors the most specific that matches
    (
        &[
            (Whose::Author, "#x, li", "display", "none"),
            (Whose::Author, "[id]", "display", "list-item"),
        ],
        "display list-item; ",
    ),
    (
        &[
            (Whose::Author, "#b, li", "display", "none"),
            (Whose::Author, "[id]", "display", "list-item"),
        ],
        "display none; ",
    ),
    (
        &[
            (Whose::Author, "li::before, #b", "display", "none"),
            (Whose::Author, "[id]::before", "display", "list-item"),
        ],
        "display none; ::before display list-item; ",
    ),
    (&[(Whose::Author, "ul, p > li", "display", "none")], ""),
];

static ORIGINS: [Row; 5] = [
    // origins before specificity
    (
        &[
            (Whose::Agent, "#b", "display", "none"),
            (Whose::Author, "*", "display", "list-item"),
        ],
        "display list-item; ",
    ),
    // what is important before both, in the author's sheet alone
    (
        &[
            (Whose::AuthorImportant, "*", "display", "none"),
            (Whose::Author, "#b", "display", "list-item"),
        ],
        "display none; ",
    ),
    (
        &[
            (Whose::AuthorImportant, "#b", "display", "none"),
            (Whose::AuthorImportant, "li", "display", "list-item"),
        ],
        "display none; ",
    ),
    (
        &[
            (Whose::AuthorImportant, "li", "display", "none"),
            (Whose::AuthorImportant, "li", "display", "list-item"),
        ],
        "display list-item; ",
    ),
    (
        &[
            (Whose::AgentImportant, "#b", "display", "none"),
            (Whose::Author, "*", "display", "list-item"),
        ],
        "display list-item; ",
    ),
];

/// The same for an `li` with another attribute.
type Hinted = (Attribute, &'static [Rule], &'static str);

/// A hint stands above the user agent's rules and below each of the author's.
static HINTED: [Hinted; 4] = [
    (
        ("type", "square"),
        &[(Whose::Agent, "li", "list-style-type", "disc")],
        "type square; ::marker type square; ::before type square; ::after type square; ",
    ),
    (
        ("type", "square"),
        &[(Whose::Author, "*", "list-style-type", "disc")],
        "",
    ),
    (
        ("value", "7"),
        &[(Whose::Author, ":where(li)", "counter-set", "c 1")],
        "set c 1; ",
    ),
    (("value", "7"), &[], "set list-item 7; "),
];

static INHERITED: [Row; 10] = [
    // inherited properties, into the pseudo-elements too
    (
        &[(Whose::Author, "ol", "list-style-type", "square")],
        "type square; ::marker type square; ::before type square; ::after type square; ",
    ),
    (
        &[(Whose::Author, "li", "quotes", "none")],
        "quotes none; ::marker quotes none; ::before quotes none; ::after quotes none; ",
    ),
    (
        &[
            (Whose::Author, "ol", "quotes", "none"),
            (Whose::Author, "li", "quotes", "auto"),
        ],
        "",
    ),
    (
        &[
            (Whose::Author, "ol", "list-style", "inside"),
            (Whose::Author, "li::before", "list-style-type", "\"x\""),
        ],
        "::before type 'x'; ",
    ),
    // the others are not
    (&[(Whose::Author, "ol", "display", "none")], ""),
    (&[(Whose::Author, "ol", "content", "\"x\"")], ""),
    (&[(Whose::Author, "ol", "counter-reset", "c")], ""),
    (
        &[(Whose::Author, "li", "content", "\"x\"")],
        "content 'x'; ",
    ),
    // unless they are told to
    (
        &[
            (Whose::Author, "ol", "counter-reset", "c 3"),
            (Whose::Author, "li", "counter-reset", "inherit"),
        ],
        "reset c 3; ",
    ),
    (
        &[
            (Whose::Author, "li", "content", "\"x\""),
            (Whose::Author, "li::marker", "content", "inherit"),
        ],
        "content 'x'; ::marker content 'x'; ",
    ),
];

static DEFAULTS: [Row; 4] = [
    // what the root inherits is initial
    (
        &[
            (Whose::Author, "ol", "display", "inherit"),
            (Whose::Author, "li", "display", "inherit"),
        ],
        "",
    ),
    // `unset` both ways, and `initial`
    (
        &[
            (Whose::Author, "ol", "list-style-type", "\"x\""),
            (Whose::Author, "li", "list-style-type", "unset"),
            (Whose::Author, "ol", "display", "none"),
            (Whose::Author, "li", "display", "unset"),
        ],
        "type 'x'; ::marker type 'x'; ::before type 'x'; ::after type 'x'; ",
    ),
    (
        &[
            (Whose::Author, "ol", "list-style-type", "square"),
            (Whose::Author, "li", "list-style-type", "initial"),
        ],
        "",
    ),
    (
        &[
            (Whose::Author, "li", "display", "none"),
            (Whose::Author, "#b", "display", "initial"),
        ],
        "",
    ),
];

static PSEUDO_ELEMENTS: [Row; 3] = [
    // pseudo-elements: of `::marker` only the content
    (
        &[
            (Whose::Author, "li::marker", "quotes", "none"),
            (
                Whose::AuthorImportant,
                "li::marker",
                "list-style-type",
                "square",
            ),
            (Whose::Author, "li::marker", "counter-reset", "c"),
            (Whose::Author, "li::marker", "display", "none"),
            (Whose::Author, "li::marker", "content", "\"y\""),
        ],
        "::marker content 'y'; ",
    ),
    (
        &[
            (Whose::Author, "li::before", "counter-increment", "c 2"),
            (Whose::Author, "li:after", "display", "none"),
            (Whose::Author, "li::after", "quotes", "none"),
        ],
        "::before increment c 2; ::after display none; ::after quotes none; ",
    ),
    (&[(Whose::Author, "li::first-line", "display", "none")], ""),
];

/// The place of the first row whose styles are others; none where each is as it says.
fn first_wrong(rt: &HostRuntime, table: &[Row]) -> Result<Option<usize>, Memory> {
    for (place, (rules, expected)) in table.iter().enumerate() {
        if !is_styled(rt, &[], &[("id", "b")], rules, expected)? {
            return Ok(Some(place));
        }
    }
    Ok(None)
}

#[test]
fn the_greatest_declaration_holds(rt: HostRuntime) -> Result<(), Fail> {
    assert_eq!(rt; first_wrong(&rt, &ORDER)?, None);
    assert_eq!(rt; first_wrong(&rt, &ORIGINS)?, None);
    Ok(())
}

#[test]
fn others_are_inherited_or_initial(rt: HostRuntime) -> Result<(), Fail> {
    assert_eq!(rt; first_wrong(&rt, &INHERITED)?, None);
    assert_eq!(rt; first_wrong(&rt, &DEFAULTS)?, None);
    assert_eq!(rt; first_wrong(&rt, &PSEUDO_ELEMENTS)?, None);
    Ok(())
}

/// The same for the attribute of each row.
fn first_wrong_hint(rt: &HostRuntime, table: &[Hinted]) -> Result<Option<usize>, Memory> {
    for (place, (attr, rules, expected)) in table.iter().enumerate() {
        if !is_styled(rt, &[], &[*attr], rules, expected)? {
            return Ok(Some(place));
        }
    }
    Ok(None)
}

#[test]
fn hints_stand_between_the_sheets(rt: HostRuntime) -> Result<(), Fail> {
    assert_eq!(rt; first_wrong_hint(&rt, &HINTED)?, None);
    Ok(())
}
