//! Hints, worked out by hand from the rules of HTML.

use crate::documents::{Attribute, arena_of};
use crate::style_notes::push_hints;
use mini_cascade::hints::hints;
use plain_types::memory::Memory;
use plain_types::text::Text;
use std::alloc::Global;
use std::test::Fail;

/// An element, an attribute with its value, and what it says.
type Hint = (&'static str, &'static str, &'static str, &'static str);

/// `start`: white space, a sign and digits, whatever follows.
static STARTS: [Hint; 18] = [
    ("ol", "start", "3", "reset list-item 2; "),
    ("ol", "start", "x", ""),
    ("ol", "start", "", ""),
    ("ol", "start", " ", ""),
    ("ol", "start", " +3z", "reset list-item 2; "),
    ("ol", "start", "\t\n\u{c}\r 5", "reset list-item 4; "),
    ("ol", "start", "\u{b}5", ""),
    ("ol", "start", "\u{a0}5", ""),
    ("ol", "start", "-3", "reset list-item -4; "),
    ("ol", "start", "- 3", ""),
    ("ol", "start", "+-3", ""),
    ("ol", "start", "--3", ""),
    ("ol", "start", "+", ""),
    ("ol", "start", "0", "reset list-item -1; "),
    ("ol", "start", "007", "reset list-item 6; "),
    ("ol", "start", "1.9", "reset list-item 0; "),
    ("ol", "start", "1e3", "reset list-item 0; "),
    ("ol", "start", "\u{ff13}", ""),
];

/// The ends of 32 bits, which are none, and those of counts.
static ENDS: [Hint; 9] = [
    ("ol", "start", "2147483648", "reset list-item 2147483647; "),
    (
        "ol",
        "start",
        "-2147483648",
        "reset list-item -2147483649; ",
    ),
    (
        "ol",
        "start",
        "9223372036854775807",
        "reset list-item 9223372036854775806; ",
    ),
    (
        "ol",
        "start",
        "9223372036854775808",
        "reset list-item 9223372036854775806; ",
    ),
    (
        "ol",
        "start",
        "18446744073709551616",
        "reset list-item 9223372036854775806; ",
    ),
    (
        "ol",
        "start",
        "99999999999999999999",
        "reset list-item 9223372036854775806; ",
    ),
    (
        "ol",
        "start",
        "-9223372036854775807",
        "reset list-item -9223372036854775808; ",
    ),
    (
        "ol",
        "start",
        "-9223372036854775808",
        "reset list-item -9223372036854775808; ",
    ),
    (
        "ol",
        "start",
        "-99999999999999999999",
        "reset list-item -9223372036854775808; ",
    ),
];

static OTHERS: [Hint; 13] = [
    // `reversed`, whatever its value
    ("ol", "reversed", "reversed", "reset reversed list-item; "),
    ("ol", "reversed", "", "reset reversed list-item; "),
    ("ol", "reversed", "false", "reset reversed list-item; "),
    ("ul", "reversed", "", ""),
    ("ul", "start", "3", ""),
    ("li", "start", "3", ""),
    // `value`
    ("li", "value", "10", "set list-item 10; "),
    ("li", "value", " -7 apples", "set list-item -7; "),
    ("li", "value", "ten", ""),
    ("li", "value", "2147483648", "set list-item 2147483648; "),
    (
        "li",
        "value",
        "9223372036854775808",
        "set list-item 9223372036854775807; ",
    ),
    (
        "li",
        "value",
        "-9223372036854775809",
        "set list-item -9223372036854775808; ",
    ),
    ("ol", "value", "10", ""),
];

/// `type`: numbers as written, others in any ASCII case.
static TYPES: [Hint; 13] = [
    ("ol", "type", "1", "type decimal; "),
    ("ol", "type", "a", "type lower-alpha; "),
    ("ol", "type", "A", "type upper-alpha; "),
    ("li", "type", "i", "type lower-roman; "),
    ("li", "type", "I", "type upper-roman; "),
    ("ol", "type", "disc", ""),
    ("ul", "type", "A", ""),
    ("ul", "type", "Square", "type square; "),
    ("ul", "type", "NONE", "type none; "),
    ("li", "type", "Circle", "type circle; "),
    ("li", "type", " disc", ""),
    ("menu", "type", "disc", ""),
    ("OL", "type", "1", ""),
];

/// Attributes of an `ol`, and what they say together.
type Reversed = (&'static [Attribute], &'static str);

/// The counter of a reversed list is reset to one more than its start.
static REVERSED: [Reversed; 5] = [
    (
        &[("reversed", ""), ("start", "3")],
        "reset reversed list-item 4; ",
    ),
    (
        &[("reversed", ""), ("start", "2147483647")],
        "reset reversed list-item 2147483648; ",
    ),
    (
        &[("reversed", ""), ("start", "9223372036854775807")],
        "reset reversed list-item 9223372036854775807; ",
    ),
    (
        &[("reversed", ""), ("start", "-1")],
        "reset reversed list-item 0; ",
    ),
    (&[("reversed", "")], "reset reversed list-item; "),
];

/// The hints of an element with these attributes, in a list.
fn told(alloc: Global, name: &str, attributes: &[Attribute]) -> Result<Option<Text>, Memory> {
    let Some(arena) = arena_of(alloc, &[], name, attributes)? else {
        return Ok(None);
    };
    let Some(item) = arena.child(arena.root(), 0) else {
        return Ok(None);
    };
    let found = hints(alloc, &arena, item)?;
    let mut out = Text::new(alloc);
    push_hints(found.as_slice(), &mut out)?;
    Ok(Some(out))
}

/// The place of the first row whose hints are others; none where each is as it says.
fn first_wrong(alloc: Global, table: &[Hint]) -> Result<Option<usize>, Memory> {
    for (place, (name, attr, value, expected)) in table.iter().enumerate() {
        match told(alloc, name, &[(*attr, *value)])? {
            Some(found) if found.as_str() == *expected => {}
            _ => return Ok(Some(place)),
        }
    }
    Ok(None)
}

#[test]
fn hints_are_those_of_the_attributes(rt: HostRuntime) -> Result<(), Fail> {
    assert_eq!(rt; first_wrong(rt.alloc(), &STARTS)?, None);
    assert_eq!(rt; first_wrong(rt.alloc(), &ENDS)?, None);
    assert_eq!(rt; first_wrong(rt.alloc(), &OTHERS)?, None);
    assert_eq!(rt; first_wrong(rt.alloc(), &TYPES)?, None);
    Ok(())
}

/// The same for a list with the attributes of each row.
fn first_wrong_reset(alloc: Global, table: &[Reversed]) -> Result<Option<usize>, Memory> {
    for (place, (attributes, expected)) in table.iter().enumerate() {
        match told(alloc, "ol", attributes)? {
            Some(found) if found.as_str() == *expected => {}
            _ => return Ok(Some(place)),
        }
    }
    Ok(None)
}

#[test]
fn reversed_lists_start_one_higher(rt: HostRuntime) -> Result<(), Fail> {
    assert_eq!(rt; first_wrong_reset(rt.alloc(), &REVERSED)?, None);
    Ok(())
}
