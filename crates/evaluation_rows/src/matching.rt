//! Selectors over documents, as they stand in sheets, worked out by hand.

use crate::cascade::arena_of;
use css_reader::sheet::read_sheet;
use plain_types::memory::Memory;
use plain_types::selector::Selector;
use plain_types::text::Text;
use selector_match::matching::matches;
use selector_match::siblings::Siblings;
use std::alloc::Global;
use std::test::Fail;

/// A selector, and the elements that it matches: their attributes `n`, in tree order.
type Selected = (&'static str, &'static str);

const DOCUMENT: &str = r#"<body n="a">
<h1 n="b" id="top">Title</h1><p n="c" class="a&#9;b  ab"/> <P n="d" lang="en-US"/><ul n="e" title="OneéTwo"><li n="f" class="A"> </li>between<li n="g"><b n="h"/></li><li n="i" class=""/></ul><p n="j">z</p></body>"#;

static NAMES: [Selected; 21] = [
    // names, ids and classes count as they are written
    ("*", "abcdefghij"),
    ("p", "cj"),
    ("P", "d"),
    ("pp", ""),
    ("#top", "b"),
    ("#Top", ""),
    ("#to", ""),
    (".a", "c"),
    (".b", "c"),
    (".ab", "c"),
    (".A", "f"),
    // no word has a blank in it
    (r".a\20 b", ""),
    (r".a\9 b", ""),
    ("p.a", "c"),
    ("p.A", ""),
    // pseudo-classes without an argument; white space is text
    (":root", "a"),
    (":empty", "cdhi"),
    ("li:empty", "i"),
    (":hover", ""),
    (":link", ""),
    (":not(:focus)", "abcdefghij"),
];

/// Positions count elements alone, and the root is the first of one.
static POSITIONS: [Selected; 20] = [
    (":only-child", "ah"),
    (":only-of-type", "abdeh"),
    (":first-child", "abfh"),
    (":last-child", "ahij"),
    (":first-of-type", "abcdefh"),
    (":last-of-type", "abdehij"),
    (":nth-child(odd)", "abdfhij"),
    (":nth-child(even)", "ceg"),
    (":nth-child(-n+2)", "abcfgh"),
    (":nth-child(3)", "di"),
    (":nth-last-child(2)", "eg"),
    (":nth-of-type(2)", "gj"),
    (":nth-last-of-type(2)", "cg"),
    (":nth-child(3n-1)", "cgj"),
    (":nth-child(-3n-1)", ""),
    (":nth-child(0)", ""),
    (":nth-child(n-5)", "abcdefghij"),
    // at the ends of 32 bits
    (":nth-child(2147483647n+1)", "abfh"),
    (":nth-child(-2147483648n+2147483647)", ""),
    (":nth-child(-2147483648n-2147483648)", ""),
];

static LISTS: [Selected; 6] = [
    (":is(p,ul)", "cej"),
    (":where(p,ul)", "cej"),
    (":not(li,p)", "abdeh"),
    (":not(:is(p))", "abdefghi"),
    (":is(li:empty,:root)", "ai"),
    ("li:not(.A):nth-child(n+2)", "gi"),
];

static COMBINATORS: [Selected; 24] = [
    ("ul li", "fgi"),
    ("body b", "h"),
    ("b b", ""),
    ("body>p", "cj"),
    ("body>li", ""),
    ("body>ul>li>b", "h"),
    ("h1+p", "c"),
    ("p+P", "d"),
    ("p+ul", ""),
    ("li+li", "gi"),
    ("h1~p", "cj"),
    ("h1~ul", "e"),
    ("li~li", "gi"),
    ("p~h1", ""),
    // several in a row
    ("p+P~p", "j"),
    ("h1~ul>li+li", "gi"),
    ("h1+ul li", ""),
    ("P+ul b", "h"),
    ("body * li", "fgi"),
    ("* * * b", "h"),
    ("* * * * b", ""),
    ("li+li~li", "i"),
    ("h1~* b", "h"),
    (":root>*>*>b", "h"),
];

static ATTRIBUTES: [Selected; 31] = [
    ("[lang]", "d"),
    ("[Lang]", ""),
    ("[lang=en-US]", "d"),
    ("[lang=en-us]", ""),
    ("[lang=EN-us i]", "d"),
    (r#"[class=""]"#, "i"),
    ("[class~=b]", "c"),
    (r#"[class~=""]"#, ""),
    (r#"[class~="a\9 b"]"#, ""),
    ("[class~=a i]", "cf"),
    ("[class~=a s]", "c"),
    // the value itself, or its front and a `-`
    ("[lang|=en]", "d"),
    ("[lang|=en-US]", "d"),
    ("[lang|=e]", ""),
    (r#"[lang|="en-"]"#, ""),
    ("[lang|=EN i]", "d"),
    (r#"[class|=""]"#, "i"),
    ("[title^=One]", "e"),
    ("[title^=ne]", ""),
    (r#"[title^=""]"#, ""),
    ("[lang^=en-US-x]", ""),
    ("[title^=oNEé i]", "e"),
    ("[title$=éTwo]", "e"),
    ("[title$=Tw]", ""),
    (r#"[title$=""]"#, ""),
    ("[lang$=xen-US]", ""),
    ("[title*=eéT]", "e"),
    ("[title*=two]", ""),
    ("[title*=two i]", "e"),
    // the case of ASCII letters alone
    ("[title*=É i]", ""),
    (r#"[title*=""]"#, ""),
];

const SMALL: &str = r#"<div n="a"><p n="b" class="a"/><p n="c"/></div>"#;

static SMALL_ROWS: [Selected; 4] = [
    ("p:last-child", "c"),
    ("div > p + p", "c"),
    (".a ~ p", "c"),
    ("p:nth-child(-n+1)", "b"),
];

/// Rows and their cells: in tree order the elements with a common parent do not come one after the other.
const TABLE: &str =
    r#"<table n="a"><tr n="b"><td n="c"/><th n="d"/><td n="e"/></tr><tr n="f"><td n="g"/><td n="h"/></tr>x<tr n="i"><th n="j"/><td n="k"/></tr></table>"#;

static TABLE_ROWS: [Selected; 10] = [
    ("tr:nth-child(2)", "f"),
    (":nth-child(2)", "dfhk"),
    (":nth-last-child(2)", "dfgj"),
    ("td:nth-of-type(2)", "eh"),
    ("td:nth-last-of-type(1)", "ehk"),
    ("th:only-of-type", "dj"),
    ("td:only-of-type", "k"),
    (":only-child", "a"),
    // the positions of a row, asked for at each of its cells
    ("tr:nth-child(odd) > td:nth-child(odd)", "ce"),
    ("tr:last-child td:first-of-type", "k"),
];

/// The attributes `n` of the elements that the selector matches; `text` for a text.
fn matched(
    alloc: Global,
    siblings: &mut Siblings<'_>,
    selector: &Selector,
) -> Result<Text, Memory> {
    let arena = siblings.arena();
    let mut names = Text::new(alloc);
    let mut at = arena.root();
    'walk: for _place in 0..100 {
        if matches(siblings, at, selector) {
            names.push_str(arena.attr(at, "n").unwrap_or("text"))?;
        }
        siblings.keep(alloc, at);
        match arena.next_in_order(at) {
            Some(next) => at = next,
            None => break,
        }
    }
    Ok(names)
}

/// What the one selector of this text matches; none where it has no reading.
fn selected(
    alloc: Global,
    siblings: &mut Siblings<'_>,
    text: &str,
) -> Result<Option<Text>, Memory> {
    let rule = format!(in alloc; "{text}{{}}")?;
    let sheet = read_sheet(alloc, rule.as_str())?;
    let Some(rule) = sheet.rules.as_slice().first() else {
        return Ok(None);
    };
    match rule.selectors.as_slice() {
        [selector] => matched(alloc, siblings, selector).map(Some),
        _ => Ok(None),
    }
}

/// The first selector that has no reading or matches something else; none where each matches what it says.
fn first_wrong(
    alloc: Global,
    document: &str,
    table: &[Selected],
) -> Result<Option<&'static str>, Fail> {
    let arena = arena_of(alloc, document)?.ok_or("no document")?;
    let mut siblings = Siblings::new(alloc, &arena);
    for (selector, expected) in table {
        match selected(alloc, &mut siblings, selector)? {
            Some(names) if names.as_str() == *expected => {}
            _ => return Ok(Some(selector)),
        }
    }
    Ok(None)
}

#[test]
fn names_and_positions(rt: HostRuntime) -> Result<(), Fail> {
    assert_eq!(rt; first_wrong(rt.alloc(), DOCUMENT, &NAMES)?, None);
    assert_eq!(rt; first_wrong(rt.alloc(), DOCUMENT, &POSITIONS)?, None);
    assert_eq!(rt; first_wrong(rt.alloc(), TABLE, &TABLE_ROWS)?, None);
    Ok(())
}

#[test]
fn lists_and_combinators(rt: HostRuntime) -> Result<(), Fail> {
    assert_eq!(rt; first_wrong(rt.alloc(), DOCUMENT, &LISTS)?, None);
    assert_eq!(rt; first_wrong(rt.alloc(), DOCUMENT, &COMBINATORS)?, None);
    assert_eq!(rt; first_wrong(rt.alloc(), SMALL, &SMALL_ROWS)?, None);
    Ok(())
}

#[test]
fn attributes(rt: HostRuntime) -> Result<(), Fail> {
    assert_eq!(rt; first_wrong(rt.alloc(), DOCUMENT, &ATTRIBUTES)?, None);
    Ok(())
}
