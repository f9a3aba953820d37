//! Declarations, worked out by hand from the grammars of the properties.

use crate::value_notes::push_declaration;
use css_tokens::lexer::tokens;
use css_tokens::sheet_text::prepare_text;
use css_values::declarations::read_declaration;
use plain_types::memory::Memory;
use plain_types::text::Text;
use std::alloc::Global;
use std::test::Fail;

/// The name and a value of a property, and what they say; nothing where they are not read.
type Stated = (&'static str, &'static str, &'static str);

static DISPLAYS: [Stated; 54] = [
    // the keywords of every property, and names in any case
    ("display", "unset", "unset"),
    ("content", "inherit", "inherit"),
    ("counter-reset", "initial", "initial"),
    ("counter-increment", "Unset", "unset"),
    ("counter-set", "inherit", "inherit"),
    ("list-style-type", "initial", "initial"),
    ("list-style", "unset", "unset"),
    ("quotes", "initial", "initial"),
    ("quotes", "revert-layer", ""),
    ("list-style-type", "revert", ""),
    ("counter-reset", "unset 1", ""),
    ("list-style", "inherit", "inherit"),
    ("display", "inherit", "inherit"),
    ("content", "INITIAL", "initial"),
    ("quotes", " unset ", "unset"),
    ("counter-set", "revert", ""),
    ("list-style", "inherit inherit", ""),
    ("COUNTER-reset", "a", "a 0,"),
    ("color", "red", ""),
    ("counter", "a", ""),
    // display
    ("display", "block", "plain"),
    ("display", "inline", "plain"),
    ("display", "INLINE", "plain"),
    ("display", "flow-root", "plain"),
    ("display", "flex", "plain"),
    ("display", "inline-flex", "plain"),
    ("display", "grid", "plain"),
    ("display", "inline-grid", "plain"),
    ("display", "table", "plain"),
    ("display", "inline-table", "plain"),
    ("display", "table-row", "plain"),
    ("display", "table-row-group", "plain"),
    ("display", "table-header-group", "plain"),
    ("display", "table-footer-group", "plain"),
    ("display", "table-column", "plain"),
    ("display", "table-column-group", "plain"),
    ("display", "table-cell", "plain"),
    ("display", "table-caption", "plain"),
    ("display", "/**/none/**/", "absent"),
    ("Display", "n\\6f ne", "absent"),
    ("display", "none none", ""),
    ("display", "list-item list-item", ""),
    ("display", "contents", ""),
    ("display", "run-in", ""),
    ("display", "1", ""),
    ("display", "none inherit", ""),
    ("display", "none", "absent"),
    ("display", "List-Item", "list-item"),
    ("display", "inline-BLOCK", "plain"),
    ("display", "ruby", "plain"),
    ("display", "block flow", ""),
    ("display", "marker", ""),
    ("display", "\"none\"", ""),
    ("display", "", ""),
];

/// Values of `content`, without counters.
static CONTENTS: [Stated; 28] = [
    ("content", "", ""),
    ("content", "\"a\" normal", ""),
    ("content", "'\\22 '", "'\"' "),
    ("content", "\"a\" / \"b\"", ""),
    ("content", "contents", ""),
    ("content", "leader('.')", ""),
    (
        "content",
        "open-quote close-quote /**/'x'",
        "open close 'x' ",
    ),
    ("content", "open-quote, close-quote", ""),
    ("content", "OPEN-quote none", ""),
    ("content", "attr(a", "attr(a) "),
    ("content", "attr(inherit)", "attr(inherit) "),
    ("content", "attr()", ""),
    ("content", "attr(1)", ""),
    ("content", "attr(a,b)", ""),
    ("content", "normal", "normal"),
    ("content", "NONE", "none"),
    ("content", "none none", ""),
    ("content", "a none", ""),
    ("content", "\"a\" none", ""),
    ("content", "\"a\"/**/'b'", "'a' 'b' "),
    ("content", "\"a\", \"b\"", ""),
    (
        "content",
        "open-quote CLOSE-quote no-open-quote no-close-quote",
        "open close no-open no-close ",
    ),
    ("content", "attr(none)", "attr(none) "),
    ("content", "attr( /**/ href /**/ )", "attr(href) "),
    ("content", "attr(a b)", ""),
    ("content", "attr(\"a\")", ""),
    ("content", "attr (a)", ""),
    ("content", "url(x)", ""),
];

/// Counters in `content`.
static CONTENT_COUNTERS: [Stated; 32] = [
    (
        "content",
        "counter( /**/ c /**/ , /**/ disc /**/ )",
        "counter(c disc) ",
    ),
    (
        "content",
        "counter(c,symbols(cyclic \"a\"))",
        "counter(c symbols(cyclic 'a' )) ",
    ),
    ("content", "counter(c,decimal", "counter(c decimal) "),
    ("content", "counter()", ""),
    ("content", "counter(c d)", ""),
    ("content", "counter(c,DECIMAL,x)", ""),
    ("content", "counter(c,symbols())", ""),
    ("content", "counter(Inherit)", ""),
    ("content", "counter(\"c\")", ""),
    ("content", "COUNTERS(a,'')", "counters(a '' decimal) "),
    ("content", "counters(a,\".\"", "counters(a '.' decimal) "),
    ("content", "counters(a,\".\",none)", "counters(a '.' none) "),
    ("content", "counters(a,\".\",)", ""),
    ("content", "counters(a,\".\",default)", ""),
    ("content", "counters(unset,\".\")", ""),
    ("content", "counters()", ""),
    ("content", "counter(c)", "counter(c decimal) "),
    (
        "content",
        "COUNTER( c , upper-ROMAN )",
        "counter(c upper-roman) ",
    ),
    ("content", "counter(c,Mine)", "counter(c Mine) "),
    ("content", "counter(c,none)", "counter(c none) "),
    ("content", "counter(c", "counter(c decimal) "),
    (
        "content",
        "counter(c,symbols(fixed\"x\"",
        "counter(c symbols(fixed 1 'x' )) ",
    ),
    ("content", "counter(none)", ""),
    ("content", "counter(c,)", ""),
    ("content", "counter(c,inherit)", ""),
    ("content", "counter(c,\"x\")", ""),
    (
        "content",
        "counter(a)\"x\"counter(b)",
        "counter(a decimal) 'x' counter(b decimal) ",
    ),
    ("content", "counters(a,\".\")", "counters(a '.' decimal) "),
    (
        "content",
        "counters(a , \".\" , DISC)",
        "counters(a '.' disc) ",
    ),
    ("content", "counters(a,b)", ""),
    ("content", "counters(a \".\")", ""),
    ("content", "counters(a)", ""),
];

/// Targets in `content`.
static CONTENT_TARGETS: [Stated; 30] = [
    (
        "content",
        "target-counter(\"x\",c)",
        "target-counter(x c decimal) ",
    ),
    (
        "content",
        "target-counter(url(x),c,UPPER-alpha)",
        "target-counter(x c upper-alpha) ",
    ),
    (
        "content",
        "Target-Counter( /**/ attr( href url ) , c )",
        "target-counter(attr(href) c decimal) ",
    ),
    ("content", "target-counter(url(x))", ""),
    ("content", "target-counter(url(x),none)", ""),
    ("content", "target-counter(attr(href string),c)", ""),
    ("content", "target-counter(url('x',c)", ""),
    ("content", "target-counter()", ""),
    (
        "content",
        "target-counters('x',c,'.')",
        "target-counters(x c '.' decimal) ",
    ),
    ("content", "target-counters('x',c,'.',)", ""),
    ("content", "target-counters('x',c,none)", ""),
    ("content", "target-counters('x','.')", ""),
    (
        "content",
        "target-text(url(x),content)",
        "target-text(x content) ",
    ),
    (
        "content",
        "target-text(attr(href",
        "target-text(attr(href) content) ",
    ),
    ("content", "target-text(url(x),)", ""),
    ("content", "target-text('x','y')", ""),
    ("content", "target-text('x',first-letter)", ""),
    ("content", "target-text('x',before,after)", ""),
    (
        "content",
        "target-counter(url(x),c)",
        "target-counter(x c decimal) ",
    ),
    (
        "content",
        "target-counter(url('x y'),c)",
        "target-counter(x y c decimal) ",
    ),
    (
        "content",
        "target-counter(attr(href url), c, none)",
        "target-counter(attr(href) c none) ",
    ),
    ("content", "target-counter(\"x\" c)", ""),
    ("content", "target-counter(x,c)", ""),
    (
        "content",
        "target-counters(attr(href),c,\".\",Lower-Alpha)",
        "target-counters(attr(href) c '.' lower-alpha) ",
    ),
    ("content", "target-counters(attr(href),c)", ""),
    (
        "content",
        "target-text(url(\"x\"))",
        "target-text(x content) ",
    ),
    (
        "content",
        "target-text(attr(href), AFTER)",
        "target-text(attr(href) after) ",
    ),
    (
        "content",
        "target-text('x',before",
        "target-text(x before) ",
    ),
    ("content", "target-text('x',marker)", ""),
    ("content", "target-text()", ""),
];

/// Values of `counter-reset`.
static RESETS: [Stated; 40] = [
    // counter-reset
    ("counter-reset", "", ""),
    ("counter-reset", "NONE", "nothing"),
    ("counter-reset", "list-item", "list-item 0,"),
    ("counter-reset", "a a", "a 0,a 0,"),
    ("counter-reset", "a/**/1/**/b", "a 1,b 0,"),
    ("counter-reset", "a+1", "a 1,"),
    ("counter-reset", "a-1", "a-1 0,"),
    ("counter-reset", "a1", "a1 0,"),
    ("counter-reset", "a -99999999999", "a -99999999999,"),
    (
        "counter-reset",
        "REVERSED(a)reversed(b)",
        "reversed a,reversed b,",
    ),
    ("counter-reset", "reversed(a)/**/-3", "reversed a -3,"),
    ("counter-reset", "reversed (a)", ""),
    ("counter-reset", "reversed(inherit)", ""),
    ("counter-reset", "reversed(\"a\")", ""),
    ("counter-reset", "reversed(a) 1 2", ""),
    ("counter-reset", "a none", ""),
    ("counter-reset", "3", ""),
    ("counter-reset", "3 a", ""),
    ("counter-reset", "a 1e0", ""),
    ("counter-reset", "a 1x", ""),
    ("counter-reset", "a inherit", ""),
    ("counter-reset", "a UNSET 1", ""),
    ("counter-reset", "\"a\"", ""),
    ("counter-reset", "none", "nothing"),
    ("counter-reset", "reversed( /**/ a )", "reversed a,"),
    ("counter-reset", "reversed(a)3b", ""),
    ("counter-reset", "reversed(a", "reversed a,"),
    ("counter-reset", "reversed()", ""),
    ("counter-reset", "reversed(none)", ""),
    ("counter-reset", "reversed(a b)", ""),
    ("counter-reset", "a -0 B 99999999999", "a 0,B 99999999999,"),
    ("counter-reset", "\\61  -7", "a -7,"),
    ("counter-reset", "a 1.5", ""),
    ("counter-reset", "a 1 2", ""),
    ("counter-reset", "a 1%", ""),
    ("counter-reset", "none a", ""),
    ("counter-reset", "default", ""),
    ("counter-reset", "a Revert-Layer", ""),
    ("counter-reset", "a,b", ""),
    ("counter-reset", "reversed(a) 3 b", "reversed a 3,b 0,"),
];

/// Values of `counter-increment` and `counter-set`.
static INCREMENTS_AND_ASSIGNS: [Stated; 24] = [
    // counter-increment and counter-set
    ("Counter-Increment", "a", "a 1,"),
    ("counter-increment", "none", "nothing"),
    ("counter-increment", "a 0", "a 0,"),
    ("counter-increment", "a -2 b", "a -2,b 1,"),
    ("counter-increment", "", ""),
    ("counter-increment", "none none", ""),
    ("counter-increment", "a 1 1", ""),
    ("counter-increment", "1", ""),
    ("counter-increment", "default 1", ""),
    ("counter-increment", "a,b", ""),
    ("counter-increment", "a 1.0", ""),
    ("counter-set", "a", "a 0,"),
    ("counter-set", "a/**/-5", "a -5,"),
    ("counter-set", "", ""),
    ("counter-set", "a 5 6", ""),
    ("counter-set", "none a", ""),
    ("counter-set", "reversed(a)", ""),
    ("counter-set", "initial a", ""),
    ("counter-increment", "a b 2", "a 1,b 2,"),
    ("counter-increment", "reversed(a)", ""),
    ("counter-set", "a b 2", "a 0,b 2,"),
    ("counter-set", "None", "nothing"),
    ("counter-set", "a + 2", ""),
    ("counter-increment", "a 2 none", ""),
];

/// Values of `list-style-type` and `list-style`.
static LIST_STYLES: [Stated; 57] = [
    // list-style-type
    ("list-style-type", "UPPER-ROMAN", "upper-roman"),
    ("list-style-type", "Ethiopic-Numeric", "Ethiopic-Numeric"),
    ("list-style-type", "NONE", "none"),
    ("list-style-type", "''", "''"),
    (
        "list-style-type",
        "symbols(fixed 'a' 'b')",
        "symbols(fixed 1 'a' 'b' )",
    ),
    (
        "list-style-type",
        "symbols(numeric '0' '1')",
        "symbols(numeric '0' '1' )",
    ),
    (
        "list-style-type",
        "symbols(cyclic '*')",
        "symbols(cyclic '*' )",
    ),
    (
        "list-style-type",
        "symbols( /**/ 'a' /**/ )",
        "symbols(symbolic 'a' )",
    ),
    ("list-style-type", "symbols('a'", "symbols(symbolic 'a' )"),
    ("list-style-type", "", ""),
    ("list-style-type", "1", ""),
    ("list-style-type", "url(x)", ""),
    ("list-style-type", "'a' 'b'", ""),
    ("list-style-type", "inherit disc", ""),
    ("list-style-type", "symbols(ALPHABETIC 'a')", ""),
    ("list-style-type", "symbols(fixed 2 'a')", ""),
    ("list-style-type", "symbols(a)", ""),
    ("list-style-type", "symbols('a' cyclic)", ""),
    ("list-style-type", "DISC", "disc"),
    ("list-style-type", "Mine", "Mine"),
    ("list-style-type", "none", "none"),
    ("list-style-type", "\"none\"", "'none'"),
    (
        "list-style-type",
        "symbols(\"*\" \"+\")",
        "symbols(symbolic '*' '+' )",
    ),
    (
        "list-style-type",
        "SYMBOLS(Alphabetic \"a\" \"b\")",
        "symbols(alphabetic 'a' 'b' )",
    ),
    ("list-style-type", "symbols(alphabetic \"a\")", ""),
    ("list-style-type", "symbols(numeric \"0\")", ""),
    ("list-style-type", "symbols(cyclic)", ""),
    ("list-style-type", "symbols()", ""),
    ("list-style-type", "symbols(additive \"a\")", ""),
    ("list-style-type", "symbols(\"a\", \"b\")", ""),
    ("list-style-type", "disc disc", ""),
    ("list-style-type", "default", ""),
    // list-style
    ("list-style", "none", "none"),
    ("list-style", "OUTSIDE none", "none"),
    ("list-style", "none inside none", "none"),
    ("list-style", "inside/**/square", "square"),
    ("list-style", "none Square none", ""),
    ("list-style", "'x' 'y'", ""),
    ("list-style", "disc inside disc", ""),
    ("list-style", "inside none outside", ""),
    ("list-style", "inside inherit", ""),
    ("list-style", "default", ""),
    ("list-style", "1", ""),
    ("list-style", "none disc", "disc"),
    ("list-style", "none none disc", ""),
    ("list-style", "INSIDE", "disc"),
    ("list-style", "outside \"x\"", "'x'"),
    ("list-style", "inside outside", ""),
    ("list-style", "inside inside", ""),
    ("list-style", "none outside none", "none"),
    (
        "list-style",
        "symbols(\"a\") outside",
        "symbols(symbolic 'a' )",
    ),
    ("list-style", "disc \"x\"", ""),
    ("list-style", "disc url(x)", ""),
    ("list-style", "", ""),
    ("list-style", "none none", "none"),
    ("list-style", "none none none", ""),
    ("list-style", "square inside none", "square"),
];

static QUOTES: [Stated; 17] = [
    // quotes
    ("quotes", "None", "nothing"),
    ("quotes", "'a'/**/'b'", "'a' 'b' "),
    ("quotes", "'' ''", "'' '' "),
    ("quotes", "", ""),
    ("quotes", "'a'", ""),
    ("quotes", "'a' 'b', 'c' 'd'", ""),
    ("quotes", "none none", ""),
    ("quotes", "auto auto", ""),
    ("quotes", "'a' none", ""),
    ("quotes", "match-parent", ""),
    ("quotes", "'a' 'b' auto", ""),
    ("quotes", "none", "nothing"),
    ("quotes", "AUTO", "auto"),
    ("quotes", "\"a\" \"b\"'c''d'", "'a' 'b' 'c' 'd' "),
    ("quotes", "auto \"a\" \"b\"", ""),
    ("quotes", "a b", ""),
    ("quotes", "\"a\" \"b\" \"c\"", ""),
];

/// What the property says with this value.
fn told(alloc: Global, name: &str, value: &str) -> Result<Text, Memory> {
    let text = prepare_text(alloc, value)?;
    let found = tokens(alloc, text.as_str())?;
    let mut out = Text::new(alloc);
    if let Some(declaration) = read_declaration(alloc, name, found.as_slice())? {
        push_declaration(&declaration, &mut out)?;
    }
    Ok(out)
}

/// The first value of which a property says something else; none where each says what stands beside it.
fn first_wrong(alloc: Global, table: &[Stated]) -> Result<Option<&'static str>, Memory> {
    for (name, value, expected) in table {
        if told(alloc, name, value)?.as_str() != *expected {
            return Ok(Some(value));
        }
    }
    Ok(None)
}

#[test]
fn values_are_read_by_their_grammars(rt: HostRuntime) -> Result<(), Fail> {
    assert_eq!(rt; first_wrong(rt.alloc(), &DISPLAYS)?, None);
    assert_eq!(rt; first_wrong(rt.alloc(), &CONTENTS)?, None);
    assert_eq!(rt; first_wrong(rt.alloc(), &CONTENT_COUNTERS)?, None);
    assert_eq!(rt; first_wrong(rt.alloc(), &CONTENT_TARGETS)?, None);
    assert_eq!(rt; first_wrong(rt.alloc(), &RESETS)?, None);
    assert_eq!(rt; first_wrong(rt.alloc(), &INCREMENTS_AND_ASSIGNS)?, None);
    assert_eq!(rt; first_wrong(rt.alloc(), &LIST_STYLES)?, None);
    assert_eq!(rt; first_wrong(rt.alloc(), &QUOTES)?, None);
    Ok(())
}
