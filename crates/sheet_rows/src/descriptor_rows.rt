//! Descriptors of `@counter-style`, worked out by hand from their grammars.

use crate::value_notes::push_descriptor;
use css_tokens::lexer::tokens;
use css_tokens::sheet_text::prepare_text;
use css_values::descriptors::read_descriptor;
use plain_types::memory::Memory;
use plain_types::text::Text;
use std::alloc::Global;
use std::test::Fail;

/// The name and a value of a descriptor, and what they say; nothing where they are not read.
type Described = (&'static str, &'static str, &'static str);

/// Values of `system`, `negative`, `prefix` and `suffix`.
static SYSTEMS_AND_SIGNS: [Described; 53] = [
    ("system", "cyclic", "system cyclic"),
    ("SYSTEM", "Additive", "system additive"),
    ("system", "fixed", "system fixed 1"),
    ("system", "FIXED -3", "system fixed -3"),
    ("system", "fixed 1.5", ""),
    ("system", "fixed 3 4", ""),
    (
        "system",
        "extends Lower-Roman",
        "system extends lower-roman",
    ),
    ("system", "extends Mine", "system extends Mine"),
    ("system", "extends none", ""),
    ("system", "extends", ""),
    ("system", "numeric numeric", ""),
    ("system", "inherit", ""),
    ("system", "numeric", "system numeric"),
    ("system", "alphabetic", "system alphabetic"),
    ("system", "Symbolic", "system symbolic"),
    ("system", "fixed/**/7", "system fixed 7"),
    ("system", "fixed 99999999999", "system fixed 99999999999"),
    (
        "system",
        "fixed -9223372036854775809",
        "system fixed -9223372036854775808",
    ),
    ("system", "EXTENDS DISC", "system extends disc"),
    ("system", "", ""),
    ("system", "fixed x", ""),
    ("system", "extends a b", ""),
    ("system", "extends \"a\"", ""),
    ("system", "extends Unset", ""),
    ("system", "additive 3", ""),
    ("system", "disc", ""),
    ("system", "\"cyclic\"", ""),
    ("negative", "\"-\"", "negative '-' ''"),
    ("negative", "\"(\" \")\"", "negative '(' ')'"),
    ("negative", "minus none", "negative 'minus' 'none'"),
    ("negative", "unset", ""),
    ("negative", "\"a\" \"b\" \"c\"", ""),
    ("negative", "5", ""),
    ("Negative", "a", "negative 'a' ''"),
    ("negative", "'a'/**/b", "negative 'a' 'b'"),
    ("negative", "", ""),
    ("negative", "\"a\", \"b\"", ""),
    ("negative", "a default", ""),
    ("negative", "a 1", ""),
    ("prefix", "x", "prefix 'x'"),
    ("prefix", "\"x\" \"y\"", ""),
    ("prefix", "Default", ""),
    ("PREFIX", "none", "prefix 'none'"),
    ("prefix", "''", "prefix ''"),
    ("prefix", "", ""),
    ("prefix", "inherit", ""),
    ("prefix", "1", ""),
    ("prefix", "url(x)", ""),
    ("suffix", "\") \"", "suffix ') '"),
    ("suffix", "", ""),
    ("suffix", "/**/x/**/", "suffix 'x'"),
    ("suffix", "x y", ""),
    ("suffix", "Revert", ""),
];

/// Values of `range`, `pad` and `fallback`.
static RANGES_PADS_AND_FALLBACKS: [Described; 55] = [
    ("range", "auto", "range auto"),
    ("range", "auto auto", ""),
    ("range", "Infinite INFINITE", "range _ _,"),
    ("range", "0 infinite", "range 0 _,"),
    (
        "range",
        "9223372036854775808 9223372036854775807",
        "range 9223372036854775807 9223372036854775807,",
    ),
    ("range", "1 2, 3", ""),
    ("range", "1 2,", ""),
    ("range", "1 2 3 4", ""),
    ("range", ", 1 2", ""),
    ("range", "1 2, 4 3", ""),
    ("Range", "AUTO", "range auto"),
    ("range", "1 1", "range 1 1,"),
    ("range", "-5 -3", "range -5 -3,"),
    ("range", "1 2/**/,/**/3 4", "range 1 2,3 4,"),
    (
        "range",
        "-9223372036854775809 -9223372036854775808",
        "range -9223372036854775808 -9223372036854775808,",
    ),
    ("range", "", ""),
    ("range", "1", ""),
    ("range", "-3 -5", ""),
    ("range", "1,2", ""),
    ("range", "1 2 3", ""),
    ("range", "auto, 1 2", ""),
    ("range", "1 2, auto", ""),
    ("range", "1.0 2", ""),
    ("range", "a b", ""),
    ("range", "inherit", ""),
    ("pad", "3 x", "pad 3 'x'"),
    ("pad", "-0 x", "pad 0 'x'"),
    ("pad", "-1 x", ""),
    ("pad", "3", ""),
    ("pad", "3 4", ""),
    ("pad", "a b", ""),
    ("pad", "3 x 4", ""),
    ("PAD", "2 '0'", "pad 2 '0'"),
    ("pad", "0 ''", "pad 0 ''"),
    ("pad", "2/**/x", "pad 2 'x'"),
    ("pad", "", ""),
    ("pad", "'0'", ""),
    ("pad", "2, '0'", ""),
    ("pad", "2.0 '0'", ""),
    ("pad", "'0' 2 2", ""),
    ("pad", "'0' -1", ""),
    ("pad", "2 inherit", ""),
    ("fallback", "Disc", "fallback disc"),
    ("fallback", "none", ""),
    ("fallback", "x y", ""),
    ("fallback", "\"x\"", ""),
    ("FALLBACK", "LOWER-GREEK", "fallback lower-greek"),
    ("fallback", "Mine", "fallback Mine"),
    ("fallback", "", ""),
    ("fallback", "inherit", ""),
    ("fallback", "Default", ""),
    ("fallback", "symbols('a')", ""),
    ("pad", "\"0\" 4", "pad 4 '0'"),
    ("range", "infinite 0, 5 5", "range _ 0,5 5,"),
    ("range", "5 4", ""),
];

/// Values of `symbols` and `additive-symbols`, and names of no descriptor.
static SYMBOLS: [Described; 30] = [
    ("symbols", "\"a\" b none", "symbols 'a' 'b' 'none' "),
    ("symbols", "\"a\", \"b\"", ""),
    ("symbols", "a initial", ""),
    ("symbols", "", ""),
    ("Symbols", "'a'/**/'b'", "symbols 'a' 'b' "),
    ("symbols", "a", "symbols 'a' "),
    ("symbols", "1", ""),
    ("symbols", "a 1", ""),
    ("symbols", "a Revert-Layer", ""),
    ("symbols", "url(x)", ""),
    (
        "additive-symbols",
        "3 \"c\", \"b\" 2, 0 a",
        "additive 3 'c',2 'b',0 'a',",
    ),
    ("additive-symbols", "3 a, 3 b", ""),
    ("additive-symbols", "1 a, 2 b", ""),
    ("additive-symbols", "-1 a", ""),
    ("additive-symbols", "3 a 2 b", ""),
    ("additive-symbols", "3 a,", ""),
    ("Additive-Symbols", "a 1, 0 b", "additive 1 'a',0 'b',"),
    (
        "additive-symbols",
        "10 a, 5 b, 1 c",
        "additive 10 'a',5 'b',1 'c',",
    ),
    ("additive-symbols", "0 ''", "additive 0 '',"),
    ("additive-symbols", "", ""),
    ("additive-symbols", "a", ""),
    ("additive-symbols", "1", ""),
    ("additive-symbols", "1 a 2", ""),
    ("additive-symbols", "1 unset", ""),
    ("additive-symbols", "3 a, 1 b, 2 c", ""),
    ("additive-symbols", "1 a,, 0 b", ""),
    ("additive-symbols", "1.5 a", ""),
    (
        "additive-symbols",
        "9223372036854775808 a, 9223372036854775807 b",
        "",
    ),
    ("speak-as", "auto", ""),
    ("content", "none", ""),
];

/// What the descriptor says with this value.
fn told(alloc: Global, name: &str, value: &str) -> Result<Text, Memory> {
    let text = prepare_text(alloc, value)?;
    let found = tokens(alloc, text.as_str())?;
    let mut out = Text::new(alloc);
    if let Some(descriptor) = read_descriptor(alloc, name, found.as_slice())? {
        push_descriptor(&descriptor, &mut out)?;
    }
    Ok(out)
}

/// The first value of which a descriptor says something else; none where each says what stands beside it.
fn first_wrong(alloc: Global, table: &[Described]) -> Result<Option<&'static str>, Memory> {
    for (name, value, expected) in table {
        if told(alloc, name, value)?.as_str() != *expected {
            return Ok(Some(value));
        }
    }
    Ok(None)
}

#[test]
fn values_are_read_by_their_grammars(rt: HostRuntime) -> Result<(), Fail> {
    assert_eq!(rt; first_wrong(rt.alloc(), &SYSTEMS_AND_SIGNS)?, None);
    assert_eq!(rt; first_wrong(rt.alloc(), &RANGES_PADS_AND_FALLBACKS)?, None);
    assert_eq!(rt; first_wrong(rt.alloc(), &SYMBOLS)?, None);
    Ok(())
}
