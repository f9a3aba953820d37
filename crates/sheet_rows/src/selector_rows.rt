//! Lists of selectors, worked out by hand from the grammar, and specificities.

use crate::pushing::push_all;
use crate::selector_notes::push_selectors;
use css_tokens::lexer::tokens;
use css_tokens::sheet_text::prepare_text;
use plain_types::list::List;
use plain_types::memory::Memory;
use plain_types::selector::Selector;
use plain_types::text::Text;
use selectors::counting::specificity;
use selectors::selector_list::read_selectors;
use selectors::specificity::Specificity;
use std::alloc::Global;
use std::test::Fail;

/// A text, and the selectors that it is; `bad` where it is none. Positions are written `a b`.
type Selected = (&'static str, &'static str);

static TYPES_AND_COMBINATORS: [Selected; 54] = [
    // types, ids and classes
    ("a", "a"),
    ("A-b", "A-b"),
    ("*", "*"),
    ("#a", "#a"),
    ("#\\31", "#1"),
    ("#1", "bad"),
    ("#-", "bad"),
    (".a", ".a"),
    (".\\31 a", ".1a"),
    (".1", "bad"),
    (". a", "bad"),
    ("./**/a", ".a"),
    ("a#b.c[d]:root", "a#b.c[d]:root"),
    (".a.b#c.d", ".a.b#c.d"),
    ("*.a", "*.a"),
    ("a*", "bad"),
    ("*a", "bad"),
    (".a b", ".a b"),
    (".a*", "bad"),
    ("a|b", "bad"),
    ("*|*", "bad"),
    ("|a", "bad"),
    ("1", "bad"),
    ("\"a\"", "bad"),
    ("a(b)", "bad"),
    ("&", "bad"),
    // commas and blanks
    ("", "bad"),
    (" ", "bad"),
    (" a ", "a"),
    ("a,b", "a, b"),
    (" a , b\n", "a, b"),
    ("a/**/,/**/b", "a, b"),
    ("a,b,a", "a, b, a"),
    ("a,", "bad"),
    (",a", "bad"),
    ("a,,b", "bad"),
    ("a b", "a b"),
    ("a /**/ b", "a b"),
    ("a/**/b", "bad"),
    ("a;b", "bad"),
    // combinators
    ("a>b", "a > b"),
    ("a > b", "a > b"),
    ("a> b", "a > b"),
    ("a >b", "a > b"),
    ("a+b~c d", "a + b ~ c d"),
    ("a /**/ > /**/ b", "a > b"),
    ("a > > b", "bad"),
    ("a > + b", "bad"),
    ("> a", "bad"),
    ("a >", "bad"),
    ("a >, b", "bad"),
    ("a || b", "bad"),
    ("a .b", "a .b"),
    ("a>*>#b", "a > * > #b"),
];

static ATTRIBUTES: [Selected; 36] = [
    // attributes
    ("[a]", "[a]"),
    ("[ a ]", "[a]"),
    ("[A]", "[A]"),
    ("[a=b]", "[a='b']"),
    ("[ a = b ]", "[a='b']"),
    ("[a=\"b c\"]", "[a='b c']"),
    ("[a='']", "[a='']"),
    ("[a~=b]", "[a~='b']"),
    ("[a|=b]", "[a|='b']"),
    ("[a^=b]", "[a^='b']"),
    ("[a$=b]", "[a$='b']"),
    ("[a*=b]", "[a*='b']"),
    ("[a~ =b]", "bad"),
    ("[a~/**/=b]", "[a~='b']"),
    ("[a=b i]", "[a='b' i]"),
    ("[a=b I]", "[a='b' i]"),
    ("[a=b s]", "[a='b']"),
    ("[a=\"b\"i]", "[a='b' i]"),
    ("[a=\"b\" /**/ S ]", "[a='b']"),
    ("[a*=\"b\"/**/i ]", "[a*='b' i]"),
    ("[a=i]", "[a='i']"),
    ("[a=b x]", "bad"),
    ("[a=b i i]", "bad"),
    ("[a i]", "bad"),
    ("[a=1]", "bad"),
    ("[a==b]", "bad"),
    ("[a!=b]", "bad"),
    ("[a=]", "bad"),
    ("[]", "bad"),
    ("[\"a\"]", "bad"),
    ("[a|b]", "bad"),
    ("[a]]", "bad"),
    ("[a)", "bad"),
    ("[a][b]", "[a][b]"),
    ("[a] [b]", "[a] [b]"),
    ("[a=b", "[a='b']"),
];

static PSEUDO_CLASSES_AND_ELEMENTS: [Selected; 58] = [
    // pseudo-classes
    (":root", ":root"),
    (":ROOT", ":root"),
    (":\\72oot", ":root"),
    (":/**/root", ":root"),
    (": root", "bad"),
    (":empty", ":empty"),
    (":first-child", ":nth-child(0 1)"),
    (":last-child", ":nth-last-child(0 1)"),
    (":only-child", ":only-child"),
    (":first-of-type", ":nth-of-type(0 1)"),
    (":last-of-type", ":nth-last-of-type(0 1)"),
    (":only-of-type", ":only-of-type"),
    (":hover", ":never"),
    (":active", ":never"),
    (":focus", ":never"),
    (":Focus-Visible", ":never"),
    (":focus-within", ":never"),
    (":link", ":never"),
    (":visited", ":never"),
    (":any-link", ":never"),
    (":target", ":never"),
    (":checked", "bad"),
    (":marker", "bad"),
    (":lang(en)", "bad"),
    (":has(a)", "bad"),
    (":root()", "bad"),
    (":nth-child", "bad"),
    (":is", "bad"),
    (":", "bad"),
    ("::", "bad"),
    // pseudo-elements
    ("a::before", "a::before"),
    ("a::AFTER", "a::after"),
    ("a::marker", "a::marker"),
    ("a:before", "a::before"),
    ("a:After", "a::after"),
    ("a::first-line", "a::never"),
    ("a::first-letter", "a::never"),
    ("a:first-line", "a::never"),
    ("a:first-letter", "a::never"),
    ("::before", "::before"),
    (":before", "::before"),
    ("a ::before", "a ::before"),
    ("a>:after", "a > ::after"),
    ("a b c::after", "a b c::after"),
    ("a:hover::before", "a:never::before"),
    ("a:/**/:before", "a::before"),
    ("a: :before", "bad"),
    ("a::before b", "bad"),
    ("a::before > b", "bad"),
    ("a::before::after", "bad"),
    ("a::before.b", "bad"),
    ("a::before:hover", "bad"),
    ("::before a", "bad"),
    ("a::hover", "bad"),
    ("a::wild", "bad"),
    ("a::selection", "bad"),
    ("a::before()", "bad"),
    ("a::before , b:after ", "a::before, b::after"),
];

static LISTS: [Selected; 35] = [
    // lists of compound selectors
    (":is(a)", ":is(a)"),
    (":IS( a , .b )", ":is(a, .b)"),
    (":where(a/**/,/**/b)", ":where(a, b)"),
    (":not(a)", ":not(a)"),
    ("a:not(b)", "a:not(b)"),
    ("a:not(.b)#c", "a:not(.b)#c"),
    (":not(a) b", ":not(a) b"),
    ("a > :not(b)", "a > :not(b)"),
    (":not(a)::before", ":not(a)::before"),
    (":not(a):not(b)", ":not(a):not(b)"),
    (":not(:not(a))", ":not(:not(a))"),
    (":is(:not(a),b)", ":is(:not(a), b)"),
    (":not(a), :is(b)", ":not(a), :is(b)"),
    ("*:not(*)", "*:not(*)"),
    (":not()", "bad"),
    (":not( )", "bad"),
    (":not(a,)", "bad"),
    (":not(,a)", "bad"),
    (":not(a b)", "bad"),
    (":not(a > b)", "bad"),
    (":not(> a)", "bad"),
    (":not (a)", "bad"),
    (":not(a]", "bad"),
    (":not(a))", "bad"),
    (":not(a)b", "bad"),
    (":not(a", ":not(a)"),
    (":is(::before)", "bad"),
    (":is(a::before)", "bad"),
    (":not(a:before)", "bad"),
    // a bad selector makes the list bad
    ("a,:wild", "bad"),
    (":wild,a", "bad"),
    ("a,b c >,d", "bad"),
    (":is(a,:wild)", "bad"),
    (":where(:wild)", "bad"),
    ("a:not(:wild) b", "bad"),
];

static POSITIONS: [Selected; 31] = [
    // positions
    (":nth-child(odd)", ":nth-child(2 1)"),
    (":NTH-child( Even )", ":nth-child(2 0)"),
    (":nth-child(5)", ":nth-child(0 5)"),
    (":nth-child(+5)", ":nth-child(0 5)"),
    (":nth-child(-5)", ":nth-child(0 -5)"),
    (":nth-child(00)", ":nth-child(0 0)"),
    (":nth-child(n)", ":nth-child(1 0)"),
    (":nth-child(+n)", ":nth-child(1 0)"),
    (":nth-child(-n)", ":nth-child(-1 0)"),
    (":nth-child(-2N)", ":nth-child(-2 0)"),
    (":nth-child(2n+1)", ":nth-child(2 1)"),
    (":nth-child( 2n - 1 )", ":nth-child(2 -1)"),
    (":nth-child(2n+\n1)", ":nth-child(2 1)"),
    (":nth-child(-n -3)", ":nth-child(-1 -3)"),
    (":nth-child(n-1)", ":nth-child(1 -1)"),
    (":nth-child(/**/2/**/n/**/+/**/1/**/)", ":nth-child(2 1)"),
    (":nth-child(o/**/dd)", ":nth-child(2 1)"),
    (":nth-last-child(2)", ":nth-last-child(0 2)"),
    (":nth-of-type(2)", ":nth-of-type(0 2)"),
    (":nth-last-of-type(2)", ":nth-last-of-type(0 2)"),
    // positions stop at the numbers of 32 bits
    (
        ":nth-child(2147483646n-2147483647)",
        ":nth-child(2147483646 -2147483647)",
    ),
    (
        ":nth-child(2147483647n-2147483648)",
        ":nth-child(2147483647 -2147483648)",
    ),
    (
        ":nth-child(2147483648n-2147483649)",
        ":nth-child(2147483647 -2147483648)",
    ),
    (
        ":nth-child(-2147483648n+2147483647)",
        ":nth-child(-2147483648 2147483647)",
    ),
    (
        ":nth-child(-2147483649n+2147483648)",
        ":nth-child(-2147483648 2147483647)",
    ),
    (":nth-child(4294967297)", ":nth-child(0 2147483647)"),
    (
        ":nth-child(9223372036854775808n-9223372036854775809)",
        ":nth-child(2147483647 -2147483648)",
    ),
    (
        ":nth-child(-99999999999999999999n-99999999999999999999)",
        ":nth-child(-2147483648 -2147483648)",
    ),
    (":nth-child(2", ":nth-child(0 2)"),
    (":nth-child()", "bad"),
    (":nth-child(/**/)", "bad"),
];

/// Arguments that have no meaning in the An+B notation.
static NO_POSITIONS: [&str; 21] = [
    "2n+1é",
    "2n+",
    "2n + -1",
    "2n + + 1",
    "+ 2",
    "- n",
    "2 n",
    "n + n",
    "n 1",
    "1.5",
    "1e1",
    "2n1",
    "odd even",
    "odd+1",
    "\\6e",
    "2n+1 of a",
    "(2)",
    "\"2\"",
    "2,3",
    "nn",
    "--n",
];

/// A selector, and its ids, classes and types.
type Counted = (&'static str, u32, u32, u32);

static SPECIFICITIES: [Counted; 20] = [
    ("*", 0, 0, 0),
    ("a", 0, 0, 1),
    ("a b > c", 0, 0, 3),
    ("#a", 1, 0, 0),
    (".a", 0, 1, 0),
    ("[a=b]", 0, 1, 0),
    (":root:empty:hover", 0, 3, 0),
    (":only-child:nth-child(2)", 0, 2, 0),
    ("#a.b[c]:root", 1, 3, 0),
    ("::before", 0, 0, 1),
    ("a::first-line", 0, 0, 2),
    ("*::marker", 0, 0, 1),
    (":where(#a) b", 0, 0, 1),
    (":is(.b,#a)", 1, 0, 0),
    (":is(#a,.b)", 1, 0, 0),
    (":not(.a.b,c)", 0, 2, 0),
    (":is(a#b,.c.d.e)", 1, 0, 1),
    (":is(:where(#a),b)", 0, 0, 1),
    (":not(:is(#a,b):where(.c)).d", 1, 1, 0),
    (":is(#a,b) > c.d:nth-child(2n + 1)::before", 1, 2, 2),
];

fn read(alloc: Global, source: &str) -> Result<Option<List<Selector>>, Memory> {
    let text = prepare_text(alloc, source)?;
    let tokens = tokens(alloc, text.as_str())?;
    read_selectors(alloc, text.as_str(), tokens.as_slice())
}

/// The selectors of the text.
fn told(alloc: Global, source: &str) -> Result<Text, Memory> {
    let Some(selectors) = read(alloc, source)? else {
        return Text::from_str(alloc, "bad");
    };
    let mut out = Text::new(alloc);
    push_selectors(selectors.as_slice(), &mut out)?;
    Ok(out)
}

/// The first text that is something else; none where each is what stands beside it.
fn first_wrong(alloc: Global, table: &[Selected]) -> Result<Option<&'static str>, Memory> {
    for (source, expected) in table {
        if told(alloc, source)?.as_str() != *expected {
            return Ok(Some(source));
        }
    }
    Ok(None)
}

#[test]
fn selectors_are_read_by_their_grammar(rt: HostRuntime) -> Result<(), Fail> {
    assert_eq!(rt; first_wrong(rt.alloc(), &TYPES_AND_COMBINATORS)?, None);
    assert_eq!(rt; first_wrong(rt.alloc(), &ATTRIBUTES)?, None);
    assert_eq!(rt;
        first_wrong(rt.alloc(), &PSEUDO_CLASSES_AND_ELEMENTS)?,
        None
    );
    assert_eq!(rt; first_wrong(rt.alloc(), &LISTS)?, None);
    assert_eq!(rt; first_wrong(rt.alloc(), &POSITIONS)?, None);
    Ok(())
}

/// The first argument that is a position after all.
fn first_position(alloc: Global, table: &[&'static str]) -> Result<Option<&'static str>, Memory> {
    for argument in table {
        let mut source = Text::new(alloc);
        push_all(&[":nth-child(", argument, ")"], &mut source)?;
        if read(alloc, source.as_str())?.is_some() {
            return Ok(Some(argument));
        }
    }
    Ok(None)
}

#[test]
fn other_arguments_are_no_positions(rt: HostRuntime) -> Result<(), Fail> {
    assert_eq!(rt; first_position(rt.alloc(), &NO_POSITIONS)?, None);
    Ok(())
}

/// Appends `a` behind so many brackets of these pseudo-classes in turn.
fn push_nested(depth: usize, out: &mut Text) -> Result<(), Memory> {
    for level in 0..depth {
        out.push_str(match level % 3 {
            0 => ":not(",
            1 => ":is(",
            _ => ":where(",
        })?;
    }
    out.push('a')?;
    for _level in 0..depth {
        out.push(')')?;
    }
    Ok(())
}

/// Whether `a` behind so many brackets is a selector.
fn is_nested(alloc: Global, depth: usize) -> Result<bool, Memory> {
    let mut source = Text::new(alloc);
    push_nested(depth, &mut source)?;
    Ok(read(alloc, source.as_str())?.is_some())
}

/// Whether `a` behind so many brackets may stand side by side, also in brackets.
fn is_wide(alloc: Global, depth: usize) -> Result<bool, Memory> {
    let mut source = Text::new(alloc);
    push_nested(depth, &mut source)?;
    source.push_str(" :is(")?;
    push_nested(depth, &mut source)?;
    source.push_str(") ")?;
    push_nested(depth, &mut source)?;
    source.push_str(",b")?;
    Ok(read(alloc, source.as_str())?.is_some())
}

#[test]
fn pseudo_classes_are_nested_sixteen_deep(rt: HostRuntime) -> Result<(), Fail> {
    assert!(rt; is_nested(rt.alloc(), 16)?);
    assert!(rt; is_wide(rt.alloc(), 15)?);
    assert!(rt; !is_nested(rt.alloc(), 17)?);
    Ok(())
}

/// The specificity of the first selector of the text.
fn first_specificity(alloc: Global, source: &str) -> Result<Option<Specificity>, Memory> {
    let Some(selectors) = read(alloc, source)? else {
        return Ok(None);
    };
    Ok(selectors.as_slice().first().map(specificity))
}

/// The first selector that counts otherwise; none where each counts as stands beside it.
fn first_miscounted(alloc: Global, table: &[Counted]) -> Result<Option<&'static str>, Memory> {
    for (source, ids, classes, types) in table {
        let expected = Specificity {
            ids: *ids,
            classes: *classes,
            types: *types,
        };
        if first_specificity(alloc, source)? != Some(expected) {
            return Ok(Some(source));
        }
    }
    Ok(None)
}

#[test]
fn selectors_are_counted(rt: HostRuntime) -> Result<(), Fail> {
    assert_eq!(rt; first_miscounted(rt.alloc(), &SPECIFICITIES)?, None);
    Ok(())
}
