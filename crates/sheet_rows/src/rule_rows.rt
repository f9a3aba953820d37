//! Sheets and declarations, worked out by hand from the rules of CSS Syntax.

use crate::pushing::push_all;
use crate::rule_notes::{push_declarations, push_sheet};
use css_reader::features::features;
use css_reader::inline::read_inline;
use css_reader::sheet::{read_sheet, read_sheets};
use plain_types::list::List;
use plain_types::memory::Memory;
use plain_types::text::Text;
use selectors::counting::specificity;
use selectors::specificity::Specificity;
use std::alloc::Global;
use std::test::Fail;

/// A text, and its sheet or its declarations.
type Read = (&'static str, &'static str);

/// Rules and their recovery.
static RULES: [Read; 40] = [
    ("", ""),
    (" \n\t", ""),
    // rules and their recovery
    (
        "a{counter-reset:x}b,::wild{quotes:none}c{quotes:none",
        "a{counter-reset}c{quotes}",
    ),
    (
        "@media x{a{quotes:none}}p{content:none;;color:red;content:\"a\"!important}",
        "p{content none;content 'a'!}",
    ),
    ("@counter-style x{symbols:\"a\"", "@x{symbols 1}"),
    (
        ":is(#a,b) > c.d:nth-child(2n + 1)::before{}",
        ":is > c.d:nth::before{}",
    ),
    (
        ":not(:not(:not(:not(:not(:not(:not(:not(:not(:not(:not(:not(:not(:not(:not(:not(a)))))))))))))))){}",
        ":not{}",
    ),
    (
        ":not(:not(:not(:not(:not(:not(:not(:not(:not(:not(:not(:not(:not(:not(:not(:not(:not(a))))))))))))))))){}",
        "",
    ),
    ("a{}b{}a{}", "a{}b{}a{}"),
    ("a,b{}", "a,b{}"),
    ("a,b:wild{}c{}", "c{}"),
    ("a b {content:none}", "a b{content none}"),
    ("a{content:none}b", "a{content none}"),
    ("a{content:none} b c", "a{content none}"),
    ("a", ""),
    ("a;b{}", ""),
    ("a;b{}c{}", "c{}"),
    ("{}a{}", "a{}"),
    ("}a{}", ""),
    ("a{}}b{}c{}", "a{}c{}"),
    ("a{}]b{}c{}", "a{}c{}"),
    ("(a{})b{}c{}", "c{}"),
    ("(a{}b{}", ""),
    ("[a=b]{}", "[]{}"),
    ("[a=\"{\"]{}", "[]{}"),
    ("[a={]{}b{}", ""),
    ("a(b{}c){}d{}", "d{}"),
    ("\"a\"{}b{}", "b{}"),
    ("a\"{}\"{}b{}", "b{}"),
    ("a\"\n{}b{}", "b{}"),
    ("url({}a{}){}b{}", "b{}"),
    ("url(\"{\"){}b{}", "b{}"),
    ("a/*{*/{}", "a{}"),
    ("a{}/*", "a{}"),
    ("a{/*}*/content:none}", "a{content none}"),
    // between rules
    ("<!-- a{} --> b{}", "a{}b{}"),
    ("<!--a{}-->", "a{}"),
    ("a<!-- {} b{}", "b{}"),
    ("a{<!-- content:none}", "a{}"),
    ("a{<!--;content:none}", "a{content none}"),
];

static AT_RULES: [Read; 20] = [
    // at-rules
    ("@charset \"utf-8\";a{}", "a{}"),
    ("@import url(\"base.css\");a{}", "a{}"),
    ("@import url(base.css);a{}", "a{}"),
    ("@import \"a;{\" b;a{}", "a{}"),
    ("@import a{};b{}", ""),
    ("@import a{}b{}", "b{}"),
    ("@x", ""),
    ("@x;a{}", "a{}"),
    ("@x a{}", ""),
    ("@x a{b{}}c{}", "c{}"),
    ("@x(;){}a{}", "a{}"),
    ("@x({;}){}a{}", "a{}"),
    ("@x[;];a{}", "a{}"),
    ("@x };a{}", "a{}"),
    ("@x{a{}", ""),
    ("a{}@x{b{}}c{}", "a{}c{}"),
    ("a @x{}b{}", "b{}"),
    ("a @x;{}b{}", "b{}"),
    ("@ x;a{}", ""),
    ("@page{@x{}a{}}b{}", "b{}"),
];

/// Blocks and their declarations.
static BLOCKS: [Read; 41] = [
    // blocks
    ("a{content:none", "a{content none}"),
    ("a{content:none;", "a{content none}"),
    ("a{", "a{}"),
    ("a{;;;}", "a{}"),
    ("a{ ; content : none ; }", "a{content none}"),
    (
        "a{content:none;content:normal}",
        "a{content none;content normal}",
    ),
    ("a{content:none content:normal}", "a{}"),
    ("a{x;content:none}", "a{content none}"),
    ("a{x{content:none}content:normal}", "a{}"),
    ("a{x{content:none};content:normal}", "a{content normal}"),
    ("a{x:{;};content:none}", "a{content none}"),
    ("a{x:(;);content:none}", "a{content none}"),
    ("a{x:[;];content:none}", "a{content none}"),
    ("a{x:(};content:none}b{}", "a{}"),
    ("a{x:(]);content:none}", "a{content none}"),
    ("a{x:[)];content:none}", "a{content none}"),
    ("a{x:)];content:none}", "a{content none}"),
    ("a{x:f(;);content:none}", "a{content none}"),
    (
        "a{content:\";\";content:\"}\"}",
        "a{content ';';content '}'}",
    ),
    ("a{content:\"b\n;content:none}", "a{content none}"),
    ("a{x:url(;);content:none}", "a{content none}"),
    ("a{@x;content:none}", "a{content none}"),
    ("a{@x{content:normal}content:none}", "a{content none}"),
    ("a{@x b;content:none}", "a{content none}"),
    ("a{@x{}}b{}", "a{}b{}"),
    ("a{b{}c{}content:none}d{}", "a{}d{}"),
    ("a{&{content:none}}b{}", "a{}b{}"),
    // declarations
    ("a{CONTENT:NONE}", "a{content none}"),
    ("a{c\\6fntent:none}", "a{content none}"),
    ("a{content/**/:/**/none}", "a{content none}"),
    ("a{content none}", "a{}"),
    ("a{:none}", "a{}"),
    ("a{content::none}", "a{}"),
    ("a{content:}", "a{}"),
    ("a{*content:none}", "a{}"),
    ("a{content:none!important}", "a{content none!}"),
    ("a{content:none ! /**/ IMPORTANT }", "a{content none!}"),
    ("a{content:none!x}", "a{}"),
    ("a{content:none!important!important}", "a{}"),
    ("a{content:!important none}", "a{}"),
    ("a{content:counter(c!important", "a{}"),
];

/// Counter styles.
static STYLES: [Read; 20] = [
    ("@counter-style x{}", "@x{}"),
    ("@COUNTER-style/**/ x /**/{}", "@x{}"),
    ("@counter-style/**/x/**/{}", "@x{}"),
    ("@counter-style X{}@counter-style x{}", "@X{}@x{}"),
    ("@counter-style disc{}", "@disc{}"),
    ("@counter-style{}", ""),
    ("@counter-style \"x\"{}", ""),
    ("@counter-style x y{}", ""),
    ("@counter-style x;", ""),
    ("@counter-style x", ""),
    ("@counter-style x(a){}", ""),
    (
        "@counter-style x{symbols:a b;suffix:\"\"}a{}",
        "a{}@x{symbols 2;suffix}",
    ),
    (
        "@counter-style x{symbols:a;symbols:b c;suffix:d}",
        "@x{symbols 2;suffix}",
    ),
    (
        "@counter-style x{symbols:b c;suffix:d;symbols:,}",
        "@x{symbols 2;suffix}",
    ),
    (
        "@counter-style x{symbols:b c;suffix:d;symbols:a}",
        "@x{suffix;symbols 1}",
    ),
    ("@counter-style x{range:1 2;range:auto}", "@x{range auto}"),
    ("@counter-style x{range:auto;range:1 2}", "@x{range}"),
    (
        "@counter-style x{symbols:a!important;suffix:b}",
        "@x{suffix}",
    ),
    (
        "@counter-style x{content:none;system:fixed;@y{}pad:1 a}",
        "@x{system;pad}",
    ),
    ("@media x{@counter-style x{}}", ""),
];

/// Texts, and the one sheet that they are together.
type ReadTogether = (&'static [&'static str], &'static str);

static TOGETHER: [ReadTogether; 12] = [
    (&[], ""),
    (
        &["a{content:none}@counter-style x{symbols:b}"],
        "a{content none}@x{symbols 1}",
    ),
    // all stay, in the order of their texts
    (
        &[
            "b{}@counter-style y{symbols:c}",
            "a{content:none}@counter-style x{}",
        ],
        "b{}a{content none}@y{symbols 1}@x{}",
    ),
    (
        &[
            "a{}@counter-style x{}",
            "@counter-style x{suffix:b}a{}",
            "c{}",
        ],
        "a{}a{}c{}@x{}@x{suffix}",
    ),
    (&["", "a{}", "<!--", "b{}"], "a{}b{}"),
    (&["\u{feff}a{}", "\u{feff}b{}"], "a{}b{}"),
    // what a text leaves open
    (&["a{content:none", "b{}"], "a{content none}b{}"),
    (&["a{}/*", "b{}"], "a{}b{}"),
    (&["a{content:\"b", "c{}"], "a{content 'b'}c{}"),
    (&["@media x{", "a{}"], "a{}"),
    (&["@x", "a{}"], "a{}"),
    (&["a", "b{}"], "b{}"),
];

/// Values of `style` attributes, and their declarations.
static INLINE: [Read; 33] = [
    ("", ""),
    (" ;; ", ""),
    ("content:none", "content none"),
    (" content : none ; ", "content none"),
    (
        "counter-reset:x;counter-increment:y;content:\"a\"",
        "counter-reset;counter-increment;content 'a'",
    ),
    ("content:none;content:normal", "content none;content normal"),
    ("content:none!important", "content none!"),
    ("list-style:\"y\"!important", "list-style!"),
    (
        "content:none ! IMPORTANT;content:normal",
        "content none!;content normal",
    ),
    // what is not understood
    ("color:red;;content:\"a\" b ! important", ""),
    (
        "color:red;;content:\"a\" ! important;x;content:none",
        "content 'a'!;content none",
    ),
    ("content:none content:normal;content:none", "content none"),
    ("content:none!x;content:normal", "content normal"),
    ("<!--content:none-->;content:normal", "content normal"),
    ("content:\"a\n;content:none", "content none"),
    // at-rules
    ("@x", ""),
    ("@x;content:none", "content none"),
    ("@x{content:normal}content:none", "content none"),
    (
        "content:none;@x b{;};content:normal",
        "content none;content normal",
    ),
    // brackets
    ("content:\"a\"}content:\"b\"", ""),
    ("content:\"a\"}content:\"b\";content:none", "content none"),
    ("}content:none", ""),
    ("};content:none}", ""),
    ("x:]);content:none", "content none"),
    ("a{content:none}", ""),
    ("{content:none}content:normal", ""),
    ("a{content:none;};content:normal", "content normal"),
    ("x:(;content:none", ""),
    // the ends of the text, and comments
    ("\u{feff}content:none", "content none"),
    ("\u{feff}\u{feff}content:none", ""),
    ("content:\"a", "content 'a'"),
    (
        "/*;*/content/**/:/*;*/none/*;content:normal",
        "content none",
    ),
    ("content:none;/*", "content none"),
];

/// Selectors, and what they look at: siblings, positions, emptiness.
type Looking = (&'static str, bool, bool, bool);

static FEATURES: [Looking; 16] = [
    ("a b > c.d[e]:root:hover::before", false, false, false),
    ("a + b", true, false, false),
    ("a ~ b", true, false, false),
    ("a,b c + d", true, false, false),
    (":first-child", false, true, false),
    (":only-child", false, true, false),
    (":only-of-type", false, true, false),
    ("a :nth-last-of-type(2) b", false, true, false),
    (":empty", false, false, true),
    (":is(a,b:empty)", false, false, true),
    (":where(:not(a,:is(:last-child)))", false, true, false),
    (":not(:empty:first-child)", false, true, true),
    ("a+b:not(:where(:empty))", true, false, true),
    (":is(a,b) c", false, false, false),
    ("a + b:wild", false, false, false),
    (":not(:not(:not(:not(:empty))))", false, false, true),
];

fn told_sheet(alloc: Global, text: &str) -> Result<Text, Memory> {
    let sheet = read_sheet(alloc, text)?;
    let mut out = Text::new(alloc);
    push_sheet(&sheet, &mut out)?;
    Ok(out)
}

/// The first text with another sheet; none where each has the one beside it.
fn first_wrong(alloc: Global, table: &[Read]) -> Result<Option<&'static str>, Memory> {
    for (text, expected) in table {
        if told_sheet(alloc, text)?.as_str() != *expected {
            return Ok(Some(text));
        }
    }
    Ok(None)
}

#[test]
fn sheets_recover_as_css_does(rt: HostRuntime) -> Result<(), Fail> {
    assert_eq!(rt; first_wrong(rt.alloc(), &RULES)?, None);
    assert_eq!(rt; first_wrong(rt.alloc(), &AT_RULES)?, None);
    assert_eq!(rt; first_wrong(rt.alloc(), &BLOCKS)?, None);
    assert_eq!(rt; first_wrong(rt.alloc(), &STYLES)?, None);
    Ok(())
}

fn texts_of(alloc: Global, texts: &[&str]) -> Result<List<Text>, Memory> {
    let mut list = List::new(alloc);
    for text in texts {
        list.push(Text::from_str(alloc, text)?)?;
    }
    Ok(list)
}

fn told_together(alloc: Global, texts: &[&str]) -> Result<Text, Memory> {
    let list = texts_of(alloc, texts)?;
    let sheet = read_sheets(alloc, list.as_slice())?;
    let mut out = Text::new(alloc);
    push_sheet(&sheet, &mut out)?;
    Ok(out)
}

/// The sheet that is another than that of the texts beside it, of the first such row.
fn first_other_sheet(
    alloc: Global,
    table: &[ReadTogether],
) -> Result<Option<&'static str>, Memory> {
    for (texts, expected) in table {
        if told_together(alloc, texts)?.as_str() != *expected {
            return Ok(Some(expected));
        }
    }
    Ok(None)
}

#[test]
fn several_texts_are_one_sheet(rt: HostRuntime) -> Result<(), Fail> {
    assert_eq!(rt; first_other_sheet(rt.alloc(), &TOGETHER)?, None);
    Ok(())
}

fn told_declarations(alloc: Global, text: &str) -> Result<Text, Memory> {
    let found = read_inline(alloc, text)?;
    let mut out = Text::new(alloc);
    push_declarations(found.as_slice(), &mut out)?;
    Ok(out)
}

/// The first attribute with other declarations; none where each has those beside it.
fn first_misread(alloc: Global, table: &[Read]) -> Result<Option<&'static str>, Memory> {
    for (text, expected) in table {
        if told_declarations(alloc, text)?.as_str() != *expected {
            return Ok(Some(text));
        }
    }
    Ok(None)
}

#[test]
fn style_attributes_have_declarations(rt: HostRuntime) -> Result<(), Fail> {
    assert_eq!(rt; first_misread(rt.alloc(), &INLINE)?, None);
    Ok(())
}

/// The specificity of the first selector of the first rule.
fn first_specificity(alloc: Global, text: &str) -> Result<Option<Specificity>, Memory> {
    let sheet = read_sheet(alloc, text)?;
    let Some(rule) = sheet.rules.as_slice().first() else {
        return Ok(None);
    };
    Ok(rule.selectors.as_slice().first().map(specificity))
}

#[test]
fn a_selector_of_a_rule_has_its_specificity(rt: HostRuntime) -> Result<(), Fail> {
    let text = ":is(#a,b) > c.d:nth-child(2n + 1)::before{}";
    let expected = Specificity {
        ids: 1,
        classes: 2,
        types: 2,
    };
    assert_eq!(rt; first_specificity(rt.alloc(), text)?, Some(expected));
    Ok(())
}

/// What the selectors of a sheet look at: siblings, positions, emptiness.
fn looked_at(alloc: Global, text: &str) -> Result<(bool, bool, bool), Memory> {
    let found = features(&read_sheet(alloc, text)?);
    Ok((found.siblings, found.positions, found.empties))
}

/// The first selectors that look at something else; none where each look at what stands beside them.
fn first_mistaken(alloc: Global, table: &[Looking]) -> Result<Option<&'static str>, Memory> {
    for (selectors, siblings, positions, empties) in table {
        let mut text = Text::new(alloc);
        push_all(&[selectors, "{}"], &mut text)?;
        if looked_at(alloc, text.as_str())? != (*siblings, *positions, *empties) {
            return Ok(Some(selectors));
        }
    }
    Ok(None)
}

#[test]
fn features_are_found_at_any_depth(rt: HostRuntime) -> Result<(), Fail> {
    assert_eq!(rt; first_mistaken(rt.alloc(), &FEATURES)?, None);
    Ok(())
}

/// A whole sheet as a house writes it.
const HOUSE: &str = "@charset \"utf-8\";
/* house style */
@import url(\"base.css\");
@counter-style note { system: cyclic; symbols: \"*\" \"†\" \"‡\"; suffix: \" \" }
body { counter-reset: sec fig; font-family: serif; margin: 0 auto }
section { counter-increment: sec }
h2 { color: #333; font-size: 1.4em }
h2::before { content: counter(sec, upper-roman) \". \" }
figure { counter-increment: fig; margin: 1em }
figcaption::before { content: \"Fig. \" counter(fig) \": \" }
a:hover, a:focus { text-decoration: underline }
a.ref::after { content: \" (Fig. \" target-counter(attr(href), fig) \", \" target-text(attr(href)) \")\" }
a.fn::after { content: target-counter(attr(href), list-item, note) }
ol.notes { list-style: note outside }
ol ol { list-style-type: lower-alpha }
ul li::marker { content: \"- \" }
q { quotes: \"«\" \"»\" \"“\" \"”\" }
p { color: red; content counter(x); }
.x::wild { content: \"no\" }
@media print { a { color: black } }
";

const HOUSE_TOLD: &str =
    "body{counter-reset}section{counter-increment}h2{}h2::before{content 2}figure{counter-increment}figcaption::before{content 3}a:other,a:other{}a.ref::after{content 5}a.fn::after{content 1}ol.notes{list-style}ol ol{list-style}ul li::marker{content '- '}q{quotes}p{}@note{system;symbols 3;suffix}";

static HOUSES: [Read; 1] = [(HOUSE, HOUSE_TOLD)];

#[test]
fn a_house_sheet_gives_its_rules(rt: HostRuntime) -> Result<(), Fail> {
    assert_eq!(rt; first_wrong(rt.alloc(), &HOUSES)?, None);
    assert_eq!(rt; looked_at(rt.alloc(), HOUSE)?, (false, false, false));
    Ok(())
}
