//! The tokens and spans of texts, worked out by hand from CSS Syntax 3, 4.3.

use crate::pushing::{push_all, push_number};
use css_tokens::lexer::tokens;
use css_tokens::numbers::integer;
use css_tokens::sheet_text::prepare_text;
use css_tokens::token::{Token, TokenKind};
use css_tokens::token_reading::{close, delimiter, function, ident, skip_whitespace};
use plain_types::count::{COUNT_HIGH, COUNT_LOW, Count};
use plain_types::memory::Memory;
use plain_types::text::Text;
use std::alloc::Global;
use std::test::Fail;

/// A text, and its tokens with their places.
type Tokenized = (&'static str, &'static str);

/// Comments, blanks and strings.
static COMMENTS_BLANKS_AND_STRINGS: [Tokenized; 34] = [
    ("", ""),
    // comments leave nothing
    ("/**/", ""),
    ("/***/x", "[word x 5 6]"),
    ("a/**//**/b", "[word a 0 1][word b 9 10]"),
    (" /**/ ", "[blank 0 1][blank 5 6]"),
    ("/", "[sign / 0 1]"),
    ("/ *", "[sign / 0 1][blank 1 2][sign * 2 3]"),
    ("/*/x", ""),
    ("a/**/b", "[word a 0 1][word b 5 6]"),
    ("/* a */b", "[word b 7 8]"),
    ("/*/", ""),
    ("a/b", "[word a 0 1][sign / 1 2][word b 2 3]"),
    ("a /*x", "[word a 0 1][blank 1 2]"),
    // blanks
    ("\u{b}", "[sign \u{b} 0 1]"),
    ("\u{a0}x", "[word \u{a0}x 0 3]"),
    (" \t\nx", "[blank 0 3][word x 3 4]"),
    ("\r\n\u{c}x", "[blank 0 2][word x 2 3]"),
    // strings
    ("\"", "[string  0 1]"),
    ("''", "[string  0 2]"),
    ("'a\\'b'", "[string a'b 0 6]"),
    (
        "'a\nb'",
        "[bad-string 0 2][blank 2 3][word b 3 4][string  4 5]",
    ),
    ("\"\\a b\"", "[string \nb 0 6]"),
    ("'\\", "[string  0 2]"),
    ("\"\\0\"", "[string \u{fffd} 0 4]"),
    ("'\\\r\n'", "[string  0 4]"),
    ("'/*'", "[string /* 0 4]"),
    ("'url(x)'", "[string url(x) 0 8]"),
    ("\"a\n", "[bad-string 0 2][blank 2 3]"),
    ("\"a", "[string a 0 2]"),
    ("'\"'x", "[string \" 0 3][word x 3 4]"),
    ("\"a\\\nb\"", "[string ab 0 6]"),
    ("\"a\\", "[string a 0 3]"),
    ("\"\\31 2\"", "[string 12 0 7]"),
    ("\"\\\"\"", "[string \" 0 4]"),
];

/// Escapes and hashes.
static ESCAPES_AND_HASHES: [Tokenized; 41] = [
    // escapes
    ("\\dfff ", "[word \u{fffd} 0 6]"),
    ("\\e000 ", "[word \u{e000} 0 6]"),
    ("\\E000", "[word \u{e000} 0 5]"),
    ("\\61\tb", "[word ab 0 5]"),
    ("\\61\r\nb", "[word ab 0 5]"),
    ("\\0000410", "[word A0 0 8]"),
    ("\\ffffff", "[word \u{fffd} 0 7]"),
    ("\\g", "[word g 0 2]"),
    ("\\€", "[word € 0 4]"),
    ("\\ x", "[word  x 0 3]"),
    ("\\-x", "[word -x 0 3]"),
    ("a\\", "[word a\u{fffd} 0 2]"),
    ("-\\", "[word -\u{fffd} 0 2]"),
    ("-\\\n", "[sign - 0 1][sign \\ 1 2][blank 2 3]"),
    ("a\\\nb", "[word a 0 1][sign \\ 1 2][blank 2 3][word b 3 4]"),
    ("\u{0}", "[word \u{fffd} 0 3]"),
    ("\\0", "[word \u{fffd} 0 2]"),
    ("\\d800 x", "[word \u{fffd}x 0 7]"),
    ("\\110000z", "[word \u{fffd}z 0 8]"),
    ("\\10FFFFz", "[word \u{10ffff}z 0 8]"),
    ("\\00004112", "[word A12 0 9]"),
    ("\\41  b", "[word A 0 4][blank 4 5][word b 5 6]"),
    ("\\", "[word \u{fffd} 0 1]"),
    ("\\\n", "[sign \\ 0 1][blank 1 2]"),
    ("a\\.b", "[word a.b 0 4]"),
    // hashes
    ("#", "[sign # 0 1]"),
    ("##", "[sign # 0 1][sign # 1 2]"),
    ("# a", "[sign # 0 1][blank 1 2][word a 2 3]"),
    ("#-a", "[id -a 0 3]"),
    ("#-1", "[hash -1 0 3]"),
    ("#a(", "[id a 0 2][sign ( 2 3]"),
    ("#é", "[id é 0 3]"),
    ("#\\", "[id \u{fffd} 0 2]"),
    ("#\\\n", "[sign # 0 1][sign \\ 1 2][blank 2 3]"),
    ("#-\\31", "[id -1 0 5]"),
    ("#x", "[id x 0 2]"),
    ("#1", "[hash 1 0 2]"),
    ("#-", "[hash - 0 2]"),
    ("#--", "[id -- 0 3]"),
    ("#\\31 a", "[id 1a 0 6]"),
    ("#(", "[sign # 0 1][sign ( 1 2]"),
];

/// Numbers, percentages and dimensions.
static NUMBERS: [Tokenized; 51] = [
    // numbers
    ("007", "[integer 7 0 3]"),
    ("+0", "[integer 0 0 2]"),
    ("2147483647", "[integer 2147483647 0 10]"),
    ("2147483648", "[integer 2147483648 0 10]"),
    ("-2147483649", "[integer -2147483649 0 11]"),
    ("1.5e3", "[number 0 0 5]"),
    ("1E3", "[number 0 0 3]"),
    ("1e-5", "[number 0 0 4]"),
    ("-.5", "[number 0 0 3]"),
    ("1.e3", "[integer 1 0 1][sign . 1 2][word e3 2 4]"),
    ("1e3.5", "[number 0 0 3][number 0 3 5]"),
    ("1..5", "[integer 1 0 1][sign . 1 2][number 0 2 4]"),
    ("1.2.3", "[number 0 0 3][number 0 3 5]"),
    ("+-1", "[sign + 0 1][integer -1 1 3]"),
    ("-+1", "[sign - 0 1][integer 1 1 3]"),
    ("1-2", "[integer 1 0 1][integer -2 1 3]"),
    (".", "[sign . 0 1]"),
    ("-.", "[sign - 0 1][sign . 1 2]"),
    (".a", "[sign . 0 1][word a 1 2]"),
    ("1-", "[integer 1 0 1][sign - 1 2]"),
    ("1--", "[dimension 0 3]"),
    ("1e+", "[dimension 0 2][sign + 2 3]"),
    ("1e3e3", "[dimension 0 5]"),
    ("1é", "[dimension 0 3]"),
    ("1%", "[percentage 0 2]"),
    ("1 %", "[integer 1 0 1][blank 1 2][sign % 2 3]"),
    ("1\\%", "[dimension 0 3]"),
    ("1\\\n", "[integer 1 0 1][sign \\ 1 2][blank 2 3]"),
    ("1/**/px", "[integer 1 0 1][word px 5 7]"),
    ("12", "[integer 12 0 2]"),
    ("-0", "[integer 0 0 2]"),
    ("+7", "[integer 7 0 2]"),
    ("1e3", "[number 0 0 3]"),
    ("1e+2", "[number 0 0 4]"),
    ("+.5", "[number 0 0 3]"),
    ("1.5", "[number 0 0 3]"),
    ("1.", "[integer 1 0 1][sign . 1 2]"),
    ("+", "[sign + 0 1]"),
    ("+a", "[sign + 0 1][word a 1 2]"),
    ("99999999999", "[integer 99999999999 0 11]"),
    ("-99999999999", "[integer -99999999999 0 12]"),
    ("9223372036854775808", "[integer 9223372036854775807 0 19]"),
    (
        "-9223372036854775809",
        "[integer -9223372036854775808 0 20]",
    ),
    ("1e", "[dimension 0 2]"),
    ("1ex", "[dimension 0 3]"),
    ("1e-", "[dimension 0 3]"),
    ("1e3x", "[dimension 0 4]"),
    ("-2n", "[dimension 0 3]"),
    ("1\\", "[dimension 0 2]"),
    ("1-->", "[dimension 0 3][sign > 3 4]"),
    (".5e3%", "[percentage 0 5]"),
];

/// Identifiers, functions and at-keywords, and what begins and ends comments of XML.
static NAMES: [Tokenized; 43] = [
    // comments of XML
    ("->", "[sign - 0 1][sign > 1 2]"),
    ("-->a", "[close 0 3][word a 3 4]"),
    ("--->", "[word --- 0 3][sign > 3 4]"),
    ("a-->", "[word a-- 0 3][sign > 3 4]"),
    ("\\-->", "[word -- 0 3][sign > 3 4]"),
    ("<!", "[sign < 0 1][sign ! 1 2]"),
    ("<!---->", "[open 0 4][close 4 7]"),
    ("<!--->", "[open 0 4][sign - 4 5][sign > 5 6]"),
    ("-->", "[close 0 3]"),
    ("<!--", "[open 0 4]"),
    ("<!-", "[sign < 0 1][sign ! 1 2][sign - 2 3]"),
    // identifiers
    ("_", "[word _ 0 1]"),
    ("-_", "[word -_ 0 2]"),
    ("-é", "[word -é 0 3]"),
    ("a-", "[word a- 0 2]"),
    ("--1", "[word --1 0 3]"),
    ("--\\31", "[word --1 0 5]"),
    ("-(", "[sign - 0 1][sign ( 1 2]"),
    ("--(", "[function -- 0 3]"),
    ("-f(", "[function -f 0 3]"),
    ("f\\((", "[function f( 0 4]"),
    ("f/**/(", "[word f 0 1][sign ( 5 6]"),
    ("--x", "[word --x 0 3]"),
    ("--", "[word -- 0 2]"),
    ("-", "[sign - 0 1]"),
    ("-a1", "[word -a1 0 3]"),
    ("é€", "[word é€ 0 5]"),
    ("a:b", "[word a 0 1][sign : 1 2][word b 2 3]"),
    ("f(", "[function f 0 2]"),
    ("f (", "[word f 0 1][blank 1 2][sign ( 2 3]"),
    // at-keywords
    ("@", "[sign @ 0 1]"),
    ("@@x", "[sign @ 0 1][at x 1 3]"),
    ("@ x", "[sign @ 0 1][blank 1 2][word x 2 3]"),
    ("@/**/x", "[sign @ 0 1][word x 5 6]"),
    ("@--", "[at -- 0 3]"),
    ("@-a", "[at -a 0 3]"),
    ("@\\", "[at \u{fffd} 0 2]"),
    ("@\\\n", "[sign @ 0 1][sign \\ 1 2][blank 2 3]"),
    ("@x(", "[at x 0 2][sign ( 2 3]"),
    (
        "@url(x)",
        "[at url 0 4][sign ( 4 5][word x 5 6][sign ) 6 7]",
    ),
    ("@x", "[at x 0 2]"),
    ("@1", "[sign @ 0 1][integer 1 1 2]"),
    ("@-", "[sign @ 0 1][sign - 1 2]"),
];

/// Addresses, and any other character.
static ADDRESSES_AND_SIGNS: [Tokenized; 48] = [
    // addresses
    ("url(x", "[url x 0 5]"),
    ("url(x )", "[url x 0 7]"),
    ("url(\n\tx\n)", "[url x 0 9]"),
    ("url( )x", "[url  0 6][word x 6 7]"),
    ("url(\\29 x)", "[url )x 0 10]"),
    ("url(/**/x)", "[url /**/x 0 10]"),
    ("url(#a.b?c=d&e)", "[url #a.b?c=d&e 0 15]"),
    ("url(é)", "[url é 0 7]"),
    ("url(\u{0})", "[url \u{fffd} 0 8]"),
    ("url(\u{1})", "[bad-url 0 6]"),
    ("url(\u{8})", "[bad-url 0 6]"),
    ("url(\u{b})", "[bad-url 0 6]"),
    ("url(\u{e})", "[bad-url 0 6]"),
    ("url(\u{1f})", "[bad-url 0 6]"),
    ("url(a'b)c", "[bad-url 0 8][word c 8 9]"),
    ("url(()a", "[bad-url 0 6][word a 6 7]"),
    ("url(a b\\", "[bad-url 0 8]"),
    ("url(a\n b)", "[bad-url 0 9]"),
    ("url(\\\n)", "[bad-url 0 7]"),
    ("url(\\'x')", "[bad-url 0 9]"),
    ("url('", "[function url 0 4][string  4 5]"),
    ("url( \"", "[function url 0 4][blank 4 5][string  5 6]"),
    (
        "url (x)",
        "[word url 0 3][blank 3 4][sign ( 4 5][word x 5 6][sign ) 6 7]",
    ),
    ("-url(x)", "[function -url 0 5][word x 5 6][sign ) 6 7]"),
    ("url\\(x)", "[word url(x 0 6][sign ) 6 7]"),
    (
        "url/**/(x)",
        "[word url 0 3][sign ( 7 8][word x 8 9][sign ) 9 10]",
    ),
    ("url( x )", "[url x 0 8]"),
    ("url()", "[url  0 5]"),
    ("url(", "[url  0 4]"),
    ("url( a ", "[url a 0 7]"),
    ("url(a\\", "[url a\u{fffd} 0 6]"),
    ("URL(x)", "[url x 0 6]"),
    ("u\\72 l(x)", "[url x 0 9]"),
    ("url(a\\)b)", "[url a)b 0 9]"),
    ("url(a b)c", "[bad-url 0 8][word c 8 9]"),
    ("url(a\"b)c", "[bad-url 0 8][word c 8 9]"),
    ("url(a(b)", "[bad-url 0 8]"),
    ("url(\u{7f})", "[bad-url 0 6]"),
    ("url(a\\\nb)", "[bad-url 0 9]"),
    ("url(a b\\)c)d", "[bad-url 0 11][word d 11 12]"),
    ("url(a b", "[bad-url 0 7]"),
    ("url(\"x\")", "[function url 0 4][string x 4 7][sign ) 7 8]"),
    (
        "url( 'x')",
        "[function url 0 4][blank 4 5][string x 5 8][sign ) 8 9]",
    ),
    ("urls(x)", "[function urls 0 5][word x 5 6][sign ) 6 7]"),
    // any other character, and a second byte order mark
    (
        "(){}[];:,",
        "[sign ( 0 1][sign ) 1 2][sign { 2 3][sign } 3 4][sign [ 4 5][sign ] 5 6][sign ; 6 7][sign : 7 8][sign , 8 9]",
    ),
    ("~=", "[sign ~ 0 1][sign = 1 2]"),
    ("\u{7f}", "[sign \u{7f} 0 1]"),
    ("\u{feff}\u{feff}a", "[word \u{feff}a 0 4]"),
];

/// Integers at the ends of counts and past them.
static ENDS_OF_COUNTS: [(&str, Count); 8] = [
    ("9223372036854775806", COUNT_HIGH - 1),
    ("9223372036854775807", COUNT_HIGH),
    ("9223372036854775808", COUNT_HIGH),
    ("+99999999999999999999999", COUNT_HIGH),
    ("-9223372036854775807", COUNT_LOW + 1),
    ("-9223372036854775808", COUNT_LOW),
    ("-9223372036854775809", COUNT_LOW),
    ("-99999999999999999999999", COUNT_LOW),
];

/// The token as a word and its value.
fn push_kind(kind: &TokenKind, out: &mut Text) -> Result<(), Memory> {
    match kind {
        TokenKind::Blank => out.push_str("blank"),
        TokenKind::Word(name) => push_all(&["word ", name.as_str()], out),
        TokenKind::Function(name) => push_all(&["function ", name.as_str()], out),
        TokenKind::AtKeyword(name) => push_all(&["at ", name.as_str()], out),
        TokenKind::Hash { name, identifier } => {
            let word = if *identifier { "id " } else { "hash " };
            push_all(&[word, name.as_str()], out)
        }
        TokenKind::Chars(value) => push_all(&["string ", value.as_str()], out),
        TokenKind::BadString => out.push_str("bad-string"),
        TokenKind::Number { whole, value } => {
            out.push_str(if *whole { "integer " } else { "number " })?;
            push_number(*value, out)
        }
        TokenKind::Percentage => out.push_str("percentage"),
        TokenKind::Dimension => out.push_str("dimension"),
        TokenKind::Url(value) => push_all(&["url ", value.as_str()], out),
        TokenKind::BadUrl => out.push_str("bad-url"),
        TokenKind::CommentOpen => out.push_str("open"),
        TokenKind::CommentClose => out.push_str("close"),
        TokenKind::Sign(character) => {
            out.push_str("sign ")?;
            out.push(*character)
        }
    }
}

fn push_token(token: &Token, out: &mut Text) -> Result<(), Memory> {
    out.push('[')?;
    push_kind(&token.kind, out)?;
    out.push(' ')?;
    push_number(token.start, out)?;
    out.push(' ')?;
    push_number(token.end, out)?;
    out.push(']')
}

/// The tokens of the text, and their places in it.
fn told(alloc: Global, text: &str) -> Result<Text, Memory> {
    let prepared = prepare_text(alloc, text)?;
    let found = tokens(alloc, prepared.as_str())?;
    let mut out = Text::new(alloc);
    for token in found.as_slice() {
        push_token(token, &mut out)?;
    }
    Ok(out)
}

/// The first text that has other tokens; none where each has those beside it.
fn first_wrong(alloc: Global, table: &[Tokenized]) -> Result<Option<&'static str>, Memory> {
    for (text, expected) in table {
        if told(alloc, text)?.as_str() != *expected {
            return Ok(Some(text));
        }
    }
    Ok(None)
}

#[test]
fn texts_have_their_tokens(rt: HostRuntime) -> Result<(), Fail> {
    assert_eq!(rt;
        first_wrong(rt.alloc(), &COMMENTS_BLANKS_AND_STRINGS)?,
        None
    );
    assert_eq!(rt; first_wrong(rt.alloc(), &ESCAPES_AND_HASHES)?, None);
    assert_eq!(rt; first_wrong(rt.alloc(), &NUMBERS)?, None);
    assert_eq!(rt; first_wrong(rt.alloc(), &NAMES)?, None);
    assert_eq!(rt; first_wrong(rt.alloc(), &ADDRESSES_AND_SIGNS)?, None);
    Ok(())
}

/// The first text that begins with another integer, or goes on behind it.
fn first_other_integer(table: &[(&'static str, Count)]) -> Option<&'static str> {
    for (text, expected) in table {
        if integer(text) != Some((*expected, "")) {
            return Some(text);
        }
    }
    None
}

#[test]
fn integers_saturate(rt: HostRuntime) -> Result<(), Fail> {
    assert_eq!(rt; first_other_integer(&ENDS_OF_COUNTS), None);
    Ok(())
}

/// What stands between `f(` and `)`, where one sign stands there.
fn past_call(tokens: &[Token]) -> Option<&[Token]> {
    let (_, inside) = function(tokens)?;
    close(')', delimiter(';', inside)?)
}

/// Whether tokens are read from the front: a blank, an identifier, a closed call and an open one.
fn are_read_from_the_front(all: &[Token]) -> bool {
    let Some((name, after)) = ident(skip_whitespace(all)) else {
        return false;
    };
    let closed = past_call(skip_whitespace(after));
    let open = past_call(skip_whitespace(closed.unwrap_or(all)));
    ident(all).is_none()
        && name.as_str() == "a"
        && closed.map(<[Token]>::len) == Some(3)
        && open.map(<[Token]>::len) == Some(0)
}

#[test]
fn tokens_are_read_from_the_front(rt: HostRuntime) -> Result<(), Fail> {
    let text = prepare_text(rt.alloc(), " a f(;) f(;")?;
    let found = tokens(rt.alloc(), text.as_str())?;
    assert!(rt; are_read_from_the_front(found.as_slice()));
    Ok(())
}

#[test]
fn prepared_text(rt: HostRuntime) -> Result<(), Fail> {
    let text = prepare_text(rt.alloc(), "\u{feff}\u{feff}a\r\nb\rc\r\r\n\u{c}\0")?;
    assert_eq!(rt; text.as_str(), "\u{feff}a\nb\nc\n\n\n\u{fffd}");
    Ok(())
}
