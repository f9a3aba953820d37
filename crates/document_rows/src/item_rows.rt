//! What stands at the front of a text, and the longest runs of plain characters. The answers are worked out by hand from
//! the grammar.

use std::test::Fail;
use xhtml_items::item::first_item;
use xhtml_items::passing::split_plain;
use xhtml_items::token::Token;

#[derive(Clone, Copy, Debug, PartialEq, Eq)]
enum Kind {
    Nothing,
    Doctype,
    Comment,
    Instruction,
    StartTag,
    EmptyTag,
    EndTag,
    Reference,
    Section,
    Character,
}

fn kind_of(token: &Token) -> Kind {
    match token {
        Token::Doctype => Kind::Doctype,
        Token::Comment => Kind::Comment,
        Token::Instruction => Kind::Instruction,
        Token::StartTag { .. } => Kind::StartTag,
        Token::EmptyTag { .. } => Kind::EmptyTag,
        Token::EndTag { .. } => Kind::EndTag,
        Token::Reference(_) => Kind::Reference,
        Token::Section(_) => Kind::Section,
        Token::Character(_) => Kind::Character,
    }
}

/// What stands at the front, and how many bytes behind it.
fn read(rt: &HostRuntime, text: &str) -> (Kind, usize) {
    match first_item(rt.alloc(), text) {
        Ok(Some((token, rest))) => (kind_of(&token), rest.len()),
        _ => (Kind::Nothing, 0),
    }
}

#[test]
fn items(rt: HostRuntime) {
    assert_eq!(rt;
        read(&rt, "<!doctype html PUBLIC 'a' \"b\" >x"),
        (Kind::Doctype, 1)
    );
    assert_eq!(rt; read(&rt, "<!-- a -- b --->x"), (Kind::Comment, 1));
    assert_eq!(rt; read(&rt, "<?xml version='1.0'?>x"), (Kind::Instruction, 1));
    assert_eq!(rt;
        read(&rt, "<p a='1'\n\tb = \"&#x22;\" >x"),
        (Kind::StartTag, 1)
    );
    assert_eq!(rt; read(&rt, "<br/>x"), (Kind::EmptyTag, 1));
    assert_eq!(rt; read(&rt, "</p >x"), (Kind::EndTag, 1));
    assert_eq!(rt; read(&rt, "&hellip;x"), (Kind::Reference, 1));
    assert_eq!(rt; read(&rt, "<![CDATA[<&]]]>x"), (Kind::Section, 1));
    assert_eq!(rt; read(&rt, "\u{e9}x"), (Kind::Character, 1));
}

#[test]
fn no_items(rt: HostRuntime) {
    assert_eq!(rt; read(&rt, "<p a='' a=''>x"), (Kind::Nothing, 0));
    assert_eq!(rt; read(&rt, "<p a=''b=''>x"), (Kind::Nothing, 0));
    assert_eq!(rt; read(&rt, "&#xD800;x"), (Kind::Nothing, 0));
    assert_eq!(rt; read(&rt, "<!-- a ->x"), (Kind::Nothing, 0));
    assert_eq!(rt; read(&rt, "<!-- \u{ffff} -->x"), (Kind::Nothing, 0));
    assert_eq!(rt; read(&rt, "<a b='\u{1}'>x"), (Kind::Nothing, 0));
    assert_eq!(rt; read(&rt, "<1>x"), (Kind::Nothing, 0));
    assert_eq!(rt; read(&rt, ""), (Kind::Nothing, 0));
}

/// Texts, and the longest front of plain characters in each.
static RUNS: [(&str, &str); 8] = [
    ("", ""),
    ("a b\tc\n", "a b\tc\n"),
    ("a]]>&", "a]]>"),
    ("<", ""),
    ("\u{e9}\u{20ac}\u{1f600}<", "\u{e9}\u{20ac}\u{1f600}"),
    ("a\u{b}", "a"),
    // 0xef begins the three characters, and the last alone may not stand
    ("\u{f000}\u{fffd}\u{ffff}", "\u{f000}\u{fffd}"),
    ("\u{7f}\u{80}\r", "\u{7f}\u{80}"),
];

#[test]
fn runs(rt: HostRuntime) {
    for (text, front) in &RUNS {
        let (run, rest) = split_plain(text);
        assert_eq!(rt; run, *front);
        assert_eq!(rt; run.len() + rest.len(), text.len());
    }
}

#[test]
fn values(rt: HostRuntime) -> Result<(), Fail> {
    let found = first_item(rt.alloc(), "<a t='x\ty&#9;&#0065;\"\u{f000}\u{e9}'/>")?;
    let (token, rest) = found.ok_or("an item")?;
    assert_eq!(rt; rest.len(), 0);
    let Token::EmptyTag { name, attrs } = token else {
        return Err(Fail::from("an empty tag"));
    };
    assert_eq!(rt; name, "a");
    assert_eq!(rt; attrs.len(), 1);
    for attr in attrs.as_slice() {
        assert_eq!(rt; attr.name.as_str(), "t");
        assert_eq!(rt; attr.value.as_str(), "x y\tA\"\u{f000}\u{e9}");
    }
    Ok(())
}
