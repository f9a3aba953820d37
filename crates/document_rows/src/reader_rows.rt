//! Texts, and what is answered: the nodes in tree order, each behind its depth, or the line and the
//! column of the fault. The answers are worked out by hand from the grammar.

use plain_types::node::NodeView;
use plain_types::tree::Tree;
use std::fmt::Write;
use std::test::Fail;
use xhtml_reader::fault::DocFault;
use xhtml_reader::{is_name, read_document, read_fragment};

fn push_attr(told: &mut String, name: &str, value: &str) -> Result<(), Fail> {
    for part in [" ", name, "=", value] {
        told.push_str(part)?;
    }
    Ok(())
}

fn push_node(told: &mut String, node: NodeView<'_>) -> Result<(), Fail> {
    match node {
        NodeView::Element { name, attrs } => {
            told.push('<')?;
            told.push_str(name)?;
            for attr in attrs {
                push_attr(told, attr.name.as_str(), attr.value.as_str())?;
            }
            told.push('>')?;
        }
        NodeView::Text { characters } => {
            told.push('"')?;
            told.push_str(characters)?;
            told.push('"')?;
        }
    }
    Ok(())
}

fn told_tree(rt: &HostRuntime, tree: &Tree) -> Result<String, Fail> {
    let mut told = String::new(rt.alloc());
    for place in 0..tree.len() {
        let depth = tree.depth(place);
        write!(told, "{depth}")?;
        push_node(&mut told, tree.node(place))?;
    }
    Ok(told)
}

fn told(rt: &HostRuntime, answer: Result<Tree, DocFault>) -> Result<String, Fail> {
    match answer {
        Ok(tree) => told_tree(rt, &tree),
        Err(DocFault::Malformed { line, column }) => {
            Ok(format!(in rt.alloc(); "{line}:{column}")?)
        }
        Err(DocFault::Memory) => Ok(String::from_str(rt.alloc(), "memory")?),
    }
}

static DOCUMENTS: [(&str, &str); 19] = [
    ("<ol><li>a</li></ol>", "0<ol>1<li>2\"a\""),
    ("<a/>", "0<a>"),
    ("<a ></a >", "0<a>"),
    // round the root
    (
        "\u{feff}<?xml version='1.0'?>\r\n<!DOCTYPE html PUBLIC 'x' \"y\" >\t<!-- -- --> <a/> <?p q?>\r<!---->",
        "0<a>",
    ),
    ("<!doctype a><a/>", "0<a>"),
    ("<!DOCTYPE a SYSTEM 'b'><a/>", "0<a>"),
    ("<!DOCTYPE a PUBLIC 'b'><a/>", "0<a>"),
    // one text, unless an element stands between
    (
        "<a>x<!-- c -->y<?p?>&#122;<![CDATA[w]]></a>",
        "0<a>1\"xyzw\"",
    ),
    ("<a>x<b/>y</a>", "0<a>1\"x\"1<b>1\"y\""),
    ("<a><![CDATA[]]></a>", "0<a>"),
    ("<a><b/><![CDATA[]]><b/></a>", "0<a>1<b>1<b>"),
    ("<a><![CDATA[<&]]]]></a>", "0<a>1\"<&]]\""),
    ("<a>]]></a>", "0<a>1\"]]>\""),
    // line ends
    ("<a>1\r\n2\r3\r\r\n4</a>", "0<a>1\"1\n2\n3\n\n4\""),
    ("<a>&#13;&#10;</a>", "0<a>1\"\r\n\""),
    // references
    (
        "<a>&lt;&#65;&#x1F600;&#x000e9;&hellip;</a>",
        "0<a>1\"<A\u{1f600}\u{e9}\u{2026}\"",
    ),
    // attributes
    ("<a b='1\t2\r\n3' c = \"'\">x</a>", "0<a b=1 2 3 c='>1\"x\""),
    ("<a b='&#9;&#10;&amp;'/>", "0<a b=\t\n&>"),
    // names
    ("<_:\u{e9}-.1 \u{1f600}=''/>", "0<_:\u{e9}-.1 \u{1f600}=>"),
];

#[test]
fn documents(rt: HostRuntime) -> Result<(), Fail> {
    for (text, answer) in &DOCUMENTS {
        let found = told(&rt, read_document(rt.alloc(), text))?;
        assert_eq!(rt; found.as_str(), *answer, "{text}");
    }
    Ok(())
}

static NO_DOCUMENTS: [(&str, &str); 41] = [
    ("", "1:1"),
    (" \n", "2:1"),
    ("<!-- c -->", "1:11"),
    ("x<a/>", "1:1"),
    ("<![CDATA[]]><a/>", "1:1"),
    ("</a>", "1:1"),
    ("<a>", "1:4"),
    ("<a><b></b>", "1:11"),
    ("<a></b>", "1:4"),
    ("<a></A>", "1:4"),
    ("<a><b></a></b>", "1:7"),
    ("<a/><b/>", "1:5"),
    ("<a/>x", "1:5"),
    ("<a/>&#32;", "1:5"),
    ("<a/><!DOCTYPE a>", "1:5"),
    ("<!DOCTYPE a><!DOCTYPE a><a/>", "1:13"),
    // items that are broken
    ("<!DOCTYPE><a/>", "1:1"),
    ("<!DOCTYPE a SYSTEM><a/>", "1:1"),
    ("<!DOCTYPE a [<!ENTITY b 'c'>]><a/>", "1:1"),
    ("<1/>", "1:1"),
    ("<a b/>", "1:1"),
    ("<a b='<'/>", "1:1"),
    ("<a b='c'd='e'/>", "1:1"),
    ("<p a='' a=''>", "1:1"),
    ("<p>&#xD800;", "1:4"),
    ("<a>&amp</a>", "1:4"),
    ("<a>&nope;</a>", "1:4"),
    ("<a>&#X41;</a>", "1:4"),
    ("<a>&#;</a>", "1:4"),
    ("<a>&#0;</a>", "1:4"),
    ("<a><!-- --</a>", "1:4"),
    ("<a><? p?></a>", "1:4"),
    ("<a><![cdata[]]></a>", "1:4"),
    ("<a><\u{fffe}/></a>", "1:4"),
    ("<a><!--\u{ffff}--></a>", "1:4"),
    ("<a>\u{fffe}</a>", "1:4"),
    ("<a>x\u{0}</a>", "1:5"),
    // lines and columns
    ("<a>\r\n\r\n\rx<b</a>", "4:2"),
    ("\u{feff}\u{feff}<a/>", "1:1"),
    ("\u{feff}<a>\u{1f600}\u{e9}&</a>", "1:6"),
    ("<a>\n\n", "3:1"),
];

#[test]
fn no_documents(rt: HostRuntime) -> Result<(), Fail> {
    for (text, answer) in &NO_DOCUMENTS {
        let found = told(&rt, read_document(rt.alloc(), text))?;
        assert_eq!(rt; found.as_str(), *answer, "{text}");
    }
    Ok(())
}

/// The first characters of a document, more and more of them.
#[test]
fn beginnings(rt: HostRuntime) -> Result<(), Fail> {
    let columns = [
        1, 1, 1, 1, 5, 5, 5, 5, 9, 10, 10, 10, 10, 10, 15, 15, 15, 15, 15,
    ];
    for (count, column) in columns.into_iter().enumerate() {
        let front = "<ol><li>a</li></ol>".get(..count).ok_or("a front")?;
        match read_document(rt.alloc(), front) {
            Err(fault) => assert_eq!(rt; fault, DocFault::Malformed { line: 1, column }),
            Ok(_) => return Err(Fail::from("no document")),
        }
    }
    Ok(())
}

static FRAGMENTS: [(&str, &str); 17] = [
    ("a", "0\"a\""),
    (" ", "0\" \""),
    ("\u{feff}\r\n", "0\"\n\""),
    ("<a b='c'/>", "0<a b=c>"),
    (
        "<!-- c --><![CDATA[]]><a>b</a><!-- c --><?p?><![CDATA[]]>",
        "0<a>1\"b\"",
    ),
    ("x&lt;<!-- c --><![CDATA[y]]>", "0\"x<y\""),
    // none
    ("", "1:1"),
    ("<!-- c -->", "1:11"),
    ("<![CDATA[]]>", "1:13"),
    ("<a/><b/>", "1:5"),
    ("<a/> ", "1:5"),
    ("<a/><![CDATA[x]]>", "1:5"),
    (" <a/>", "1:2"),
    ("<!DOCTYPE a><b/>", "1:1"),
    ("<a>", "1:4"),
    ("</a>", "1:1"),
    ("&", "1:1"),
];

#[test]
fn fragments(rt: HostRuntime) -> Result<(), Fail> {
    for (text, answer) in &FRAGMENTS {
        let found = told(&rt, read_fragment(rt.alloc(), text))?;
        assert_eq!(rt; found.as_str(), *answer, "{text}");
    }
    Ok(())
}

#[test]
fn names(rt: HostRuntime) {
    for name in ["a", "A", "_", ":", "\u{e9}", "a-.:_1\u{1f600}"] {
        assert!(rt; is_name(name));
    }
    for text in [
        "",
        "1",
        "-a",
        ".",
        "a b",
        "a ",
        "\u{fffe}",
        "a\u{ffff}",
        "a=",
    ] {
        assert!(rt; !is_name(text));
    }
}

#[test]
fn messages(rt: HostRuntime) -> Result<(), Fail> {
    let faults = [
        (
            DocFault::Malformed { line: 3, column: 5 },
            "the text is not well-formed at line 3, column 5",
        ),
        (DocFault::Memory, "out of memory"),
    ];
    for (fault, message) in &faults {
        let told = format!(in rt.alloc(); "{fault}")?;
        assert_eq!(rt; told.as_str(), *message);
    }
    Ok(())
}

/// No call recurses on a document.
#[test]
fn depth(rt: HostRuntime) -> Result<(), Fail> {
    let mut text = String::new(rt.alloc());
    for _ in 0..100_000 {
        text.push_str("<a>")?;
    }
    for _ in 0..100_000 {
        text.push_str("</a>")?;
    }
    assert_eq!(rt; read_document(rt.alloc(), &text)?.len(), 100_000);
    Ok(())
}
