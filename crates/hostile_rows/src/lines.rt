//! Scripts with a line that is no command.

use crate::runs::{End, end_of};
use plain_types::memory::Memory;
use std::test::Fail;

const DOCUMENT: &str = "<ol><li>a</li><li>b</li></ol>";

/// Lines that no script of edits has, nor one of a book.
static BAD_LINES: [&str; 65] = [
    // words that are none, or not as they are written
    "Show",
    "SHOW",
    "shows",
    "dump",
    "gen 1 1",
    "undo",
    "redo",
    "in",
    "in ",
    "in\td.xhtml",
    "<li/>",
    // blanks before, behind and between words
    " show",
    "\tshow",
    "show ",
    "show\t",
    "show\r",
    " # a comment",
    "remove  /0",
    "remove\t/0",
    "remove /0 ",
    "move /0  / 0",
    "move /0 / 0 ",
    "set  /0 title x",
    "set /0  title x",
    "unset /0 title ",
    // a mark is skipped at the front of a script alone
    "\u{feff}show",
    // words too few, or too many
    "show show",
    "insert",
    "insert /",
    "insert / 0",
    "insert / 0 ",
    "remove",
    "remove ",
    "remove /0 /1",
    "move /0",
    "move /0 /",
    "move /0 / 0 0",
    "set",
    "set /0",
    "set /0 ",
    "unset /0",
    "unset /0 title x",
    "sheet",
    "sheet ",
    // paths and indexes
    "remove 0",
    "remove //0",
    "remove /0/",
    "remove /00",
    "remove /-1",
    "remove /+1",
    "remove /0x1",
    "remove /4294967296",
    "insert / 00 <li/>",
    "insert / -1 <li/>",
    "insert / 4294967296 <li/>",
    "move /0 / 01",
    // names
    "set /0 1 x",
    "set /0 a=b x",
    "unset /0 -a",
    // markup that is no fragment: of no node, or of two, or with a fault
    "insert / 0 <!-- -->",
    "insert / 0 <li/><li/>",
    "insert / 0 <li>",
    "insert / 0 </li>",
    "insert / 0 <li a=\"\" a=\"\"/>",
    "insert / 0 &unknown;",
];

const EDIT: [&str; 4] = ["edit", "d.xhtml", "s.css", "t.txt"];

const BOOK: [&str; 4] = ["book", "s.css", "t.txt", "d.xhtml"];

/// The end of a script over a list of two items, as these words have it done.
fn end_of_script(rt: &HostRuntime, words: &[&str], script: &str) -> Result<End, Memory> {
    let files = [
        ("d.xhtml", DOCUMENT.as_bytes()),
        ("s.css", b""),
        ("t.txt", script.as_bytes()),
    ];
    end_of(rt, words, &files)
}

/// The first line with which a script ends otherwise than by it, wherever it stands; none where each ends its script.
/// Nothing is written then, not even by the lines before it.
fn first_done(
    rt: &HostRuntime,
    words: &[&str],
    lines: &[&'static str],
) -> Result<Option<&'static str>, Memory> {
    for line in lines {
        let between = format!(in rt.alloc(); "show\n{line}\r\nshow\nnothing\n")?;
        let last = format!(in rt.alloc(); "# a comment\nremove /9\n\n{line}")?;
        let is_told = end_of_script(rt, words, between.as_str())?.is(
            7,
            "",
            "marker: t.txt:2: bad line\n",
        ) && end_of_script(rt, words, last.as_str())?.is(7, "", "marker: t.txt:4: bad line\n");
        if !is_told {
            return Ok(Some(line));
        }
    }
    Ok(None)
}

#[test]
fn bad_lines(rt: HostRuntime) -> Result<(), Fail> {
    assert_eq!(rt; first_done(&rt, &EDIT, &BAD_LINES)?, None);
    Ok(())
}

#[test]
fn bad_lines_of_a_book(rt: HostRuntime) -> Result<(), Fail> {
    assert_eq!(rt; first_done(&rt, &BOOK, &BAD_LINES)?, None);
    Ok(())
}

/// A line that the script of a book has, and no other.
#[test]
fn another_document(rt: HostRuntime) -> Result<(), Fail> {
    assert_eq!(rt; first_done(&rt, &EDIT, &["in d.xhtml"])?, None);
    assert!(rt; end_of_script(&rt, &BOOK, "in d.xhtml")?.is(0, "", ""));
    Ok(())
}

/// Lines that look like those, and are done.
static GOOD_LINES: [(&str, &str); 7] = [
    ("", ""),
    (" \t ", ""),
    ("#show", ""),
    ("set /0 title", ""),
    ("set /0 title  x ", ""),
    ("remove /4294967295", "refused 1 no-place\n"),
    ("insert / 4294967295 x", "refused 1 no-place\n"),
];

#[test]
fn good_lines(rt: HostRuntime) -> Result<(), Fail> {
    for (line, told) in GOOD_LINES {
        assert!(rt; end_of_script(&rt, &EDIT, line)?.is(0, told, ""), "{line}");
        assert!(rt; end_of_script(&rt, &BOOK, line)?.is(0, told, ""), "{line}");
    }
    Ok(())
}
