//! Every front of a document, of a sheet and of a script.

use crate::article::{ARTICLE, EDITS, HOUSE, PLAIN};
use crate::runs::{End, end_of};
use plain_types::memory::Memory;
use std::alloc::Global;
use std::test::Fail;

const DUMP: [&str; 3] = ["dump", "d.xhtml", "s.css"];

const BOOK: [&str; 5] = ["book", "s.css", "t.txt", "first.xhtml", "d.xhtml"];

/// A list of one item, and for each front of it, from the empty one on, the column where it stops being a document.
const LIST: &str = "<ol><li>a</li></ol>";

const COLUMNS: [usize; 19] = [
    1, 1, 1, 1, 5, 5, 5, 5, 9, 10, 10, 10, 10, 10, 15, 15, 15, 15, 15,
];

/// A place in a text, from 1.
#[derive(Clone, Copy)]
struct Place {
    line: usize,
    column: usize,
}

const START: Place = Place { line: 1, column: 1 };

impl Place {
    /// The place behind this character, which stands here.
    fn behind(self, character: char) -> Place {
        if character == '\n' {
            return Place {
                line: self.line.saturating_add(1),
                column: 1,
            };
        }
        Place {
            line: self.line,
            column: self.column.saturating_add(1),
        }
    }
}

/// Where the front of a document stops being one: at the tag that it cuts, or at its end. No `>` stands in a value.
fn place_of_cut(front: &str) -> Place {
    let mut end = START;
    let mut tag = None;
    for character in front.chars() {
        match character {
            '<' => tag = Some(end),
            '>' => tag = None,
            _ => {}
        }
        end = end.behind(character);
    }
    tag.unwrap_or(end)
}

/// Whether a dump of this front of a document ends by the line of this place.
fn is_cut(rt: &HostRuntime, front: &str, place: Place) -> Result<bool, Memory> {
    let Place { line, column } = place;
    let told = format!(in rt.alloc(); "marker: d.xhtml:{line}:{column}: not well-formed\n")?;
    let files = [("d.xhtml", front.as_bytes()), ("s.css", b"")];
    Ok(end_of(rt, &DUMP, &files)?.is(6, "", told.as_str()))
}

/// Whether a book with this front as its second document ends by the line of this place.
fn is_cut_part(rt: &HostRuntime, front: &str, place: Place) -> Result<bool, Memory> {
    let Place { line, column } = place;
    let told = format!(in rt.alloc(); "marker: d.xhtml:{line}:{column}: not well-formed\n")?;
    let files = [
        ("d.xhtml", front.as_bytes()),
        ("first.xhtml", b"<p/>"),
        ("s.css", b""),
        ("t.txt", b"show\n"),
    ];
    Ok(end_of(rt, &BOOK, &files)?.is(10, "", told.as_str()))
}

#[test]
fn fronts_of_a_list(rt: HostRuntime) -> Result<(), Fail> {
    let mut front = String::new(rt.alloc());
    for (character, column) in LIST.chars().zip(COLUMNS) {
        assert!(rt;
            is_cut(&rt, front.as_str(), Place { line: 1, column })?,
            "{front}"
        );
        front.push(character)?;
    }
    assert_eq!(rt; front.as_str(), LIST);
    Ok(())
}

#[test]
fn fronts_of_a_part(rt: HostRuntime) -> Result<(), Fail> {
    let mut front = String::new(rt.alloc());
    for (character, column) in LIST.chars().zip(COLUMNS) {
        assert!(rt;
            is_cut_part(&rt, front.as_str(), Place { line: 1, column })?,
            "{front}"
        );
        front.push(character)?;
    }
    Ok(())
}

/// The first front, but the whole, that ends otherwise than by the line of its place; none where each ends so.
fn first_uncut(rt: &HostRuntime, document: &str) -> Result<Option<String>, Memory> {
    let mut front = String::new(rt.alloc());
    for character in document.chars() {
        if !is_cut(rt, front.as_str(), place_of_cut(front.as_str()))? {
            return Ok(Some(front));
        }
        front.push(character)?;
    }
    Ok(None)
}

#[test]
fn fronts_of_a_document(rt: HostRuntime) -> Result<(), Fail> {
    assert!(rt; first_uncut(&rt, ARTICLE.trim_end())?.is_none());
    Ok(())
}

/// Whether a dump of the article under this sheet is written to its end.
fn is_sheet(rt: &HostRuntime, sheet: &str) -> Result<bool, Memory> {
    let files = [("d.xhtml", ARTICLE.as_bytes()), ("s.css", sheet.as_bytes())];
    let end = end_of(rt, &DUMP, &files)?;
    Ok(end.code == 0 && end.err.bytes().is_empty())
}

/// The first front that is no sheet; none where each is one.
fn first_refused(rt: &HostRuntime, sheet: &str) -> Result<Option<String>, Memory> {
    let mut front = String::new(rt.alloc());
    for character in sheet.chars() {
        if !is_sheet(rt, front.as_str())? {
            return Ok(Some(front));
        }
        front.push(character)?;
    }
    Ok(None)
}

#[test]
fn fronts_of_a_sheet(rt: HostRuntime) -> Result<(), Fail> {
    assert!(rt; first_refused(&rt, HOUSE)?.is_none());
    assert!(rt; is_sheet(&rt, HOUSE)?);
    Ok(())
}

/// The lines of a script so far, what they write, and the number of the next.
#[derive(Drop)]
struct Played {
    script: String,
    told: String,
    next: usize,
}

/// The end of the article's run with this script.
fn end_of_script(rt: &HostRuntime, script: &str) -> Result<End, Memory> {
    let words = ["edit", "art.xhtml", "house.css", "t.txt"];
    let files = [
        ("art.xhtml", ARTICLE.as_bytes()),
        ("house.css", HOUSE.as_bytes()),
        ("t.txt", script.as_bytes()),
        ("plain.css", PLAIN.as_bytes()),
    ];
    end_of(rt, &words, &files)
}

/// Whether a run ended as one whose last line is cut may: that line is no command, names a file that isn't held, or
/// writes at most that it is refused.
fn may_end(alloc: Global, played: &Played, front: &str, end: &End) -> Result<bool, Memory> {
    let Played {
        script: _,
        told,
        next,
    } = played;
    match end.code {
        0 => {
            let refused = format!(in alloc; "{told}refused {next} no-place\n")?;
            Ok(end.is(0, told.as_str(), "") || end.is(0, refused.as_str(), ""))
        }
        3 => match front.strip_prefix("sheet ") {
            Some(name) => {
                let line = format!(in alloc; "marker: {name}: read failed\n")?;
                Ok(end.is(3, told.as_str(), line.as_str()))
            }
            None => Ok(false),
        },
        7 => {
            let line = format!(in alloc; "marker: t.txt:{next}: bad line\n")?;
            Ok(end.is(7, "", line.as_str()))
        }
        _ => Ok(false),
    }
}

/// The first front of the next line that makes the run end as it may not; none where each ends so.
fn first_wrong_front(
    rt: &HostRuntime,
    played: &Played,
    line: &str,
) -> Result<Option<String>, Memory> {
    let mut front = String::new(rt.alloc());
    for character in line.chars() {
        let script = format!(in rt.alloc(); "{}{front}", played.script)?;
        let end = end_of_script(rt, script.as_str())?;
        if !may_end(rt.alloc(), played, front.as_str(), &end)? {
            return Ok(Some(front));
        }
        front.push(character)?;
    }
    Ok(None)
}

/// Adds the line and what it writes, and tells whether the run with it ends so.
fn play_line(
    rt: &HostRuntime,
    played: &mut Played,
    line: &str,
    told: &str,
) -> Result<bool, Memory> {
    played.script.push_str(line)?;
    played.script.push('\n')?;
    played.told.push_str(told)?;
    played.next = played.next.saturating_add(1);
    let end = end_of_script(rt, played.script.as_str())?;
    Ok(end.is(0, played.told.as_str(), ""))
}

#[test]
fn fronts_of_a_script(rt: HostRuntime) -> Result<(), Fail> {
    let mut played = Played {
        script: String::new(rt.alloc()),
        told: String::new(rt.alloc()),
        next: 1,
    };
    for (line, told) in EDITS {
        assert!(rt;
            first_wrong_front(&rt, &played, line)?.is_none(),
            "a front of {line}"
        );
        assert!(rt; play_line(&rt, &mut played, line, told)?, "{line}");
    }
    Ok(())
}
