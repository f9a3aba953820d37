//! What a row is, and how one is run.

ghost use Rattle.std.specs.Prelude.{◌≡◌, ◌<◌};

use marker_cli::run::run;
use plain_types::list::List;
use plain_types::memory::Memory;
use plain_types::text::Text;
use ports::fixed_sink::FixedSink;
use ports::honest_shelf::HonestShelf;
use ports::named_file::NamedFile;
use ports::sink::Sink;
use std::alloc::Global;
use std::sync::ledger::{Blank, Ledger};
use steps::Steps;

/// A document of a book: its name and its text.
pub type Chapter<'a> = (&'a str, &'a str);

/// A run: its words and files, and what must come out.
#[derive(Clone, Copy)]
pub struct Row<'a> {
    pub words: &'a [&'a str],
    pub document: &'a [u8],
    pub sheet: &'a [u8],
    pub script: &'a [u8],
    /// The file that a `sheet` line of the script may name.
    pub other_sheet: &'a [u8],
    /// Further documents, each under a name of its own.
    pub chapters: &'a [Chapter<'a>],
    pub out: &'a str,
    pub err: &'a str,
    pub code: u8,
}

/// A dump of this document under this sheet.
pub fn dumped<'a>(document: &'a str, sheet: &'a str, out: &'a str) -> Row<'a> {
    Row {
        words: &["dump", "d.xhtml", "s.css"],
        document: document.as_bytes(),
        sheet: sheet.as_bytes(),
        script: b"",
        other_sheet: b"",
        chapters: &[],
        out,
        err: "",
        code: 0,
    }
}

/// The lines of this document under this sheet.
pub fn viewed<'a>(document: &'a str, sheet: &'a str, out: &'a str) -> Row<'a> {
    Row {
        words: &["text", "d.xhtml", "s.css"],
        ..dumped(document, sheet, out)
    }
}

/// A dump that ends with this line and code, and writes nothing.
pub fn refused<'a>(document: &'a [u8], sheet: &'a [u8], err: &'a str, code: u8) -> Row<'a> {
    Row {
        words: &["dump", "d.xhtml", "s.css"],
        document,
        sheet,
        script: b"",
        other_sheet: b"",
        chapters: &[],
        out: "",
        err,
        code,
    }
}

/// A table with this sheet.
pub fn tabled<'a>(sheet: &'a str, words: &'a [&'a str], out: &'a str) -> Row<'a> {
    Row {
        words,
        document: b"",
        sheet: sheet.as_bytes(),
        script: b"",
        other_sheet: b"",
        chapters: &[],
        out,
        err: "",
        code: 0,
    }
}

/// A script over this document and this sheet.
pub fn edited<'a>(document: &'a str, sheet: &'a str, script: &'a str, out: &'a str) -> Row<'a> {
    Row {
        words: &["edit", "d.xhtml", "s.css", "t.txt"],
        document: document.as_bytes(),
        sheet: sheet.as_bytes(),
        script: script.as_bytes(),
        other_sheet: b"",
        chapters: &[],
        out,
        err: "",
        code: 0,
    }
}

/// Words that end with this line and code, and write nothing.
pub fn ended<'a>(words: &'a [&'a str], err: &'a str, code: u8) -> Row<'a> {
    Row {
        words,
        document: b"<p/>",
        sheet: b"",
        script: b"",
        other_sheet: b"",
        chapters: &[],
        out: "",
        err,
        code,
    }
}

fn named(alloc: Global, name: &str, bytes: &[u8]) -> Result<NamedFile, Memory> {
    let mut held = List::new(alloc);
    held.extend(bytes)?;
    Ok(NamedFile {
        name: Text::from_str(alloc, name)?,
        bytes: held,
    })
}

fn words_of(alloc: Global, row: &Row<'_>) -> Result<List<Text>, Memory> {
    let mut words = List::new(alloc);
    for word in row.words {
        words.push(Text::from_str(alloc, word)?)?;
    }
    Ok(words)
}

/// Adds further documents to the files.
fn add_chapters(
    alloc: Global,
    files: &mut List<NamedFile>,
    chapters: &[Chapter<'_>],
) -> Result<(), Memory> {
    for (name, text) in chapters {
        files.push(named(alloc, name, text.as_bytes())?)?;
    }
    Ok(())
}

/// Runs a row over the files `d.xhtml`, `s.css`, `t.txt` and `n.css` and its further documents, and answers its code.
pub fn code_of<O: Sink, L: Ledger>(
    rt: &HostRuntime,
    blank: Blank,
    row: &Row<'_>,
    out: &mut O,
    err: &mut FixedSink,
) -> Result<u8, Memory>
    requires name { blank.name ≡ L.name }
    requires parts { blank.parts ≡ L.parts }
    requires some { 0 < L.parts }
{
    let alloc = rt.alloc();
    let words = words_of(alloc, row)?;
    let mut files = List::new(alloc);
    files.push(named(alloc, "d.xhtml", row.document)?)?;
    files.push(named(alloc, "s.css", row.sheet)?)?;
    files.push(named(alloc, "t.txt", row.script)?)?;
    files.push(named(alloc, "n.css", row.other_sheet)?)?;
    add_chapters(alloc, &mut files, row.chapters)?;
    let mut shelf = HonestShelf::new(files);
    let mut steps = Steps::<L>::open(rt, blank);
    Ok(run(alloc, words.as_slice(), &mut shelf, out, err, &mut steps).code())
}
