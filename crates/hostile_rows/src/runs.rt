//! A run over any shelf and sinks, and one over files in memory.

ghost use Rattle.std.specs.Prelude.{◌≡◌, ◌<◌};

use marker_cli::run::run;
use plain_types::list::List;
use plain_types::memory::Memory;
use plain_types::text::Text;
use ports::fixed_sink::FixedSink;
use ports::honest_shelf::HonestShelf;
use ports::named_file::NamedFile;
use ports::shelf::Shelf;
use ports::sink::Sink;
use std::alloc::Global;
use std::marker::Brand;
use std::sync::ledger::{Blank, Ledger};
use steps::Steps;

/// A file's name and its bytes.
pub type File<'a> = (&'a str, &'a [u8]);

/// How a run ended, and what it wrote.
#[derive(Drop)]
pub struct End {
    pub code: u8,
    pub out: FixedSink,
    pub err: FixedSink,
}

impl End {
    /// Whether it ended with this code, this output and this line.
    pub fn is(&self, code: u8, out: &str, line: &str) -> bool {
        self.code == code
            && self.out.bytes() == out.as_bytes()
            && self.err.bytes() == line.as_bytes()
    }
}

/// These files, as a shelf takes them.
pub fn held(alloc: Global, files: &[File<'_>]) -> Result<List<NamedFile>, Memory> {
    let mut all = List::new(alloc);
    for (name, bytes) in files {
        let mut copy = List::new(alloc);
        copy.extend(bytes)?;
        all.push(NamedFile {
            name: Text::from_str(alloc, name)?,
            bytes: copy,
        })?;
    }
    Ok(all)
}

fn texts_of(alloc: Global, words: &[&str]) -> Result<List<Text>, Memory> {
    let mut texts = List::new(alloc);
    for word in words {
        texts.push(Text::from_str(alloc, word)?)?;
    }
    Ok(texts)
}

fn code_with<S: Shelf, O: Sink, E: Sink, L: Ledger>(
    rt: &HostRuntime,
    blank: Blank,
    words: &[&str],
    shelf: &mut S,
    out: &mut O,
    err: &mut E,
) -> Result<u8, Memory>
    requires name { blank.name ≡ L.name }
    requires parts { blank.parts ≡ L.parts }
    requires some { 0 < L.parts }
{
    let texts = texts_of(rt.alloc(), words)?;
    let mut steps = Steps::<L>::open(rt, blank);
    Ok(run(rt.alloc(), texts.as_slice(), shelf, out, err, &mut steps).code())
}

/// Runs these words, with steps that nobody reads, and answers the code.
pub fn code_over<S: Shelf, O: Sink, E: Sink>(
    rt: &HostRuntime,
    words: &[&str],
    shelf: &mut S,
    out: &mut O,
    err: &mut E,
) -> Result<u8, Memory> {
    code_with::<_, _, _, Brand>(rt, Blank::new(1), words, shelf, out, err)
}

/// The end of a run of these words over these files.
pub fn end_of(rt: &HostRuntime, words: &[&str], files: &[File<'_>]) -> Result<End, Memory> {
    let mut shelf = HonestShelf::new(held(rt.alloc(), files)?);
    let mut out = FixedSink::new(rt.alloc(), 4000)?;
    let mut err = FixedSink::new(rt.alloc(), 1000)?;
    let code = code_over(rt, words, &mut shelf, &mut out, &mut err)?;
    Ok(End { code, out, err })
}
