//! Files and outputs that move a byte at a time, and each read and each write that fails.
//!
//! All but the last rows are of the article's run. Its reads and writes are numbered from 0, and one of them fails.

use crate::article::{ARTICLE, EDITS, HOUSE, PLAIN, script_of};
use crate::runs::{File, code_over, held};
use plain_types::list::List;
use plain_types::memory::Memory;
use ports::fixed_sink::FixedSink;
use ports::honest_shelf::HonestShelf;
use ports::memory_shelf::MemoryShelf;
use ports::memory_sink::MemorySink;
use ports::named_file::NamedFile;
use ports::trickle_shelf::TrickleShelf;
use ports::trickle_sink::TrickleSink;
use std::alloc::Global;
use std::test::Fail;

const WORDS: [&str; 4] = ["edit", "art.xhtml", "house.css", "t.txt"];

const BOOK: [&str; 4] = ["book", "house.css", "t.txt", "art.xhtml"];

/// More than a run of the article reads or writes.
const MOST_CALLS: u64 = 100_000;

/// A file, and how many lines of the script are done before it is read.
type Turn = (&'static str, usize);

/// The files in the order in which they are read.
static TURNS: [Turn; 4] = [
    ("art.xhtml", 0),
    ("house.css", 0),
    ("t.txt", 0),
    ("plain.css", 8),
];

/// What comes of a run of which a call is to fail: no call had that number, or one had and it ended so, or otherwise.
#[derive(Clone, Copy, Debug, PartialEq, Eq)]
enum Outcome {
    Whole,
    Faulted,
    Wrong,
}

/// The files of the article's run, and what it writes.
fn article(alloc: Global) -> Result<(List<NamedFile>, String), Memory> {
    let (script, told) = script_of(alloc, EDITS.len())?;
    let files = [
        ("art.xhtml", ARTICLE.as_bytes()),
        ("house.css", HOUSE.as_bytes()),
        ("t.txt", script.as_bytes()),
        ("plain.css", PLAIN.as_bytes()),
    ];
    Ok((held(alloc, &files)?, told))
}

/// The number of the one call that fails.
fn at(alloc: Global, call: u64) -> Result<List<u64>, Memory> {
    let mut failing = List::new(alloc);
    failing.push(call)?;
    Ok(failing)
}

/// The article's run over files that give a byte at a time, to a sink that takes a byte at a time.
#[test]
fn a_byte_at_a_time(rt: HostRuntime) -> Result<(), Fail> {
    let alloc = rt.alloc();
    let (files, told) = article(alloc)?;
    let mut shelf = TrickleShelf::new(files, 1, List::new(alloc));
    let mut out = TrickleSink::new(alloc, told.len(), 1, List::new(alloc))?;
    let mut err = FixedSink::new(alloc, 1000)?;
    let code = code_over(&rt, &WORDS, &mut shelf, &mut out, &mut err)?;
    assert_eq!(rt; code, 0);
    assert!(rt; out.bytes() == told.as_bytes());
    assert!(rt; err.bytes().is_empty());
    Ok(())
}

/// What a write that fails makes of a run: it wrote a front and ended by its line, or all and ended without one.
fn after_write(code: u8, out: &[u8], err: &[u8], told: &str) -> Outcome {
    let is_told = err == b"marker: write failed\n".as_slice();
    if code == 8 && told.as_bytes().starts_with(out) && is_told {
        Outcome::Faulted
    } else if code == 0 && told.as_bytes() == out && err.is_empty() {
        Outcome::Whole
    } else {
        Outcome::Wrong
    }
}

/// The run whose write of this number fails.
fn failing_write(rt: &HostRuntime, call: u64) -> Result<Outcome, Memory> {
    let alloc = rt.alloc();
    let (files, told) = article(alloc)?;
    let mut shelf = HonestShelf::new(files);
    let mut out = MemorySink::new(alloc, told.len(), at(alloc, call)?)?;
    let mut err = FixedSink::new(alloc, 1000)?;
    let code = code_over(rt, &WORDS, &mut shelf, &mut out, &mut err)?;
    Ok(after_write(code, out.bytes(), err.bytes(), told.as_str()))
}

/// The first of every second number from this one on whose run does not end by the fault of its write, with how it ends.
fn first_write(rt: &HostRuntime, first: u64) -> Result<Option<(u64, Outcome)>, Memory> {
    for call in (first..MOST_CALLS).step_by(2) {
        let outcome = failing_write(rt, call)?;
        if outcome != Outcome::Faulted {
            return Ok(Some((call, outcome)));
        }
    }
    Ok(None)
}

/// Each run whose write of an even number fails is ended by it, but the last.
#[test]
fn even_writes_that_fail(rt: HostRuntime) -> Result<(), Fail> {
    let Some((call, outcome)) = first_write(&rt, 0)? else {
        return Err(Fail::from("no run is whole"));
    };
    assert_eq!(rt; outcome, Outcome::Whole, "write {call}");
    assert_ne!(rt; call, 0);
    Ok(())
}

/// And each whose write of an odd number fails.
#[test]
fn odd_writes_that_fail(rt: HostRuntime) -> Result<(), Fail> {
    let Some((call, outcome)) = first_write(&rt, 1)? else {
        return Err(Fail::from("no run is whole"));
    };
    assert_eq!(rt; outcome, Outcome::Whole, "write {call}");
    assert_ne!(rt; call, 1);
    Ok(())
}

/// The run that writes a byte at a time, whose write of this number fails: as many bytes are written.
fn failing_byte(rt: &HostRuntime, call: u64) -> Result<bool, Memory> {
    let alloc = rt.alloc();
    let (files, told) = article(alloc)?;
    let mut shelf = HonestShelf::new(files);
    let mut out = TrickleSink::new(alloc, told.len(), 1, at(alloc, call)?)?;
    let mut err = FixedSink::new(alloc, 1000)?;
    let code = code_over(rt, &WORDS, &mut shelf, &mut out, &mut err)?;
    let outcome = after_write(code, out.bytes(), err.bytes(), told.as_str());
    Ok(out.bytes().len() as u64 == call && outcome == Outcome::Faulted)
}

/// Each tenth byte is the first that isn't written.
#[test]
fn bytes_that_fail(rt: HostRuntime) -> Result<(), Fail> {
    let (_files, told) = article(rt.alloc())?;
    for call in (0..told.len()).step_by(10) {
        assert!(rt; failing_byte(&rt, call as u64)?, "byte {call}");
    }
    Ok(())
}

/// Whether a read that fails ended the run in the turn of this file: all that comes before is written.
fn ends_in_turn(
    alloc: Global,
    turn: &Turn,
    code: u8,
    out: &[u8],
    err: &[u8],
) -> Result<bool, Memory> {
    let (name, lines) = turn;
    let (_script, told) = script_of(alloc, *lines)?;
    let line = format!(in alloc; "marker: {name}: read failed\n")?;
    Ok(code == 3 && out == told.as_bytes() && err == line.as_bytes())
}

/// The turn in which a failed read ended the run; none where no turn did.
fn turn_of_end(alloc: Global, code: u8, out: &[u8], err: &[u8]) -> Result<Option<usize>, Memory> {
    for (place, turn) in TURNS.iter().enumerate() {
        if ends_in_turn(alloc, turn, code, out, err)? {
            return Ok(Some(place));
        }
    }
    Ok(None)
}

/// The turn in which the run ends whose read of this number fails; none where it ends otherwise, and then whether it
/// is whole.
fn failing_read(rt: &HostRuntime, call: u64) -> Result<(Option<usize>, bool), Memory> {
    let alloc = rt.alloc();
    let (files, told) = article(alloc)?;
    let mut shelf = MemoryShelf::new(files, at(alloc, call)?);
    let mut out = FixedSink::new(alloc, told.len())?;
    let mut err = FixedSink::new(alloc, 1000)?;
    let code = code_over(rt, &WORDS, &mut shelf, &mut out, &mut err)?;
    let turn = turn_of_end(alloc, code, out.bytes(), err.bytes())?;
    Ok((
        turn,
        code == 0 && out.bytes() == told.as_bytes() && err.bytes().is_empty(),
    ))
}

/// The turns that the runs end in, the reads failing one after the other, up to one that ends in none; and whether
/// that is whole.
fn turns_of_reads(rt: &HostRuntime) -> Result<(List<usize>, bool), Memory> {
    let mut turns = List::new(rt.alloc());
    for call in 0..MOST_CALLS {
        let (turn, is_whole) = failing_read(rt, call)?;
        match turn {
            Some(place) => turns.push(place)?,
            None => return Ok((turns, is_whole)),
        }
    }
    Ok((turns, false))
}

/// Each run but the last is ended by its read that fails. The turns come in their order, and none is left out.
#[test]
fn reads_that_fail(rt: HostRuntime) -> Result<(), Fail> {
    let (turns, is_whole) = turns_of_reads(&rt)?;
    assert!(rt; is_whole);
    assert!(rt; turns.as_slice().is_sorted());
    for place in 0..TURNS.len() {
        assert!(rt; turns.as_slice().contains(&place), "{place}");
    }
    Ok(())
}

/// The run that reads a byte at a time, whose read of this number fails: whether it ends in this turn.
fn ends_in_turn_of_byte(rt: &HostRuntime, turn: &Turn, call: u64) -> Result<bool, Memory> {
    let alloc = rt.alloc();
    let (files, told) = article(alloc)?;
    let mut shelf = TrickleShelf::new(files, 1, at(alloc, call)?);
    let mut out = FixedSink::new(alloc, told.len())?;
    let mut err = FixedSink::new(alloc, 1000)?;
    let code = code_over(rt, &WORDS, &mut shelf, &mut out, &mut err)?;
    ends_in_turn(alloc, turn, code, out.bytes(), err.bytes())
}

/// The last read of each file, which tells that it ends. Each file takes a read for each of its bytes before that.
fn last_reads(alloc: Global) -> Result<[u64; 4], Memory> {
    let (script, _told) = script_of(alloc, EDITS.len())?;
    let mut last = [0; 4];
    let mut count: u64 = 0;
    for (place, text) in [ARTICLE, HOUSE, script.as_str(), PLAIN].iter().enumerate() {
        count = count.saturating_add(text.len() as u64);
        last[place] = count;
        count = count.saturating_add(1);
    }
    Ok(last)
}

/// Of each file, a byte at a time, the last read fails, and some that come before it.
#[test]
fn bytes_that_are_not_read(rt: HostRuntime) -> Result<(), Fail> {
    let last = last_reads(rt.alloc())?;
    for (turn, call) in TURNS.iter().zip(last) {
        for before in [0, 1, 2, 50, 100, 150] {
            let number = call.saturating_sub(before);
            assert!(rt; ends_in_turn_of_byte(&rt, turn, number)?, "read {number}");
        }
    }
    Ok(())
}

/// Runs that end with a line: their words and files, and the code and the line.
static FAULTS: [(&[&str], &[File<'static>], u8, &str); 4] = [
    (
        &WORDS,
        &[
            ("art.xhtml", b"<ol><li>"),
            ("house.css", b""),
            ("t.txt", b""),
        ],
        6,
        "marker: art.xhtml:1:9: not well-formed\n",
    ),
    (
        &WORDS,
        &[
            ("art.xhtml", b"<p/>"),
            ("house.css", b"\xff"),
            ("t.txt", b""),
        ],
        5,
        "marker: house.css: not UTF-8 at 0\n",
    ),
    (
        &WORDS,
        &[
            ("art.xhtml", b"<p/>"),
            ("house.css", b""),
            ("t.txt", b"insert /0"),
        ],
        7,
        "marker: t.txt:1: bad line\n",
    ),
    (
        &BOOK,
        &[
            ("art.xhtml", b"<ol><li>"),
            ("house.css", b""),
            ("t.txt", b"insert /0"),
        ],
        10,
        "marker: art.xhtml:1:9: not well-formed\n",
    ),
];

/// The run of these words over these files, whose write of the line of this number fails: whether the code stays and a
/// front of the line is written.
fn keeps_code(
    rt: &HostRuntime,
    words: &[&str],
    files: &[File<'_>],
    code: u8,
    line: &str,
    call: u64,
) -> Result<bool, Memory> {
    let alloc = rt.alloc();
    let mut shelf = HonestShelf::new(held(alloc, files)?);
    let mut out = FixedSink::new(alloc, 1000)?;
    let mut err = TrickleSink::new(alloc, line.len(), 1, at(alloc, call)?)?;
    let ended = code_over(rt, words, &mut shelf, &mut out, &mut err)?;
    Ok(
        ended == code
            && out.bytes().is_empty()
            && line.as_bytes().starts_with(err.bytes())
            && err.bytes().len() as u64 == call,
    )
}

/// A line is written a byte at a time, and each time another write of it fails.
#[test]
fn lines_that_fail(rt: HostRuntime) -> Result<(), Fail> {
    for (words, files, code, line) in FAULTS {
        for call in 0..line.len() {
            assert!(rt;
                keeps_code(&rt, words, files, code, line, call as u64)?,
                "{line}: byte {call}"
            );
        }
    }
    Ok(())
}
