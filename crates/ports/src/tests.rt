//! Each public call once, over memory and over the system.

use crate::failed::Failed;
use crate::fetch::{FetchFault, fetch};
use crate::file_shelf::FileShelf;
use crate::fixed_sink::FixedSink;
use crate::honest_shelf::HonestShelf;
use crate::memory_shelf::MemoryShelf;
use crate::memory_sink::MemorySink;
use crate::named_file::NamedFile;
use crate::put_fault::PutFault;
use crate::shelf::Shelf;
use crate::sink::{Sink, put_all};
use crate::std_sink::StdSink;
use crate::trickle_shelf::TrickleShelf;
use crate::trickle_sink::TrickleSink;
use plain_types::list::List;
use plain_types::memory::Memory;
use plain_types::text::Text;
use std::alloc::Global;
use std::fs;
use std::io::{self, BufWriter, Read};
use std::test::Fail;

fn named(alloc: Global, name: &str, bytes: &[u8]) -> Result<NamedFile, Memory> {
    let mut held = List::new(alloc);
    held.extend(bytes)?;
    Ok(NamedFile {
        name: Text::from_str(alloc, name)?,
        bytes: held,
    })
}

fn two_files(alloc: Global) -> Result<List<NamedFile>, Memory> {
    let mut files = List::new(alloc);
    files.push(named(alloc, "d.xhtml", b"<p/>")?)?;
    files.push(named(alloc, "s.css", b"")?)?;
    Ok(files)
}

#[test]
fn an_honest_shelf_gives_whole_files(rt: HostRuntime) -> Result<(), Fail> {
    let alloc = rt.alloc();
    let files = two_files(alloc)?;
    let mut shelf = HonestShelf::new(files);
    for (name, want) in [("d.xhtml", "<p/>"), ("s.css", "")] {
        match fetch(alloc, &mut shelf, name) {
            Ok(bytes) => assert_eq!(rt; bytes.as_slice(), want.as_bytes()),
            Err(_) => assert!(rt; false, "{name}"),
        }
    }
    assert!(rt; matches!(fetch(alloc, &mut shelf, "t.txt"), Err(FetchFault::Failed)));
    Ok(())
}

#[test]
fn a_memory_shelf_fails_at_its_numbers(rt: HostRuntime) -> Result<(), Fail> {
    let alloc = rt.alloc();
    let files = two_files(alloc)?;
    let mut failing = List::new(alloc);
    failing.push(1u64)?;
    let mut shelf = MemoryShelf::new(files, failing);
    let mut buf = [0u8; 3];
    assert_eq!(rt; shelf.read_at("d.xhtml", 0, &mut buf).ok(), Some(3));
    assert!(rt; shelf.read_at("d.xhtml", 3, &mut buf).is_err());
    assert_eq!(rt; shelf.read_at("d.xhtml", 3, &mut buf).ok(), Some(1));
    assert_eq!(rt; buf[0], b'>');
    assert_eq!(rt; shelf.read_at("d.xhtml", 4, &mut buf).ok(), Some(0));
    Ok(())
}

#[test]
fn a_fixed_sink_keeps_what_fits(rt: HostRuntime) -> Result<(), Fail> {
    let mut sink = FixedSink::new(rt.alloc(), 3)?;
    assert!(rt; put_all(&mut sink, b"/0 marker").is_err());
    assert_eq!(rt; sink.bytes(), "/0 ".as_bytes());
    assert_eq!(rt; sink.put(b"").ok(), Some(0));
    Ok(())
}

#[test]
fn a_memory_sink_fails_at_its_numbers(rt: HostRuntime) -> Result<(), Fail> {
    let alloc = rt.alloc();
    let mut failing = List::new(alloc);
    failing.push(1u64)?;
    let mut sink = MemorySink::new(alloc, 5, failing)?;
    assert!(rt; put_all(&mut sink, b"ab").is_ok());
    assert!(rt; put_all(&mut sink, b"cd").is_err());
    assert!(rt; put_all(&mut sink, b"efgh").is_err());
    assert_eq!(rt; sink.bytes(), "abefg".as_bytes());
    Ok(())
}

#[test]
fn a_trickle_shelf_answers_little(rt: HostRuntime) -> Result<(), Fail> {
    let alloc = rt.alloc();
    let files = two_files(alloc)?;
    let mut failing = List::new(alloc);
    failing.push(1u64)?;
    let mut shelf = TrickleShelf::new(files, 2, failing);
    let mut buf = [0u8; 3];
    assert_eq!(rt; shelf.read_at("d.xhtml", 0, &mut buf).ok(), Some(2));
    assert!(rt; shelf.read_at("d.xhtml", 2, &mut buf).is_err());
    assert_eq!(rt; shelf.read_at("d.xhtml", 3, &mut buf).ok(), Some(1));
    assert_eq!(rt; buf[0], b'>');
    match fetch(alloc, &mut shelf, "d.xhtml") {
        Ok(bytes) => assert_eq!(rt; bytes.as_slice(), "<p/>".as_bytes()),
        Err(_) => assert!(rt; false, "not read"),
    }
    Ok(())
}

#[test]
fn a_trickle_sink_takes_little(rt: HostRuntime) -> Result<(), Fail> {
    let alloc = rt.alloc();
    let mut failing = List::new(alloc);
    failing.push(1u64)?;
    let mut sink = TrickleSink::new(alloc, 5, 2, failing)?;
    assert_eq!(rt; sink.put(b"abc").ok(), Some(2));
    assert!(rt; put_all(&mut sink, b"cd").is_err());
    assert!(rt; put_all(&mut sink, b"cdefg").is_err());
    assert_eq!(rt; sink.bytes(), "abcde".as_bytes());
    Ok(())
}

// The file is longer than one read of `fetch`, and is written anew by each run.
#[test]
fn a_file_shelf_reads_the_systems_files(rt: HostRuntime) -> Result<(), Fail> {
    let alloc = rt.alloc();
    let bytes = vec![in alloc; b'x'; 70000]?;
    fs::write(&rt, "ports_file_shelf.txt", bytes.as_slice())?;
    let mut shelf = FileShelf::new(&rt);
    match fetch(alloc, &mut shelf, "ports_file_shelf.txt") {
        Ok(read) => assert_eq!(rt; read.as_slice(), bytes.as_slice()),
        Err(_) => assert!(rt; false, "not read"),
    }
    fs::remove_file(&rt, "ports_file_shelf.txt")?;
    assert!(rt;
        matches!(
            fetch(alloc, &mut shelf, "ports_file_shelf.txt"),
            Err(FetchFault::Failed)
        )
    );
    Ok(())
}

#[test]
fn a_std_sink_writes_to_the_system(rt: HostRuntime) -> Result<(), Fail> {
    let (mut reader, writer) = io::pipe(&rt)?;
    let mut sink = StdSink::new(writer);
    assert!(rt; put_all(&mut sink, b"/0 ").is_ok());
    let mut buf = [0u8; 8];
    let count = reader.read(&mut buf)?;
    assert_eq!(rt; &buf[..count], "/0 ".as_bytes());
    assert!(rt; put_all(&mut StdSink::new(rt.stdout()), b"put on standard output\n").is_ok());
    Ok(())
}

#[test]
fn a_std_sink_hands_on_what_its_writer_keeps_back(rt: HostRuntime) -> Result<(), Fail> {
    let (mut reader, writer) = io::pipe(&rt)?;
    let mut sink = StdSink::new(BufWriter::new(rt.alloc(), writer)?);
    assert!(rt; put_all(&mut sink, b"/0 ").is_ok());
    assert!(rt; sink.flush().is_ok());
    let mut buf = [0u8; 8];
    let count = reader.read(&mut buf)?;
    assert_eq!(rt; &buf[..count], "/0 ".as_bytes());
    Ok(())
}

#[test]
fn faults_tell_what_failed(rt: HostRuntime) -> Result<(), Fail> {
    let alloc = rt.alloc();
    assert_eq!(rt;
        Failed.to_string(alloc)?.as_str(),
        "a read or a write failed"
    );
    for (fault, want) in [
        (FetchFault::Failed, "a read of the file failed"),
        (
            FetchFault::TooLarge,
            "the file is larger than 16777216 bytes",
        ),
        (FetchFault::Memory, "out of memory"),
    ] {
        assert_eq!(rt; fault.to_string(alloc)?.as_str(), want);
    }
    for (fault, want) in [
        (PutFault::WriteFault, "a write failed"),
        (PutFault::Memory, "out of memory"),
    ] {
        assert_eq!(rt; fault.to_string(alloc)?.as_str(), want);
    }
    Ok(())
}
