//! What C calls to read the list and the dump.

ghost use Rattle.std.specs.Prelude.{◌≡◌, length};
ghost use Rattle.marker_c.specs.Answers.{bytes_at, bytes_of, count_filled, filled, line_at, line_of, listed_in, path_at, shown_in};

use crate::answer::{Line, kind_number};
use crate::handle::Handle;
use crate::slot::{put, take};
use changed_lines::changed_line::ChangedLine;
use std::alloc::Global;
use std::cmp::min;

/// How many lines are listed; a closed document has none.
#[unsafe(no_mangle)]
pub extern "C" fn marker_line_count(alloc: Global, document: &mut Handle) -> usize
    ensures count { result ≡ length (listed_in document.old.session) }
    ensures same { document.new.session ≡ document.old.session }
{
    match take(alloc, document) {
        Some(session) => {
            let count = session.listed().len();
            put(alloc, document, session);
            count
        }
        None => 0,
    }
}

/// The bytes of a line's text. A box that is gone has none.
fn bytes_of(line: &ChangedLine) -> &[u8]
    ensures bytes { result.now ≡ bytes_of line.now }
{
    match &line.text {
        Some(text) => text.as_str().as_bytes(),
        None => &[],
    }
}

/// A line as C sees it.
fn line_of(line: &ChangedLine) -> Line
    ensures line { result ≡ line_of line.now }
{
    Line {
        kind: kind_number(line.kind),
        is_gone: line.text.is_none() as u32,
        depth: line.path.as_slice().len(),
        length: bytes_of(line).len(),
    }
}

/// The line of an index as C sees it.
fn line_at(lines: &[ChangedLine], index: usize) -> Line
    ensures line { result ≡ line_at lines.now index }
{
    match lines.get(index) {
        Some(line) => line_of(line),
        None => Line {
            kind: 0,
            is_gone: 0,
            depth: 0,
            length: 0,
        },
    }
}

/// The line of an index, from 0; past the end of the list all numbers are 0.
#[unsafe(no_mangle)]
pub extern "C" fn marker_line_at(alloc: Global, document: &mut Handle, index: usize) -> Line
    ensures line { result ≡ line_at (listed_in document.old.session) index }
    ensures same { document.new.session ≡ document.old.session }
{
    match take(alloc, document) {
        Some(session) => {
            let line = line_at(session.listed(), index);
            put(alloc, document, session);
            line
        }
        None => line_at(&[], index),
    }
}

/// Fills a buffer with numbers, as many as there are and as fit, and answers how many.
fn fill_path(positions: &[usize], buffer: &mut [usize]) -> usize
    ensures count { result ≡ count_filled positions.now 0 buffer.old }
    ensures positions { buffer.new ≡ filled positions.now 0 buffer.old }
{
    let count = min(positions.len(), buffer.len());
    buffer[..count].copy_from_slice(&positions[..count]);
    count
}

/// The path of the line of an index.
fn path_at(lines: &[ChangedLine], index: usize) -> &[usize]
    ensures path { result.now ≡ path_at lines.now index }
{
    match lines.get(index) {
        Some(line) => line.path.as_slice(),
        None => &[],
    }
}

/// Fills a buffer with the path of a line's element, from the root down, as many positions as fit, and answers how many.
#[unsafe(no_mangle)]
pub extern "C" fn marker_line_path(
    alloc: Global,
    document: &mut Handle,
    index: usize,
    positions: &mut [usize],
) -> usize
    ensures count { result ≡ count_filled (path_at (listed_in document.old.session) index) 0 positions.old }
    ensures positions { positions.new ≡ filled (path_at (listed_in document.old.session) index) 0 positions.old }
    ensures same { document.new.session ≡ document.old.session }
{
    match take(alloc, document) {
        Some(session) => {
            let count = fill_path(path_at(session.listed(), index), positions);
            put(alloc, document, session);
            count
        }
        None => fill_path(path_at(&[], index), positions),
    }
}

/// Fills a buffer with bytes from an offset, as many as there are and as fit, and answers how many.
fn fill(bytes: &[u8], offset: usize, buffer: &mut [u8]) -> usize
    ensures count { result ≡ count_filled bytes.now offset buffer.old }
    ensures bytes { buffer.new ≡ filled bytes.now offset buffer.old }
{
    let from = min(offset, bytes.len());
    let count = min(bytes.len() - from, buffer.len());
    buffer[..count].copy_from_slice(&bytes[from..from + count]);
    count
}

/// The bytes of the text of the line of an index.
fn bytes_at(lines: &[ChangedLine], index: usize) -> &[u8]
    ensures bytes { result.now ≡ bytes_at lines.now index }
{
    match lines.get(index) {
        Some(line) => bytes_of(line),
        None => &[],
    }
}

/// Fills a buffer with the text of a line from an offset, as many bytes as there are and as fit, and answers how many. It
/// may end inside a character.
#[unsafe(no_mangle)]
pub extern "C" fn marker_line_text(
    alloc: Global,
    document: &mut Handle,
    index: usize,
    offset: usize,
    buffer: &mut [u8],
) -> usize
    ensures count { result ≡ count_filled (bytes_at (listed_in document.old.session) index) offset buffer.old }
    ensures bytes { buffer.new ≡ filled (bytes_at (listed_in document.old.session) index) offset buffer.old }
    ensures same { document.new.session ≡ document.old.session }
{
    match take(alloc, document) {
        Some(session) => {
            let count = fill(bytes_at(session.listed(), index), offset, buffer);
            put(alloc, document, session);
            count
        }
        None => fill(bytes_at(&[], index), offset, buffer),
    }
}

/// How many bytes the dump has that is kept; 0 where none is.
#[unsafe(no_mangle)]
pub extern "C" fn marker_dump_length(alloc: Global, document: &mut Handle) -> usize
    ensures length { result ≡ length (shown_in document.old.session) }
    ensures same { document.new.session ≡ document.old.session }
{
    match take(alloc, document) {
        Some(session) => {
            let count = session.shown().len();
            put(alloc, document, session);
            count
        }
        None => 0,
    }
}

/// Fills a buffer with the dump that is kept from an offset, as many bytes as there are and as fit, and answers how many.
#[unsafe(no_mangle)]
pub extern "C" fn marker_dump_read(
    alloc: Global,
    document: &mut Handle,
    offset: usize,
    buffer: &mut [u8],
) -> usize
    ensures count { result ≡ count_filled (shown_in document.old.session) offset buffer.old }
    ensures bytes { buffer.new ≡ filled (shown_in document.old.session) offset buffer.old }
    ensures same { document.new.session ≡ document.old.session }
{
    match take(alloc, document) {
        Some(session) => {
            let count = fill(session.shown(), offset, buffer);
            put(alloc, document, session);
            count
        }
        None => fill(&[], offset, buffer),
    }
}
