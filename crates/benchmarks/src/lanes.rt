//! Searches by a class of bytes, beside a plain loop over the same bytes.

use lane_class::{ByteClass, count_in, first_in};
use std::alloc::Global;

/// How many bytes there are.
const LENGTH: usize = 16 * 1024 * 1024;

/// How a search goes over the bytes.
#[derive(Clone, Copy)]
enum Way {
    Lanes,
    Plain,
}

/// The first place in the class, or the end where there is none.
fn first(way: Way, bytes: &[u8], class: &ByteClass) -> usize {
    let place = match way {
        Way::Lanes => first_in(bytes, class),
        Way::Plain => bytes.iter().position(|byte| class.contains(*byte)),
    };
    place.unwrap_or(bytes.len())
}

fn count(way: Way, bytes: &[u8], class: &ByteClass) -> usize {
    match way {
        Way::Lanes => count_in(bytes, class),
        Way::Plain => bytes.iter().filter(|byte| class.contains(**byte)).count(),
    }
}

/// How many runs of other bytes there are, each of which is passed over by a search of its own.
fn runs(way: Way, bytes: &[u8], class: &ByteClass) -> usize {
    let mut rest = bytes;
    let mut count: usize = 0;
    for _ in 0..bytes.len() {
        let place = first(way, rest, class);
        match rest.get(place.saturating_add(1)..) {
            Some(after) => rest = after,
            None => break,
        }
        count = count.saturating_add(1);
    }
    count
}

/// The bytes, of which each one after so many is in the class, or none where that is 0.
fn bytes_with(alloc: Global, distance: usize) -> Option<Vec<u8>> {
    let mut bytes: Vec<u8> = Vec::new(alloc);
    bytes.resize(LENGTH, b'a').ok()?;
    if distance > 0 {
        for place in 0..LENGTH {
            if place % distance == 0 {
                *bytes.get_mut(place)? = b'<';
            }
        }
    }
    Some(bytes)
}

/// Searches so many times, each time from a place further on, and answers the sum of the answers.
pub fn perform(alloc: Global, word: &str, times: usize) -> Option<usize> {
    let class = ByteClass::of(&[(0, 8), (11, 31), (b'&', b'&'), (b'<', b'<'), (0xef, 0xef)])?;
    let (work, way) = match word.strip_suffix("-plainly") {
        Some(work) => (work, Way::Plain),
        None => (word, Way::Lanes),
    };
    let bytes = bytes_with(alloc, if work == "runs" { 40 } else { 0 })?;
    let mut sum: usize = 0;
    for start in 0..times {
        let rest = bytes.get(start..)?;
        let found = match work {
            "first" => first(way, rest, &class),
            "count" => count(way, rest, &class),
            "runs" => runs(way, rest, &class),
            _ => return None,
        };
        sum = sum.saturating_add(found);
    }
    Some(sum)
}
