//! Classes of bytes, and searches by them.
//!
//! Readers look for the next byte that means something: a quote, a `<`, a character that ends a name.
//! Such a set of bytes is a [`ByteClass`], made once from its ranges; [`first_in`], [`first_not_in`] and
//! [`count_in`] then read a slice by it. No call takes memory.
//!
//! The crate is our own, of no standard. The layer above knows it by two words of `specs/`: `is_in class
//! byte`, that the byte lies in one of the ranges, and `is_outside class byte`, that it lies in none. What
//! `first_in` answers is the `position` of the first byte in the class, and `first_not_in` that of the first
//! outside it; `count_in` counts those in it by `count_by`. Both are words of std.
//!
//! All go over the bytes in one pass: as many at once as a vector holds, range by range and without an early
//! end, and the rest byte by byte.
//!
//! With the class of `<` and `&`, `first_in(b"ab&c<", &class)` is `Some(2)`, `first_not_in` gives `Some(0)`, and
//! `count_in` gives 2.
#![tactic(auto)]

ghost use Rattle.std.specs.Prelude.{◌≡◌, ◌≤◌, SomeIff, length, map, count_by, position};
ghost use Rattle.std.specs.Simd.Lanes.{mask_l};
ghost use Rattle.lane_class.specs.Ranges.{is_in, is_outside};

use std::marker::Model;
use std::simd::prelude::*;

/// How many ranges a class may have.
const MOST: usize = 8;

/// How many bytes a vector holds.
const LANES: usize = 32;

/// A bit for each of them.
const EACH_LANE: u64 = 0xffff_ffff;

/// A set of bytes: those that lie in one of at most eight ranges. Contracts see the list of its ranges.
#[derive(Drop)]
pub struct ByteClass {
    ranges: [(u8, u8); 8],
    len: usize,
}

impl Model for ByteClass {
    ghost use Rattle.std.specs.Prelude.{List, ℕ, ◌≤◌, take};

    ghost Value = { List (ℕ × ℕ) };

    ghost view = { λ class. take class.len class.ranges };

    ghost invariant = { λ class. class.len ≤ 8 };
}

impl ByteClass {
    /// The class of these ranges, each its first and its last byte; a range whose last byte is below its
    /// first is empty. `None` where there are more than eight.
    pub fn of(ranges: &[(u8, u8)]) -> Option<ByteClass>
        ensures { SomeIff result (length ranges.now ≤ 8) ranges.now }
    {
        if ranges.len() > MOST {
            return None;
        }
        let mut kept = [(1, 0); MOST];
        kept[..ranges.len()].copy_from_slice(ranges);
        Some(ByteClass {
            ranges: kept,
            len: ranges.len(),
        })
    }

    /// Whether the byte lies in one of the ranges.
    pub fn contains(&self, byte: u8) -> bool
        ensures { result ≡ is_in self.now byte }
    {
        self.ranges[..self.len]
            .iter()
            .any(|(first, last)| *first <= byte && byte <= *last)
    }

    /// For each of these bytes a bit, the first one's lowest: whether it lies in one of the ranges.
    #[inline(always)]
    fn hits(&self, lanes: u8x32) -> u64
        ensures { result ≡ mask_l (map (is_in self.now) lanes) }
    {
        let mut inside = Mask::splat(false);
        for (first, last) in &self.ranges[..self.len] {
            let from_first = lanes.simd_ge(u8x32::splat(*first));
            inside = inside | from_first & lanes.simd_le(u8x32::splat(*last));
        }
        inside.to_bitmask()
    }

    /// For each of these bytes a bit, the first one's lowest: whether it lies in none of the ranges.
    #[inline(always)]
    fn misses(&self, lanes: u8x32) -> u64
        ensures { result ≡ mask_l (map (is_outside self.now) lanes) }
    {
        EACH_LANE - self.hits(lanes)
    }
}

/// The first place whose byte is in the class, byte by byte.
fn first_near(bytes: &[u8], class: &ByteClass) -> Option<usize>
    ensures { result ≡ position (is_in class.now) bytes.now }
{
    bytes.iter().position(|byte| class.contains(*byte))
}

/// The first place whose byte is outside the class, byte by byte.
fn first_other_near(bytes: &[u8], class: &ByteClass) -> Option<usize>
    ensures { result ≡ position (is_outside class.now) bytes.now }
{
    bytes.iter().position(|byte| !class.contains(*byte))
}

/// How many bytes are in the class, byte by byte.
fn count_near(bytes: &[u8], class: &ByteClass) -> usize
    ensures { result ≡ count_by (is_in class.now) bytes.now }
{
    bytes.iter().filter(|byte| class.contains(**byte)).count()
}

/// The first place whose byte is in the class, in time linear in that place.
pub fn first_in(bytes: &[u8], class: &ByteClass) -> Option<usize>
    ensures { result ≡ position (is_in class.now) bytes.now }
{
    let mut start = 0;
    'far: while bytes.len() - start >= LANES {
        let hits = class.hits(u8x32::from_slice(&bytes[start..]));
        if hits != 0 {
            return Some(start + hits.trailing_zeros() as usize);
        }
        start += LANES;
    }
    match first_near(&bytes[start..], class) {
        Some(place) => Some(start + place),
        None => None,
    }
}

/// The first place whose byte is outside the class, in time linear in that place.
pub fn first_not_in(bytes: &[u8], class: &ByteClass) -> Option<usize>
    ensures { result ≡ position (is_outside class.now) bytes.now }
{
    let mut start = 0;
    'far: while bytes.len() - start >= LANES {
        let misses = class.misses(u8x32::from_slice(&bytes[start..]));
        if misses != 0 {
            return Some(start + misses.trailing_zeros() as usize);
        }
        start += LANES;
    }
    match first_other_near(&bytes[start..], class) {
        Some(behind) => Some(start + behind),
        None => None,
    }
}

/// How many bytes are in the class, in linear time.
pub fn count_in(bytes: &[u8], class: &ByteClass) -> usize
    ensures { result ≡ count_by (is_in class.now) bytes.now }
{
    let mut start = 0;
    let mut count = 0;
    'far: while bytes.len() - start >= LANES {
        let hits = class.hits(u8x32::from_slice(&bytes[start..]));
        count += hits.count_ones() as usize;
        start += LANES;
    }
    count + count_near(&bytes[start..], class)
}

#[cfg(test)]
mod tests {
    use super::*;
    use std::test::Fail;

    #[test]
    fn letters_and_marks(rt: HostRuntime) -> Result<(), Fail> {
        let class = ByteClass::of(&[(b'<', b'<'), (b'a', b'f')]).ok_or("two ranges")?;
        assert_eq!(rt; first_in(b"xyz<a", &class), Some(3));
        assert_eq!(rt; first_in(b"gz`", &class), None);
        assert_eq!(rt; first_not_in(b"<afz<", &class), Some(3));
        assert_eq!(rt; first_not_in(b"<<a", &class), None);
        assert_eq!(rt; count_in(b"fa<=;g", &class), 3);
        assert!(rt; ByteClass::of(&[(1, 0); 9]).is_none());
        Ok(())
    }

    /// Whether the one byte of the class is found and counted, where it is put at this place of the text.
    fn is_seen(class: &ByteClass, bytes: &mut [u8; 70], place: usize, len: usize) -> bool {
        if place >= bytes.len() || len > bytes.len() {
            return false;
        }
        bytes[place] = b'<';
        let wanted = if place < len { Some(place) } else { None };
        let found = first_in(&bytes[..len], class);
        let count = count_in(&bytes[..len], class);
        bytes[place] = b'x';
        found == wanted && count == usize::from(place < len)
    }

    #[test]
    fn every_place_of_every_length(rt: HostRuntime) -> Result<(), Fail> {
        let class = ByteClass::of(&[(b'<', b'<'), (0, 31), (0xef, 0xef)]).ok_or("three ranges")?;
        let mut bytes = [b'x'; 70];
        for len in 0..=70 {
            for place in 0..70 {
                assert!(rt; is_seen(&class, &mut bytes, place, len), "{place} of {len}");
            }
        }
        Ok(())
    }

    /// Whether the one byte outside the class is found, where it is put at this place of the text.
    fn is_seen_outside(class: &ByteClass, bytes: &mut [u8; 70], place: usize, len: usize) -> bool {
        if place >= bytes.len() || len > bytes.len() {
            return false;
        }
        bytes[place] = b'x';
        let wanted = if place < len { Some(place) } else { None };
        let found = first_not_in(&bytes[..len], class);
        bytes[place] = b' ';
        found == wanted
    }

    #[test]
    fn every_place_outside_of_every_length(rt: HostRuntime) -> Result<(), Fail> {
        let class = ByteClass::of(&[(b' ', b' '), (9, 10), (12, 13)]).ok_or("three ranges")?;
        let mut bytes = [b' '; 70];
        for len in 0..=70 {
            for place in 0..70 {
                assert!(rt;
                    is_seen_outside(&class, &mut bytes, place, len),
                    "{place} of {len}"
                );
            }
        }
        Ok(())
    }

    #[test]
    fn every_length_of_many(rt: HostRuntime) -> Result<(), Fail> {
        let class = ByteClass::of(&[(b'0', b'9'), (b'<', b'<')]).ok_or("two ranges")?;
        let bytes = b"0a<0a<0a<0a<0a<0a<0a<0a<0a<0a<0a<0a<0a<0a<0a<0a<0a<0a<0a<0a<0a<0a<0a<0";
        let mut wanted: usize = 0;
        for len in 0..70 {
            assert_eq!(rt; count_in(&bytes[..len], &class), wanted);
            let next = &bytes[len..];
            let step = usize::from(next[0] != b'a');
            wanted = wanted.saturating_add(step);
            assert_eq!(rt; first_in(next, &class), Some(1 - step.min(1)));
            let other = if len < 68 {
                Some([1, 0, 2][len % 3])
            } else {
                None
            };
            assert_eq!(rt; first_not_in(next, &class), other);
        }
        Ok(())
    }

    #[test]
    fn both_ends_of_a_range(rt: HostRuntime) -> Result<(), Fail> {
        let class = ByteClass::of(&[(0, 1), (0x7f, 0x80), (0xff, 0xff), (9, 8)]).ok_or(
            "four ranges",
        )?;
        let bytes = [0, 1, 2, 8, 9, 0x7e, 0x7f, 0x80, 0x81, 0xfe, 0xff];
        let mut long = [2; 44];
        long[33..].copy_from_slice(&bytes);
        assert_eq!(rt; count_in(&bytes, &class), 5);
        assert_eq!(rt; count_in(&long, &class), 5);
        assert_eq!(rt; first_in(&long, &class), Some(33));
        assert_eq!(rt; first_in(&long[12..], &class), Some(21));
        assert_eq!(rt; first_not_in(&long[33..], &class), Some(2));
        assert_eq!(rt; first_not_in(&long[39..], &class), Some(2));
        assert_eq!(rt; first_not_in(&long[43..], &class), None);
        Ok(())
    }
}
