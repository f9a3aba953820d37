//! The words of an attribute.

ghost use Rattle.std.specs.Prelude.{◌≡◌, IfOk, map};
ghost use Rattle.std.specs.Char.{is_ascii_whitespace};
ghost use Rattle.std.specs.List.{position};
ghost use Rattle.std.specs.Map.Iter.{deref};
ghost use Rattle.selector_match.specs.Attributes.{parts};
ghost use Rattle.mini_cascade.specs.Machinery.Shelves.{HaveSameMembers};

use plain_types::memory::Memory;
use std::alloc::Global;

/// The place of the first blank.
fn first_blank(text: &[u8]) -> Option<usize>
    ensures { result ≡ position is_ascii_whitespace text.now }
{
    text.iter().position(|byte| byte.is_ascii_whitespace())
}

/// The parts of a text between its blanks, in their order.
fn parts<'a>(alloc: Global, text: &'a [u8]) -> Result<Vec<&'a [u8]>, Memory>
    ensures parts { IfOk result (λ found. map deref found.items ≡ parts text.now) }
{
    let mut found = Vec::new(alloc);
    let mut rest = text;
    'parts: while let Some(end) = first_blank(rest) {
        found.push(&rest[..end])?;
        rest = &rest[end..][1..];
    }
    found.push(rest)?;
    Ok(found)
}

/// The parts of a text between its blanks, each once, in no stated order. Time is linear in the text, beside what it
/// takes to sort the parts.
pub(crate) fn words<'a>(alloc: Global, text: &'a [u8]) -> Result<Vec<&'a [u8]>, Memory>
    ensures words { IfOk result (λ words. HaveSameMembers (map deref words.items) (parts text.now)) }
{
    let mut words = parts(alloc, text)?;
    words.sort_unstable();
    words.dedup();
    Ok(words)
}
