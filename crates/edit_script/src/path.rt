//! Paths as they are written.

ghost use Rattle.std.specs.Prelude.{◌↔◌, ℕ, IfErr, IfNone, IfOk, IfSome, IsTrue, List, OnErr};
ghost use Rattle.std.specs.Str.{chars, IsUtf8};
ghost use Rattle.edit_script.specs.Machinery.LineFaults.{IsLineFault};
ghost use Rattle.edit_script.specs.Machinery.Words.{ArePositions, IsPositionAndRest, IsPositionFront};
ghost use Rattle.edit_script.specs.Scripts.{IsPathText, ReadsAsPath};

use crate::line_fault::LineFault;
use crate::words::position_of;
use plain_types::list::List;
use plain_types::memory::Memory;
use plain_types::path::Path;
use std::alloc::Global;
use xhtml_items::characters::Class;
use xhtml_items::text::{past_word, split_while};

/// The position behind a slash at the front, and what stands behind it. It takes no memory.
fn split_position(text: &str) -> Option<(usize, &str)>
    ensures found { IfSome result (λ x. IsPositionAndRest (chars text.now) x.0 (chars x.1.now)) }
    ensures none { IfNone result ((x : ℕ × List ℕ) → IsPositionFront (chars text.now) x → ⊥) }
    ensures rest { IfSome result (λ x. IsUtf8 x.1.now) }
{
    let after = past_word("/", text)?;
    let (digits, rest) = split_while(Class::Digit, after);
    let position = position_of(digits)?;
    Some((position, rest))
}

/// Positions, each behind a slash.
fn read_positions(alloc: Global, text: &str) -> Result<List<usize>, LineFault>
    ensures found { IfOk result (ArePositions (chars text.now)) }
    ensures fault { IfErr result (IsLineFault (ArePositions (chars text.now))) }
{
    let mut positions = List::new(alloc);
    let mut rest = text;
    'positions: while !rest.is_empty() {
        let Some((position, after)) = split_position(rest) else {
            return Err(LineFault::NoForm);
        };
        positions.push(position)?;
        rest = after;
    }
    Ok(positions)
}

/// The path of these characters, all of them.
pub(crate) fn read_path(alloc: Global, text: &str) -> Result<Path, LineFault>
    ensures found { IfOk result (IsPathText (chars text.now)) }
    ensures fault { IfErr result (IsLineFault (IsPathText (chars text.now))) }
{
    if text == "/" {
        return Ok(Path::of(alloc, &[])?);
    }
    let positions = read_positions(alloc, text)?;
    if positions.is_empty() {
        return Err(LineFault::NoForm);
    }
    Ok(Path::of(alloc, positions.as_slice())?)
}

/// Whether these characters are positions, each behind a slash. It takes no memory.
fn are_positions(text: &str) -> bool
    ensures same { IsTrue result ↔ ((path : List ℕ) × ArePositions (chars text.now) path) }
{
    let mut rest = text;
    'positions: while !rest.is_empty() {
        let Some((_, after)) = split_position(rest) else {
            return false;
        };
        rest = after;
    }
    true
}

/// Whether these characters are a path, all of them. It takes no memory.
fn is_path(text: &str) -> bool
    ensures same { IsTrue result ↔ ((path : List ℕ) × IsPathText (chars text.now) path) }
{
    text == "/" || !text.is_empty() && are_positions(text)
}

/// The path that a word is, as scripts have it, if it is one. Whether it is one is told without memory.
pub fn path_of_word(alloc: Global, word: &str) -> Result<Option<Path>, Memory>
    ensures path { IfOk result (ReadsAsPath (chars word.now)) }
    ensures memory { OnErr result ((path : List ℕ) × IsPathText (chars word.now) path) }
{
    if !is_path(word) {
        return Ok(None);
    }
    match read_path(alloc, word) {
        Ok(path) => Ok(Some(path)),
        Err(LineFault::NoForm) => Ok(None),
        Err(LineFault::Memory) => Err(Memory),
    }
}
