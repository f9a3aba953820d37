//! The items of a text, with what is put in at their tags.

ghost use Rattle.std.specs.Prelude.{◌≡◌, ◌≤◌, ℕ, ◌+◌, ◌++◌, ◌||◌, List, IfOk, OnOk, OnErr, codes, drop, encode_utf8_all, length, map, take};
ghost use Rattle.std.specs.Str.{chars};
ghost use Rattle.bake_definitions.specs.Pieces.{Piece, characters_of};
ghost use Rattle.bake_definitions.specs.Tags.{next_tag};
ghost use Rattle.bake_definitions.specs.Woven.{at_piece, tags_in};
ghost use Rattle.baked_text.specs.Machinery.{IsPiece, IsRead, closing, has_some, left_out_at, left_out_on, opening, pieces_at, tag_text, tags_among, text_at, woven_text};
ghost use Rattle.baked_text.specs.Walks.{saturated};
ghost use Rattle.ports.specs.Causes.{HasCause};
ghost use Rattle.ports.specs.Grown.{grown, GrowsByFront};
ghost use Rattle.ports.specs.Puts.{HasPutCause};
ghost use Rattle.xhtml_items.specs.Tokens.{item_of};

use crate::put_insertion::{put_between, put_insertion};
use crate::span_taking::takes_span;
use crate::splitting::{front_before, split_kept};
use crate::tag_insertions::TagInsertions;
use ports::failed::Failed;
use ports::put_fault::PutFault;
use ports::sink::{Sink, put_all};
use std::alloc::Global;
use std::sync::ledger::Ledger;
use steps::Steps;
use xhtml_items::item::first_item;
use xhtml_items::passing::split_plain;
use xhtml_items::token::Token;

/// Whether something is put in at the next tag.
fn has_some<T: TagInsertions>(tags: &T) -> bool
    ensures { result ≡ has_some (next_tag (T.left tags.now)) }
{
    takes_span(tags.name()) && tags.count() > 0
}

/// Puts what is put in at the next tag, and answers how many texts find no place there.
fn put_at_tag<T: TagInsertions, O: Sink>(tags: &T, out: &mut O) -> Result<usize, Failed>
    ensures ok { OnOk result (O.out out.new ≡ grown (O.out out.old) (encode_utf8_all (text_at (next_tag (T.left tags.now))))) }
    ensures left_out { IfOk result (λ count. count ≡ saturated (left_out_at (next_tag (T.left tags.now)))) }
    ensures failed { OnErr result (GrowsByFront (O.out out.old) (O.out out.new) (encode_utf8_all (text_at (next_tag (T.left tags.now))))) }
    ensures cause { HasCause (O.faults out.old) (O.faults out.new) result }
{
    let count = tags.count();
    if !takes_span(tags.name()) {
        return Ok(count);
    }
    for index in 0..count {
        let (kind, text) = tags.insertion(index);
        put_insertion(tags.name(), kind, text, out)?;
    }
    Ok(0)
}

/// The end of a start tag that has none yet, where something is put in behind it.
fn start_end<T: TagInsertions>(is_ended: bool, tags: &T) -> &'static [u8]
    ensures { result.now ≡ opening is_ended (next_tag (T.left tags.now)) }
{
    if has_some(tags) && !is_ended {
        b">"
    } else {
        b""
    }
}

/// Puts what is put in at the next tag, and goes past it. Behind a start tag that has no end yet that end comes first. It
/// answers whether the start tag has its end now, and how many texts find no place.
fn put_behind<T: TagInsertions, O: Sink, L: Ledger>(
    is_ended: bool,
    tags: &mut T,
    out: &mut O,
    steps: &mut Steps<L>,
) -> Result<(bool, usize), PutFault>
    ensures ok { OnOk result (O.out out.new
        ≡ grown (O.out out.old) (encode_utf8_all (opening is_ended (next_tag (T.left tags.old)) ++ text_at (next_tag (T.left tags.old))))) }
    ensures left { OnOk result (T.left tags.new ≡ drop 1 (T.left tags.old)) }
    ensures ended { IfOk result (λ x. x.0 ≡ is_ended || has_some (next_tag (T.left tags.old))) }
    ensures left_out { IfOk result (λ x. x.1 ≡ saturated (left_out_at (next_tag (T.left tags.old)))) }
    ensures failed { OnErr result (GrowsByFront (O.out out.old) (O.out out.new)
        (encode_utf8_all (opening is_ended (next_tag (T.left tags.old)) ++ text_at (next_tag (T.left tags.old))))) }
    ensures cause { HasPutCause (O.faults out.old) (O.faults out.new) result }
    ensures steps { steps.new + length (T.left tags.new) ≤ steps.old + length (T.left tags.old) }
{
    let ends = is_ended || has_some(tags);
    put_all(out, start_end(is_ended, tags))?;
    let count = put_at_tag(tags, out)?;
    tags.pass(steps)?;
    Ok((ends, count))
}

/// What stands before the `/>` of an empty-element tag.
fn before_slash(tag: &str) -> &[u8]
    ensures { (front : List ℕ) → chars tag.now ≡ front ++ codes "/>" → result.now ≡ encode_utf8_all front }
{
    match tag.as_bytes().strip_suffix(b"/>") {
        Some(front) => front,
        None => tag.as_bytes(),
    }
}

/// Puts the end of an empty-element tag, or the end tag behind what was put in.
fn put_closing<O: Sink>(is_ended: bool, name: &str, out: &mut O) -> Result<(), Failed>
    ensures ok { OnOk result (O.out out.new ≡ grown (O.out out.old) (encode_utf8_all (closing is_ended (chars name.now)))) }
    ensures failed { OnErr result (GrowsByFront (O.out out.old) (O.out out.new) (encode_utf8_all (closing is_ended (chars name.now)))) }
    ensures cause { HasCause (O.faults out.old) (O.faults out.new) result }
{
    if is_ended {
        put_between(b"</", name, b">", out)
    } else {
        put_all(out, b"/>")
    }
}

/// Puts an empty-element tag of this name; where something is put in at it, as a start tag and an end tag round that.
fn put_empty_tag<T: TagInsertions, O: Sink, L: Ledger>(
    name: &str,
    tag: &str,
    tags: &mut T,
    out: &mut O,
    steps: &mut Steps<L>,
) -> Result<usize, PutFault>
    ensures ok { OnOk result ((front : List ℕ) → chars tag.now ≡ front ++ codes "/>" → O.out out.new
        ≡ grown (O.out out.old) (encode_utf8_all (tag_text (chars name.now) front (next_tag (T.left tags.old)) (next_tag (drop 1 (T.left tags.old)))))) }
    ensures left { OnOk result (T.left tags.new ≡ drop 2 (T.left tags.old)) }
    ensures left_out { IfOk result (λ count. count
        ≡ saturated (left_out_at (next_tag (T.left tags.old)) + left_out_at (next_tag (drop 1 (T.left tags.old))))) }
    ensures failed { OnErr result ((front : List ℕ) → chars tag.now ≡ front ++ codes "/>" → GrowsByFront (O.out out.old) (O.out out.new)
        (encode_utf8_all (tag_text (chars name.now) front (next_tag (T.left tags.old)) (next_tag (drop 1 (T.left tags.old)))))) }
    ensures cause { HasPutCause (O.faults out.old) (O.faults out.new) result }
    ensures steps { steps.new + length (T.left tags.new) ≤ steps.old + length (T.left tags.old) }
{
    let front = before_slash(tag);
    put_all(out, front)?;
    let (has_first, first_count) = put_behind(false, tags, out, steps)?;
    let (is_ended, last_count) = put_behind(has_first, tags, out, steps)?;
    put_closing(is_ended, name, out)?;
    Ok(first_count.saturating_add(last_count))
}

/// Puts a start tag, and then what is put in at it.
fn put_start_tag<T: TagInsertions, O: Sink, L: Ledger>(
    tag: &str,
    tags: &mut T,
    out: &mut O,
    steps: &mut Steps<L>,
) -> Result<usize, PutFault>
    ensures ok { OnOk result (O.out out.new ≡ grown (O.out out.old) (encode_utf8_all (chars tag.now ++ text_at (next_tag (T.left tags.old))))) }
    ensures left { OnOk result (T.left tags.new ≡ drop 1 (T.left tags.old)) }
    ensures left_out { IfOk result (λ count. count ≡ saturated (left_out_at (next_tag (T.left tags.old)))) }
    ensures failed { OnErr result (GrowsByFront (O.out out.old) (O.out out.new) (encode_utf8_all (chars tag.now ++ text_at (next_tag (T.left tags.old))))) }
    ensures cause { HasPutCause (O.faults out.old) (O.faults out.new) result }
    ensures steps { steps.new + length (T.left tags.new) ≤ steps.old + length (T.left tags.old) }
{
    put_all(out, tag.as_bytes())?;
    let count = put_at_tag(tags, out)?;
    tags.pass(steps)?;
    Ok(count)
}

/// Puts an end tag, behind what is put in at it.
fn put_end_tag<T: TagInsertions, O: Sink, L: Ledger>(
    tag: &str,
    tags: &mut T,
    out: &mut O,
    steps: &mut Steps<L>,
) -> Result<usize, PutFault>
    ensures ok { OnOk result (O.out out.new ≡ grown (O.out out.old) (encode_utf8_all (text_at (next_tag (T.left tags.old)) ++ chars tag.now))) }
    ensures left { OnOk result (T.left tags.new ≡ drop 1 (T.left tags.old)) }
    ensures left_out { IfOk result (λ count. count ≡ saturated (left_out_at (next_tag (T.left tags.old)))) }
    ensures failed { OnErr result (GrowsByFront (O.out out.old) (O.out out.new) (encode_utf8_all (text_at (next_tag (T.left tags.old)) ++ chars tag.now))) }
    ensures cause { HasPutCause (O.faults out.old) (O.faults out.new) result }
    ensures steps { steps.new + length (T.left tags.new) ≤ steps.old + length (T.left tags.old) }
{
    let count = put_at_tag(tags, out)?;
    put_all(out, tag.as_bytes())?;
    tags.pass(steps)?;
    Ok(count)
}

/// Puts an item, which stands so in the file, with what is put in at its tags.
fn put_item<T: TagInsertions, O: Sink, L: Ledger>(
    token: &Token<'_>,
    item: &str,
    tags: &mut T,
    out: &mut O,
    steps: &mut Steps<L>,
) -> Result<usize, PutFault>
    ensures ok { OnOk result ((p : Piece) → IsPiece (item_of token.now) (chars item.now) p → O.out out.new
        ≡ grown (O.out out.old) (encode_utf8_all (characters_of (at_piece p.item p (map pieces_at (T.left tags.old)))))) }
    ensures left { OnOk result (T.left tags.new ≡ drop (tags_in (item_of token.now)) (T.left tags.old)) }
    ensures left_out { IfOk result (λ count. count ≡ saturated (left_out_on (take (tags_in (item_of token.now)) (T.left tags.old)))) }
    ensures failed { OnErr result ((p : Piece) → IsPiece (item_of token.now) (chars item.now) p → GrowsByFront (O.out out.old) (O.out out.new)
        (encode_utf8_all (characters_of (at_piece p.item p (map pieces_at (T.left tags.old)))))) }
    ensures cause { HasPutCause (O.faults out.old) (O.faults out.new) result }
    ensures steps { steps.new + length (T.left tags.new) ≤ steps.old + length (T.left tags.old) }
{
    match token {
        Token::StartTag { .. } => put_start_tag(item, tags, out, steps),
        Token::EndTag { .. } => put_end_tag(item, tags, out, steps),
        Token::EmptyTag { name, .. } => put_empty_tag(name, item, tags, out, steps),
        _ => {
            put_all(out, item.as_bytes())?;
            Ok(0)
        }
    }
}

/// Puts a text that stands like this in the file and reads like this, with what is put in at its tags, and answers how
/// many texts found no place.
pub(crate) fn put_items<T: TagInsertions, O: Sink, L: Ledger>(
    alloc: Global,
    kept: &str,
    read: &str,
    tags: &mut T,
    out: &mut O,
    steps: &mut Steps<L>,
) -> Result<usize, PutFault>
    ensures ok { OnOk result ((pieces : List Piece) → IsRead (chars kept.now) (chars read.now) pieces
        → O.out out.new ≡ grown (O.out out.old) (encode_utf8_all (woven_text pieces (T.left tags.old)))) }
    ensures left_out { IfOk result (λ count. (pieces : List Piece) → IsRead (chars kept.now) (chars read.now) pieces
        → length (T.left tags.old) ≡ tags_among pieces → count ≡ saturated (left_out_on (T.left tags.old))) }
    ensures failed { OnErr result ((pieces : List Piece) → IsRead (chars kept.now) (chars read.now) pieces
        → GrowsByFront (O.out out.old) (O.out out.new) (encode_utf8_all (woven_text pieces (T.left tags.old)))) }
    ensures cause { HasPutCause (O.faults out.old) (O.faults out.new) result }
    ensures steps { steps.new + length (T.left tags.new) ≤ steps.old + length (T.left tags.old) }
{
    let mut kept = kept;
    let mut rest = read;
    let mut left_out: usize = 0;
    'items: while !rest.is_empty() {
        let (run, after) = split_plain(rest);
        if !run.is_empty() {
            let (front, more) = split_kept(kept, run);
            put_all(out, front.as_bytes())?;
            kept = more;
            rest = after;
            continue 'items;
        }
        match first_item(alloc, rest) {
            Err(memory) => return Err(memory.into()),
            Ok(None) => return Ok(left_out),
            Ok(Some((token, after))) => {
                let (front, more) = split_kept(kept, front_before(rest, after));
                let count = put_item(&token, front, tags, out, steps)?;
                left_out = left_out.saturating_add(count);
                kept = more;
                rest = after;
            }
        }
    }
    Ok(left_out)
}
