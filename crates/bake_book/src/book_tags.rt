//! The tags of a book's document, with the texts that are put in at them.

ghost use Rattle.std.specs.Prelude.{◌≡◌, ◌≤◌, ◌+◌, ◌*◌, [], true, length, IfOk, IfSome, None, OnErr};
ghost use Rattle.std.specs.Str.{IsUtf8};
ghost use Rattle.bake_book.specs.Dressing.{box_insertions, dressed_document};
ghost use Rattle.bake_book.specs.Machinery.{IsKept, dressed_book, dressed_left, keyed_left, one_text, texts_of};
ghost use Rattle.bake_book.specs.Walks.{IsWalk, tags_left};
ghost use Rattle.bake_definitions.specs.Tags.{next_tag, tags_of};
ghost use Rattle.document_walk.specs.Elements.{element_count};
ghost use Rattle.forest.specs.Keys.{without_keys};

use crate::laws::{dressing_keeps_no_keys, walks_give_the_tags};
use crate::tag_walk::{KeyedTag, TagWalk};
use baked_text::tag_insertions::TagInsertions;
use dirty_walk::book::Book;
use generated_texts::entry::{BoxText, NodeEntry};
use node_arena::laws::arena_holds_document;
use plain_types::box_kind::BoxKind;
use plain_types::memory::Memory;
use std::alloc::Global;
use std::marker::Model;
use std::sync::ledger::Ledger;
use steps::Steps;

/// A tag, and what is kept of its element.
#[derive(Drop)]
struct NextTag<'a> {
    tag: KeyedTag,
    entry: &'a NodeEntry,
}

/// The full text of a box and its kind, where there is a box and its text is not empty.
fn some_text(kind: BoxKind, text: &Option<BoxText>) -> Option<(BoxKind, &str)>
    ensures text { one_text result ≡ box_insertions kind text.now }
    ensures utf8 { IfSome result (λ some. IsUtf8 some.1.now) }
{
    let Some(text) = text else {
        return None;
    };
    let full = text.full.as_str();
    if full.is_empty() {
        return None;
    }
    Some((kind, full))
}

/// A walk over the tags of a book's document, in the order of its text, with what its sheet puts in at them.
#[derive(Drop)]
pub(crate) struct BookTags<'a> {
    book: &'a Book,
    walk: TagWalk,
    /// Behind the last tag there is none.
    next: Option<NextTag<'a>>,
}

impl<'a> Model for BookTags<'a> {
    ghost use Rattle.plain_types.specs.contracts.node.Node as node;
    ghost use Rattle.kept_elements.specs.contracts.kept.Kept as kept;
    ghost use Rattle.bake_book.specs.Machinery.{IsAt, TagsToCome, coded_tags_to_come, tags_to_come};
    ghost use Rattle.dirty_walk.specs.Books.{coded_styled_document};

    ghost Value = { TagsToCome };

    ghost coded = { coded_tags_to_come (coded_styled_document node.the_row.coded kept.the_row.coded) };

    ghost view = { λ tags. tags_to_come tags.book.now tags.next tags.walk };

    ghost invariant = { λ tags. IsAt tags.book.now tags.next tags.walk };
}

/// The next tag of a walk, with what is kept of its element: a step where there is one.
fn read_next<'a, L: Ledger>(
    book: &'a Book,
    walk: &mut TagWalk,
    steps: &mut Steps<L>,
) -> Result<Option<NextTag<'a>>, Memory>
    requires settled { book.now.settled ≡ true }
    requires walk { IsWalk book.now.tree walk.old }
    ensures walk { IsWalk book.now.tree walk.new }
    ensures kept { IfOk result (λ next. IfSome next (IsKept book.now)) }
    ensures left { IfOk result (λ next. tags_left book.now.tree walk.old ≡ keyed_left book.now next walk.new) }
    ensures end { IfOk result (λ next. next ≡ None → tags_left book.now.tree walk.new ≡ []) }
    ensures failed { OnErr result (tags_left book.now.tree walk.new ≡ tags_left book.now.tree walk.old) }
    ensures steps { steps.new ≤ steps.old + 1 }
    ensures no_steps { OnErr result (steps.new ≡ steps.old) }
{
    let Some(tag) = walk.next(book.arena())? else {
        return Ok(None);
    };
    let entry = book.entry(tag.key, steps);
    Ok(Some(NextTag { tag, entry }))
}

impl<'a> BookTags<'a> {
    /// A walk that stands before the first tag, with what is kept of its element, which takes a step.
    #[tactic(auto, unfolding(crate::specs::Machinery::dressed_book, crate::specs::Machinery::dressed_left))]
    pub(crate) fn begin<L: Ledger>(
        alloc: Global,
        book: &'a Book,
        steps: &mut Steps<L>,
    ) -> Result<BookTags<'a>, Memory>
        requires settled { book.now.settled ≡ true }
        ensures document { IfOk result (λ tags. dressed_book tags ≡ dressed_document book.now.sheet (without_keys book.now.tree)) }
        ensures begun { IfOk result (λ tags. dressed_left tags ≡ tags_of (dressed_book tags)) }
        ensures tags { IfOk result (λ tags. length (dressed_left tags) ≡ 2 * element_count (without_keys book.now.tree)) }
        ensures steps { steps.new ≤ steps.old + 1 }
    {
        arena_holds_document(book.arena());
        dressing_keeps_no_keys();
        walks_give_the_tags();
        let mut walk = TagWalk::begin(alloc, book.arena());
        let next = read_next(book, &mut walk, steps)?;
        Ok(BookTags { book, walk, next })
    }

    /// The texts that are put in at the next tag, one after the other. At a tag that begins an element these are of its
    /// marker and its before box, at one that ends it of its after box.
    fn texts(&self) -> (Option<(BoxKind, &str)>, Option<(BoxKind, &str)>)
        ensures texts { texts_of result ≡ (next_tag (dressed_left self.now)).insertions }
        ensures first { IfSome result.0 (λ text. IsUtf8 text.1.now) }
        ensures second { IfSome result.1 (λ text. IsUtf8 text.1.now) }
    {
        let Some(next) = &self.next else {
            return (None, None);
        };
        let entry = next.entry;
        if next.tag.is_end {
            return (some_text(BoxKind::After, &entry.after), None);
        }
        let marker = some_text(BoxKind::Marker, &entry.marker);
        (marker, some_text(BoxKind::Before, &entry.before))
    }
}

impl<'a> TagInsertions for BookTags<'a> {
    ghost document = { λ tags. dressed_book tags };

    ghost left = { λ tags. dressed_left tags };

    #[tactic(auto, unfolding(crate::specs::Machinery::dressed_left))]
    fn name(&self) -> &str {
        let Some(next) = &self.next else {
            return "";
        };
        match self.book.arena().name(next.tag.key) {
            Some(name) => name,
            None => "",
        }
    }

    fn count(&self) -> usize {
        let (first, second) = self.texts();
        first.is_some() as usize + second.is_some() as usize
    }

    fn insertion(&self, index: usize) -> (BoxKind, &str) {
        let (first, second) = self.texts();
        match first {
            Some(text) if index == 0 => text,
            _ => second.unwrap(),
        }
    }

    #[tactic(auto, unfolding(crate::specs::Machinery::dressed_left))]
    fn pass<L: Ledger>(&mut self, steps: &mut Steps<L>) -> Result<(), Memory> {
        if self.next.is_none() {
            return Ok(());
        }
        self.next = read_next(self.book, &mut self.walk, steps)?;
        Ok(())
    }
}
