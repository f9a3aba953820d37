//! The starts of a document's reversed counters (our own after CSS Lists 3, 4.4).

ghost use Rattle.std.specs.Prelude.{◌≡◌, ◌++◌, ◌∷◌, ◌&&◌, ℕ, ℤ, List, [], IfOk, IfSome, OnOk, true, not, is_some, cond};
ghost use Rattle.std.specs.List.{list_any};
ghost use Rattle.std.specs.Str.{bytes_eq, chars};
ghost use Rattle.plain_types.specs.declared.box_id.BoxId.{BoxId};
ghost use Rattle.plain_types.specs.declared.style.ResetOp.{ResetOp};
ghost use Rattle.counter_sets.specs.ByNames.{is_at, value_of};
ghost use Rattle.box_eval.specs.Boxes.{generates_box, has_pseudo_box};
ghost use Rattle.box_eval.specs.Evaluation.{box_starts, element_starts};
ghost use Rattle.box_eval.specs.Properties.{start_in};
ghost use Rattle.box_eval.specs.Starts.{no_starts};

use crate::box_starts::BoxStarts;
use crate::boxes::has_pseudo_box;
use crate::inputs::Start;
use crate::ops::{is_reset_in, last_resets};
use counter_sets::by_name::{ByName, MANY, is_at};
use plain_types::box_id::BoxId;
use plain_types::box_kind::BoxKind;
use plain_types::count::Count;
use plain_types::duplicate::Duplicate;
use plain_types::list::List;
use plain_types::memory::Memory;
use plain_types::style::{ElementStyle, ResetOp, Style};
use std::alloc::Global;

/// Tells the values with which reversed counters start that are given no number.
pub trait Starts {
    /// The starts, by the box that creates the counter and by its name.
    ghost starts: { Self → BoxId → List ℕ → ℤ };

    /// The start of the counter of this name that this box creates.
    fn start(&self, creator: BoxId, name: &str) -> Count
        ensures start { result ≡ starts self.now creator (chars name.now) };

    /// A list that has the starts of all counters that this box creates, where they are kept in one. Who asks for many of
    /// them looks them up in it.
    fn listed(&self, creator: BoxId) -> Option<&[Start]>
        ensures listed { IfSome result (λ list. (name : List ℕ) → starts self.now creator name ≡ start_in list.now creator name) }
    {
        None
    }
}

/// Each counter starts with 0. So a document is evaluated to learn its starts.
pub struct NoStarts;

impl Starts for NoStarts {
    ghost starts = { λ _. no_starts };

    fn start(&self, _creator: BoxId, _name: &str) -> Count {
        0
    }
}

/// Whether an entry of `counter-reset` asks for a start: it creates a reversed counter without a number.
fn asks_for_start(reset: &ResetOp) -> bool
    ensures test { result ≡ (reset.now.reversed && not (is_some reset.now.value)) }
{
    reset.reversed && reset.value.is_none()
}

/// Whether an entry of `counter-reset`, behind which these come, creates a reversed counter without a number.
fn needs_start(reset: &ResetOp, later: &[ResetOp]) -> bool
    ensures test { result ≡ (not (list_any (λ (other : ResetOp). bytes_eq other.name reset.now.name) later.now) && (reset.now.reversed && not (is_some reset.now.value))) }
{
    !is_reset_in(later, reset.name.as_str()) && asks_for_start(reset)
}

/// Whether the entry at a place of `counter-reset` does, where these are the last places of the names.
fn needs_start_at(last: &ByName<usize>, place: usize, reset: &ResetOp) -> bool
    ensures test { result ≡ (is_at (value_of last.now reset.now.name) place && (reset.now.reversed && not (is_some reset.now.value))) }
{
    is_at(last.get(reset.name.as_str()), place) && asks_for_start(reset)
}

/// Appends the start of the reversed counter that an entry of a box's `counter-reset` creates.
fn add_start<T: Starts>(
    alloc: Global,
    starts: &T,
    creator: BoxId,
    reset: &ResetOp,
    all: &mut List<Start>,
) -> Result<(), Memory>
    ensures ok { OnOk result (all.new ≡ all.old ++ record { creator = creator; name = reset.now.name; value = T.starts starts.now creator reset.now.name } ∷ []) }
{
    all.push(Start {
        creator,
        name: reset.name.duplicate(alloc)?,
        value: starts.start(creator, reset.name.as_str()),
    })?;
    Ok(())
}

/// Appends the starts of the reversed counters that a box of a few resets creates without a number.
fn add_few<T: Starts>(
    alloc: Global,
    starts: &T,
    creator: BoxId,
    style: &Style,
    all: &mut List<Start>,
) -> Result<(), Memory>
    ensures ok { OnOk result (all.new ≡ all.old ++ box_starts (T.starts starts.now) creator style.now) }
{
    let mut rest = style.resets.as_slice();
    while let Some((reset, later)) = rest.split_first() {
        if needs_start(reset, later) {
            add_start(alloc, starts, creator, reset, all)?;
        }
        rest = later;
    }
    Ok(())
}

/// The same of a box of many resets, with a look-up of the last of each name.
fn add_many<T: Starts>(
    alloc: Global,
    starts: &T,
    creator: BoxId,
    style: &Style,
    all: &mut List<Start>,
) -> Result<(), Memory>
    ensures ok { OnOk result (all.new ≡ all.old ++ box_starts (T.starts starts.now) creator style.now) }
{
    let resets = style.resets.as_slice();
    let last = last_resets(alloc, resets)?;
    for (place, reset) in resets.iter().enumerate() {
        if needs_start_at(&last, place, reset) {
            add_start(alloc, starts, creator, reset, all)?;
        }
    }
    Ok(())
}

/// The same, with a look-up of the starts too, where they are listed.
fn add_looked_up<T: Starts>(
    alloc: Global,
    starts: &T,
    creator: BoxId,
    style: &Style,
    all: &mut List<Start>,
) -> Result<(), Memory>
    ensures ok { OnOk result (all.new ≡ all.old ++ box_starts (T.starts starts.now) creator style.now) }
{
    match starts.listed(creator) {
        Some(list) => {
            let own = BoxStarts::of(alloc, list, creator)?;
            add_many(alloc, &own, creator, style, all)
        }
        None => add_many(alloc, starts, creator, style, all),
    }
}

/// Appends the starts of the reversed counters that a box of this style creates without a number.
fn add_box_starts<T: Starts>(
    alloc: Global,
    starts: &T,
    creator: BoxId,
    style: &Style,
    all: &mut List<Start>,
) -> Result<(), Memory>
    ensures ok { OnOk result (all.new ≡ all.old ++ box_starts (T.starts starts.now) creator style.now) }
{
    if style.resets.len() < MANY {
        add_few(alloc, starts, creator, style, all)
    } else {
        add_looked_up(alloc, starts, creator, style, all)
    }
}

/// Appends those of the box of `::before` or `::after`, where it has one.
fn add_pseudo_starts<T: Starts>(
    alloc: Global,
    starts: &T,
    creator: BoxId,
    style: &Style,
    all: &mut List<Start>,
) -> Result<(), Memory>
    ensures ok { OnOk result (all.new ≡ all.old ++ cond (has_pseudo_box style.now) (box_starts (T.starts starts.now) creator style.now) []) }
{
    if has_pseudo_box(style) {
        add_box_starts(alloc, starts, creator, style, all)?;
    }
    Ok(())
}

/// The starts of the reversed counters that the boxes of an element with a box create without a number. It
/// takes time linear in the resets and in the list of starts, where there is one; without a list a start of each is asked.
pub fn element_starts<T: Starts>(
    alloc: Global,
    starts: &T,
    key: usize,
    style: &ElementStyle,
) -> Result<List<Start>, Memory>
    requires boxed { generates_box style.now ≡ true }
    ensures starts { IfOk result (λ all. all ≡ element_starts (T.starts starts.now) key style.now) }
{
    let mut all = List::new(alloc);
    let own = BoxId {
        key,
        kind: BoxKind::Element,
    };
    let before = BoxId {
        key,
        kind: BoxKind::Before,
    };
    let after = BoxId {
        key,
        kind: BoxKind::After,
    };
    add_box_starts(alloc, starts, own, &style.own, &mut all)?;
    add_pseudo_starts(alloc, starts, before, &style.before, &mut all)?;
    add_pseudo_starts(alloc, starts, after, &style.after, &mut all)?;
    Ok(all)
}
