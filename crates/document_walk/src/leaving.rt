//! An element that is left, behind its children.

ghost use Rattle.std.specs.Prelude.{◌≡◌, ◌+◌, ◌≤◌, IfOk, Some, option_copied};
ghost use Rattle.forest.specs.Spots.{IsLive};
ghost use Rattle.node_arena.specs.Nodes.{attrs_of};
ghost use Rattle.box_eval.specs.Elements.{by_parent, closing_of};
ghost use Rattle.box_eval.specs.Evaluation.{without_box};
ghost use Rattle.box_eval.specs.Starts.{has_starts};
ghost use Rattle.surroundings.specs.StyledEvaluators.{IsBehindChildren};
ghost use Rattle.surroundings.specs.Surroundings.{handed_behind, handed_by};
ghost use Rattle.document_walk.specs.Catching.{CanClose, past_by, reading, said_by};
ghost use Rattle.document_walk.specs.Walking.{asks_before, closing_with, own_changes, starts_before, told_opened};

use crate::element::close;
use crate::opened::Opened;
use crate::sources::Sources;
use box_eval::change::Change;
use box_eval::element_record::ElementRecord;
use box_eval::entry::{Closing, Entry};
use box_eval::inputs::Start;
use box_eval::starts::Starts;
use counter_sets::counter_set::CounterSet;
use plain_types::list::List;
use plain_types::memory::Memory;
use plain_types::style::ElementStyle;
use std::alloc::Global;
use std::sync::ledger::Ledger;
use steps::Steps;
use surroundings::surroundings::{Surroundings, share_handed};

/// What an element gives that is left.
#[derive(Drop)]
pub(crate) struct Left {
    pub(crate) said: ElementRecord,
    /// Whether a box of it asks for the start of a reversed counter.
    pub(crate) asks: bool,
    /// The starts that its boxes were given.
    pub(crate) starts: List<Start>,
    /// What its own box does to counters.
    pub(crate) changes: List<Change>,
    /// What is handed on behind it.
    pub(crate) past: Option<Surroundings>,
}

/// What an element gives that is left, of which this was made, which was handed this, and behind whose children that
/// is handed on.
pub(crate) fn left_of<L: Ledger, T: Starts>(
    alloc: Global,
    sources: &Sources<T>,
    key: usize,
    opened: Option<Opened>,
    handed: Option<&Surroundings>,
    behind: Option<&Surroundings>,
    steps: &mut Steps<L>,
) -> Result<Left, Memory>
    requires live { IsLive sources.now.arena.now.tree key }
    requires closes { CanClose key (option_copied behind) }
    ensures said { IfOk result (λ left. left.said ≡ said_by (reading T.starts sources.now) key opened (option_copied behind.entry)) }
    ensures asks { IfOk result (λ left. left.asks ≡ asks_before opened) }
    ensures starts { IfOk result (λ left. left.starts ≡ starts_before opened) }
    ensures changes { IfOk result (λ left. left.changes ≡ own_changes opened) }
    ensures past { IfOk result (λ left. left.past ≡ past_by (reading T.starts sources.now) key opened (option_copied handed.entry) (option_copied behind.entry)) }
    ensures step { steps.new ≤ steps.old + 1 }
{
    match behind {
        Some(behind) => left_behind(alloc, sources, key, opened, handed, behind, steps),
        None => left_bare(alloc, handed, opened),
    }
}

/// The same, where this is handed on behind its children.
fn left_behind<L: Ledger, T: Starts>(
    alloc: Global,
    sources: &Sources<T>,
    key: usize,
    opened: Option<Opened>,
    handed: Option<&Surroundings>,
    behind: &Surroundings,
    steps: &mut Steps<L>,
) -> Result<Left, Memory>
    requires live { IsLive sources.now.arena.now.tree key }
    requires closes { IsBehindChildren key behind.now }
    ensures said { IfOk result (λ left. left.said ≡ said_by (reading T.starts sources.now) key opened (Some behind.now)) }
    ensures asks { IfOk result (λ left. left.asks ≡ asks_before opened) }
    ensures starts { IfOk result (λ left. left.starts ≡ starts_before opened) }
    ensures changes { IfOk result (λ left. left.changes ≡ own_changes opened) }
    ensures past { IfOk result (λ left. left.past ≡ past_by (reading T.starts sources.now) key opened (option_copied handed.entry) (Some behind.now)) }
    ensures step { steps.new ≤ steps.old + 1 }
{
    match opened {
        Some(opened) => left_box(alloc, sources, key, opened, behind, steps),
        None => left_bare(alloc, handed, None),
    }
}

/// An element behind whose children nothing is handed on hands on what it was handed.
fn left_bare(
    alloc: Global,
    handed: Option<&Surroundings>,
    opened: Option<Opened>,
) -> Result<Left, Memory>
    ensures said { IfOk result (λ left. left.said ≡ without_box) }
    ensures asks { IfOk result (λ left. left.asks ≡ asks_before opened) }
    ensures starts { IfOk result (λ left. left.starts ≡ starts_before opened) }
    ensures changes { IfOk result (λ left. left.changes ≡ own_changes opened) }
    ensures past { IfOk result (λ left. left.past ≡ option_copied handed.entry) }
{
    let (starts, changes) = counting_of(alloc, opened);
    Ok(Left {
        said: without_box(alloc)?,
        asks: are_some(&starts),
        starts,
        changes,
        past: share_handed(alloc, handed)?,
    })
}

/// The starts that the boxes of an element were given, and what its own box does to counters.
fn counting_of(alloc: Global, opened: Option<Opened>) -> (List<Start>, List<Change>)
    ensures starts { result.0 ≡ starts_before opened }
    ensures changes { result.1 ≡ own_changes opened }
{
    match opened {
        Some(opened) => {
            let Opened { starts, entry, .. } = opened;
            (starts, entry.changes)
        }
        None => (List::new(alloc), List::new(alloc)),
    }
}

/// Whether there are starts.
fn are_some(starts: &List<Start>) -> bool
    ensures test { result ≡ has_starts starts.now }
{
    !starts.is_empty()
}

/// An element with a box.
fn left_box<L: Ledger, T: Starts>(
    alloc: Global,
    sources: &Sources<T>,
    key: usize,
    opened: Opened,
    behind: &Surroundings,
    steps: &mut Steps<L>,
) -> Result<Left, Memory>
    requires live { IsLive sources.now.arena.now.tree key }
    requires closes { IsBehindChildren key behind.now }
    ensures asks { IfOk result (λ left. left.asks ≡ has_starts opened.starts) }
    ensures starts { IfOk result (λ left. left.starts ≡ opened.starts) }
    ensures changes { IfOk result (λ left. left.changes ≡ opened.entry.changes) }
    ensures said { IfOk result (λ left. left.said ≡ told_opened opened.depth opened.entry (closing_with sources.now.table.now sources.now.arena.now.tree key opened (handed_by behind.now))) }
    ensures past { IfOk result (λ left. left.past ≡ Some (handed_behind opened.parent opened.entry.own (closing_with sources.now.table.now sources.now.arena.now.tree key opened (handed_by behind.now)))) }
    ensures step { steps.new ≤ steps.old + 1 }
{
    let Opened {
        parent,
        depth,
        style,
        starts,
        entry,
    } = opened;
    let (closing, starts) = closing_in(alloc, sources, key, style, starts, behind, steps)?;
    let past = past_box(alloc, parent, &entry.own, &closing)?;
    let asks = are_some(&starts);
    let (said, changes) = told_opened(depth, entry, closing);
    Ok(Left {
        said,
        asks,
        starts,
        changes,
        past: Some(past),
    })
}

/// An element of this style with a box, from its children on, and the starts that it was given. Its style is not needed after.
fn closing_in<L: Ledger, T: Starts>(
    alloc: Global,
    sources: &Sources<T>,
    key: usize,
    style: ElementStyle,
    starts: List<Start>,
    behind: &Surroundings,
    steps: &mut Steps<L>,
) -> Result<(Closing, List<Start>), Memory>
    requires live { IsLive sources.now.arena.now.tree key }
    requires closes { IsBehindChildren key behind.now }
    ensures closing { IfOk result (λ left. left.0 ≡ closing_of sources.now.table.now by_parent key (record { attrs = attrs_of sources.now.arena.now.tree key; style = style; starts = starts }) (handed_by behind.now)) }
    ensures starts { IfOk result (λ left. left.1 ≡ starts) }
    ensures step { steps.new ≤ steps.old + 1 }
{
    closing_under(alloc, sources, key, &style, starts, behind, steps)
}

fn closing_under<L: Ledger, T: Starts>(
    alloc: Global,
    sources: &Sources<T>,
    key: usize,
    style: &ElementStyle,
    starts: List<Start>,
    behind: &Surroundings,
    steps: &mut Steps<L>,
) -> Result<(Closing, List<Start>), Memory>
    requires live { IsLive sources.now.arena.now.tree key }
    requires closes { IsBehindChildren key behind.now }
    ensures closing { IfOk result (λ left. left.0 ≡ closing_of sources.now.table.now by_parent key (record { attrs = attrs_of sources.now.arena.now.tree key; style = style.now; starts = starts }) (handed_by behind.now)) }
    ensures starts { IfOk result (λ left. left.1 ≡ starts) }
    ensures step { steps.new ≤ steps.old + 1 }
{
    let inputs = behind.inputs(alloc, key, starts)?;
    let closing = close(alloc, sources, style, &inputs, steps)?;
    Ok((closing, inputs.starts))
}

/// What is said of an element without a box.
fn without_box(alloc: Global) -> Result<ElementRecord, Memory>
    ensures told { IfOk result (λ told. told ≡ without_box) }
{
    Ok(ElementRecord {
        has_box: false,
        own: CounterSet::empty(alloc)?,
        exit: CounterSet::empty(alloc)?,
        depth_before: 0,
        depth_after: 0,
        marker: None,
        before: None,
        after: None,
    })
}

/// What is said of an element with a box: the depth before its first box, and what was made of it; and what its own box does
/// to counters.
fn told_opened(depth: u64, entry: Entry, closing: Closing) -> (ElementRecord, List<Change>)
    ensures told { result.0 ≡ told_opened depth entry closing }
    ensures changes { result.1 ≡ entry.changes }
{
    let said = ElementRecord {
        has_box: true,
        own: entry.own,
        exit: closing.exit,
        depth_before: depth,
        depth_after: closing.depth,
        marker: entry.marker,
        before: entry.before,
        after: closing.after,
    };
    (said, entry.changes)
}

/// What is handed on behind an element with these counters, whose parent box has those.
fn past_box(
    alloc: Global,
    parent: CounterSet,
    own: &CounterSet,
    closing: &Closing,
) -> Result<Surroundings, Memory>
    ensures past { IfOk result (λ around. around ≡ handed_behind parent own.now closing.now) }
{
    Ok(Surroundings {
        parent,
        sibling: Some(own.share(alloc)?),
        preceding: Some(closing.exit.share(alloc)?),
        depth: closing.depth,
    })
}
