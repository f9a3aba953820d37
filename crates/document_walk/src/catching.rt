//! The state of a walk from the places of an edit.

ghost use Rattle.std.specs.Prelude.{◌≡◌, ◌+◌, ◌≤◌, ◌++◌, ◌∷◌, [], nat_eq, IfOk, OnOk, false, length, option_copied};
ghost use Rattle.std.specs.Option.{option_eq};
ghost use Rattle.forest.specs.Spots.{IsLive};
ghost use Rattle.merged_walk.specs.Stops.{is_at};
ghost use Rattle.surroundings.specs.StyledEvaluators.{root_surroundings};
ghost use Rattle.document_walk.specs.Catching.{CanClose, CanOpen, HasEntered, HasLeft, HasSkipped, frames_of, from_of, inside_opened, is_fresh_in, is_same_at, link_of, opened_at, parent_in, reading, stop_ahead, stops_left, style_above, told_at};

use crate::collecting::{collect_made, collect_opened};
use crate::element::open;
use crate::leaving::{Left, left_of};
use crate::opened::Opened;
use crate::snapshot::Snapshots;
use crate::sources::Sources;
use box_eval::change::Change;
use box_eval::starts::Starts;
use merged_walk::stop::Stop;
use plain_types::list::List;
use plain_types::memory::Memory;
use plain_types::style::Style;
use selector_match::siblings::Siblings;
use std::alloc::Global;
use std::mem;
use std::sync::ledger::Ledger;
use steps::Steps;
use surroundings::surroundings::{Surroundings, is_handed_the_same, share_handed};
use surroundings::told::Told;
use surroundings::walked::Walked;

/// An open element.
#[derive(Drop)]
pub(crate) struct OpenElement {
    pub(crate) key: usize,
    /// What was made of it, where it has a box.
    pub(crate) opened: Option<Opened>,
    /// What it was handed.
    pub(crate) handed: Option<Surroundings>,
    /// It stands in a tree that comes.
    pub(crate) fresh: bool,
}

/// How far a walk has come.
#[derive(Drop)]
pub(crate) struct Catching {
    /// The open elements, the innermost last.
    pub(crate) stack: Vec<OpenElement>,
    /// The stops to come, the next one last.
    pub(crate) stops: Vec<Stop>,
    /// Where it stands; with none a level is at its end.
    pub(crate) link: Option<usize>,
    /// What is handed there; in an element without a box there is nothing.
    pub(crate) around: Option<Surroundings>,
    /// What was told of the elements that it has evaluated.
    pub(crate) told: List<(usize, Told)>,
    /// What the boxes of those did to counters, in tree order, where it is collected.
    pub(crate) changes: Option<List<Change>>,
}

impl Catching {
    /// Whether it stands at its next stop.
    pub(crate) fn is_at_stop(&self) -> bool
        ensures test { result ≡ is_at (stops_left self.now) (length (frames_of self.now)) self.now.link }
    {
        match self.stops.last() {
            Some(stop) => stop.depth == self.stack.len() && is_same_link(stop.link, self.link),
            None => false,
        }
    }

    /// Whether it stands in a tree that comes.
    pub(crate) fn is_fresh(&self) -> bool
        ensures fresh { result ≡ is_fresh_in (frames_of self.now) }
    {
        match self.stack.last() {
            Some(frame) => frame.fresh,
            None => false,
        }
    }

    /// Whether an element was handed what is handed to it now.
    pub(crate) fn is_same<L: Ledger, B: Snapshots>(
        &self,
        board: &B,
        key: usize,
        steps: &mut Steps<L>,
    ) -> bool
        ensures test { result ≡ is_same_at (B.kept board.now) key self.now.around }
        ensures step { steps.new ≡ steps.old + 1 }
    {
        match board.walked(key, steps) {
            Some(walked) => is_handed_the_same(self.around.as_ref(), walked.handed.as_ref()),
            None => false,
        }
    }

    /// Enters the element of this key.
    pub(crate) fn enter<L: Ledger, T: Starts>(
        &mut self,
        alloc: Global,
        sources: &Sources<T>,
        siblings: &mut Siblings<'_>,
        key: usize,
        fresh: bool,
        steps: &mut Steps<L>,
    ) -> Result<(), Memory>
        requires same { siblings.old ≡ sources.now.arena.now.tree }
        requires live { IsLive sources.now.arena.now.tree key }
        requires opens { CanOpen key self.old.around }
        ensures entered { OnOk result (HasEntered (reading T.starts sources.now) self.old self.new key fresh) }
        ensures same { siblings.new ≡ siblings.old }
        ensures steps { steps.new ≤ steps.old + 2 }
    {
        let opened = self.open_next(alloc, sources, siblings, key, steps)?;
        collect_opened(alloc, &mut self.changes, opened.as_ref())?;
        let inside = inside_opened(alloc, opened.as_ref())?;
        self.go_inside(key, opened, inside, fresh)?;
        self.link = sources.arena.first_child(key);
        Ok(())
    }

    /// The element of this key, as far as its children come, where it has a box.
    fn open_next<L: Ledger, T: Starts>(
        &self,
        alloc: Global,
        sources: &Sources<T>,
        siblings: &mut Siblings<'_>,
        key: usize,
        steps: &mut Steps<L>,
    ) -> Result<Option<Opened>, Memory>
        requires same { siblings.old ≡ sources.now.arena.now.tree }
        requires live { IsLive sources.now.arena.now.tree key }
        requires opens { CanOpen key self.now.around }
        ensures opened { IfOk result (λ opened. opened ≡ opened_at (reading T.starts sources.now) (frames_of self.now) key self.now.around) }
        ensures same { siblings.new ≡ siblings.old }
        ensures steps { steps.new ≤ steps.old + 2 }
    {
        match &self.around {
            Some(around) => {
                open(
                    alloc,
                    sources,
                    siblings,
                    self.style_above(),
                    key,
                    around,
                    steps,
                )
            }
            None => Ok(None),
        }
    }

    /// The style of the innermost open element, where it has a box.
    fn style_above(&self) -> Option<&Style>
        ensures style { option_copied result ≡ style_above (frames_of self.now) }
    {
        match &self.stack.last()?.opened {
            Some(opened) => Some(&opened.style.own),
            None => None,
        }
    }

    /// Goes to the children of an element, of which this was made, and which are handed this.
    fn go_inside(
        &mut self,
        key: usize,
        opened: Option<Opened>,
        inside: Option<Surroundings>,
        fresh: bool,
    ) -> Result<(), Memory>
        ensures frames { OnOk result (frames_of self.new ≡ record { key = key; opened = opened; handed = self.old.around; fresh = fresh } ∷ frames_of self.old) }
        ensures around { OnOk result (self.new.around ≡ inside) }
        ensures stops { self.new.stops ≡ self.old.stops }
        ensures told { self.new.told ≡ self.old.told }
        ensures changes { self.new.changes ≡ self.old.changes }
    {
        let handed = mem::replace(&mut self.around, inside);
        self.stack.push(OpenElement {
            key,
            opened,
            handed,
            fresh,
        })?;
        Ok(())
    }

    /// Leaves an element, which is off the stack already.
    pub(crate) fn leave<L: Ledger, T: Starts>(
        &mut self,
        alloc: Global,
        sources: &Sources<T>,
        frame: OpenElement,
        steps: &mut Steps<L>,
    ) -> Result<(), Memory>
        requires live { IsLive sources.now.arena.now.tree frame.key }
        requires closes { CanClose frame.key self.old.around }
        ensures left { OnOk result (HasLeft (reading T.starts sources.now) self.old self.new frame) }
        ensures steps { steps.new ≤ steps.old + 1 }
    {
        let OpenElement {
            key,
            opened,
            handed,
            fresh: _,
        } = frame;
        let left = left_of(
            alloc,
            sources,
            key,
            opened,
            handed.as_ref(),
            self.around.as_ref(),
            steps,
        )?;
        collect_made(alloc, &mut self.changes, left.said.after.as_ref())?;
        self.tell(key, handed, left)?;
        self.link = sources.arena.next_sibling(key);
        Ok(())
    }

    /// Tells what is kept of an element that was handed this, and goes on behind it.
    fn tell(&mut self, key: usize, handed: Option<Surroundings>, left: Left) -> Result<(), Memory>
        ensures told { OnOk result (self.new.told ≡ self.old.told ++ (key, record { said = left.said; walked = record { handed = handed; behind = self.old.around }; asks = left.asks; starts = left.starts; changes = left.changes }) ∷ []) }
        ensures around { OnOk result (self.new.around ≡ left.past) }
        ensures stack { self.new.stack ≡ self.old.stack }
        ensures stops { self.new.stops ≡ self.old.stops }
        ensures changes { self.new.changes ≡ self.old.changes }
    {
        let Left {
            said,
            asks,
            starts,
            changes,
            past,
        } = left;
        let behind = mem::replace(&mut self.around, past);
        let told = Told {
            said,
            walked: Walked { handed, behind },
            asks,
            starts,
            changes,
        };
        self.told.push((key, told))?;
        Ok(())
    }

    /// Goes to the next stop of the level, or to its end. All up to there stays as it was.
    pub(crate) fn skip<L: Ledger, B: Snapshots>(
        &mut self,
        alloc: Global,
        board: &B,
        steps: &mut Steps<L>,
    ) -> Result<(), Memory>
        ensures skipped { OnOk result (HasSkipped (B.kept board.now) self.old self.new) }
        ensures step { steps.new ≤ steps.old + 1 }
    {
        let stop = self.stop_ahead();
        let parent = self.parent();
        self.around = told_at(alloc, board, from_of(stop), parent, steps)?;
        self.link = link_of(stop);
        Ok(())
    }

    /// The next stop, where it is on this level.
    fn stop_ahead(&self) -> Option<Stop>
        ensures ahead { result ≡ stop_ahead (stops_left self.now) (length (frames_of self.now)) }
    {
        let stop = *self.stops.last()?;
        if stop.depth == self.stack.len() {
            Some(stop)
        } else {
            None
        }
    }

    /// The key of the innermost open element.
    fn parent(&self) -> Option<usize>
        ensures parent { result ≡ parent_in (frames_of self.now) }
    {
        Some(self.stack.last()?.key)
    }
}

/// Whether two links lead to the same node, or both to an end.
fn is_same_link(first: Option<usize>, second: Option<usize>) -> bool
    ensures test { result ≡ option_eq nat_eq first second }
{
    match (first, second) {
        (Some(first), Some(second)) => first == second,
        (None, None) => true,
        _ => false,
    }
}

/// The node at which a walk goes on at a stop.
fn link_of(stop: Option<Stop>) -> Option<usize>
    ensures link { result ≡ link_of stop }
{
    stop?.link
}

/// The element that was handed what was handed at a stop.
fn from_of(stop: Option<Stop>) -> Option<usize>
    ensures from { result ≡ from_of stop }
{
    stop?.from
}

/// What the children of an element are handed, of which this was made.
fn inside_opened(alloc: Global, opened: Option<&Opened>) -> Result<Option<Surroundings>, Memory>
    ensures inside { IfOk result (λ inside. inside ≡ inside_opened (option_copied opened.entry)) }
{
    match opened {
        Some(opened) => Ok(Some(Surroundings::inside(alloc, &opened.entry)?)),
        None => Ok(None),
    }
}

/// What was handed at a place, as an element of its level tells it, or else their parent.
fn told_at<L: Ledger, B: Snapshots>(
    alloc: Global,
    board: &B,
    from: Option<usize>,
    parent: Option<usize>,
    steps: &mut Steps<L>,
) -> Result<Option<Surroundings>, Memory>
    ensures told { IfOk result (λ told. told ≡ told_at (B.kept board.now) from parent) }
    ensures step { steps.new ≤ steps.old + 1 }
{
    match from {
        Some(key) => match board.walked(key, steps) {
            Some(walked) => share_handed(alloc, walked.handed.as_ref()),
            None => Ok(None),
        },
        None => match parent {
            Some(key) => match board.walked(key, steps) {
                Some(walked) => share_handed(alloc, walked.behind.as_ref()),
                None => Ok(None),
            },
            None => Ok(None),
        },
    }
}
