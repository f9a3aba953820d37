//! What the boxes of elements do to counters, as a walk collects it.

ghost use Rattle.std.specs.Prelude.{◌≡◌, ◌++◌, OnOk, option_copied};
ghost use Rattle.box_eval.specs.Evaluation.{changes_in};
ghost use Rattle.document_walk.specs.Catching.{with_changes};
ghost use Rattle.document_walk.specs.Walking.{changes_before};

use crate::opened::Opened;
use box_eval::change::Change;
use box_eval::made::Made;
use plain_types::duplicate::Duplicate;
use plain_types::list::List;
use plain_types::memory::Memory;
use std::alloc::Global;

/// Collects what the boxes of an element before its children do, where changes are collected and it has a box.
pub(crate) fn collect_opened(
    alloc: Global,
    collected: &mut Option<List<Change>>,
    opened: Option<&Opened>,
) -> Result<(), Memory>
    ensures collected { OnOk result (collected.new ≡ with_changes collected.old (changes_before (option_copied opened.entry))) }
{
    match collected {
        Some(changes) => add_opened(alloc, changes, opened),
        None => Ok(()),
    }
}

/// Collects what the box of a pseudo-element does, where changes are collected and there is one.
pub(crate) fn collect_made(
    alloc: Global,
    collected: &mut Option<List<Change>>,
    made: Option<&Made>,
) -> Result<(), Memory>
    ensures collected { OnOk result (collected.new ≡ with_changes collected.old (changes_in (option_copied made.entry))) }
{
    match collected {
        Some(changes) => add_made(alloc, changes, made),
        None => Ok(()),
    }
}

/// Appends what the boxes of an element before its children do to counters, where it has a box.
fn add_opened(
    alloc: Global,
    changes: &mut List<Change>,
    opened: Option<&Opened>,
) -> Result<(), Memory>
    ensures ok { OnOk result (changes.new ≡ changes.old ++ changes_before (option_copied opened.entry)) }
{
    match opened {
        Some(opened) => {
            add(alloc, changes, opened.entry.changes.as_slice())?;
            add_made(alloc, changes, opened.entry.before.as_ref())
        }
        None => Ok(()),
    }
}

/// Appends what the box of a pseudo-element does, where there is one.
fn add_made(alloc: Global, changes: &mut List<Change>, made: Option<&Made>) -> Result<(), Memory>
    ensures ok { OnOk result (changes.new ≡ changes.old ++ changes_in (option_copied made.entry)) }
{
    match made {
        Some(made) => add(alloc, changes, made.changes.as_slice()),
        None => Ok(()),
    }
}

/// Appends copies of these changes.
fn add(alloc: Global, changes: &mut List<Change>, more: &[Change]) -> Result<(), Memory>
    ensures ok { OnOk result (changes.new ≡ changes.old ++ more.now) }
{
    for change in more {
        changes.push(change.duplicate(alloc)?)?;
    }
    Ok(())
}
