//! The lines that a planned edit changes, in tree order.

ghost use Rattle.std.specs.Prelude.{◌≡◌, ◌≤◌, ◌+◌, ◌++◌, ◌⊎◌, ℕ, [], false, nat_eq, flat_map, length, IfOk, OnOk, option_copied};
ghost use Rattle.std.specs.HashMap.{get};
ghost use Rattle.forest.specs.Keys.{keys};
ghost use Rattle.forest.specs.Paths.{path_of};
ghost use Rattle.forest.specs.Spots.{IsLive};
ghost use Rattle.plain_types.specs.declared.edit.Edit.{Edit};
ghost use Rattle.changed_lines.specs.Changes.{changed_lines};
ghost use Rattle.dirty_walk.specs.Books.{StyledDocument, keyed_source};
ghost use Rattle.dirty_walk.specs.PlannedEntries.{IsPlannedFrom};
ghost use Rattle.planned_lines.specs.PutLines.{looked_up, put_lines};
ghost use Rattle.planned_lines.specs.Spans.{HasEnds, IsWithin};

use crate::puts_by_key::puts_by_key;
use crate::span::{Span, span_of};
use changed_lines::changed_line::ChangedLine;
use changed_lines::element_lines::push_lines;
use dirty_walk::book::Book;
use dirty_walk::laws::plans_put_what_differs;
use dirty_walk::plan::Plan;
use kept_elements::kept_change::KeptChange;
use node_arena::arena::Arena;
use node_arena::laws::arena_holds_document;
use plain_types::memory::Memory;
use std::alloc::Global;
use std::collections::HashMap;
use std::sync::ledger::Ledger;
use steps::Steps;

/// Pushes the changed lines of a node of which this is put. What the book kept of it is looked up, in one step, where it shows
/// another text.
fn push_change<L: Ledger>(
    alloc: Global,
    book: &Book,
    arena: &Arena,
    key: usize,
    change: Option<&KeptChange>,
    lines: &mut Vec<ChangedLine>,
    steps: &mut Steps<L>,
) -> Result<(), Memory>
    requires planned { book.now.settled ≡ false }
    requires live { IsLive arena.now.tree key }
    ensures ok { OnOk result (lines.new.items ≡ lines.old.items ++ put_lines key book.now.kept (path_of arena.now.tree key) (option_copied change.entry)) }
    ensures steps { steps.new ≡ steps.old + length (looked_up key (option_copied change.entry)) }
{
    let Some(change) = change else {
        return Ok(());
    };
    if !change.shows_other {
        return Ok(());
    }
    let before = book.former(key, steps);
    push_lines(alloc, arena, key, before, Some(&change.kept.entry), lines)
}

/// The changed lines of all nodes, where this is put of nodes, and none outside a span shows another text. It is a step for
/// each node that shows one.
fn lines_within<L: Ledger>(
    alloc: Global,
    book: &Book,
    arena: &Arena,
    span: Span,
    changes: &HashMap<usize, &KeptChange>,
    steps: &mut Steps<L>,
) -> Result<Vec<ChangedLine>, Memory>
    requires planned { book.now.settled ≡ false }
    requires ends { HasEnds arena.now.tree span }
    requires others { (key : ℕ) → IsWithin arena.now.tree span key ⊎ (looked_up key (option_copied (get nat_eq changes.now key)) ≡ []) }
    ensures lines { IfOk result (λ lines. lines.items ≡ flat_map (λ (key : ℕ). put_lines key book.now.kept (path_of arena.now.tree key) (option_copied (get nat_eq changes.now key))) (keys arena.now.tree)) }
    ensures steps { steps.new ≤ steps.old + length (flat_map (λ (key : ℕ). looked_up key (option_copied (get nat_eq changes.now key))) (keys arena.now.tree)) }
{
    arena_holds_document(arena);
    let mut lines = Vec::new(alloc);
    let mut at = span.first;
    'walk: loop {
        let change = changes.get(&at).copied();
        push_change(alloc, book, arena, at, change, &mut lines, steps)?;
        if at == span.last {
            return Ok(lines);
        }
        match arena.next_in_order(at) {
            Some(next) => at = next,
            None => return Ok(lines),
        }
    }
}

/// The lines that a planned edit changes, in tree order: those of the boxes that show another text in the edited document
/// than before, or are gone while their element stays. Their paths are those of the edited document.
///
/// Nothing is evaluated: it is a step for each element that has a changed line, and none for those of which the plan puts
/// something and that show no other text. Where there are no changed lines, it takes no memory, and time linear in the number of
/// entries that the plan puts. Else it takes memory linear in this number and in the lines; and time linear in it, in the
/// nodes from the first element to the last that has a changed line, in the texts of these elements, and for each of them in
/// the greatest depth of any; `Memory` where memory is wanting.
pub fn changed_lines<L: Ledger>(
    alloc: Global,
    book: &Book,
    plan: &Plan,
    steps: &mut Steps<L>,
) -> Result<Vec<ChangedLine>, Memory>
    requires planned { (edit : Edit) × (old : StyledDocument) × IsPlannedFrom edit old book.now plan.now }
    ensures lines { IfOk result (λ lines. (edit : Edit) (old : StyledDocument) → IsPlannedFrom edit old book.now plan.now → lines.items ≡ changed_lines (keyed_source old) (keyed_source book.now)) }
    ensures line_steps { (edit : Edit) (old : StyledDocument) → IsPlannedFrom edit old book.now plan.now → steps.new ≤ steps.old + length (changed_lines (keyed_source old) (keyed_source book.now)) }
    ensures steps { steps.new ≤ steps.old + length plan.now.puts.items }
{
    plans_put_what_differs();
    let arena = book.edited_arena();
    arena_holds_document(arena);
    let puts = plan.puts();
    let Some(span) = span_of(arena, puts) else {
        return Ok(Vec::new(alloc));
    };
    let changes = puts_by_key(alloc, puts)?;
    lines_within(alloc, book, arena, span, &changes, steps)
}
