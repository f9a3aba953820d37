//! One element, as a walk comes to it and leaves it.

ghost use Rattle.std.specs.Prelude.{◌≡◌, ◌+◌, ◌≤◌, [], IfOk, None, option_copied, option_map, true};
ghost use Rattle.forest.specs.Spots.{IsLive};
ghost use Rattle.node_arena.specs.Nodes.{attrs_of};
ghost use Rattle.mini_cascade.specs.Styles.{element_style};
ghost use Rattle.box_eval.specs.Boxes.{generates_box};
ghost use Rattle.box_eval.specs.Elements.{by_parent, closing_of, handed_in, styled_by};
ghost use Rattle.box_eval.specs.Scopes.{AreBehindChildren, AreNew, last_boxes};
ghost use Rattle.surroundings.specs.Surroundings.{HandsOn, IsByOther, handed_by};
ghost use Rattle.document_walk.specs.Walking.{opened_by, opened_in, opened_with};

use crate::opened::Opened;
use crate::sources::Sources;
use box_eval::boxes::generates_box;
use box_eval::element::{close_element, eval_element};
use box_eval::entry::{Closing, Entry};
use box_eval::inputs::Inputs;
use box_eval::starts::{Starts, element_starts};
use mini_cascade::style_attributes::inline_declarations;
use mini_cascade::style_of::style_of;
use plain_types::memory::Memory;
use plain_types::style::{ElementStyle, Style};
use selector_match::siblings::Siblings;
use std::alloc::Global;
use std::sync::ledger::Ledger;
use steps::Steps;
use surroundings::surroundings::Surroundings;

/// The element as far as its children come, where it has a box. Its parent has a box and this style, or it is
/// the root.
pub(crate) fn open<L: Ledger, T: Starts>(
    alloc: Global,
    sources: &Sources<T>,
    siblings: &mut Siblings<'_>,
    parent: Option<&Style>,
    key: usize,
    around: &Surroundings,
    steps: &mut Steps<L>,
) -> Result<Option<Opened>, Memory>
    requires same { siblings.old ≡ sources.now.arena.now.tree }
    requires live { IsLive sources.now.arena.now.tree key }
    requires new { HandsOn (IsByOther key) around.now }
    ensures opened { IfOk result (λ opened. opened ≡ opened_in sources.now.table.now (element_style sources.now.arena.now.tree sources.now.agent.now sources.now.author.now) (T.starts sources.now.starts.now) sources.now.arena.now.tree true key (option_copied parent.entry) (handed_by around.now)) }
    ensures same { siblings.new ≡ siblings.old }
    ensures steps { steps.new ≤ steps.old + 2 }
{
    let style = styled(alloc, sources, siblings, parent, key, steps)?;
    let made = open_styled(alloc, sources, &style, key, around, steps)?;
    Ok(with_style(style, made))
}

/// The style of an element, where its parent has this one.
fn styled<L: Ledger, T: Starts>(
    alloc: Global,
    sources: &Sources<T>,
    siblings: &mut Siblings<'_>,
    parent: Option<&Style>,
    key: usize,
    steps: &mut Steps<L>,
) -> Result<ElementStyle, Memory>
    requires same { siblings.old ≡ sources.now.arena.now.tree }
    requires live { IsLive sources.now.arena.now.tree key }
    ensures style { IfOk result (λ style. style ≡ element_style sources.now.arena.now.tree sources.now.agent.now sources.now.author.now key (option_copied parent.entry)) }
    ensures same { siblings.new ≡ siblings.old }
    ensures step { steps.new ≤ steps.old + 1 }
{
    let inline = inline_declarations(alloc, sources.arena, key)?;
    style_of(
        alloc,
        siblings,
        sources.agent,
        sources.author,
        inline.as_slice(),
        parent,
        key,
        steps,
    )
}

/// An element of this style, as far as its children come, where it generates a box.
fn open_styled<L: Ledger, T: Starts>(
    alloc: Global,
    sources: &Sources<T>,
    style: &ElementStyle,
    key: usize,
    around: &Surroundings,
    steps: &mut Steps<L>,
) -> Result<Option<(Inputs, Entry)>, Memory>
    requires live { IsLive sources.now.arena.now.tree key }
    requires new { HandsOn (IsByOther key) around.now }
    ensures opened { IfOk result (λ made. option_map (opened_by style.now) made ≡ opened_in sources.now.table.now (λ _ _. style.now) (T.starts sources.now.starts.now) sources.now.arena.now.tree true key None (handed_by around.now)) }
    ensures step { steps.new ≤ steps.old + 1 }
{
    if !generates_box(style) {
        return Ok(None);
    }
    Ok(Some(open_box(alloc, sources, style, key, around, steps)?))
}

/// An element of this style, which generates a box, as far as its children come, with what it stands on.
fn open_box<L: Ledger, T: Starts>(
    alloc: Global,
    sources: &Sources<T>,
    style: &ElementStyle,
    key: usize,
    around: &Surroundings,
    steps: &mut Steps<L>,
) -> Result<(Inputs, Entry), Memory>
    requires live { IsLive sources.now.arena.now.tree key }
    requires boxed { generates_box style.now ≡ true }
    requires new { HandsOn (IsByOther key) around.now }
    ensures opened { IfOk result (λ made. opened_by style.now made ≡ opened_with sources.now.table.now (λ _ _. style.now) (T.starts sources.now.starts.now) sources.now.arena.now.tree key None (handed_by around.now)) }
    ensures step { steps.new ≤ steps.old + 1 }
{
    let starts = element_starts(alloc, sources.starts, key, style)?;
    let inputs = around.inputs(alloc, key, starts)?;
    let attrs = sources.arena.attrs(key);
    let entry = eval_element(alloc, sources.table, style, attrs, &inputs, steps)?;
    Ok((inputs, entry))
}

/// An element of this style, of which this was made where it has a box.
fn with_style(style: ElementStyle, made: Option<(Inputs, Entry)>) -> Option<Opened>
    ensures { result ≡ option_map (opened_by style) made }
{
    match made {
        Some((inputs, entry)) => Some(Opened {
            parent: inputs.parent,
            depth: inputs.depth,
            style,
            starts: inputs.starts,
            entry,
        }),
        None => None,
    }
}

/// An element of this style with a box, from its children on. The inputs are those behind its children.
pub(crate) fn close<L: Ledger, T: Starts>(
    alloc: Global,
    sources: &Sources<T>,
    style: &ElementStyle,
    inputs: &Inputs,
    steps: &mut Steps<L>,
) -> Result<Closing, Memory>
    requires live { IsLive sources.now.arena.now.tree inputs.now.key }
    requires behind { AreBehindChildren inputs.now }
    requires new { AreNew (last_boxes inputs.now.key style.now) inputs.now }
    ensures closing { IfOk result (λ closing. closing ≡ closing_of sources.now.table.now by_parent inputs.now.key (styled_by inputs.now (attrs_of sources.now.arena.now.tree inputs.now.key) style.now) (handed_in inputs.now [])) }
    ensures step { steps.new ≡ steps.old + 1 }
{
    let attrs = sources.arena.attrs(inputs.key);
    close_element(alloc, sources.table, style, attrs, inputs, steps)
}
