//! The evaluation of one element, round its children.

ghost use Rattle.std.specs.Prelude.{◌≡◌, ◌≢◌, ◌+◌, ◌∷◌, [], IfOk, List, Some, None, false, true, option_copied, option_map, unwrap_or};
ghost use Rattle.std.specs.Option.{option_map_or};
ghost use Rattle.plain_types.specs.declared.box_id.BoxId.{BoxId};
ghost use Rattle.plain_types.specs.declared.box_kind.BoxKind.TheVariants as kind;
ghost use Rattle.counter_sets.specs.Sets.{inherited, is_missing_in};
ghost use Rattle.box_eval.specs.declared.made.Made.{Made};
ghost use Rattle.box_eval.specs.Boxes.{box_of, generates_box, has_marker, has_pseudo_box, is_list_item, is_unmarked};
ghost use Rattle.box_eval.specs.Elements.{by_parent, by_peers, closing_of, default_content, default_text, entry_of, handed_in, inherited_by, inside, item_number, marker_content, marker_formed, past_formed, pseudo_formed, styled_by};
ghost use Rattle.box_eval.specs.Forming.{box_formed};
ghost use Rattle.box_eval.specs.Properties.{counted};
ghost use Rattle.box_eval.specs.Scopes.{AreBehindChildren, AreEarlier, AreNew, HasNoneOf, first_boxes, last_boxes};

use crate::boxes::{has_marker, is_list_item, pseudo_items};
use crate::counting::{Counted, count_box};
use crate::entry::{Closing, Entry};
use crate::formed::Formed;
use crate::inputs::{Inputs, Start};
use crate::made::Made;
use content_eval::eval_items::eval_items;
use content_eval::generated::{Generated, Piece};
use content_eval::place::Place;
use counter_sets::counter_set::CounterSet;
use plain_types::attr::Attr;
use plain_types::box_id::BoxId;
use plain_types::box_kind::BoxKind;
use plain_types::content::{Content, Item};
use plain_types::count::Count;
use plain_types::duplicate::Duplicate;
use plain_types::list::List;
use plain_types::memory::Memory;
use plain_types::style::{ElementStyle, ListType, Style};
use plain_types::table::Table;
use plain_types::text::Text;
use representation::represent::represent_marker;
use std::alloc::Global;
use std::sync::ledger::Ledger;
use steps::Steps;

/// The element's own box, its marker and its before box, where its parent has a box or it is the root. The
/// element generates a box.
///
/// It adds one step, whatever it answers. It takes time in the product of the sets' lengths, for each entry of a
/// counter property once more linear in them, and what `eval_items` takes. Where it answers `Memory`, nothing has
/// changed but the steps.
pub fn eval_element<L: Ledger>(
    alloc: Global,
    table: &Table,
    style: &ElementStyle,
    attrs: &[Attr],
    inputs: &Inputs,
    steps: &mut Steps<L>,
) -> Result<Entry, Memory>
    requires boxed { generates_box style.now ≡ true }
    requires new { AreNew (first_boxes inputs.now.key style.now) inputs.now }
    ensures entry { IfOk result (λ entry. (earlier : List BoxId) → AreEarlier earlier inputs.now → entry ≡ entry_of table.now by_peers inputs.now.key (styled_by inputs.now attrs.now style.now) (handed_in inputs.now earlier)) }
    ensures by_parent { IfOk result (λ entry. entry ≡ entry_of table.now by_parent inputs.now.key (styled_by inputs.now attrs.now style.now) (handed_in inputs.now [])) }
    ensures step { steps.new ≡ steps.old + 1 }
{
    steps.tick();
    let own = count_own(alloc, style, inputs)?;
    let marker = form_marker(alloc, table, style, attrs, inputs, &own.set)?;
    let before = form_before(alloc, table, style, attrs, inputs, &own.set, &marker)?;
    Ok(Entry {
        own: own.set,
        changes: own.changes,
        marker: marker.made,
        before: before.made,
        depth: before.depth,
    })
}

/// The element's after box, and the counters and the quote depth with which the element is left. The inputs
/// are those behind its children: `parent` has the element's own counters, `sibling` those of its last child
/// box, `preceding` those of the last box before in tree order.
///
/// It adds one step, whatever it answers. It takes time in the product of the sets' lengths, for each entry of a
/// counter property once more linear in them, and what `eval_items` takes. Where it answers `Memory`, nothing has
/// changed but the steps.
pub fn close_element<L: Ledger>(
    alloc: Global,
    table: &Table,
    style: &ElementStyle,
    attrs: &[Attr],
    inputs: &Inputs,
    steps: &mut Steps<L>,
) -> Result<Closing, Memory>
    requires behind { AreBehindChildren inputs.now }
    requires new { AreNew (last_boxes inputs.now.key style.now) inputs.now }
    ensures closing { IfOk result (λ closing. (earlier : List BoxId) → AreEarlier earlier inputs.now → closing ≡ closing_of table.now by_peers inputs.now.key (styled_by inputs.now attrs.now style.now) (handed_in inputs.now earlier)) }
    ensures by_parent { IfOk result (λ closing. closing ≡ closing_of table.now by_parent inputs.now.key (styled_by inputs.now attrs.now style.now) (handed_in inputs.now [])) }
    ensures step { steps.new ≡ steps.old + 1 }
{
    steps.tick();
    let after = form_after(alloc, table, style, attrs, inputs)?;
    let exit = exit_behind(alloc, &after, inputs.preceding.as_ref())?;
    Ok(Closing {
        exit,
        depth: after.depth,
        after: after.made,
    })
}

/// The counters of the element's own box.
fn count_own(alloc: Global, style: &ElementStyle, inputs: &Inputs) -> Result<Counted, Memory>
    requires new { AreNew (first_boxes inputs.now.key style.now) inputs.now }
    ensures own { IfOk result (λ own. own ≡ counted (is_missing_in inputs.now.parent) (box_of inputs.now.key kind.Element) inputs.now.starts (is_list_item style.now.own.display) style.now.own (inherited inputs.now.parent inputs.now.sibling inputs.now.preceding)) }
{
    let place = place_in(alloc, BoxKind::Element, inputs)?;
    let is_item = is_list_item(style.own.display);
    count_box(alloc, inputs.starts.as_slice(), is_item, &style.own, &place)
}

/// The place of a box of the element, whose inputs these are, with the counters that it inherits.
fn place_in(alloc: Global, kind: BoxKind, inputs: &Inputs) -> Result<Place, Memory>
    ensures place { IfOk result (λ place. place ≡ record { creator = box_of inputs.now.key kind; parent = inputs.now.parent; set = inherited inputs.now.parent inputs.now.sibling inputs.now.preceding; depth = inputs.now.depth }) }
{
    let creator = BoxId {
        key: inputs.key,
        kind,
    };
    let sibling = inputs.sibling.as_ref();
    let preceding = inputs.preceding.as_ref();
    let set = CounterSet::inherit(alloc, &inputs.parent, sibling, preceding)?;
    Ok(Place {
        creator,
        parent: inputs.parent.share(alloc)?,
        set,
        depth: inputs.depth,
    })
}

/// The element's marker, where its own box has these counters.
fn form_marker(
    alloc: Global,
    table: &Table,
    style: &ElementStyle,
    attrs: &[Attr],
    inputs: &Inputs,
    own: &CounterSet,
) -> Result<Formed, Memory>
    ensures marker { IfOk result (λ marker. marker ≡ marker_formed table.now by_parent inputs.now.key (styled_by inputs.now attrs.now style.now) (inside own.now inputs.now.depth)) }
{
    if !has_marker(style) {
        return Ok(Formed {
            made: None,
            depth: inputs.depth,
        });
    }
    let content = marker_content(alloc, table, style, attrs, inputs, own)?;
    Ok(Formed {
        made: Some(Made {
            set: content.set,
            pieces: content.pieces,
            changes: List::new(alloc),
        }),
        depth: content.depth,
    })
}

/// What the element's marker says.
fn marker_content(
    alloc: Global,
    table: &Table,
    style: &ElementStyle,
    attrs: &[Attr],
    inputs: &Inputs,
    own: &CounterSet,
) -> Result<Generated, Memory>
    requires marked { has_marker style.now ≡ true }
    ensures content { IfOk result (λ content. content ≡ marker_content table.now by_parent inputs.now.key (styled_by inputs.now attrs.now style.now) (inside own.now inputs.now.depth)) }
{
    let set = CounterSet::inherit(alloc, own, None, Some(own))?;
    match &style.marker.content {
        Content::Items(items) => {
            let place = Place {
                creator: BoxId {
                    key: inputs.key,
                    kind: BoxKind::Marker,
                },
                parent: own.share(alloc)?,
                set,
                depth: inputs.depth,
            };
            eval_items(alloc, table, items, attrs, &style.marker.quotes, &place)
        }
        Content::Normal | Content::Nothing => {
            default_content(alloc, table, &style.own.list_type, set, inputs.depth)
        }
    }
}

/// What a marker without items of its own says.
fn default_content(
    alloc: Global,
    table: &Table,
    list_type: &ListType,
    set: CounterSet,
    depth: u64,
) -> Result<Generated, Memory>
    requires marked { is_unmarked list_type.now ≡ false }
    ensures content { IfOk result (λ content. content ≡ default_content table.now list_type.now set depth) }
{
    let text = default_text(alloc, table, list_type, &set)?;
    let mut pieces = List::new(alloc);
    pieces.push(Piece::Chars(text))?;
    Ok(Generated { pieces, set, depth })
}

/// The text of a marker without items of its own.
fn default_text(
    alloc: Global,
    table: &Table,
    list_type: &ListType,
    set: &CounterSet,
) -> Result<Text, Memory>
    requires marked { is_unmarked list_type.now ≡ false }
    ensures text { IfOk result (λ text. text ≡ default_text table.now list_type.now set.now) }
{
    match list_type {
        ListType::Chars(text) => text.duplicate(alloc),
        ListType::Style(style) => {
            let mut text = Text::new(alloc);
            represent_marker(alloc, table, style, item_number(set), &mut text)?;
            Ok(text)
        }
    }
}

/// The value of the innermost counter `list-item`, which a list item has.
fn item_number(set: &CounterSet) -> Count
    ensures number { result ≡ item_number set.now }
{
    match set.innermost("list-item") {
        Some(counter) => counter.value,
        None => 0,
    }
}

/// The element's before box, where its own box has these counters and this is its marker.
fn form_before(
    alloc: Global,
    table: &Table,
    style: &ElementStyle,
    attrs: &[Attr],
    inputs: &Inputs,
    own: &CounterSet,
    marker: &Formed,
) -> Result<Formed, Memory>
    requires new { has_pseudo_box style.now.before ≡ true → HasNoneOf (box_of inputs.now.key kind.Before ∷ []) (inherited_by (past_formed (box_of inputs.now.key kind.Marker) marker.now (inside own.now inputs.now.depth))) }
    ensures before { IfOk result (λ before. before ≡ pseudo_formed table.now by_parent inputs.now.key (styled_by inputs.now attrs.now style.now) kind.Before style.now.before (past_formed (box_of inputs.now.key kind.Marker) marker.now (inside own.now inputs.now.depth))) }
{
    match pseudo_items(&style.before) {
        Some(items) => {
            let place = place_before(alloc, inputs.key, own, marker)?;
            let starts = inputs.starts.as_slice();
            form_box(alloc, table, &style.before, items, attrs, starts, &place)
        }
        None => Ok(Formed {
            made: None,
            depth: marker.depth,
        }),
    }
}

/// The place of a before box, with the counters that it inherits.
fn place_before(
    alloc: Global,
    key: usize,
    own: &CounterSet,
    marker: &Formed,
) -> Result<Place, Memory>
    ensures place { IfOk result (λ place. place ≡ record { creator = box_of key kind.Before; parent = own.now; set = inherited own.now (option_map (λ (made : Made). made.set) marker.now.made) (Some (option_map_or (λ (made : Made). made.set) marker.now.made own.now)); depth = marker.now.depth }) }
{
    let creator = BoxId {
        key,
        kind: BoxKind::Before,
    };
    let set = match &marker.made {
        Some(made) => CounterSet::inherit(alloc, own, Some(&made.set), Some(&made.set))?,
        None => CounterSet::inherit(alloc, own, None, Some(own))?,
    };
    Ok(Place {
        creator,
        parent: own.share(alloc)?,
        set,
        depth: marker.depth,
    })
}

/// The element's after box.
fn form_after(
    alloc: Global,
    table: &Table,
    style: &ElementStyle,
    attrs: &[Attr],
    inputs: &Inputs,
) -> Result<Formed, Memory>
    requires new { AreNew (last_boxes inputs.now.key style.now) inputs.now }
    ensures after { IfOk result (λ after. after ≡ pseudo_formed table.now by_parent inputs.now.key (styled_by inputs.now attrs.now style.now) kind.After style.now.after (handed_in inputs.now [])) }
{
    match pseudo_items(&style.after) {
        Some(items) => {
            let place = place_in(alloc, BoxKind::After, inputs)?;
            let starts = inputs.starts.as_slice();
            form_box(alloc, table, &style.after, items, attrs, starts, &place)
        }
        None => Ok(Formed {
            made: None,
            depth: inputs.depth,
        }),
    }
}

/// The box of `::before` or `::after`, with these items. The place has the counters that it inherits.
fn form_box(
    alloc: Global,
    table: &Table,
    style: &Style,
    items: &List<Item>,
    attrs: &[Attr],
    starts: &[Start],
    place: &Place,
) -> Result<Formed, Memory>
    requires new { HasNoneOf (place.now.creator ∷ []) place.now.set }
    ensures formed { IfOk result (λ formed. formed ≡ box_formed table.now items.now attrs.now style.now starts.now place.now) }
{
    let counted = count_box(alloc, starts, false, style, place)?;
    let inside = Place {
        creator: place.creator,
        parent: place.parent.share(alloc)?,
        set: counted.set,
        depth: place.depth,
    };
    let content = eval_items(alloc, table, items, attrs, &style.quotes, &inside)?;
    Ok(Formed {
        made: Some(Made {
            set: content.set,
            pieces: content.pieces,
            changes: counted.changes,
        }),
        depth: content.depth,
    })
}

/// The counters with which an element is left.
fn exit_behind(
    alloc: Global,
    after: &Formed,
    preceding: Option<&CounterSet>,
) -> Result<CounterSet, Memory>
    ensures exit { IfOk result (λ exit. exit ≡ option_map_or (λ (made : Made). made.set) after.now.made (unwrap_or (option_copied preceding.entry) [])) }
{
    match &after.made {
        Some(made) => made.set.share(alloc),
        None => match preceding {
            Some(set) => set.share(alloc),
            None => CounterSet::empty(alloc),
        },
    }
}
