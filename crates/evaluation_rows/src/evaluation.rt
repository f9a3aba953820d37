//! What boxes make of counters, quotes and content, over the texts of documents and sheets, worked out by hand.

ghost use Rattle.std.specs.Prelude.{◌≡◌, ◌<◌, IfOk, IfSome, IsTrue, not};
ghost use Rattle.std.specs.List.{list_all};
ghost use Rattle.counter_sets.specs.Sets.{is_by_peer};
ghost use Rattle.box_eval.specs.Boxes.{generates_box};
ghost use Rattle.box_eval.specs.Scopes.{AreBehindChildren, AreNew, first_boxes, last_boxes};

use crate::cascade::{arena_of, style_at, table_of};
use crate::shown::show_set;
use box_eval::element::{close_element, eval_element};
use box_eval::entry::{Closing, Entry};
use box_eval::inputs::Inputs;
use box_eval::made::Made;
use content_eval::generated::Piece;
use counter_sets::counter_set::CounterSet;
use counter_style_table::build::build;
use css_reader::sheet::read_sheet;
use mini_cascade::agent_sheet::AGENT_SHEET;
use mini_cascade::rule_table::RuleTable;
use node_arena::arena::Arena;
use plain_types::attr::Attr;
use plain_types::box_id::BoxId;
use plain_types::box_kind::BoxKind;
use plain_types::counter::Counter;
use plain_types::list::List;
use plain_types::memory::Memory;
use plain_types::style::{Display, ElementStyle, Style};
use plain_types::table::Table;
use plain_types::text::Text;
use std::alloc::Global;
use std::marker::Brand;
use std::sync::ledger::{Blank, Ledger};
use std::test::Fail;
use steps::Steps;

/// An element, or one in another, a sheet, and what comes of them: for each element its counters and its boxes
/// with their texts; and the quote depth behind them.
type Evaluated = (&'static str, &'static str, &'static str);

static LIST_ITEMS: [Evaluated; 8] = [
    // they count down where the innermost counter is reversed, their own or their parent's
    (
        "<li/>",
        "li{list-style:decimal;counter-reset:reversed(list-item) 5}",
        "(reversed list-item 4) marker '4. ' 0",
    ),
    (
        r#"<ol reversed="" start="5"><li/></ol>"#,
        "",
        "(reversed list-item 6) (reversed list-item 5) marker '5. ' 0",
    ),
    (
        r#"<ol start="5"><li/></ol>"#,
        "",
        "(list-item 4) (list-item 5) marker '5. ' 0",
    ),
    (
        r#"<ol reversed="" start="5"><li/></ol>"#,
        "li{counter-reset:list-item 2}",
        "(reversed list-item 6) (reversed list-item 6, list-item 3) marker '3. ' 0",
    ),
    (
        r#"<ol reversed="" start="5"><li value="9"/></ol>"#,
        "",
        "(reversed list-item 6) (reversed list-item 9) marker '9. ' 0",
    ),
    // unless they name the counter
    (
        r#"<ol reversed="" start="5"><li/></ol>"#,
        "li{counter-increment:list-item}",
        "(reversed list-item 6) (reversed list-item 7) marker '7. ' 0",
    ),
    (
        "<ol><li/></ol>",
        "li{counter-increment:list-item 0 c}",
        "(list-item 0) (list-item 0, c 1) marker '0. ' 0",
    ),
    (
        "<ol><li/></ol>",
        "li{counter-increment:c}",
        "(list-item 0) (list-item 1, c 1) marker '1. ' 0",
    ),
];

static COUNTERS: [Evaluated; 10] = [
    // sums end at the ends of counts
    (
        "<p/>",
        "p{counter-reset:c 9223372036854775807;counter-increment:c}p::before{content:counter(c)}",
        "(c 9223372036854775807) before '9223372036854775807' 0",
    ),
    (
        "<p/>",
        "p{counter-reset:c -9223372036854775808;counter-increment:c -1}",
        "(c -9223372036854775808) 0",
    ),
    (
        "<p/>",
        "p{counter-increment:c 9223372036854775807 c 9223372036854775807 c -1}",
        "(c 9223372036854775806) 0",
    ),
    (
        "<li/>",
        "li{list-style:none;counter-reset:list-item 9223372036854775807}",
        "(list-item 9223372036854775807) 0",
    ),
    // names that come again
    ("<p/>", "p{counter-reset:a 1 b 2 a 3}", "(b 2, a 3) 0"),
    (
        "<p/>",
        "p{counter-reset:a 1 b 2 reversed(a) 3}",
        "(b 2, reversed a 3) 0",
    ),
    ("<p/>", "p{counter-increment:a 1 b 2 a 3}", "(a 4, b 2) 0"),
    ("<p/>", "p{counter-set:a 1 b 2 a 3}", "(b 2, a 3) 0"),
    // the properties in their order, whatever that of the declarations
    (
        "<p/>",
        "p{counter-set:a 5;counter-increment:a 2 b;counter-reset:a 1}",
        "(a 5, b 1) 0",
    ),
    (
        "<p><b/></p>",
        "p,b{counter-reset:a}b{counter-increment:a}",
        "(a 0) (a 0, a 1) 0",
    ),
];

static CONTENTS: [Evaluated; 7] = [
    // a marker has the quotes of its element, and the next box the depth behind it
    (
        "<li/>",
        r#"li{quotes:"<" ">" "(" ")"}li::marker{quotes:none;content:open-quote "x"}li::before{content:open-quote}"#,
        "(list-item 1) marker '<x' before '(' 2",
    ),
    (
        "<li/>",
        r#"li{quotes:none}li::marker{content:open-quote "x" close-quote}"#,
        "(list-item 1) marker 'x' 0",
    ),
    // a counter that is made by its use is handed on, also where the style writes nothing
    (
        "<p/>",
        "p::before{content:counter(c,none)}p::after{counter-increment:c;content:counter(c)}",
        "() before '' after '1' 0",
    ),
    (
        "<p/>",
        r#"p::before{content:counter(c)}p::after{content:counters(c,".",none)}"#,
        "() before '0' after '' 0",
    ),
    (
        "<li/>",
        "li::marker{content:counter(c)}li::before{counter-increment:c;content:counter(c)}",
        "(list-item 1) marker '0' before '1' 0",
    ),
    // the boxes of an element stand between those of its parent
    (
        "<q><q/></q>",
        "",
        "() before '“' () before '‘' after '’' after '”' 0",
    ),
    (
        "<p><b/></p>",
        "p::after{content:counter(c)}b{counter-increment:c}",
        "() (c 1) after '1' 0",
    ),
];

/// Sheets for `p`, the depth before it, and what comes of it.
static DEPTHS: [(&str, u64, &str); 5] = [
    (
        r#"p::before{content:close-quote "!"}"#,
        0,
        "() before '!' 0",
    ),
    (
        "p::before{content:no-close-quote open-quote}",
        0,
        "() before '“' 1",
    ),
    (
        "p::before{content:open-quote}",
        u64::MAX,
        "() before '‘' 18446744073709551615",
    ),
    (
        "p::before{content:no-open-quote}",
        u64::MAX,
        "() before '' 18446744073709551615",
    ),
    (
        "p::after{content:close-quote}",
        u64::MAX,
        "() after '’' 18446744073709551614",
    ),
];

/// A document with its sheets, and the counter styles of the author's.
#[derive(Drop)]
struct Page {
    arena: Arena,
    agent: RuleTable,
    author: RuleTable,
    table: Table,
}

/// Whether the element has a box where its parent has one.
fn generates_box(style: &ElementStyle) -> bool
    ensures { result ≡ generates_box style.now }
{
    match style.own.display {
        Display::Absent => false,
        Display::ListItem | Display::Plain => true,
    }
}

/// Whether one of these boxes created the counter.
fn is_by_one_of(boxes: &[BoxId], counter: &Counter) -> bool
    ensures { result ≡ is_by_peer boxes.now counter.now }
{
    boxes.iter().any(|other| counter.creator == *other)
}

/// Whether none of these boxes created a counter of the set.
fn has_none_of(boxes: &[BoxId], set: &CounterSet) -> bool
    ensures { result ≡ list_all (λ counter. not (is_by_peer boxes.now counter)) set.now }
{
    set.as_slice()
        .iter()
        .all(|counter| !is_by_one_of(boxes, counter))
}

/// Whether none of these boxes created a counter that the inputs hand on.
fn are_new(boxes: &[BoxId], inputs: &Inputs) -> bool
    ensures { IsTrue result → AreNew boxes.now inputs.now }
{
    match &inputs.sibling {
        Some(set) => has_none_of(boxes, &inputs.parent) && has_none_of(boxes, set),
        None => has_none_of(boxes, &inputs.parent),
    }
}

/// Whether none of the boxes before the element's children has been before.
fn first_are_new(style: &ElementStyle, inputs: &Inputs) -> bool
    ensures { IsTrue result → AreNew (first_boxes inputs.now.key style.now) inputs.now }
{
    let key = inputs.key;
    let own = BoxId {
        key,
        kind: BoxKind::Element,
    };
    let marker = BoxId {
        key,
        kind: BoxKind::Marker,
    };
    let before = BoxId {
        key,
        kind: BoxKind::Before,
    };
    are_new(&[own, marker, before], inputs)
}

/// Whether the box behind them has not been before.
fn last_are_new(style: &ElementStyle, inputs: &Inputs) -> bool
    ensures { IsTrue result → AreNew (last_boxes inputs.now.key style.now) inputs.now }
{
    let after = BoxId {
        key: inputs.key,
        kind: BoxKind::After,
    };
    are_new(&[after], inputs)
}

/// The element's own box, its marker and its before box; none where it has no box, or one of these has been
/// before.
fn entered<L: Ledger>(
    alloc: Global,
    table: &Table,
    style: &ElementStyle,
    attrs: &[Attr],
    inputs: &Inputs,
    steps: &mut Steps<L>,
) -> Result<Option<Entry>, Memory> {
    if !generates_box(style) || !first_are_new(style, inputs) {
        return Ok(None);
    }
    Ok(Some(eval_element(alloc, table, style, attrs, inputs, steps)?))
}

/// Its after box; none where that has been before.
fn closed<L: Ledger>(
    alloc: Global,
    table: &Table,
    style: &ElementStyle,
    attrs: &[Attr],
    inputs: &Inputs,
    steps: &mut Steps<L>,
) -> Result<Option<Closing>, Memory>
    requires behind { AreBehindChildren inputs.now }
{
    if !last_are_new(style, inputs) {
        return Ok(None);
    }
    Ok(Some(close_element(alloc, table, style, attrs, inputs, steps)?))
}

/// What the box is handed that comes next in the element.
fn handed_inside(alloc: Global, key: usize, entry: &Entry) -> Result<Inputs, Memory>
    ensures behind { IfOk result AreBehindChildren }
{
    let last = match (&entry.before, &entry.marker) {
        (Some(made), _) | (None, Some(made)) => Some(&made.set),
        (None, None) => None,
    };
    let (sibling, preceding) = match last {
        Some(set) => (Some(set.share(alloc)?), set.share(alloc)?),
        None => (None, entry.own.share(alloc)?),
    };
    Ok(Inputs {
        key,
        parent: entry.own.share(alloc)?,
        sibling,
        preceding: Some(preceding),
        depth: entry.depth,
        starts: List::new(alloc),
    })
}

/// A box with its text, if it is there, as `before 'text'`.
fn show_box(kind: &str, made: Option<&Made>, out: &mut Text) -> Result<(), Memory> {
    let Some(made) = made else {
        return Ok(());
    };
    out.push_str(kind)?;
    out.push_str(" '")?;
    for piece in made.pieces.as_slice() {
        if let Piece::Chars(text) = piece {
            out.push_str(text.as_str())?;
        }
    }
    out.push_str("' ")
}

fn show_entry(alloc: Global, entry: &Entry, out: &mut Text) -> Result<(), Memory> {
    show_set(alloc, &entry.own, out)?;
    show_box("marker", entry.marker.as_ref(), out)?;
    show_box("before", entry.before.as_ref(), out)
}

/// An element without children: its counters, and what it is left with.
fn leaf<L: Ledger>(
    alloc: Global,
    table: &Table,
    style: &ElementStyle,
    attrs: &[Attr],
    inputs: &Inputs,
    steps: &mut Steps<L>,
    out: &mut Text,
) -> Result<Option<(CounterSet, Closing)>, Memory> {
    let Some(entry) = entered(alloc, table, style, attrs, inputs, steps)? else {
        return Ok(None);
    };
    show_entry(alloc, &entry, out)?;
    let behind = handed_inside(alloc, inputs.key, &entry)?;
    let Some(closing) = closed(alloc, table, style, attrs, &behind, steps)? else {
        return Ok(None);
    };
    show_box("after", closing.after.as_ref(), out)?;
    Ok(Some((entry.own, closing)))
}

/// What the root's next box is handed behind its child, if it has one, in place of `inputs`.
fn handed_behind<L: Ledger>(
    alloc: Global,
    page: &Page,
    style: &Style,
    inputs: Inputs,
    steps: &mut Steps<L>,
    out: &mut Text,
) -> Result<Option<Inputs>, Memory>
    requires behind { AreBehindChildren inputs }
    ensures behind { IfOk result (λ handed. IfSome handed AreBehindChildren) }
{
    let root = page.arena.root();
    let Some(child) = page.arena.child(root, 0) else {
        return Ok(Some(inputs));
    };
    let style = style_at(
        alloc,
        &page.arena,
        &page.agent,
        &page.author,
        Some(style),
        child,
        steps,
    )?;
    let attrs = page.arena.attrs(child);
    let inputs = Inputs {
        key: child,
        ..inputs
    };
    let Some((own, closing)) = leaf(alloc, &page.table, &style, attrs, &inputs, steps, out)? else {
        return Ok(None);
    };
    Ok(Some(Inputs {
        key: root,
        parent: inputs.parent,
        sibling: Some(own),
        preceding: Some(closing.exit),
        depth: closing.depth,
        starts: List::new(alloc),
    }))
}

/// What the root's own box is handed.
fn handed_first(alloc: Global, root: usize, depth: u64) -> Result<Inputs, Memory> {
    Ok(Inputs {
        key: root,
        parent: CounterSet::empty(alloc)?,
        sibling: None,
        preceding: None,
        depth,
        starts: List::new(alloc),
    })
}

/// The root and its child, from this depth on, and the depth behind them; none where an element has no box.
fn evaluated<L: Ledger>(
    alloc: Global,
    page: &Page,
    depth: u64,
    steps: &mut Steps<L>,
    out: &mut Text,
) -> Result<Option<u64>, Memory> {
    let root = page.arena.root();
    let attrs = page.arena.attrs(root);
    let style = style_at(
        alloc,
        &page.arena,
        &page.agent,
        &page.author,
        None,
        root,
        steps,
    )?;
    let inputs = handed_first(alloc, root, depth)?;
    let Some(entry) = entered(alloc, &page.table, &style, attrs, &inputs, steps)? else {
        return Ok(None);
    };
    show_entry(alloc, &entry, out)?;
    let inside = handed_inside(alloc, root, &entry)?;
    let Some(behind) = handed_behind(alloc, page, &style.own, inside, steps, out)? else {
        return Ok(None);
    };
    let Some(closing) = closed(alloc, &page.table, &style, attrs, &behind, steps)? else {
        return Ok(None);
    };
    show_box("after", closing.after.as_ref(), out)?;
    Ok(Some(closing.depth))
}

/// The document with the user agent's sheet and this one; none where the text is no document.
fn page_of(alloc: Global, document: &str, sheet: &str) -> Result<Option<Page>, Memory> {
    let Some(arena) = arena_of(alloc, document)? else {
        return Ok(None);
    };
    let author = read_sheet(alloc, sheet)?;
    Ok(Some(Page {
        arena,
        agent: table_of(alloc, AGENT_SHEET)?,
        table: build(alloc, &author.styles)?,
        author: RuleTable::new(alloc, author)?,
    }))
}

/// What comes of the page from this depth on, and the depth behind it.
fn shown<L: Ledger>(rt: &HostRuntime, blank: Blank, page: &Page, depth: u64) -> Result<Text, Memory>
    requires name { blank.name ≡ L.name }
    requires parts { blank.parts ≡ L.parts }
    requires some { 0 < L.parts }
{
    let alloc = rt.alloc();
    let mut steps = Steps::<L>::open(rt, blank);
    let mut out = Text::new(alloc);
    if let Some(behind) = evaluated(alloc, page, depth, &mut steps, &mut out)? {
        out.push_str(format!(in alloc; "{behind}")?.as_str())?;
    }
    Ok(out)
}

/// Whether this comes of the texts from this depth on.
fn comes_out(
    rt: &HostRuntime,
    document: &str,
    sheet: &str,
    depth: u64,
    expected: &str,
) -> Result<bool, Memory> {
    match page_of(rt.alloc(), document, sheet)? {
        Some(page) => { Ok(shown::<Brand>(rt, Blank::new(1), &page, depth)?.as_str() == expected) }
        None => Ok(false),
    }
}

/// The place of the first row of which something else comes; none where each is as it says.
fn first_wrong(rt: &HostRuntime, table: &[Evaluated]) -> Result<Option<usize>, Memory> {
    for (place, (document, sheet, expected)) in table.iter().enumerate() {
        if !comes_out(rt, document, sheet, 0, expected)? {
            return Ok(Some(place));
        }
    }
    Ok(None)
}

#[test]
fn list_items_count(rt: HostRuntime) -> Result<(), Fail> {
    assert_eq!(rt; first_wrong(&rt, &LIST_ITEMS)?, None);
    Ok(())
}

#[test]
fn properties_change_counters(rt: HostRuntime) -> Result<(), Fail> {
    assert_eq!(rt; first_wrong(&rt, &COUNTERS)?, None);
    Ok(())
}

#[test]
fn boxes_have_contents(rt: HostRuntime) -> Result<(), Fail> {
    assert_eq!(rt; first_wrong(&rt, &CONTENTS)?, None);
    Ok(())
}

#[test]
fn depth_ends(rt: HostRuntime) -> Result<(), Fail> {
    for (place, (sheet, depth, expected)) in DEPTHS.iter().enumerate() {
        assert!(rt;
            comes_out(&rt, "<p/>", sheet, *depth, expected)?,
            "row {place}"
        );
    }
    Ok(())
}
