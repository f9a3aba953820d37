//! The numbers of documents under their sheets, counted by hand.

ghost use Rattle.std.specs.Prelude.{◌≡◌, ◌≤◌, ◌<◌, ◌+◌, ◌*◌, IfOk, IsTrue};

use evaluation_rows::trees::tree_of;
use marker_engine::census::Census;
use marker_engine::edit_fault::EditFault;
use marker_engine::engine::Engine;
use plain_types::list::List;
use ports::memory_sink::MemorySink;
use std::alloc::Global;
use std::marker::Brand;
use std::sync::ledger::{Blank, Ledger};
use std::test::Fail;
use steps::Steps;

/// A document, its sheet, and how many elements, boxes and lines it has.
type Counted = (&'static str, &'static str, usize, usize, usize);

static NUMBERS: [Counted; 7] = [
    ("<p/>", "", 1, 1, 0),
    // texts are no elements
    ("<ol><li>a</li><li>b</li></ol>", "", 3, 5, 2),
    // an element without a box is one
    (
        r#"<ol><li/><li class="x"/><li/></ol>"#,
        ".x{display:none}",
        4,
        5,
        2,
    ),
    (r#"<ol><li style="display:none"/><li/></ol>"#, "", 3, 3, 1),
    ("<ol><style>li{display:none}</style><li/></ol>", "", 3, 1, 0),
    // an empty text has a box, and a line
    ("<p>a<q/></p>", r#"p::after{content:""}"#, 2, 5, 3),
    (
        r##"<body><section id="s0"><h2>0</h2><ol><li/><li/><li/><li/></ol><p><a href="#s0"/></p></section></body>"##,
        r#"body{counter-reset:s}section{counter-increment:s;counter-reset:i}li{counter-increment:i list-item}h2::before{content:counter(s)". "}li::before{content:counters(i,".")}a::after{content:"("target-counter(attr(href),s)")"}"#,
        10,
        20,
        10,
    ),
];

/// Whether the document of an engine has these numbers. It is shown and counted, each of which takes a step for each
/// element at most. Code cannot read how many steps were taken, so the contract tells it.
fn has_numbers<L: Ledger>(
    alloc: Global,
    engine: &Engine,
    numbers: Census,
    steps: &mut Steps<L>,
) -> Result<bool, Fail>
    ensures steps { IfOk result (λ same. IsTrue same → steps.new ≤ steps.old + 2 * numbers.elements) }
{
    let mut out = MemorySink::new(alloc, 1000, List::new(alloc))?;
    engine.show(alloc, &mut out, steps)?;
    let found = engine.census(steps);
    Ok(found == numbers && found.elements < usize::MAX)
}

/// Whether a document has the numbers that its row says.
fn are_numbers<L: Ledger>(rt: &HostRuntime, blank: Blank, row: &Counted) -> Result<bool, Fail>
    requires name { blank.name ≡ L.name }
    requires parts { blank.parts ≡ L.parts }
    requires some { 0 < L.parts }
{
    let (document, sheet, elements, boxes, lines) = row;
    let alloc = rt.alloc();
    let mut steps = Steps::<L>::open(rt, blank);
    let Some(tree) = tree_of(alloc, document)? else {
        return Ok(false);
    };
    let engine = Engine::start(alloc, tree, sheet, &mut steps)?;
    let numbers = Census {
        elements: *elements,
        boxes: *boxes,
        lines: *lines,
    };
    has_numbers(alloc, &engine, numbers, &mut steps)
}

/// The same, with steps that nobody reads.
fn come_out(rt: &HostRuntime, row: &Counted) -> Result<bool, Fail> {
    are_numbers::<Brand>(rt, Blank::new(1), row)
}

#[test]
fn elements_boxes_and_lines(rt: HostRuntime) -> Result<(), Fail> {
    for (place, row) in NUMBERS.iter().enumerate() {
        assert!(rt; come_out(&rt, row)?, "row {place}");
    }
    Ok(())
}

#[test]
fn messages(rt: HostRuntime) -> Result<(), Fail> {
    for (fault, message) in [
        (EditFault::NoPlace, "the edit has no place in the document"),
        (EditFault::IntoItself, "a node can't be moved into itself"),
        (EditFault::Memory, "out of memory"),
    ] {
        let told = format!(in rt.alloc(); "{fault}")?;
        assert_eq!(rt; told.as_str(), message);
    }
    Ok(())
}
