//! What content gives, as a table: values of `content`, and their pieces.

use content_eval::eval_items::eval_items;
use content_eval::generated::{Generated, Piece};
use content_eval::place::Place;
use counter_sets::counter_set::CounterSet;
use counter_style_table::build::build;
use css_tokens::lexer::tokens;
use css_tokens::sheet_text::prepare_text;
use css_values::declarations::read_declaration;
use plain_types::attr::Attr;
use plain_types::box_id::BoxId;
use plain_types::box_kind::BoxKind;
use plain_types::content::{Content, Item};
use plain_types::declaration::{Declaration, Said};
use plain_types::duplicate::Duplicate;
use plain_types::list::List;
use plain_types::memory::Memory;
use plain_types::style::Quotes;
use plain_types::style_ref::StyleRef;
use plain_types::text::Text;
use representation::represent::represent_marker;
use std::alloc::Global;
use std::test::Fail;

/// Values of `content` at the depth 0, where counters `s` with 3 and, further in, 12 stand, and the element has
/// id="b" and href="#x"; the characters of their pieces, each before a bar, and `to URL` for a target; and the
/// depth behind them.
static CONTENTS: [(&str, &str, u64); 15] = [
    (r#""a" """#, "a||", 0),
    ("attr(id) attr(no)", "b||", 0),
    // quotes; a closing at depth 0 writes nothing, and the rest is still written
    (r#"close-quote "!""#, "|!|", 0),
    ("open-quote open-quote close-quote", "“|‘|’|", 1),
    ("no-open-quote open-quote no-close-quote", "|‘||", 1),
    // the innermost counter, and all from the outermost in
    ("counter(s)", "12|", 0),
    ("counter(s, lower-roman)", "xii|", 0),
    (r#"counters(s, ".")"#, "3.12|", 0),
    (r#"counters(s, ".", Upper-Alpha)"#, "C.L|", 0),
    // a style that writes nothing leaves the strings between
    ("counter(s, none)", "|", 0),
    (r#"counters(s, ".", none)"#, ".|", 0),
    // a name without a counter
    (r#"counter(c) counters(c, ".")"#, "0|0|", 0),
    // targets have their urls looked up
    (r##"target-text("#y", before)"##, "to #y|", 0),
    (
        r#"target-counter(attr(href), s) target-counters(attr(no), s, ".")"#,
        "to #x|to |",
        0,
    ),
    ("open-quote target-text(attr(href))", "“|to #x|", 1),
];

/// The items of a value of `content`; none where it has no reading.
pub(crate) fn items(alloc: Global, value: &str) -> Result<List<Item>, Memory> {
    let text = prepare_text(alloc, value)?;
    let tokens = tokens(alloc, text.as_str())?;
    match read_declaration(alloc, "content", tokens.as_slice())? {
        Some(Declaration::Content(Said::Value(Content::Items(items)))) => Ok(items),
        _ => Ok(List::new(alloc)),
    }
}

/// The place of the table: the before box of an element, in the scope of two counters of one name.
fn place(alloc: Global) -> Result<Place, Memory> {
    let root = CounterSet::empty(alloc)?;
    let name = Text::from_str(alloc, "s")?;
    let outer = root
        .share(alloc)?
        .assign(alloc, &root, &name, 3, element(1))?;
    let inner = root
        .share(alloc)?
        .assign(alloc, &root, &name, 12, element(2))?;
    Ok(Place {
        creator: BoxId {
            key: 3,
            kind: BoxKind::Before,
        },
        set: CounterSet::inherit(alloc, &outer, Some(&inner), None)?,
        parent: outer,
        depth: 0,
    })
}

pub(crate) fn element(key: usize) -> BoxId {
    BoxId {
        key,
        kind: BoxKind::Element,
    }
}

fn attr(alloc: Global, name: &str, value: &str) -> Result<Attr, Memory> {
    Ok(Attr {
        name: Text::from_str(alloc, name)?,
        value: Text::from_str(alloc, value)?,
    })
}

/// The pieces, each before a bar.
fn shown(alloc: Global, made: &Generated) -> Result<Text, Memory> {
    let mut text = Text::new(alloc);
    for piece in made.pieces.as_slice() {
        match piece {
            Piece::Chars(characters) => text.push_str(characters.as_str())?,
            Piece::TargetCounter { url, .. }
            | Piece::TargetCounters { url, .. }
            | Piece::TargetText { url, .. } => {
                text.push_str("to ")?;
                text.push_str(url.as_str())?;
            }
        }
        text.push_str("|")?;
    }
    Ok(text)
}

/// What the value gives at the place of the table.
fn generated(alloc: Global, value: &str) -> Result<Generated, Memory> {
    let table = build(alloc, &List::new(alloc))?;
    let mut attrs = List::new(alloc);
    attrs.push(attr(alloc, "id", "b")?)?;
    attrs.push(attr(alloc, "href", "#x")?)?;
    let items = items(alloc, value)?;
    eval_items(
        alloc,
        &table,
        &items,
        attrs.as_slice(),
        &Quotes::Auto,
        &place(alloc)?,
    )
}

#[test]
fn contents_give_pieces(rt: HostRuntime) -> Result<(), Fail> {
    let alloc = rt.alloc();
    for (value, want, depth) in CONTENTS {
        let made = generated(alloc, value)?;
        assert_eq!(rt; shown(alloc, &made)?.as_str(), want, "{value}");
        assert_eq!(rt; made.depth, depth, "{value}");
    }
    Ok(())
}

#[test]
fn a_name_without_a_counter_gets_one(rt: HostRuntime) -> Result<(), Fail> {
    let alloc = rt.alloc();
    let made = generated(alloc, "counter(c, none) counter(c)")?;
    assert_eq!(rt; made.set.as_slice().len(), 3);
    let counter = made.set.innermost("c").ok_or("the counter that was made")?;
    assert!(rt; counter.value == 0 && !counter.reversed);
    assert!(rt; counter.creator.key == 3 && counter.creator.kind == BoxKind::Before);
    let copy = made.pieces.duplicate(alloc)?;
    assert_eq!(rt; copy.len(), 2);
    Ok(())
}

/// A list marker has the prefix and the suffix of its style.
#[test]
fn a_marker_has_its_affixes(rt: HostRuntime) -> Result<(), Fail> {
    let alloc = rt.alloc();
    let table = build(alloc, &List::new(alloc))?;
    let style = StyleRef::Name(Text::from_str(alloc, "decimal")?);
    let mut out = Text::new(alloc);
    represent_marker(alloc, &table, &style, 1, &mut out)?;
    assert_eq!(rt; out.as_str(), "1. ");
    Ok(())
}
