//! What content gives that refers to other elements, as a table.

use crate::contents::{element, items};
use crate::listed::{Listed, Target};
use content_eval::eval_items::eval_items;
use content_eval::generated::Piece;
use content_eval::place::Place;
use content_eval::targets::reference;
use content_eval::texts::{flat_text, full_text};
use counter_sets::counter_set::CounterSet;
use counter_style_table::build::build;
use plain_types::list::List;
use plain_types::memory::Memory;
use plain_types::style::Quotes;
use plain_types::table::Table;
use plain_types::text::Text;
use std::alloc::Global;
use std::test::Fail;

/// A text, where there is one.
fn some_text(alloc: Global, text: Option<&str>) -> Result<Option<Text>, Memory> {
    match text {
        Some(text) => Ok(Some(Text::from_str(alloc, text)?)),
        None => Ok(None),
    }
}

/// A counter set with two counters `s`, of 3 and, further in, 12.
fn set(alloc: Global) -> Result<CounterSet, Memory> {
    let root = CounterSet::empty(alloc)?;
    let name = Text::from_str(alloc, "s")?;
    let outer = root
        .share(alloc)?
        .assign(alloc, &root, &name, 3, element(1))?;
    let inner = root
        .share(alloc)?
        .assign(alloc, &root, &name, 12, element(2))?;
    CounterSet::inherit(alloc, &outer, Some(&inner), None)
}

/// The elements of the table: `x` with a box and a before box, `n` without a box, one whose id is empty, and a
/// second `x`.
fn elements(alloc: Global) -> Result<Listed, Memory> {
    let mut targets = List::new(alloc);
    for (id, boxed, characters, before) in [
        ("x", true, "one", Some("B")),
        ("n", false, "t", None),
        ("", true, "none", None),
        ("x", true, "two", None),
    ] {
        targets.push(Target {
            id: Text::from_str(alloc, id)?,
            set: if boxed { Some(set(alloc)?) } else { None },
            characters: Text::from_str(alloc, characters)?,
            before: some_text(alloc, before)?,
            after: None,
        })?;
    }
    Ok(Listed { targets })
}

/// Values of `content`; the flat text, and the full text.
static TEXTS: [(&str, &str, &str); 18] = [
    // the innermost counter, and all from the outermost in
    (r##"target-counter("#x", s)"##, "12", "12"),
    (r##"target-counter("#x", s, lower-roman)"##, "xii", "xii"),
    (r##"target-counters("#x", s, ".")"##, "3.12", "3.12"),
    (r##"target-counters("#x", s, ".", none)"##, ".", "."),
    // a missing counter is a single 0
    (r##"target-counter("#x", c)"##, "0", "0"),
    (
        r##"target-counters("#x", c, ".", decimal-leading-zero)"##,
        "00",
        "00",
    ),
    (r##"target-counter("#x", c, none)"##, "", ""),
    // the first of an id
    (r##"target-text("#x")"##, "one", "one"),
    (r##"target-text("#x", content)"##, "one", "one"),
    // boxes in the full text alone
    (r##""a" target-text("#x", before) "b""##, "ab", "aBb"),
    (r##"target-text("#x", after)"##, "", ""),
    // `#` alone
    (r##"target-text("#")"##, "none", "none"),
    // ids as written; urls of a document
    (r##"target-text("#X") target-text("x")"##, "", ""),
    (r#"target-counter("p.html#x", s)"#, "", ""),
    (r#"target-counters("", s, ".")"#, "", ""),
    // without a box
    (r##"target-counter("#n", s) target-text("#n")"##, "t", "t"),
    (r##"target-counters("#n", s, ".")"##, "", ""),
    (r##"target-text("#n", before)"##, "", ""),
];

/// The pieces of a value of `content`.
fn pieces(alloc: Global, value: &str) -> Result<List<Piece>, Memory> {
    let table = build(alloc, &List::new(alloc))?;
    let place = Place {
        creator: element(9),
        parent: CounterSet::empty(alloc)?,
        set: CounterSet::empty(alloc)?,
        depth: 0,
    };
    let items = items(alloc, value)?;
    let made = eval_items(alloc, &table, &items, &[], &Quotes::Auto, &place)?;
    Ok(made.pieces)
}

/// Whether the value of a row has its texts.
fn comes_out(
    alloc: Global,
    table: &Table,
    listed: &Listed,
    row: &(&str, &str, &str),
) -> Result<bool, Memory> {
    let pieces = pieces(alloc, row.0)?;
    let flat = flat_text(alloc, table, &pieces, listed)?;
    let full = full_text(alloc, table, &pieces, listed)?;
    Ok(flat.as_str() == row.1 && full.as_str() == row.2)
}

#[test]
fn references_give_texts(rt: HostRuntime) -> Result<(), Fail> {
    let alloc = rt.alloc();
    let table = build(alloc, &List::new(alloc))?;
    let listed = elements(alloc)?;
    for (place, row) in TEXTS.iter().enumerate() {
        assert!(rt; comes_out(alloc, &table, &listed, row)?, "row {place}");
    }
    Ok(())
}

/// Two boxes that ask for each other's text.
#[test]
fn no_reference_is_circular(rt: HostRuntime) -> Result<(), Fail> {
    let alloc = rt.alloc();
    let table = build(alloc, &List::new(alloc))?;
    let first = pieces(alloc, r##""P" target-text("#b", before)"##)?;
    let second = pieces(alloc, r##""B" target-text("#a", before)"##)?;
    let mut targets = List::new(alloc);
    for (id, pieces) in [("a", &first), ("b", &second)] {
        targets.push(Target {
            id: Text::from_str(alloc, id)?,
            set: None,
            characters: Text::new(alloc),
            before: Some(flat_text(alloc, &table, pieces, &elements(alloc)?)?),
            after: None,
        })?;
    }
    let both = Listed { targets };
    assert_eq!(rt; full_text(alloc, &table, &first, &both)?.as_str(), "PB");
    assert_eq!(rt; full_text(alloc, &table, &second, &both)?.as_str(), "BP");
    Ok(())
}

#[test]
fn pieces_refer_to_ids(rt: HostRuntime) -> Result<(), Fail> {
    let alloc = rt.alloc();
    let pieces = pieces(
        alloc,
        r##""#x" target-text("#x") target-counter("#", s) target-counters("x", s, "#y")"##,
    )?;
    let wanted = [None, Some("x"), Some(""), None];
    assert_eq!(rt; pieces.len(), wanted.len());
    for (piece, want) in pieces.as_slice().iter().zip(wanted) {
        assert!(rt; reference(piece) == want);
    }
    Ok(())
}
