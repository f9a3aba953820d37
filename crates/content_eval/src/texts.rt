//! The texts of a box (CSS Generated Content 3, 2.6).

ghost use Rattle.std.specs.Prelude.{◌≡◌, ◌≢◌, ◌++◌, IfOk, OnOk};
ghost use Rattle.std.specs.Str.{chars};
ghost use Rattle.content_eval.specs.Layers.{box_text, layer_text};
ghost use Rattle.content_eval.specs.Targets.{flat_text, full_text, piece_text, target_counter, target_counters, target_text};

use crate::counters::joined_text;
use crate::generated::Piece;
use crate::targets::Targets;
use counter_sets::counter_set::CounterSet;
use plain_types::content::Part;
use plain_types::list::List;
use plain_types::memory::Memory;
use plain_types::style_ref::StyleRef;
use plain_types::table::Table;
use plain_types::text::Text;
use representation::represent::represent;
use std::alloc::Global;

/// What the boxes of targets write: nothing, so that a text depends on no other, or their flat texts.
#[derive(Clone, Copy, Debug, PartialEq, Eq)]
enum Layer {
    Flat,
    Full,
}

/// The text of the pieces in which `target-text()` of a `::before` or `::after` box writes nothing.
///
/// It takes time linear in the pieces and the text; beside that, a target function asks the targets once, and a
/// counter costs time linear in the target's set and in the table.
pub fn flat_text<T: Targets>(
    alloc: Global,
    table: &Table,
    pieces: &List<Piece>,
    targets: &T,
) -> Result<Text, Memory>
    ensures text { IfOk result (λ text. text ≡ flat_text table.now (T.known targets.now) pieces.now) }
{
    layer_text(alloc, table, pieces, targets, Layer::Flat)
}

/// The text of the pieces in which `target-text()` of a `::before` or `::after` box writes that box's flat text,
/// and nothing where there is no such box. It costs what `flat_text` costs.
pub fn full_text<T: Targets>(
    alloc: Global,
    table: &Table,
    pieces: &List<Piece>,
    targets: &T,
) -> Result<Text, Memory>
    ensures text { IfOk result (λ text. text ≡ full_text table.now (T.known targets.now) pieces.now) }
{
    layer_text(alloc, table, pieces, targets, Layer::Full)
}

/// The text of the pieces in a layer.
fn layer_text<T: Targets>(
    alloc: Global,
    table: &Table,
    pieces: &List<Piece>,
    targets: &T,
    layer: Layer,
) -> Result<Text, Memory>
    ensures text { IfOk result (λ text. text ≡ layer_text layer table.now (T.known targets.now) pieces.now) }
{
    let mut text = Text::new(alloc);
    for piece in pieces.as_slice() {
        push_piece(alloc, table, piece, targets, layer, &mut text)?;
    }
    Ok(text)
}

/// Appends the text of a piece in a layer.
fn push_piece<T: Targets>(
    alloc: Global,
    table: &Table,
    piece: &Piece,
    targets: &T,
    layer: Layer,
    out: &mut Text,
) -> Result<(), Memory>
    ensures ok { OnOk result (out.new ≡ out.old ++ piece_text table.now (T.known targets.now) (box_text layer (T.known targets.now)) piece.now) }
{
    match piece {
        Piece::Chars(text) => out.push_str(text.as_str()),
        Piece::TargetCounter { url, name, style } => match targets.counters(url.as_str()) {
            Some(set) => push_counter(alloc, table, set, name.as_str(), style, out),
            None => Ok(()),
        },
        Piece::TargetCounters {
            url,
            name,
            between,
            style,
        } => match targets.counters(url.as_str()) {
            Some(set) => {
                let (name, between) = (name.as_str(), between.as_str());
                push_counters(alloc, table, set, name, between, style, out)
            }
            None => Ok(()),
        },
        Piece::TargetText { url, part } => push_text(
            alloc,
            url.as_str(),
            *part,
            targets,
            layer,
            out,
        ),
    }
}

/// Appends what `target-counter()` writes where the target has these counters.
fn push_counter(
    alloc: Global,
    table: &Table,
    set: &CounterSet,
    name: &str,
    style: &StyleRef,
    out: &mut Text,
) -> Result<(), Memory>
    ensures ok { OnOk result (out.new ≡ out.old ++ target_counter table.now (chars name.now) style.now set.now) }
{
    match set.innermost(name) {
        Some(counter) => represent(alloc, table, style, counter.value, out),
        None => represent(alloc, table, style, 0, out),
    }
}

/// Appends what `target-counters()` writes where the target has these counters.
fn push_counters(
    alloc: Global,
    table: &Table,
    set: &CounterSet,
    name: &str,
    between: &str,
    style: &StyleRef,
    out: &mut Text,
) -> Result<(), Memory>
    ensures ok { OnOk result (out.new ≡ out.old ++ target_counters table.now (chars name.now) (chars between.now) style.now set.now) }
{
    if set.innermost(name).is_none() {
        return represent(alloc, table, style, 0, out);
    }
    let text = joined_text(alloc, table, set, name, between, style)?;
    out.push_str(text.as_str())
}

/// Appends what `target-text()` writes in a layer.
fn push_text<T: Targets>(
    alloc: Global,
    url: &str,
    part: Part,
    targets: &T,
    layer: Layer,
    out: &mut Text,
) -> Result<(), Memory>
    ensures ok { OnOk result (out.new ≡ out.old ++ target_text (T.known targets.now) (box_text layer (T.known targets.now)) (chars url.now) part) }
{
    match (part, layer) {
        (Part::Content, _) => out.push_str(targets.characters(alloc, url)?.as_str()),
        (Part::Before | Part::After, Layer::Flat) => Ok(()),
        (Part::Before | Part::After, Layer::Full) => match targets.flat(url, part) {
            Some(text) => out.push_str(text.as_str()),
            None => Ok(()),
        },
    }
}
