//! The changed lines of an element.

ghost use Rattle.std.specs.Prelude.{◌≡◌, ◌↔◌, ◌++◌, IsTrue, IfOk, OnOk, OnErr, option_copied, take, length};
ghost use Rattle.forest.specs.Paths.{path_of};
ghost use Rattle.forest.specs.Spots.{IsLive};
ghost use Rattle.changed_lines.specs.Changes.{changed_line, element_lines, shows_other, shows_other_text};
ghost use Rattle.changed_lines.specs.ShownTexts.{shown_text};

use crate::changed_line::ChangedLine;
use generated_texts::entry::NodeEntry;
use node_arena::arena::Arena;
use plain_types::box_kind::BoxKind;
use plain_types::memory::Memory;
use plain_types::text::Text;
use std::alloc::Global;

/// The text that an element of which this is kept shows in a box.
fn shown_text(kept: Option<&NodeEntry>, kind: BoxKind) -> Option<&Text>
    ensures text { option_copied result ≡ shown_text kind (option_copied kept.entry) }
{
    let entry = kept?;
    let text = match kind {
        BoxKind::Element => None,
        BoxKind::Marker => entry.marker.as_ref(),
        BoxKind::Before => entry.before.as_ref(),
        BoxKind::After => entry.after.as_ref(),
    };
    Some(&text?.full)
}

/// Whether both texts have the same characters, or neither is there.
fn is_same_text(first: Option<&Text>, second: Option<&Text>) -> bool
    ensures test { IsTrue result ↔ (option_copied first.entry ≡ option_copied second.entry) }
{
    match (first, second) {
        (Some(first), Some(second)) => first.as_str() == second.as_str(),
        (None, None) => true,
        _ => false,
    }
}

/// Whether a box of an element shows another text than before.
fn shows_other_text(before: Option<&NodeEntry>, after: Option<&NodeEntry>, kind: BoxKind) -> bool
    ensures test { result ≡ shows_other_text (option_copied before.entry) (option_copied after.entry) kind }
{
    !is_same_text(shown_text(before, kind), shown_text(after, kind))
}

/// Whether an element, of which this was kept before an edit and is kept after it, shows another text in one of its boxes:
/// just such elements have changed lines. It takes no memory, and time linear in the texts of its boxes.
pub fn shows_other(before: Option<&NodeEntry>, after: Option<&NodeEntry>) -> bool
    ensures test { result ≡ shows_other (option_copied before.entry) (option_copied after.entry) }
{
    shows_other_text(before, after, BoxKind::Marker)
        || shows_other_text(before, after, BoxKind::Before)
        || shows_other_text(before, after, BoxKind::After)
}

/// A text of the same characters, where there is one.
fn copied(alloc: Global, text: Option<&Text>) -> Result<Option<Text>, Memory>
    ensures copied { IfOk result (λ copy. copy ≡ option_copied text.entry) }
{
    match text {
        Some(text) => Ok(Some(Text::from_str(alloc, text.as_str())?)),
        None => Ok(None),
    }
}

/// Pushes the line of a box of a node, where it shows another text than before.
fn push_line(
    alloc: Global,
    arena: &Arena,
    key: usize,
    kind: BoxKind,
    before: Option<&NodeEntry>,
    after: Option<&NodeEntry>,
    lines: &mut Vec<ChangedLine>,
) -> Result<(), Memory>
    requires live { IsLive arena.now.tree key }
    ensures ok { OnOk result (lines.new.items ≡ lines.old.items ++ changed_line (path_of arena.now.tree key) (option_copied before.entry) (option_copied after.entry) kind) }
    ensures failed { OnErr result (lines.new.items ≡ lines.old.items) }
{
    let text = shown_text(after, kind);
    if is_same_text(shown_text(before, kind), text) {
        return Ok(());
    }
    let line = ChangedLine {
        path: arena.path_of(alloc, key)?,
        kind,
        text: copied(alloc, text)?,
    };
    lines.push(line)?;
    Ok(())
}

/// Pushes the changed lines of a node one after the other.
fn push_each(
    alloc: Global,
    arena: &Arena,
    key: usize,
    before: Option<&NodeEntry>,
    after: Option<&NodeEntry>,
    lines: &mut Vec<ChangedLine>,
) -> Result<(), Memory>
    requires live { IsLive arena.now.tree key }
    ensures ok { OnOk result (lines.new.items ≡ lines.old.items ++ element_lines (path_of arena.now.tree key) (option_copied before.entry) (option_copied after.entry)) }
    ensures front { OnErr result (take (length lines.old.items) lines.new.items ≡ lines.old.items) }
{
    push_line(alloc, arena, key, BoxKind::Marker, before, after, lines)?;
    push_line(alloc, arena, key, BoxKind::Before, before, after, lines)?;
    push_line(alloc, arena, key, BoxKind::After, before, after, lines)
}

/// Pushes the changed lines of a node of the document after an edit, of which this was kept before it and is kept after it:
/// those of its marker, its before box and its after box. Nothing is kept of a text, nor of a node before it came. The path
/// of a line is that of the node in this document.
///
/// It takes time linear in the texts of its boxes, and for each line time in the depth of the node and memory for its path
/// and its text; `Memory` where that is wanting, and then no line is pushed.
pub fn push_lines(
    alloc: Global,
    arena: &Arena,
    key: usize,
    before: Option<&NodeEntry>,
    after: Option<&NodeEntry>,
    lines: &mut Vec<ChangedLine>,
) -> Result<(), Memory>
    requires live { IsLive arena.now.tree key }
    ensures ok { OnOk result (lines.new.items ≡ lines.old.items ++ element_lines (path_of arena.now.tree key) (option_copied before.entry) (option_copied after.entry)) }
    ensures failed { OnErr result (lines.new.items ≡ lines.old.items) }
{
    let count = lines.len();
    let pushed = push_each(alloc, arena, key, before, after, lines);
    if pushed.is_err() {
        lines.truncate(count);
    }
    pushed
}
