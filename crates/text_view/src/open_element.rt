//! Elements that the walk is in, and what stands around what their children give.

ghost use Rattle.std.specs.Prelude.{◌≡◌, OnOk, OnErr};
ghost use Rattle.ports.specs.Causes.{HasCause};
ghost use Rattle.ports.specs.Grown.{grown, GrowsByFront};
ghost use Rattle.text_view.specs.Machinery.Writing.{behind_pieces, bytes_shown};
ghost use Rattle.text_view.specs.Views.{box_pieces, break_where, first_pieces, last_pieces};

use crate::line_writer::LineWriter;
use generated_texts::entry::{BoxText, NodeEntry};
use ports::failed::Failed;
use ports::sink::Sink;

/// An element that the walk is in: what is kept of it, and whether it begins a line and ends it.
#[derive(Drop)]
pub(crate) struct OpenElement<'a> {
    pub(crate) key: usize,
    pub(crate) entry: &'a NodeEntry,
    pub(crate) breaks: bool,
}

fn put_break<O: Sink>(breaks: bool, writer: &mut LineWriter, out: &mut O) -> Result<(), Failed>
    ensures ok { OnOk result (O.out out.new ≡ grown (O.out out.old) (bytes_shown writer.old (break_where breaks))) }
    ensures state { OnOk result (writer.new ≡ behind_pieces writer.old (break_where breaks)) }
    ensures failed { OnErr result (GrowsByFront (O.out out.old) (O.out out.new) (bytes_shown writer.old (break_where breaks))) }
    ensures cause { HasCause (O.faults out.old) (O.faults out.new) result }
{
    if breaks {
        return writer.put_break(out);
    }
    Ok(())
}

/// Puts the text of a box, where there is one.
fn put_box<O: Sink>(
    text: &Option<BoxText>,
    writer: &mut LineWriter,
    out: &mut O,
) -> Result<(), Failed>
    ensures ok { OnOk result (O.out out.new ≡ grown (O.out out.old) (bytes_shown writer.old (box_pieces text.now))) }
    ensures state { OnOk result (writer.new ≡ behind_pieces writer.old (box_pieces text.now)) }
    ensures failed { OnErr result (GrowsByFront (O.out out.old) (O.out out.new) (bytes_shown writer.old (box_pieces text.now))) }
    ensures cause { HasCause (O.faults out.old) (O.faults out.new) result }
{
    match text {
        Some(text) => writer.put_text(text.full.as_str(), out),
        None => Ok(()),
    }
}

/// Puts what stands before what the children of an element give.
pub(crate) fn put_first<O: Sink>(
    breaks: bool,
    entry: &NodeEntry,
    writer: &mut LineWriter,
    out: &mut O,
) -> Result<(), Failed>
    ensures ok { OnOk result (O.out out.new ≡ grown (O.out out.old) (bytes_shown writer.old (first_pieces breaks entry.now))) }
    ensures state { OnOk result (writer.new ≡ behind_pieces writer.old (first_pieces breaks entry.now)) }
    ensures failed { OnErr result (GrowsByFront (O.out out.old) (O.out out.new) (bytes_shown writer.old (first_pieces breaks entry.now))) }
    ensures cause { HasCause (O.faults out.old) (O.faults out.new) result }
{
    put_break(breaks, writer, out)?;
    put_box(&entry.marker, writer, out)?;
    put_box(&entry.before, writer, out)
}

/// Puts what stands behind what the children of an element give.
pub(crate) fn put_last<O: Sink>(
    breaks: bool,
    entry: &NodeEntry,
    writer: &mut LineWriter,
    out: &mut O,
) -> Result<(), Failed>
    ensures ok { OnOk result (O.out out.new ≡ grown (O.out out.old) (bytes_shown writer.old (last_pieces breaks entry.now))) }
    ensures state { OnOk result (writer.new ≡ behind_pieces writer.old (last_pieces breaks entry.now)) }
    ensures failed { OnErr result (GrowsByFront (O.out out.old) (O.out out.new) (bytes_shown writer.old (last_pieces breaks entry.now))) }
    ensures cause { HasCause (O.faults out.old) (O.faults out.new) result }
{
    put_box(&entry.after, writer, out)?;
    put_break(breaks, writer, out)
}
