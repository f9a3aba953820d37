//! A line of a dump.

ghost use Rattle.std.specs.Prelude.{◌≡◌, ◌≢◌, ◌∷◌, ◌++◌, [], OnOk, OnErr, encode_utf8_all};
ghost use Rattle.std.specs.Fmt.{decimal};
ghost use Rattle.dump_definitions.specs.Dump.{kind_name, line_text, path_text};
ghost use Rattle.plain_types.specs.declared.box_kind.BoxKind.TheVariants as kinds;
ghost use Rattle.ports.specs.Causes.{HasCause};
ghost use Rattle.ports.specs.Grown.{grown, GrowsByFront};

use crate::put_quoted::put_quoted;
use itoa::Buffer;
use plain_types::box_kind::BoxKind;
use plain_types::text::Text;
use ports::failed::Failed;
use ports::sink::{Sink, put_all};

/// Puts a position of a path, after a slash.
fn put_position<O: Sink>(position: usize, out: &mut O) -> Result<(), Failed>
    ensures ok { OnOk result (O.out out.new ≡ grown (O.out out.old) (encode_utf8_all (47 ∷ decimal position))) }
    ensures failed { OnErr result (GrowsByFront (O.out out.old) (O.out out.new) (encode_utf8_all (47 ∷ decimal position))) }
    ensures cause { HasCause (O.faults out.old) (O.faults out.new) result }
{
    let mut buffer = Buffer::new();
    let digits = buffer.format(position);
    put_all(out, b"/")?;
    put_all(out, digits.as_bytes())
}

/// Puts the path of these positions, as `/` or `/0/12`. After `Failed` a front of its bytes went out. It takes no memory.
pub fn put_path<O: Sink>(path: &[usize], out: &mut O) -> Result<(), Failed>
    ensures ok { OnOk result (O.out out.new ≡ grown (O.out out.old) (encode_utf8_all (path_text path.now))) }
    ensures failed { OnErr result (GrowsByFront (O.out out.old) (O.out out.new) (encode_utf8_all (path_text path.now))) }
    ensures cause { HasCause (O.faults out.old) (O.faults out.new) result }
{
    if path.is_empty() {
        return put_all(out, b"/");
    }
    for position in path {
        put_position(*position, out)?;
    }
    Ok(())
}

/// Puts the kind's name between two spaces. After `Failed` a front of its bytes went out. It takes no memory.
pub fn put_kind<O: Sink>(kind: BoxKind, out: &mut O) -> Result<(), Failed>
    ensures ok { OnOk result (O.out out.new ≡ grown (O.out out.old) (32 ∷ (kind_name kind ++ 32 ∷ []))) }
    ensures failed { OnErr result (GrowsByFront (O.out out.old) (O.out out.new) (32 ∷ (kind_name kind ++ 32 ∷ []))) }
    ensures cause { HasCause (O.faults out.old) (O.faults out.new) result }
{
    match kind {
        BoxKind::Element => put_all(out, b" element "),
        BoxKind::Marker => put_all(out, b" marker "),
        BoxKind::Before => put_all(out, b" before "),
        BoxKind::After => put_all(out, b" after "),
    }
}

/// Puts the line of a box: the positions of its element's path, which of the element's boxes it is, and its text.
/// After `Failed` a front of its bytes went out. It takes no memory, and time linear in the path and the
/// text.
pub fn put_line<O: Sink>(
    path: &[usize],
    kind: BoxKind,
    text: &Text,
    out: &mut O,
) -> Result<(), Failed>
    // an element's own box has no line
    requires pseudo { kind ≢ kinds.Element }
    ensures ok { OnOk result (O.out out.new
        ≡ grown (O.out out.old) (encode_utf8_all (line_text (record { path = path.now; kind = kind; text = text.now })))) }
    ensures failed { OnErr result (GrowsByFront (O.out out.old) (O.out out.new)
        (encode_utf8_all (line_text (record { path = path.now; kind = kind; text = text.now })))) }
    ensures cause { HasCause (O.faults out.old) (O.faults out.new) result }
{
    put_path(path, out)?;
    put_kind(kind, out)?;
    put_quoted(text.as_str(), out)?;
    put_all(out, b"\n")
}
