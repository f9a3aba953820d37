//! An insertion, as an element of its own.

ghost use Rattle.std.specs.Prelude.{◌≡◌, ◌≢◌, ◌++◌, false, OnOk, OnErr, codes, encode_utf8_all};
ghost use Rattle.std.specs.List.{flat_map};
ghost use Rattle.std.specs.Str.{chars, IsUtf8};
ghost use Rattle.bake_definitions.specs.Insertions.{class_of, inserted_name, is_referred, prefix};
ghost use Rattle.bake_definitions.specs.Woven.{insertion_text};
ghost use Rattle.baked_text.specs.Machinery.{is_straight, shown};
ghost use Rattle.ports.specs.Causes.{HasCause};
ghost use Rattle.ports.specs.Grown.{grown, GrowsByFront};
ghost use Rattle.reading.specs.Reading.{span};
ghost use Rattle.xhtml_items.specs.Tokens.{two_texts};

use plain_types::box_kind::BoxKind;
use ports::failed::Failed;
use ports::sink::{Sink, put_all};
use reading::characters::first_char;
use xhtml_items::characters::is_legal;

/// Whether the character is written as it is.
fn is_straight(c: char) -> bool
    ensures { result ≡ is_straight c }
{
    is_legal(c) && !matches!(c, '&' | '<' | '>' | '\r')
}

/// The longest front of characters that are written as they are, and the text after it.
fn split_straight(text: &str) -> (&str, &str)
    ensures reads { span is_straight (chars text.now) ≡ two_texts result }
    ensures front { IsUtf8 result.0.now }
    ensures text { IsUtf8 result.1.now }
{
    let mut rest = text;
    while let Some((c, after)) = first_char(rest) {
        if !is_straight(c) {
            break;
        }
        rest = after;
    }
    text.split_at(text.len() - rest.len())
}

/// A character that is not written as it is, as it is written: by reference, or replaced.
fn written(c: char) -> &'static [u8]
    requires { is_straight c ≡ false }
    ensures { result.now ≡ encode_utf8_all (shown c) }
{
    if c == '&' {
        b"&amp;"
    } else if c == '<' {
        b"&lt;"
    } else if c == '>' {
        b"&gt;"
    } else if c == '\r' {
        b"&#13;"
    } else {
        b"\xef\xbf\xbd"
    }
}

/// Puts the characters of an insertion, run by run.
fn put_characters<O: Sink>(text: &str, out: &mut O) -> Result<(), Failed>
    ensures ok { OnOk result (O.out out.new ≡ grown (O.out out.old) (encode_utf8_all (flat_map shown (chars text.now)))) }
    ensures failed { OnErr result (GrowsByFront (O.out out.old) (O.out out.new) (encode_utf8_all (flat_map shown (chars text.now)))) }
    ensures cause { HasCause (O.faults out.old) (O.faults out.new) result }
{
    let mut rest = text;
    'runs: loop {
        let (run, after) = split_straight(rest);
        put_all(out, run.as_bytes())?;
        let Some((c, next)) = first_char(after) else {
            return Ok(());
        };
        put_all(out, written(c))?;
        rest = next;
    }
}

/// The prefix of a name with its colon; a name without a colon has none.
fn prefix(name: &str) -> &str
    ensures prefix { chars result.now ≡ prefix (chars name.now) }
    ensures text { IsUtf8 result.now }
{
    let mut rest = name;
    while let Some((c, after)) = first_char(rest) {
        if c == ':' {
            return name.split_at(name.len() - after.len()).0;
        }
        rest = after;
    }
    ""
}

/// Puts a tag: a text between two others.
pub(crate) fn put_between<O: Sink>(
    before: &[u8],
    text: &str,
    after: &[u8],
    out: &mut O,
) -> Result<(), Failed>
    ensures ok { OnOk result (O.out out.new ≡ grown (O.out out.old) (before.now ++ (text.now ++ after.now))) }
    ensures failed { OnErr result (GrowsByFront (O.out out.old) (O.out out.new) (before.now ++ (text.now ++ after.now))) }
    ensures cause { HasCause (O.faults out.old) (O.faults out.new) result }
{
    put_all(out, before)?;
    put_all(out, text.as_bytes())?;
    put_all(out, after)
}

/// What stands behind the prefix in the start tag of an insertion.
fn start_tag_end(kind: BoxKind) -> &'static [u8]
    ensures { result.now ≡ codes "span class=\"" ++ (class_of kind ++ codes "\">") }
{
    match kind {
        BoxKind::Element => b"span class=\"baked-element\">",
        BoxKind::Marker => b"span class=\"baked-marker\">",
        BoxKind::Before => b"span class=\"baked-before\">",
        BoxKind::After => b"span class=\"baked-after\">",
    }
}

/// Puts a text into an element of this name, as a `span` whose class tells of which of the element's boxes it is. After
/// `Failed` a front of its bytes went out. It takes no memory, and time linear in the name and the text.
pub fn put_insertion<O: Sink>(
    name: &str,
    kind: BoxKind,
    text: &str,
    out: &mut O,
) -> Result<(), Failed>
    ensures ok { OnOk result (O.out out.new
        ≡ grown (O.out out.old) (encode_utf8_all (insertion_text (chars name.now) (record { kind = kind; text = chars text.now })))) }
    ensures failed { OnErr result (GrowsByFront (O.out out.old) (O.out out.new)
        (encode_utf8_all (insertion_text (chars name.now) (record { kind = kind; text = chars text.now })))) }
    ensures cause { HasCause (O.faults out.old) (O.faults out.new) result }
{
    let front = prefix(name);
    put_between(b"<", front, start_tag_end(kind), out)?;
    put_characters(text, out)?;
    put_between(b"</", front, b"span>", out)
}
