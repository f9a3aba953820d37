//! Long runs of characters, passed over by their bytes.
//!
//! Most characters of a document stand for themselves, and their bytes alone tell it. A run of them is passed
//! over up to the next stop: a byte that begins a character which may not belong to the run. Among these is
//! 0xef, which begins U+FFFE and U+FFFF, and some characters that do belong.

ghost use Rattle.std.specs.Prelude.{◌≡◌, ◌++◌, false, IsTrue};
ghost use Rattle.std.specs.List.{list_all};
ghost use Rattle.std.specs.Str.{chars, IsUtf8};
ghost use Rattle.reading.specs.Reading.{span};
ghost use Rattle.xml_definitions.specs.Characters.{is_character, is_plain};
ghost use Rattle.xhtml_items.specs.Classes.{is_of_class};
ghost use Rattle.xhtml_items.specs.Machinery.StopBytes.{has_stop, is_straight, Tells, AreFirst};
ghost use Rattle.xhtml_items.specs.Tokens.{two_texts};

use crate::characters::{Class, is_plain};
use lane_class::{ByteClass, first_in};
use reading::characters::first_char;

/// Stops in content: control characters, `&`, `<` and 0xef.
fn plain_stops() -> ByteClass
    ensures tells { Tells result is_plain }
    ensures first { AreFirst result }
{
    ByteClass::of(&[(0, 8), (11, 31), (b'&', b'&'), (b'<', b'<'), (0xef, 0xef)]).unwrap()
}

/// Stops where any character may stand: control characters and 0xef.
fn character_stops() -> ByteClass
    ensures tells { Tells result is_character }
    ensures first { AreFirst result }
{
    ByteClass::of(&[(0, 8), (11, 31), (0xef, 0xef)]).unwrap()
}

/// Stops in a value: control characters, among them tabs and line feeds, quotes, `&`, `<` and 0xef.
pub(crate) fn value_stops() -> ByteClass
    ensures tells { Tells result is_straight }
    ensures first { AreFirst result }
{
    ByteClass::of(&[
        (0, 31),
        (b'"', b'"'),
        (b'&', b'\''),
        (b'<', b'<'),
        (0xef, 0xef),
    ])
    .unwrap()
}

/// The text before the first stop, and the text from it on.
pub(crate) fn split_at_stop<'a>(stops: &ByteClass, text: &'a str) -> (&'a str, &'a str)
    requires first { AreFirst stops.now }
    ensures bytes { text.now ≡ result.0.now ++ result.1.now }
    ensures passed { has_stop stops.now result.0.now ≡ false }
    ensures front { IsUtf8 result.0.now }
    ensures text { IsUtf8 result.1.now }
{
    let place = first_in(text.as_bytes(), stops).unwrap_or(text.len());
    text.split_at(place)
}

/// The longest front of characters of the class, and the text after it, where the stops tell the class.
fn split_run<'a>(stops: &ByteClass, class: Class, text: &'a str) -> (&'a str, &'a str)
    requires tells { Tells stops.now (is_of_class class) }
    requires first { AreFirst stops.now }
    ensures reads { span (is_of_class class) (chars text.now) ≡ two_texts result }
    ensures front { IsUtf8 result.0.now }
    ensures text { IsUtf8 result.1.now }
{
    let mut rest = split_at_stop(stops, text).1;
    while let Some((c, after)) = first_char(rest) {
        if !class.contains(c) {
            break;
        }
        rest = split_at_stop(stops, after).1;
    }
    text.split_at(text.len() - rest.len())
}

/// The longest front of plain characters, and the text after it, in time linear in that front.
pub fn split_plain(text: &str) -> (&str, &str)
    ensures reads { span is_plain (chars text.now) ≡ two_texts result }
    ensures front { IsUtf8 result.0.now }
    ensures text { IsUtf8 result.1.now }
{
    match first_char(text) {
        Some((c, _)) if is_plain(c) => split_run(&plain_stops(), Class::Plain, text),
        _ => text.split_at(0),
    }
}

/// Whether all characters of the text are characters of a document.
pub(crate) fn are_characters(text: &str) -> bool
    ensures { result ≡ list_all is_character (chars text.now) }
{
    split_run(&character_stops(), Class::Character, text)
        .1
        .is_empty()
}
