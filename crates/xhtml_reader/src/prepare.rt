//! Texts as their items are read from them.

ghost use Rattle.std.specs.Prelude.{◌≡◌, ◌≢◌, IfOk, true, false};
ghost use Rattle.std.specs.Str.{chars, IsUtf8};
ghost use Rattle.xml_definitions.specs.Normalized.{with_line_feeds};
ghost use Rattle.reading.specs.Reading.{without_mark};
ghost use Rattle.xhtml_reader.specs.Machinery.LineEnds.{begins_with_line_feed, line_end_left};
ghost use Rattle.std.specs.Option.{option_to_list};

use plain_types::memory::Memory;
use plain_types::text::Text;
use reading::characters::first_char;
use std::alloc::Global;

/// The text without a byte order mark at its front, which is no part of it. It takes no memory.
pub fn without_mark(text: &str) -> &str
    ensures characters { chars result.now ≡ without_mark (chars text.now) }
    ensures text { IsUtf8 result.now }
{
    match first_char(text) {
        Some(('\u{feff}', rest)) => rest,
        _ => text,
    }
}

fn begins_with_line_feed(text: &str) -> bool
    ensures { result ≡ begins_with_line_feed (chars text.now) }
{
    match first_char(text) {
        Some((c, _)) => c == '\n',
        None => false,
    }
}

/// What a character before this text comes to.
fn line_end_left(c: char, after: &str) -> Option<char>
    ensures { option_to_list result ≡ line_end_left c (chars after.now) }
{
    if c != '\r' {
        Some(c)
    } else if begins_with_line_feed(after) {
        None
    } else {
        Some('\n')
    }
}

/// The text with line feeds for its line ends (XML 1.0, 2.11), in linear time.
pub fn with_line_feeds(alloc: Global, text: &str) -> Result<Text, Memory>
    ensures { IfOk result (λ normalized. normalized ≡ with_line_feeds (chars text.now)) }
{
    let mut normalized = Text::new(alloc);
    let mut rest = text;
    while let Some((c, after)) = first_char(rest) {
        if let Some(left) = line_end_left(c, after) {
            normalized.push(left)?;
        }
        rest = after;
    }
    Ok(normalized)
}

/// Whether line ends are line feeds already, in linear time.
pub fn has_line_feeds_alone(text: &str) -> bool
    ensures stays { result ≡ true → with_line_feeds (chars text.now) ≡ chars text.now }
    ensures changes { result ≡ false → with_line_feeds (chars text.now) ≢ chars text.now }
{
    !text.contains('\r')
}
