//! A text as it stands in a file, split where what is read of it is split.

ghost use Rattle.std.specs.Prelude.{◌≡◌, ℕ, ◌++◌, List};
ghost use Rattle.std.specs.Str.{chars, IsUtf8};
ghost use Rattle.baked_text.specs.Machinery.{SplitsAs, past_first};

use reading::characters::first_char;
use xhtml_items::text::past_word;

/// The text after its first character, or after a line end of two characters.
fn past_first(text: &str) -> &str
    ensures past { chars result.now ≡ past_first (chars text.now) }
    ensures text { IsUtf8 result.now }
{
    if let Some(rest) = past_word("\r\n", text) {
        return rest;
    }
    match first_char(text) {
        Some((_, rest)) => rest,
        None => text,
    }
}

/// What stands in the file for `read`, and what follows it, character by character.
fn split_by_characters<'a>(kept: &'a str, read: &str) -> (&'a str, &'a str)
    ensures splits { SplitsAs (chars kept.now) (chars read.now) (chars result.0.now) (chars result.1.now) }
    ensures front { IsUtf8 result.0.now }
    ensures text { IsUtf8 result.1.now }
{
    let mut rest = kept;
    let mut unread = read;
    while let Some((_, after)) = first_char(unread) {
        rest = past_first(rest);
        unread = after;
    }
    kept.split_at(kept.len() - rest.len())
}

/// What stands in the file for `read`, and what follows it: `read` itself, or a text with other line ends. It takes time
/// linear in `read`.
pub(crate) fn split_kept<'a>(kept: &'a str, read: &str) -> (&'a str, &'a str)
    ensures splits { SplitsAs (chars kept.now) (chars read.now) (chars result.0.now) (chars result.1.now) }
    ensures front { IsUtf8 result.0.now }
    ensures text { IsUtf8 result.1.now }
{
    if kept.as_bytes().starts_with(read.as_bytes()) {
        kept.split_at(read.len())
    } else {
        split_by_characters(kept, read)
    }
}

/// The text before `rest`, with which it ends.
pub(crate) fn front_before<'a>(text: &'a str, rest: &str) -> &'a str
    requires { (front : List ℕ) × (chars text.now ≡ front ++ chars rest.now) }
    ensures parts { chars result.now ++ chars rest.now ≡ chars text.now }
    ensures text { IsUtf8 result.now }
{
    text.split_at(text.len() - rest.len()).0
}
