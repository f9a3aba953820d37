//! The text of a sheet before it is cut into tokens.

ghost use Rattle.std.specs.Prelude.{◌≡◌, ◌++◌, IfOk, OnOk};
ghost use Rattle.std.specs.Str.{chars, IsUtf8};
ghost use Rattle.css_definitions.specs.SheetText.{filtered_character, left_before, prepared, IsPrepared};
ghost use Rattle.reading.specs.Reading.{without_mark};

use crate::characters::begins;
use plain_types::memory::Memory;
use plain_types::text::Text;
use reading::characters::first_char;
use std::alloc::Global;

fn without_mark(text: &str) -> &str
    ensures gives { without_mark (chars text.now) ≡ chars result.now }
    ensures text { IsUtf8 result.now }
{
    match first_char(text) {
        Some((first, rest)) if first == '\u{feff}' => rest,
        _ => text,
    }
}

fn filtered_character(c: char) -> char
    ensures { result ≡ filtered_character c }
{
    match c {
        '\r' | '\u{c}' => '\n',
        '\0' => '\u{fffd}',
        _ => c,
    }
}

/// Appends what the character leaves where the text `rest` follows it.
fn push_filtered(out: &mut Text, c: char, rest: &str) -> Result<(), Memory>
    ensures ok { OnOk result (out.new ≡ out.old ++ left_before (chars rest.now) c) }
{
    if c == '\r' && begins('\n', rest) {
        return Ok(());
    }
    out.push(filtered_character(c))
}

/// The text of a sheet, prepared for [`tokens`](crate::lexer::tokens) (CSS Syntax 3, 3.2 and 3.3): a
/// byte order mark at its front goes, CR LF, CR and FF become LF, and U+0000 becomes U+FFFD. Time and
/// memory are linear in its length.
pub fn prepare_text(alloc: Global, text: &str) -> Result<Text, Memory>
    ensures characters { IfOk result (λ out. out ≡ prepared (chars text.now)) }
    ensures prepared { IfOk result (λ out. IsPrepared out) }
{
    let mut out = Text::new(alloc);
    let mut rest = without_mark(text);
    'characters: while let Some((c, after)) = first_char(rest) {
        push_filtered(&mut out, c, after)?;
        rest = after;
    }
    Ok(out)
}
