//! What stands at the front of a text.

ghost use Rattle.std.specs.Prelude.{◌≡◌, ◌≢◌, [], IsTrue, IfSome};
ghost use Rattle.std.specs.Str.{chars, IsUtf8};
ghost use Rattle.reading.specs.Reading.{Reads, past_text, span};
ghost use Rattle.xhtml_items.specs.Classes.{is_of_class};
ghost use Rattle.reading.specs.Characters.{is_ascii};
ghost use Rattle.xhtml_items.specs.Reading.{name_at, split_once};
ghost use Rattle.xhtml_items.specs.Machinery.Items.{past_capital, past_capitals, skip_blanks, past_some_blanks, up_to};
ghost use Rattle.xhtml_items.specs.Tokens.{text_view, two_texts};

use crate::characters::{Class, is_name_start};
use crate::passing::are_characters;
use reading::characters::{first_char, is_blank};

/// The text after this word; None where the word does not stand at the front. It takes time linear in the word.
pub fn past_word<'a>(word: &str, text: &'a str) -> Option<&'a str>
    requires { IsTrue (is_ascii word.now) }
    ensures reads { Reads text_view result (past_text word.now (chars text.now)) }
    ensures text { IfSome result (λ rest. IsUtf8 rest.now) }
{
    text.strip_prefix(word)
}

/// The text after this capital letter, in either case.
fn past_capital(wanted: u8, text: &str) -> Option<&str>
    ensures reads { Reads text_view result (past_capital wanted (chars text.now)) }
    ensures text { IfSome result (λ rest. IsUtf8 rest.now) }
{
    let (c, after) = first_char(text)?;
    if c.to_ascii_uppercase() == char::from(wanted) {
        Some(after)
    } else {
        None
    }
}

/// The text after this word of capitals, in any ASCII case.
pub(crate) fn past_capitals<'a>(word: &[u8], text: &'a str) -> Option<&'a str>
    ensures reads { Reads text_view result (past_capitals word.now (chars text.now)) }
    ensures text { IfSome result (λ rest. IsUtf8 rest.now) }
{
    let mut rest = text;
    for letter in word {
        rest = past_capital(*letter, rest)?;
    }
    Some(rest)
}

/// The longest front of characters of the class, and the text after it, in time linear in that front.
pub fn split_while(class: Class, text: &str) -> (&str, &str)
    ensures reads { span (is_of_class class) (chars text.now) ≡ two_texts result }
    ensures front { IsUtf8 result.0.now }
    ensures text { IsUtf8 result.1.now }
{
    let mut rest = text;
    while let Some((c, after)) = first_char(rest) {
        if !class.contains(c) {
            break;
        }
        rest = after;
    }
    text.split_at(text.len() - rest.len())
}

/// The text after the blanks at its front.
pub(crate) fn skip_blanks(text: &str) -> &str
    ensures reads { skip_blanks (chars text.now) ≡ chars result.now }
    ensures text { IsUtf8 result.now }
{
    split_while(Class::Blank, text).1
}

/// The text after at least one blank.
pub(crate) fn past_some_blanks(text: &str) -> Option<&str>
    ensures reads { Reads text_view result (past_some_blanks (chars text.now)) }
    ensures text { IfSome result (λ rest. IsUtf8 rest.now) }
{
    let (c, after) = first_char(text)?;
    if is_blank(c) {
        Some(skip_blanks(after))
    } else {
        None
    }
}

/// A name, and the text after it, in time linear in the name; None where none stands at the front.
#[tactic(auto, unfolding(crate::specs::Reading::name_at))]
pub fn split_name(text: &str) -> Option<(&str, &str)>
    ensures reads { Reads two_texts result (name_at (chars text.now)) }
    ensures front { IfSome result (λ x. IsUtf8 x.0.now) }
    ensures text { IfSome result (λ x. IsUtf8 x.1.now) }
{
    let (c, _) = first_char(text)?;
    if is_name_start(c) {
        Some(split_while(Class::Name, text))
    } else {
        None
    }
}

/// What stands before the first of these words, and what stands after it; None where it stands nowhere. It takes
/// time linear in the text.
pub fn split_once<'a>(word: &str, text: &'a str) -> Option<(&'a str, &'a str)>
    requires ascii { IsTrue (is_ascii word.now) }
    requires filled { word.now ≢ [] }
    ensures reads { Reads two_texts result (split_once word.now (chars text.now)) }
    ensures front { IfSome result (λ x. IsUtf8 x.0.now) }
    ensures text { IfSome result (λ x. IsUtf8 x.1.now) }
{
    text.split_once(word)
}

/// The characters up to the first of these words, and the text after that word.
#[tactic(auto, unfolding(crate::specs::Machinery::Items::up_to))]
pub(crate) fn up_to<'a>(stop: &str, text: &'a str) -> Option<(&'a str, &'a str)>
    requires ascii { IsTrue (is_ascii stop.now) }
    requires filled { stop.now ≢ [] }
    ensures reads { Reads two_texts result (up_to stop.now (chars text.now)) }
    ensures front { IfSome result (λ x. IsUtf8 x.0.now) }
    ensures text { IfSome result (λ x. IsUtf8 x.1.now) }
{
    let (inside, rest) = split_once(stop, text)?;
    if are_characters(inside) {
        Some((inside, rest))
    } else {
        None
    }
}
