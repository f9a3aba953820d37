//! References.

ghost use Rattle.std.specs.Prelude.{◌≡◌, ℕ, ◌<◌, ◌≤◌, IsTrue, IfSome, map};
ghost use Rattle.std.specs.Char.{digit_value};
ghost use Rattle.std.specs.Map.{lookup};
ghost use Rattle.std.specs.Str.{chars, IsUtf8, bytes_eq};
ghost use Rattle.reading.specs.Reading.{Reads};
ghost use Rattle.xml_definitions.specs.Spelling.{entity};
ghost use Rattle.xhtml_items.specs.Classes.{is_of_class, are_digits};
ghost use Rattle.xhtml_items.specs.Machinery.Items.{numbered, number_at, numeric_at, entity_at, reference_at};
ghost use Rattle.xhtml_items.specs.Tokens.{character_view, entry};

use crate::characters::{Class, is_legal};
use crate::text::{split_name, split_while};
use reading::characters::past_character;

/// The entities that are declared, each with its character.
static ENTITIES: [(&str, char); 20] = [
    ("amp", '&'),
    ("lt", '<'),
    ("gt", '>'),
    ("quot", '"'),
    ("apos", '\''),
    ("nbsp", '\u{a0}'),
    ("sect", '\u{a7}'),
    ("copy", '\u{a9}'),
    ("laquo", '\u{ab}'),
    ("shy", '\u{ad}'),
    ("middot", '\u{b7}'),
    ("raquo", '\u{bb}'),
    ("times", '\u{d7}'),
    ("ndash", '\u{2013}'),
    ("mdash", '\u{2014}'),
    ("lsquo", '\u{2018}'),
    ("rsquo", '\u{2019}'),
    ("ldquo", '\u{201c}'),
    ("rdquo", '\u{201d}'),
    ("hellip", '\u{2026}'),
];

/// The character of this number.
fn numbered(base: u32, digits: &str) -> Option<char>
    requires low { 2 ≤ base }
    requires high { base ≤ 36 }
    requires digits { IsTrue (are_digits base (chars digits.now)) }
    ensures { result ≡ numbered base (chars digits.now) }
{
    let Ok(number) = u32::from_str_radix(digits, base) else {
        return None;
    };
    let character = char::from_u32(number)?;
    if is_legal(character) {
        Some(character)
    } else {
        None
    }
}

/// A character by its number: the digits, of this class, in this base, and `;`.
#[tactic(auto, unfolding(crate::specs::Machinery::Items::number_at))]
fn number(digits: Class, base: u32, text: &str) -> Option<(char, &str)>
    requires low { 2 ≤ base }
    requires high { base ≤ 36 }
    requires digits { (c : ℕ) → IsTrue (is_of_class digits c) → digit_value c < base }
    ensures reads { Reads character_view result (number_at (is_of_class digits) base (chars text.now)) }
    ensures text { IfSome result (λ x. IsUtf8 x.1.now) }
{
    let (digits, rest) = split_while(digits, text);
    let rest = past_character(';', rest)?;
    let character = numbered(base, digits)?;
    Some((character, rest))
}

/// What stands behind `&#`.
#[tactic(auto, unfolding(crate::specs::Machinery::Items::numeric_at))]
fn numeric(text: &str) -> Option<(char, &str)>
    ensures reads { Reads character_view result (numeric_at (chars text.now)) }
    ensures text { IfSome result (λ x. IsUtf8 x.1.now) }
{
    match past_character('x', text) {
        Some(rest) => number(Class::HexadecimalDigit, 16, rest),
        None => number(Class::Digit, 10, text),
    }
}

/// The character that a table gives for a name.
fn look_up(table: &[(&str, char)], name: &str) -> Option<char>
    ensures { result ≡ lookup (bytes_eq name.now) (map entry table.now) }
{
    for (key, character) in table {
        if name == *key {
            return Some(*character);
        }
    }
    None
}

/// The character of the entity of this name.
fn entity(name: &str) -> Option<char>
    ensures { result ≡ entity (chars name.now) }
{
    look_up(&ENTITIES, name)
}

/// What stands behind `&`, as a name.
#[tactic(auto, unfolding(crate::specs::Machinery::Items::entity_at))]
fn named(text: &str) -> Option<(char, &str)>
    ensures reads { Reads character_view result (entity_at (chars text.now)) }
    ensures text { IfSome result (λ x. IsUtf8 x.1.now) }
{
    let (name, rest) = split_name(text)?;
    let rest = past_character(';', rest)?;
    let character = entity(name)?;
    Some((character, rest))
}

/// What stands behind `&`: the character that is referred to, and the text after the reference.
#[tactic(auto, unfolding(crate::specs::Machinery::Items::reference_at))]
pub(crate) fn reference(text: &str) -> Option<(char, &str)>
    ensures reads { Reads character_view result (reference_at (chars text.now)) }
    ensures text { IfSome result (λ x. IsUtf8 x.1.now) }
{
    match past_character('#', text) {
        Some(rest) => numeric(rest),
        None => named(text),
    }
}
