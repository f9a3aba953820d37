//! Whether references to counter styles are the same.

ghost use Rattle.std.specs.Prelude.{◌≡◌, ◌↔◌, IsTrue};

use plain_types::style_ref::{Anonymous, StyleRef, System};
use plain_types::text::Text;

/// Whether both texts have the same characters.
pub(crate) fn is_same_text(one: &Text, other: &Text) -> bool
    ensures test { IsTrue result ↔ (one.now ≡ other.now) }
{
    one.as_str() == other.as_str()
}

/// Whether texts are the same, one by one.
fn are_same_texts(texts: &[Text], others: &[Text]) -> bool
    ensures test { IsTrue result ↔ (texts.now ≡ others.now) }
{
    texts.len() == others.len()
        && texts
            .iter()
            .zip(others)
            .all(|(one, other)| is_same_text(one, other))
}

fn is_same_system(one: &System, other: &System) -> bool
    ensures test { IsTrue result ↔ (one.now ≡ other.now) }
{
    match (one, other) {
        (System::Cyclic, System::Cyclic)
        | (System::Numeric, System::Numeric)
        | (System::Alphabetic, System::Alphabetic)
        | (System::Symbolic, System::Symbolic)
        | (System::Additive, System::Additive) => true,
        (System::Fixed(one), System::Fixed(other)) => *one == *other,
        (System::Extends(one), System::Extends(other)) => is_same_text(one, other),
        _ => false,
    }
}

fn is_same_anonymous(one: &Anonymous, other: &Anonymous) -> bool
    ensures test { IsTrue result ↔ (one.now ≡ other.now) }
{
    is_same_system(&one.system, &other.system)
        && are_same_texts(one.symbols.as_slice(), other.symbols.as_slice())
}

/// Whether both name the same style.
pub(crate) fn is_same_style(one: &StyleRef, other: &StyleRef) -> bool
    ensures test { IsTrue result ↔ (one.now ≡ other.now) }
{
    match (one, other) {
        (StyleRef::Nothing, StyleRef::Nothing) => true,
        (StyleRef::Name(one), StyleRef::Name(other)) => is_same_text(one, other),
        (StyleRef::Symbols(one), StyleRef::Symbols(other)) => is_same_anonymous(one, other),
        _ => false,
    }
}
