//! Texts that are compared as written, and numbers in them.

ghost use Rattle.std.specs.Prelude.{◌≡◌, IsTrue, option_map, option_copied};
ghost use Rattle.std.specs.Str.{chars, bytes_eq, IsUtf8};
ghost use Rattle.reading.specs.Characters.{is_ascii};
ghost use Rattle.forest.specs.Spots.{IsLive};
ghost use Rattle.plain_types.specs.Attributes.{value_of};
ghost use Rattle.node_arena.specs.Nodes.{attrs_of};
ghost use Rattle.mini_cascade.specs.Hints.{past_whitespace, integer_in, integer_attr};

use css_tokens::numbers::integer;
use node_arena::arena::Arena;
use plain_types::count::Count;
use reading::characters::first_char;

/// Whether the text is this word of ASCII characters, as it is written.
pub(crate) fn is_exactly(text: &str, word: &str) -> bool
    requires ascii { IsTrue (is_ascii word.now) }
    ensures word { result ≡ bytes_eq (chars text.now) word.now }
{
    text == word
}

/// The value of the attribute of this name, which is of ASCII characters.
pub(crate) fn attr<'a>(arena: &'a Arena, key: usize, name: &str) -> Option<&'a str>
    requires live { IsLive arena.now.tree key }
    requires ascii { IsTrue (is_ascii name.now) }
    ensures characters { option_map chars (option_copied result) ≡ value_of name.now (attrs_of arena.now.tree key) }
{
    arena.attr(key, name)
}

/// The text after the whitespace at its front.
#[tactic(auto, unfolding(reading::specs::Reading::span))]
fn past_whitespace(text: &str) -> &str
    ensures gives { past_whitespace (chars text.now) ≡ chars result.now }
    ensures text { IsUtf8 result.now }
{
    let mut rest = text;
    'blanks: while let Some((first, after)) = first_char(rest) {
        if !first.is_ascii_whitespace() {
            break;
        }
        rest = after;
    }
    rest
}

/// The integer that a text begins with, after whitespace.
pub(crate) fn integer_in(text: &str) -> Option<Count>
    ensures { result ≡ integer_in (chars text.now) }
{
    let (value, _) = integer(past_whitespace(text))?;
    Some(value)
}

/// The integer that an attribute has.
pub(crate) fn integer_attr(arena: &Arena, key: usize, name: &str) -> Option<Count>
    requires live { IsLive arena.now.tree key }
    requires ascii { IsTrue (is_ascii name.now) }
    ensures { result ≡ integer_attr name.now (attrs_of arena.now.tree key) }
{
    integer_in(attr(arena, key, name)?)
}
