//! Names.

ghost use Rattle.std.specs.Prelude.{◌≡◌};
ghost use Rattle.std.specs.Str.{chars};
ghost use Rattle.xml_definitions.specs.Characters.{is_name};

use xhtml_items::text::split_name;

/// Whether the text is a name, of an element or an attribute. It takes no memory, and linear time.
pub fn is_name(text: &str) -> bool
    ensures { result ≡ is_name (chars text.now) }
{
    match split_name(text) {
        Some((_, rest)) => rest.is_empty(),
        None => false,
    }
}
