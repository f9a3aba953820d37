//! Texts of ASCII.

ghost use Rattle.std.specs.Prelude.{◌≡◌, ◌++◌, IfOk, IsTrue};
ghost use Rattle.std.specs.Fmt.{decimal};
ghost use Rattle.reading.specs.Characters.{is_ascii};

use itoa::Buffer;
use plain_types::memory::Memory;
use plain_types::text::Text;
use std::alloc::Global;

pub(crate) fn copied(alloc: Global, text: &str) -> Result<Text, Memory>
    requires { IsTrue (is_ascii text.now) }
    ensures characters { IfOk result (λ copy. copy ≡ text.now) }
{
    Text::from_str(alloc, text)
}

/// The front, and a number in decimal.
pub(crate) fn numbered(alloc: Global, front: &str, number: u32) -> Result<Text, Memory>
    requires { IsTrue (is_ascii front.now) }
    ensures characters { IfOk result (λ text. text ≡ front.now ++ decimal number) }
{
    let mut buffer = Buffer::new();
    let mut text = copied(alloc, front)?;
    text.push_str(buffer.format(number))?;
    Ok(text)
}
