//! Owned text.

ghost use Rattle.std.specs.Prelude.{◌≡◌, ◌++◌, ◌∷◌, [], IfOk, OnOk, OnErr, encode_utf8_all};
ghost use Rattle.std.specs.Str.{chars};

use crate::duplicate::Duplicate;
use crate::memory::Memory;
use std::alloc::Global;
use std::marker::Model;

/// An owned text. Contracts see the list of its characters (code points).
#[derive(Drop)]
pub struct Text {
    inner: String,
}

impl Model for Text {
    ghost use Rattle.std.specs.Prelude.{List, ℕ};
    ghost use Rattle.std.specs.String.{string_bytes};
    ghost use Rattle.std.specs.Str.{chars};

    ghost Value = { List ℕ };

    ghost view = { λ text. chars (string_bytes text.inner) };
}

impl Text {
    /// The text without characters. It takes no memory.
    pub fn new(alloc: Global) -> Text
        ensures empty { result ≡ [] }
    {
        Text {
            inner: String::new(alloc),
        }
    }

    /// A text of the same characters, in time linear in them.
    pub fn from_str(alloc: Global, s: &str) -> Result<Text, Memory>
        ensures characters { IfOk result (λ text. text ≡ chars s.now) }
    {
        Ok(Text {
            inner: String::from_str(alloc, s)?,
        })
    }

    /// The text as a `&str`. A contract may speak of its characters or of its bytes.
    pub fn as_str(&self) -> &str
        ensures characters { chars result.now ≡ self.now }
        ensures bytes { result.now ≡ encode_utf8_all self.now }
    {
        self.inner.as_str()
    }

    /// Appends the characters of `s`, in amortized time linear in them.
    pub fn push_str(&mut self, s: &str) -> Result<(), Memory>
        ensures ok { OnOk result (self.new ≡ self.old ++ chars s.now) }
        ensures err { OnErr result (self.new ≡ self.old) }
    {
        self.inner.push_str(s)?;
        Ok(())
    }

    /// Appends the character, in amortized constant time.
    pub fn push(&mut self, character: char) -> Result<(), Memory>
        ensures ok { OnOk result (self.new ≡ self.old ++ character ∷ []) }
        ensures err { OnErr result (self.new ≡ self.old) }
    {
        self.inner.push(character)?;
        Ok(())
    }
}

impl Duplicate for Text {
    fn duplicate(&self, alloc: Global) -> Result<Text, Memory> {
        Text::from_str(alloc, self.as_str())
    }
}
