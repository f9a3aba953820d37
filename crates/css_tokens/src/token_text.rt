//! The texts of tokens.

ghost use Rattle.std.specs.Prelude.{◌≡◌, IfOk, encode_utf8_all};
ghost use Rattle.std.specs.Str.{chars};

use plain_types::memory::Memory;
use plain_types::text::Text;
use std::alloc::Global;
use std::marker::Model;

/// The text of a token: a [`Text`] behind a pointer, so that a token of any kind takes little room.
/// Contracts see the list of its characters, as of a `Text`.
#[derive(Drop)]
pub struct TokenText {
    inner: Box<Text>,
}

impl Model for TokenText {
    ghost use Rattle.std.specs.Prelude.{List, ℕ};

    ghost Value = { List ℕ };

    ghost view = { λ text. text.inner.value };
}

impl TokenText {
    pub(crate) fn new(alloc: Global, text: Text) -> Result<TokenText, Memory>
        ensures characters { IfOk result (λ held. held ≡ text) }
    {
        Ok(TokenText {
            inner: Box::new(alloc, text)?,
        })
    }

    /// The text that the pointer leads to.
    pub fn as_text(&self) -> &Text
        ensures characters { result.now ≡ self.now }
    {
        self.inner.as_ref()
    }

    /// The text as a `&str`. A contract may speak of its characters or of its bytes.
    pub fn as_str(&self) -> &str
        ensures characters { chars result.now ≡ self.now }
        ensures bytes { result.now ≡ encode_utf8_all self.now }
    {
        self.as_text().as_str()
    }
}
