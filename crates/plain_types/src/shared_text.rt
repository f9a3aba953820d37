//! Owned text that copies share.

ghost use Rattle.std.specs.Prelude.{◌≡◌, IfOk, encode_utf8_all};
ghost use Rattle.std.specs.Str.{chars};

use crate::duplicate::Duplicate;
use crate::memory::Memory;
use crate::text::Text;
use std::alloc::Global;
use std::marker::Model;
use std::rc::Rc;

/// An owned text whose copies are the same text in memory. Contracts see the list of its characters (code points).
pub struct SharedText {
    text: Rc<Text>,
}

impl Drop for SharedText {
    fn drop(self) {
        let SharedText { text: _ } = self;
    }
}

impl Model for SharedText {
    ghost use Rattle.std.specs.Prelude.{List, ℕ};

    ghost Value = { List ℕ };

    ghost view = { λ shared. shared.text.value };
}

impl SharedText {
    /// A text of the same characters, in time linear in them.
    pub fn from_str(alloc: Global, s: &str) -> Result<SharedText, Memory>
        ensures characters { IfOk result (λ text. text ≡ chars s.now) }
    {
        let text = Text::from_str(alloc, s)?;
        Ok(SharedText {
            text: Rc::new(alloc, text)?,
        })
    }

    /// The text as a `&str`. A contract may speak of its characters or of its bytes.
    pub fn as_str(&self) -> &str
        ensures characters { chars result.now ≡ self.now }
        ensures bytes { result.now ≡ encode_utf8_all self.now }
    {
        self.text.as_str()
    }
}

/// In constant time, and without memory: only where the text can have no further holder its characters are copied.
impl Duplicate for SharedText {
    fn duplicate(&self, alloc: Global) -> Result<SharedText, Memory> {
        match self.text.clone() {
            Ok(text) => Ok(SharedText { text }),
            Err(_) => SharedText::from_str(alloc, self.as_str()),
        }
    }
}
