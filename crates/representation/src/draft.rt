//! Texts that are given up once they are too long.

ghost use Rattle.std.specs.Prelude.{◌≡◌, ◌<◌, ℕ, [], Some, OnOk, OnErr, IfOk, length};
ghost use Rattle.std.specs.List.{repeat};
ghost use Rattle.std.specs.Str.{chars};
ghost use Rattle.representation.specs.Draft.{extended};

use plain_types::memory::Memory;
use plain_types::text::Text;
use std::alloc::Global;
use std::marker::Model;

/// The most code points of a draft (our own; CSS Counter Styles 3, 2 lets a program give up on more).
const LIMIT: usize = 120;

/// A text of at most 120 code points, or nothing once it would have been longer. What would be too long
/// is not written out.
#[derive(Drop)]
pub struct Draft {
    text: Text,
    room: usize,
    is_over: bool,
}

impl Model for Draft {
    ghost use Rattle.std.specs.Prelude.{◌≡◌, ◌+◌, List, ℕ, Option, None, Some, cond, length};

    ghost Value = { Option (List ℕ) };

    ghost view = { λ draft. cond draft.is_over None (Some draft.text) };

    ghost invariant = { λ draft. length draft.text + draft.room ≡ 120 };
}

impl Draft {
    /// The empty draft.
    pub fn new(alloc: Global) -> Draft
        ensures empty { result ≡ Some [] }
    {
        Draft {
            text: Text::new(alloc),
            room: LIMIT,
            is_over: false,
        }
    }

    /// Puts the piece at the end so many times. It takes time linear in what is written, however many
    /// times are asked for.
    pub fn push(&mut self, piece: &str, times: u64) -> Result<(), Memory>
        ensures ok { OnOk result (self.new ≡ extended self.old (repeat times (chars piece.now))) }
        ensures err { OnErr result ((done : ℕ) × (done < times) × self.new ≡ extended self.old (repeat done (chars piece.now))) }
    {
        let length = character_count(piece) as u64;
        if self.is_over || length == 0 || times == 0 {
            return Ok(());
        }
        if times > self.room as u64 / length {
            self.is_over = true;
            return Ok(());
        }
        for done in 0..times {
            self.text.push_str(piece)?;
            self.room -= length as usize;
        }
        Ok(())
    }

    /// The text, where it is not too long.
    pub fn finish(self) -> Option<Text>
        ensures text { result ≡ self }
    {
        if self.is_over {
            return None;
        }
        Some(self.text)
    }
}

/// How many code points a text has.
fn character_count(text: &str) -> usize
    ensures count { result ≡ length (chars text.now) }
{
    text.chars().count()
}
