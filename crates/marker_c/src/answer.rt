//! What calls answer.

ghost use Rattle.std.specs.Prelude.{◌≡◌, IfErr, IfOk};
ghost use Rattle.std.specs.Str.{IsUtf8};
ghost use Rattle.marker_c.specs.Answers.{IsNotUtf8, kind_number};

use crate::codes::NOT_UTF8;
use plain_types::box_kind::BoxKind;

/// A code, and the place of a fault where the code has one: else both numbers are 0.
#[repr(C)]
#[derive(Clone, Copy)]
pub struct Answer {
    pub code: u32,
    pub line: usize,
    pub column: usize,
}

/// A line of the list. All is 0 where there is none.
#[repr(C)]
#[derive(Clone, Copy)]
pub struct Line {
    /// 1, 2 or 3: its box is a marker, before or after box.
    pub kind: u32,
    /// 1 where the box is gone and its element stays.
    pub is_gone: u32,
    /// The number of positions of the element's path.
    pub depth: usize,
    /// The number of bytes of its text; 0 where the box is gone.
    pub length: usize,
}

/// How much there is of a document.
#[repr(C)]
#[derive(Clone, Copy)]
pub struct Counts {
    pub elements: usize,
    pub boxes: usize,
    pub lines: usize,
}

impl Answer {
    /// An answer of a code without a place.
    pub(crate) fn of(code: u32) -> Answer
        ensures code { result.code ≡ code }
        ensures line { result.line ≡ 0 }
        ensures column { result.column ≡ 0 }
    {
        Answer {
            code,
            line: 0,
            column: 0,
        }
    }
}

/// The text of these bytes, or the answer that they are none. The answer says which text of the call it is, from 0.
pub(crate) fn text_of(bytes: &[u8], which: usize) -> Result<&str, Answer>
    ensures text { IfOk result (λ text. text.now ≡ bytes.now) }
    ensures utf8 { IfOk result (λ _. IsUtf8 bytes.now) }
    ensures fault { IfErr result (IsNotUtf8 which bytes.now) }
{
    match str::from_utf8(bytes) {
        Ok(text) => Ok(text),
        Err(error) => Err(Answer {
            code: NOT_UTF8,
            line: which,
            column: error.valid_up_to(),
        }),
    }
}

/// The number of a kind of boxes. An element's own box is never listed.
pub(crate) fn kind_number(kind: BoxKind) -> u32
    ensures number { result ≡ kind_number kind }
{
    match kind {
        BoxKind::Element => 0,
        BoxKind::Marker => 1,
        BoxKind::Before => 2,
        BoxKind::After => 3,
    }
}
