//! Classes of characters.

ghost use Rattle.std.specs.Prelude.{◌≡◌};
ghost use Rattle.xml_definitions.specs.Characters.{is_character, is_plain, is_name_start, is_name_character};
ghost use Rattle.xml_definitions.specs.Spelling.{is_legal, as_read};
ghost use Rattle.xhtml_items.specs.Classes.{is_of_class};

use reading::characters::is_blank;

pub(crate) fn is_character(c: char) -> bool
    ensures { result ≡ is_character c }
{
    matches!(c, '\t' | '\n' | ' '..='\u{d7ff}' | '\u{e000}'..='\u{fffd}' | '\u{10000}'..='\u{10ffff}')
}

pub(crate) fn is_plain(c: char) -> bool
    ensures { result ≡ is_plain c }
{
    is_character(c) && c != '<' && c != '&'
}

/// Whether a document may have the character, as it is or by a reference (XML 1.0, 2.2). The carriage return is one.
pub fn is_legal(c: char) -> bool
    ensures { result ≡ is_legal c }
{
    c == '\r' || is_character(c)
}

pub(crate) fn is_name_start(c: char) -> bool
    ensures { result ≡ is_name_start c }
{
    c.is_ascii_alphabetic() || c == '_' || c == ':' || (c >= '\u{80}' && is_character(c))
}

pub(crate) fn is_name_character(c: char) -> bool
    ensures { result ≡ is_name_character c }
{
    is_name_start(c) || c.is_ascii_digit() || c == '-' || c == '.'
}

/// A character of a value as it reads: a blank as a space.
pub(crate) fn as_read(c: char) -> char
    ensures { result ≡ as_read c }
{
    if is_blank(c) { ' ' } else { c }
}

/// Characters that stand in a row, of which the longest front is taken.
#[derive(Clone, Copy)]
pub enum Class {
    Blank,
    Name,
    Digit,
    HexadecimalDigit,
    /// What may stand in a literal between two of this quote.
    Literal(char),
    /// What stands for itself in content.
    Plain,
    /// What a document may have.
    Character,
}

impl Class {
    pub(crate) fn contains(self, c: char) -> bool
        ensures { result ≡ is_of_class self c }
    {
        match self {
            Class::Blank => is_blank(c),
            Class::Name => is_name_character(c),
            Class::Digit => c.is_ascii_digit(),
            Class::HexadecimalDigit => c.is_ascii_hexdigit(),
            Class::Literal(quote) => is_character(c) && c != quote,
            Class::Plain => is_plain(c),
            Class::Character => is_character(c),
        }
    }
}
