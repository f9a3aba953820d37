//! What stands at the front of a text, and classes of characters that documents and sheets share.

ghost use Rattle.std.specs.Prelude.{◌≡◌, ◌∷◌, ◌++◌, [], MatchOption, IfSome};
ghost use Rattle.std.specs.Char.{encode_utf8};
ghost use Rattle.std.specs.Str.{chars, IsUtf8};
ghost use Rattle.reading.specs.Characters.{is_blank, is_quote};
ghost use Rattle.reading.specs.Reading.{Reads, past_character};

/// The first character and the text after it, or `None` where there is none. It takes constant time.
pub fn first_char(text: &str) -> Option<(char, &str)>
    ensures bytes { MatchOption result (text.now ≡ []) (λ x. text.now ≡ encode_utf8 x.0 ++ x.1.now) }
    ensures chars { MatchOption result (chars text.now ≡ []) (λ x. chars text.now ≡ x.0 ∷ chars x.1.now) }
    ensures text { IfSome result (λ x. IsUtf8 x.1.now) }
{
    let mut characters = text.chars();
    let first = characters.next()?;
    Some((first, characters.as_str()))
}

/// The text after this character, where it stands at the front. It takes constant time.
pub fn past_character(wanted: char, text: &str) -> Option<&str>
    ensures gives { Reads (λ x. chars x.now) result (past_character wanted (chars text.now)) }
    ensures text { IfSome result (λ x. IsUtf8 x.now) }
{
    let (first, rest) = first_char(text)?;
    if first == wanted { Some(rest) } else { None }
}

/// Whether the character is a space, a tab or a line feed (XML 1.0, 2.3; CSS Syntax 3, 4.2).
pub fn is_blank(c: char) -> bool
    ensures blank { result ≡ is_blank c }
{
    c == ' ' || c == '\t' || c == '\n'
}

/// Whether the character is a double or a single quote.
pub fn is_quote(c: char) -> bool
    ensures quote { result ≡ is_quote c }
{
    c == '"' || c == '\''
}
