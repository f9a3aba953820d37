//! Words that count in any ASCII case.

ghost use Rattle.std.specs.Prelude.{◌≡◌, IsTrue};
ghost use Rattle.std.specs.Str.{chars};
ghost use Rattle.css_definitions.specs.Words.{is_word};
ghost use Rattle.reading.specs.Characters.{is_ascii};

/// Whether the text is this word of ASCII characters, in any ASCII case.
pub fn is_word(text: &str, word: &str) -> bool
    requires ascii { IsTrue (is_ascii word.now) }
    ensures word { result ≡ is_word (chars text.now) word.now }
{
    text.eq_ignore_ascii_case(word)
}
