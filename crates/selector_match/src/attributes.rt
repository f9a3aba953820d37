//! Attribute selectors (Selectors 4, 6).

ghost use Rattle.std.specs.Prelude.{◌≡◌, ◌||◌, ◌++◌, nat_eq, codes, IfSome, IfNone, false};
ghost use Rattle.std.specs.Char.{is_ascii_whitespace};
ghost use Rattle.std.specs.List.{list_any, position, slice_split, starts_with, ends_with};
ghost use Rattle.std.specs.Str.{chars, bytes_eq};
ghost use Rattle.selector_match.specs.Attributes.{contains, has_word, in_case, passes_in_case};

use plain_types::selector_parts::AttrTest;

/// Whether two texts are the same, ASCII case aside with `fold`.
fn is_same(text: &[u8], value: &[u8], fold: bool) -> bool
    ensures { result ≡ bytes_eq (in_case fold text.now) (in_case fold value.now) }
{
    if fold {
        text.eq_ignore_ascii_case(value)
    } else {
        text == value
    }
}

/// What follows the value in the text, where the text begins with it.
fn rest_after<'a>(text: &'a [u8], value: &[u8], fold: bool) -> Option<&'a [u8]>
    ensures some { IfSome result (λ rest. in_case fold text.now ≡ in_case fold value.now ++ in_case fold rest.now) }
    ensures none { IfNone result (starts_with nat_eq (in_case fold text.now) (in_case fold value.now) ≡ false) }
{
    if value.len() <= text.len() && is_same(&text[..value.len()], value, fold) {
        return Some(&text[value.len()..]);
    }
    None
}

/// Whether the value is the beginning of the text.
fn begins(text: &[u8], value: &[u8], fold: bool) -> bool
    ensures { result ≡ starts_with nat_eq (in_case fold text.now) (in_case fold value.now) }
{
    rest_after(text, value, fold).is_some()
}

/// Whether the value is the end of the text.
fn ends(text: &[u8], value: &[u8], fold: bool) -> bool
    ensures { result ≡ ends_with nat_eq (in_case fold text.now) (in_case fold value.now) }
{
    value.len() <= text.len() && is_same(&text[text.len() - value.len()..], value, fold)
}

/// Whether the value stands somewhere in the text.
fn contains(text: &[u8], value: &[u8], fold: bool) -> bool
    ensures { result ≡ contains (in_case fold text.now) (in_case fold value.now) }
{
    for start in 0..text.len() {
        if begins(&text[start..], value, fold) {
            return true;
        }
    }
    value.is_empty()
}

/// The place of the first blank.
fn first_blank(text: &[u8]) -> Option<usize>
    ensures { result ≡ position is_ascii_whitespace text.now }
{
    text.iter().position(|byte| byte.is_ascii_whitespace())
}

/// Whether one of the parts between blanks is this one.
fn has_part(text: &[u8], word: &[u8], fold: bool) -> bool
    ensures { result ≡ list_any (λ part. bytes_eq (in_case fold part) (in_case fold word.now)) (slice_split is_ascii_whitespace text.now) }
{
    let mut rest = text;
    'parts: while let Some(end) = first_blank(rest) {
        if is_same(&rest[..end], word, fold) {
            return true;
        }
        rest = &rest[end..][1..];
    }
    is_same(rest, word, fold)
}

/// Whether one of the words between blanks is this one.
fn has_word(text: &[u8], word: &[u8], fold: bool) -> bool
    ensures { result ≡ has_word (in_case fold text.now) (in_case fold word.now) }
{
    !word.is_empty() && has_part(text, word, fold)
}

/// Whether the value is the text, or its beginning before a hyphen.
fn is_dashed(text: &[u8], value: &[u8], fold: bool) -> bool
    ensures { result ≡ (bytes_eq (in_case fold text.now) (in_case fold value.now) || starts_with nat_eq (in_case fold text.now) (in_case fold value.now ++ codes "-")) }
{
    match rest_after(text, value, fold) {
        Some(rest) => rest.is_empty() || rest[0] == b'-',
        None => false,
    }
}

/// Whether the value of an attribute, `text`, passes the test; `fold` is the flag `i`.
pub(crate) fn passes(test: AttrTest, text: &str, value: &str, fold: bool) -> bool
    ensures { result ≡ passes_in_case fold test (chars text.now) (chars value.now) }
{
    let text = text.as_bytes();
    let value = value.as_bytes();
    match test {
        AttrTest::Present => true,
        AttrTest::Equal => is_same(text, value, fold),
        AttrTest::Word => has_word(text, value, fold),
        AttrTest::Dash => is_dashed(text, value, fold),
        AttrTest::Start => !value.is_empty() && begins(text, value, fold),
        AttrTest::End => !value.is_empty() && ends(text, value, fold),
        AttrTest::Inside => !value.is_empty() && contains(text, value, fold),
    }
}
