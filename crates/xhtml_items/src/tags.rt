//! Tags.

ghost use Rattle.std.specs.Prelude.{◌≡◌, IfSome, IfOk};
ghost use Rattle.std.specs.Str.{chars, IsUtf8};
ghost use Rattle.reading.specs.Reading.{Reads};
ghost use Rattle.xhtml_items.specs.Machinery.Items.{tag_end_at, attributes_at, tag_at, end_tag_at};
ghost use Rattle.xhtml_items.specs.Tokens.{token_view, IsText};

use crate::attributes::{are_distinct, attributes};
use crate::text::{past_word, skip_blanks, split_name};
use crate::token::Token;
use plain_types::attr::Attr;
use plain_types::list::List;
use plain_types::memory::Memory;
use reading::characters::past_character;
use std::alloc::Global;

/// The end of a tag.
#[tactic(auto, unfolding(crate::specs::Machinery::Items::tag_end_at))]
fn tag_end<'a>(name: &'a str, attrs: List<Attr>, text: &'a str) -> Option<(Token<'a>, &'a str)>
    ensures reads { Reads token_view result (tag_end_at (chars name.now) attrs (chars text.now)) }
    ensures text { IfSome result (λ x. IsText x.0) }
    ensures rest { IfSome result (λ x. IsUtf8 x.1.now) }
{
    if let Some(rest) = past_word("/>", text) {
        return Some((Token::EmptyTag { name, attrs }, rest));
    }
    match past_character('>', text) {
        Some(rest) => Some((Token::StartTag { name, attrs }, rest)),
        None => None,
    }
}

/// A tag behind its name.
#[tactic(auto, unfolding(crate::specs::Machinery::Items::attributes_at))]
fn tag_after_name<'a>(
    alloc: Global,
    name: &'a str,
    text: &'a str,
) -> Result<Option<(Token<'a>, &'a str)>, Memory>
    ensures reads { IfOk result (λ found. Reads token_view found (attributes_at (chars name.now) (chars text.now))) }
    ensures text { IfOk result (λ found. IfSome found (λ x. IsText x.0)) }
    ensures rest { IfOk result (λ found. IfSome found (λ x. IsUtf8 x.1.now)) }
{
    let (attrs, rest) = attributes(alloc, text)?;
    if are_distinct(alloc, attrs.as_slice())? {
        Ok(tag_end(name, attrs, skip_blanks(rest)))
    } else {
        Ok(None)
    }
}

/// A start tag or an empty tag, behind its `<`.
#[tactic(auto, unfolding(crate::specs::Machinery::Items::tag_at))]
pub(crate) fn tag(alloc: Global, text: &str) -> Result<Option<(Token<'_>, &str)>, Memory>
    ensures reads { IfOk result (λ found. Reads token_view found (tag_at (chars text.now))) }
    ensures text { IfOk result (λ found. IfSome found (λ x. IsText x.0)) }
    ensures rest { IfOk result (λ found. IfSome found (λ x. IsUtf8 x.1.now)) }
{
    match split_name(text) {
        Some((name, rest)) => tag_after_name(alloc, name, rest),
        None => Ok(None),
    }
}

/// An end tag, behind its `</`.
#[tactic(auto, unfolding(crate::specs::Machinery::Items::end_tag_at))]
pub(crate) fn end_tag(text: &str) -> Option<(Token<'_>, &str)>
    ensures reads { Reads token_view result (end_tag_at (chars text.now)) }
    ensures text { IfSome result (λ x. IsText x.0) }
    ensures rest { IfSome result (λ x. IsUtf8 x.1.now) }
{
    let (name, rest) = split_name(text)?;
    let rest = past_character('>', skip_blanks(rest))?;
    Some((Token::EndTag { name }, rest))
}
