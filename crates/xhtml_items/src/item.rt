//! The first item of a text.

ghost use Rattle.std.specs.Prelude.{◌≡◌, IfSome, IfOk, MatchOption};
ghost use Rattle.std.specs.Str.{chars, IsUtf8};
ghost use Rattle.reading.specs.Reading.{Reads};
ghost use Rattle.xhtml_items.specs.FirstItem.{BeginsWith, BeginsWithNone};
ghost use Rattle.xhtml_items.specs.Machinery.Items.{markup_at, item_at};
ghost use Rattle.xhtml_items.specs.Tokens.{item_of, token_view, IsText};

use crate::characters::is_plain;
use crate::markup::{declaration, instruction};
use crate::references::reference;
use crate::tags::{end_tag, tag};
use crate::token::Token;
use plain_types::memory::Memory;
use reading::characters::first_char;
use std::alloc::Global;

/// What stands behind a `<`.
#[tactic(auto, unfolding(crate::specs::Machinery::Items::markup_at))]
fn markup(alloc: Global, text: &str) -> Result<Option<(Token<'_>, &str)>, Memory>
    ensures reads { IfOk result (λ found. Reads token_view found (markup_at (chars text.now))) }
    ensures text { IfOk result (λ found. IfSome found (λ x. IsText x.0)) }
    ensures rest { IfOk result (λ found. IfSome found (λ x. IsUtf8 x.1.now)) }
{
    let Some((c, after)) = first_char(text) else {
        return Ok(None);
    };
    match c {
        '!' => Ok(declaration(after)),
        '?' => Ok(instruction(after)),
        '/' => Ok(end_tag(after)),
        _ => tag(alloc, text),
    }
}

/// The item at the front, by its first character.
#[tactic(auto, unfolding(crate::specs::Machinery::Items::item_at))]
fn item(alloc: Global, text: &str) -> Result<Option<(Token<'_>, &str)>, Memory>
    ensures reads { IfOk result (λ found. Reads token_view found (item_at (chars text.now))) }
    ensures text { IfOk result (λ found. IfSome found (λ x. IsText x.0)) }
    ensures rest { IfOk result (λ found. IfSome found (λ x. IsUtf8 x.1.now)) }
{
    let Some((c, after)) = first_char(text) else {
        return Ok(None);
    };
    if c == '<' {
        return markup(alloc, after);
    }
    if c == '&' {
        return match reference(after) {
            Some((character, rest)) => Ok(Some((Token::Reference(character), rest))),
            None => Ok(None),
        };
    }
    if is_plain(c) {
        Ok(Some((Token::Character(c), after)))
    } else {
        Ok(None)
    }
}

/// The first item of a text and the text after it, in time linear in the item, and n log n in the
/// number of its attributes; `None` where the text begins with no item. Of a tag it takes memory for
/// the attributes.
pub fn first_item(alloc: Global, text: &str) -> Result<Option<(Token<'_>, &str)>, Memory>
    ensures item { IfOk result (λ found. MatchOption found (BeginsWithNone (chars text.now)) (λ x. BeginsWith (chars text.now) (item_of x.0) (chars x.1.now))) }
    ensures text { IfOk result (λ found. IfSome found (λ x. IsText x.0)) }
    ensures rest { IfOk result (λ found. IfSome found (λ x. IsUtf8 x.1.now)) }
{
    item(alloc, text)
}
