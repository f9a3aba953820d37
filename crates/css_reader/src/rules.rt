//! Rules of a sheet and parts of a block, cut out of tokens and not read yet (CSS Syntax 3, 5.4.1 to 5.4.4).

ghost use Rattle.std.specs.Prelude.{◌≡◌, ◌<◌, length, option_copied, option_map, IfOk, IfSome};
ghost use Rattle.reading.specs.Reading.{Reads};
ghost use Rattle.css_reader.specs.Rules.{is_between_rules, is_between_declarations, block_after, style_rule_at, at_rule_at, rule_at, part_at};
ghost use Rattle.css_reader.specs.FoundRules.{rule_found};

use crate::piece_end::{ClosingBrace, OpeningBrace, Semicolon, SemicolonOrOpeningBrace};
use crate::pieces::{past_one, piece};
use css_tokens::token::{Token, TokenKind};
use css_tokens::token_reading::{is_sign, is_whitespace};
use plain_types::memory::Memory;
use plain_types::text::Text;
use std::alloc::Global;

/// A rule with the tokens of its prelude and those of its block, without the brackets of the block.
#[derive(Clone, Copy)]
pub enum FoundRule<'a> {
    /// What CSS Syntax calls a qualified rule, whatever its prelude is.
    Style {
        prelude: &'a [Token],
        block: &'a [Token],
    },
    /// An at-rule by its name, without the `@`.
    At {
        name: &'a Text,
        prelude: &'a [Token],
        block: &'a [Token],
    },
}

fn is_between_rules(kind: &TokenKind) -> bool
    ensures { result ≡ is_between_rules kind.now }
{
    match kind {
        TokenKind::Blank => true,
        TokenKind::CommentOpen => true,
        TokenKind::CommentClose => true,
        _ => false,
    }
}

fn is_between_declarations(kind: &TokenKind) -> bool
    ensures { result ≡ is_between_declarations kind.now }
{
    is_whitespace(kind) || is_sign(';', kind)
}

/// After a prelude: the content of the block, and the tokens after it.
fn block<'a>(
    alloc: Global,
    tokens: &'a [Token],
) -> Result<(Option<&'a [Token]>, &'a [Token]), Memory>
    ensures { IfOk result (λ x. block_after tokens.now ≡ (option_copied x.0, x.1.now)) }
{
    let Some((first, after)) = tokens.split_first() else {
        return Ok((None, tokens));
    };
    if !is_sign('{', &first.kind) {
        return Ok((None, after));
    }
    let (content, rest) = piece::<ClosingBrace>(alloc, after)?;
    Ok((Some(content), past_one(rest)))
}

/// A style rule, and the tokens after it; no rule where it has no block.
fn style_rule<'a>(
    alloc: Global,
    tokens: &'a [Token],
) -> Result<(Option<FoundRule<'a>>, &'a [Token]), Memory>
    ensures { IfOk result (λ x. style_rule_at tokens.now ≡ (option_map rule_found x.0, x.1.now)) }
{
    let (prelude, after) = piece::<OpeningBrace>(alloc, tokens)?;
    match block(alloc, after)? {
        (Some(block), rest) => Ok((Some(FoundRule::Style { prelude, block }), rest)),
        (None, rest) => Ok((None, rest)),
    }
}

/// An at-rule after its name, and the tokens after it; no rule where it has no block.
fn at_rule<'a>(
    alloc: Global,
    name: &'a Text,
    tokens: &'a [Token],
) -> Result<(Option<FoundRule<'a>>, &'a [Token]), Memory>
    ensures { IfOk result (λ x. at_rule_at name.now tokens.now ≡ (option_map rule_found x.0, x.1.now)) }
{
    let (prelude, after) = piece::<SemicolonOrOpeningBrace>(alloc, tokens)?;
    match block(alloc, after)? {
        (Some(block), rest) => Ok((
            Some(FoundRule::At {
                name,
                prelude,
                block,
            }),
            rest,
        )),
        (None, rest) => Ok((None, rest)),
    }
}

/// What stands at the front of a sheet, and the tokens after it: a rule, or something that gives none, as
/// what stands between rules and a rule without a block; `None` at the end of the tokens, and nowhere else.
/// The rules of a sheet are those of one call after the other, each over what the one before left. Linear in
/// the tokens that it takes (CSS Syntax 3, 5.4.1 to 5.4.3).
#[tactic(auto, unfolding(crate::specs::Rules::rule_at))]
pub fn rule<'a>(
    alloc: Global,
    tokens: &'a [Token],
) -> Result<Option<(Option<FoundRule<'a>>, &'a [Token])>, Memory>
    ensures rule { IfOk result (λ r. Reads (λ x. (option_map rule_found x.0, x.1.now)) r (rule_at tokens.now)) }
    ensures fewer { IfOk result (λ r. IfSome r (λ x. length x.1.now < length tokens.now)) }
{
    let Some((first, after)) = tokens.split_first() else {
        return Ok(None);
    };
    if is_between_rules(&first.kind) {
        return Ok(Some((None, after)));
    }
    match &first.kind {
        TokenKind::AtKeyword(name) => Ok(Some(at_rule(alloc, name.as_text(), after)?)),
        _ => Ok(Some(style_rule(alloc, tokens)?)),
    }
}

/// What stands at the front of a block's content, and the tokens after it: the tokens of what may be a
/// declaration, or something that gives none, as a blank, a `;` or an at-rule; `None` at the end of the
/// tokens, and nowhere else. Linear in the tokens that it takes (CSS Syntax 3, 5.4.4).
#[tactic(auto, unfolding(crate::specs::Rules::part_at))]
pub fn part<'a>(
    alloc: Global,
    tokens: &'a [Token],
) -> Result<Option<(Option<&'a [Token]>, &'a [Token])>, Memory>
    ensures part { IfOk result (λ r. Reads (λ x. (option_copied x.0, x.1.now)) r (part_at tokens.now)) }
    ensures fewer { IfOk result (λ r. IfSome r (λ x. length x.1.now < length tokens.now)) }
{
    let Some((first, after)) = tokens.split_first() else {
        return Ok(None);
    };
    if is_between_declarations(&first.kind) {
        return Ok(Some((None, after)));
    }
    match &first.kind {
        TokenKind::AtKeyword(name) => {
            let (_, rest) = at_rule(alloc, name.as_text(), after)?;
            Ok(Some((None, rest)))
        }
        _ => {
            let (part, rest) = piece::<Semicolon>(alloc, tokens)?;
            Ok(Some((Some(part), rest)))
        }
    }
}
