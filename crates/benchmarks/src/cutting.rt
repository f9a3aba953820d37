//! How a style sheet is cut into rules, and a block into declarations.

use crate::sheet::{show_each, tokens_of_input, with_numbers};
use css_reader::declarations::cut;
use css_reader::rules::{FoundRule, part, rule};
use css_tokens::token::Token;

/// Prints the word and the name, and then the tokens.
fn show_named(rt: &HostRuntime, word: &str, name: &str, tokens: &[Token]) -> Option<()> {
    let line = with_numbers(rt.alloc(), word, name).ok()?;
    println!(rt; "{}", line.as_str()).ok()?;
    show_each(rt, tokens)
}

/// Prints the rule, if there is one, and answers how many that is.
fn show_rule(rt: &HostRuntime, found: Option<FoundRule<'_>>) -> Option<usize> {
    let block = match found {
        None => return Some(0),
        Some(FoundRule::Style { prelude, block }) => {
            show_named(rt, "style-rule", "", prelude)?;
            block
        }
        Some(
            FoundRule::At {
                name,
                prelude,
                block,
            },
        ) => {
            show_named(rt, "at-rule", name.as_str(), prelude)?;
            block
        }
    };
    show_named(rt, "block", "", block)?;
    Some(1)
}

/// Prints each rule of the style sheet on standard input: its kind, with its name if it is an at-rule; the
/// tokens of its prelude; `block`; the tokens of its block. Answers how many rules there are.
pub fn show_rules(rt: &HostRuntime) -> Option<usize> {
    let tokens = tokens_of_input(rt)?;
    let mut rest = tokens.as_slice();
    let mut count: usize = 0;
    'rules: while let Some((found, after)) = rule(rt.alloc(), rest).ok()? {
        count = count.saturating_add(show_rule(rt, found)?);
        rest = after;
    }
    Some(count)
}

/// Prints what may be a declaration, if there is something, and answers how many that is.
fn show_part(rt: &HostRuntime, part: Option<&[Token]>) -> Option<usize> {
    let Some(part) = part else {
        return Some(0);
    };
    match cut(rt.alloc(), part).ok()? {
        Some((name, value, true)) => show_named(rt, "important", name.as_str(), value)?,
        Some((name, value, false)) => show_named(rt, "declaration", name.as_str(), value)?,
        None => show_named(rt, "none", "", &[])?,
    }
    Some(1)
}

/// Prints each part of a block, whose content is on standard input, that may be a declaration: `declaration` or
/// `important` with the name, and the tokens of the value; or `none`. Answers how many parts there are.
pub fn show_declarations(rt: &HostRuntime) -> Option<usize> {
    let tokens = tokens_of_input(rt)?;
    let mut rest = tokens.as_slice();
    let mut count: usize = 0;
    'parts: while let Some((found, after)) = part(rt.alloc(), rest).ok()? {
        count = count.saturating_add(show_part(rt, found)?);
        rest = after;
    }
    Some(count)
}
