//! The sheet of a text, and that of several texts.

ghost use Rattle.std.specs.Prelude.{◌≡◌, ◌++◌, ◌∷◌, [], option_map, IfOk, OnOk};
ghost use Rattle.std.specs.List.{filter_map};
ghost use Rattle.std.specs.Str.{chars};
ghost use Rattle.reading.specs.Reading.{Reads};
ghost use Rattle.css_reader.specs.Rules.{style_rule, at_rule, rules};
ghost use Rattle.css_reader.specs.FoundRules.{rule_found};
ghost use Rattle.css_reader.specs.Sheets.{lone_name, style_rule_of, style_def_of, sheet, sheets};

use crate::declarations::{declarations, descriptors};
use crate::rules::{FoundRule, rule};
use css_tokens::lexer::tokens;
use css_tokens::sheet_text::prepare_text;
use css_tokens::token::Token;
use css_tokens::token_reading::{ident, skip_whitespace};
use css_tokens::words::is_word;
use plain_types::counter_style::StyleDef;
use plain_types::duplicate::Duplicate;
use plain_types::list::List;
use plain_types::memory::Memory;
use plain_types::sheet::{Sheet, StyleRule};
use plain_types::text::Text;
use selectors::selector_list::read_selectors;
use std::alloc::Global;

/// The identifier that stands there alone, between Blanks.
fn lone_name(tokens: &[Token]) -> Option<&Text>
    ensures { Reads (λ x. x.now) result (lone_name tokens.now) }
{
    let (name, rest) = ident(skip_whitespace(tokens))?;
    if skip_whitespace(rest).is_empty() {
        Some(name)
    } else {
        None
    }
}

/// Adds the style rule of this prelude and this block, if the prelude is a list of selectors.
fn push_style_rule(
    alloc: Global,
    text: &str,
    prelude: &[Token],
    block: &[Token],
    rules: &mut List<StyleRule>,
) -> Result<(), Memory>
    ensures ok { OnOk result (rules.new ≡ rules.old ++ filter_map (style_rule_of text.now) (style_rule prelude.now block.now ∷ [])) }
{
    if let Some(selectors) = read_selectors(alloc, text, prelude)? {
        let declared = declarations(alloc, block)?;
        rules.push(StyleRule {
            selectors,
            declared,
        })?;
    }
    Ok(())
}

/// Adds the counter style of this at-rule, if it is one.
fn push_style_def(
    alloc: Global,
    name: &str,
    prelude: &[Token],
    block: &[Token],
    styles: &mut List<StyleDef>,
) -> Result<(), Memory>
    ensures ok { OnOk result (styles.new ≡ styles.old ++ filter_map style_def_of (at_rule (chars name.now) prelude.now block.now ∷ [])) }
{
    if !is_word(name, "counter-style") {
        return Ok(());
    }
    if let Some(style) = lone_name(prelude) {
        let descriptors = descriptors(alloc, block)?;
        let name = style.duplicate(alloc)?;
        styles.push(StyleDef { name, descriptors })?;
    }
    Ok(())
}

/// Adds what the rule gives to the sheet.
fn push_rule(
    alloc: Global,
    text: &str,
    found: Option<FoundRule<'_>>,
    sheet: &mut Sheet,
) -> Result<(), Memory>
    ensures rules { OnOk result (sheet.new.rules ≡ sheet.old.rules ++ filter_map (style_rule_of text.now) (filter_map (λ x. x) (option_map rule_found found.entry ∷ []))) }
    ensures styles { OnOk result (sheet.new.styles ≡ sheet.old.styles ++ filter_map style_def_of (filter_map (λ x. x) (option_map rule_found found.entry ∷ []))) }
{
    match found {
        None => Ok(()),
        Some(FoundRule::Style { prelude, block }) => {
            push_style_rule(alloc, text, prelude, block, &mut sheet.rules)
        }
        Some(
            FoundRule::At {
                name,
                prelude,
                block,
            },
        ) => push_style_def(alloc, name.as_str(), prelude, block, &mut sheet.styles),
    }
}

/// Adds what the rules of these tokens of the text give to the sheet.
fn push_rules(alloc: Global, text: &str, tokens: &[Token], sheet: &mut Sheet) -> Result<(), Memory>
    ensures rules { OnOk result (sheet.new.rules ≡ sheet.old.rules ++ filter_map (style_rule_of text.now) (rules tokens.now)) }
    ensures styles { OnOk result (sheet.new.styles ≡ sheet.old.styles ++ filter_map style_def_of (rules tokens.now)) }
{
    let mut rest = tokens;
    'rules: while let Some((found, after)) = rule(alloc, rest)? {
        push_rule(alloc, text, found, sheet)?;
        rest = after;
    }
    Ok(())
}

/// Adds the rules and the counter styles of the text to the sheet, behind those that it has.
#[tactic(auto, unfolding(crate::specs::Sheets::sheet))]
fn push_text(alloc: Global, text: &str, found: &mut Sheet) -> Result<(), Memory>
    ensures rules { OnOk result (found.new.rules ≡ found.old.rules ++ (sheet (chars text.now)).rules) }
    ensures styles { OnOk result (found.new.styles ≡ found.old.styles ++ (sheet (chars text.now)).styles) }
{
    let text = prepare_text(alloc, text)?;
    let tokens = tokens(alloc, text.as_str())?;
    push_rules(alloc, text.as_str(), tokens.as_slice(), found)
}

/// The sheet without rules.
fn empty_sheet(alloc: Global) -> Sheet
    ensures rules { result.rules ≡ [] }
    ensures styles { result.styles ≡ [] }
{
    Sheet {
        rules: List::new(alloc),
        styles: List::new(alloc),
    }
}

/// The style sheet of a text, which every text has (CSS Syntax 3, 5.3.3): its style rules and its counter
/// styles, without what is not understood. Time and memory are linear in the length of the text.
pub fn read_sheet(alloc: Global, text: &str) -> Result<Sheet, Memory>
    ensures sheet { IfOk result (λ found. found ≡ sheet (chars text.now)) }
{
    let mut sheet = empty_sheet(alloc);
    push_text(alloc, text, &mut sheet)?;
    Ok(sheet)
}

/// The style sheets of the texts as one (CSS Cascade 5, 6.1 "Order of Appearance"): the style rules of all
/// and the counter styles of all, those of the first text first. Each text is a sheet of its own, as in
/// [`read_sheet`]: what it leaves open does not reach into the next. Without texts there are no rules.
/// `Memory` where memory is wanting. Time and memory are linear in the lengths of the texts: each is read
/// once, and its rules go straight into the sheet that is returned.
#[tactic(auto, unfolding(crate::specs::Sheets::sheets))]
pub fn read_sheets(alloc: Global, texts: &[Text]) -> Result<Sheet, Memory>
    ensures sheet { IfOk result (λ found. found ≡ sheets texts.now) }
{
    let mut sheet = empty_sheet(alloc);
    for text in texts {
        push_text(alloc, text.as_str(), &mut sheet)?;
    }
    Ok(sheet)
}
