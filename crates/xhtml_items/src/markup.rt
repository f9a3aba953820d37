//! What leaves nothing in the tree, and sections.

ghost use Rattle.std.specs.Prelude.{◌≡◌, IfSome};
ghost use Rattle.std.specs.Str.{chars, IsUtf8};
ghost use Rattle.reading.specs.Reading.{Reads};
ghost use Rattle.xhtml_items.specs.Machinery.Items.{past_literal, past_second, past_system, past_public, past_identifier, past_external, doctype_at, instruction_text_at, instruction_at, comment_at, section_at, declaration_at};
ghost use Rattle.xhtml_items.specs.Tokens.{text_view, token_view, IsText};

use crate::characters::Class;
use crate::text::{
    past_capitals, past_some_blanks, past_word, skip_blanks, split_name, split_while, up_to,
};
use crate::token::Token;
use reading::characters::{first_char, is_blank, is_quote, past_character};

/// What stands behind the target of an instruction, if more than its end does.
#[tactic(auto, unfolding(crate::specs::Machinery::Items::instruction_text_at))]
fn instruction_text(text: &str) -> Option<(Token<'_>, &str)>
    ensures reads { Reads token_view result (instruction_text_at (chars text.now)) }
    ensures text { IfSome result (λ x. IsText x.0) }
    ensures rest { IfSome result (λ x. IsUtf8 x.1.now) }
{
    let (c, after) = first_char(text)?;
    if is_blank(c) {
        let (_, rest) = up_to("?>", after)?;
        Some((Token::Instruction, rest))
    } else {
        None
    }
}

/// An instruction, behind its `<?`.
#[tactic(auto, unfolding(crate::specs::Machinery::Items::instruction_at))]
pub(crate) fn instruction(text: &str) -> Option<(Token<'_>, &str)>
    ensures reads { Reads token_view result (instruction_at (chars text.now)) }
    ensures text { IfSome result (λ x. IsText x.0) }
    ensures rest { IfSome result (λ x. IsUtf8 x.1.now) }
{
    let (_, after) = split_name(text)?;
    match past_word("?>", after) {
        Some(rest) => Some((Token::Instruction, rest)),
        None => instruction_text(after),
    }
}

/// The text after a literal.
#[tactic(auto, unfolding(crate::specs::Machinery::Items::past_literal))]
fn past_literal(text: &str) -> Option<&str>
    ensures reads { Reads text_view result (past_literal (chars text.now)) }
    ensures text { IfSome result (λ rest. IsUtf8 rest.now) }
{
    let (quote, after) = first_char(text)?;
    if is_quote(quote) {
        let (_, rest) = split_while(Class::Literal(quote), after);
        past_character(quote, rest)
    } else {
        None
    }
}

/// The text after blanks and a literal.
#[tactic(auto, unfolding(crate::specs::Machinery::Items::past_system))]
fn past_system(text: &str) -> Option<&str>
    ensures reads { Reads text_view result (past_system (chars text.now)) }
    ensures text { IfSome result (λ rest. IsUtf8 rest.now) }
{
    past_literal(past_some_blanks(text)?)
}

/// The text after blanks and a second literal, if they are there.
#[tactic(auto, unfolding(crate::specs::Machinery::Items::past_second))]
fn past_second(text: &str) -> &str
    ensures reads { past_second (chars text.now) ≡ chars result.now }
    ensures text { IsUtf8 result.now }
{
    match past_system(text) {
        Some(rest) => rest,
        None => text,
    }
}

/// The text after blanks, a literal, and maybe blanks and a second one.
#[tactic(auto, unfolding(crate::specs::Machinery::Items::past_public))]
fn past_public(text: &str) -> Option<&str>
    ensures reads { Reads text_view result (past_public (chars text.now)) }
    ensures text { IfSome result (λ rest. IsUtf8 rest.now) }
{
    let rest = past_system(text)?;
    Some(past_second(rest))
}

/// The text after the external identifier that begins at `start`, if one does, and else `text`.
#[tactic(auto, unfolding(crate::specs::Machinery::Items::past_identifier))]
fn past_identifier<'a>(text: &'a str, start: &'a str) -> Option<&'a str>
    ensures reads { Reads text_view result (past_identifier (chars text.now) (chars start.now)) }
    ensures text { IfSome result (λ rest. IsUtf8 rest.now) }
{
    if let Some(rest) = past_word("SYSTEM", start) {
        return past_system(rest);
    }
    match past_word("PUBLIC", start) {
        Some(rest) => past_public(rest),
        None => Some(text),
    }
}

/// The text after blanks and an external identifier, if they are there.
#[tactic(auto, unfolding(crate::specs::Machinery::Items::past_external))]
fn past_external(text: &str) -> Option<&str>
    ensures reads { Reads text_view result (past_external (chars text.now)) }
    ensures text { IfSome result (λ rest. IsUtf8 rest.now) }
{
    match past_some_blanks(text) {
        Some(start) => past_identifier(text, start),
        None => Some(text),
    }
}

/// A doctype, behind its `<!`.
#[tactic(auto, unfolding(crate::specs::Machinery::Items::doctype_at))]
fn doctype(text: &str) -> Option<(Token<'_>, &str)>
    ensures reads { Reads token_view result (doctype_at (chars text.now)) }
    ensures text { IfSome result (λ x. IsText x.0) }
    ensures rest { IfSome result (λ x. IsUtf8 x.1.now) }
{
    let word = past_capitals(b"DOCTYPE", text)?;
    let (_, rest) = split_name(past_some_blanks(word)?)?;
    let rest = past_character('>', skip_blanks(past_external(rest)?))?;
    Some((Token::Doctype, rest))
}

/// A comment, behind its `<!--`.
fn comment(text: &str) -> Option<(Token<'_>, &str)>
    ensures reads { Reads token_view result (comment_at (chars text.now)) }
    ensures text { IfSome result (λ x. IsText x.0) }
    ensures rest { IfSome result (λ x. IsUtf8 x.1.now) }
{
    let (_, rest) = up_to("-->", text)?;
    Some((Token::Comment, rest))
}

/// A section, behind its `<![CDATA[`.
fn section(text: &str) -> Option<(Token<'_>, &str)>
    ensures reads { Reads token_view result (section_at (chars text.now)) }
    ensures text { IfSome result (λ x. IsText x.0) }
    ensures rest { IfSome result (λ x. IsUtf8 x.1.now) }
{
    let (inside, rest) = up_to("]]>", text)?;
    Some((Token::Section(inside), rest))
}

/// A comment, a section or a doctype, behind its `<!`.
#[tactic(auto, unfolding(crate::specs::Machinery::Items::declaration_at))]
pub(crate) fn declaration(text: &str) -> Option<(Token<'_>, &str)>
    ensures reads { Reads token_view result (declaration_at (chars text.now)) }
    ensures text { IfSome result (λ x. IsText x.0) }
    ensures rest { IfSome result (λ x. IsUtf8 x.1.now) }
{
    if let Some(rest) = past_word("--", text) {
        return comment(rest);
    }
    if let Some(rest) = past_word("[CDATA[", text) {
        return section(rest);
    }
    doctype(text)
}
