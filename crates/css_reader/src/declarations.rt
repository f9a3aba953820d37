//! Declarations and descriptors of a block (CSS Syntax 3, 5.4.6; CSS Counter Styles 3, 3).

ghost use Rattle.std.specs.Prelude.{◌≡◌, ◌++◌, ◌∷◌, [], List, not, option_copied, IfOk, OnOk};
ghost use Rattle.std.specs.List.{filter, filter_map};
ghost use Rattle.reading.specs.Reading.{Reads};
ghost use Rattle.css_reader.specs.Declarations.{named_at, is_important, importance, cut, declaration, declarations, descriptor_in, descriptor_name, is_same_descriptor, last_of_each, descriptors};
ghost use Rattle.plain_types.specs.declared.counter_style.Descriptor.{Descriptor};

use crate::piece_end::ExclamationMark;
use crate::pieces::piece;
use crate::rules::part;
use css_tokens::token::Token;
use css_tokens::token_reading::{delimiter, ident, is_keyword, skip_whitespace};
use css_values::declarations::read_declaration;
use css_values::descriptors::read_descriptor;
use plain_types::counter_style::Descriptor;
use plain_types::declaration::Declared;
use plain_types::list::List;
use plain_types::memory::Memory;
use plain_types::text::Text;
use std::alloc::Global;

/// The name of a declaration, and the tokens after its colon.
fn named(tokens: &[Token]) -> Option<(&Text, &[Token])>
    ensures { Reads (λ x. (x.0.now, x.1.now)) result (named_at tokens.now) }
{
    let (name, rest) = ident(tokens)?;
    let value = delimiter(':', skip_whitespace(rest))?;
    Some((name, value))
}

/// Whether `important` stands there, and nothing after it but Blanks.
fn is_important(tokens: &[Token]) -> bool
    ensures { result ≡ is_important tokens.now }
{
    match tokens.split_first() {
        Some((word, rest)) => is_keyword("important", &word.kind)
            && skip_whitespace(rest).is_empty(),
        None => false,
    }
}

/// Whether a declaration is important, by what is left after its value; `None` where that makes it none.
fn importance(tokens: &[Token]) -> Option<bool>
    ensures { result ≡ importance tokens.now }
{
    match tokens.split_first() {
        Some((_, rest)) if is_important(skip_whitespace(rest)) => Some(true),
        Some(_) => None,
        None => Some(false),
    }
}

/// The name of a declaration, the tokens of its value, and whether it is important; `None` where the tokens
/// are no declaration, whatever its property. The tokens begin at the name and are all of the declaration,
/// without a `;`. The value is what stands between `:` and `!`, with the blanks at its ends, and may be empty.
/// Linear in the tokens (CSS Syntax 3, 5.4.6).
#[tactic(auto, unfolding(crate::specs::Declarations::cut))]
pub fn cut<'a>(
    alloc: Global,
    tokens: &'a [Token],
) -> Result<Option<(&'a Text, &'a [Token], bool)>, Memory>
    ensures { IfOk result (λ r. Reads (λ x. (x.0.now, x.1.now, x.2)) r (cut tokens.now)) }
{
    let Some((name, rest)) = named(tokens) else {
        return Ok(None);
    };
    let (value, end) = piece::<ExclamationMark>(alloc, rest)?;
    match importance(end) {
        Some(important) => Ok(Some((name, value, important))),
        None => Ok(None),
    }
}

#[tactic(auto, unfolding(crate::specs::Declarations::declaration))]
fn declaration(alloc: Global, tokens: &[Token]) -> Result<Option<Declared>, Memory>
    ensures { IfOk result (λ r. r ≡ declaration tokens.now) }
{
    let Some((name, value, important)) = cut(alloc, tokens)? else {
        return Ok(None);
    };
    match read_declaration(alloc, name.as_str(), value)? {
        Some(what) => Ok(Some(Declared { what, important })),
        None => Ok(None),
    }
}

fn push_declaration(
    alloc: Global,
    part: Option<&[Token]>,
    found: &mut List<Declared>,
) -> Result<(), Memory>
    ensures ok { OnOk result (found.new ≡ found.old ++ filter_map declaration (filter_map (λ x. x) (option_copied part.entry ∷ []))) }
{
    let Some(part) = part else {
        return Ok(());
    };
    if let Some(declared) = declaration(alloc, part)? {
        found.push(declared)?;
    }
    Ok(())
}

/// The declarations of a block of this content, in their order, without those that are not read. Linear in
/// the tokens.
pub(crate) fn declarations(alloc: Global, content: &[Token]) -> Result<List<Declared>, Memory>
    ensures { IfOk result (λ r. r ≡ declarations content.now) }
{
    let mut found = List::new(alloc);
    let mut rest = content;
    'parts: while let Some((entry, after)) = part(alloc, rest)? {
        push_declaration(alloc, entry, &mut found)?;
        rest = after;
    }
    Ok(found)
}

#[tactic(auto, unfolding(crate::specs::Declarations::descriptor_in))]
fn descriptor(alloc: Global, tokens: &[Token]) -> Result<Option<Descriptor>, Memory>
    ensures { IfOk result (λ r. r ≡ descriptor_in tokens.now) }
{
    match cut(alloc, tokens)? {
        Some((name, value, false)) => read_descriptor(alloc, name.as_str(), value),
        _ => Ok(None),
    }
}

fn descriptor_name(descriptor: &Descriptor) -> &'static str
    ensures { result.now ≡ descriptor_name descriptor.now }
{
    match descriptor {
        Descriptor::System(_) => "system",
        Descriptor::Negative { .. } => "negative",
        Descriptor::Prefix(_) => "prefix",
        Descriptor::Suffix(_) => "suffix",
        Descriptor::RangeAuto => "range",
        Descriptor::Range(_) => "range",
        Descriptor::Pad { .. } => "pad",
        Descriptor::Fallback(_) => "fallback",
        Descriptor::Symbols(_) => "symbols",
        Descriptor::Additive(_) => "additive-symbols",
    }
}

fn is_same_descriptor(first: &Descriptor, second: &Descriptor) -> bool
    ensures { result ≡ is_same_descriptor first.now second.now }
{
    descriptor_name(first) == descriptor_name(second)
}

/// Drops those of the descriptor's name.
fn drop_same(kept: &mut Vec<Descriptor>, descriptor: &Descriptor)
    ensures { kept.new.items ≡ filter (λ earlier. not (is_same_descriptor earlier descriptor.now)) kept.old.items }
{
    kept.retain(|earlier| !is_same_descriptor(earlier, descriptor));
}

/// Puts the descriptor at the end, in the place of an earlier one of its name.
fn put_descriptor(kept: &mut Vec<Descriptor>, descriptor: Descriptor) -> Result<(), Memory>
    ensures ok { OnOk result ((found : List Descriptor) → kept.old.items ≡ last_of_each found → kept.new.items ≡ last_of_each (found ++ descriptor ∷ [])) }
{
    drop_same(kept, &descriptor);
    kept.push(descriptor)?;
    Ok(())
}

fn put_part(alloc: Global, part: Option<&[Token]>, kept: &mut Vec<Descriptor>) -> Result<(), Memory>
    ensures ok { OnOk result ((found : List Descriptor) → kept.old.items ≡ last_of_each found → kept.new.items ≡ last_of_each (found ++ filter_map descriptor_in (filter_map (λ x. x) (option_copied part.entry ∷ [])))) }
{
    let Some(part) = part else {
        return Ok(());
    };
    if let Some(descriptor) = descriptor(alloc, part)? {
        put_descriptor(kept, descriptor)?;
    }
    Ok(())
}

fn to_list(alloc: Global, items: Vec<Descriptor>) -> Result<List<Descriptor>, Memory>
    ensures { IfOk result (λ list. list ≡ items.items) }
{
    let mut list = List::new(alloc);
    for item in items {
        list.push(item)?;
    }
    Ok(list)
}

/// The descriptors of a `@counter-style` rule with this block, of each the last that is read. Linear in the
/// tokens, since there are nine descriptors in all.
pub(crate) fn descriptors(alloc: Global, content: &[Token]) -> Result<List<Descriptor>, Memory>
    ensures { IfOk result (λ r. r ≡ descriptors content.now) }
{
    let mut kept = Vec::new(alloc);
    let mut rest = content;
    'parts: while let Some((entry, after)) = part(alloc, rest)? {
        put_part(alloc, entry, &mut kept)?;
        rest = after;
    }
    to_list(alloc, kept)
}
