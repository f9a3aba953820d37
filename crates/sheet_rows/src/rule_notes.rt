//! Sheets as short texts: each rule with its selectors, then its declarations and descriptors; `!` after an
//! important one.

use crate::pushing::{push_all, push_number};
use crate::selector_notes::{join_sign, pseudo_word};
use plain_types::content::{Content, Item};
use plain_types::counter_style::{Descriptor, StyleDef};
use plain_types::declaration::{Declaration, Declared, Said};
use plain_types::memory::Memory;
use plain_types::selector::{Compound, Selector, Simple};
use plain_types::sheet::{Sheet, StyleRule};
use plain_types::text::Text;

fn push_simple(simple: &Simple, out: &mut Text) -> Result<(), Memory> {
    match simple {
        Simple::Any => out.push('*'),
        Simple::Element(name) => out.push_str(name.as_str()),
        Simple::Id(name) => push_all(&["#", name.as_str()], out),
        Simple::Class(name) => push_all(&[".", name.as_str()], out),
        Simple::Attr { .. } => out.push_str("[]"),
        Simple::Nth { .. } => out.push_str(":nth"),
        Simple::Is(_) => out.push_str(":is"),
        Simple::Weightless(_) => out.push_str(":where"),
        Simple::Not(_) => out.push_str(":not"),
        _ => out.push_str(":other"),
    }
}

fn push_compound(compound: &Compound, out: &mut Text) -> Result<(), Memory> {
    for simple in compound.simples.as_slice() {
        push_simple(simple, out)?;
    }
    Ok(())
}

fn push_selector(selector: &Selector, out: &mut Text) -> Result<(), Memory> {
    let mut joins = selector.joins.as_slice().iter();
    for compound in selector.compounds.as_slice() {
        push_compound(compound, out)?;
        if let Some(join) = joins.next() {
            out.push_str(join_sign(*join))?;
        }
    }
    out.push_str(pseudo_word(selector.pseudo))
}

fn push_content(content: &Content, out: &mut Text) -> Result<(), Memory> {
    match content {
        Content::Normal => out.push_str("content normal"),
        Content::Nothing => out.push_str("content none"),
        Content::Items(items) => match items.as_slice() {
            [Item::Chars(text)] => push_all(&["content '", text.as_str(), "'"], out),
            _ => {
                out.push_str("content ")?;
                push_number(items.len(), out)
            }
        },
    }
}

fn push_declaration(declared: &Declared, out: &mut Text) -> Result<(), Memory> {
    match &declared.what {
        Declaration::Display(_) => out.push_str("display")?,
        Declaration::Content(Said::Value(content)) => push_content(content, out)?,
        Declaration::Content(_) => out.push_str("content")?,
        Declaration::Resets(_) => out.push_str("counter-reset")?,
        Declaration::Increments(_) => out.push_str("counter-increment")?,
        Declaration::Assigns(_) => out.push_str("counter-set")?,
        Declaration::ListStyle(_) => out.push_str("list-style")?,
        Declaration::Quotes(_) => out.push_str("quotes")?,
    }
    out.push_str(if declared.important { "!" } else { "" })
}

pub fn push_declarations(all_declared: &[Declared], out: &mut Text) -> Result<(), Memory> {
    let mut between = "";
    for declared in all_declared {
        out.push_str(between)?;
        push_declaration(declared, out)?;
        between = ";";
    }
    Ok(())
}

fn push_descriptor(descriptor: &Descriptor, out: &mut Text) -> Result<(), Memory> {
    match descriptor {
        Descriptor::System(_) => out.push_str("system"),
        Descriptor::Negative { .. } => out.push_str("negative"),
        Descriptor::Prefix(_) => out.push_str("prefix"),
        Descriptor::Suffix(_) => out.push_str("suffix"),
        Descriptor::RangeAuto => out.push_str("range auto"),
        Descriptor::Range(_) => out.push_str("range"),
        Descriptor::Pad { .. } => out.push_str("pad"),
        Descriptor::Fallback(_) => out.push_str("fallback"),
        Descriptor::Symbols(symbols) => {
            out.push_str("symbols ")?;
            push_number(symbols.len(), out)
        }
        Descriptor::Additive(_) => out.push_str("additive-symbols"),
    }
}

fn push_selectors(selectors: &[Selector], out: &mut Text) -> Result<(), Memory> {
    let mut between = "";
    for selector in selectors {
        out.push_str(between)?;
        push_selector(selector, out)?;
        between = ",";
    }
    Ok(())
}

fn push_rules(rules: &[StyleRule], out: &mut Text) -> Result<(), Memory> {
    for rule in rules {
        push_selectors(rule.selectors.as_slice(), out)?;
        out.push('{')?;
        push_declarations(rule.declared.as_slice(), out)?;
        out.push('}')?;
    }
    Ok(())
}

fn push_descriptors(descriptors: &[Descriptor], out: &mut Text) -> Result<(), Memory> {
    let mut between = "";
    for descriptor in descriptors {
        out.push_str(between)?;
        push_descriptor(descriptor, out)?;
        between = ";";
    }
    Ok(())
}

fn push_styles(styles: &[StyleDef], out: &mut Text) -> Result<(), Memory> {
    for style in styles {
        push_all(&["@", style.name.as_str(), "{"], out)?;
        push_descriptors(style.descriptors.as_slice(), out)?;
        out.push('}')?;
    }
    Ok(())
}

pub fn push_sheet(sheet: &Sheet, out: &mut Text) -> Result<(), Memory> {
    push_rules(sheet.rules.as_slice(), out)?;
    push_styles(sheet.styles.as_slice(), out)
}
