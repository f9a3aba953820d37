//! The operands of commands.

ghost use Rattle.std.specs.Prelude.{IfErr, IfOk};
ghost use Rattle.std.specs.Str.{chars, IsUtf8};
ghost use Rattle.xml_definitions.specs.Texts.{IsFragmentText};
ghost use Rattle.edit_script.specs.Machinery.LineFaults.{IsLineFault};
ghost use Rattle.edit_script.specs.Machinery.Operands.{AreOperands};
ghost use Rattle.edit_script.specs.Machinery.Words.{IsNameAndValue, IsNameText};
ghost use Rattle.edit_script.specs.declared.keyword.Keyword.TheVariants as keywords;

use crate::action::Action;
use crate::keyword::Keyword;
use crate::line_fault::LineFault;
use crate::path::read_path;
use crate::words::{read_position, split_word};
use plain_types::edit::Edit;
use plain_types::text::Text;
use plain_types::tree::Tree;
use std::alloc::Global;
use xhtml_items::text::split_once;
use xhtml_reader::fault::DocFault;
use xhtml_reader::{is_name, read_fragment};

fn read_name(alloc: Global, text: &str) -> Result<Text, LineFault>
    ensures found { IfOk result (IsNameText (chars text.now)) }
    ensures fault { IfErr result (IsLineFault (IsNameText (chars text.now))) }
{
    if is_name(text) {
        Ok(Text::from_str(alloc, text)?)
    } else {
        Err(LineFault::NoForm)
    }
}

fn read_markup(alloc: Global, text: &str) -> Result<Tree, LineFault>
    ensures found { IfOk result (IsFragmentText (chars text.now)) }
    ensures fault { IfErr result (IsLineFault (IsFragmentText (chars text.now))) }
{
    match read_fragment(alloc, text) {
        Ok(fragment) => Ok(fragment),
        Err(DocFault::Malformed { .. }) => Err(LineFault::NoForm),
        Err(DocFault::Memory) => Err(LineFault::Memory),
    }
}

/// A name, and the value behind its space, which is empty where there is no space.
fn split_value(text: &str) -> (&str, &str)
    ensures found { IsNameAndValue (chars text.now) (chars result.0.now) (chars result.1.now) }
    ensures name { IsUtf8 result.0.now }
    ensures value { IsUtf8 result.1.now }
{
    match split_once(" ", text) {
        Some(parts) => parts,
        None => (text, ""),
    }
}

/// PATH INDEX MARKUP
fn read_insert(alloc: Global, operands: &str) -> Result<Action, LineFault>
    ensures found { IfOk result (AreOperands keywords.Insert (chars operands.now)) }
    ensures fault { IfErr result (IsLineFault (AreOperands keywords.Insert (chars operands.now))) }
{
    let (parent, rest) = split_word(operands)?;
    let (index, markup) = split_word(rest)?;
    let parent = read_path(alloc, parent)?;
    let index = read_position(index)?;
    let fragment = read_markup(alloc, markup)?;
    Ok(Action::Change(Edit::Insert {
        parent,
        index,
        fragment,
    }))
}

/// PATH
fn read_remove(alloc: Global, operands: &str) -> Result<Action, LineFault>
    ensures found { IfOk result (AreOperands keywords.Remove (chars operands.now)) }
    ensures fault { IfErr result (IsLineFault (AreOperands keywords.Remove (chars operands.now))) }
{
    let path = read_path(alloc, operands)?;
    Ok(Action::Change(Edit::Remove { path }))
}

/// PATH PATH INDEX
fn read_move(alloc: Global, operands: &str) -> Result<Action, LineFault>
    ensures found { IfOk result (AreOperands keywords.Move (chars operands.now)) }
    ensures fault { IfErr result (IsLineFault (AreOperands keywords.Move (chars operands.now))) }
{
    let (from, rest) = split_word(operands)?;
    let (parent, index) = split_word(rest)?;
    let from = read_path(alloc, from)?;
    let parent = read_path(alloc, parent)?;
    let index = read_position(index)?;
    Ok(Action::Change(Edit::Move {
        from,
        parent,
        index,
    }))
}

/// PATH NAME VALUE, or PATH NAME
fn read_set(alloc: Global, operands: &str) -> Result<Action, LineFault>
    ensures found { IfOk result (AreOperands keywords.Set (chars operands.now)) }
    ensures fault { IfErr result (IsLineFault (AreOperands keywords.Set (chars operands.now))) }
{
    let (path, rest) = split_word(operands)?;
    let (name, value) = split_value(rest);
    let path = read_path(alloc, path)?;
    let name = read_name(alloc, name)?;
    let value = Text::from_str(alloc, value)?;
    Ok(Action::Change(Edit::SetAttr { path, name, value }))
}

/// PATH NAME
fn read_unset(alloc: Global, operands: &str) -> Result<Action, LineFault>
    ensures found { IfOk result (AreOperands keywords.Unset (chars operands.now)) }
    ensures fault { IfErr result (IsLineFault (AreOperands keywords.Unset (chars operands.now))) }
{
    let (path, name) = split_word(operands)?;
    let path = read_path(alloc, path)?;
    let name = read_name(alloc, name)?;
    Ok(Action::Change(Edit::UnsetAttr { path, name }))
}

/// FILE
fn read_sheet(alloc: Global, operands: &str) -> Result<Action, LineFault>
    ensures found { IfOk result (AreOperands keywords.Sheet (chars operands.now)) }
    ensures fault { IfErr result (IsLineFault (AreOperands keywords.Sheet (chars operands.now))) }
{
    if operands.is_empty() {
        return Err(LineFault::NoForm);
    }
    Ok(Action::SheetFile(Text::from_str(alloc, operands)?))
}

/// Nothing.
fn read_show(operands: &str) -> Result<Action, LineFault>
    ensures found { IfOk result (AreOperands keywords.Show (chars operands.now)) }
    ensures fault { IfErr result (IsLineFault (AreOperands keywords.Show (chars operands.now))) }
{
    if operands.is_empty() {
        Ok(Action::Show)
    } else {
        Err(LineFault::NoForm)
    }
}

/// The action of these operands behind this keyword.
pub(crate) fn read_operands(
    alloc: Global,
    keyword: Keyword,
    operands: &str,
) -> Result<Action, LineFault>
    ensures found { IfOk result (AreOperands keyword (chars operands.now)) }
    ensures fault { IfErr result (IsLineFault (AreOperands keyword (chars operands.now))) }
{
    match keyword {
        Keyword::Insert => read_insert(alloc, operands),
        Keyword::Remove => read_remove(alloc, operands),
        Keyword::Move => read_move(alloc, operands),
        Keyword::Set => read_set(alloc, operands),
        Keyword::Unset => read_unset(alloc, operands),
        Keyword::Sheet => read_sheet(alloc, operands),
        Keyword::Show => read_show(operands),
    }
}
