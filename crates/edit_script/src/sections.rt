//! The sections of a document that is made up.

ghost use Rattle.std.specs.Prelude.{◌≡◌, ◌<◌, ◌∷◌, [], IfOk, IsTrue, OnOk};
ghost use Rattle.forest.specs.Forest.{Empty};
ghost use Rattle.plain_types.specs.Building.{is_inside};
ghost use Rattle.plain_types.specs.Tree.{HasDistinctNames};
ghost use Rattle.reading.specs.Characters.{is_ascii};
ghost use Rattle.edit_script.specs.Draws.{state_after};
ghost use Rattle.edit_script.specs.Generator.{attr, element_node, heading, item_list, link, section, sections};
ghost use Rattle.edit_script.specs.Machinery.Putting.{with_trees};

use crate::draws::Draws;
use crate::texts::{copied, numbered};
use plain_types::attr::Attr;
use plain_types::list::List;
use plain_types::memory::Memory;
use plain_types::text::Text;
use plain_types::tree_builder::TreeBuilder;
use std::alloc::Global;

fn one_attr(alloc: Global, name: &str, value: Text) -> Result<List<Attr>, Memory>
    requires { IsTrue (is_ascii name.now) }
    ensures one { IfOk result (λ attrs. attrs ≡ attr name.now value ∷ []) }
    ensures distinct { IfOk result HasDistinctNames }
{
    let mut attrs = List::new(alloc);
    let name = copied(alloc, name)?;
    attrs.push(Attr { name, value })?;
    Ok(attrs)
}

/// An element without children.
fn put_empty(
    alloc: Global,
    name: &str,
    attrs: List<Attr>,
    builder: &mut TreeBuilder,
) -> Result<(), Memory>
    requires inside { IsTrue (is_inside builder.old) }
    requires ascii { IsTrue (is_ascii name.now) }
    requires distinct { HasDistinctNames attrs }
    ensures ok { OnOk result (builder.new ≡ with_trees builder.old (element_node name.now attrs Empty Empty)) }
{
    builder.start(copied(alloc, name)?, attrs)?;
    builder.end();
    Ok(())
}

/// `<h2>k</h2>`
fn put_heading(alloc: Global, number: u32, builder: &mut TreeBuilder) -> Result<(), Memory>
    requires { IsTrue (is_inside builder.old) }
    ensures ok { OnOk result (builder.new ≡ with_trees builder.old (heading number Empty)) }
{
    builder.start(copied(alloc, "h2")?, List::new(alloc))?;
    builder.text(numbered(alloc, "", number)?)?;
    builder.end();
    Ok(())
}

/// `<ol><li/><li/><li/></ol>`
fn put_items(alloc: Global, builder: &mut TreeBuilder) -> Result<(), Memory>
    requires { IsTrue (is_inside builder.old) }
    ensures ok { OnOk result (builder.new ≡ with_trees builder.old (item_list Empty)) }
{
    builder.start(copied(alloc, "ol")?, List::new(alloc))?;
    put_empty(alloc, "li", List::new(alloc), builder)?;
    put_empty(alloc, "li", List::new(alloc), builder)?;
    put_empty(alloc, "li", List::new(alloc), builder)?;
    builder.end();
    Ok(())
}

/// `<p><a href="#sj"/></p>`
fn put_link(alloc: Global, target: u32, builder: &mut TreeBuilder) -> Result<(), Memory>
    requires { IsTrue (is_inside builder.old) }
    ensures ok { OnOk result (builder.new ≡ with_trees builder.old (link target Empty)) }
{
    let address = numbered(alloc, "#s", target)?;
    let attrs = one_attr(alloc, "href", address)?;
    builder.start(copied(alloc, "p")?, List::new(alloc))?;
    put_empty(alloc, "a", attrs, builder)?;
    builder.end();
    Ok(())
}

/// `<section id="sk">`, and in it a heading, items and a link.
fn put_section(
    alloc: Global,
    number: u32,
    target: u32,
    builder: &mut TreeBuilder,
) -> Result<(), Memory>
    requires { IsTrue (is_inside builder.old) }
    ensures ok { OnOk result (builder.new ≡ with_trees builder.old (section number target Empty)) }
{
    let id = numbered(alloc, "s", number)?;
    let attrs = one_attr(alloc, "id", id)?;
    builder.start(copied(alloc, "section")?, attrs)?;
    put_heading(alloc, number, builder)?;
    put_items(alloc, builder)?;
    put_link(alloc, target, builder)?;
    builder.end();
    Ok(())
}

/// So many sections, each with a link to one that is drawn.
pub(crate) fn put_sections(
    alloc: Global,
    count: u32,
    draws: &mut Draws,
    builder: &mut TreeBuilder,
) -> Result<(), Memory>
    requires { IsTrue (is_inside builder.old) }
    ensures ok { OnOk result (builder.new ≡ with_trees builder.old (sections count count 0 draws.old.state)) }
    ensures state { OnOk result (draws.new.state ≡ state_after count draws.old.state) }
{
    for number in 0..count {
        let target = draws.draw(count);
        put_section(alloc, number, target, builder)?;
    }
    Ok(())
}
