//! Attributes that are set and unset.

ghost use Rattle.std.specs.Prelude.{◌≡◌, ◌&&◌, not, IfOk, if◌then◌else◌};
ghost use Rattle.node_arena.specs.Edits.{with_attr, without_attr};
ghost use Rattle.plain_types.specs.Attributes.{is_named};

use plain_types::attr::Attr;
use plain_types::duplicate::Duplicate;
use plain_types::list::List;
use plain_types::memory::Memory;
use plain_types::text::Text;
use std::alloc::Global;

/// Whether an attribute is of this name, compared as written.
fn is_named(attr: &Attr, name: &Text) -> bool
    ensures { result ≡ is_named name.now attr.now }
{
    attr.name.as_str() == name.as_str()
}

/// Whether an attribute is the first of this name, where one was met or not.
fn is_replaced(met: bool, attr: &Attr, name: &Text) -> bool
    ensures { result ≡ (not met && is_named name.now attr.now) }
{
    !met && is_named(attr, name)
}

fn new_attr(alloc: Global, name: &Text, value: &Text) -> Result<Attr, Memory>
    ensures { IfOk result (λ attr. attr ≡ record { name = name.now; value = value.now }) }
{
    Ok(Attr {
        name: name.duplicate(alloc)?,
        value: value.duplicate(alloc)?,
    })
}

/// A copy of an attribute, or another in its place.
fn next_attr(
    alloc: Global,
    attr: &Attr,
    replaced: bool,
    name: &Text,
    value: &Text,
) -> Result<Attr, Memory>
    ensures { IfOk result (λ copy. copy ≡ (if replaced then record { name = name.now; value = value.now } else attr.now)) }
{
    if replaced {
        new_attr(alloc, name, value)
    } else {
        attr.duplicate(alloc)
    }
}

/// Copies of attributes, where that of this name has this value. One that isn't there goes last.
pub(crate) fn with_attr(
    alloc: Global,
    attrs: &[Attr],
    name: &Text,
    value: &Text,
) -> Result<List<Attr>, Memory>
    ensures { IfOk result (λ list. list ≡ with_attr name.now value.now attrs.now) }
{
    let mut list = List::new(alloc);
    let mut placed = false;
    for attr in attrs {
        let here = is_replaced(placed, attr, name);
        list.push(next_attr(alloc, attr, here, name, value)?)?;
        placed |= here;
    }
    if !placed {
        list.push(new_attr(alloc, name, value)?)?;
    }
    Ok(list)
}

/// Copies of attributes, without that of this name.
pub(crate) fn without_attr(alloc: Global, attrs: &[Attr], name: &Text) -> Result<List<Attr>, Memory>
    ensures { IfOk result (λ list. list ≡ without_attr name.now attrs.now) }
{
    let mut list = List::new(alloc);
    for attr in attrs {
        if !is_named(attr, name) {
            list.push(attr.duplicate(alloc)?)?;
        }
    }
    Ok(list)
}
