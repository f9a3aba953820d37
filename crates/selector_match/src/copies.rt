//! Copies of selectors.

ghost use Rattle.std.specs.Prelude.{◌≡◌, IfOk};

use plain_types::duplicate::Duplicate;
use plain_types::list::List;
use plain_types::memory::Memory;
use plain_types::selector::{Compound, Selector, Simple};
use plain_types::selector_parts::Join;
use std::alloc::Global;

/// A copy of a simple selector.
#[cycle(copies)]
fn copy_of_simple(alloc: Global, simple: &Simple) -> Result<Simple, Memory>
    ensures { IfOk result (λ copy. copy ≡ simple.now) }
{
    Ok(match simple {
        Simple::Any => Simple::Any,
        Simple::Element(name) => Simple::Element(name.duplicate(alloc)?),
        Simple::Id(id) => Simple::Id(id.duplicate(alloc)?),
        Simple::Class(class) => Simple::Class(class.duplicate(alloc)?),
        Simple::Root => Simple::Root,
        Simple::Empty => Simple::Empty,
        Simple::Never => Simple::Never,
        Simple::Attr {
            name,
            test,
            value,
            fold,
        } => Simple::Attr {
            name: name.duplicate(alloc)?,
            test: *test,
            value: value.duplicate(alloc)?,
            fold: *fold,
        },
        Simple::Only { same_type } => Simple::Only {
            same_type: *same_type,
        },
        Simple::Nth {
            a,
            b,
            from_end,
            same_type,
        } => Simple::Nth {
            a: *a,
            b: *b,
            from_end: *from_end,
            same_type: *same_type,
        },
        Simple::Is(choices) => Simple::Is(copies_of(alloc, choices.as_slice())?),
        Simple::Weightless(choices) => Simple::Weightless(copies_of(alloc, choices.as_slice())?),
        Simple::Not(choices) => Simple::Not(copies_of(alloc, choices.as_slice())?),
    })
}

/// A copy of a compound selector.
#[cycle(copies)]
fn copy_of_compound(alloc: Global, compound: &Compound) -> Result<Compound, Memory>
    ensures { IfOk result (λ copy. copy ≡ compound.now) }
{
    let mut simples = List::new(alloc);
    for simple in compound.simples.as_slice() {
        simples.push(copy_of_simple(alloc, simple)?)?;
    }
    Ok(Compound { simples })
}

/// Copies of compound selectors.
#[cycle(copies)]
fn copies_of(alloc: Global, compounds: &[Compound]) -> Result<List<Compound>, Memory>
    ensures { IfOk result (λ copies. copies ≡ compounds.now) }
{
    let mut copies = List::new(alloc);
    for compound in compounds {
        copies.push(copy_of_compound(alloc, compound)?)?;
    }
    Ok(copies)
}

/// Copies of combinators.
fn copies_of_joins(alloc: Global, joins: &[Join]) -> Result<List<Join>, Memory>
    ensures { IfOk result (λ copies. copies ≡ joins.now) }
{
    let mut copies = List::new(alloc);
    for join in joins {
        copies.push(*join)?;
    }
    Ok(copies)
}

/// A copy of a selector. Time and memory linear in it.
pub(crate) fn copy_of(alloc: Global, selector: &Selector) -> Result<Selector, Memory>
    ensures { IfOk result (λ copy. copy ≡ selector.now) }
{
    Ok(Selector {
        compounds: copies_of(alloc, selector.compounds.as_slice())?,
        joins: copies_of_joins(alloc, selector.joins.as_slice())?,
        pseudo: selector.pseudo,
    })
}
