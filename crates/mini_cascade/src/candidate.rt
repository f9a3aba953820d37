//! Declarations that apply, and the greatest of them.

ghost use Rattle.std.specs.Prelude.{◌≡◌, ◌++◌, ◌∷◌, [], map, filter, option_map, option_copied, is_some, OnOk, Some};
ghost use Rattle.mini_cascade.specs.Greatest.{greater, greatest};
ghost use Rattle.mini_cascade.specs.Declarations.{Applied, ranked};
ghost use Rattle.mini_cascade.specs.Styles.{gives_way, cascaded};
ghost use Rattle.mini_cascade.specs.declared.candidate.Candidate.{Candidate};

use crate::property::Property;
use crate::rank::{Rank, is_outranked};
use plain_types::declaration::{Declaration, Said};
use plain_types::memory::Memory;
use std::alloc::Global;
use std::marker::Model;

/// A declaration that applies, with its rank.
#[derive(Clone, Copy)]
pub(crate) struct Candidate<'a> {
    pub(crate) rank: Rank,
    pub(crate) what: &'a Declaration,
}

/// Declarations that apply, in the order in which they appear.
#[derive(Drop)]
pub(crate) struct Candidates<'a> {
    items: Vec<Candidate<'a>>,
}

impl<'a> Model for Candidates<'a> {
    ghost use Rattle.std.specs.Prelude.{List, map};
    ghost use Rattle.mini_cascade.specs.Declarations.{Applied, ranked};
    ghost use Rattle.mini_cascade.specs.declared.candidate.Candidate.{Candidate};

    ghost Value = { List Applied };

    ghost view = { λ candidates. map (λ (c : Candidate). ranked c.rank c.what.now) candidates.items.items };
}

/// The greater of a declaration that may be missing and of one after it.
fn greater<'a>(held: Option<Candidate<'a>>, later: Candidate<'a>) -> Candidate<'a>
    ensures { Some (ranked result.rank result.what.now) ≡ greater gives_way (option_map (λ (c : Candidate). ranked c.rank c.what.now) held.entry) (Some (ranked later.entry.rank later.entry.what.now)) }
{
    match held {
        Some(held) if is_outranked(&later.rank, &held.rank) => held,
        _ => later,
    }
}

/// The greatest declaration of a property.
fn winner<'a, V, P: Property<V>>(candidates: &[Candidate<'a>]) -> Option<Candidate<'a>>
    ensures { option_map (λ (c : Candidate). ranked c.rank c.what.now) result ≡ greatest gives_way (filter (λ (a : Applied). is_some (P.definition.said_by a.what)) (map (λ (c : Candidate). ranked c.rank c.what.now) candidates.now)) }
{
    let mut best: Option<Candidate<'a>> = None;
    for candidate in candidates {
        if P::said(candidate.what).is_some() {
            best = Some(greater(best, *candidate));
        }
    }
    best
}

impl<'a> Candidates<'a> {
    /// No declarations. It takes no memory.
    pub(crate) fn new(alloc: Global) -> Candidates<'a>
        ensures empty { result ≡ [] }
    {
        Candidates {
            items: Vec::new(alloc),
        }
    }

    /// Appends a declaration.
    pub(crate) fn push(&mut self, rank: Rank, what: &'a Declaration) -> Result<(), Memory>
        ensures ok { OnOk result (self.new ≡ self.old ++ ranked rank what.now ∷ []) }
    {
        self.items.push(Candidate { rank, what })?;
        Ok(())
    }

    /// What the greatest declaration of a property says.
    pub(crate) fn cascaded<V, P: Property<V>>(&self) -> Option<&'a Said<V>>
        ensures { option_copied result ≡ cascaded self.now P.definition }
    {
        P::said(winner::<V, P>(self.items.as_slice())?.what)
    }
}
