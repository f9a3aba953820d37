//! A document with the positions of its elements among their siblings.

ghost use Rattle.std.specs.Prelude.{◌≡◌};
ghost use Rattle.forest.specs.Spots.{IsLive};
ghost use Rattle.selector_match.specs.Elements.{standing_of};

use crate::counting::keep_counts;
use crate::element::Element;
use crate::filling::keep_parts;
use crate::kept::Kept;
use crate::side::Side;
use node_arena::arena::Arena;
use std::alloc::Global;
use std::marker::Model;

/// A document, with what was counted of the siblings of its elements. A clause sees the document.
///
/// Counts are kept for all children of an element at once, by [`Siblings::keep`], after one of them was asked for.
/// They stand as long as the document is borrowed, since it does not change.
#[derive(Drop)]
pub struct Siblings<'a> {
    arena: &'a Arena,
    kept: Kept,
}

impl<'a> Model for Siblings<'a> {
    ghost use Rattle.forest.specs.Forest.{Forest, coded_forest};
    ghost use Rattle.forest.specs.Keys.{Keyed, coded_keyed};
    ghost use Rattle.plain_types.specs.declared.node.Node.{Node};
    ghost use Rattle.plain_types.specs.contracts.node.Node as node;
    ghost use Rattle.selector_match.specs.Machinery.Kept.{AreRight};

    ghost Value = { Forest (Keyed Node) };

    ghost coded = { coded_forest (coded_keyed node.the_row.coded) };

    ghost view = { λ siblings. siblings.arena.now.tree };

    ghost invariant = { λ siblings. AreRight siblings.arena.now.tree siblings.kept };
}

impl<'a> Siblings<'a> {
    /// A document of which nothing is counted yet. It takes no memory.
    pub fn new(alloc: Global, arena: &'a Arena) -> Siblings<'a>
        ensures tree { result ≡ arena.now.tree }
    {
        Siblings {
            arena,
            kept: Kept::new(alloc),
        }
    }

    /// The document.
    pub fn arena(&self) -> &'a Arena
        ensures tree { result.now.tree ≡ self.now }
    {
        self.arena
    }

    /// The element of this key; a text is none.
    pub(crate) fn element(&self, key: usize) -> Option<Element<'_>>
        requires { IsLive self.now key }
        ensures { result ≡ standing_of self.now key }
    {
        Element::of(self.arena, &self.kept, key)
    }

    /// Keeps what was asked for and is not kept: counts of siblings, and what came of matching the left part of a selector
    /// over many ancestors or siblings. It is to be called after selectors were matched with the node of this key: then the
    /// same of it, of its siblings and of its ancestors is there in constant time. The first 16 counts that are asked for
    /// are not kept, and no outcome before as many nodes were passed by for it as it takes to keep those of all.
    ///
    /// Where memory is refused, nothing is said: what is missing is found each time that it is asked for. Time linear in
    /// the number of siblings of the node and of its ancestors, where something was missing, and in the depth of the node;
    /// that for each left part that is kept, at most 64 at a time. Some 50 bytes for each outcome, of which at most 2^20 are
    /// kept and those of one part more.
    pub fn keep(&mut self, alloc: Global, key: usize)
        requires live { IsLive self.old key }
        ensures tree { self.new ≡ self.old }
    {
        self.keep_missed_counts(alloc, key);
        self.keep_wanted_outcomes(alloc, key);
    }

    /// Keeps counts of siblings, where one was asked for that is not kept.
    fn keep_missed_counts(&mut self, alloc: Global, key: usize)
        requires live { IsLive self.old key }
        ensures tree { self.new ≡ self.old }
    {
        let Some(side) = self.kept.take_missed() else {
            return;
        };
        let Some(missing) = self.kept.nearest_without(self.arena, key, side) else {
            return;
        };
        let _refused = match side {
            Side::Earlier => keep_counts(alloc, &mut self.kept.earlier, self.arena, missing, side),
            Side::Later => keep_counts(alloc, &mut self.kept.later, self.arena, missing, side),
        };
    }

    /// Keeps outcomes of the left parts of which one was asked for that is not kept.
    fn keep_wanted_outcomes(&mut self, alloc: Global, key: usize)
        requires live { IsLive self.old key }
        ensures tree { self.new ≡ self.old }
    {
        let wanted = self.kept.outcomes.take_wanted();
        keep_parts(alloc, &mut self.kept, self.arena, wanted, key);
    }
}
