//! Edits of a document: prepared, committed, and then taken back or settled.

ghost use Rattle.std.specs.Prelude.{◌≡◌, ℕ};
ghost use Rattle.node_arena.specs.Reversals.{IsReady, tree_after, IsReversal, tree_before, is_used, FreesGone};

use crate::arena::Arena;
use crate::laws::arena_holds_document;
use crate::prepared::Prepared;
use crate::reversal::Reversal;

impl Arena {
    /// Does a prepared edit. It takes no memory. Nodes that stay keep their keys, and the keys of nodes
    /// that go stay used until the edit is settled. Time linear in the number of the siblings behind the
    /// nodes that come and go.
    pub fn commit(&mut self, prepared: Prepared) -> Reversal
        requires { IsReady self.old prepared }
        ensures tree { self.new.tree ≡ tree_after self.old prepared }
        ensures reversal { IsReversal self.new result }
        ensures before { tree_before self.new result ≡ self.old.tree }
        ensures used { (key : ℕ) → is_used self.new key ≡ is_used self.old key }
    {
        let Prepared { change } = prepared;
        Reversal {
            change: self.apply(change),
        }
    }

    /// Takes back the last edit: the tree and its keys are those from before it. The keys of inserted
    /// nodes are free again. It takes no memory, and time linear in the number of those nodes and of the
    /// siblings behind the nodes that come and go.
    pub fn revert(&mut self, reversal: Reversal)
        requires { IsReversal self.old reversal }
        ensures tree { self.new.tree ≡ tree_before self.old reversal }
        ensures freed { FreesGone self.old.tree self.new.tree self.old self.new }
    {
        let Reversal { change } = reversal;
        let undone = self.apply(change);
        arena_holds_document(self);
        self.give_up(&undone);
    }

    /// Ends the last edit: it stays, and can't be taken back. The keys of removed nodes are free again. It
    /// takes no memory, and time linear in the number of those nodes.
    pub fn settle(&mut self, reversal: Reversal)
        requires { IsReversal self.old reversal }
        ensures tree { self.new.tree ≡ self.old.tree }
        ensures freed { FreesGone (tree_before self.old reversal) self.old.tree self.old self.new }
    {
        arena_holds_document(self);
        let Reversal { change } = reversal;
        self.give_up(&change);
    }
}
