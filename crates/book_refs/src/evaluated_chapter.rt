//! One chapter of a volume, evaluated.

ghost use Rattle.std.specs.Prelude.{◌≡◌, ◌≤◌, ◌+◌, ◌*◌, Err, IfOk, IfErr, IfSome, IsSome, OnOk, OnErr, Some, is_some, option_copied};
ghost use Rattle.std.specs.Option.{option_and_then};
ghost use Rattle.std.specs.Str.{bytes_eq, chars};
ghost use Rattle.book_definitions.specs.Fresh.{chapter_source};
ghost use Rattle.book_definitions.specs.Chapters.{chapter_styles};
ghost use Rattle.dirty_walk.specs.FreshPieces.{pieces_to_refer};
ghost use Rattle.dirty_walk.specs.WorkBounds.{IsWithinWork, StopsWithinWork};
ghost use Rattle.document_walk.specs.Elements.{element_count, one_where};
ghost use Rattle.forest.specs.Spots.{IsLive};
ghost use Rattle.generated_texts.specs.References.{first_holder};
ghost use Rattle.marker_engine.specs.declared.edit_fault.EditFault.TheVariants as faults;
ghost use Rattle.marker_engine.specs.Edited.{edit_fault, edited};
ghost use Rattle.node_arena.specs.Document.{HasElementRoot, IsKeyedDocument};
ghost use Rattle.node_arena.specs.Nodes.{name_of};
ghost use Rattle.book_refs.specs.Edited.{IsEditedChapter};
ghost use Rattle.book_refs.specs.Given.{given_source};
ghost use Rattle.book_refs.specs.Machinery.VolumeBoxes.{box_at, entry_alone};
ghost use Rattle.book_refs.specs.Volumes.{keyed_source, source_of};

use crate::chapter::Chapter;
use content_eval::generated::Piece;
use generated_texts::entry::NodeEntry;
use generated_texts::laws::elements_have_entries;
use marker_engine::edit_fault::EditFault;
use marker_engine::engine::Engine;
use node_arena::arena::Arena;
use node_arena::laws::arena_holds_document;
use plain_types::box_kind::BoxKind;
use plain_types::duplicate::Duplicate;
use plain_types::edit::Edit;
use plain_types::memory::Memory;
use plain_types::table::Table;
use plain_types::text::Text;
use std::alloc::Global;
use std::marker::Model;
use std::sync::ledger::Ledger;
use steps::Steps;

/// A chapter, whose document is evaluated under its sheet as if it stood alone.
pub(crate) struct EvaluatedChapter {
    name: Text,
    engine: Engine,
}

impl Drop for EvaluatedChapter {
    fn drop(self) {
        let EvaluatedChapter { name: _, engine: _ } = self;
    }
}

impl Model for EvaluatedChapter {
    ghost use Rattle.plain_types.specs.contracts.node.Node as node;
    ghost use Rattle.book_definitions.specs.Chapters.{Chapter};
    ghost use Rattle.book_refs.specs.Volumes.{coded_chapter, evaluated_chapter};

    ghost Value = { Chapter };

    ghost coded = { coded_chapter node.the_row.coded };

    ghost view = { λ chapter. evaluated_chapter chapter.name chapter.engine };
}

impl EvaluatedChapter {
    /// The chapter, evaluated. It takes what `Engine::start` takes, and memory and time for a copy of the document and
    /// the name.
    pub(crate) fn start<L: Ledger>(
        alloc: Global,
        chapter: &Chapter,
        steps: &mut Steps<L>,
    ) -> Result<EvaluatedChapter, Memory>
        requires element { HasElementRoot chapter.now.document }
        ensures source { IfOk result (λ evaluated. chapter_source evaluated ≡ given_source chapter.now) }
        ensures document { IfOk result (λ evaluated. IsKeyedDocument evaluated.document) }
        ensures steps { steps.new ≤ steps.old + 7 * element_count chapter.now.document }
    {
        let name = chapter.name.duplicate(alloc)?;
        let document = chapter.document.duplicate(alloc)?;
        let engine = Engine::start(alloc, document, chapter.sheet.as_str(), steps)?;
        arena_holds_document(engine.book().arena());
        Ok(EvaluatedChapter { name, engine })
    }

    /// Does an edit of the document or the sheet, as `Engine::apply` does.
    pub(crate) fn apply<L: Ledger>(
        &mut self,
        alloc: Global,
        edit: &Edit,
        steps: &mut Steps<L>,
    ) -> Result<(), EditFault>
        ensures ok { OnOk result (IsEditedChapter edit.now self.old self.new) }
        ensures document { IsKeyedDocument self.new.document }
        ensures refused { IfErr (edited (source_of self.old) edit.now) (λ fault. result ≡ Err (edit_fault fault)) }
        ensures memory { IfOk (edited (source_of self.old) edit.now) (λ _. IfErr result (λ fault. fault ≡ faults.Memory)) }
        ensures failed { OnErr result (self.new ≡ self.old) }
        ensures within_work { OnOk result (IsWithinWork edit.now (keyed_source self.old) (keyed_source self.new) steps.old steps.new) }
        ensures stops_within_work { OnErr result (StopsWithinWork edit.now (keyed_source self.old) steps.old steps.new) }
        ensures steps { IfOk (edited (source_of self.old) edit.now) (λ source. steps.new ≤ steps.old + (12 * element_count source.tree + 2 * element_count (source_of self.old).tree)) }
        ensures no_steps { IfErr (edited (source_of self.old) edit.now) (λ _. steps.new ≡ steps.old) }
    {
        let done = self.engine.apply(alloc, edit, steps);
        arena_holds_document(self.engine.book().arena());
        done
    }

    /// Whether the chapter has this name, which is compared as written. It takes no memory, and time linear in the name.
    pub(crate) fn is_named(&self, name: &str) -> bool
        ensures test { result ≡ bytes_eq (chars name.now) self.now.name }
    {
        name == self.name.as_str()
    }

    /// The document under its keys. It takes no memory and constant time.
    pub(crate) fn arena(&self) -> &Arena
        ensures tree { result.now.tree ≡ self.now.document }
        ensures document { IsKeyedDocument self.now.document }
    {
        let arena = self.engine.book().arena();
        arena_holds_document(arena);
        arena
    }

    /// The chapter's counter styles. It takes no memory and constant time.
    pub(crate) fn table(&self) -> &Table
        ensures table { result.now ≡ chapter_styles self.now }
    {
        self.engine.book().table()
    }

    /// The first element in tree order that has this id. It takes what `Book::first` takes.
    pub(crate) fn first(&self, id: &str) -> Option<usize>
        ensures first { result ≡ first_holder self.now.document (chars id.now) }
        ensures element { IfSome result (λ key. IsSome (name_of self.now.document key)) }
    {
        self.engine.book().first(id)
    }

    /// What is kept of an element, where the document stands alone. It takes no memory, constant time, and one step at most.
    pub(crate) fn element_entry<L: Ledger>(&self, key: usize, steps: &mut Steps<L>) -> &NodeEntry
        requires element { IsSome (name_of self.now.document key) }
        ensures entry { Some result.now ≡ entry_alone self.now key }
        ensures steps { steps.new ≤ steps.old + 1 }
    {
        self.engine.book().entry(key, steps)
    }

    /// The same of a node: of a text nothing is kept, and it takes no step.
    pub(crate) fn entry<L: Ledger>(&self, key: usize, steps: &mut Steps<L>) -> Option<&NodeEntry>
        requires live { IsLive self.now.document key }
        ensures entry { option_copied result ≡ entry_alone self.now key }
        ensures steps { steps.new ≤ steps.old + one_where (is_some (entry_alone self.now key)) }
    {
        // Exactly the elements have entries.
        elements_have_entries();
        let _name = self.arena().name(key)?;
        Some(self.element_entry(key, steps))
    }

    /// The pieces of a box of an element, where one of them has a url. It takes what `Book::pieces` takes.
    pub(crate) fn pieces<L: Ledger>(
        &self,
        key: usize,
        kind: BoxKind,
        steps: &mut Steps<L>,
    ) -> Option<&[Piece]>
        ensures pieces { option_copied result ≡ option_and_then pieces_to_refer (box_at self.now key kind) }
        ensures steps { steps.new ≤ steps.old + 1 }
    {
        self.engine.book().pieces(key, kind, steps)
    }
}
