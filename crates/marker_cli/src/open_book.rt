//! A book that the commands of a script change.

ghost use Rattle.std.specs.Prelude.{◌≡◌, ◌<◌, ◌≤◌, ◌+◌, Err, IfErr, IfOk, IfSome, None, Ok, OnErr, OnOk, length, map};
ghost use Rattle.std.specs.List.{AllByRecursion};
ghost use Rattle.std.specs.Str.{chars};
ghost use Rattle.book_definitions.specs.Chapters as chapters;
ghost use Rattle.book_definitions.specs.Fresh.{chapter_source, fresh_chapter_dump};
ghost use Rattle.book_refs.specs.Given.{MakeVolume, given_source};
ghost use Rattle.marker_engine.specs.declared.edit_fault.EditFault.TheVariants as faults;
ghost use Rattle.marker_engine.specs.Edited.{edit_fault};
ghost use Rattle.node_arena.specs.Document.{IsKeyedDocument};
ghost use Rattle.node_arena.specs.Edits.{place_fault};
ghost use Rattle.ports.specs.Causes.{Rose};
ghost use Rattle.ports.specs.Grown.{grown, GrowsByFront};
ghost use Rattle.marker_cli.specs.BookSteps.{begin_steps, show_chapter_steps};
ghost use Rattle.marker_cli.specs.EditSteps.{edit_steps};
ghost use Rattle.marker_cli.specs.Ends.{IsPutCaused};
ghost use Rattle.marker_cli.specs.Machinery.Takings.{TakesEdit};
ghost use Rattle.marker_cli.specs.OpenBooks.{edited_book, entered, opened, version_in, volume_of};
ghost use Rattle.marker_cli.specs.OpenVolumes.{AnswersEnter, book_of, present_document, turned_to, with_document};

use crate::status::Status;
use book_refs::chapter::Chapter;
use book_refs::laws::{volume_holds_chapters, work_is_that_of_the_trees};
use book_refs::volume::Volume;
use edit_merge::laws::inserts_one_tree;
use marker_engine::edit_fault::EditFault;
use plain_types::edit::Edit;
use plain_types::list::List;
use plain_types::memory::Memory;
use ports::sink::Sink;
use std::alloc::Global;
use std::marker::Model;
use std::sync::ledger::Ledger;
use steps::Steps;

/// A volume, of which one chapter is the present one: commands edit and show it.
pub(crate) struct OpenBook {
    volume: Volume,
    present: usize,
}

impl Drop for OpenBook {
    fn drop(self) {
        let OpenBook {
            volume: _,
            present: _,
        } = self;
    }
}

impl Model for OpenBook {
    ghost use Rattle.std.specs.Prelude.{◌<◌, length};
    ghost use Rattle.plain_types.specs.contracts.node.Node as node;
    ghost use Rattle.marker_cli.specs.OpenVolumes.{OpenVolume, coded_open};

    ghost Value = { OpenVolume };

    ghost coded = { coded_open node.the_row.coded };

    ghost view = { λ book. record { chapters = book.volume; place = book.present } };

    ghost invariant = { λ book. book.present < length book.volume };
}

/// Each chapter of a book has a document. The function does nothing: its contract is a law.
pub(crate) fn book_holds_documents(book: &OpenBook)
    ensures { AllByRecursion (λ (chapter : chapters.Chapter). IsKeyedDocument chapter.document) book.now.chapters }
{
    volume_holds_chapters(&book.volume);
}

impl OpenBook {
    /// The volume of these chapters, one at least, of which the first is the present one.
    ///
    /// It takes what `Volume::begin` takes.
    pub(crate) fn start<L: Ledger>(
        alloc: Global,
        chapters: List<Chapter>,
        steps: &mut Steps<L>,
    ) -> Result<OpenBook, Memory>
        requires volume { MakeVolume chapters }
        requires some { 0 < length chapters }
        ensures opened { IfOk result (λ book. opened (map given_source chapters) ≡ Ok (book_of book)) }
        ensures first { IfOk result (λ book. (map chapter_source book.chapters ≡ map given_source chapters) × (book.place ≡ 0)) }
        ensures steps { steps.new ≤ steps.old + begin_steps (map given_source chapters) }
    {
        let volume = Volume::begin(alloc, chapters, steps)?;
        Ok(OpenBook { volume, present: 0 })
    }

    /// Does an edit of the present chapter, as `Engine::apply` does. After a fault the book is as before.
    pub(crate) fn apply<L: Ledger>(
        &mut self,
        alloc: Global,
        edit: &Edit,
        steps: &mut Steps<L>,
    ) -> Result<(), EditFault>
        ensures place { OnOk result (place_fault edit.now (book_of self.old).present.tree ≡ None) }
        ensures done { OnOk result (book_of self.new ≡ edited_book edit.now (book_of self.old)) }
        ensures refused { IfSome (place_fault edit.now (book_of self.old).present.tree) (λ fault. result ≡ Err (edit_fault fault)) }
        ensures memory { place_fault edit.now (book_of self.old).present.tree ≡ None → IfErr result (λ fault. fault ≡ faults.Memory) }
        ensures stays { OnErr result (self.new ≡ self.old) }
        ensures steps { steps.new ≤ steps.old + edit_steps (version_in (book_of self.old).present) edit.now }
        ensures left { OnOk result (self.new ≡ with_document self.old (present_document self.new)) }
        ensures takes { TakesEdit result edit.now (present_document self.old) (present_document self.new) steps.old steps.new }
    {
        inserts_one_tree(edit);
        volume_holds_chapters(&self.volume);
        let outcome = self.volume.apply(alloc, self.present, edit, steps);
        volume_holds_chapters(&self.volume);
        outcome
    }

    /// Makes the chapter of this name the present one, if there is one, and tells whether there is. It takes no memory, and
    /// time linear in the number of chapters and in the name.
    pub(crate) fn enter(&mut self, name: &str) -> bool
        ensures answer { AnswersEnter result (book_of self.old) (book_of self.new) (entered (chars name.now) (book_of self.old)) }
        ensures turned { self.new ≡ turned_to (chars name.now) self.old }
    {
        match self.volume.find(name) {
            Some(place) => {
                self.present = place;
                true
            }
            None => false,
        }
    }

    /// Puts the dump of the present chapter. Where it fails, a front of the dump went out.
    ///
    /// It takes what `Volume::show` takes.
    pub(crate) fn show<O: Sink, L: Ledger>(
        &self,
        alloc: Global,
        out: &mut O,
        steps: &mut Steps<L>,
    ) -> Result<(), Status>
        ensures ok { OnOk result (O.out out.new ≡ grown (O.out out.old) (fresh_chapter_dump (volume_of (book_of self.now)) (book_of self.now).present)) }
        ensures failed { OnErr result (GrowsByFront (O.out out.old) (O.out out.new) (fresh_chapter_dump (volume_of (book_of self.now)) (book_of self.now).present)) }
        ensures cause { IsPutCaused (Rose (O.faults out.old) (O.faults out.new)) result }
        ensures faults { O.faults out.old ≤ O.faults out.new }
        ensures steps { steps.new ≤ steps.old + show_chapter_steps (book_of self.now) }
    {
        // The steps of a chapter are told by keys, and the volume here has none.
        volume_holds_chapters(&self.volume);
        work_is_that_of_the_trees();
        Ok(self.volume.show(alloc, self.present, out, steps)?)
    }
}
