//! Volumes of several documents.

ghost use Rattle.std.specs.Prelude.{◌≡◌, ◌<◌, ◌≤◌, ◌+◌, ◌*◌, Err, IfOk, IfErr, IfSome, OnOk, OnErr, length, map, slice_get};
ghost use Rattle.std.specs.Str.{chars};
ghost use Rattle.book_definitions.specs.Fresh.{chapter_source, fresh_chapter_dump};
ghost use Rattle.dirty_walk.specs.WorkBounds.{IsWithinWork, StopsWithinWork};
ghost use Rattle.document_walk.specs.Elements.{element_count};
ghost use Rattle.marker_engine.specs.declared.edit_fault.EditFault.TheVariants as faults;
ghost use Rattle.marker_engine.specs.Edited.{edit_fault, edited};
ghost use Rattle.ports.specs.Grown.{grown, GrowsByFront};
ghost use Rattle.ports.specs.Puts.{HasPutCause};
ghost use Rattle.book_refs.specs.Edited.{IsEditedAt};
ghost use Rattle.book_refs.specs.Given.{MakeVolume, elements_given, given_source};
ghost use Rattle.book_refs.specs.ShowWork.{chapter_work};
ghost use Rattle.book_refs.specs.Volumes.{keyed_source, place_named, source_of};

use crate::chapter::Chapter;
use crate::evaluated_chapter::EvaluatedChapter;
use crate::lines::put_chapter;
use book_definitions::laws::keys_do_not_matter;
use marker_engine::edit_fault::EditFault;
use plain_types::edit::Edit;
use plain_types::list::List;
use plain_types::memory::Memory;
use ports::put_fault::PutFault;
use ports::sink::Sink;
use std::alloc::Global;
use std::marker::Model;
use std::sync::ledger::Ledger;
use steps::Steps;

/// Several documents, each a chapter with a name and a sheet of its own, and each evaluated as if it stood alone. Contracts
/// see the list of the chapters, whose nodes have keys.
pub struct Volume {
    pub(crate) chapters: Vec<EvaluatedChapter>,
}

impl Drop for Volume {
    fn drop(self) {
        let Volume { chapters: _ } = self;
    }
}

impl Model for Volume {
    ghost use Rattle.std.specs.Prelude.{List};
    ghost use Rattle.std.specs.Coded.{coded_list};
    ghost use Rattle.plain_types.specs.contracts.node.Node as node;
    ghost use Rattle.book_definitions.specs.Chapters.{Chapter, IsVolume};
    ghost use Rattle.book_refs.specs.ShowWork.{chapter_work};
    ghost use Rattle.book_refs.specs.Volumes.{coded_chapter};

    ghost Value = { List Chapter };

    ghost coded = { coded_list (coded_chapter node.the_row.coded) };

    ghost view = { λ volume. volume.chapters.items };

    ghost invariant = { λ volume. IsVolume volume.chapters.items };
}

impl Volume {
    /// The volume of these chapters, in their order. Each name can stand before a `#`, no two chapters have one name, and
    /// each root is an element.
    ///
    /// It takes time and memory as `Engine::start` of each chapter, and for one copy of each document; `Memory` where memory
    /// is wanting. It is seven steps an element at most.
    pub fn begin<L: Ledger>(
        alloc: Global,
        chapters: List<Chapter>,
        steps: &mut Steps<L>,
    ) -> Result<Volume, Memory>
        requires volume { MakeVolume chapters }
        ensures chapters { IfOk result (λ volume. map chapter_source volume ≡ map given_source chapters) }
        ensures steps { steps.new ≤ steps.old + 7 * elements_given chapters }
    {
        let mut evaluated = Vec::new(alloc);
        for chapter in chapters.as_slice() {
            evaluated.push(EvaluatedChapter::start(alloc, chapter, steps)?)?;
        }
        Ok(Volume {
            chapters: evaluated,
        })
    }

    /// Does an edit of the chapter at this place, as `Engine::apply` does it of a document that stands alone: the other
    /// chapters stay as they are. After a fault the volume is as before, and a refused edit counts no step.
    ///
    /// It takes what `Engine::apply` takes for that chapter, whatever urls of others name it: their texts are told when they
    /// are shown.
    pub fn apply<L: Ledger>(
        &mut self,
        alloc: Global,
        place: usize,
        edit: &Edit,
        steps: &mut Steps<L>,
    ) -> Result<(), EditFault>
        requires within { place < length self.old }
        ensures ok { OnOk result (IsEditedAt place edit.now self.old self.new) }
        ensures refused { IfSome (slice_get self.old place) (λ chapter. IfErr (edited (source_of chapter) edit.now) (λ fault. result ≡ Err (edit_fault fault))) }
        ensures memory { IfSome (slice_get self.old place) (λ chapter. IfOk (edited (source_of chapter) edit.now) (λ _. IfErr result (λ fault. fault ≡ faults.Memory))) }
        ensures failed { OnErr result (self.new ≡ self.old) }
        ensures within_work { OnOk result (IfSome (slice_get self.old place) (λ before. IfSome (slice_get self.new place) (λ after. IsWithinWork edit.now (keyed_source before) (keyed_source after) steps.old steps.new))) }
        ensures stops_within_work { OnErr result (IfSome (slice_get self.old place) (λ before. StopsWithinWork edit.now (keyed_source before) steps.old steps.new)) }
        ensures steps { IfSome (slice_get self.old place) (λ chapter. IfOk (edited (source_of chapter) edit.now) (λ source. steps.new ≤ steps.old + (12 * element_count source.tree + 2 * element_count (source_of chapter).tree))) }
        ensures no_steps { IfSome (slice_get self.old place) (λ chapter. IfErr (edited (source_of chapter) edit.now) (λ _. steps.new ≡ steps.old)) }
    {
        let chapter = &mut self.chapters[place];
        chapter.apply(alloc, edit, steps)
    }

    /// Puts the dump of the chapter at this place to `out`: a line for each marker, before and after box of its document, in
    /// tree order. The urls of its boxes aim into whichever chapter they name, as the chapters stand now: their texts are told
    /// anew at each call, those of all other boxes are there already. Where it fails, a front of the dump went out.
    ///
    /// It takes time linear in the chapter and the bytes of the dump, and for each url in the chapters' names and in what it
    /// writes; and memory for the path of one node, for the nodes that it is in, and for the texts of a box that has urls.
    pub fn show<O: Sink, L: Ledger>(
        &self,
        alloc: Global,
        place: usize,
        out: &mut O,
        steps: &mut Steps<L>,
    ) -> Result<(), PutFault>
        requires within { place < length self.now }
        ensures ok { OnOk result (IfSome (slice_get self.now place) (λ own. O.out out.new ≡ grown (O.out out.old) (fresh_chapter_dump (map chapter_source self.now) (chapter_source own)))) }
        ensures failed { OnErr result (IfSome (slice_get self.now place) (λ own. GrowsByFront (O.out out.old) (O.out out.new) (fresh_chapter_dump (map chapter_source self.now) (chapter_source own)))) }
        ensures cause { HasPutCause (O.faults out.old) (O.faults out.new) result }
        ensures steps { IfSome (slice_get self.now place) (λ own. steps.new ≤ steps.old + 4 * chapter_work self.now own) }
    {
        // The documents have keys of their own, and the lines are those of any keys.
        keys_do_not_matter();
        let chapters = self.chapters.as_slice();
        put_chapter(alloc, chapters, &chapters[place], out, steps)
    }

    /// The place of the chapter of this name, compared as written; None exactly where there is none. It takes no memory, and
    /// time linear in the number of chapters and in the name.
    pub fn find(&self, name: &str) -> Option<usize>
        ensures place { result ≡ place_named self.now (chars name.now) }
    {
        self.chapters
            .iter()
            .position(|chapter| chapter.is_named(name))
    }

    /// How many chapters there are. It takes no memory and constant time.
    pub fn len(&self) -> usize
        ensures length { result ≡ length self.now }
    {
        self.chapters.len()
    }
}
