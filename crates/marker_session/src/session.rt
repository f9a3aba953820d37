//! A document that is open.

ghost use Rattle.std.specs.Prelude.{◌≡◌, ◌≢◌, ◌≤◌, ◌+◌, ◌*◌, [], length, map, IfErr, IfOk, IsPermutation, OnErr, OnOk};
ghost use Rattle.std.specs.Str.{chars};
ghost use Rattle.changed_lines.specs.Changes.{changed_lines};
ghost use Rattle.changed_lines.specs.Listings.{shown_line};
ghost use Rattle.dirty_walk.specs.Books.{keyed_source};
ghost use Rattle.dirty_walk.specs.WorkBounds.{IsWithinWork};
ghost use Rattle.document_walk.specs.Elements.{element_count};
ghost use Rattle.forest.specs.Forest.{Forest};
ghost use Rattle.generated_texts.specs.Lines.{document_lines, fresh_dump};
ghost use Rattle.marker_engine.specs.Census.{box_count, saturated};
ghost use Rattle.marker_engine.specs.Engines.{source_of};
ghost use Rattle.marker_engine.specs.declared.edit_fault.EditFault.TheVariants as edit_faults;
ghost use Rattle.node_arena.specs.Document.{IsKeyedDocument};
ghost use Rattle.plain_types.specs.declared.edit.Edit.TheVariants.{ReplaceSheet};
ghost use Rattle.plain_types.specs.declared.node.Node.{Node};
ghost use Rattle.xhtml_reader.specs.Fault.{IsFault};
ghost use Rattle.xhtml_reader.specs.declared.fault.DocFault.TheVariants as document_faults;
ghost use Rattle.xml_definitions.specs.Faults.{FailsAsDocument};
ghost use Rattle.xml_definitions.specs.Texts.{IsDocumentText};
ghost use Rattle.marker_session.specs.declared.line_fault.LineFault.TheVariants as faults;
ghost use Rattle.marker_session.specs.declared.listing.Listing.TheVariants.{Unlisted};
ghost use Rattle.marker_session.specs.Lines.{DoesLine, IsLineFault, StopsOnEdit, StopsOnLine, IsLineWithinWork, PaysForChangedLines};
ghost use Rattle.marker_session.specs.Machinery.{IsEditFault};
ghost use Rattle.marker_session.specs.Sessions.{Does, all_lines, listed_after};

use crate::heap_sink::HeapSink;
use crate::laws::listed_lines_are_the_dump;
use crate::line::only_edit;
use crate::line_fault::LineFault;
use crate::lines::all_lines;
use crate::listing::Listing;
use changed_lines::changed_line::ChangedLine;
use edit_script::laws::one_reading;
use edit_script::read_script;
use marker_engine::census::Census;
use marker_engine::edit_fault::EditFault;
use marker_engine::engine::Engine;
use node_arena::laws::arena_holds_document;
use plain_types::edit::Edit;
use plain_types::memory::Memory;
use plain_types::text::Text;
use std::alloc::Global;
use std::marker::Model;
use std::sync::ledger::Ledger;
use steps::Steps;
use xhtml_reader::fault::DocFault;
use xhtml_reader::laws::one_document_tree;
use xhtml_reader::read_document;

/// A document under its sheet that is open: it, a list of lines, and the last dump that was asked for.
pub struct Session {
    engine: Engine,
    listed: Vec<ChangedLine>,
    shown: Vec<u8>,
}

impl Drop for Session {
    fn drop(self) {
        let Session {
            engine: _,
            listed: _,
            shown: _,
        } = self;
    }
}

impl Model for Session {
    ghost use Rattle.changed_lines.specs.contracts.changed_line.ChangedLine as kept_line;
    ghost use Rattle.marker_engine.specs.contracts.engine.Engine as kept_engine;
    ghost use Rattle.marker_session.specs.Sessions.{OpenDocument, coded_open_document};

    ghost Value = { OpenDocument };

    ghost coded = { coded_open_document kept_engine.the_row.coded kept_line.the_row.coded };

    ghost view = { λ session. record { styled = session.engine; listed = session.listed.items; shown = session.shown.items } };
}

impl Session {
    /// Opens the document of an XHTML text under the sheet of another text. All its lines are listed, and no dump is kept. A
    /// sheet has no faults: what is not understood in it is left out.
    ///
    /// `Malformed` where the text is no document, with the place of its fault, and no step is taken. It takes time and memory as
    /// `read_document` and `Engine::start`, and for the list as [`Session::list_all`].
    #[tactic(auto, using(crate::proofs::Roots::document_element))]
    pub fn open<L: Ledger>(
        alloc: Global,
        xhtml: &str,
        css: &str,
        steps: &mut Steps<L>,
    ) -> Result<Session, DocFault>
        ensures tree { IfOk result (λ session. IsDocumentText (chars xhtml.now) (source_of session.styled).tree) }
        ensures sheet { IfOk result (λ session. session.styled.sheet ≡ chars css.now) }
        ensures keys { IfOk result (λ session. IsKeyedDocument session.styled.tree) }
        ensures listed { IfOk result (λ session. session.listed ≡ all_lines session.styled) }
        ensures shown { IfOk result (λ session. session.shown ≡ []) }
        ensures fault { IfErr result (IsFault (FailsAsDocument (chars xhtml.now))) }
        ensures steps { IfOk result (λ session. steps.new ≤ steps.old + 8 * element_count (source_of session.styled).tree) }
        ensures stops { OnErr result ((tree : Forest Node) → IsDocumentText (chars xhtml.now) tree → steps.new ≤ steps.old + 8 * element_count tree) }
        ensures no_steps { IfErr result (λ fault. fault ≢ document_faults.Memory → steps.new ≡ steps.old) }
    {
        one_document_tree();
        let tree = read_document(alloc, xhtml)?;
        let engine = Engine::start(alloc, tree, css, steps)?;
        arena_holds_document(engine.book().arena());
        let listed = all_lines(alloc, engine.book(), steps)?;
        Ok(Session {
            engine,
            listed,
            shown: Vec::new(alloc),
        })
    }

    /// Lists the lines that an edit changed.
    fn list(&mut self, alloc: Global, told: Result<Vec<ChangedLine>, Memory>) -> Listing
        ensures listed { IfOk told (λ lines. self.new.listed ≡ listed_after result lines.items) }
        ensures unlisted { OnErr told ((result ≡ Unlisted) × (self.new.listed ≡ [])) }
        ensures styled { self.new.styled ≡ self.old.styled }
        ensures shown { self.new.shown ≡ self.old.shown }
    {
        match told {
            Ok(lines) => {
                self.listed = lines;
                Listing::Listed
            }
            Err(Memory) => {
                self.listed = Vec::new(alloc);
                Listing::Unlisted
            }
        }
    }

    /// Does an edit and lists the lines that it changed.
    fn edit<L: Ledger>(
        &mut self,
        alloc: Global,
        edit: &Edit,
        steps: &mut Steps<L>,
    ) -> Result<Listing, EditFault>
        ensures done { OnOk result (Does edit.now self.old.styled self.new.styled) }
        ensures listed { IfOk result (λ listing. self.new.listed ≡ listed_after listing (changed_lines (keyed_source self.old.styled) (keyed_source self.new.styled))) }
        ensures shown { self.new.shown ≡ self.old.shown }
        ensures fault { IfErr result (IsEditFault edit.now self.old.styled) }
        ensures failed { OnErr result (self.new ≡ self.old) }
        ensures within_work { OnOk result (IsWithinWork edit.now (keyed_source self.old.styled) (keyed_source self.new.styled) steps.old steps.new) }
        ensures steps { OnOk result (steps.new ≤ steps.old + (13 * element_count (source_of self.new.styled).tree + 2 * element_count (source_of self.old.styled).tree)) }
        ensures line_steps { OnOk result (PaysForChangedLines self.old.styled self.new.styled steps.old steps.new) }
        ensures stops { OnErr result (StopsOnEdit edit.now self.old.styled steps.old steps.new) }
        ensures no_steps { IfErr result (λ fault. fault ≢ edit_faults.Memory → steps.new ≡ steps.old) }
    {
        let told = self.engine.apply_and_tell(alloc, edit, steps)?;
        Ok(self.list(alloc, told))
    }

    /// Does one edit, which is a line of a script: `insert`, `remove`, `move`, `set` or `unset` with its operands. Paths are
    /// those of the document before it. The lines that it changed are listed then, by elements in tree order, and of one
    /// element its marker, its before box and its after box.
    ///
    /// After a fault the session is as before; a line that is no edit, and one that is refused, take no step. It takes time and
    /// memory linear in the line, and as `Engine::apply_and_tell`: one step at most for each line that is changed, beside those
    /// of the edit. Where it ends with `Memory`, it took no more steps than the edit may take.
    pub fn apply<L: Ledger>(
        &mut self,
        alloc: Global,
        line: &str,
        steps: &mut Steps<L>,
    ) -> Result<Listing, LineFault>
        ensures done { OnOk result (DoesLine (chars line.now) self.old.styled self.new.styled) }
        ensures listed { IfOk result (λ listing. self.new.listed ≡ listed_after listing (changed_lines (keyed_source self.old.styled) (keyed_source self.new.styled))) }
        ensures shown { self.new.shown ≡ self.old.shown }
        ensures fault { IfErr result (IsLineFault (chars line.now) self.old.styled) }
        ensures failed { OnErr result (self.new ≡ self.old) }
        ensures within_work { OnOk result (IsLineWithinWork (chars line.now) self.old.styled self.new.styled steps.old steps.new) }
        ensures steps { OnOk result (steps.new ≤ steps.old + (13 * element_count (source_of self.new.styled).tree + 2 * element_count (source_of self.old.styled).tree)) }
        ensures line_steps { OnOk result (PaysForChangedLines self.old.styled self.new.styled steps.old steps.new) }
        ensures stops { OnErr result (StopsOnLine (chars line.now) self.old.styled steps.old steps.new) }
        ensures no_steps { IfErr result (λ fault. fault ≢ faults.Memory → steps.new ≡ steps.old) }
    {
        one_reading();
        let commands = read_script(alloc, line)?;
        let edit = only_edit(commands.as_slice())?;
        Ok(self.edit(alloc, edit, steps)?)
    }

    /// Replaces the sheet by that of a text. The lines that this changed are listed then, as after an edit.
    ///
    /// After `Memory` the session is as before, and no more steps were taken than the edit may take. It takes time and memory as
    /// `Engine::apply_and_tell`.
    pub fn replace_sheet<L: Ledger>(
        &mut self,
        alloc: Global,
        css: &str,
        steps: &mut Steps<L>,
    ) -> Result<Listing, Memory>
        ensures done { OnOk result (Does (ReplaceSheet (chars css.now)) self.old.styled self.new.styled) }
        ensures listed { IfOk result (λ listing. self.new.listed ≡ listed_after listing (changed_lines (keyed_source self.old.styled) (keyed_source self.new.styled))) }
        ensures shown { self.new.shown ≡ self.old.shown }
        ensures failed { OnErr result (self.new ≡ self.old) }
        ensures within_work { OnOk result (IsWithinWork (ReplaceSheet (chars css.now)) (keyed_source self.old.styled) (keyed_source self.new.styled) steps.old steps.new) }
        ensures steps { OnOk result (steps.new ≤ steps.old + (13 * element_count (source_of self.new.styled).tree + 2 * element_count (source_of self.old.styled).tree)) }
        ensures line_steps { OnOk result (PaysForChangedLines self.old.styled self.new.styled steps.old steps.new) }
        ensures stops { OnErr result (StopsOnEdit (ReplaceSheet (chars css.now)) self.old.styled steps.old steps.new) }
    {
        let edit = Edit::ReplaceSheet {
            text: Text::from_str(alloc, css)?,
        };
        match self.edit(alloc, &edit, steps) {
            Ok(listing) => Ok(listing),
            Err(_) => Err(Memory),
        }
    }

    /// Lists all lines of the document, in the order in which changed ones are listed: those of its dump, each once.
    ///
    /// After `Memory` the session is as before. It takes time linear in the document, and for each line in the depth of its
    /// element and in its text, and memory for the lines.
    pub fn list_all<L: Ledger>(&mut self, alloc: Global, steps: &mut Steps<L>) -> Result<(), Memory>
        ensures listed { OnOk result (self.new.listed ≡ all_lines self.old.styled) }
        ensures dump { OnOk result (IsPermutation self.new.listed (map shown_line (document_lines self.old.styled.sheet (source_of self.old.styled).tree))) }
        ensures styled { self.new.styled ≡ self.old.styled }
        ensures shown { self.new.shown ≡ self.old.shown }
        ensures failed { OnErr result (self.new ≡ self.old) }
        ensures steps { steps.new ≤ steps.old + element_count (source_of self.old.styled).tree }
    {
        arena_holds_document(self.engine.book().arena());
        listed_lines_are_the_dump();
        self.listed = all_lines(alloc, self.engine.book(), steps)?;
        Ok(())
    }

    /// The lines that are listed. It takes no memory and constant time.
    pub fn listed(&self) -> &[ChangedLine]
        ensures lines { result.now ≡ self.now.listed }
    {
        self.listed.as_slice()
    }

    /// Keeps the dump of the document as it is now, in place of the one that was kept.
    ///
    /// After `Memory` the session is as before. It takes time linear in the document and in the bytes of the dump, and
    /// memory for these.
    pub fn show<L: Ledger>(&mut self, alloc: Global, steps: &mut Steps<L>) -> Result<(), Memory>
        ensures shown { OnOk result (self.new.shown ≡ fresh_dump self.old.styled.sheet (source_of self.old.styled).tree) }
        ensures styled { self.new.styled ≡ self.old.styled }
        ensures listed { self.new.listed ≡ self.old.listed }
        ensures failed { OnErr result (self.new ≡ self.old) }
        ensures steps { steps.new ≤ steps.old + element_count (source_of self.old.styled).tree }
    {
        let mut sink = HeapSink::new(alloc);
        match self.engine.show(alloc, &mut sink, steps) {
            Ok(()) => {
                self.shown = sink.bytes;
                Ok(())
            }
            Err(_) => Err(Memory),
        }
    }

    /// The dump that is kept. It takes no memory and constant time.
    pub fn shown(&self) -> &[u8]
        ensures bytes { result.now ≡ self.now.shown }
    {
        self.shown.as_slice()
    }

    /// The numbers of the document's elements, of the boxes of its evaluation, and of the lines of its dump.
    ///
    /// It takes time linear in the document and no memory.
    pub fn census<L: Ledger>(&self, steps: &mut Steps<L>) -> Census
        ensures elements { result.elements ≡ saturated (element_count (source_of self.now.styled).tree) }
        ensures boxes { result.boxes ≡ saturated (box_count self.now.styled.sheet (source_of self.now.styled).tree) }
        ensures lines { result.lines ≡ saturated (length (document_lines self.now.styled.sheet (source_of self.now.styled).tree)) }
        ensures steps { steps.new ≤ steps.old + element_count (source_of self.now.styled).tree }
    {
        self.engine.census(steps)
    }
}
