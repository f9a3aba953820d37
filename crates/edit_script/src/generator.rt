//! Runs that are made up.

ghost use Rattle.std.specs.Prelude.{◌≡◌, ◌<◌, IfOk, OnOk};
ghost use Rattle.edit_script.specs.Draws.{state_after};
ghost use Rattle.edit_script.specs.Generator.{document, document_of, edits_of, sheet};

use crate::draws::Draws;
use crate::made_edits::draw_edits;
use crate::sections::put_sections;
use crate::texts::copied;
use plain_types::edit::Edit;
use plain_types::list::List;
use plain_types::memory::Memory;
use plain_types::text::Text;
use plain_types::tree::Tree;
use plain_types::tree_builder::TreeBuilder;
use std::alloc::Global;

const SHEET: &str =
    "body{counter-reset:s}section{counter-increment:s;counter-reset:i}li{counter-increment:i list-item}h2::before{content:counter(s)\". \"}li::before{content:counters(i,\".\")}a::after{content:\"(\"target-counter(attr(href),s)\")\"}";

/// A document that is made up, its sheet, and edits of it.
#[derive(Drop)]
pub struct GeneratedRun {
    pub document: Tree,
    pub sheet: Text,
    pub edits: List<Edit>,
}

/// A document of so many sections, and draws to go on with.
fn draw_document(alloc: Global, sections: u32, draws: &mut Draws) -> Result<Tree, Memory>
    requires { 0 < sections }
    ensures tree { IfOk result (λ tree. tree ≡ document_of sections draws.old.state) }
    ensures state { OnOk result (draws.new.state ≡ state_after sections draws.old.state) }
{
    let mut builder = TreeBuilder::new(alloc);
    builder.start(copied(alloc, "body")?, List::new(alloc))?;
    put_sections(alloc, sections, draws, &mut builder)?;
    builder.end();
    Ok(builder.finish())
}

/// The run of this seed with so many edits, in time and memory linear in them. One seed gives one run, on
/// every machine. For ten edits there is a section in the document, and one more.
pub fn generate(alloc: Global, seed: u32, count: u32) -> Result<GeneratedRun, Memory>
    ensures document { IfOk result (λ run. run.document ≡ document seed count) }
    ensures sheet { IfOk result (λ run. run.sheet ≡ sheet) }
    ensures edits { IfOk result (λ run. run.edits ≡ edits_of seed count) }
{
    let sections = count / 10 + 1;
    let mut draws = Draws { state: seed };
    let document = draw_document(alloc, sections, &mut draws)?;
    let sheet = copied(alloc, SHEET)?;
    let edits = draw_edits(alloc, sections, count, &mut draws)?;
    Ok(GeneratedRun {
        document,
        sheet,
        edits,
    })
}
