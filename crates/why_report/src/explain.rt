//! The account of an element.

ghost use Rattle.std.specs.Prelude.{◌≡◌, ◌≤◌, ◌+◌, true, Err, IfNone, IfSome, IsSome, OnOk, OnErr, encode_utf8_all};
ghost use Rattle.forest.specs.Spots.{IsLive};
ghost use Rattle.generated_texts.specs.Documents.{agent_sheet};
ghost use Rattle.generated_texts.specs.StyleElements.{author_sheet};
ghost use Rattle.marker_engine.specs.Engines.{source_of};
ghost use Rattle.node_arena.specs.Nodes.{name_of};
ghost use Rattle.ports.specs.Grown.{grown, GrowsByFront};
ghost use Rattle.ports.specs.Puts.{HasPutCause};
ghost use Rattle.style_sources.specs.Sources.{value_source_at};
ghost use Rattle.why_report.specs.Accounts.{account, element_account, element_at, source_lines};
ghost use Rattle.why_report.specs.Causes.{HasWhyCause};
ghost use Rattle.why_report.specs.declared.why_fault.WhyFault.TheVariants as faults;

use crate::counters::put_counters;
use crate::sources::put_sources;
use crate::why_fault::WhyFault;
use css_reader::sheet::read_sheet;
use dirty_walk::book::Book;
use generated_texts::laws::keys_do_not_matter;
use marker_engine::engine::Engine;
use mini_cascade::agent_sheet::AGENT_SHEET;
use mini_cascade::hints::hints;
use mini_cascade::style_attributes::inline_declarations;
use node_arena::arena::Arena;
use node_arena::laws::arena_holds_document;
use plain_types::path::Path;
use plain_types::sheet::Sheet;
use ports::put_fault::PutFault;
use ports::sink::Sink;
use selector_match::siblings::Siblings;
use std::alloc::Global;
use std::sync::ledger::Ledger;
use steps::Steps;
use style_sources::declarations::Declarations;

/// The element that a path leads to; at a text, or past the children, there is none.
fn element_at(arena: &Arena, path: &Path) -> Option<usize>
    ensures key { result ≡ element_at arena.now.tree path.now }
{
    let key = arena.at(path)?;
    let _name = arena.name(key)?;
    Some(key)
}

/// Puts the lines of the sources of an element's properties. The user agent's sheet is read for that: it is a short one.
fn put_element_sources<O: Sink>(
    alloc: Global,
    arena: &Arena,
    author: &Sheet,
    key: usize,
    out: &mut O,
) -> Result<(), PutFault>
    requires live { IsLive arena.now.tree key }
    ensures ok { OnOk result (O.out out.new ≡ grown (O.out out.old) (encode_utf8_all (source_lines (value_source_at arena.now.tree agent_sheet author.now key)))) }
    ensures failed { OnErr result (GrowsByFront (O.out out.old) (O.out out.new) (encode_utf8_all (source_lines (value_source_at arena.now.tree agent_sheet author.now key)))) }
    ensures cause { HasPutCause (O.faults out.old) (O.faults out.new) result }
{
    let agent = read_sheet(alloc, AGENT_SHEET)?;
    let hints = hints(alloc, arena, key)?;
    let inline = inline_declarations(alloc, arena, key)?;
    let siblings = Siblings::new(alloc, arena);
    let declarations = Declarations::of(
        alloc,
        &siblings,
        key,
        &agent,
        hints.as_slice(),
        author,
        inline.as_slice(),
    )?;
    put_sources(&declarations, arena.parent(key).is_none(), out)?;
    Ok(())
}

/// Puts the account of an element of a book's document.
fn put_account<O: Sink, L: Ledger>(
    alloc: Global,
    book: &Book,
    key: usize,
    out: &mut O,
    steps: &mut Steps<L>,
) -> Result<(), PutFault>
    requires settled { book.now.settled ≡ true }
    requires element { IsSome (name_of book.now.tree key) }
    ensures ok { OnOk result (O.out out.new ≡ grown (O.out out.old) (encode_utf8_all (element_account (author_sheet book.now.sheet book.now.tree) book.now.tree key))) }
    ensures failed { OnErr result (GrowsByFront (O.out out.old) (O.out out.new) (encode_utf8_all (element_account (author_sheet book.now.sheet book.now.tree) book.now.tree key))) }
    ensures cause { HasPutCause (O.faults out.old) (O.faults out.new) result }
    ensures step { steps.new ≤ steps.old + 1 }
{
    let arena = book.arena();
    // The document has distinct keys, and then the boxes that created its counters are those of its elements.
    arena_holds_document(arena);
    keys_do_not_matter();
    put_element_sources(alloc, arena, book.author(), key, out)?;
    let entry = book.entry(key, steps);
    put_counters(alloc, arena, entry.own.as_slice(), out)
}

/// Puts the account of the element at a path to `out`: a line for each property, and one for each of the element's counters.
/// `NoElement` exactly where the path leads to no element; that is told before memory is taken, with nothing written and
/// no step counted. Where it fails otherwise, a prefix of the account went out, maybe nothing.
///
/// It takes time linear in the selectors of both sheets, beside what it costs to match them, in the declarations that
/// apply, in the path and in the element's attributes, and for each counter in the depth of the element that created it, with the
/// siblings on the way. It takes memory for the user agent's sheet, which is read for it, for the declarations that apply, the
/// element's hints and `style` attribute, and for the path of one element. What is kept of the element is looked up once.
pub fn explain<O: Sink, L: Ledger>(
    alloc: Global,
    engine: &Engine,
    path: &Path,
    out: &mut O,
    steps: &mut Steps<L>,
) -> Result<(), WhyFault>
    ensures ok { IfSome (account engine.now.sheet (source_of engine.now).tree path.now) (λ text. OnOk result (O.out out.new ≡ grown (O.out out.old) text)) }
    ensures failed { IfSome (account engine.now.sheet (source_of engine.now).tree path.now) (λ text. OnErr result (GrowsByFront (O.out out.old) (O.out out.new) text)) }
    ensures cause { IfSome (account engine.now.sheet (source_of engine.now).tree path.now) (λ _. HasWhyCause (O.faults out.old) (O.faults out.new) result) }
    ensures step { steps.new ≤ steps.old + 1 }
    ensures no_element { IfNone (account engine.now.sheet (source_of engine.now).tree path.now) (result ≡ Err faults.NoElement) }
    ensures no_output { IfNone (account engine.now.sheet (source_of engine.now).tree path.now) (out.new ≡ out.old) }
    ensures no_step { IfNone (account engine.now.sheet (source_of engine.now).tree path.now) (steps.new ≡ steps.old) }
{
    // The book has keys of its own, and the account is that of any keys.
    let book = engine.book();
    let arena = book.arena();
    arena_holds_document(arena);
    keys_do_not_matter();
    let Some(key) = element_at(arena, path) else {
        return Err(WhyFault::NoElement);
    };
    put_account(alloc, book, key, out, steps)?;
    Ok(())
}
