//! The evaluation of a document: what it tells of the elements, and what is kept of them.

ghost use Rattle.std.specs.Prelude.{◌≡◌, ◌≤◌, ◌+◌, ◌*◌, length, IfOk, OnOk};
ghost use Rattle.forest.specs.Keys.{without_keys};
ghost use Rattle.generated_texts.specs.References.{known_targets, known_to_flat_texts};
ghost use Rattle.generated_texts.specs.StyleElements.{author_sheet};
ghost use Rattle.document_walk.specs.Elements.{element_count};
ghost use Rattle.snapshot_board.specs.Records.{put_all};
ghost use Rattle.kept_elements.specs.Changes.{AreBelow, AreChanges};
ghost use Rattle.kept_elements.specs.Evaluations.{all_kept_of, document_told};
ghost use Rattle.referring_elements.specs.References.{said_of};
ghost use Rattle.referring_elements.specs.Indexes.{IsIndexOf};
ghost use Rattle.started_walk.specs.Countings.{Counts};
ghost use Rattle.kept_elements.specs.Known.{IsKeptIn, all_flat_texts_of, known_by};
ghost use Rattle.dirty_walk.specs.Machinery.DocumentWalks.{told_by_index, told_without_starts};

use crate::named_elements::NamedElements;
use crate::styled_arena::StyledArena;
use crate::targets::DocumentTargets;
use box_eval::starts::NoStarts;
use content_eval::laws::no_reference_is_circular;
use counter_index::index::CounterIndex;
use document_walk::evaluate::tell_all;
use document_walk::sources::Sources;
use kept_elements::by_key::by_key;
use kept_elements::flat_texts::{FlatTexts, all_flat_texts};
use kept_elements::kept::Kept;
use kept_elements::kept_change::KeptChange;
use kept_elements::node_texts::{changed_entries, put_entries};
use node_arena::arena::Arena;
use node_arena::laws::arena_holds_document;
use plain_types::list::List;
use plain_types::memory::Memory;
use plain_types::table::Table;
use snapshot_board::board::Board;
use started_walk::counting::Counting;
use std::alloc::Global;
use std::collections::HashMap;
use std::sync::ledger::Ledger;
use steps::Steps;
use surroundings::told::Told;
use target_index::index::Index;

/// What the evaluation tells of a document's elements, and what is kept for the two walks of an edit of it.
#[derive(Drop)]
pub(crate) struct ToldDocument {
    /// What is told of each element, under its key.
    pub(crate) told: List<(usize, Told)>,
    pub(crate) counting: Counting,
}

/// What a walk with all starts 0 tells of a document's elements.
fn told_without_starts<L: Ledger>(
    alloc: Global,
    document: &StyledArena,
    steps: &mut Steps<L>,
) -> Result<List<(usize, Told)>, Memory>
    ensures told { IfOk result (λ told. told ≡ told_without_starts document.now) }
    ensures steps { steps.new ≤ steps.old + 3 * element_count (without_keys document.now.arena.now.tree) }
{
    let sources = Sources {
        arena: document.arena,
        agent: document.agent,
        author: &document.styles.author,
        table: &document.styles.table,
        starts: &NoStarts,
    };
    let told = tell_all(alloc, &sources, steps)?;
    Ok(told)
}

/// What a walk with the starts of this index tells of them.
fn told_by_index<L: Ledger>(
    alloc: Global,
    document: &StyledArena,
    index: &CounterIndex,
    steps: &mut Steps<L>,
) -> Result<List<(usize, Told)>, Memory>
    ensures told { IfOk result (λ told. told ≡ told_by_index document.now index.now) }
    ensures steps { steps.new ≤ steps.old + 3 * element_count (without_keys document.now.arena.now.tree) }
{
    let sources = Sources {
        arena: document.arena,
        agent: document.agent,
        author: &document.styles.author,
        table: &document.styles.table,
        starts: index,
    };
    let told = tell_all(alloc, &sources, steps)?;
    Ok(told)
}

/// What the evaluation tells of a document's elements. One walk, with every start at 0, tells it where no box asks for the
/// start of a reversed counter. Else that walk tells the starts, and a second one goes with them.
pub(crate) fn document_told<L: Ledger>(
    alloc: Global,
    document: &StyledArena,
    steps: &mut Steps<L>,
) -> Result<ToldDocument, Memory>
    ensures told { IfOk result (λ made. made.told ≡ document_told (author_sheet document.now.styles.now.sheet document.now.arena.now.tree) document.now.arena.now.tree) }
    ensures count { IfOk result (λ made. length made.told ≡ element_count (without_keys document.now.arena.now.tree)) }
    ensures counts { IfOk result (λ made. Counts (record { tree = document.now.arena.now.tree; sheet = document.now.styles.now.sheet }) made.counting) }
    ensures steps { steps.new ≤ steps.old + 6 * element_count (without_keys document.now.arena.now.tree) }
{
    arena_holds_document(document.arena);
    let first = told_without_starts(alloc, document, steps)?;
    let counting = Counting::of(alloc, document.arena, first.as_slice())?;
    if !counting.index.asks() {
        return Ok(ToldDocument {
            told: first,
            counting,
        });
    }
    // What the first walk told is let go before the second one tells it anew.
    drop(first);
    let told = told_by_index(alloc, document, &counting.index, steps)?;
    Ok(ToldDocument { told, counting })
}

/// The flat texts of a document's elements, of which this is told.
fn document_flat_texts(
    alloc: Global,
    named: &NamedElements,
    table: &Table,
    records: &[(usize, Told)],
    records_by_key: &HashMap<usize, &Told>,
) -> Result<List<(usize, FlatTexts)>, Memory>
    requires kept { IsKeptIn records_by_key.now records.now }
    ensures texts { IfOk result (λ texts. texts ≡ all_flat_texts_of table.now (known_to_flat_texts table.now named.now.arena.now.tree (said_of records.now)) records.now) }
{
    // What flat texts rest on has none itself.
    no_reference_is_circular();
    let none: List<(usize, FlatTexts)> = List::new(alloc);
    let none_by_key = by_key(alloc, none.as_slice())?;
    let targets = DocumentTargets {
        named,
        listed: records,
        records: records_by_key,
        listed_flats: none.as_slice(),
        flats: &none_by_key,
    };
    all_flat_texts(alloc, table, records, &targets)
}

/// Puts what is kept of the elements, where these are their flat texts, on a board that has room for it.
fn put_entries_with<L: Ledger>(
    alloc: Global,
    named: &NamedElements,
    table: &Table,
    records: &[(usize, Told)],
    records_by_key: &HashMap<usize, &Told>,
    flats: &[(usize, FlatTexts)],
    board: &mut Board<Kept>,
    steps: &mut Steps<L>,
) -> Result<(), Memory>
    requires kept { IsKeptIn records_by_key.now records.now }
    requires room { AreBelow board.old.room records.now }
    ensures held { OnOk result (board.new.held ≡ put_all (all_kept_of table.now (known_by named.now.arena.now.tree records.now flats.now) records.now) board.old.held) }
    ensures room { board.new.room ≡ board.old.room }
    ensures steps { steps.new ≤ steps.old + length records.now }
{
    let flats_by_key = by_key(alloc, flats)?;
    let targets = DocumentTargets {
        named,
        listed: records,
        records: records_by_key,
        listed_flats: flats,
        flats: &flats_by_key,
    };
    put_entries(alloc, table, records, &targets, board, steps)
}

/// Puts what is kept of a document's elements, of which this is told, on a board that has room for it. It is a step
/// for each.
pub(crate) fn put_document_entries<L: Ledger>(
    alloc: Global,
    arena: &Arena,
    index: &Index,
    table: &Table,
    records: &[(usize, Told)],
    board: &mut Board<Kept>,
    steps: &mut Steps<L>,
) -> Result<(), Memory>
    requires indexed { IsIndexOf index.now arena.now.tree }
    requires room { AreBelow board.old.room records.now }
    ensures held { OnOk result (board.new.held ≡ put_all (all_kept_of table.now (known_targets table.now arena.now.tree (said_of records.now)) records.now) board.old.held) }
    ensures room { board.new.room ≡ board.old.room }
    ensures steps { steps.new ≤ steps.old + length records.now }
{
    let by_key = by_key(alloc, records)?;
    let named = NamedElements::of_document(alloc, arena, index, records)?;
    let flats = document_flat_texts(alloc, &named, table, records, &by_key)?;
    put_entries_with(
        alloc,
        &named,
        table,
        records,
        &by_key,
        flats.as_slice(),
        board,
        steps,
    )
}

/// What is kept of the elements, where these are their flat texts, and is not on a board.
fn changes_with<L: Ledger>(
    alloc: Global,
    named: &NamedElements,
    table: &Table,
    records: &[(usize, Told)],
    records_by_key: &HashMap<usize, &Told>,
    flats: &[(usize, FlatTexts)],
    board: &Board<Kept>,
    steps: &mut Steps<L>,
) -> Result<Vec<(usize, KeptChange)>, Memory>
    requires kept { IsKeptIn records_by_key.now records.now }
    ensures changes { IfOk result (λ changes. AreChanges board.now.held (all_kept_of table.now (known_by named.now.arena.now.tree records.now flats.now) records.now) changes.items) }
    ensures steps { steps.new ≤ steps.old + length records.now }
{
    let flats_by_key = by_key(alloc, flats)?;
    let targets = DocumentTargets {
        named,
        listed: records,
        records: records_by_key,
        listed_flats: flats,
        flats: &flats_by_key,
    };
    changed_entries(alloc, table, records, &targets, board, steps)
}

/// What is kept of a document's elements, of which this is told, and is not on a board. It is a step for each element.
pub(crate) fn document_changes<L: Ledger>(
    alloc: Global,
    arena: &Arena,
    index: &Index,
    table: &Table,
    records: &[(usize, Told)],
    board: &Board<Kept>,
    steps: &mut Steps<L>,
) -> Result<Vec<(usize, KeptChange)>, Memory>
    requires indexed { IsIndexOf index.now arena.now.tree }
    ensures changes { IfOk result (λ changes. AreChanges board.now.held (all_kept_of table.now (known_targets table.now arena.now.tree (said_of records.now)) records.now) changes.items) }
    ensures steps { steps.new ≤ steps.old + length records.now }
{
    let by_key = by_key(alloc, records)?;
    let named = NamedElements::of_document(alloc, arena, index, records)?;
    let flats = document_flat_texts(alloc, &named, table, records, &by_key)?;
    changes_with(
        alloc,
        &named,
        table,
        records,
        &by_key,
        flats.as_slice(),
        board,
        steps,
    )
}
