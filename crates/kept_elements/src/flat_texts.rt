//! The flat texts of elements, to which the texts of other boxes refer.

ghost use Rattle.std.specs.Prelude.{◌≡◌, IfOk, option_map};
ghost use Rattle.kept_elements.specs.Known.{all_flat_texts_of, flat_text_of, flat_texts_of};

use box_eval::element_record::ElementRecord;
use box_eval::made::Made;
use content_eval::targets::Targets;
use content_eval::texts::flat_text;
use plain_types::list::List;
use plain_types::memory::Memory;
use plain_types::table::Table;
use plain_types::text::Text;
use std::alloc::Global;
use surroundings::told::Told;

/// The flat texts of an element's before and after boxes, where it has them.
#[derive(Drop)]
pub struct FlatTexts {
    pub before: Option<Text>,
    pub after: Option<Text>,
}

fn flat_text_of<T: Targets>(
    alloc: Global,
    table: &Table,
    made: &Option<Made>,
    targets: &T,
) -> Result<Option<Text>, Memory>
    ensures text { IfOk result (λ text. text ≡ option_map (flat_text_of table.now (T.known targets.now)) made.now) }
{
    match made {
        Some(made) => Ok(Some(flat_text(alloc, table, &made.pieces, targets)?)),
        None => Ok(None),
    }
}

fn flat_texts_of<T: Targets>(
    alloc: Global,
    table: &Table,
    element: &ElementRecord,
    targets: &T,
) -> Result<FlatTexts, Memory>
    ensures texts { IfOk result (λ texts. texts ≡ flat_texts_of table.now (T.known targets.now) element.now) }
{
    Ok(FlatTexts {
        before: flat_text_of(alloc, table, &element.before, targets)?,
        after: flat_text_of(alloc, table, &element.after, targets)?,
    })
}

/// The flat texts of all elements, under their keys.
pub fn all_flat_texts<T: Targets>(
    alloc: Global,
    table: &Table,
    records: &[(usize, Told)],
    targets: &T,
) -> Result<List<(usize, FlatTexts)>, Memory>
    ensures texts { IfOk result (λ texts. texts ≡ all_flat_texts_of table.now (T.known targets.now) records.now) }
{
    let mut texts = List::new(alloc);
    for (key, told) in records {
        texts.push((*key, flat_texts_of(alloc, table, &told.said, targets)?))?;
    }
    Ok(texts)
}
