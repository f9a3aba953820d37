//! What a document's sheet and style elements say, read.

ghost use Rattle.std.specs.Prelude.{◌≡◌, ◌↔◌, ◌∷◌, IsTrue, IfOk, unwrap_or};
ghost use Rattle.css_reader.specs.Sheets.{sheets};
ghost use Rattle.dirty_walk.specs.DocumentStyles.{read_styles};

use counter_style_table::build::build;
use css_reader::features::features;
use css_reader::sheet::read_sheets;
use mini_cascade::rule_table::RuleTable;
use plain_types::duplicate::Duplicate;
use plain_types::list::List;
use plain_types::memory::Memory;
use plain_types::sheet::{Features, Sheet};
use plain_types::table::Table;
use plain_types::text::Text;
use std::alloc::Global;

/// The texts of the author of a document, and what they say together.
pub(crate) struct DocumentStyles {
    /// The text of the document's sheet.
    pub(crate) sheet: Text,
    /// The texts of its style elements, in tree order.
    pub(crate) texts: List<Text>,
    /// The author's sheet: that of the first text, and behind it those of the others.
    pub(crate) author: RuleTable,
    /// What its selectors look at.
    pub(crate) features: Features,
    /// The counter styles under it.
    pub(crate) table: Table,
}

impl Drop for DocumentStyles {
    fn drop(self) {
        let DocumentStyles {
            sheet: _,
            texts: _,
            author: _,
            features: _,
            table: _,
        } = self;
    }
}

/// The sheet of a text, and behind it those of others.
fn author_sheet(alloc: Global, sheet: &Text, texts: &[Text]) -> Result<Sheet, Memory>
    ensures sheet { IfOk result (λ found. found ≡ sheets (sheet.now ∷ texts.now)) }
{
    let mut all = List::new(alloc);
    all.push(sheet.duplicate(alloc)?)?;
    for text in texts {
        all.push(text.duplicate(alloc)?)?;
    }
    read_sheets(alloc, all.as_slice())
}

/// Whether texts are the same, one by one.
fn are_same(texts: &[Text], others: &[Text]) -> bool
    ensures { IsTrue result ↔ (texts.now ≡ others.now) }
{
    if texts.len() != others.len() {
        return false;
    }
    for (place, text) in texts.iter().enumerate() {
        if text.as_str() != others[place].as_str() {
            return false;
        }
    }
    true
}

impl DocumentStyles {
    /// What the text of a sheet and the texts of style elements say. It takes time and memory linear in the texts, and
    /// what the table of counter styles takes.
    pub(crate) fn read(
        alloc: Global,
        sheet: Text,
        texts: List<Text>,
    ) -> Result<DocumentStyles, Memory>
        ensures styles { IfOk result (λ styles. styles ≡ read_styles sheet texts) }
    {
        let author = author_sheet(alloc, &sheet, texts.as_slice())?;
        let table = build(alloc, &author.styles)?;
        let features = features(&author);
        let rules = RuleTable::new(alloc, author)?;
        Ok(DocumentStyles {
            sheet,
            texts,
            author: rules,
            features,
            table,
        })
    }

    /// What this sheet, or else the one before, and these texts of style elements say; None where they are the texts
    /// that were read already. Then it takes no memory, and time linear in the texts of style elements.
    pub(crate) fn renewed(
        &self,
        alloc: Global,
        sheet: Option<Text>,
        texts: List<Text>,
    ) -> Result<Option<DocumentStyles>, Memory>
        requires read { self.now ≡ read_styles self.now.sheet self.now.texts }
        ensures styles { IfOk result (λ new. unwrap_or new self.now ≡ read_styles (unwrap_or sheet self.now.sheet) texts) }
    {
        let sheet = match sheet {
            Some(sheet) => sheet,
            None if are_same(self.texts.as_slice(), texts.as_slice()) => return Ok(None),
            None => self.sheet.duplicate(alloc)?,
        };
        Ok(Some(DocumentStyles::read(alloc, sheet, texts)?))
    }
}
