//! The command `table SHEET STYLE FROM TO`.

ghost use Rattle.std.specs.Prelude.{◌≡◌, ◌≤◌, Some, IfOk, IfErr, OnOk, OnErr};
ghost use Rattle.std.specs.Str.{chars};
ghost use Rattle.css_reader.specs.Sheets.{sheet as sheet_of};
ghost use Rattle.css_definitions.specs.CounterStyles.{finished_styles};
ghost use Rattle.plain_types.specs.declared.style_ref.StyleRef.TheVariants.{Name};
ghost use Rattle.ports.specs.Causes.{Raises, Rose, RoseAbove};
ghost use Rattle.ports.specs.Files.{Files};
ghost use Rattle.ports.specs.Grown.{grown, GrowsByFront};
ghost use Rattle.table_text.specs.Rows.{rows, values_between};
ghost use Rattle.marker_cli.specs.Ends.{EndsAs, IsCaused, IsPutCaused, IsStop, ReadsFailed, part_status};
ghost use Rattle.marker_cli.specs.Names.{TellsOfLine};
ghost use Rattle.marker_cli.specs.Run.{size_of};
ghost use Rattle.marker_cli.specs.Table.{table_output};

use crate::fetch_text::fetch_text;
use crate::status::{FileAt, Status};
use counter_style_table::build::build;
use css_reader::sheet::read_sheet;
use plain_types::count::Count;
use plain_types::memory::Memory;
use plain_types::style_ref::StyleRef;
use plain_types::table::Table;
use plain_types::text::Text;
use ports::shelf::Shelf;
use ports::sink::Sink;
use std::alloc::Global;
use table_text::put_rows::put_rows;

/// The finished counter styles of the sheet of this text.
fn styles_of(alloc: Global, text: &str) -> Result<Table, Memory>
    ensures styles { IfOk result (λ table. table ≡ finished_styles (sheet_of (chars text.now)).styles) }
{
    let sheet = read_sheet(alloc, text)?;
    build(alloc, &sheet.styles)
}

/// Writes the rows of the values in the style of this name.
fn put_values<O: Sink>(
    alloc: Global,
    table: &Table,
    style: &str,
    from: Count,
    to: Count,
    out: &mut O,
) -> Result<(), Status>
    ensures ok { OnOk result (O.out out.new ≡ grown (O.out out.old) (rows table.now (Name (chars style.now)) (values_between from to))) }
    ensures failed { OnErr result (GrowsByFront (O.out out.old) (O.out out.new) (rows table.now (Name (chars style.now)) (values_between from to))) }
    ensures cause { IsPutCaused (Rose (O.faults out.old) (O.faults out.new)) result }
    ensures faults { O.faults out.old ≤ O.faults out.new }
{
    let name = Text::from_str(alloc, style)?;
    Ok(put_rows(alloc, table, &StyleRef::Name(name), from, to, out)?)
}

/// Writes how the values from the one to the other look in a counter style of the sheet of this name. A
/// style that neither the sheet nor CSS defines is `decimal`.
pub fn table<S: Shelf, O: Sink>(
    alloc: Global,
    sheet: &str,
    style: &str,
    from: Count,
    to: Count,
    shelf: &mut S,
    out: &mut O,
) -> Result<(), Status>
    ensures told { (files : Files) → S.held shelf.old ≡ Some files
        → EndsAs (ReadsFailed (S.honest shelf.old) (S.faults shelf.old) (S.faults shelf.new)) (Rose (O.faults out.old) (O.faults out.new))
        (table_output files (chars sheet.now) (chars style.now) from to) (O.out out.old) (O.out out.new) (part_status result) }
    ensures cause { IsCaused ⊥ (Rose (S.faults shelf.old) (S.faults shelf.new)) (RoseAbove 16777216 (S.taken shelf.old) (S.taken shelf.new))
        (Rose (O.faults out.old) (O.faults out.new)) (part_status result) }
    ensures file { ¬ (TellsOfLine (part_status result)) }
    ensures stops { IfErr result IsStop }
    ensures faults { O.faults out.old ≤ O.faults out.new }
    ensures reads { (files : Files) → S.held shelf.old ≡ Some files → OnOk result (Raises (S.taken shelf.old) (S.taken shelf.new) (size_of files (chars sheet.now))) }
{
    let text = fetch_text(alloc, shelf, FileAt::Word(1), sheet)?;
    let styles = styles_of(alloc, text.as_str())?;
    put_values(alloc, &styles, style, from, to, out)
}
