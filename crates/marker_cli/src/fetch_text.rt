//! The text of a file in its turn.

ghost use Rattle.std.specs.Prelude.{◌≡◌, ◌≤◌, IfErr, OnOk, Some};
ghost use Rattle.std.specs.Str.{chars};
ghost use Rattle.ports.specs.Causes.{Raises, Rose, RoseAbove};
ghost use Rattle.ports.specs.Files.{Files};
ghost use Rattle.marker_cli.specs.Ends.{Gives, IsCaused, IsStop, ReadsFailed, part_status};
ghost use Rattle.marker_cli.specs.Names.{IsOfLine, TellsOfLine};
ghost use Rattle.marker_cli.specs.Run.{size_of};
ghost use Rattle.marker_cli.specs.Turns.{FetchesText, text_of};

use crate::status::{FileAt, Status};
use plain_types::text::Text;
use ports::fetch::{FetchFault, fetch};
use ports::shelf::Shelf;
use std::alloc::Global;

fn text_of(alloc: Global, file: FileAt, bytes: &[u8]) -> Result<Text, Status>
    ensures text { Gives (text_of file bytes.now) result }
    ensures file { TellsOfLine (part_status result) → IsOfLine file }
    ensures stops { IfErr result IsStop }
{
    match str::from_utf8(bytes) {
        Ok(text) => Ok(Text::from_str(alloc, text)?),
        Err(error) => Err(Status::NotUtf8 {
            file,
            offset: error.valid_up_to(),
        }),
    }
}

/// The text of the file of this name, whose turn it is.
pub fn fetch_text<S: Shelf>(
    alloc: Global,
    shelf: &mut S,
    file: FileAt,
    name: &str,
) -> Result<Text, Status>
    ensures told { (files : Files) → S.held shelf.old ≡ Some files
        → FetchesText (ReadsFailed (S.honest shelf.old) (S.faults shelf.old) (S.faults shelf.new)) file (files (chars name.now)) result }
    ensures cause { IsCaused ⊥ (Rose (S.faults shelf.old) (S.faults shelf.new)) (RoseAbove 16777216 (S.taken shelf.old) (S.taken shelf.new)) ⊥ (part_status result) }
    ensures file { TellsOfLine (part_status result) → IsOfLine file }
    ensures stops { IfErr result IsStop }
    ensures faults { S.faults shelf.old ≤ S.faults shelf.new }
    ensures taken { S.taken shelf.old ≤ S.taken shelf.new }
    ensures came { (files : Files) → S.held shelf.old ≡ Some files → OnOk result (Raises (S.taken shelf.old) (S.taken shelf.new) (size_of files (chars name.now))) }
    ensures held { S.held shelf.new ≡ S.held shelf.old }
    ensures honest { S.honest shelf.new ≡ S.honest shelf.old }
{
    match fetch(alloc, shelf, name) {
        Ok(bytes) => text_of(alloc, file, bytes.as_slice()),
        Err(FetchFault::Failed) => Err(Status::ReadFault { file }),
        Err(FetchFault::TooLarge) => Err(Status::TooLarge { file }),
        Err(FetchFault::Memory) => Err(Status::Memory),
    }
}
