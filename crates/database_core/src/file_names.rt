//! The names of a table's files.

ghost use Rattle.std.specs.Prelude.{◌≡◌};
ghost use Rattle.stream_core.specs.Names.{now_file_name, column_file_name, dictionary_file_name};
ghost use Rattle.database_core.specs.NowViews.{letter_of};

use crate::now_files::Slot;
use arrayvec::ArrayString;
use stream_core::{FileName, Name};

/// `TABLE.now`.
pub fn now_file_name(table: &Name) -> FileName
    ensures { result ≡ now_file_name table.now }
{
    let mut name = ArrayString::<72>::new();
    name.push_str(table.as_str());
    name.push_str(".now");
    FileName::of(name.as_str()).unwrap()
}

/// `TABLE.SLOT.COLUMN.col`.
pub fn column_file_name(table: &Name, slot: Slot, column: &Name) -> FileName
    ensures { result ≡ column_file_name table.now (letter_of slot) column.now }
{
    let mut name = ArrayString::<72>::new();
    name.push_str(table.as_str());
    name.push_str(".");
    name.push(char::from(slot.letter()));
    name.push_str(".");
    name.push_str(column.as_str());
    name.push_str(".col");
    FileName::of(name.as_str()).unwrap()
}

/// `TABLE.SLOT.COLUMN.dic`.
pub fn dictionary_file_name(table: &Name, slot: Slot, column: &Name) -> FileName
    ensures { result ≡ dictionary_file_name table.now (letter_of slot) column.now }
{
    let mut name = ArrayString::<72>::new();
    name.push_str(table.as_str());
    name.push_str(".");
    name.push(char::from(slot.letter()));
    name.push_str(".");
    name.push_str(column.as_str());
    name.push_str(".dic");
    FileName::of(name.as_str()).unwrap()
}
