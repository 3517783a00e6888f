//! The records of a text in memory.

ghost use Rattle.std.specs.Prelude.{◌≡◌, ℕ, List, IfOk, IfErr};
ghost use Rattle.csv.specs.Records.{fields_of};
ghost use Rattle.table_import.specs.Records.{Record, records_in};
ghost use Rattle.table_import.specs.Reads.{Gives, GaveNext};

use crate::errors::ImportError;
use csv::{ByteRecord, Reader, ReaderBuilder};
use std::alloc::Global;

/// A reader of the text's records, with this separator. It gives a header as a record like any other.
pub fn reader_of<'a>(alloc: Global, separator: u8, text: &'a [u8]) -> Reader<&'a [u8]>
    ensures { Gives separator result (records_in separator text.entry.now) }
{
    ReaderBuilder::new()
        .delimiter(separator)
        .has_headers(false)
        .flexible(true)
        .from_reader(alloc, text)
}

/// Reads the next record, if there is one. What a reader over memory answers otherwise is want of memory.
pub fn next_record(reader: &mut Reader<&[u8]>, record: &mut ByteRecord) -> Result<bool, ImportError>
    ensures next { IfOk result (λ found. (separator : ℕ) (records : List Record) → Gives separator reader.old records
        → GaveNext separator records found (fields_of «record».new) reader.new) }
    ensures memory { IfErr result (λ error. error ≡ ImportError.Memory) }
{
    let Ok(found) = reader.read_byte_record(record) else {
        return Err(ImportError::Memory);
    };
    Ok(found)
}
