//! Tables that are filled, refuse a column, and are emptied again.

ghost use Rattle.std.specs.Prelude.{◌≡◌, ◌<◌, Some, None, IsSome, IsTrue, length, slice_get};
ghost use Rattle.table_core.specs.Tables.{rows_of, key_values, IsAwaited};

use super::*;
use crate::keys::copied;
use block_core::Format;
use catalog_core::read_schema;
use column_core::encode_list;
use std::process::Abort;
use std::test::Fail;
use stream_core::List;

/// Shops with a key and a city, and sales.
const SCHEMA: &str =
    "[[table]]\nname = \"shops\"\nrole = \"dimension\"\nkey = \"id\"\ncolumn = [{name = \"id\", kind = \"number\"}, {name = \"city\", kind = \"text\"}]\n[[table]]\nname = \"sales\"\nrole = \"fact\"\ncolumn = [{name = \"amount\", kind = \"number\"}]\n";

/// A dictionary file: two texts.
const CITIES: &[u8] = b"MDIC\x01\0\0\0\x02\0\0\0\0\0\0\0\x04\0\0\0Bern\x04\0\0\0Chur";

const ID: ColumnId = ColumnId {
    table: 0,
    column: 0,
};

const CITY: ColumnId = ColumnId {
    table: 0,
    column: 1,
};

// Whether a table is there and not started.
fn is_unset(tables: &Tables, table: u32) -> bool
    ensures within { IsTrue result → table < length tables.now }
    ensures unset { IsTrue result → rows_of tables.now table ≡ None }
{
    match tables.tables.get(table as usize) {
        Some(one) => one.rows.is_none(),
        None => false,
    }
}

fn is_free(slots: &[Option<StoredColumn>], place: usize) -> bool
    ensures { IsTrue result → slice_get slots.now place ≡ Some None }
{
    match slots.get(place) {
        Some(slot) => slot.is_none(),
        None => false,
    }
}

// Whether a column may be put.
fn is_awaited(tables: &Tables, id: ColumnId) -> bool
    ensures { IsTrue result → IsAwaited tables.now id }
{
    match tables.tables.get(id.table as usize) {
        Some(one) => { one.rows.is_some() && is_free(one.columns.as_slice(), id.column as usize) }
        None => false,
    }
}

// Whether a table's key is there.
fn has_key(tables: &Tables, table: u32) -> bool
    ensures { IsTrue result → IsSome (key_values tables.now table) }
{
    tables.key_column(table).is_some()
}

fn no_columns_yet(alloc: Global) -> Result<Tables, Fail> {
    let schema = read_schema(alloc, SCHEMA.as_bytes())
        .ok()
        .ok_or("no schema")?;
    Ok(Tables::new(alloc, &schema)?)
}

// Shops of which the row count is known.
fn shops(rt: &impl Abort, alloc: Global, rows: u64) -> Result<Tables, Fail> {
    let mut tables = no_columns_yet(alloc)?;
    assert!(rt; is_unset(&tables, 0));
    tables.start(0, rows);
    Ok(tables)
}

fn cities(alloc: Global) -> Result<Dictionary, Fail> {
    Ok(Dictionary::read(alloc, List::from_vec(CITIES.to_vec(alloc)?))?)
}

fn expect_values(
    rt: &impl Abort,
    alloc: Global,
    column: Option<&Column>,
    expected: &[u64],
) -> Result<(), Fail> {
    let values = copied(alloc, column.ok_or("no column")?)?;
    assert_eq!(rt; values.as_slice(), expected);
    Ok(())
}

#[test]
fn nothing_is_there_of_new_tables(rt: HostRuntime) -> Result<(), Fail> {
    let mut tables = no_columns_yet(rt.alloc())?;
    assert_eq!(rt; tables.rows(0), None);
    assert_eq!(rt; tables.rows(2), None, "no such table");
    assert!(rt; tables.column(ID).is_none());
    assert!(rt; tables.dictionary(CITY).is_none());
    assert!(rt; tables.take(ID).is_none());
    Ok(())
}

#[test]
fn what_was_put_is_there_and_can_be_taken(rt: HostRuntime) -> Result<(), Fail> {
    let mut tables = shops(&rt, rt.alloc(), 3)?;
    assert_eq!(rt; tables.rows(0), Some(3));
    assert_eq!(rt; tables.rows(1), None, "the other table");
    assert!(rt; is_awaited(&tables, CITY));
    let codes = encode_list(rt.alloc(), &[1, 0, 1], Format::Plain)?;
    let put = tables.put(CITY, codes, Some(cities(rt.alloc())?));
    assert_eq!(rt; put, Ok(()));
    expect_values(&rt, rt.alloc(), tables.column(CITY), &[1, 0, 1])?;
    let text = match tables.dictionary(CITY) {
        Some(dictionary) => dictionary.text(1),
        None => None,
    };
    assert_eq!(rt; text.ok_or("no text")?, b"Chur".as_slice());
    let taken = tables.take(CITY).ok_or("nothing taken")?;
    expect_values(&rt, rt.alloc(), Some(&taken.column), &[1, 0, 1])?;
    assert!(rt; tables.column(CITY).is_none());
    assert_eq!(rt; tables.rows(0), Some(3), "still known");
    Ok(())
}

#[test]
fn a_column_one_row_short_or_long_is_refused(rt: HostRuntime) -> Result<(), Fail> {
    let mut tables = shops(&rt, rt.alloc(), 3)?;
    assert!(rt; is_awaited(&tables, ID));
    let short = encode_list(rt.alloc(), &[5, 7], Format::Plain)?;
    assert_eq!(rt; tables.put(ID, short, None), Err(PutError::Length));
    assert!(rt; is_awaited(&tables, ID), "nothing changed");
    let long = encode_list(rt.alloc(), &[5, 7, 6, 8], Format::Plain)?;
    assert_eq!(rt; tables.put(ID, long, None), Err(PutError::Length));
    assert!(rt; is_awaited(&tables, ID), "nothing changed");
    let right = encode_list(rt.alloc(), &[5, 7, 6], Format::Plain)?;
    assert_eq!(rt; tables.put(ID, right, None), Ok(()));
    Ok(())
}

#[test]
fn a_code_equal_to_the_count_is_refused(rt: HostRuntime) -> Result<(), Fail> {
    let mut tables = shops(&rt, rt.alloc(), 3)?;
    assert!(rt; is_awaited(&tables, CITY));
    let codes = encode_list(rt.alloc(), &[0, 1, 2], Format::Plain)?;
    let put = tables.put(CITY, codes, Some(cities(rt.alloc())?));
    assert_eq!(rt; put, Err(PutError::BadCode));
    assert!(rt; is_awaited(&tables, CITY), "nothing changed");
    let short = encode_list(rt.alloc(), &[2], Format::Plain)?;
    let put = tables.put(CITY, short, Some(cities(rt.alloc())?));
    assert_eq!(rt; put, Err(PutError::Length), "the count is tested first");
    Ok(())
}

#[test]
fn the_value_after_a_whole_block_is_tested(rt: HostRuntime) -> Result<(), Fail> {
    let mut tables = shops(&rt, rt.alloc(), 1025)?;
    assert!(rt; is_awaited(&tables, CITY));
    let mut codes = vec![in rt.alloc(); 1; 1024]?;
    codes.push(2)?;
    let column = encode_list(rt.alloc(), codes.as_slice(), Format::Dynamic)?;
    let put = tables.put(CITY, column, Some(cities(rt.alloc())?));
    assert_eq!(rt; put, Err(PutError::BadCode));
    Ok(())
}

// Whether the keys of shops may be these.
fn checked(rt: &impl Abort, alloc: Global, keys: &[u64]) -> Result<Result<(), KeyError>, Fail> {
    let mut tables = shops(rt, alloc, keys.len() as u64)?;
    assert!(rt; is_awaited(&tables, ID));
    assert!(rt; keys.len() < 1000);
    let column = encode_list(alloc, keys, Format::Plain)?;
    assert_eq!(rt; tables.put(ID, column, None), Ok(()));
    assert!(rt; has_key(&tables, 0));
    Ok(tables.check_key(alloc, 0))
}

#[test]
fn two_equal_keys_are_refused_wherever_they_stand(rt: HostRuntime) -> Result<(), Fail> {
    let apart = checked(&rt, rt.alloc(), &[5, 7, 5])?;
    assert_eq!(rt; apart, Err(KeyError::Repeated));
    let neighbours = checked(&rt, rt.alloc(), &[5, 5, 7])?;
    assert_eq!(rt; neighbours, Err(KeyError::Repeated));
    let differing = checked(&rt, rt.alloc(), &[7, 5, 6])?;
    assert_eq!(rt; differing, Ok(()));
    let none = checked(&rt, rt.alloc(), &[])?;
    assert_eq!(rt; none, Ok(()), "an empty table");
    Ok(())
}
