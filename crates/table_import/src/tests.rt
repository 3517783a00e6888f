//! That a text is imported with ample memory, and that it means what was meant.

ghost use Rattle.std.specs.Prelude.{IfOk};
ghost use Rattle.catalog_core.specs.LawfulSchemas.{IsSchema};

use crate::{ImportError, TableData, import_table};
use catalog_core::{Schema, SchemaError, read_schema};
use std::alloc::{AllocError, Global};
use std::process::Abort;
use std::test::Fail;

const SHOPS: &[u8] = br#"
[[table]]
name = "shops"
role = "dimension"
key = "shop"
header = true
column = [
  { name = "shop", kind = "number" },
  { name = "city", kind = "text" },
]
"#;

fn schema(rt: &impl Abort, alloc: Global) -> Result<Schema, AllocError>
    ensures { IfOk result IsSchema }
{
    match read_schema(alloc, SHOPS) {
        Ok(schema) => Ok(schema),
        Err(SchemaError::Memory) => Err(AllocError),
        Err(_) => {
            assert!(rt; false, "the schema is refused");
            Err(AllocError)
        }
    }
}

/// What the text gives for the table above.
fn imported(rt: &impl Abort, alloc: Global, text: &[u8]) -> Result<TableData, ImportError> {
    let schema = schema(rt, alloc)?;
    assert_eq!(rt; schema.tables.as_slice().len(), 1);
    import_table(alloc, &schema, 0, text, 3)
}

#[test]
fn texts_are_codes_and_numbers_stay(rt: HostRuntime) -> Result<(), Fail> {
    let text = b"shop,city\n07,Chur\n5,\"Bern,\nBern\"\n18446744073709551615,Chur\n";
    let shops = imported(&rt, rt.alloc(), text)?;
    let columns = shops.columns.as_slice();
    assert_eq!(rt; columns.len(), 2);
    assert_eq!(rt; columns[0].values.as_slice(), [7, 5, u64::MAX].as_slice());
    assert!(rt; columns[0].dictionary.is_none());
    assert_eq!(rt; columns[1].values.as_slice(), [1, 0, 1].as_slice());
    let dictionary = columns[1].dictionary.as_ref().ok_or("no dictionary")?;
    assert_eq!(rt; dictionary.count(), 2);
    assert_eq!(rt; dictionary.text(0), Some(b"Bern,\nBern".as_slice()));
    Ok(())
}

#[test]
fn the_first_refusal_is_named(rt: HostRuntime) {
    let repeated = imported(&rt, rt.alloc(), b"shop,city\n7,Chur\n007,Bern\n");
    assert_eq!(rt; repeated.err(), Some(ImportError::RepeatedKey { row: 2 }));
    let many = imported(&rt, rt.alloc(), b"\n1,a\n2,b\n3,c\n4,d\nx");
    assert_eq!(rt; many.err(), Some(ImportError::TooManyRows));
}
