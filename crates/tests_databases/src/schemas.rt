//! A schema that is read, and the lists of its tables and columns.

ghost use Rattle.std.specs.Prelude.{IfOk};
ghost use Rattle.catalog_core.specs.LawfulSchemas.{IsSchema};

use block_core::{Format, FormatChoice};
use catalog_core::{
    ColumnDef, ColumnId, Kind, Needs, Role, Schema, SchemaError, TableDef, read_schema,
};
use std::alloc::{AllocError, Global};
use std::process::Abort;
use std::test::Fail;

const TEXT: &[u8] = br#"
[[table]]
name = "sales"
role = "fact"
separator = "|"
trailing = true
column = [
  { name = "shop", kind = "number", format = "delta1+runs" },
  { name = "amount", kind = "number" },
]

[[table]]
name = "shops"
role = "dimension"
key = "shop_key"
repeats = true
header = true
column = [
  { name = "city", kind = "text", format = "auto" },
  { name = "shop_key", kind = "number" },
]
"#;

/// The schema of the text above.
fn schema(rt: &impl Abort, alloc: Global) -> Result<Schema, AllocError>
    ensures { IfOk result IsSchema }
{
    match read_schema(alloc, TEXT) {
        Ok(schema) => Ok(schema),
        Err(SchemaError::Memory) => Err(AllocError),
        Err(_) => {
            assert!(rt; false, "the schema is refused");
            Err(AllocError)
        }
    }
}

fn expect_table(rt: &impl Abort, table: &TableDef, name: &str, role: Role, key: Option<u32>) {
    assert_eq!(rt; table.name.as_str(), name);
    assert_eq!(rt; table.role, role, "{name}");
    assert_eq!(rt; table.key, key, "{name}");
}

/// The byte between fields, and whether there is a header, a closing separator, and keys that repeat.
fn expect_text(rt: &impl Abort, table: &TableDef, separator: u8, flags: [bool; 3]) {
    assert_eq!(rt; table.separator, separator);
    assert_eq!(rt; [table.header, table.trailing, table.repeats], flags);
}

fn expect_column(
    rt: &impl Abort,
    column: &ColumnDef,
    name: &str,
    kind: Kind,
    format: FormatChoice,
) {
    assert_eq!(rt; column.name.as_str(), name);
    assert_eq!(rt; column.kind, kind, "{name}");
    assert_eq!(rt; column.format, format, "{name}");
}

#[test]
fn each_key_of_a_schema_is_read(rt: HostRuntime) -> Result<(), Fail> {
    let schema = schema(&rt, rt.alloc())?;
    let tables = schema.tables.as_slice();
    assert_eq!(&rt; tables.len(), 2);
    expect_table(&rt, &tables[0], "sales", Role::Fact, None);
    expect_text(&rt, &tables[0], b'|', [false, true, false]);
    expect_table(&rt, &tables[1], "shops", Role::Dimension, Some(1));
    expect_text(&rt, &tables[1], b',', [true, false, true]);
    let sales = tables[0].columns.as_slice();
    let shops = tables[1].columns.as_slice();
    assert_eq!(&rt; (sales.len(), shops.len()), (2, 2));
    let runs = FormatChoice::Fixed(Format::Delta1Runs);
    let plain = FormatChoice::Fixed(Format::Plain);
    expect_column(&rt, &sales[0], "shop", Kind::Number, runs);
    expect_column(&rt, &sales[1], "amount", Kind::Number, plain);
    expect_column(&rt, &shops[0], "city", Kind::Text, FormatChoice::Auto);
    expect_column(&rt, &shops[1], "shop_key", Kind::Number, plain);
    Ok(())
}

/// A column by two numbers.
fn id(table: u32, column: u32) -> ColumnId {
    ColumnId { table, column }
}

#[test]
fn one_table_or_all_are_needed_with_all_columns(rt: HostRuntime) -> Result<(), Fail> {
    let schema = schema(&rt, rt.alloc())?;
    let all = Needs::of_all(rt.alloc(), &schema)?;
    assert_eq!(&rt; all.tables.as_slice(), [0, 1].as_slice());
    assert_eq!(&rt;
        all.columns.as_slice(),
        [id(0, 0), id(0, 1), id(1, 0), id(1, 1)].as_slice()
    );
    assert!(&rt; schema.tables.as_slice().len() == 2);
    let one = Needs::of_table(rt.alloc(), &schema, 1)?;
    assert_eq!(&rt; one.tables.as_slice(), [1].as_slice());
    assert_eq!(&rt; one.columns.as_slice(), [id(1, 0), id(1, 1)].as_slice());
    Ok(())
}
