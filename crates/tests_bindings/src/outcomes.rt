//! What a text is answered by: the binding, or the refusal's cause and its place.

ghost use Rattle.std.specs.Prelude.{IfOk};
ghost use Rattle.catalog_core.specs.LawfulSchemas.{IsSchema};

use binding_text::{put_needed, put_outcome, put_outcomes};
use catalog_core::{Schema, SchemaError, read_schema};
use std::alloc::{AllocError, Global};

/// Two fact tables and two dimensions. The key of `customer` is not its first column.
const SCHEMA: &[u8] = br#"
[[table]]
name = "lineorder"
role = "fact"
column = [
  { name = "lo_orderdate", kind = "number" },
  { name = "lo_quantity", kind = "number" },
  { name = "lo_discount", kind = "number" },
  { name = "lo_extendedprice", kind = "number" },
  { name = "lo_custkey", kind = "number" },
  { name = "lo_shipmode", kind = "text" },
]

[[table]]
name = "date"
role = "dimension"
key = "d_datekey"
column = [
  { name = "d_datekey", kind = "number" },
  { name = "d_year", kind = "number" },
]

[[table]]
name = "customer"
role = "dimension"
key = "c_custkey"
column = [
  { name = "c_nation", kind = "text" },
  { name = "c_custkey", kind = "number" },
  { name = "c_region", kind = "text" },
]

[[table]]
name = "returns"
role = "fact"
column = [
  { name = "r_date", kind = "number" },
]
"#;

pub fn schema(alloc: Global) -> Result<Schema, SchemaError>
    ensures { IfOk result IsSchema }
{
    read_schema(alloc, SCHEMA)
}

/// The outcome of a text over the schema, of one query or of several.
pub fn of_text(
    alloc: Global,
    schema: &Schema,
    text: &[u8],
    several: bool,
) -> Result<Vec<u8>, AllocError>
    requires { IsSchema schema.now }
{
    let mut out = Vec::new(alloc);
    if several {
        put_outcomes(alloc, &mut out, text, schema)?;
    } else {
        put_outcome(alloc, &mut out, text, schema)?;
    }
    Ok(out)
}

/// What is to be opened for the query of a text over the schema.
pub fn needs_in(alloc: Global, schema: &Schema, text: &[u8]) -> Result<Vec<u8>, AllocError>
    requires { IsSchema schema.now }
{
    let mut out = Vec::new(alloc);
    put_needed(alloc, &mut out, text, schema)?;
    Ok(out)
}
