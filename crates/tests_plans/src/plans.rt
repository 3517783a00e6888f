//! The plan of a query's text, as lines.

ghost use Rattle.std.specs.Prelude.{IfOk};
ghost use Rattle.catalog_core.specs.LawfulSchemas.{IsSchema};

use catalog_core::{Schema, SchemaError, read_schema};
use plan_core::{explain, plan_of};
use query_bind::bind;
use query_text::read_query;
use std::alloc::{AllocError, Global};
use stream_core::{Bytes, List};

/// A fact table and four dimensions, of which `supplier` has keys that may repeat.
const SCHEMA: &[u8] = br#"
[[table]]
name = "lineorder"
role = "fact"
column = [
  { name = "lo_orderdate", kind = "number" },
  { name = "lo_custkey", kind = "number" },
  { name = "lo_suppkey", kind = "number" },
  { name = "lo_partkey", kind = "number" },
  { name = "lo_quantity", kind = "number" },
  { name = "lo_discount", kind = "number" },
  { name = "lo_extendedprice", kind = "number" },
  { name = "lo_revenue", kind = "number" },
  { name = "lo_supplycost", kind = "number" },
]

[[table]]
name = "date"
role = "dimension"
key = "d_datekey"
column = [
  { name = "d_datekey", kind = "number" },
  { name = "d_year", kind = "number" },
]

[[table]]
name = "customer"
role = "dimension"
key = "c_custkey"
column = [
  { name = "c_custkey", kind = "number" },
  { name = "c_nation", kind = "text" },
  { name = "c_region", kind = "text" },
]

[[table]]
name = "supplier"
role = "dimension"
key = "s_suppkey"
repeats = true
column = [
  { name = "s_suppkey", kind = "number" },
  { name = "s_region", kind = "text" },
]

[[table]]
name = "part"
role = "dimension"
key = "p_partkey"
column = [
  { name = "p_partkey", kind = "number" },
  { name = "p_mfgr", kind = "text" },
]
"#;

pub fn schema(alloc: Global) -> Result<Schema, SchemaError>
    ensures { IfOk result IsSchema }
{
    read_schema(alloc, SCHEMA)
}

/// The lines of the plan of a text's query, or nothing if the text is refused.
pub fn lines_of(alloc: Global, schema: &Schema, text: &[u8]) -> Result<Bytes, AllocError>
    requires { IsSchema schema.now }
{
    if text.len() <= 65_536 {
        if let Ok(query) = read_query(alloc, text) {
            if let Ok(bound) = bind(alloc, &query, schema) {
                let plan = plan_of(alloc, &bound, schema)?;
                return explain(alloc, &plan, schema);
            }
        }
    }
    Ok(List::from_vec(Vec::new(alloc)))
}
