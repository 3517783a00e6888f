//! Schemas of stars.

/// The tables of the Star Schema Benchmark, with the columns that its queries name.
pub const STAR: &str = r#"
[[table]]
name = "lineorder"
role = "fact"
column = [
  { name = "lo_orderdate", kind = "number" },
  { name = "lo_custkey", kind = "number" },
  { name = "lo_suppkey", kind = "number" },
  { name = "lo_partkey", kind = "number" },
  { name = "lo_quantity", kind = "number" },
  { name = "lo_discount", kind = "number" },
  { name = "lo_extendedprice", kind = "number" },
  { name = "lo_revenue", kind = "number" },
  { name = "lo_supplycost", kind = "number" },
]

[[table]]
name = "date"
role = "dimension"
key = "d_datekey"
column = [
  { name = "d_datekey", kind = "number" },
  { name = "d_year", kind = "number" },
  { name = "d_yearmonthnum", kind = "number" },
  { name = "d_yearmonth", kind = "text" },
  { name = "d_weeknuminyear", kind = "number" },
]

[[table]]
name = "customer"
role = "dimension"
key = "c_custkey"
column = [
  { name = "c_custkey", kind = "number" },
  { name = "c_city", kind = "text" },
  { name = "c_nation", kind = "text" },
  { name = "c_region", kind = "text" },
]

[[table]]
name = "supplier"
role = "dimension"
key = "s_suppkey"
column = [
  { name = "s_suppkey", kind = "number" },
  { name = "s_city", kind = "text" },
  { name = "s_nation", kind = "text" },
  { name = "s_region", kind = "text" },
]

[[table]]
name = "part"
role = "dimension"
key = "p_partkey"
column = [
  { name = "p_partkey", kind = "number" },
  { name = "p_mfgr", kind = "text" },
  { name = "p_category", kind = "text" },
  { name = "p_brand1", kind = "text" },
]
"#;

/// Two fact tables and two dimensions, with numbers and texts in each but one.
pub const TWO_FACTS: &str = r#"
table = [
  { name = "sales", role = "fact", column = [
    { name = "s_day", kind = "number" }, { name = "s_item", kind = "number" },
    { name = "s_price", kind = "number" }, { name = "s_note", kind = "text" } ] },
  { name = "returns", role = "fact", column = [ { name = "r_day", kind = "number" } ] },
  { name = "days", role = "dimension", key = "d_key", column = [
    { name = "d_key", kind = "number" }, { name = "d_month", kind = "text" } ] },
  { name = "items", role = "dimension", key = "i_key", column = [
    { name = "i_key", kind = "number" }, { name = "i_brand", kind = "text" } ] },
]
"#;
