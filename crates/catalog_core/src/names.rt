//! The names of a schema's tables and columns, and the first that stands twice.

ghost use Rattle.std.specs.Prelude.{◌≡◌, ◌++◌, ℕ, List, OnOk, IfOk, map, true, cond};
ghost use Rattle.std.specs.Str.{bytes_eq};
ghost use Rattle.definitions_outcomes.specs.Computed.{Answers};
ghost use Rattle.catalog_core.specs.Schemas.{distinct, table_names, column_names};
ghost use Rattle.catalog_core.specs.SeenNames.{is_seen};

use crate::errors::SchemaError;
use crate::schemas::{ColumnDef, TableDef};
use std::alloc::{AllocError, Global};
use std::collections::BTreeSet;
use stream_core::Name;

/// Adds a name, and says whether it was there.
fn see<'a>(seen: &mut BTreeSet<&'a str>, name: &'a str) -> Result<bool, AllocError>
    ensures there { IfOk result (λ there. there ≡ is_seen seen.old name.entry.now) }
    ensures adds { OnOk result ((other : List ℕ) → is_seen seen.new other ≡ cond (bytes_eq name.entry.now other) true (is_seen seen.old other)) }
{
    let added = seen.insert(name)?;
    Ok(!added)
}

/// Whether no name stands twice. The names so far are held in a tree, so the time is n log n.
pub fn distinct(alloc: Global, names: &[&Name]) -> Result<(), SchemaError>
    ensures { Answers SchemaError.Memory (distinct (map (λ name. name.now) names.now)) result }
{
    let mut seen = BTreeSet::new(alloc);
    for place in 0..names.len() {
        let name = names[place];
        if see(&mut seen, name.as_str())? {
            return Err(SchemaError::Repeated {
                name: Name::of(name.as_str()).unwrap(),
            });
        }
    }
    Ok(())
}

pub fn table_names<'a>(alloc: Global, tables: &'a [TableDef]) -> Result<Vec<&'a Name>, AllocError>
    ensures { IfOk result (λ names. map (λ name. name.now) names.items ≡ table_names tables.entry.now) }
{
    let mut names = Vec::new(alloc);
    for table in tables {
        names.push(&table.name)?;
    }
    Ok(names)
}

/// Adds the names of the columns.
fn push_names<'a>(names: &mut Vec<&'a Name>, columns: &'a [ColumnDef]) -> Result<(), AllocError>
    ensures { OnOk result (map (λ name. name.now) names.new.items ≡ map (λ name. name.now) names.old.items ++ map (λ column. column.name) columns.entry.now) }
{
    for column in columns {
        names.push(&column.name)?;
    }
    Ok(())
}

pub fn column_names<'a>(alloc: Global, tables: &'a [TableDef]) -> Result<Vec<&'a Name>, AllocError>
    ensures { IfOk result (λ names. map (λ name. name.now) names.items ≡ column_names tables.entry.now) }
{
    let mut names = Vec::new(alloc);
    for table in tables {
        push_names(&mut names, table.columns.as_slice())?;
    }
    Ok(names)
}
