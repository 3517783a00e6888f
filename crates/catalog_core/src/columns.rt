//! The tables and columns of a schema by number, and lists of those that are needed.

ghost use Rattle.std.specs.Prelude.{◌≡◌, ◌<◌, ◌++◌, length, IfOk, IfSome, OnOk};
ghost use Rattle.std.specs.List.{position};
ghost use Rattle.std.specs.Str.{bytes_eq};
ghost use Rattle.catalog_core.specs.LawfulSchemas.{IsSchema};
ghost use Rattle.catalog_core.specs.CountedColumns.{counted_columns};
ghost use Rattle.catalog_core.specs.Columns.{IsNeeds, table_named, needs_of_table, needs_of_all};

use crate::schemas::{Schema, TableDef};
use std::alloc::{AllocError, Global};
use stream_core::List;

/// A column by the number of its table in the schema and its own number in the table, both from 0.
#[derive(Clone, Copy, Debug, PartialEq, Eq)]
pub struct ColumnId {
    pub table: u32,
    pub column: u32,
}

/// The tables and columns that a command needs, in the order of the schema and none twice. Each column is one of these tables'.
#[derive(Drop)]
pub struct Needs {
    pub tables: List<u32>,
    pub columns: List<ColumnId>,
}

/// Adds the columns of a table.
fn push_columns(columns: &mut Vec<ColumnId>, table: u32, count: u32) -> Result<(), AllocError>
    ensures { OnOk result (columns.new.items ≡ columns.old.items ++ counted_columns table count) }
{
    for column in 0..count {
        columns.push(ColumnId { table, column })?;
    }
    Ok(())
}

/// The place of the table of a name.
fn place_named(tables: &[TableDef], name: &str) -> Option<usize>
    ensures { result ≡ position (λ table. bytes_eq name.now table.name) tables.now }
{
    tables.iter().position(|table| name == table.name.as_str())
}

impl Schema {
    /// The number of the table of a name.
    pub fn table_named(&self, name: &str) -> Option<u32>
        requires { IsSchema self.now }
        ensures number { result ≡ table_named self.now name.now }
        ensures within { IfSome result (λ table. table < length self.now.tables) }
    {
        match place_named(self.tables.as_slice(), name) {
            Some(table) => Some(table as u32),
            None => None,
        }
    }
}

impl Needs {
    /// One table with all its columns.
    pub fn of_table(alloc: Global, schema: &Schema, table: u32) -> Result<Needs, AllocError>
        requires lawful { IsSchema schema.now }
        requires within { table < length schema.now.tables }
        ensures needs { IfOk result (λ needs. needs ≡ needs_of_table schema.now table) }
        ensures ordered { IfOk result (IsNeeds schema.now) }
    {
        let count = schema.tables.as_slice()[table as usize]
            .columns
            .as_slice()
            .len() as u32;
        let mut columns = Vec::new(alloc);
        push_columns(&mut columns, table, count)?;
        Ok(Needs {
            tables: List::from_vec(vec![in alloc; table]?),
            columns: List::from_vec(columns),
        })
    }

    /// All tables with all their columns.
    pub fn of_all(alloc: Global, schema: &Schema) -> Result<Needs, AllocError>
        requires { IsSchema schema.now }
        ensures needs { IfOk result (λ needs. needs ≡ needs_of_all schema.now) }
        ensures ordered { IfOk result (IsNeeds schema.now) }
    {
        let all = schema.tables.as_slice();
        let mut tables = Vec::new(alloc);
        let mut columns = Vec::new(alloc);
        for table in 0..all.len() {
            tables.push(table as u32)?;
            push_columns(
                &mut columns,
                table as u32,
                all[table].columns.as_slice().len() as u32,
            )?;
        }
        Ok(Needs {
            tables: List::from_vec(tables),
            columns: List::from_vec(columns),
        })
    }
}
