//! The law of imports. The call does nothing: its contract is the law.

ghost use Rattle.table_import.specs.TableData.{OneImport};

/// Rows have one list of columns at most: the numbers, and the codes of each column's one dictionary.
pub fn one_import()
    ensures { OneImport }
{}
