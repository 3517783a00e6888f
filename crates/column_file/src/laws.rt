//! The laws of refusals. Each call does nothing: its contract is the law.

ghost use Rattle.definitions_columns.specs.FileLaws.{OneFault, NoFault};

/// Bytes have one first fault at most, so there is one right refusal.
pub fn one_fault()
    ensures { OneFault }
{}

/// A column's file has no fault, in either version.
pub fn no_fault()
    ensures { NoFault }
{}
