//! The laws of refusals. The call does nothing: its contract is the law.

ghost use Rattle.table_commands.specs.Databases.{SchemaRefusalsAreSaid, OpeningRefusalsAreSaid};
ghost use Rattle.table_commands.specs.Importing.{ImportRefusalsAreSaid};

/// A refusal says what is wrong: no bytes and no files are answered with want of memory or a failed call.
pub fn refusals_are_said()
    ensures schema { SchemaRefusalsAreSaid }
    ensures opening { OpeningRefusalsAreSaid }
    ensures import { ImportRefusalsAreSaid }
{}
