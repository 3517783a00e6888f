//! The laws of opening and of saving. The calls do nothing: their contracts are the laws.

ghost use Rattle.database_core.specs.NowFiles.{NowFilesAreRead};
ghost use Rattle.database_core.specs.Opening.{OneOpening};
ghost use Rattle.database_core.specs.Saving.{OneSaved, SavedStands, SpareFilesAreUnread};
ghost use Rattle.database_core.specs.Standing.{OpenedStands, StandingOpens};

/// Files open in one way at most: as these tables, or with this first refusal.
pub fn one_opening()
    ensures { OneOpening }
{}

/// What is opened is just what the files hold of the needed tables and columns, and files that hold it open.
pub fn opened_stands()
    ensures stands { OpenedStands }
    ensures opens { StandingOpens }
{}

/// A now file says the slot and the row count that it was made of, and no other bytes are a now file.
pub fn now_files_are_read()
    ensures { NowFilesAreRead }
{}

/// A table is saved in one way at most: from the same files and columns the same files come.
pub fn one_saved()
    ensures { OneSaved }
{}

/// What was saved stands in the files: the row count, and each column whose values are codes and whose files are not too long.
pub fn saved_stands()
    ensures { SavedStands }
{}

/// No opening reads a data file in the slot that does not hold a table's rows.
pub fn spare_files_are_unread()
    ensures { SpareFilesAreUnread }
{}
