//! A law of the words. The call does nothing: its contract is the law.

ghost use Rattle.command_words.specs.Words.{NameChangesNothing};

/// With the program's name before them, the words are read as the ones after it.
pub fn name_changes_nothing()
    ensures { NameChangesNothing }
{}
