//! The command that words denote.

ghost use Rattle.std.specs.Prelude.{◌≡◌, Some, None, IfOk, map, string_bytes};
ghost use Rattle.std.specs.Result.{IsErrOf};
ghost use Rattle.command_words.specs.Words.{command_in};
ghost use Rattle.command_words.specs.Views.{command_view};

use crate::arguments::matches_of;
use crate::commands::Command;
use crate::forms::denoted;
use std::alloc::{AllocError, Global};

/// Why words are answered with no command.
#[derive(Clone, Copy, Debug, PartialEq, Eq)]
pub enum WordsError {
    /// They denote none.
    Usage,
    Memory,
}

impl From<AllocError> for WordsError {
    ghost use Rattle.std.specs.Prelude.{◌≡◌};
    ghost use Rattle.command_words.specs.declared.parsing.WordsError.TheVariants as variant;

    ghost from_gives = { λ _ error. error ≡ variant.Memory };

    fn from(_refused: AllocError) -> WordsError {
        WordsError::Memory
    }
}

/// The command that the words denote. They are those after the program's name.
pub fn command_of<'a>(alloc: Global, words: &'a [String]) -> Result<Command<'a>, WordsError>
    ensures command { IfOk result (λ command. command_in (map string_bytes words.entry.now) ≡ Some (command_view command)) }
    ensures usage { IsErrOf result WordsError.Usage → command_in (map string_bytes words.entry.now) ≡ None }
{
    let matches = matches_of(alloc, words)?;
    denoted(&matches).ok_or(WordsError::Usage)
}
