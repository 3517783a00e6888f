//! The text of `help`.

ghost use Rattle.std.specs.Prelude.{◌≡◌};
ghost use Rattle.command_words.specs.Words.{help_text};

/// A line for each command.
pub fn help_text() -> &'static str
    ensures { result.now ≡ help_text }
{
    "morphq import TABLE\n\
     morphq export TABLE\n\
     morphq reformat TABLE\n\
     morphq check\n\
     morphq explain\n\
     morphq query [--lanes N] [--strategy NAME] [--trace] [--dump N]\n\
     morphq demo [--lanes N] [--strategy NAME] [--seed N] [--rows N]\n\
     morphq help\n"
}
