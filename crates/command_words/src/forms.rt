//! The table of the commands.

ghost use Rattle.std.specs.Prelude.{◌≡◌, [], ◌∷◌, codes, map, option_map, if◌then◌else◌, Some, None};
ghost use Rattle.clap.specs.Words.{first_of, found_of, rows_of};
ghost use Rattle.command_words.specs.Words.{has_only, command_at, denoted};
ghost use Rattle.command_words.specs.Views.{command_view};

use crate::commands::Command;
use crate::matching::{has_only, text_at};
use crate::options::{demo_in, query_in};
use clap::ArgMatches;

/// The table, if nothing else is given.
fn lone_table<'a>(matches: &ArgMatches<'a>) -> Option<&'a str>
    ensures { option_map (λ table. table.now) result
        ≡ (if has_only (codes "table" ∷ []) (rows_of (found_of matches.now))
        then first_of (codes "table") (rows_of (found_of matches.now)) else None) }
{
    if has_only(matches, &["table"]) {
        text_at(matches, "table")
    } else {
        None
    }
}

/// The command, if nothing is given.
fn alone<'a>(matches: &ArgMatches<'a>, command: Command<'a>) -> Option<Command<'a>>
    ensures { option_map command_view result
        ≡ (if has_only [] (rows_of (found_of matches.now)) then Some (command_view command.entry) else None) }
{
    if has_only(matches, &[]) {
        Some(command)
    } else {
        None
    }
}

/// The command of this word.
fn command_at<'a>(word: &str, matches: &ArgMatches<'a>) -> Option<Command<'a>>
    ensures { option_map command_view result ≡ command_at word.now (rows_of (found_of matches.now)) }
{
    match word {
        "import" => lone_table(matches).map(|table| Command::Import { table }),
        "export" => lone_table(matches).map(|table| Command::Export { table }),
        "reformat" => lone_table(matches).map(|table| Command::Reformat { table }),
        "check" => alone(matches, Command::Check),
        "explain" => alone(matches, Command::Explain),
        "query" if has_only(matches, &["lanes", "strategy", "trace", "dump"]) => query_in(matches),
        "demo" if has_only(matches, &["lanes", "strategy", "seed", "rows"]) => demo_in(matches),
        "help" => alone(matches, Command::Help),
        _ => None,
    }
}

/// The command that the matches are.
pub(crate) fn denoted<'a>(matches: &ArgMatches<'a>) -> Option<Command<'a>>
    ensures { option_map command_view result ≡ denoted (rows_of (found_of matches.now)) }
{
    command_at(text_at(matches, "command")?, matches)
}
