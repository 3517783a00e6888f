//! The options, each read by its rule.

ghost use Rattle.std.specs.Prelude.{◌≡◌, Some, option_map};
ghost use Rattle.clap.specs.Words.{found_of, rows_of};
ghost use Rattle.command_words.specs.Words.{lanes_in, strategy_in, dump_in, seed_in, rows_in, query_in, demo_in};
ghost use Rattle.command_words.specs.Views.{command_view};

use crate::commands::{Command, DemoOptions, QueryOptions};
use crate::matching::{is_given, number_at, text_at};
use clap::ArgMatches;
use stream_core::is_name;

fn lanes_in(matches: &ArgMatches) -> Option<u8>
    ensures { result ≡ lanes_in (rows_of (found_of matches.now)) }
{
    match number_at(matches, "lanes") {
        None => Some(8),
        Some(1) => Some(1),
        Some(2) => Some(2),
        Some(4) => Some(4),
        Some(8) => Some(8),
        Some(16) => Some(16),
        Some(_) => None,
    }
}

fn strategy_in<'a>(matches: &ArgMatches<'a>) -> Option<Option<&'a str>>
    ensures { option_map (option_map (λ name. name.now)) result ≡ strategy_in (rows_of (found_of matches.now)) }
{
    match text_at(matches, "strategy") {
        None => Some(None),
        Some(name) if is_name(name) => Some(Some(name)),
        Some(_) => None,
    }
}

fn dump_in(matches: &ArgMatches) -> Option<Option<u64>>
    ensures { result ≡ dump_in (rows_of (found_of matches.now)) }
{
    match number_at(matches, "dump") {
        None => Some(None),
        Some(0) => None,
        Some(number) => Some(Some(number)),
    }
}

fn seed_in(matches: &ArgMatches) -> Option<u64>
    ensures { result ≡ seed_in (rows_of (found_of matches.now)) }
{
    Some(number_at(matches, "seed").unwrap_or(1))
}

fn rows_in(matches: &ArgMatches) -> Option<u64>
    ensures { result ≡ rows_in (rows_of (found_of matches.now)) }
{
    match number_at(matches, "rows") {
        None => Some(1000),
        Some(rows) if rows <= 1_000_000 => Some(rows),
        Some(_) => None,
    }
}

pub(crate) fn query_in<'a>(matches: &ArgMatches<'a>) -> Option<Command<'a>>
    ensures { option_map command_view result ≡ query_in (rows_of (found_of matches.now)) }
{
    Some(Command::Query(QueryOptions {
        lanes: lanes_in(matches)?,
        strategy: strategy_in(matches)?,
        dump: dump_in(matches)?,
        trace: is_given(matches, "trace"),
    }))
}

pub(crate) fn demo_in<'a>(matches: &ArgMatches<'a>) -> Option<Command<'a>>
    ensures { option_map command_view result ≡ demo_in (rows_of (found_of matches.now)) }
{
    Some(Command::Demo(DemoOptions {
        lanes: lanes_in(matches)?,
        strategy: strategy_in(matches)?,
        seed: seed_in(matches)?,
        rows: rows_in(matches)?,
    }))
}
