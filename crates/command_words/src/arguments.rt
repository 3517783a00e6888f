//! The arguments that a line may hold, and the words as `clap` reads them.

ghost use Rattle.std.specs.Prelude.{◌≡◌, ◌≢◌, false, [], IfOk, IfErr, map, string_bytes};
ghost use Rattle.clap.specs.Words.{app_of, fault_of, found_of, matches_of, rows_of, rule_of};
ghost use Rattle.command_words.specs.Words.{placed, text_option, number_option, flag, program};

use crate::parsing::WordsError;
use clap::error::ErrorKind;
use clap::{Arg, ArgAction, ArgMatches};
use std::alloc::{AllocError, Global};

fn placed<'a>(alloc: Global, id: &'a str, required: bool) -> Arg<'a>
    ensures rule { rule_of result ≡ placed id.entry.now required }
    ensures own { result.global ≡ false }
{
    Arg::new(alloc, id).required(required)
}

fn text_option<'a>(alloc: Global, id: &'a str) -> Arg<'a>
    ensures rule { rule_of result ≡ text_option id.entry.now }
    ensures own { result.global ≡ false }
{
    Arg::new(alloc, id).long(id)
}

fn number_option<'a>(alloc: Global, id: &'a str) -> Arg<'a>
    ensures rule { rule_of result ≡ number_option id.entry.now }
    ensures own { result.global ≡ false }
{
    Arg::new(alloc, id)
        .long(id)
        .value_parser(clap::value_parser!(u64))
}

fn flag<'a>(alloc: Global, id: &'a str) -> Arg<'a>
    ensures rule { rule_of result ≡ flag id.entry.now }
    ensures own { result.global ≡ false }
{
    Arg::new(alloc, id).long(id).action(ArgAction::SetTrue)
}

/// The simple command. It is told that the words begin after the program's name, which spares a list of them with the name.
fn program<'a>(alloc: Global) -> Result<clap::Command<'a>, AllocError>
    ensures { IfOk result (λ command. app_of command ≡ program) }
{
    clap::Command::new(alloc, "morphq")
        .no_binary_name(true)
        .arg(placed(alloc, "command", true))?
        .arg(placed(alloc, "table", false))?
        .arg(number_option(alloc, "lanes"))?
        .arg(number_option(alloc, "dump"))?
        .arg(number_option(alloc, "seed"))?
        .arg(number_option(alloc, "rows"))?
        .arg(text_option(alloc, "strategy"))?
        .arg(flag(alloc, "trace"))
}

/// What `clap` reads from the words.
pub(crate) fn matches_of<'a>(
    alloc: Global,
    words: &'a [String],
) -> Result<ArgMatches<'a>, WordsError>
    ensures takes { IfOk result (λ matches. fault_of program (map string_bytes words.entry.now) ≡ []) }
    ensures rows { IfOk result (λ matches. rows_of (found_of matches) ≡ matches_of program (map string_bytes words.entry.now)) }
    ensures refused { IfErr result (λ error. error ≢ WordsError.Memory → fault_of program (map string_bytes words.entry.now) ≢ []) }
{
    match program(alloc)?.try_get_matches_from(words) {
        Ok(matches) => Ok(matches),
        Err(error) => match error.kind() {
            ErrorKind::OutOfMemory => Err(WordsError::Memory),
            _ => Err(WordsError::Usage),
        },
    }
}
