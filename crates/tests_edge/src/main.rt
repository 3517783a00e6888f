//! Commands and calls of the store over the real outside. Each case prints what the command writes, and then a line with its
//! name and its status.
//!
//! The program runs in a folder of its own, `data/`. It ends with the sum of all statuses, so that neither a status that is
//! left out nor one that is always 0 goes unseen.
#![tactic(auto)]

mod checks;
mod commands;
mod files;
mod queries;
mod streams;

use std::io;
use std::process::ExitCode;

/// The status if a line cannot be printed. The sum of the statuses is another number.
const UNPRINTED: u8 = 255;

/// The sum of the statuses of all cases.
fn sum_of_statuses(rt: &HostRuntime) -> io::Result<u8> {
    let queries = queries::sum_of_statuses(rt)?;
    let streams = streams::sum_of_statuses(rt)?;
    let checks = checks::sum_of_statuses(rt)?;
    files::print_cases(rt)?;
    Ok(queries.saturating_add(streams).saturating_add(checks))
}

fn main(rt: HostRuntime) -> ExitCode {
    ExitCode::from(sum_of_statuses(&rt).unwrap_or(UNPRINTED))
}
