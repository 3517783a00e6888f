//! Says what texts of queries are answered by over a schema.
//!
//! `query_tool query` takes a schema's text and then texts of queries from standard input, each after its length as a word of 8 bytes,
//! the least byte first. It prints a line for each text of a query: its binding, or why and where it is refused. `query_tool queries`
//! does so for texts of several queries, and `query_tool needs` prints what is to be opened for a query.
#![tactic(auto)]

mod answers;

use answers::{NoAnswer, Task, answers};
use std::io::{Read, Write};
use std::process::ExitCode;
use std::{env, io};

/// What the words ask for.
fn task_of(words: &[String]) -> Option<Task> {
    match words {
        [_, word] if word.as_str() == "query" => Some(Task::One),
        [_, word] if word.as_str() == "queries" => Some(Task::Several),
        [_, word] if word.as_str() == "needs" => Some(Task::Needs),
        _ => None,
    }
}

/// Answers the texts of the input. A failed read or write is an error.
fn run(rt: &HostRuntime, task: Task) -> io::Result<ExitCode> {
    let mut bytes = Vec::new(rt.alloc());
    rt.reader().read_to_end(&mut bytes)?;
    match answers(rt.alloc(), task, bytes.as_slice()) {
        Ok(lines) => {
            io::writer(rt).write_all(lines.as_slice())?;
            Ok(ExitCode::from(0))
        }
        Err(NoAnswer::Schema) => Ok(ExitCode::from(4)),
        Err(NoAnswer::Memory) => Ok(ExitCode::from(6)),
    }
}

fn main(rt: HostRuntime) -> ExitCode {
    let Ok(words) = env::args(&rt) else {
        return ExitCode::from(2);
    };
    let Ok(words) = words.collect::<Vec<String>>(rt.alloc()) else {
        return ExitCode::from(6);
    };
    let Some(task) = task_of(words.as_slice()) else {
        return ExitCode::from(2);
    };
    run(&rt, task).unwrap_or(ExitCode::from(3))
}
