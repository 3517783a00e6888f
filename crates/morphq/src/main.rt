//! The program `morphq`: the words of its command line, the files of the current folder, standard input and standard
//! output, handed to the top call, whose status it ends with.
#![tactic(auto)]

use engine_tool::run;
use host_edge::{FolderStore, StdSink, StdSource};
use std::alloc::AllocError;
use std::process::ExitCode;
use std::rt::Env;
use std::{env, io};

/// The status where memory for the words is refused.
const MEMORY: u8 = 6;

/// The words after the program's name. One that isn't UTF-8 stands for all of them as an empty word, which is no command.
fn words(rt: &(impl Env + AllocGlobal)) -> Result<Vec<String>, AllocError> {
    let mut words = Vec::new(rt.alloc());
    match env::args(rt) {
        Ok(args) => {
            for word in args.skip(1) {
                words.push(word)?;
            }
        }
        Err(error) if error.kind() == io::ErrorKind::OutOfMemory => return Err(AllocError),
        Err(_) => words.push(String::new(rt.alloc()))?,
    }
    Ok(words)
}

fn main(rt: HostRuntime) -> ExitCode {
    let Ok(words) = words(&rt) else {
        return ExitCode::from(MEMORY);
    };
    let mut store = FolderStore::new(&rt);
    let mut input = StdSource::new(rt.reader());
    let mut out = StdSink::new(io::writer(&rt));
    let status = run(
        rt.alloc(),
        words.as_slice(),
        &mut store,
        &mut input,
        &mut out,
    );
    ExitCode::from(status)
}
