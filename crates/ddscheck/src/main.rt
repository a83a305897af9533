//! `ddscheck`, over the files and the standard streams of the system.
#![tactic(auto)]

use dds_answers::{Disk, Stream, ToolFault, advise, tell_fault};
use dds_options::Detail;
use dds_tool::tool;
use std::alloc::Global;
use std::env::{self, Env};
use std::io;
use std::process::ExitCode;

/// The words of the command line, of which the first is the program's name.
fn words<R: Env + AllocGlobal>(rt: &R) -> io::Result<Vec<String>> {
    Ok(env::args(rt)?.collect(rt.alloc())?)
}

/// The command that the words name; empty where there is none.
fn command_of(words: &[String]) -> &str {
    match words.get(1) {
        Some(word) => word.as_str(),
        None => "",
    }
}

/// How much the words ask to print.
fn detail_of(words: &[String]) -> Detail {
    if words.iter().any(|word| word.as_str() == "--explain") {
        Detail::Explained
    } else {
        Detail::Plain
    }
}

/// Why there are no words.
fn fault_of(alloc: Global, error: &io::Error) -> ToolFault {
    if error.kind() == io::ErrorKind::OutOfMemory {
        return ToolFault::NoMemory;
    }
    match String::from_str(alloc, "error: the words are not UTF-8\n") {
        Ok(text) => ToolFault::Usage(text),
        Err(_) => ToolFault::NoMemory,
    }
}

fn main(rt: HostRuntime) -> ExitCode {
    let mut out = Stream::new(io::writer(&rt));
    let err = rt.stderr();
    let mut err = Stream::new(io::writer(&err));
    let words = match words(&rt) {
        Ok(words) => words,
        Err(error) => {
            let fault = fault_of(rt.alloc(), &error);
            return ExitCode::from(tell_fault(rt.alloc(), &mut err, &fault).status());
        }
    };
    let alloc = rt.alloc();
    let mut files = Disk::new(&rt, alloc);
    let exit = tool(&rt, alloc, words.as_slice(), &mut files, &mut out, &mut err);
    let (command, detail) = (command_of(&words), detail_of(&words));
    advise(&mut err, command, detail, exit, files.unopened());
    ExitCode::from(exit.status())
}
