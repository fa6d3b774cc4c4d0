//! The command line: runs the session of a plan in threads, and prints what happened in the order that it really took.
#![tactic(auto)]

mod answer;
mod kind;
mod limits;
mod run;
mod status;
#[cfg(test)]
mod tests;

pub use kind::ReportKind;
use kind::words_of;
use live_session::OpenGate;
use mpt_outside::{StdSink, StdSource};
use mpt_text::OutOfMemory;
pub use run::run_live;
pub use status::Status;
use std::alloc::Global;
use std::process::ExitCode;
use std::{env, io};

fn main(rt: HostRuntime) -> ExitCode {
    let Ok(arguments) = arguments(&rt) else {
        return ExitCode::from(Status::OutOfMemory.number());
    };
    let mut source = StdSource::new(rt.reader());
    let mut sink = StdSink::new(io::writer(&rt));
    let words = words_of(&arguments);
    let status = run_live(&rt, rt.alloc(), words, &mut source, &mut sink, &OpenGate);
    ExitCode::from(status.number())
}

// The arguments. Where one isn't UTF-8, which no command has, there are two empty ones behind the program's name.
fn arguments(rt: &HostRuntime) -> Result<Vec<String>, OutOfMemory> {
    match env::args(rt) {
        Ok(arguments) => arguments.collect(rt.alloc()),
        Err(error) if error.kind() == io::ErrorKind::OutOfMemory => Err(OutOfMemory),
        Err(_) => no_command(rt.alloc()),
    }
}

fn no_command(alloc: Global) -> Result<Vec<String>, OutOfMemory> {
    let mut arguments = Vec::new(alloc);
    arguments.push(String::new(alloc))?;
    arguments.push(String::new(alloc))?;
    Ok(arguments)
}
