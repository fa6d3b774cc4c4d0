//! The command line: decodes one message, descriptor, page or scatter list from hexadecimal, carries out
//! a schedule and prints what happened, or prints a schedule.
#![tactic(auto)]

mod answer;
mod decode;
mod input;
mod job;
mod replay;
#[cfg(test)]
mod replay_tests;
mod run;
mod scatter_input;
mod status;
#[cfg(test)]
mod tests;

use job::words_of;
pub use job::{Decoded, Job, Question};
use mpt_outside::{StdSink, StdSource};
use mpt_text::OutOfMemory;
pub use run::run;
pub use status::Status;
use std::process::ExitCode;
use std::{env, io};

fn main(rt: HostRuntime) -> ExitCode {
    let Ok(arguments) = arguments(&rt) else {
        return ExitCode::from(Status::OutOfMemory.number());
    };
    let mut source = StdSource::new(rt.reader());
    let mut sink = StdSink::new(io::writer(&rt));
    let status = run(rt.alloc(), words_of(&arguments), &mut source, &mut sink);
    ExitCode::from(status.number())
}

// The arguments. Where one isn't UTF-8 there are none, which no command has.
fn arguments(rt: &HostRuntime) -> Result<Vec<String>, OutOfMemory> {
    match env::args(rt) {
        Ok(arguments) => arguments.collect(rt.alloc()),
        Err(error) if error.kind() == io::ErrorKind::OutOfMemory => Err(OutOfMemory),
        Err(_) => Ok(Vec::new(rt.alloc())),
    }
}
