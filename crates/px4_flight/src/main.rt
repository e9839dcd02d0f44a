//! The program: runs the command that its words name over standard input and output, prints what went wrong to standard
//! error, and ends with the number of the status.
#![tactic(auto)]

ghost use Rattle.std.specs.Prelude.{◌≡◌};
ghost use Rattle.px4_flight.specs.Flushed.{after_flush};

use first_runner::{Status, flight};
use io_edges::{Failed, StdSink, StdSource};
use std::process::ExitCode;
use std::{env, io};

fn main(rt: HostRuntime) -> ExitCode {
    let status = match words(&rt) {
        Ok(words) => command(&rt, words.as_slice()),
        Err(status) => status,
    };
    let number = status.number();
    if number != 0 {
        let _ = eprintln!(rt; "{status}");
    }
    ExitCode::from(number)
}

/// The words after the program's name. Words that are no text are no command.
fn words(rt: &HostRuntime) -> Result<Vec<String>, Status> {
    match env::args(rt) {
        Ok(args) => match args.skip(1).collect(rt.alloc()) {
            Ok(words) => Ok(words),
            Err(_) => Err(Status::Memory),
        },
        Err(error) => match error.kind() {
            io::ErrorKind::OutOfMemory => Err(Status::Memory),
            _ => Err(Status::Usage),
        },
    }
}

/// Runs a command. What standard output has gathered leaves at its end, whatever the status.
fn command(rt: &HostRuntime, words: &[String]) -> Status {
    let Ok(mut output) = StdSink::new(rt.alloc(), rt.stdout()) else {
        return Status::Memory;
    };
    let Ok(words) = words
        .iter()
        .map(|word| word.as_str())
        .collect::<Vec<&str>>(rt.alloc())
    else {
        return Status::Memory;
    };
    let mut input = StdSource::new(rt.stdin());
    let outcome = flight(rt.alloc(), words.as_slice(), &mut input, &mut output);
    after_flush(output.flush(), outcome.status)
}

/// The status once standard output was flushed: a flush that fails is a write fault, where all went well before.
fn after_flush(flushed: Result<(), Failed>, status: Status) -> Status
    ensures { result ≡ after_flush flushed status }
{
    match (flushed, status) {
        (Err(Failed), Status::Ok) => Status::WriteFault,
        (_, status) => status,
    }
}
