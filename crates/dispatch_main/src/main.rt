// The dispatcher: reads its words, answers from files to the standard output, and ends with the run's exit code.
#![tactic(auto)]

ghost use Rattle.std.specs.Prelude.{◌≡◌, ◌≢◌};

use dispatch_top::{Status, run};
use ride_base::{HostShelf, HostSink};
use road_graph::Steps;
use std::alloc::Global;
use std::fs::Files;
use std::io::{ErrorKind, Print};
use std::process::ExitCode;
use std::thread::Threads;
use std::{env, io};

fn main(rt: HostRuntime) -> ExitCode {
    let status = match words(&rt) {
        Ok(words) => answer(&rt, rt.alloc(), words.as_slice()),
        Err(error) => refused(error.kind()),
    };
    // A line that can't be told doesn't change how the run ended.
    let _told = tell(&rt, status);
    ExitCode::from(status.code())
}

/// The words of the command line, without the program's own name.
fn words(rt: &HostRuntime) -> io::Result<Vec<String>> {
    let mut words = Vec::new(rt.alloc());
    for word in env::args(rt)?.skip(1) {
        words.push(word)?;
    }
    Ok(words)
}

/// The status where there are no words: those that aren't UTF-8 are none of the forms, and else memory was wanted.
fn refused(kind: ErrorKind) -> Status
    ensures unreadable { kind ≡ ErrorKind.InvalidData → result ≡ Status.Usage }
    ensures other { kind ≢ ErrorKind.InvalidData → result ≡ Status.NoMemory }
{
    match kind {
        ErrorKind::InvalidData => Status::Usage,
        _ => Status::NoMemory,
    }
}

/// Runs over files and the standard output.
fn answer<R: Threads + Sync + Files + Print>(rt: &R, alloc: Global, words: &[String]) -> Status {
    let mut shelf = HostShelf::new(rt, alloc);
    let mut sink = HostSink::new(rt);
    let mut steps = Steps::start(rt, ());
    run(rt, alloc, words, &mut shelf, &mut sink, &mut steps)
}

/// Tells the standard error why a run isn't done.
fn tell(rt: &HostRuntime, status: Status) -> io::Result<()> {
    match status {
        Status::Done => Ok(()),
        _ => eprintln!(rt; "{status}"),
    }
}
