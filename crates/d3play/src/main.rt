//! `d3play` plays a log of Direct3D 11 calls from standard input, and prints what the calls answer.
#![tactic(auto)]

use dx_io::{StdSink, StdSource};
use player::{Status, replay, status_number, status_text};
use std::env;
use std::process::ExitCode;
use std::rt::Env;

fn main(rt: HostRuntime) -> ExitCode {
    let status = match words(&rt) {
        Ok(words) => {
            let mut log = StdSource::new(rt.stdin());
            let mut out = StdSink::new(rt.stdout());
            replay(rt.alloc(), &words, &mut log, &mut out)
        }
        Err(status) => status,
    };
    complain(&rt, &status);
    ExitCode::from(status_number(&status))
}

// The words of the command line behind the program's name. Words that can't be had are no command.
fn words(rt: &(impl Env + AllocGlobal)) -> Result<Vec<String>, Status> {
    match env::args(rt) {
        Ok(args) => args
            .skip(1)
            .collect(rt.alloc())
            .map_err(|_| Status::NoMemory),
        Err(_) => Err(Status::Usage),
    }
}

// Where even standard error takes nothing, the number that the program ends with still tells the status.
fn complain(rt: &(impl Eprint + AllocGlobal), status: &Status) {
    match status_text(rt.alloc(), status) {
        Ok(text) if text.is_empty() => (),
        Ok(text) => {
            let _ = eprintln!(rt; "d3play: {text}");
        }
        Err(_) => {
            let _ = eprintln!(rt; "d3play: no memory");
        }
    }
}
