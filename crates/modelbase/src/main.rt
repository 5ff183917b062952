// Daily work on a saved file of the model base.
#![tactic(auto)]

mod blank;
mod checking;
mod command;
mod failure;
mod saving;
mod working;

use blank::Lines;
use checking::list_rows;
use command::{Command, read_command};
use failure::Failure;
use saving::make_blank;
use std::process::ExitCode;
use std::{env, io};
use working::run_requests;

fn obey(rt: &HostRuntime, words: &[String]) -> Result<(), Failure> {
    match read_command(words)? {
        Command::New { file, lines } => {
            let lines = Lines::new(lines).ok_or(Failure::Lines)?;
            make_blank(rt, file, lines)
        }
        Command::Check { file } => list_rows(rt, file),
        Command::Run { file } => run_requests(rt, file),
    }
}

// The words after the program's name.
fn arguments(rt: &HostRuntime) -> Result<Vec<String>, Failure> {
    Ok(env::args(rt)?.skip(1).collect(rt.alloc())?)
}

// Says what went wrong, and with which file.
fn complain(rt: &HostRuntime, words: &[String], failure: Failure) -> io::Result<()> {
    match (words.get(1), failure) {
        (None, _) | (_, Failure::Usage) => eprintln!(rt; "modelbase: {failure}"),
        (Some(file), _) => {
            let file = file.as_str();
            eprintln!(rt; "modelbase: {file}: {failure}")
        }
    }
}

fn run(rt: &HostRuntime) -> Result<(), Failure> {
    let words = arguments(rt)?;
    let done = obey(rt, words.as_slice());
    if let Err(failure) = done {
        complain(rt, words.as_slice(), failure)?;
    }
    done
}

// What went wrong has been said.
fn main(rt: HostRuntime) -> ExitCode {
    match run(&rt) {
        Ok(()) => ExitCode::SUCCESS,
        Err(_) => ExitCode::FAILURE,
    }
}
