// The program that an operator runs.
#![tactic(auto)]

mod help;
mod input;
mod output;

use help::{show_help, wrong_command};
use input::read_input;
use output::{fail, out_of_memory, show};
use reports::{made, report_score, report_share};
use std::process::ExitCode;
use std::{env, io};

// What ends the program with status 1.
#[derive(Drop)]
pub(crate) enum Failed {
    // The message is already written.
    Told,
    // A stream could not be written, or the arguments not be read.
    Io(io::Error),
}

impl From<io::Error> for Failed {
    fn from(e: io::Error) -> Failed {
        Failed::Io(e)
    }
}

fn share(rt: &HostRuntime, words: &[String]) -> Result<(), Failed> {
    show(rt, "share", made(report_share(rt.alloc(), words)))
}

fn score(rt: &HostRuntime, words: &[String]) -> Result<(), Failed> {
    let [name] = words else {
        return fail(
            rt,
            "score",
            &"expected the name of one file, or - for standard input",
        );
    };
    let text = read_input(rt, "score", name.as_str())?;
    let report = report_score(rt.alloc(), text.as_str());
    show(rt, "score", made(report))
}

fn run(rt: &HostRuntime) -> Result<(), Failed> {
    let words: Vec<String> = match env::args(rt)?.skip(1).collect(rt.alloc()) {
        Ok(words) => words,
        Err(_) => return out_of_memory(rt),
    };
    let [command, rest @ ..] = words.as_slice() else {
        return wrong_command(rt, "");
    };
    match command.as_str() {
        "share" => share(rt, rest),
        "score" => score(rt, rest),
        "help" => show_help(rt),
        other => wrong_command(rt, other),
    }
}

fn main(rt: HostRuntime) -> ExitCode {
    match run(&rt) {
        Ok(()) => ExitCode::SUCCESS,
        Err(Failed::Told) => ExitCode::FAILURE,
        Err(Failed::Io(e)) => {
            let _ = eprintln!(rt; "zankevell: {e}");
            ExitCode::FAILURE
        }
    }
}
