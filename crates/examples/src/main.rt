// Prints what both commands answer to examples, and 'status 1' where the program would end with it.
#![tactic(auto)]

use layout::FaultLine;
use lines::{Line, read_lines};
use reports::{made, report_score, report_share};
use std::alloc::AllocError;
use std::fmt::Display;
use std::{env, fs, io};

fn show<F: Display + Drop>(
    rt: &HostRuntime,
    report: Result<Result<String, F>, AllocError>,
) -> io::Result<()> {
    let Ok(report) = report else {
        return println!(rt; "out of memory");
    };
    match report {
        Ok(text) => println!(rt; "{text}"),
        Err(fault) => {
            let line = FaultLine { fault: &fault };
            println!(rt; "{line}status 1\n")
        }
    }
}

fn share(rt: &HostRuntime, line: &Line) -> io::Result<()> {
    print!(rt; "share")?;
    for word in line.words.iter() {
        print!(rt; " {word}")?;
    }
    println!(rt; "")?;
    let report = report_share(rt.alloc(), line.words.as_slice());
    show(rt, made(report))
}

// Shares what each line of a file says.
fn share_all(rt: &HostRuntime, name: &str) -> io::Result<()> {
    let text = fs::read_to_string(rt, name)?;
    let Ok(lines) = read_lines(rt.alloc(), text.as_str()) else {
        return println!(rt; "out of memory");
    };
    for line in lines.iter() {
        share(rt, line)?;
    }
    Ok(())
}

fn score(rt: &HostRuntime, name: &str) -> io::Result<()> {
    println!(rt; "score {name}")?;
    let text = fs::read_to_string(rt, name)?;
    let report = report_score(rt.alloc(), text.as_str());
    show(rt, made(report))
}

fn main(rt: HostRuntime) -> io::Result<()> {
    share_all(&rt, "shares.txt")?;
    for name in env::args(&rt)?.skip(1) {
        score(&rt, name.as_str())?;
    }
    Ok(())
}
