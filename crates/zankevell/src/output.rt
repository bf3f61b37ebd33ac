use crate::Failed;
use layout::FaultLine;
use std::alloc::AllocError;
use std::fmt::Display;
use std::io;

pub(crate) fn out_of_memory(rt: &HostRuntime) -> Result<(), Failed> {
    eprintln!(rt; "zankevell: out of memory")?;
    Err(Failed::Told)
}

// Prints what a command answers, or reports why it fails.
pub(crate) fn show<F: Display + Drop>(
    rt: &HostRuntime,
    command: &str,
    report: Result<Result<String, F>, AllocError>,
) -> Result<(), Failed> {
    let Ok(report) = report else {
        return out_of_memory(rt);
    };
    match report {
        Ok(text) => {
            print!(rt; "{text}")?;
            Ok(())
        }
        Err(fault) => fail(rt, command, &fault),
    }
}

// Reports why a command fails.
pub(crate) fn fail<F: Display>(rt: &HostRuntime, command: &str, fault: &F) -> Result<(), Failed> {
    let line = FaultLine { fault };
    eprint!(rt; "zankevell {command}: {line}")?;
    Err(Failed::Told)
}
