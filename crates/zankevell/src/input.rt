use crate::Failed;
use std::io::Read;
use std::{fs, io};

fn read(rt: &HostRuntime, name: &str) -> io::Result<String> {
    if name != "-" {
        return fs::read_to_string(rt, name);
    }
    let mut text = String::new(rt.alloc());
    rt.stdin().read_to_string(&mut text)?;
    Ok(text)
}

// The text of a file, or of standard input where the name is `-`.
pub(crate) fn read_input(rt: &HostRuntime, command: &str, name: &str) -> Result<String, Failed> {
    match read(rt, name) {
        Ok(text) => Ok(text),
        Err(e) => {
            eprintln!(rt; "zankevell {command}: {name}: {e}")?;
            Err(Failed::Told)
        }
    }
}
