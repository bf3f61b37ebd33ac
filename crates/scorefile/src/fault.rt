ghost use Rattle.std.specs.Prelude.{◌≡◌, Some};
ghost use Rattle.scorefile.specs.Texts.{found_text, printed_line, misread_text, fault_text};
ghost use Rattle.scorefile.specs.declared.fault.FileFault.TheVariants.{NoMemory};

use crate::form::Expected;
use std::alloc::AllocError;
use std::error::Error;
use std::fmt;

// What stands where something else was expected.
#[derive(Debug, Drop)]
pub enum Found {
    Word(String),
    LineEnd,
    FileEnd,
}

impl fmt::Display for Found {
    ghost output = { λ f. Some (found_text f) };

    fn fmt<W: fmt::Write>(&self, f: &mut fmt::Formatter<W>) -> fmt::Result {
        match self {
            Found::Word(word) => write!(f, "'{word}'"),
            Found::LineEnd => write!(f, "{}", Expected::LineEnd),
            Found::FileEnd => write!(f, "{}", Expected::FileEnd),
        }
    }
}

// The first place of a file that is not of its form. Its line is counted from 1; at the end of the file it is the
// last line that has words, and 0 where none has.
#[derive(Debug, Drop)]
pub struct Misread {
    pub line: usize,
    pub expected: Expected,
    pub found: Found,
}

impl Misread {
    // The line that is printed: at the end of the file it is the one that is missing.
    fn printed_line(&self) -> usize
        ensures { result ≡ printed_line self.now.line self.now.found }
    {
        match self.found {
            Found::FileEnd => self.line.saturating_add(1),
            _ => self.line,
        }
    }
}

impl fmt::Display for Misread {
    ghost output = { λ m. Some (misread_text m) };

    fn fmt<W: fmt::Write>(&self, f: &mut fmt::Formatter<W>) -> fmt::Result {
        write!(
            f,
            "line {}: expected {}, found {}",
            self.printed_line(),
            self.expected,
            self.found
        )
    }
}

impl Error for Misread {}

// Why a file is not read.
#[derive(Debug, Drop)]
pub enum FileFault {
    Misread(Misread),
    NoMemory,
}

impl fmt::Display for FileFault {
    ghost output = { λ f. Some (fault_text f) };

    fn fmt<W: fmt::Write>(&self, f: &mut fmt::Formatter<W>) -> fmt::Result {
        match self {
            FileFault::Misread(misread) => write!(f, "{misread}"),
            FileFault::NoMemory => f.write_str("out of memory"),
        }
    }
}

impl Error for FileFault {}

impl<E> From<E> for FileFault
where
    AllocError: From<E>,
{
    ghost from_gives = { λ _ f. f ≡ NoMemory };

    fn from(e: E) -> FileFault {
        let AllocError = AllocError::from(e);
        FileFault::NoMemory
    }
}
