// Whether the lines of a file are of their form.
ghost use Rattle.std.specs.Prelude.{◌≡◌, ◌-◌, map, length, string_bytes, MatchResult};
ghost use Rattle.lines.specs.Reads.{worded};
ghost use Rattle.scorefile.specs.Faults.{line_at, WellWorded, WellFormed, WrongWords, WrongLines};

use crate::fault::{FileFault, Found, Misread};
use crate::form::Expected;
use lines::Line;
use std::alloc::Global;

// The lines that no file lacks.
const NEEDED: usize = 5;

// Checks the words of a line; `line` counts the lines that have words from 0, `number` is its number in the file.
fn check_words(heap: Global, line: usize, number: usize, words: &[String]) -> Result<(), FileFault>
    ensures { MatchResult result
        (λ _. WellWorded line (map string_bytes words.now))
        (WrongWords line number (map string_bytes words.now)) }
{
    for (place, word) in words.iter().enumerate() {
        let word = word.as_str();
        let expected = Expected::at(line, place);
        if !expected.fits(word) {
            return Err(FileFault::Misread(Misread {
                line: number,
                expected,
                found: Found::Word(String::from_str(heap, word)?),
            }));
        }
    }
    let expected = Expected::at(line, words.len());
    if !expected.may_end() {
        return Err(FileFault::Misread(Misread {
            line: number,
            expected,
            found: Found::LineEnd,
        }));
    }
    Ok(())
}

// The number of the last line, and 0 where there is none.
fn last_number(lines: &[Line]) -> usize
    ensures { result ≡ (line_at (map worded lines.now) (length lines.now - 1)).number }
{
    lines.last().map_or(0, |line| line.number)
}

// Checks every line, and that none is missing.
pub(crate) fn check_lines(heap: Global, lines: &[Line]) -> Result<(), FileFault>
    ensures { MatchResult result
        (λ _. WellFormed (map worded lines.now))
        (WrongLines (map worded lines.now)) }
{
    for (place, line) in lines.iter().enumerate() {
        check_words(heap, place, line.number, line.words.as_slice())?;
    }
    if lines.len() < NEEDED {
        return Err(FileFault::Misread(Misread {
            line: last_number(lines),
            expected: Expected::at(lines.len(), 0),
            found: Found::FileEnd,
        }));
    }
    Ok(())
}
