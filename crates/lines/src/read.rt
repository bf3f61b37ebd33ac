ghost use Rattle.std.specs.Prelude.{◌≡◌, List, map, IfOk};
ghost use Rattle.lines.specs.Reads.{Worded, worded, Reads};

use crate::words::line_words;
use std::alloc::{AllocError, Global};

// A line that has words: its number, counted from 1, and its words.
#[derive(Drop)]
pub struct Line {
    pub number: usize,
    pub words: Vec<String>,
}

// The lines of a text that have words. Words stand apart by white space; what follows a `#` on its line is a comment.
pub fn read_lines(heap: Global, text: &str) -> Result<Vec<Line>, AllocError>
    ensures reads { IfOk result (λ v. Reads text.now (map worded v.items)) }
    ensures only { (ws : List Worded) → Reads text.now ws → IfOk result (λ v. map worded v.items ≡ ws) }
{
    let mut lines = Vec::new(heap);
    for (place, line) in text.lines().enumerate() {
        let words = line_words(heap, line)?;
        if words.is_empty() {
            continue;
        }
        lines.push(Line {
            number: place + 1,
            words,
        })?;
    }
    Ok(lines)
}
