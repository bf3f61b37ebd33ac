ghost use Rattle.std.specs.Prelude.{◌≡◌, map, IfOk, string_bytes};
ghost use Rattle.lines.specs.Words.{before_hash, Words};

use std::alloc::{AllocError, Global};

// What stands before the comment.
fn uncommented(line: &str) -> &str
    ensures { result.now ≡ before_hash line.now }
{
    line.split_once('#').map_or(line, |(front, _)| front)
}

fn words_of(heap: Global, text: &str) -> Result<Vec<String>, AllocError>
    ensures { IfOk result (λ v. Words text.now (map string_bytes v.items)) }
{
    let mut words = Vec::new(heap);
    for word in text.split_whitespace() {
        words.push(String::from_str(heap, word)?)?;
    }
    Ok(words)
}

// The words of a line, without its comment.
pub(crate) fn line_words(heap: Global, line: &str) -> Result<Vec<String>, AllocError>
    ensures { IfOk result (λ v. Words (before_hash line.now) (map string_bytes v.items)) }
{
    words_of(heap, uncommented(line))
}
