ghost use Rattle.std.specs.Prelude.{◌≡◌, [], map, drop, IfOk, string_bytes, Result, MatchResult, slice_index_or};
ghost use Rattle.std.specs.List.{AllByRecursion};
ghost use Rattle.std.specs.Result.{ResultUnwrapsOrElse};
ghost use Rattle.lines.specs.Reads.{worded};
ghost use Rattle.scorefile.specs.Faults.{line_at, WellFormed};
ghost use Rattle.scorefile.specs.Form.{SignedNumber, signed_of};
ghost use Rattle.scorefile.specs.Request.{Asked, Says, TextSays, TextLacks};

use crate::check::check_lines;
use crate::fault::FileFault;
use lines::{Line, read_lines};
use score::{Blend, PlainScorer};
use std::alloc::{AllocError, Global};
use std::str::FromStr;

// What the scores of one resource in one interval are worked out from: the kW assigned, the historic score, the
// reading before the interval's, its readings, the points sent, and a blend of two scorers if one is asked for.
#[derive(Drop)]
pub struct ScoreRequest {
    pub assigned: u32,
    pub historic: u32,
    pub previous: i32,
    pub readings: Vec<i32>,
    pub points: Vec<i32>,
    pub blend: Option<Blend<PlainScorer, PlainScorer>>,
}

// The words of the line at a place; none where there is no such line.
fn words_at(lines: &[Line], place: usize) -> &[String]
    ensures { map string_bytes result.now ≡ (line_at (map worded lines.now) place).words }
{
    lines.get(place).map_or(&[], |line| line.words.as_slice())
}

// The word at a place; an empty one where there is no such word.
fn word_at(words: &[String], place: usize) -> &str
    ensures { result.now ≡ slice_index_or (map string_bytes words.now) place [] }
{
    words.get(place).map_or("", |word| word.as_str())
}

// The number that a word writes; 0 where it writes none.
fn number<T: FromStr + Default + Drop>(word: &str) -> T
where
    T::Err: Drop,
    ensures { (read : Result T T.Err) × T.from_str_gives word.now read × ResultUnwrapsOrElse read T.is_default result }
{
    word.parse().unwrap_or_default()
}

// The numbers after the heading of a line.
fn numbers(heap: Global, words: &[String]) -> Result<Vec<i32>, AllocError>
    requires { AllByRecursion SignedNumber (drop 1 (map string_bytes words.now)) }
    ensures { IfOk result (λ v. v.items ≡ map signed_of (drop 1 (map string_bytes words.now))) }
{
    words
        .iter()
        .skip(1)
        .map(|word| number(word.as_str()))
        .collect(heap)
}

// The blend that the words of a line ask for.
fn blend_of(words: &[String]) -> Option<Blend<PlainScorer, PlainScorer>>
    ensures { Asked (map string_bytes words.now) result }
{
    let first = word_at(words, 2).parse().ok()?;
    let second = word_at(words, 3).parse().ok()?;
    let weight = number(word_at(words, 1));
    Some(Blend {
        first,
        second,
        weight,
    })
}

// What lines of their form say.
fn request_of(heap: Global, lines: &[Line]) -> Result<ScoreRequest, AllocError>
    requires { WellFormed (map worded lines.now) }
    ensures { IfOk result (Says (map worded lines.now)) }
{
    let readings = numbers(heap, words_at(lines, 3))?;
    let points = numbers(heap, words_at(lines, 4))?;
    Ok(ScoreRequest {
        assigned: number(word_at(words_at(lines, 0), 1)),
        historic: number(word_at(words_at(lines, 1), 1)),
        previous: number(word_at(words_at(lines, 2), 1)),
        readings,
        points,
        blend: blend_of(words_at(lines, 5)),
    })
}

// What a score file says, or the first place of it that is not of its form.
pub fn read_score_request(heap: Global, text: &str) -> Result<ScoreRequest, FileFault>
    ensures { MatchResult result (TextSays text.now) (TextLacks text.now) }
{
    let lines = read_lines(heap, text)?;
    check_lines(heap, lines.as_slice())?;
    Ok(request_of(heap, lines.as_slice())?)
}
