ghost use Rattle.std.specs.Prelude.{◌≡◌, map, string_bytes, MatchResult, IfOk};
ghost use Rattle.worksheet.specs.Request.{Weights, Says, NoWeightsIn, Lacks};

use crate::fault::RequestFault;
use std::alloc::{AllocError, Global};
use std::str::FromStr;

// A total to be shared among weights.
#[derive(Drop)]
pub struct ShareRequest {
    pub total: u64,
    pub weights: Vec<u32>,
}

// The value that a word writes, or the word where it writes none.
fn read_word<T: FromStr + Drop>(heap: Global, word: &str) -> Result<Result<T, String>, AllocError>
where
    T::Err: Drop,
    ensures { IfOk result (λ read. MatchResult read
        (λ x. T.from_str_gives word.now (Ok x))
        (λ found. (string_bytes found ≡ word.now) × ((e : T.Err) × T.from_str_gives word.now (Err e)))) }
{
    match word.parse::<T>() {
        Ok(value) => Ok(Ok(value)),
        Err(_) => Ok(Err(String::from_str(heap, word)?)),
    }
}

fn read_weights(heap: Global, words: &[String]) -> Result<Vec<u32>, RequestFault>
    ensures { MatchResult result (λ v. Weights (map string_bytes words.now) v.items) (NoWeightsIn (map string_bytes words.now)) }
{
    let mut weights = Vec::new(heap);
    for (place, word) in words.iter().enumerate() {
        match read_word::<u32>(heap, word.as_str())? {
            Ok(weight) => weights.push(weight)?,
            Err(found) => return Err(RequestFault::NotAWeight(place, found)),
        }
    }
    Ok(weights)
}

// The total that the first word writes and the weights that the others write, or what keeps them from it.
pub fn read_request(heap: Global, words: &[String]) -> Result<ShareRequest, RequestFault>
    ensures { MatchResult result (Says (map string_bytes words.now)) (Lacks (map string_bytes words.now)) }
{
    let [first, rest @ ..] = words else {
        return Err(RequestFault::NoTotal);
    };
    let total = read_word::<u64>(heap, first.as_str())?.map_err(RequestFault::NotATotal)?;
    let weights = read_weights(heap, rest)?;
    Ok(ShareRequest { total, weights })
}
