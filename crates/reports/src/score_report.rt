ghost use Rattle.reports.specs.Failures.{ScoreReported};

use layout::{RefusalText, ScoreTable};
use scorefile::{FileFault, ScoreRequest, read_score_request};
use scoresheet::score_sheet;
use std::alloc::{AllocError, Global};

// The sheet of a request, or its refusal.
fn answer(heap: Global, request: &ScoreRequest) -> Result<String, AllocError> {
    match score_sheet(request) {
        Ok(sheet) => {
            let table = ScoreTable {
                request,
                sheet: &sheet,
            };
            format!(in heap; "{table}")
        }
        Err(refusal) => {
            let refused = RefusalText { refusal };
            format!(in heap; "{refused}\n")
        }
    }
}

// What `score` prints for the text of its file, or the first place of it that is not of its form. The wording is
// tested.
pub fn report_score(heap: Global, text: &str) -> Result<String, FileFault>
    ensures { ScoreReported text.now result }
{
    let request = read_score_request(heap, text)?;
    Ok(answer(heap, &request)?)
}
