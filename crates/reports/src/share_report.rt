ghost use Rattle.std.specs.Prelude.{map, string_bytes};
ghost use Rattle.reports.specs.Failures.{ShareReported};

use layout::{RefusalText, ShareTable};
use std::alloc::{AllocError, Global};
use worksheet::{RequestFault, ShareRequest, SheetFault, read_request, share_sheet};

// The sheet of a request, or the dividers' refusal.
fn answer(heap: Global, request: &ShareRequest) -> Result<String, AllocError> {
    match share_sheet(heap, request.total, request.weights.as_slice()) {
        Ok(sheet) => {
            let table = ShareTable { sheet: &sheet };
            format!(in heap; "{table}")
        }
        Err(SheetFault::Refused(refusal)) => {
            let refused = RefusalText { refusal };
            format!(in heap; "{refused}\n")
        }
        Err(SheetFault::NoMemory) => Err(AllocError),
    }
}

// What `share` prints for the words after it, or what keeps them from being a total and weights. The wording is tested.
pub fn report_share(heap: Global, words: &[String]) -> Result<String, RequestFault>
    ensures { ShareReported (map string_bytes words.now) result }
{
    let request = read_request(heap, words)?;
    Ok(answer(heap, &request)?)
}
