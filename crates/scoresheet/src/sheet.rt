ghost use Rattle.std.specs.Prelude.{◌≡◌, IfOk};
ghost use Rattle.std.specs.Result.{result_err};
ghost use Rattle.score.specs.Signals.{mileage_of, last_of};
ghost use Rattle.scoresheet.specs.Refusals.{sheet_refusal};
ghost use Rattle.scoresheet.specs.Sheet.{request_errors, Largest, blend_score, Sheet};

use crate::refusal::ScoreRefusal;
use score::{
    Band, Blend, FULL_SCORE, Historic, LARGEST_ASSIGNED, POINTS, Performance, PlainScorer,
    Precision, SMALLEST_ASSIGNED, Scorer, Signal, gather, tracking_errors,
};
use scorefile::ScoreRequest;

// The largest error of a window, and the first point that has it, counted from 1.
#[derive(Clone, Copy)]
pub struct LargestError {
    pub point: usize,
    pub error: u64,
}

// How one resource followed the signal in one interval, and its score by each scorer.
#[derive(Clone, Copy)]
pub struct ScoreSheet {
    pub mileage: u32,
    pub last: i32,
    pub largest: LargestError,
    pub precision: u32,
    pub band: u32,
    pub historic: u32,
    pub blend: Option<u32>,
}

// What the signal and the window come to.
#[derive(Clone, Copy)]
struct Tracking {
    mileage: u32,
    last: i32,
    errors: [u64; POINTS],
}

fn largest_error(errors: &[u64; POINTS]) -> LargestError
    ensures { Largest errors.now result }
{
    let mut largest = LargestError {
        point: 1,
        error: errors[0],
    };
    for (place, error) in errors.iter().enumerate() {
        if *error > largest.error {
            largest = LargestError {
                point: place + 1,
                error: *error,
            };
        }
    }
    largest
}

// The score by a blend, if one is asked for.
fn blend_score(
    blend: Option<Blend<PlainScorer, PlainScorer>>,
    performance: &Performance,
) -> Option<u32>
    ensures { result ≡ blend_score blend performance.now.assigned performance.now.errors.now performance.now.historic }
{
    Some(blend?.score(performance))
}

// Follows the signal with the points of a request, or refuses them.
fn track(request: &ScoreRequest) -> Result<Tracking, ScoreRefusal>
    ensures answer { result_err result ≡ sheet_refusal request.now }
    ensures tracked { IfOk result
        (λ t. (t.mileage ≡ mileage_of request.now.previous request.now.readings.items) × (t.last ≡ last_of request.now.previous request.now.readings.items) × (t.errors ≡ request_errors request.now)) }
{
    if !(SMALLEST_ASSIGNED..=LARGEST_ASSIGNED).contains(&request.assigned) {
        return Err(ScoreRefusal::Assigned);
    }
    if request.historic > FULL_SCORE {
        return Err(ScoreRefusal::Historic);
    }
    let signal = Signal {
        previous: request.previous,
        readings: request.readings.as_slice(),
    };
    let (mileage, last) = signal.mileage()?;
    let window = gather(request.points.as_slice())?;
    let errors = tracking_errors(&window, request.assigned, &signal);
    Ok(Tracking {
        mileage,
        last,
        errors,
    })
}

// The sheet of a request, or the first refusal that it meets.
pub fn score_sheet(request: &ScoreRequest) -> Result<ScoreSheet, ScoreRefusal>
    ensures answer { result_err result ≡ sheet_refusal request.now }
    ensures sheet { IfOk result (Sheet request.now) }
{
    let tracking = track(request)?;
    let performance = Performance {
        assigned: request.assigned,
        errors: &tracking.errors,
        historic: request.historic,
    };
    Ok(ScoreSheet {
        mileage: tracking.mileage,
        last: tracking.last,
        largest: largest_error(&tracking.errors),
        precision: Precision.score(&performance),
        band: Band.score(&performance),
        historic: Historic.score(&performance),
        blend: blend_score(request.blend, &performance),
    })
}
