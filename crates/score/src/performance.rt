ghost use Rattle.std.specs.Prelude.{◌≡◌};
ghost use Rattle.std.specs.List.{list_all};
ghost use Rattle.score.specs.Ranges.{error_fits};
ghost use Rattle.score.specs.Scores.{scorable};

use crate::window::POINTS;

// The kW that may be assigned to a resource.
pub const SMALLEST_ASSIGNED: u32 = 100;

pub const LARGEST_ASSIGNED: u32 = 200_000;

// The largest error that is scored, in ten-thousandths of a kW.
const LARGEST_ERROR: u64 = 20_000_000_000;

// The score of perfect tracking.
pub const FULL_SCORE: u32 = 10_000;

// What a resource is rated by in an interval: the kW assigned to it, the errors of its points, and its historic score.
#[derive(Clone, Copy)]
pub struct Performance<'a> {
    pub assigned: u32,
    pub errors: &'a [u64],
    pub historic: u32,
}

fn all_fit(errors: &[u64]) -> bool
    ensures { result ≡ list_all error_fits errors.now }
{
    errors.iter().all(|error| *error <= LARGEST_ERROR)
}

impl Performance<'_> {
    // Whether every value is in its range and there are thirty errors.
    pub(crate) fn is_scorable(&self) -> bool
        ensures { result ≡ scorable self.now.assigned self.now.errors.now self.now.historic }
    {
        (SMALLEST_ASSIGNED..=LARGEST_ASSIGNED).contains(&self.assigned)
            && self.errors.len() == POINTS
            && all_fit(self.errors)
            && self.historic <= FULL_SCORE
    }
}
