ghost use Rattle.std.specs.Prelude.{◌≡◌, ℕ, ◌≤◌, length, count_by, nat_le};
ghost use Rattle.score.specs.Scores.{band};
ghost use Rattle.score.specs.Laws.{band_bounded, scored_outside, band_monotone};

use crate::performance::{FULL_SCORE, Performance};
use crate::scorer::Scorer;
use crate::window::POINTS;

// An error is within the band up to so many ten-thousandths of each kW assigned: a tenth of the assignment.
const BAND: u64 = 1_000;

// The part of the points whose error is at most a tenth of the assignment.
#[derive(Clone, Copy)]
pub struct Band;

// Whether an error is at most `most`.
fn is_at_most(error: u64, most: u64) -> bool
    ensures { result ≡ nat_le error most }
{
    error <= most
}

// How many errors are at most `most`.
fn count_within(errors: &[u64], most: u64) -> usize
    ensures count { result ≡ count_by (λ e. nat_le e most) errors.now }
    ensures few { result ≤ length errors.now }
{
    errors
        .iter()
        .map(|error| usize::from(is_at_most(*error, most)))
        .sum()
}

impl Scorer for Band {
    ghost rating = { λ _ a es h. band a es h };

    ghost bounded = { λ s a es h. band_bounded a es h };

    ghost outside = { λ s a es h e. scored_outside a es h _ e };

    ghost monotone = { λ s a es fs h p. band_monotone a es fs h p };

    fn score(&self, performance: &Performance) -> u32 {
        if !performance.is_scorable() {
            return 0;
        }
        let within = count_within(performance.errors, BAND * u64::from(performance.assigned));
        FULL_SCORE * within as u32 / POINTS as u32
    }
}
