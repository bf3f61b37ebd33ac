ghost use Rattle.std.specs.Prelude.{◌≡◌, ℕ, ◌^◌, ◌<◌, sum};
ghost use Rattle.score.specs.Scores.{precision};
ghost use Rattle.score.specs.Laws.{precision_bounded, scored_outside, precision_monotone};

use crate::performance::{FULL_SCORE, Performance};
use crate::scorer::Scorer;
use crate::window::POINTS;

// A full score less the mean error, in ten-thousandths of the assignment and rounded up; no less than 0.
#[derive(Clone, Copy)]
pub struct Precision;

fn total(errors: &[u64]) -> u64
    requires { sum errors.now < 2 ^ 64 }
    ensures { result ≡ sum errors.now }
{
    errors.iter().sum()
}

impl Scorer for Precision {
    ghost rating = { λ _ a es h. precision a es h };

    ghost bounded = { λ s a es h. precision_bounded a es h };

    ghost outside = { λ s a es h e. scored_outside a es h _ e };

    ghost monotone = { λ s a es fs h p. precision_monotone a es fs h p };

    fn score(&self, performance: &Performance) -> u32 {
        if !performance.is_scorable() {
            return 0;
        }
        let all_assigned = POINTS as u64 * u64::from(performance.assigned);
        let lost = total(performance.errors).div_ceil(all_assigned);
        u64::from(FULL_SCORE).saturating_sub(lost) as u32
    }
}
