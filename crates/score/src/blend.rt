ghost use Rattle.std.specs.Prelude.{◌≡◌, ℕ, ◌≤◌};
ghost use Rattle.score.specs.Scores.{blended};
ghost use Rattle.score.specs.Laws.{blended_bounded, blended_outside, blended_monotone};

use crate::performance::{FULL_SCORE, Performance};
use crate::scorer::Scorer;

// Two scorers, the first with the weight `weight` of 10,000 and the second with the rest.
#[derive(Clone, Copy)]
pub struct Blend<A, B> {
    pub first: A,
    pub second: B,
    pub weight: u32,
}

// The weighted mean of two scores, rounded down.
fn mix(weight: u32, first: u32, second: u32) -> u32
    requires first_fits { first ≤ 10000 }
    requires second_fits { second ≤ 10000 }
    ensures { result ≡ blended weight first second }
{
    let weight = weight.min(FULL_SCORE);
    (weight * first + (FULL_SCORE - weight) * second) / FULL_SCORE
}

impl<A: Scorer, B: Scorer> Scorer for Blend<A, B> {
    ghost rating = { λ s a es h. blended s.weight (A.Scorer.rating s.first a es h) (B.Scorer.rating s.second a es h) };

    ghost bounded = { λ s a es h. blended_bounded s.weight _ _ (A.Scorer.bounded s.first a es h) (B.Scorer.bounded s.second a es h) };

    ghost outside = { λ s a es h e. blended_outside s.weight _ _ (A.Scorer.outside s.first a es h e) (B.Scorer.outside s.second a es h e) };

    ghost monotone = { λ s a es fs h p. blended_monotone s.weight _ _ _ _ (A.Scorer.monotone s.first a es fs h p) (B.Scorer.monotone s.second a es fs h p) };

    fn score(&self, performance: &Performance) -> u32 {
        let first = self.first.score(performance);
        let second = self.second.score(performance);
        mix(self.weight, first, second)
    }
}
