ghost use Rattle.std.specs.Prelude.{◌≡◌, ℕ};
ghost use Rattle.score.specs.Scores.{historic};
ghost use Rattle.score.specs.Laws.{historic_bounded, scored_outside, historic_monotone};

use crate::performance::Performance;
use crate::scorer::Scorer;

// The historic score.
#[derive(Clone, Copy)]
pub struct Historic;

impl Scorer for Historic {
    ghost rating = { λ _ a es h. historic a es h };

    ghost bounded = { λ s a es h. historic_bounded a es h };

    ghost outside = { λ s a es h e. scored_outside a es h _ e };

    ghost monotone = { λ s a es fs h p. historic_monotone a es fs h p };

    fn score(&self, performance: &Performance) -> u32 {
        if performance.is_scorable() {
            performance.historic
        } else {
            0
        }
    }
}
