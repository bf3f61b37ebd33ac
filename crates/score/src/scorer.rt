ghost use Rattle.std.specs.Prelude.{◌≡◌, ℕ, ◌≤◌, false, List};
ghost use Rattle.score.specs.Scores.{scorable, NoLarger};

use crate::performance::Performance;

// A rule that rates how well a resource followed the signal in an interval.
pub trait Scorer {
    // The score for the kW assigned, the errors and the historic score.
    ghost rating: { Self → ℕ → List ℕ → ℕ → ℕ };

    // The score. Asking changes nothing.
    fn score(&self, performance: &Performance) -> u32
        ensures { result ≡ rating self.now performance.now.assigned performance.now.errors.now performance.now.historic };

    // A score is at most 10,000.
    ghost bounded: { (s : Self) (a : ℕ) (es : List ℕ) (h : ℕ) → rating s a es h ≤ 10000 };

    // A value outside its range, or another number of errors than thirty, scores 0.
    ghost outside: { (s : Self) (a : ℕ) (es : List ℕ) (h : ℕ) → scorable a es h ≡ false → rating s a es h ≡ 0 };

    // With the same assignment, historic score and number of errors, no larger errors never give a smaller score.
    ghost monotone: { (s : Self) (a : ℕ) (es fs : List ℕ) (h : ℕ) → NoLarger es fs → rating s a fs h ≤ rating s a es h };
}
