ghost use Rattle.std.specs.Prelude.{◌≡◌, ℕ, List, length, is_ok, if◌then◌else◌};
ghost use Rattle.std.specs.Result.{result_err};
ghost use Rattle.divide.specs.Refusals.{refusal, Shareable};
ghost use Rattle.divide.specs.Exact.{Exact};

use crate::refusal::DivideRefusal;

// A rule by which a whole total is shared among weights.
pub trait Divider {
    // The shares of a total among weights, one for each weight.
    ghost shares: { Self → ℕ → List ℕ → List ℕ };

    // Writes the shares into `out`, or refuses and leaves `out` as it was.
    fn divide(&self, total: u64, weights: &[u32], out: &mut [u64]) -> Result<(), DivideRefusal>
        ensures answer { result_err result ≡ refusal total weights.now (length out.old) }
        ensures after { out.new ≡ (if is_ok result then shares self.now total weights.now else out.old) };

    // Where no refusal applies, the shares are exact: one each, adding up to the total, each less than one
    // unit from its exact proportion, and all 0 where the weights add up to 0.
    ghost exact: { (d : Self) (t : ℕ) (ws : List ℕ) → Shareable t ws → Exact t ws (shares d t ws) };
}
