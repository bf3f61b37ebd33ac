ghost use Rattle.std.specs.Prelude.{◌≡◌, ◌*◌, ◌/◌, ◌%◌, ◌<◌, ◌≤◌, length, sum, None, Some, MatchResult};
ghost use Rattle.divide.specs.Refusals.{most_weights, largest_product, refusal};
ghost use Rattle.divide.specs.declared.refusal.DivideRefusal.TheVariants.{ListLength};

use crate::refusal::DivideRefusal;

// The most weights that a total is shared among.
pub const MOST_WEIGHTS: usize = 32;

// The largest product of a total and the sum of its weights.
const LARGEST_PRODUCT: u128 = 4_000_000_000_000_000_000;

// The sum of the weights, of which there may be 32 at most.
pub fn weight_sum(weights: &[u32]) -> Result<u64, DivideRefusal>
    ensures { MatchResult result
        (λ w. (length weights.now ≤ most_weights) × (w ≡ sum weights.now))
        (λ e. (most_weights < length weights.now) × (e ≡ ListLength)) }
{
    if weights.len() > MOST_WEIGHTS {
        return Err(DivideRefusal::ListLength);
    }
    Ok(weights.iter().map(|weight| u64::from(*weight)).sum())
}

// A total and the weights among which it is shared, where no refusal applies.
#[derive(Drop)]
pub(crate) struct Sharing<'a> {
    pub(crate) total: u64,
    pub(crate) weights: &'a [u32],
    weight_sum: u64,
    ghost few: { length weights.now ≤ most_weights },
    ghost whole: { weight_sum ≡ sum weights.now },
    ghost small: { total * weight_sum ≤ largest_product },
}

impl<'a> Sharing<'a> {
    // The sharing among weights into so many places, or why there is none.
    pub(crate) fn new(
        total: u64,
        weights: &'a [u32],
        places: usize,
    ) -> Result<Sharing<'a>, DivideRefusal>
        ensures { MatchResult result
            (λ s. (refusal total weights.now places ≡ None) × (s.total ≡ total) × (s.weights.now ≡ weights.now))
            (λ e. refusal total weights.now places ≡ Some e) }
    {
        let weight_sum = weight_sum(weights)?;
        if places != weights.len() {
            return Err(DivideRefusal::ListLength);
        }
        if weight_sum == 0 && total != 0 {
            return Err(DivideRefusal::NoWeight);
        }
        if u128::from(total) * u128::from(weight_sum) > LARGEST_PRODUCT {
            return Err(DivideRefusal::ProductTooLarge);
        }
        Ok(Sharing {
            total,
            weights,
            weight_sum,
        })
    }

    // What a weight comes to of the total, `total × weight / weight_sum`, rounded down: 0 where the weights add up
    // to 0.
    pub(crate) fn part(&self, weight: u64) -> u64
        requires { weight ≤ sum self.now.weights.now }
        ensures { result ≡ self.now.total * weight / sum self.now.weights.now }
    {
        let product = self.total * weight;
        product.checked_div(self.weight_sum).unwrap_or(0)
    }

    // The remainder of that division.
    pub(crate) fn rest(&self, weight: u64) -> u64
        requires { weight ≤ sum self.now.weights.now }
        ensures { result ≡ self.now.total * weight % sum self.now.weights.now }
    {
        let product = self.total * weight;
        product.checked_rem(self.weight_sum).unwrap_or(0)
    }
}
