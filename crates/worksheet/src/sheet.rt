ghost use Rattle.std.specs.Prelude.{◌≡◌, ◌<◌, map, length, sum, MatchResult, IfOk};
ghost use Rattle.std.specs.List.{range_with_len};
ghost use Rattle.divide.specs.Refusals.{Shareable};
ghost use Rattle.divide.specs.Remainders.{remainders};
ghost use Rattle.divide.specs.Running.{running};
ghost use Rattle.worksheet.specs.Sheet.{line, Column, Sheet, Faulted};

use crate::fault::SheetFault;
use divide::{Divider, Remainders, Running, weight_sum};
use std::alloc::{AllocError, Global};

// One place: its weight, its exact proportion `whole` and `rest` / the sum of the weights, and its share by each
// divider.
#[derive(Clone, Copy)]
pub struct ShareLine {
    pub weight: u32,
    pub whole: u64,
    pub rest: u64,
    pub by_remainders: u64,
    pub by_running: u64,
}

// A total shared among weights by both dividers, place by place, with the sum of each column.
#[derive(Drop)]
pub struct ShareSheet {
    pub total: u64,
    pub weight_sum: u64,
    pub lines: Vec<ShareLine>,
    pub remainders_sum: u64,
    pub running_sum: u64,
}

// A total that both dividers share among weights.
#[derive(Drop)]
struct Shared<'a> {
    total: u64,
    weights: &'a [u32],
    weight_sum: u64,
    by_remainders: Vec<u64>,
    by_running: Vec<u64>,
    ghost summed: { weight_sum ≡ sum weights.now },
    ghost first: { Column remainders total weights.now by_remainders.items },
    ghost second: { Column running total weights.now by_running.items },
}

fn shares_by<D: Divider>(
    heap: Global,
    divider: &D,
    total: u64,
    weights: &[u32],
) -> Result<Vec<u64>, SheetFault>
    ensures { MatchResult result
        (λ v. Column (D.shares divider.now) total weights.now v.items)
        (Faulted total weights.now) }
{
    let mut shares = vec![in heap; 0; weights.len()]?;
    divider.divide(total, weights, shares.as_mut_slice())?;
    Ok(shares)
}

impl<'a> Shared<'a> {
    fn new(heap: Global, total: u64, weights: &'a [u32]) -> Result<Shared<'a>, SheetFault>
        ensures { MatchResult result
            (λ s. (s.total ≡ total) × (s.weights.now ≡ weights.now))
            (Faulted total weights.now) }
    {
        let by_remainders = shares_by(heap, &Remainders, total, weights)?;
        let by_running = shares_by(heap, &Running, total, weights)?;
        let weight_sum = weight_sum(weights)?;
        Ok(Shared {
            total,
            weights,
            weight_sum,
            by_remainders,
            by_running,
        })
    }

    // The line of a place. Where the weights add up to 0, the whole part is 0 and the remainder the product.
    #[tactic(auto, using(divide::specs::Sums::product_le))]
    fn line(&self, place: usize) -> ShareLine
        requires { place < length self.now.weights.now }
        ensures { result ≡ line self.now.total self.now.weights.now place }
    {
        let weight = self.weights[place];
        let product = self.total * u64::from(weight);
        ShareLine {
            weight,
            whole: product.checked_div(self.weight_sum).unwrap_or(0),
            rest: product.checked_rem(self.weight_sum).unwrap_or(product),
            by_remainders: self.by_remainders[place],
            by_running: self.by_running[place],
        }
    }

    // A line for each place.
    fn lines(&self, heap: Global) -> Result<Vec<ShareLine>, AllocError>
        ensures { IfOk result (λ v. v.items ≡ map (line self.now.total self.now.weights.now) (range_with_len 0 (length self.now.weights.now))) }
    {
        (0..self.weights.len())
            .map(|place| self.line(place))
            .collect(heap)
    }
}

// The sheet of a total shared among weights, or why it is not shared.
pub fn share_sheet(heap: Global, total: u64, weights: &[u32]) -> Result<ShareSheet, SheetFault>
    ensures { MatchResult result
        (λ s. Shareable total weights.now × Sheet total weights.now s)
        (Faulted total weights.now) }
{
    let shared = Shared::new(heap, total, weights)?;
    Ok(ShareSheet {
        total,
        weight_sum: shared.weight_sum,
        lines: shared.lines(heap)?,
        remainders_sum: shared.by_remainders.iter().sum(),
        running_sum: shared.by_running.iter().sum(),
    })
}
