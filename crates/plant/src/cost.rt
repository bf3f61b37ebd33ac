ghost use Rattle.std.specs.Prelude.{◌≡◌, ◌*◌, ◌≤◌, true, pos, ◌-ℤ◌, ◌*ℤ◌, unsigned_abs};
ghost use Rattle.std.specs.List.{list_all};
ghost use Rattle.std.specs.Int.{abs_diff};
ghost use Rattle.plant.specs.Costs.{curve_cost, margin, not_negative};
ghost use Rattle.plant.specs.Ranges.{energy_price_fits};

use crate::prices::Prices;
use crate::record::Block;

// A curve, each price of it in its range, and an interval's prices.
#[derive(Clone, Copy)]
pub(crate) struct Market<'a> {
    pub(crate) blocks: &'a [Block],
    pub(crate) prices: Prices,
    ghost blocks_fit: { list_all (λ b. energy_price_fits b.price) blocks.now ≡ true },
}

// So many kW at a price.
fn cost_at(kw: u32, price: i32) -> i64
    ensures { result ≡ pos kw *ℤ price }
{
    i64::from(kw) * i64::from(price)
}

impl Market<'_> {
    // The curve's cost from 0 to `level`, block by block.
    fn cost(&self, level: u32) -> i64
        ensures value { result ≡ curve_cost self.now.blocks.now level }
        ensures bound { unsigned_abs result ≤ 1000000 * level }
    {
        let mut cost = 0;
        let mut start = 0;
        for block in self.blocks {
            let end = block.end.min(level).max(start);
            cost += cost_at(end - start, block.price);
            start = end;
        }
        cost
    }

    // What running at `level` earns at the price of energy, less its cost.
    fn margin(&self, level: u32) -> i64
        ensures value { result ≡ margin self.now.blocks.now self.now.prices.lmp level }
        ensures bound { unsigned_abs result ≤ 2000000 * level }
    {
        cost_at(level, self.prices.lmp) - self.cost(level)
    }

    // What running at the set point loses against running at the level, and 0 where it loses nothing.
    pub(crate) fn lost(&self, level: u32, set_point: u32) -> u64
        ensures { result ≡ not_negative (margin self.now.blocks.now self.now.prices.lmp level -ℤ margin self.now.blocks.now self.now.prices.lmp set_point) }
    {
        u64::try_from(self.margin(level) - self.margin(set_point)).unwrap_or(0)
    }
}
