ghost use Rattle.std.specs.Prelude.{◌≡◌, ◌≤◌, IfOk, unsigned_abs};
ghost use Rattle.std.specs.Result.{result_err};
ghost use Rattle.plant.specs.Ranges.{energy_price_fits, price_refusal};

use crate::refusal::PriceRefusal;
use score::is_within;

const LARGEST_RMCCP: u32 = 1_000_000;

const LARGEST_RMMCP: u32 = 100_000;

// A price of energy is at most so far from 0.
const LARGEST_ENERGY_PRICE: u32 = 1_000_000;

const SMALLEST_HISTORIC_MILEAGE: u32 = 10_000;

// An interval's mileage is never larger, nor is its historic mileage.
pub const LARGEST_MILEAGE: u32 = 3_000_000;

// The prices of an interval, in cents per MWh: of capability (RMCCP), of mileage (RMMCP) and of energy (LMP); and the
// mileage of an interval that is usual, in ten-thousandths.
#[derive(Clone, Copy, PartialEq, Eq, Debug)]
pub struct Prices {
    pub rmccp: u32,
    pub rmmcp: u32,
    pub lmp: i32,
    pub historic_mileage: u32,
    ghost rmccp_fits: { rmccp ≤ 1000000 },
    ghost rmmcp_fits: { rmmcp ≤ 100000 },
    ghost lmp_fits: { unsigned_abs lmp ≤ 1000000 },
    ghost mileage_low: { 10000 ≤ historic_mileage },
    ghost mileage_high: { historic_mileage ≤ 3000000 },
}

pub(crate) fn energy_price_fits(price: i32) -> bool
    ensures { result ≡ energy_price_fits price }
{
    is_within::<LARGEST_ENERGY_PRICE>(price)
}

impl Prices {
    // Prices, or the first that is outside its range.
    pub fn new(
        rmccp: u32,
        rmmcp: u32,
        lmp: i32,
        historic_mileage: u32,
    ) -> Result<Prices, PriceRefusal>
        ensures answer { result_err result ≡ price_refusal rmccp rmmcp lmp historic_mileage }
        ensures value { IfOk result
            (λ p. (p.rmccp ≡ rmccp) × (p.rmmcp ≡ rmmcp) × (p.lmp ≡ lmp) × (p.historic_mileage ≡ historic_mileage)) }
    {
        if rmccp > LARGEST_RMCCP {
            return Err(PriceRefusal::Rmccp);
        }
        if rmmcp > LARGEST_RMMCP {
            return Err(PriceRefusal::Rmmcp);
        }
        if !energy_price_fits(lmp) {
            return Err(PriceRefusal::Lmp);
        }
        if !(SMALLEST_HISTORIC_MILEAGE..=LARGEST_MILEAGE).contains(&historic_mileage) {
            return Err(PriceRefusal::HistoricMileage);
        }
        Ok(Prices {
            rmccp,
            rmmcp,
            lmp,
            historic_mileage,
        })
    }
}
