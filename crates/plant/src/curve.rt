ghost use Rattle.std.specs.Prelude.{◌≡◌};
ghost use Rattle.std.specs.List.{list_all};
ghost use Rattle.std.specs.Result.{result_err};
ghost use Rattle.plant.specs.Ranges.{energy_price_fits};
ghost use Rattle.plant.specs.Records.{start_after, level_holds, price_holds, aspect_at_fault, blocks_fault, curve_fault};

use crate::fault::{Aspect, CurveFault};
use crate::prices::energy_price_fits;
use crate::record::{Block, Kind};

pub(crate) fn prices_fit(blocks: &[Block]) -> bool
    ensures { result ≡ list_all (λ b. energy_price_fits b.price) blocks.now }
{
    blocks.iter().all(|block| energy_price_fits(block.price))
}

// A block of a curve, the one before it, if there is one, and whether it is the last.
#[derive(Clone, Copy)]
struct Placed {
    before: Option<Block>,
    block: Block,
    last: bool,
}

impl Placed {
    // Where it begins.
    fn start(self) -> u32
        ensures { result ≡ start_after self.before }
    {
        self.before.map_or(0, |before| before.end)
    }

    // Whether it ends above its start, and at the economic maximum if it is the last.
    fn level_holds(self, eco_max: u32) -> bool
        ensures { result ≡ level_holds eco_max self.before self.block self.last }
    {
        self.start() < self.block.end && (!self.last || self.block.end == eco_max)
    }

    // Whether it is priced no lower than the one before.
    fn price_holds(self) -> bool
        ensures { result ≡ price_holds self.before self.block }
    {
        self.before
            .is_none_or(|before| before.price <= self.block.price)
    }

    // What of it is at fault, if anything is.
    fn fault(self, eco_max: u32) -> Option<Aspect>
        ensures { result ≡ aspect_at_fault eco_max self.before self.block self.last }
    {
        if !self.level_holds(eco_max) {
            return Some(Aspect::Level);
        }
        if !self.price_holds() {
            return Some(Aspect::Price);
        }
        None
    }
}

// Checks each block, and answers the lowest that is at fault.
fn check_blocks(eco_max: u32, blocks: &[Block]) -> Result<(), CurveFault>
    ensures { result_err result ≡ blocks_fault eco_max blocks.now }
{
    let mut before = None;
    for (place, block) in blocks.iter().enumerate() {
        let placed = Placed {
            before,
            block: *block,
            last: place + 1 == blocks.len(),
        };
        if let Some(aspect) = placed.fault(eco_max) {
            return Err(CurveFault {
                block: place + 1,
                aspect,
            });
        }
        before = Some(*block);
    }
    Ok(())
}

// Checks a curve by the rule of its resource's kind.
pub(crate) fn check_curve(kind: Kind, eco_max: u32, blocks: &[Block]) -> Result<(), CurveFault>
    ensures { result_err result ≡ curve_fault kind eco_max blocks.now }
{
    let undue = CurveFault {
        block: 0,
        aspect: Aspect::Level,
    };
    match (kind, blocks.is_empty()) {
        (Kind::Generator, false) => check_blocks(eco_max, blocks),
        (Kind::Demand, true) => Ok(()),
        _ => Err(undue),
    }
}
