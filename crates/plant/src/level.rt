ghost use Rattle.std.specs.Prelude.{◌≡◌};
ghost use Rattle.plant.specs.Levels.{last_end, desired};
ghost use Rattle.plant.specs.Plants.{plant_of};

use crate::record::{Block, Record};

// The end of the last block priced at most `lmp`, or `level` where there is none.
fn last_end(blocks: &[Block], lmp: i32, level: u32) -> u32
    ensures { result ≡ last_end lmp level blocks.now }
{
    blocks
        .iter()
        .rev()
        .find(|block| block.price <= lmp)
        .map_or(level, |block| block.end)
}

// The level that a resource would run at, were it not regulating.
pub(crate) fn desired(details: &Record, lmp: i32) -> u32
    ensures { result ≡ desired (plant_of details.now) lmp }
{
    let eco_min = details.limits.eco_min;
    eco_min.max(last_end(details.blocks.as_slice(), lmp, eco_min))
}
