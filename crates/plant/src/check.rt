ghost use Rattle.std.specs.Prelude.{◌≡◌, ◌≤◌, ◌&&◌, length, vec_len};
ghost use Rattle.std.specs.Result.{result_err};
ghost use Rattle.plant.specs.Plants.{plant_of};
ghost use Rattle.plant.specs.Ranges.{ramp_fits};
ghost use Rattle.plant.specs.Records.{limits_hold, range_fault, rule_fault, record_fault};

use crate::curve::{check_curve, prices_fit};
use crate::fault::{CurveFault, ResourceFault};
use crate::owners::{owners_hold, shares_fit};
use crate::record::{Limits, Ramp, Record};

const MOST_OWNERS: usize = 4;

const MOST_BLOCKS: usize = 8;

const LARGEST_RAMP: u32 = 500_000;

// No resource runs above so many kW.
const LARGEST_LEVEL: u32 = 1_000_000;

fn ramp_fits(ramp: Ramp) -> bool
    ensures { result ≡ ramp_fits ramp.per_interval }
{
    (1..=LARGEST_RAMP).contains(&ramp.per_interval)
}

fn limits_hold(limits: Limits) -> bool
    ensures { result ≡ limits_hold limits }
{
    limits.eco_min <= limits.reg_low
        && limits.reg_low < limits.reg_high
        && limits.reg_high <= limits.eco_max
        && limits.eco_max <= LARGEST_LEVEL
}

// Checks what must be in its range.
fn check_ranges(record: &Record) -> Result<(), ResourceFault>
    ensures { result_err result ≡ range_fault (plant_of «record».now) }
{
    if !(1..=MOST_OWNERS).contains(&record.owners.len()) {
        return Err(ResourceFault::OwnerCount);
    }
    if record.blocks.len() > MOST_BLOCKS {
        return Err(ResourceFault::BlockCount);
    }
    if !ramp_fits(record.ramp) {
        return Err(ResourceFault::Ramp);
    }
    if !shares_fit(record.owners.as_slice()) {
        return Err(ResourceFault::Share);
    }
    if !prices_fit(record.blocks.as_slice()) {
        return Err(ResourceFault::Price);
    }
    Ok(())
}

// Checks the rules of limits, owners and curve.
fn check_rules(record: &Record) -> Result<(), ResourceFault>
    ensures { result_err result ≡ rule_fault (plant_of «record».now) }
{
    if !limits_hold(record.limits) {
        return Err(ResourceFault::Limits);
    }
    if !owners_hold(record.owners.as_slice()) {
        return Err(ResourceFault::Owners);
    }
    Ok(check_curve(record.kind, record.limits.eco_max, record.blocks.as_slice())?)
}

// Checks a record, its ranges before its rules.
#[tactic(auto, unfolding(crate::specs::Records::record_fault))]
pub(crate) fn check_record(record: &Record) -> Result<(), ResourceFault>
    ensures { result_err result ≡ record_fault (plant_of «record».now) }
{
    check_ranges(record)?;
    check_rules(record)
}
