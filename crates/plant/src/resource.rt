ghost use Rattle.std.specs.Prelude.{◌≡◌, ◌+◌, ◌-◌, ◌*◌, ◌≤◌, true, IfOk};
ghost use Rattle.std.specs.Int.{abs_diff};
ghost use Rattle.std.specs.Option.{option_map};
ghost use Rattle.std.specs.Result.{result_err};
ghost use Rattle.plant.specs.Costs.{area};
ghost use Rattle.plant.specs.Levels.{placing_refusal, desired, moved, set_point};
ghost use Rattle.plant.specs.Plants.{plant_of};
ghost use Rattle.plant.specs.Records.{record_fault, lawful};

use crate::assignment::Assignment;
use crate::check::check_record;
use crate::cost::Market;
use crate::fault::ResourceFault;
use crate::level::desired;
use crate::prices::Prices;
use crate::ramp::step;
use crate::record::{Kind, Record};
use crate::refusal::AssignmentRefusal;

// A resource whose record keeps every rule.
#[derive(Drop)]
pub struct Resource {
    details: Record,
    ghost checked: { lawful (plant_of details) ≡ true },
}

impl Resource {
    // The resource of a record, or the first fault of the record.
    pub fn new(details: Record) -> Result<Resource, ResourceFault>
        ensures answer { result_err result ≡ record_fault (plant_of details) }
        ensures value { IfOk result (λ x. x.details ≡ details) }
    {
        check_record(&details)?;
        Ok(Resource { details })
    }

    // Its record.
    pub fn details(&self) -> &Record
        ensures { result.now ≡ self.now.details }
    {
        &self.details
    }

    // Whether it can follow the signal so far.
    #[tactic(auto, using(crate::proofs::Lawful::limited))]
    pub fn check_assignment(&self, assignment: Assignment) -> Result<(), AssignmentRefusal>
        ensures { result_err result ≡ placing_refusal (plant_of self.now.details) assignment.kw }
    {
        let limits = self.details.limits;
        if assignment.kw > self.details.ramp.per_interval {
            return Err(AssignmentRefusal::Ramp);
        }
        if 2 * assignment.kw > limits.reg_high - limits.reg_low {
            return Err(AssignmentRefusal::Band);
        }
        Ok(())
    }

    // The level that it would run at, were it not regulating, at this price of energy.
    pub fn desired_level(&self, lmp: i32) -> u32
        ensures { result ≡ desired (plant_of self.now.details) lmp }
    {
        desired(&self.details, lmp)
    }

    // The level that it tracks after an interval at this price of energy, where it tracked `level` before. While it is
    // assigned, its ramp is less until the step is made; then the record is as it was.
    pub fn moved_level(&mut self, level: u32, lmp: i32, assignment: Option<Assignment>) -> u32
        ensures kept { self.new ≡ self.old }
        ensures value { result ≡ moved (plant_of self.old.details) level lmp (option_map (λ a. a.kw) assignment) }
        ensures within { self.old.details.limits.eco_min ≤ level → level ≤ self.old.details.limits.eco_max → (self.old.details.limits.eco_min ≤ result) × (result ≤ self.old.details.limits.eco_max) }
    {
        match self.details.kind {
            Kind::Generator => {
                let aim = desired(&self.details, lmp);
                let held_back = assignment.map_or(0, |assignment| assignment.kw);
                step(&mut self.details, held_back, level, aim)
            }
            Kind::Demand => level,
        }
    }

    // The set point from which it regulates, where it tracks `level`.
    #[tactic(auto, using(crate::proofs::Lawful::limited))]
    pub fn set_point(&self, level: u32, assignment: Assignment) -> u32
        ensures value { result ≡ set_point self.now.details.limits level assignment.kw }
    {
        let limits = self.details.limits;
        let low = limits.reg_low + assignment.kw;
        let high = limits.reg_high.saturating_sub(assignment.kw);
        low.max(high.min(level))
    }

    // The area of its opportunity cost, in cents per MWh times kW, where it tracks `level` and regulates from
    // `set_point`.
    #[tactic(auto, using(crate::proofs::Costs::lost_small))]
    pub fn area(&self, prices: Prices, level: u32, set_point: u32) -> u64
        ensures value { result ≡ area self.now.details.kind self.now.details.blocks.items prices.lmp level set_point }
        ensures bound { result ≤ 2000000 * abs_diff level set_point }
    {
        match self.details.kind {
            Kind::Generator => {
                let market = Market {
                    blocks: self.details.blocks.as_slice(),
                    prices,
                };
                market.lost(level, set_point)
            }
            Kind::Demand => 0,
        }
    }
}
