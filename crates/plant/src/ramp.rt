ghost use Rattle.std.specs.Prelude.{◌≡◌, ◌-◌};
ghost use Rattle.std.specs.Borrow.{sem, follows};
ghost use Rattle.plant.specs.contracts.record.Ramp.{the_row as ramp_row};
ghost use Rattle.plant.specs.contracts.record.Record.{the_row};
ghost use Rattle.plant.specs.Levels.{toward};

use crate::record::{Ramp, Record};

// The ramp of a record, less by what is assigned; the economic ramp is put back when this is dropped.
struct ReducedRamp<'a> {
    ramp: &'a mut Ramp,
    economic: Ramp,
}

impl Drop for ReducedRamp<'_> {
    fn drop(self)
        ensures { self.exit.0.now ≡ self.entry.economic }
    {
        *self.ramp = self.economic;
        let ReducedRamp {
            ramp: _,
            economic: _,
        } = self;
    }
}

// Takes `by` from the ramp of a record, until what this gives is dropped; nothing is left of a smaller ramp.
fn reduce_ramp(details: &mut Record, by: u32) -> ReducedRamp<'_>
    ensures* follows { sem 𝓛 (follows the_row ramp_row details.entry.ghost_name result.ramp.ghost_name (λ w. record { kind = details.old.kind; limits = details.old.limits; ramp = w; owners = details.old.owners; blocks = details.old.blocks })) }
    ensures left { result.ramp.now.per_interval ≡ details.old.ramp.per_interval - by }
    ensures economic { result.economic ≡ details.old.ramp }
{
    let economic = details.ramp;
    details.ramp.per_interval = economic.per_interval.saturating_sub(by);
    ReducedRamp {
        ramp: &mut details.ramp,
        economic,
    }
}

// Moves a level toward another by at most the ramp of a record, which is less by `assigned` until then.
pub(crate) fn step(details: &mut Record, assigned: u32, level: u32, aim: u32) -> u32
    ensures kept { details.new ≡ details.old }
    ensures value { result ≡ toward (details.old.ramp.per_interval - assigned) level aim }
{
    let reduced = reduce_ramp(details, assigned);
    let most = reduced.ramp.per_interval;
    if level < aim {
        return level + most.min(aim - level);
    }
    level - most.min(level - aim)
}
