ghost use Rattle.std.specs.Prelude.{◌≡◌, ◌≤◌, true, IfOk};
ghost use Rattle.std.specs.Result.{result_err};
ghost use Rattle.score.specs.Ranges.{assigned_fits};
ghost use Rattle.plant.specs.Ranges.{offer_of, assignment_refusal};

use crate::record::Schedule;
use crate::refusal::AssignmentRefusal;
use score::{LARGEST_ASSIGNED, SMALLEST_ASSIGNED};

// An offer price is at most so many cents per MWh.
const LARGEST_OFFER: u32 = 100_000;

// How far a resource is to follow the signal up and down from its set point, in kW, and who schedules it.
#[derive(Clone, Copy, PartialEq, Eq, Debug)]
pub struct Assignment {
    pub kw: u32,
    pub schedule: Schedule,
    ghost kw_fits: { assigned_fits kw ≡ true },
    ghost offer_fits: { offer_of schedule ≤ 100000 },
}

// The offer price; 0 where there is none.
fn offer_of(schedule: Schedule) -> u32
    ensures { result ≡ offer_of schedule }
{
    match schedule {
        Schedule::Pool(offer) => offer,
        Schedule::Own => 0,
    }
}

impl Assignment {
    // An assignment, or the first value of it that is outside its range.
    pub fn new(kw: u32, schedule: Schedule) -> Result<Assignment, AssignmentRefusal>
        ensures answer { result_err result ≡ assignment_refusal kw schedule }
        ensures value { IfOk result (λ a. (a.kw ≡ kw) × (a.schedule ≡ schedule)) }
    {
        if !(SMALLEST_ASSIGNED..=LARGEST_ASSIGNED).contains(&kw) {
            return Err(AssignmentRefusal::Kw);
        }
        if offer_of(schedule) > LARGEST_OFFER {
            return Err(AssignmentRefusal::Offer);
        }
        Ok(Assignment { kw, schedule })
    }
}
