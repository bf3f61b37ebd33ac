// What a resource is: its record, the level that it tracks, and what regulation costs it.
#![tactic(auto)]

mod assignment;
mod check;
mod cost;
mod curve;
mod fault;
mod level;
mod owners;
mod prices;
mod ramp;
mod record;
mod refusal;
mod resource;

pub use assignment::Assignment;
pub use fault::{Aspect, CurveFault, ResourceFault};
pub use prices::{LARGEST_MILEAGE, Prices};
pub use record::{Block, Kind, Limits, Owner, Ramp, Record, Schedule};
pub use refusal::{AssignmentRefusal, PriceRefusal};
pub use resource::Resource;
