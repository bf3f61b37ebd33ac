// Exact sharing of a whole total among weights: every unit of the total is in exactly one share.
#![tactic(auto)]

mod any;
mod divider;
mod refusal;
mod remainders;
mod running;
mod sharing;

pub use any::AnyDivider;
pub use divider::Divider;
pub use refusal::DivideRefusal;
pub use remainders::Remainders;
pub use running::Running;
pub use sharing::weight_sum;
