ghost use Rattle.divide.specs.Any.{chosen};
ghost use Rattle.divide.specs.AnyExact.{chosen_exact};

use crate::divider::Divider;
use crate::refusal::DivideRefusal;
use crate::remainders::Remainders;
use crate::running::Running;

// A divider that is chosen at run time.
#[derive(Clone, Copy)]
pub enum AnyDivider {
    Remainders,
    Running,
}

impl Divider for AnyDivider {
    ghost shares = { chosen };

    ghost exact = { chosen_exact };

    fn divide(&self, total: u64, weights: &[u32], out: &mut [u64]) -> Result<(), DivideRefusal> {
        match self {
            AnyDivider::Remainders => Remainders.divide(total, weights, out),
            AnyDivider::Running => Running.divide(total, weights, out),
        }
    }
}
