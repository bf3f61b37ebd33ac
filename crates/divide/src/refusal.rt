ghost use Rattle.std.proofs.Common.{rules};
ghost use Rattle.divide.specs.Refusals.{number};

use refusals::Refusal;
use thiserror::Error;

// Why a total is not shared.
#[derive(Clone, Copy, PartialEq, Eq, Debug, Error)]
pub enum DivideRefusal {
    // More than 32 weights, or not one place for each of them.
    #[error("more than 32 weights")]
    ListLength,
    // The weights add up to 0 and the total does not.
    #[error("the weights add up to 0 and the total does not")]
    NoWeight,
    // The total times the sum of the weights is above 4,000,000,000,000,000,000.
    #[error("the total times the sum of the weights is above 4000000000000000000")]
    ProductTooLarge,
}

impl Refusal for DivideRefusal {
    ghost row = { number };

    ghost in_table = { Prim.search rules };

    fn number(self) -> u8 {
        match self {
            DivideRefusal::ListLength => 6,
            DivideRefusal::NoWeight => 18,
            DivideRefusal::ProductTooLarge => 19,
        }
    }
}
