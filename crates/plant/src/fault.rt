ghost use Rattle.std.specs.Prelude.{◌≡◌};
ghost use Rattle.std.proofs.Common.{rules};
ghost use Rattle.plant.specs.declared.fault.ResourceFault.TheVariants as fault;
ghost use Rattle.plant.specs.Numbers.{fault_number};

use refusals::Refusal;

// What of a block is at fault.
#[derive(Clone, Copy, PartialEq, Eq, Debug)]
pub enum Aspect {
    Level,
    Price,
}

// The lowest block of a curve that is at fault, counted from 1; block 0 is a curve that is missing or not due.
#[derive(Clone, Copy, PartialEq, Eq, Debug)]
pub struct CurveFault {
    pub block: usize,
    pub aspect: Aspect,
}

// Why a record is not a resource's.
#[derive(Clone, Copy, PartialEq, Eq, Debug)]
pub enum ResourceFault {
    // There are not 1 to 4 owners.
    OwnerCount,
    // There are more than 8 blocks.
    BlockCount,
    // The ramp is outside 1 to 500,000 kW.
    Ramp,
    // A share is outside 1 to 10,000.
    Share,
    // A block's price is outside -1,000,000 to 1,000,000.
    Price,
    // The limits are out of order, or above 1,000,000 kW.
    Limits,
    // An owner is named twice, or the shares do not add up to 10,000.
    Owners,
    // The curve breaks its rule.
    Curve(CurveFault),
}

impl From<CurveFault> for ResourceFault {
    ghost from_gives = { λ e f. f ≡ fault.Curve e };

    fn from(e: CurveFault) -> ResourceFault {
        ResourceFault::Curve(e)
    }
}

impl Refusal for ResourceFault {
    ghost row = { fault_number };

    ghost in_table = { Prim.search rules };

    fn number(self) -> u8 {
        match self {
            ResourceFault::OwnerCount => 6,
            ResourceFault::BlockCount => 6,
            ResourceFault::Ramp => 6,
            ResourceFault::Share => 6,
            ResourceFault::Price => 6,
            ResourceFault::Limits => 7,
            ResourceFault::Owners => 7,
            ResourceFault::Curve(_) => 7,
        }
    }
}
