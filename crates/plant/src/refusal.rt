ghost use Rattle.std.proofs.Common.{rules};
ghost use Rattle.plant.specs.Numbers.{assignment_number, price_number};

use refusals::Refusal;

// Why an assignment is not taken.
#[derive(Clone, Copy, PartialEq, Eq, Debug)]
pub enum AssignmentRefusal {
    // The kW assigned are outside 100 to 200,000.
    Kw,
    // The offer price is above 100,000.
    Offer,
    // The kW assigned are above the resource's ramp.
    Ramp,
    // Twice the kW assigned are above the width of the resource's band.
    Band,
}

impl Refusal for AssignmentRefusal {
    ghost row = { assignment_number };

    ghost in_table = { Prim.search rules };

    fn number(self) -> u8 {
        match self {
            AssignmentRefusal::Kw => 6,
            AssignmentRefusal::Offer => 6,
            AssignmentRefusal::Ramp => 8,
            AssignmentRefusal::Band => 8,
        }
    }
}

// Which price is outside its range.
#[derive(Clone, Copy, PartialEq, Eq, Debug)]
pub enum PriceRefusal {
    Rmccp,
    Rmmcp,
    Lmp,
    HistoricMileage,
}

impl Refusal for PriceRefusal {
    ghost row = { price_number };

    ghost in_table = { Prim.search rules };

    fn number(self) -> u8 {
        match self {
            PriceRefusal::Rmccp => 6,
            PriceRefusal::Rmmcp => 6,
            PriceRefusal::Lmp => 6,
            PriceRefusal::HistoricMileage => 6,
        }
    }
}
