ghost use Rattle.std.proofs.Common.{rules};
ghost use Rattle.score.specs.Refusals.{signal_number, window_number};

use refusals::Refusal;
use thiserror::Error;

// Why readings are not taken.
#[derive(Clone, Copy, PartialEq, Eq, Debug, Error)]
pub enum SignalRefusal {
    #[error("there are not 150 readings")]
    ReadingCount,
    // One of them, or the reading before them, is.
    #[error("a reading is outside -10000 to 10000")]
    ReadingRange,
}

impl Refusal for SignalRefusal {
    ghost row = { signal_number };

    ghost in_table = { Prim.search rules };

    fn number(self) -> u8 {
        match self {
            SignalRefusal::ReadingCount => 6,
            SignalRefusal::ReadingRange => 6,
        }
    }
}

// Why a point is not taken.
#[derive(Clone, Copy, PartialEq, Eq, Debug, Error)]
pub enum WindowRefusal {
    // There are thirty already.
    #[error("there are more than 30 points")]
    Full,
    #[error("a point is outside -1000000 to 1000000 kW")]
    PointRange,
}

impl Refusal for WindowRefusal {
    ghost row = { window_number };

    ghost in_table = { Prim.search rules };

    fn number(self) -> u8 {
        match self {
            WindowRefusal::Full => 4,
            WindowRefusal::PointRange => 6,
        }
    }
}
