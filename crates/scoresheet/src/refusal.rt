ghost use Rattle.std.specs.Prelude.{◌≡◌};
ghost use Rattle.std.proofs.Common.{rules};
ghost use Rattle.scoresheet.specs.declared.refusal.ScoreRefusal.TheVariants as refused;
ghost use Rattle.scoresheet.specs.Refusals.{score_number};

use refusals::Refusal;
use score::{SignalRefusal, WindowRefusal};
use thiserror::Error;

// Why there are no scores.
#[derive(Clone, Copy, PartialEq, Eq, Debug, Error)]
pub enum ScoreRefusal {
    #[error("the kW assigned are outside 100 to 200000")]
    Assigned,
    #[error("the historic score is above 10000")]
    Historic,
    #[error(transparent)]
    Signal(SignalRefusal),
    #[error(transparent)]
    Window(WindowRefusal),
}

impl From<SignalRefusal> for ScoreRefusal {
    ghost from_gives = { λ e f. f ≡ refused.Signal e };

    fn from(e: SignalRefusal) -> ScoreRefusal {
        ScoreRefusal::Signal(e)
    }
}

impl From<WindowRefusal> for ScoreRefusal {
    ghost from_gives = { λ e f. f ≡ refused.Window e };

    fn from(e: WindowRefusal) -> ScoreRefusal {
        ScoreRefusal::Window(e)
    }
}

impl Refusal for ScoreRefusal {
    ghost row = { score_number };

    ghost in_table = { Prim.search rules };

    fn number(self) -> u8 {
        match self {
            ScoreRefusal::Assigned => 6,
            ScoreRefusal::Historic => 6,
            ScoreRefusal::Signal(refusal) => refusal.number(),
            ScoreRefusal::Window(refusal) => refusal.number(),
        }
    }
}
