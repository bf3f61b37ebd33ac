// Following the control signal: its mileage, the points of a window, the errors against the signal, and the scorers.
#![tactic(auto)]

mod any;
mod band;
mod blend;
mod errors;
mod gathering;
mod historic;
mod performance;
mod precision;
mod ranges;
mod refusal;
mod scorer;
mod signal;
mod window;

pub use any::{AnyScorer, PlainScorer, UnknownScorer};
pub use band::Band;
pub use blend::Blend;
pub use errors::tracking_errors;
pub use gathering::gather;
pub use historic::Historic;
pub use performance::{FULL_SCORE, LARGEST_ASSIGNED, Performance, SMALLEST_ASSIGNED};
pub use precision::Precision;
pub use ranges::is_within;
pub use refusal::{SignalRefusal, WindowRefusal};
pub use scorer::Scorer;
pub use signal::{READINGS, Signal};
pub use window::{ClosedWindow, GatheringWindow, POINTS};
