// A score worked out step by step: mileage, the largest error, and the score by each scorer.
#![tactic(auto)]

mod refusal;
mod sheet;

pub use refusal::ScoreRefusal;
pub use sheet::{LargestError, ScoreSheet, score_sheet};
