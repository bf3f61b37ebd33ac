// What each command prints, which is tested, or why it fails, which is proved.
#![tactic(auto)]

mod memory;
mod score_report;
mod share_report;

pub use memory::{Fault, made};
pub use score_report::report_score;
pub use share_report::report_share;
