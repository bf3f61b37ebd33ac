// The text of tables, refusals and faults, as they are printed.
#![tactic(auto)]

mod fault_line;
mod refusal_text;
mod score_table;
mod share_table;

pub use fault_line::FaultLine;
pub use refusal_text::RefusalText;
pub use score_table::ScoreTable;
pub use share_table::ShareTable;
