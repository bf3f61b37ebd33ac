// A score file: the lines that ask for the scores of one resource in one interval.
#![tactic(auto)]

mod check;
mod fault;
mod form;
mod request;

pub use fault::{FileFault, Found, Misread};
pub use form::{Expected, Heading};
pub use request::{ScoreRequest, read_score_request};
