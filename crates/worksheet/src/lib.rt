// Worked examples to follow with a pencil: a total shared by both dividers.
#![tactic(auto)]

mod fault;
mod request;
mod sheet;

pub use fault::{RequestFault, SheetFault};
pub use request::{ShareRequest, read_request};
pub use sheet::{ShareLine, ShareSheet, share_sheet};
