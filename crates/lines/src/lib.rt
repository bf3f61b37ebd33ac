// A text as numbered lines of words.
#![tactic(auto)]

mod read;
mod words;

pub use read::{Line, read_lines};
