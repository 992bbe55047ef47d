//! What is reported of a client over the events of a script: its type, its text, and its summary.
#![tactic(auto)]

mod info;
mod output;
mod printer;
mod summary;

pub use output::{Output, OutputWhat, Reported};
pub use printer::{print_outputs, push_output, push_outputs};
pub use summary::{OutputKind, print_summary};
