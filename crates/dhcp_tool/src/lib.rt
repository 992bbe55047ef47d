//! What every program shares: its words, its exit status, and the way from what a source holds to
//! what a sink takes, over the type of its scripts and what is printed for them.
#![tactic(auto)]

mod request;
mod status;
mod tool;

pub use request::{ToolRequest, is_run};
pub use status::{Status, out_of_memory, status_without_words};
pub use tool::{input, print, run_tool};
