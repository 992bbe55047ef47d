//! What a program hears and says, line by line.
#![tactic(auto)]

mod dialogue;
mod standard;

pub use dialogue::{Dialogue, MAX_LINE, Unheard};
pub use standard::StdDialogue;
