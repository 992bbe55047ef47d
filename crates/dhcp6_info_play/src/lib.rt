//! Scripts of a client for configuration alone: their text, their replay, and the call behind the
//! program. Scripts are those of dhcp_script, outputs those of dhcp_output, and they are played as
//! dhcp_replay plays scripts of both families.
#![tactic(auto)]

mod info_script;
pub mod laws;
mod printer;
mod reader;
mod replayed;
mod tool;

pub use info_script::{read_info_script, write_info_script};
pub use replayed::replay_info;
pub use tool::info_tool;
