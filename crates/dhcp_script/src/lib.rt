//! Scripts of a client's life: their types, their limits and their texts.
#![tactic(auto)]

pub mod codes;
mod decimal;
mod demo;
pub mod duid;
mod event;
pub mod field;
mod held;
mod hex_text;
pub mod laws;
mod lease4;
mod lease6;
pub mod life;
mod live_line;
pub mod script;
mod script4;
pub mod script6;
mod version;
mod widths;

pub use demo::demo_script;
pub use duid::MAX_DUID_LEN;
pub use event::{Event, EventWhat, MAX_EVENTS, MAX_PACKET_LEN, MOMENT_LIMIT, are_valid};
pub use hex_text::{push_hex, push_hex_line, push_numbers};
pub use lease4::Lease4;
pub use lease4::printer::push_lease as push_lease4;
pub use lease6::Lease6;
pub use lease6::printer::push_lease as push_lease6;
pub use live_line::{LiveLine, read_live_line};
pub use script::{Script, read_script, read_script_v1, upgrade, write_script};
pub use script4::Script4;
pub use script6::{MAX_CODES_V6, Script6};
