//! Scripts of a client, played: the client's history, and the call behind the program. Scripts and
//! their texts are those of dhcp_script, what is reported that of dhcp_output, streams those of
//! dhcp_stream, statuses those of dhcp_tool; what most callers need of them is exported here too.
#![tactic(auto)]

mod begun;
mod family;
pub mod laws;
mod life;
mod printed;
mod replayed;
mod replayed4;
mod replayed6;
mod request;
mod tool;

pub use begun::{begin_script4, begin_script6};
pub use dhcp_output::{Output, OutputWhat, Reported, print_outputs};
pub use dhcp_script::{
    Event, EventWhat, Lease4, Lease6, Script, Script4, Script6, read_script, read_script_v1,
    upgrade, write_script,
};
pub use dhcp_stream::{
    MAX_INPUT, MemSink, MemSource, ReadOutcome, Sink, Source, StdSink, StdSource, Whole,
    WriteOutcome, hex_field, ipv4_field, ipv6_field, mac_field, number_field, read_whole,
    write_whole,
};
pub use dhcp_tool::{Status, status_without_words};
pub use family::{FamilyClient, play};
pub use life::{FamilyState, arrival_of, numbered_event, outputs_of};
pub use printed::print_script;
pub use replayed::{Replayed, replay};
pub use replayed4::{Replayed4, replay4};
pub use replayed6::{Replayed6, replay6};
pub use tool::replay_tool;
