//! A DHCPv4 client, RFC 2131. Its configuration, its lease and its messages are those of
//! dhcp4_lease, and are named here too.
#![tactic(auto)]

mod answer;
mod boxed_lease;
mod client;
mod client_state;
pub mod laws;
mod message;
mod rules;
mod state;
mod verdict;

pub use client::DhcpV4Client;
pub use dhcp_verdict::PacketVerdict;
pub use dhcp4_lease::{
    DhcpV4Config, DhcpV4Lease, DhcpV4MessageForms, built_messages_read_back, discovery_is_short,
    new_discovery, new_rebind, new_reboot_request, new_release, new_renew, new_request,
    requests_are_short, server_of, usual_times_are_in_order,
};
pub use state::{DhcpV4State, PlainState};
