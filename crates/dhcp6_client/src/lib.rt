//! A DHCPv6 client, RFC 8415. Its configuration, its lease and the builders of its messages are
//! those of dhcp6_msg, and are named here too.
#![tactic(auto)]

mod answer;
mod client;
mod client_state;
mod draws;
mod granted_lease;
pub mod laws;
mod message;
mod rules;
mod state;
mod verdict;

pub use client::DhcpV6Client;
pub use dhcp_verdict::PacketVerdict;
pub use dhcp6_msg::{
    DhcpV6Config, DhcpV6IaType, DhcpV6Lease, DhcpV6Mode, new_rebind_msg, new_release_msg,
    new_renew_msg, new_request_msg, new_solicit_msg,
};
pub use state::{DhcpV6State, PlainState};
