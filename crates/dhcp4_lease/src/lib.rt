//! What a DHCPv4 client is given and keeps, RFC 2131: its configuration, its lease, and the
//! messages that it sends.
#![tactic(auto)]

mod config;
pub mod laws;
mod lease;
mod message_forms;
mod message_table;

pub use config::DhcpV4Config;
pub use laws::{
    built_messages_read_back, discovery_is_short, requests_are_short, usual_times_are_in_order,
};
pub use lease::DhcpV4Lease;
pub use message_forms::DhcpV4MessageForms;
pub use message_table::{
    new_discovery, new_rebind, new_reboot_request, new_release, new_renew, new_request, server_of,
};
