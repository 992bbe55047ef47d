//! DHCPv6 messages, the configuration of a client, its lease, and the messages that it sends: RFC
//! 8415 sections 8, 16, 18 and 21.
#![tactic(auto)]

mod config;
mod exchange;
pub mod laws;
mod lease;
mod message;
mod message_table;
mod message_type;
mod mode;
mod view;

pub use config::DhcpV6Config;
pub use exchange::{concerns, new_id, payload_in};
pub use lease::{DhcpV6Lease, is_duid};
pub use message::DhcpV6Message;
pub use message_table::{
    new_rebind_msg, new_release_msg, new_renew_msg, new_request_msg, new_solicit_msg,
};
pub use message_type::DhcpV6MessageType;
pub use mode::{DhcpV6IaType, DhcpV6Mode};
pub use view::DhcpV6View;
