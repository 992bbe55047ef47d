//! A DHCPv6 client for configuration alone, RFC 8415 section 18.2.6: it asks for name servers,
//! domains and time servers, without an address, and asks again after the refresh time.
#![tactic(auto)]

mod answer;
mod client;
mod client_state;
mod draws;
mod given_info;
mod info;
pub mod laws;
mod message;
mod refresh_time;
mod rules;
mod state;

pub use client::DhcpV6InfoClient;
pub use info::DhcpV6Info;
pub use state::{DhcpV6InfoState, PlainInfoState};
