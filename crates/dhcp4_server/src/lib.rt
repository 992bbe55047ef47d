//! The core of a DHCPv4 server, RFC 2131 section 4.3: it offers and grants addresses of a pool.
#![tactic(auto)]

mod binding;
mod blocks;
mod config;
mod decision;
pub mod laws;
mod reply;
mod request;
mod server;
mod table;

pub use binding::Binding;
pub use config::ServerConfig;
pub use decision::{Decision, Query};
pub use server::{DhcpV4Server, ServerAnswer};
