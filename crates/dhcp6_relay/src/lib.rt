//! Relay messages of DHCPv6, RFC 8415 sections 9 and 19: Relay-forward and Relay-reply, read,
//! wrapped and unwrapped; and the call behind a program that does so.
#![tactic(auto)]

mod error;
pub mod laws;
mod layer;
mod line;
mod relay;
mod reply;
mod request;
mod tool;
mod view;
mod wrap;

pub use error::RelayError;
pub use relay::{Relay, parse_relay};
pub use reply::reply_along;
pub use tool::relay_tool;
pub use wrap::wrap_forward;
