//! DHCPv4 messages and their options: RFC 2131 section 2, RFC 2132, RFC 3442.
#![tactic(auto)]

pub mod laws;
mod lease_time;
mod message;
mod message_type;
mod option;
mod option_code;
mod option_table;
mod options;
mod route;
mod value;
mod view;

pub use lease_time::{default_rebinding_time, default_renewal_time};
pub use message::DhcpV4Message;
pub use message_type::DhcpV4MessageType;
pub use option::{DhcpV4Option, DhcpV4OptionUnknown};
pub use option_code::DhcpV4OptionCode;
pub use options::DhcpV4Options;
pub use route::DhcpV4ClasslessRoute;
pub use view::DhcpV4View;
