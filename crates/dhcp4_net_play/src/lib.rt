//! Scripts of a network of DHCPv4 clients and a server: their text, what is printed of what they
//! report, and the call behind the program. The networks are those of dhcp4_net.
#![tactic(auto)]

mod lines;
mod net_script;
mod output;
mod printer;
mod reader;
mod tool;

pub use net_script::{read_net_script, write_net_script};
pub use output::print_net_outputs;
pub use tool::net_tool;
