//! DHCPv6 options: RFC 8415 sections 11 and 21, RFC 3646, RFC 5908.
#![tactic(auto)]

mod domain_name;
mod duid;
mod ia;
pub mod laws;
mod ntp_server;
mod option;
mod option_code;
mod options;
mod status;
mod steps;
mod value;
mod widths;
mod written;

pub use duid::{
    DhcpV6Duid, DhcpV6DuidEnterpriseNumber, DhcpV6DuidLinkLayerAddr,
    DhcpV6DuidLinkLayerAddrPlusTime, DhcpV6DuidUuid,
};
pub use ia::{
    DhcpV6OptionIaAddr, DhcpV6OptionIaNa, DhcpV6OptionIaPd, DhcpV6OptionIaPrefix, DhcpV6OptionIaTa,
};
pub use ntp_server::DhcpV6OptionNtpServer;
pub use option::{DhcpV6Option, DhcpV6OptionUnknown};
pub use option_code::DhcpV6OptionCode;
pub use options::DhcpV6Options;
pub use status::{DhcpV6OptionStatus, DhcpV6OptionStatusCode};
pub use steps::Steps;
