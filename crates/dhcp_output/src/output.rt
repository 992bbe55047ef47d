//! What is reported of a client at the events of a script.

use dhcp_clock::Handed;
use dhcp_wire::ErrorKind;
use dhcp4_client::DhcpV4State;
use dhcp6_client::DhcpV6State;
use dhcp6_info::DhcpV6InfoState;

/// The state of a client: of one of either family, or of one for configuration alone.
#[derive(Debug, PartialEq, Drop)]
pub enum Reported {
    /// The state of an IPv4 client.
    V4(DhcpV4State),
    /// The state of an IPv6 client.
    V6(DhcpV6State),
    /// The state of an IPv6 client for configuration alone.
    Info(DhcpV6InfoState),
}

/// What is reported at an event: a message, a state or a failure.
#[derive(Debug, PartialEq, Drop)]
pub enum OutputWhat {
    /// The link took this message.
    Handed(Handed),
    /// The link refused this message.
    Refused(Handed),
    /// The client came to this state.
    Changed(Reported),
    /// The client failed: `Timeout` if its time limit is over, `IoError` if the link refused a
    /// release.
    Failed(ErrorKind),
}

/// What is reported at an event.
#[derive(Debug, PartialEq, Drop)]
pub struct Output {
    /// The number of the event; the first has the number 1.
    pub event: u32,
    /// What is reported.
    pub what: OutputWhat,
}
