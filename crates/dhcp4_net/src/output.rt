//! What is reported of a network.

use std::net::Ipv4Addr;

/// What is reported of an event.
#[derive(Clone, Copy, Debug, PartialEq, Eq)]
pub enum NetWhat {
    /// The packet of this number was sent.
    Sent(u32),
    /// The client of this number holds this address from the first moment up to the second, which
    /// is not one of them; both are in milliseconds.
    Hold(u32, Ipv4Addr, u64, u64),
    /// The link of the client of this number refused its release.
    Failed(u32),
}

/// What is reported, with the number of its event.
#[derive(Clone, Copy, Debug, PartialEq, Eq)]
pub struct NetOutput {
    /// The number of the event.
    pub event: u32,
    /// What is reported of it.
    pub what: NetWhat,
}
