//! A relay message, RFC 8415 section 9.

ghost use Rattle.dhcp6_relay.specs.Outcome.{Gives};
ghost use Rattle.dhcp6_relay.specs.Relay.{parsed_relay};

use crate::RelayError;
use crate::view::RelayView;
use dhcp_wire::Bytes;
use std::alloc::Global;
use std::net::Ipv6Addr;

/// A relay message: a message on its way to a server, or an answer on its way back, and what a
/// relay agent wrote of it.
#[derive(Debug, PartialEq, Eq, Drop)]
pub struct Relay {
    /// Whether it is a Relay-forward, and not a Relay-reply.
    pub forward: bool,
    /// How many relay agents relayed the message before this one.
    pub hops: u8,
    /// An address of the link that the client or the relay agent is on, or an unspecified one.
    pub link: Ipv6Addr,
    /// The address of the client or the relay agent that the message came from.
    pub peer: Ipv6Addr,
    /// The id of the interface that it came in on, if the relay agent gave one; it may be empty.
    pub interface: Option<Bytes>,
    /// The message that is relayed.
    pub inner: Bytes,
}

/// Reads a relay message. In this order: `NotRelay` if and only if the first byte is not 12 or 13,
/// or there is none; `Short` if there are fewer than 34 bytes; `NoMessage` if there is no Relay
/// Message option (9). The first option of a code counts, and a truncated one ends the options.
/// Else out of memory is the only error.
pub fn parse_relay(alloc: Global, bytes: &[u8]) -> Result<Relay, RelayError>
    ensures { Gives (λ relay. relay) result (parsed_relay bytes.now) }
{
    RelayView::read(bytes)?.to_relay(alloc)
}
