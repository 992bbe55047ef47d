//! A message relayed towards a server, RFC 8415 section 19.1.

ghost use Rattle.std.specs.Prelude.{◌≡◌, IfOk, option_copied, true};
ghost use Rattle.dhcp6_relay.specs.Layer.{is_forward};
ghost use Rattle.dhcp6_relay.specs.Outcome.{Gives};
ghost use Rattle.dhcp6_relay.specs.Wrap.{next_hop_count, wrapped_message};

use crate::RelayError;
use crate::layer::{HEADER_LEN, Layer, emit_around};
use crate::view::is_forward;
use dhcp_wire::Bytes;
use std::alloc::Global;
use std::net::Ipv6Addr;

// The hop count from which on a Relay-forward is not relayed any more.
const HOP_COUNT_LIMIT: u8 = 8;

/// The Relay-forward of a message, of these bytes, that a relay agent received: with an address of
/// the link that it came from, the address of who sent it, and the id of the interface that it came
/// in on, if that is given. Its hop count is 0, or one more than that of a Relay-forward. In this
/// order: `Short` if the message is a Relay-forward of fewer than 34 bytes; `TooManyHops` if its
/// hop count is 8 or more; `TooLong` if the result would be longer than 65,535 bytes. Else out of
/// memory is the only error. The message may be of any type: to discard an Advertise, a Reply and a
/// Reconfigure, which no client sends (RFC 8415, sections 16.3, 16.10 and 16.11), and not to relay
/// a Relay-reply towards a server, is the caller's test.
#[tactic(auto, unfolding(crate::specs::Wrap::wrapped_message, crate::specs::Layer::layers_around))]
pub fn wrap_forward(
    alloc: Global,
    bytes: &[u8],
    link: Ipv6Addr,
    peer: Ipv6Addr,
    interface: Option<&[u8]>,
) -> Result<Bytes, RelayError>
    ensures made { Gives (λ forward. forward) result (wrapped_message bytes.now (record {
      link = link;
      peer = peer;
      interface = option_copied interface.entry;
    })) }
    ensures forward { IfOk result (λ forward. is_forward forward ≡ true) }
{
    let layer = Layer {
        hops: next_hop_count(bytes)?,
        link,
        peer,
        interface,
    };
    emit_around(alloc, true, &[layer], bytes)
}

// The hop count of the Relay-forward of a message.
#[tactic(auto, unfolding(crate::specs::Wrap::next_hop_count))]
fn next_hop_count(bytes: &[u8]) -> Result<u8, RelayError>
    ensures { result ≡ next_hop_count bytes.now }
{
    if !is_forward(bytes) {
        return Ok(0);
    }
    if bytes.len() < HEADER_LEN {
        return Err(RelayError::Short);
    }
    let hops = bytes[1];
    if hops < HOP_COUNT_LIMIT {
        Ok(hops + 1)
    } else {
        Err(RelayError::TooManyHops)
    }
}
