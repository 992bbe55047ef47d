//! Relay messages of DHCPv6.

use dhcp6_relay::{RelayError, reply_along, wrap_forward};
use std::alloc::Global;
use std::net::Ipv6Addr;

// A Reply without options.
const ANSWER: [u8; 4] = [7, 0xab, 0xcd, 0xef];

// Relays a message to a server.
pub(crate) fn wrap(alloc: Global, bytes: &[u8]) -> Result<usize, RelayError> {
    let link = Ipv6Addr::new(0x2001, 0xdb8, 0, 0, 0, 0, 0, 1);
    let peer = Ipv6Addr::new(0xfe80, 0, 0, 0, 0, 0, 0, 1);
    let forward = wrap_forward(alloc, bytes, link, peer, None)?;
    Ok(bytes.len().saturating_add(forward.len()))
}

// Relays an answer back along a Relay-forward.
pub(crate) fn reply(alloc: Global, bytes: &[u8]) -> Result<usize, RelayError> {
    let reply = reply_along(alloc, bytes, &ANSWER)?;
    Ok(bytes.len().saturating_add(reply.len()))
}
