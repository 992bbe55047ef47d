//! A message, its answer, and both on their way through one relay agent.

use dhcp_stream::hex_field;
use dhcp_wire::{Bytes, DhcpError};
use dhcp6_relay::{RelayError, parse_relay, reply_along, wrap_forward};
use std::alloc::Global;
use std::net::Ipv6Addr;

/// A Solicit.
pub const SOLICIT: &str = "01abcdef0001000a000300010200000000010003000c0000000000000000000000000006\
    00020017000800020000";

/// A Reply to it.
pub const REPLY: &str = "070000000001000a000300010200000000010002000a00030001020000000002000300280\
    000000000000032000000500005001820010db800000000000000000000001000000064000000c8";

/// The Solicit as it is relayed from the link 2001:db8::1 and the client fe80::1.
pub const FORWARD: &str = "0c0020010db8000000000000000000000001fe80000000000000000000000000000100\
    09002e01abcdef0001000a000300010200000000010003000c000000000000000000000000000600020017000800020\
    000";

/// The Reply as it is relayed back.
pub const REPLIED: &str = "0d0020010db8000000000000000000000001fe80000000000000000000000000000100\
    09004c070000000001000a000300010200000000010002000a000300010200000000020003002800000000000000320\
    00000500005001820010db800000000000000000000001000000064000000c8";

/// The bytes of a text in hex; no bytes for a text that is not hex.
pub fn bytes_of(alloc: Global, text: &str) -> Result<Bytes, DhcpError> {
    match hex_field(alloc, text.as_bytes())? {
        Some(bytes) => Ok(bytes),
        None => Ok(Bytes::new(alloc)),
    }
}

/// 2001:db8::1, the address of a link.
pub fn link() -> Ipv6Addr {
    Ipv6Addr::new(0x2001, 0xdb8, 0, 0, 0, 0, 0, 1)
}

/// fe80::1 and so on, the addresses of clients and relay agents.
pub fn peer(number: u16) -> Ipv6Addr {
    Ipv6Addr::new(0xfe80, 0, 0, 0, 0, 0, 0, number)
}

/// A message, relayed from the link and from this peer.
pub fn forward_of(
    alloc: Global,
    message: &[u8],
    number: u16,
    interface: Option<&[u8]>,
) -> Result<Bytes, RelayError> {
    wrap_forward(alloc, message, link(), peer(number), interface)
}

#[test]
fn a_solicit_is_relayed(rt: HostRuntime) {
    let solicit = bytes_of(rt.alloc(), SOLICIT).expect(&rt, "memory");
    let forward = forward_of(rt.alloc(), solicit.as_slice(), 1, None).expect(&rt, "relayed");
    assert!(rt; forward == bytes_of(rt.alloc(), FORWARD).expect(&rt, "memory"));
}

#[test]
fn its_reply_is_relayed_back(rt: HostRuntime) {
    let forward = bytes_of(rt.alloc(), FORWARD).expect(&rt, "memory");
    let answer = bytes_of(rt.alloc(), REPLY).expect(&rt, "memory");
    let reply = reply_along(rt.alloc(), forward.as_slice(), answer.as_slice()).expect(
        &rt, "relayed",
    );
    assert!(rt; reply == bytes_of(rt.alloc(), REPLIED).expect(&rt, "memory"));
}

#[test]
fn a_relay_message_is_read(rt: HostRuntime) {
    let bytes = bytes_of(rt.alloc(), REPLIED).expect(&rt, "memory");
    let relay = parse_relay(rt.alloc(), bytes.as_slice()).expect(&rt, "reads");
    assert!(rt; !relay.forward);
    assert!(rt; relay.hops == 0);
    assert!(rt; relay.link == link());
    assert!(rt; relay.peer == peer(1));
    assert!(rt; relay.interface.is_none());
    assert!(rt; relay.inner == bytes_of(rt.alloc(), REPLY).expect(&rt, "memory"));
}
