//! Packets that captures of the tests have, from the examples of the formats.

use dhcp_wire::DhcpError;
use std::alloc::Global;

// The headers of a frame with a payload of 251 bytes: from a client to all, port 68 to port 67.
const CLIENT_HEADERS: &str =
    "ffffffffffff020000000001080045000117000040008011f9d600000000ffffffff0044004301035c8d";

// The headers of a frame with a payload of 256 bytes: from the server 192.0.2.1 to the relay
// 192.0.2.9, port 67 to port 67.
const RELAY_HEADERS: &str =
    "ffffffffffff02000000000208004500011c0000000040110000c0000201c00002090043004301080000";

// A Solicit in a frame, from the link-local address fe80::1 to all servers and relays, port 546 to
// port 547: the transaction id abcdef, the identifier of the client, an association without an
// address, the code of name servers, and the elapsed time 0.
const SOLICIT: &str = "\
     33330001000202000000000186dd6000000000361101fe800000000000000000000000000001ff0200000000\
     00000000000000010002022202230036000001abcdef0001000a000300010200000000010003000c00000000\
     0000000000000000000600020017000800020000";

// The same Solicit in a Relay-forward, from the relay 2001:db8::1 to the server 2001:db8::2, port
// 547 to port 547.
const RELAY_FORWARD: &str = "\
     33330001000202000000000186dd60000000005c110120010db800000000000000000000000120010db80000\
     0000000000000000000202230223005c00000c0020010db8000000000000000000000001fe80000000000000\
     00000000000000010009002e01abcdef0001000a000300010200000000010003000c00000000000000000000\
     0000000600020017000800020000";

// The bytes of a text in hex; none where it is not such.
fn octets(alloc: Global, digits: &str) -> Vec<u8> {
    match hex::decode(alloc, digits) {
        Ok(octets) => octets,
        Err(_) => Vec::new(alloc),
    }
}

// A frame of these headers and a DHCPv4 message, with its first bytes, its addresses and its
// options.
fn frame4(
    alloc: Global,
    headers: &str,
    first: &[u8],
    addresses: &[u8],
    options: &[u8],
) -> Result<Vec<u8>, DhcpError> {
    let mut frame = octets(alloc, headers);
    frame.extend_from_slice(first)?;
    frame.resize(54, 0)?;
    frame.extend_from_slice(addresses)?;
    frame.extend_from_slice(b"\x00\x00\x00\x00\x02\x00\x00\x00\x00\x01")?;
    frame.resize(278, 0)?;
    frame.extend_from_slice(b"\x63\x82\x53\x63")?;
    frame.extend_from_slice(options)?;
    Ok(frame)
}

/// A Discover of a client in a frame, 293 bytes, with the transaction id 12345678.
pub fn discover(alloc: Global) -> Result<Vec<u8>, DhcpError> {
    frame4(
        alloc,
        CLIENT_HEADERS,
        b"\x01\x01\x06\x00\x12\x34\x56\x78",
        &[0; 12],
        b"\x35\x01\x01\x37\x03\x01\x03\x06\x3d\x00\xff",
    )
}

/// The same message, 293 bytes, with an option 54 of one byte in place of its type.
pub fn untyped(alloc: Global) -> Result<Vec<u8>, DhcpError> {
    frame4(
        alloc,
        CLIENT_HEADERS,
        b"\x01\x01\x06\x00\x12\x34\x56\x78",
        &[0; 12],
        b"\x36\x01\x01\x37\x03\x01\x03\x06\x3d\x00\xff",
    )
}

/// An Ack of 192.0.2.10 for 100 seconds in a frame, 298 bytes, from a server to a relay.
pub fn relayed_ack(alloc: Global) -> Result<Vec<u8>, DhcpError> {
    frame4(
        alloc,
        RELAY_HEADERS,
        b"\x02\x01\x06\x00\x12\x34\x56\x78",
        b"\x00\x00\x00\x00\xc0\x00\x02\x0a\xc0\x00\x02\x01",
        b"\x35\x01\x05\x36\x04\xc0\x00\x02\x01\x33\x04\x00\x00\x00\x64\xff",
    )
}

/// A Solicit of a client in a frame, 108 bytes, with the transaction id abcdef.
pub fn solicit(alloc: Global) -> Vec<u8> {
    octets(alloc, SOLICIT)
}

/// A Relay-forward with that Solicit in a frame, 146 bytes, from a relay to a server.
pub fn relay_forward(alloc: Global) -> Vec<u8> {
    octets(alloc, RELAY_FORWARD)
}
