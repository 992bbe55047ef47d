//! The DHCPv4 server core, as it is measured.

use dhcp_clock::{Packet, PacketKind};
use dhcp_wire::{Bytes, DhcpError};
use dhcp4_msg::{DhcpV4Message, DhcpV4MessageType, DhcpV4Option};
use dhcp4_server::{DhcpV4Server, ServerAnswer, ServerConfig};
use std::alloc::Global;
use std::net::Ipv4Addr;

// The address after the pool, as a number: the last one of the pool is 10.255.255.255.
const END: u32 = 11 << 24;

/// How many bytes are read and written when a server handles a message so many times, in a pool of
/// so many addresses of which all but the last are bound to other clients.
pub(crate) fn handle(
    alloc: Global,
    count: u32,
    times: u32,
    message: &[u8],
) -> Result<u64, DhcpError> {
    let mut server = Box::new(alloc, DhcpV4Server::new(alloc, config(count))?)?;
    fill(alloc, &mut server, count)?;
    let packet = payload(Bytes::from_slice(alloc, message)?);
    repeat(&mut server, times, &packet)
}

// The same with this server.
fn repeat(server: &mut DhcpV4Server, times: u32, packet: &Packet) -> Result<u64, DhcpError> {
    let mut total = 0u64;
    for _ in 0..times {
        let reply = length(&server.handle(0, packet)?);
        total = total.saturating_add(packet.bytes.len().saturating_add(reply) as u64);
    }
    Ok(total)
}

// A packet from a socket.
fn payload(bytes: Bytes) -> Packet {
    let kind = PacketKind::Payload;
    Packet { kind, bytes }
}

// How many bytes an answer has.
fn length(answer: &ServerAnswer) -> usize {
    match answer {
        ServerAnswer::Silent => 0,
        ServerAnswer::Reply(packet) => packet.bytes.len(),
    }
}

// Binds all addresses of a pool of so many but the last, each to a client of its own.
fn fill(alloc: Global, server: &mut DhcpV4Server, count: u32) -> Result<(), DhcpError> {
    for number in 1..count {
        let address = END.saturating_sub(count.saturating_sub(number).saturating_add(1));
        let packet = payload(request(alloc, number, address_of(address))?);
        drop(server.handle(0, &packet)?);
    }
    Ok(())
}

// A Request for an address by the client with this transaction id.
fn request(alloc: Global, xid: u32, address: Ipv4Addr) -> Result<Bytes, DhcpError> {
    let mut message = DhcpV4Message::empty(alloc);
    message.xid = xid;
    written_request(alloc, &mut message, address)
}

// Makes a message a Request for this address, and writes it.
#[tactic(auto, unfolding(dhcp4_msg::specs::Value::fits, dhcp4_msg::specs::Value::written_value))]
fn written_request(
    alloc: Global,
    message: &mut DhcpV4Message,
    address: Ipv4Addr,
) -> Result<Bytes, DhcpError> {
    let _address = address.octets();
    let options = &mut message.options;
    options.insert(DhcpV4Option::MessageType(DhcpV4MessageType::Request))?;
    options.insert(DhcpV4Option::RequestedIpAddress(address))?;
    message.to_bytes(alloc)
}

// The configuration of a server with a pool of so many addresses.
fn config(count: u32) -> ServerConfig {
    ServerConfig {
        ip: Ipv4Addr::new(192, 0, 2, 1),
        mac: [2, 0, 0, 0, 0, 2],
        mask: Ipv4Addr::new(255, 0, 0, 0),
        first: address_of(END.saturating_sub(count)),
        count,
        lease_sec: 3_600,
        bound_ms: 1_000,
    }
}

// The address of this number.
fn address_of(bits: u32) -> Ipv4Addr {
    Ipv4Addr::from(bits.to_be_bytes())
}
