//! Messages of clients, and what a server answers.

ghost use Rattle.std.specs.Prelude.{◌<◌, ◌^◌};

use dhcp_clock::{Packet, PacketKind};
use dhcp_frame::{Frame, MOST_PAYLOAD, write_frame};
use dhcp_wire::{BROADCAST_MAC_ADDRESS, Bytes, DhcpError, ErrorKind, FixedText};
use dhcp4_msg::{DhcpV4Message, DhcpV4MessageType, DhcpV4Option, DhcpV4OptionCode, DhcpV4Options};
use dhcp4_server::{DhcpV4Server, ServerAnswer, ServerConfig};
use std::alloc::Global;
use std::net::Ipv4Addr;

/// The address of the server.
pub fn server_ip() -> Ipv4Addr {
    Ipv4Addr::new(192, 0, 2, 1)
}

/// The addresses of the pool, by their numbers from 0 on.
pub fn pool_ip(number: u8) -> Ipv4Addr {
    Ipv4Addr::new(192, 0, 2, 10 + number % 100)
}

/// Leases of 100 seconds and packets that take a second at most, with a pool of so many addresses.
pub fn config(count: u32) -> ServerConfig {
    ServerConfig {
        ip: server_ip(),
        mac: [2, 0, 0, 0, 0, 2],
        mask: Ipv4Addr::new(255, 255, 255, 0),
        first: pool_ip(0),
        count,
        lease_sec: 100,
        bound_ms: 1_000,
    }
}

// A message of this type by the client with this transaction id.
#[tactic(auto, unfolding(dhcp4_msg::specs::Value::fits, dhcp4_msg::specs::Value::written_value))]
fn message(alloc: Global, xid: u32, kind: DhcpV4MessageType) -> Result<DhcpV4Message, DhcpError> {
    let mut message = DhcpV4Message::empty(alloc);
    message.xid = xid;
    message.options.insert(DhcpV4Option::MessageType(kind))?;
    Ok(message)
}

/// A Discover.
pub fn discover(alloc: Global, xid: u32) -> Result<Bytes, DhcpError> {
    message(alloc, xid, DhcpV4MessageType::Discovery)?.to_bytes(alloc)
}

/// A Request for an address to the server of this address.
pub fn request(
    alloc: Global,
    xid: u32,
    server: Ipv4Addr,
    address: Ipv4Addr,
) -> Result<Bytes, DhcpError> {
    let mut message = message(alloc, xid, DhcpV4MessageType::Request)?;
    ask(&mut message.options, server, address)?;
    message.to_bytes(alloc)
}

// Adds the address that a Request asks for, and the server that it is for.
#[tactic(auto, unfolding(dhcp4_msg::specs::Value::fits, dhcp4_msg::specs::Value::written_value))]
fn ask(options: &mut DhcpV4Options, server: Ipv4Addr, address: Ipv4Addr) -> Result<(), DhcpError> {
    let _server = server.octets();
    let _address = address.octets();
    options.insert(DhcpV4Option::RequestedIpAddress(address))?;
    options.insert(DhcpV4Option::ServerIdentifier(server))
}

/// A Release.
pub fn release(alloc: Global, xid: u32) -> Result<Bytes, DhcpError> {
    message(alloc, xid, DhcpV4MessageType::Release)?.to_bytes(alloc)
}

/// A payload in a frame to this port. `Bug` if it is too long for one.
pub fn framed(alloc: Global, port: u16, payload: Bytes) -> Result<Bytes, DhcpError> {
    if payload.len() > MOST_PAYLOAD {
        return Err(DhcpError::new_fixed(ErrorKind::Bug, FixedText::Unreadable));
    }
    let frame = Frame {
        src_mac: [2, 0, 0, 0, 0, 1],
        dst_mac: BROADCAST_MAC_ADDRESS,
        src_ip: Ipv4Addr::UNSPECIFIED,
        dst_ip: Ipv4Addr::BROADCAST,
        src_port: 68,
        dst_port: port,
        payload,
    };
    write_frame(alloc, &frame)
}

/// What a server answers.
#[derive(Clone, Copy, PartialEq, Eq, Debug)]
pub enum Answered {
    /// Nothing.
    Silent,
    /// An Offer of this address.
    Offer(Ipv4Addr),
    /// An Ack of this address.
    Ack(Ipv4Addr),
    /// A Nack.
    Nack,
    /// A reply that is none of these, or is not to the client.
    Other,
}

/// What a server answers at a moment to a payload of the client with this transaction id.
pub fn answer(
    alloc: Global,
    server: &mut DhcpV4Server,
    now: u64,
    xid: u32,
    payload: Bytes,
) -> Result<Answered, DhcpError>
    requires { now < 2 ^ 60 }
{
    let packet = Packet {
        kind: PacketKind::Payload,
        bytes: payload,
    };
    match server.handle(now, &packet)? {
        ServerAnswer::Silent => Ok(Answered::Silent),
        ServerAnswer::Reply(reply) => {
            let reply = DhcpV4Message::parse(alloc, reply.bytes.as_slice())?;
            Ok(what_of(&reply, xid))
        }
    }
}

// What a reply says to the client with this transaction id.
fn what_of(reply: &DhcpV4Message, xid: u32) -> Answered {
    if reply.op != 2 || reply.xid != xid {
        return Answered::Other;
    }
    match reply.message_type() {
        Some(DhcpV4MessageType::Offer) if grants(reply) => Answered::Offer(reply.yiaddr),
        Some(DhcpV4MessageType::Ack) if grants(reply) => Answered::Ack(reply.yiaddr),
        Some(DhcpV4MessageType::Nack) if reply.yiaddr.is_unspecified() => Answered::Nack,
        _ => Answered::Other,
    }
}

// Whether a reply has what an Offer or an Ack of this server says.
fn grants(reply: &DhcpV4Message) -> bool {
    let options = &reply.options;
    reply.siaddr == server_ip()
        && options.address(DhcpV4OptionCode::ServerIdentifier) == Some(server_ip())
        && options.address(DhcpV4OptionCode::SubnetMask) == Some(Ipv4Addr::new(255, 255, 255, 0))
        && options.seconds(DhcpV4OptionCode::IpAddressLeaseTime) == Some(100)
        && options.seconds(DhcpV4OptionCode::RenewalTime) == Some(50)
        && options.seconds(DhcpV4OptionCode::RebindingTime) == Some(87)
}
