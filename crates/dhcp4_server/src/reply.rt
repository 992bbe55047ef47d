//! The replies of a server, RFC 2131 section 4.3.1 and table 3.

ghost use Rattle.std.specs.Prelude.{◌≡◌, ◌≤◌, [], length};
ghost use Rattle.dhcp_wire.specs.Outcome.{Makes};
ghost use Rattle.dhcp_frame.specs.Write.{frame_bytes};
ghost use Rattle.dhcp4_msg.specs.Message.{written_message};
ghost use Rattle.dhcp4_msg.specs.Options.{Adds};
ghost use Rattle.dhcp4_server.specs.Reply as replies;

use crate::ServerConfig;
use crate::decision::Decision;
use crate::request::SERVER_PORT;
use dhcp_clock::{Packet, PacketKind};
use dhcp_frame::{Frame, write_frame};
use dhcp_wire::{BROADCAST_MAC_ADDRESS, Bytes, DhcpError};
use dhcp4_msg::{
    DhcpV4Message, DhcpV4MessageType, DhcpV4Option, DhcpV4Options, default_rebinding_time,
    default_renewal_time,
};
use std::alloc::Global;
use std::net::Ipv4Addr;

// The UDP port of a client.
const CLIENT_PORT: u16 = 68;

/// The message that tells a client what was decided, if one is sent. Out of memory is the only
/// error.
pub(crate) fn reply_to_decision(
    alloc: Global,
    config: &ServerConfig,
    message: &DhcpV4Message,
    decision: Decision,
) -> Result<Option<DhcpV4Message>, DhcpError>
    ensures { Makes (λ reply. reply) result
        (replies.reply_by config.now message.now decision) }
{
    match decision {
        Decision::Silence => Ok(None),
        Decision::Offer(address) => {
            let reply = granting(alloc, config, message, DhcpV4MessageType::Offer, address)?;
            Ok(Some(reply))
        }
        Decision::Grant(address) => {
            let reply = granting(alloc, config, message, DhcpV4MessageType::Ack, address)?;
            Ok(Some(reply))
        }
        Decision::Refuse => {
            let reply = refusing(alloc, config, message)?;
            Ok(Some(reply))
        }
    }
}

// An Offer or an Ack of an address, which is given as a number. Out of memory is the only error.
#[tactic(auto, unfolding(crate::specs::Reply::reply_message))]
fn granting(
    alloc: Global,
    config: &ServerConfig,
    message: &DhcpV4Message,
    kind: DhcpV4MessageType,
    address: u32,
) -> Result<DhcpV4Message, DhcpError>
    ensures { Makes (λ reply. reply) result
        (replies.granting config.now message.now kind address) }
{
    let mut reply = reply_to(alloc, message, address_of_bits(address), config.ip);
    add_granting(&mut reply.options, config, kind)?;
    Ok(reply)
}

// A Nack. Out of memory is the only error.
#[tactic(auto, unfolding(crate::specs::Reply::reply_message))]
fn refusing(
    alloc: Global,
    config: &ServerConfig,
    message: &DhcpV4Message,
) -> Result<DhcpV4Message, DhcpError>
    ensures { Makes (λ reply. reply) result (replies.refusing config.now message.now) }
{
    let none = Ipv4Addr::UNSPECIFIED;
    let mut reply = reply_to(alloc, message, none, none);
    add_refusing(&mut reply.options, config)?;
    Ok(reply)
}

// The address of this number.
fn address_of_bits(bits: u32) -> Ipv4Addr
    ensures { result ≡ replies.address_of_bits bits }
{
    Ipv4Addr::from(bits.to_be_bytes())
}

// A reply to a message, without options.
#[tactic(auto, unfolding(crate::specs::reply_message, dhcp4_msg::specs::Message::empty_message))]
fn reply_to(
    alloc: Global,
    message: &DhcpV4Message,
    yiaddr: Ipv4Addr,
    siaddr: Ipv4Addr,
) -> DhcpV4Message
    ensures { result ≡ replies.reply_message message.now yiaddr siaddr [] }
{
    let mut reply = DhcpV4Message::empty(alloc);
    reply.op = 2;
    reply.xid = message.xid;
    reply.yiaddr = yiaddr;
    reply.siaddr = siaddr;
    let chaddr = message.chaddr;
    reply.chaddr = chaddr;
    reply
}

// Adds the options of an Offer or an Ack.
#[tactic(auto, unfolding(dhcp4_msg::specs::Value::fits, dhcp4_msg::specs::Value::written_value))]
fn add_granting(
    options: &mut DhcpV4Options,
    config: &ServerConfig,
    kind: DhcpV4MessageType,
) -> Result<(), DhcpError>
    ensures { Adds result options.old options.new (replies.granting_options config.now kind) }
{
    let lease = config.lease_sec;
    let mask = config.mask;
    let ip = config.ip;
    // Read so that the proof knows that each has four octets.
    let _mask = mask.octets();
    let _ip = ip.octets();
    options.insert(DhcpV4Option::SubnetMask(mask))?;
    options.insert(DhcpV4Option::IpAddressLeaseTime(lease))?;
    options.insert(DhcpV4Option::MessageType(kind))?;
    options.insert(DhcpV4Option::ServerIdentifier(ip))?;
    options.insert(DhcpV4Option::RenewalTime(default_renewal_time(lease)))?;
    options.insert(DhcpV4Option::RebindingTime(default_rebinding_time(lease)))
}

// Adds the options of a Nack.
#[tactic(auto, unfolding(dhcp4_msg::specs::Value::fits, dhcp4_msg::specs::Value::written_value))]
fn add_refusing(options: &mut DhcpV4Options, config: &ServerConfig) -> Result<(), DhcpError>
    ensures { Adds result options.old options.new (replies.refusing_options config.now) }
{
    let ip = config.ip;
    // Read so that the proof knows that it has four octets.
    let _ip = ip.octets();
    options.insert(DhcpV4Option::MessageType(DhcpV4MessageType::Nack))?;
    options.insert(DhcpV4Option::ServerIdentifier(ip))
}

/// A reply as a packet that is carried so: a payload as it is, or a frame to everyone. Out of
/// memory is the only error.
pub(crate) fn packet_of(
    alloc: Global,
    config: &ServerConfig,
    kind: PacketKind,
    message: &DhcpV4Message,
) -> Result<Packet, DhcpError>
    requires { length (written_message message.now) ≤ 300 }
    ensures { Makes (λ packet. packet) result
        (replies.packet_of config.now kind message.now) }
{
    let payload = message.to_bytes(alloc)?;
    match kind {
        PacketKind::Payload => Ok(Packet {
            kind,
            bytes: payload,
        }),
        PacketKind::Frame => Ok(Packet {
            kind,
            bytes: framed(alloc, config, payload)?,
        }),
    }
}

// A payload in a frame to everyone, from port 67 to port 68.
fn framed(alloc: Global, config: &ServerConfig, payload: Bytes) -> Result<Bytes, DhcpError>
    requires { length payload ≤ 300 }
    ensures { Makes (λ bytes. bytes) result
        (frame_bytes (replies.reply_frame config.now payload)) }
{
    let frame = Frame {
        src_mac: config.mac,
        dst_mac: BROADCAST_MAC_ADDRESS,
        src_ip: config.ip,
        dst_ip: Ipv4Addr::BROADCAST,
        src_port: SERVER_PORT,
        dst_port: CLIENT_PORT,
        payload,
    };
    write_frame(alloc, &frame)
}
