//! What a packet queries a server for, RFC 2131 section 4.3.

ghost use Rattle.std.specs.Prelude.{◌≡◌};
ghost use Rattle.dhcp_wire.specs.Outcome.{Finds, Makes};
ghost use Rattle.dhcp4_msg.specs.Options.{said_by};
ghost use Rattle.dhcp4_msg.specs.Value.{address_said};
ghost use Rattle.dhcp4_server.specs.Request as requests;

use crate::ServerConfig;
use crate::decision::Query;
use dhcp_clock::{Packet, PacketKind};
use dhcp_frame::FrameView;
use dhcp_wire::DhcpError;
use dhcp4_msg::{DhcpV4Message, DhcpV4MessageType, DhcpV4OptionCode, DhcpV4View};
use std::alloc::Global;

/// The UDP port of a server, RFC 2131 section 4.1.
pub(crate) const SERVER_PORT: u16 = 67;

/// The message that a packet brings to a server, if it brings one. Out of memory is the only error.
pub(crate) fn message_of(alloc: Global, packet: &Packet) -> Result<Option<DhcpV4Message>, DhcpError>
    ensures { Makes (λ found. found) result (requests.message_to_server packet.now) }
{
    let Some(payload) = payload_of(packet) else {
        return Ok(None);
    };
    let Some(view) = DhcpV4View::new(payload) else {
        return Ok(None);
    };
    Ok(Some(view.to_message(alloc)?))
}

// The payload of a packet to a server.
fn payload_of(packet: &Packet) -> Option<&[u8]>
    ensures { Finds (λ bytes. bytes.now) result
        (requests.payload_in packet.now.kind packet.now.bytes) }
{
    let bytes = packet.bytes.as_slice();
    match packet.kind {
        PacketKind::Frame => payload_of_frame(bytes),
        PacketKind::Payload => Some(bytes),
    }
}

// The payload of a frame to the port of a server.
fn payload_of_frame(bytes: &[u8]) -> Option<&[u8]>
    ensures { Finds (λ bytes. bytes.now) result
        (requests.framed_payload bytes.now) }
{
    let frame = FrameView::new(bytes)?;
    if frame.dst_port() == SERVER_PORT {
        Some(frame.payload())
    } else {
        None
    }
}

/// What a message asks the server of this configuration for, if it asks for something.
#[tactic(auto, unfolding(dhcp4_msg::specs::Options::message_type))]
pub(crate) fn query_of(config: &ServerConfig, message: &DhcpV4Message) -> Option<Query>
    ensures { result ≡ requests.query_of config.now message.now }
{
    match message.message_type() {
        Some(DhcpV4MessageType::Discovery) => Some(Query::Discover),
        Some(DhcpV4MessageType::Request) => {
            if is_for(config, message) {
                Some(Query::Request(wanted(message)))
            } else {
                None
            }
        }
        Some(DhcpV4MessageType::Offer) => None,
        Some(DhcpV4MessageType::Decline) => None,
        Some(DhcpV4MessageType::Ack) => None,
        Some(DhcpV4MessageType::Nack) => None,
        Some(DhcpV4MessageType::Release) => None,
        Some(DhcpV4MessageType::Inform) => None,
        None => None,
    }
}

// Whether a Request is for the server of this configuration: it names no other one.
#[tactic(auto, unfolding(dhcp4_msg::specs::OptionCode::number_of))]
fn is_for(config: &ServerConfig, message: &DhcpV4Message) -> bool
    ensures { result ≡ requests.is_for config.now
        (said_by address_said message.now.options 54) }
{
    match message.options.address(DhcpV4OptionCode::ServerIdentifier) {
        None => true,
        Some(server) => server.to_bits() == config.ip.to_bits(),
    }
}

// The address that a Request asks for, as a number: that of option 50, or the client's own.
#[tactic(auto, unfolding(dhcp4_msg::specs::OptionCode::number_of))]
fn wanted(message: &DhcpV4Message) -> u32
    ensures { result ≡ requests.wanted message.now }
{
    match message
        .options
        .address(DhcpV4OptionCode::RequestedIpAddress)
    {
        Some(address) => address.to_bits(),
        None => message.ciaddr.to_bits(),
    }
}
