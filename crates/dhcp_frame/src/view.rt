//! A frame that is read in place (RFC 791, section 3.1; RFC 768).

ghost use Rattle.std.specs.Prelude.{◌≡◌, ◌≤◌, ◌+◌, length, slice_range};
ghost use Rattle.dhcp_wire.specs.Outcome.{Makes};
ghost use Rattle.dhcp_frame.specs.View as View;

use crate::Frame;
use dhcp_wire::{Bytes, DhcpError};
use std::alloc::Global;
use std::marker::Model;
use std::net::Ipv4Addr;

// The type of IPv4 in an Ethernet header.
pub(crate) const IPV4: u16 = 0x0800;

// The protocol number of UDP in an IPv4 header.
pub(crate) const UDP: u8 = 17;

// How many bytes an Ethernet header has.
pub(crate) const ETHERNET_HEADER: usize = 14;

// How many bytes an IPv4 header has that has no options.
pub(crate) const IP_HEADER: usize = 20;

// How many bytes a UDP header has.
pub(crate) const UDP_HEADER: usize = 8;

/// A frame over the bytes that it was read from: nothing is copied but its addresses and ports.
/// Contracts see it as the frame that those bytes are.
#[derive(Debug, Drop)]
pub struct FrameView<'a> {
    src_mac: [u8; 6],
    dst_mac: [u8; 6],
    src_ip: Ipv4Addr,
    dst_ip: Ipv4Addr,
    src_port: u16,
    dst_port: u16,
    payload: &'a [u8],
}

impl<'a> Model for FrameView<'a> {
    ghost use Rattle.dhcp_frame.specs.declared.frame.Frame.{Frame};

    ghost Value = { Frame };

    ghost view = { λ view. record {
      src_mac = view.src_mac;
      dst_mac = view.dst_mac;
      src_ip = view.src_ip;
      dst_ip = view.dst_ip;
      src_port = view.src_port;
      dst_port = view.dst_port;
      payload = view.payload.now;
    } };
}

impl<'a> FrameView<'a> {
    /// The frame that these bytes are, by the lengths that its headers give. Bytes after the
    /// datagram are ignored, and no checksum is tested. Some if and only if the bytes are a whole,
    /// unfragmented UDP datagram over IPv4 in an Ethernet II frame. Does not allocate.
    #[tactic(auto, unfolding(crate::specs::View::read_frame))]
    pub fn new(bytes: &'a [u8]) -> Option<FrameView<'a>>
        ensures { result ≡ View.read_frame bytes.now }
    {
        let ethernet = read_ethernet(bytes)?;
        let packet = read_packet(ethernet.content)?;
        let datagram = read_datagram(packet.content)?;
        Some(FrameView {
            src_mac: ethernet.source,
            dst_mac: ethernet.destination,
            src_ip: packet.source,
            dst_ip: packet.destination,
            src_port: datagram.source,
            dst_port: datagram.destination,
            payload: datagram.payload,
        })
    }

    /// The source address of the IPv4 header.
    pub fn src_ip(&self) -> Ipv4Addr
        ensures { result ≡ self.now.src_ip }
    {
        self.src_ip
    }

    /// The destination address of the IPv4 header.
    pub fn dst_ip(&self) -> Ipv4Addr
        ensures { result ≡ self.now.dst_ip }
    {
        self.dst_ip
    }

    /// The source port of the UDP header.
    pub fn src_port(&self) -> u16
        ensures { result ≡ self.now.src_port }
    {
        self.src_port
    }

    /// The destination port of the UDP header.
    pub fn dst_port(&self) -> u16
        ensures { result ≡ self.now.dst_port }
    {
        self.dst_port
    }

    /// The bytes after the UDP header, in place.
    pub fn payload(&self) -> &'a [u8]
        ensures { result.now ≡ self.now.payload }
    {
        self.payload
    }

    // The same frame, with a copy of the payload.
    pub(crate) fn to_frame(&self, alloc: Global) -> Result<Frame, DhcpError>
        ensures { Makes (λ frame. frame) result self.now }
    {
        Ok(Frame {
            src_mac: self.src_mac,
            dst_mac: self.dst_mac,
            src_ip: self.src_ip,
            dst_ip: self.dst_ip,
            src_port: self.src_port,
            dst_port: self.dst_port,
            payload: Bytes::from_slice(alloc, self.payload)?,
        })
    }
}

// What an Ethernet frame has.
#[derive(Drop)]
struct Ethernet<'a> {
    destination: [u8; 6],
    source: [u8; 6],
    content: &'a [u8],
}

impl<'a> Model for Ethernet<'a> {
    ghost use Rattle.dhcp_frame.specs.View.{Ethernet};

    ghost Value = { Ethernet };

    ghost view = { λ layer. record {
      destination = layer.destination;
      source = layer.source;
      content = layer.content.now;
    } };
}

// What an IPv4 packet has.
#[derive(Drop)]
struct Packet<'a> {
    source: Ipv4Addr,
    destination: Ipv4Addr,
    content: &'a [u8],
}

impl<'a> Model for Packet<'a> {
    ghost use Rattle.dhcp_frame.specs.View.{Packet};

    ghost Value = { Packet };

    ghost view = { λ layer. record {
      source = layer.source;
      destination = layer.destination;
      content = layer.content.now;
    } };
}

// What a UDP datagram has.
#[derive(Drop)]
pub(crate) struct Datagram<'a> {
    pub(crate) source: u16,
    pub(crate) destination: u16,
    pub(crate) payload: &'a [u8],
}

impl<'a> Model for Datagram<'a> {
    ghost use Rattle.dhcp_frame.specs.View.{Datagram};

    ghost Value = { Datagram };

    ghost view = { λ layer. record {
      source = layer.source;
      destination = layer.destination;
      payload = layer.payload.now;
    } };
}

// The Ethernet frame, if it carries IPv4.
#[tactic(auto, unfolding(crate::specs::View::read_ethernet))]
fn read_ethernet(frame: &[u8]) -> Option<Ethernet<'_>>
    ensures { result ≡ View.read_ethernet frame.now }
{
    if frame.len() < ETHERNET_HEADER || field_at(frame, 12) != IPV4 {
        return None;
    }
    Some(Ethernet {
        destination: array_at(frame, 0),
        source: array_at(frame, 6),
        content: &frame[ETHERNET_HEADER..],
    })
}

// The IPv4 packet, if it is whole, no fragment, and carries UDP.
#[tactic(auto, unfolding(crate::specs::View::read_packet))]
fn read_packet(packet: &[u8]) -> Option<Packet<'_>>
    ensures { result ≡ View.read_packet packet.now }
{
    if packet.len() < IP_HEADER || packet[0] / 16 != 4 {
        return None;
    }
    let header_length = usize::from(packet[0] % 16) * 4;
    let total_length = usize::from(field_at(packet, 2));
    if header_length < IP_HEADER || total_length < header_length || packet.len() < total_length {
        return None;
    }
    if field_at(packet, 6) % 0x4000 != 0 || packet[9] != UDP {
        return None;
    }
    Some(Packet {
        source: address_at(packet, 12),
        destination: address_at(packet, 16),
        content: &packet[header_length..total_length],
    })
}

// The UDP datagram, if it is whole.
#[tactic(auto, unfolding(crate::specs::View::read_datagram))]
pub(crate) fn read_datagram(datagram: &[u8]) -> Option<Datagram<'_>>
    ensures { result ≡ View.read_datagram datagram.now }
{
    if datagram.len() < UDP_HEADER {
        return None;
    }
    let length = usize::from(field_at(datagram, 4));
    if length < UDP_HEADER || datagram.len() < length {
        return None;
    }
    Some(Datagram {
        source: field_at(datagram, 0),
        destination: field_at(datagram, 2),
        payload: &datagram[UDP_HEADER..length],
    })
}

// The 16-bit field at this position.
pub(crate) fn field_at(bytes: &[u8], position: usize) -> u16
    requires { position + 2 ≤ length bytes.now }
    ensures { result ≡ View.field_at position bytes.now }
{
    u16::from_be_bytes([bytes[position], bytes[position + 1]])
}

// The address at this position.
fn address_at(bytes: &[u8], position: usize) -> Ipv4Addr
    requires { position + 4 ≤ length bytes.now }
    ensures { result ≡ View.address_at position bytes.now }
{
    Ipv4Addr::from_octets(array_at(bytes, position))
}

// The bytes from this position on, in an array.
pub(crate) fn array_at<const N: usize>(bytes: &[u8], position: usize) -> [u8; N]
    requires { position + N ≤ length bytes.now }
    ensures { result ≡ slice_range bytes.now position (position + N) }
{
    let mut array = [0; N];
    array.copy_from_slice(&bytes[position..position + N]);
    array
}
