//! A frame over IPv6 that is read in place (RFC 8200, section 3; RFC 768).

ghost use Rattle.std.specs.Prelude.{◌≡◌, ◌≤◌, ◌+◌, length, option_map};
ghost use Rattle.dhcp_frame.specs.View6 as View6;

use crate::view::{ETHERNET_HEADER, UDP, array_at, field_at, read_datagram};
use std::marker::Model;
use std::net::Ipv6Addr;

// The type of IPv6 in an Ethernet header.
const IPV6: u16 = 0x86dd;

// How many bytes an IPv6 header has.
const IPV6_HEADER: usize = 40;

/// A UDP datagram over IPv6 in an Ethernet frame, over the bytes that it was read from: nothing is
/// copied but its addresses and ports. Contracts see it as the frame that those bytes are, without
/// its MAC addresses.
#[derive(Debug, Drop)]
pub struct FrameView6<'a> {
    src_ip: Ipv6Addr,
    dst_ip: Ipv6Addr,
    src_port: u16,
    dst_port: u16,
    payload: &'a [u8],
}

impl<'a> Model for FrameView6<'a> {
    ghost use Rattle.dhcp_frame.specs.View6.{Frame6};

    ghost Value = { Frame6 };

    ghost view = { λ view. record {
      src_ip = view.src_ip;
      dst_ip = view.dst_ip;
      src_port = view.src_port;
      dst_port = view.dst_port;
      payload = view.payload.now;
    } };
}

impl<'a> FrameView6<'a> {
    /// The frame that these bytes are, by the lengths that its headers give. Bytes after the
    /// datagram are ignored, and no checksum is tested. Some if and only if the bytes are a whole
    /// UDP datagram over IPv6, without an extension header, in an Ethernet II frame. Does not
    /// allocate.
    #[tactic(auto, unfolding(crate::specs::View6::read_frame6))]
    pub fn new(bytes: &'a [u8]) -> Option<FrameView6<'a>>
        ensures { result ≡ View6.read_frame6 bytes.now }
    {
        let content = read_ethernet6(bytes)?;
        let packet = read_packet6(content)?;
        let datagram = read_datagram(packet.content)?;
        Some(FrameView6 {
            src_ip: packet.source,
            dst_ip: packet.destination,
            src_port: datagram.source,
            dst_port: datagram.destination,
            payload: datagram.payload,
        })
    }

    /// The source address of the IPv6 header.
    pub fn src_ip(&self) -> Ipv6Addr
        ensures { result ≡ self.now.src_ip }
    {
        self.src_ip
    }

    /// The destination address of the IPv6 header.
    pub fn dst_ip(&self) -> Ipv6Addr
        ensures { result ≡ self.now.dst_ip }
    {
        self.dst_ip
    }

    /// The source port of the UDP header.
    pub fn src_port(&self) -> u16
        ensures { result ≡ self.now.src_port }
    {
        self.src_port
    }

    /// The destination port of the UDP header.
    pub fn dst_port(&self) -> u16
        ensures { result ≡ self.now.dst_port }
    {
        self.dst_port
    }

    /// The bytes after the UDP header, in place.
    pub fn payload(&self) -> &'a [u8]
        ensures { result.now ≡ self.now.payload }
    {
        self.payload
    }
}

// What an IPv6 packet has.
#[derive(Drop)]
struct Packet6<'a> {
    source: Ipv6Addr,
    destination: Ipv6Addr,
    content: &'a [u8],
}

impl<'a> Model for Packet6<'a> {
    ghost use Rattle.dhcp_frame.specs.View6.{Packet6};

    ghost Value = { Packet6 };

    ghost view = { λ layer. record {
      source = layer.source;
      destination = layer.destination;
      content = layer.content.now;
    } };
}

// The content of the Ethernet frame, if it carries IPv6.
#[tactic(auto, unfolding(crate::specs::View6::read_ethernet6))]
fn read_ethernet6(frame: &[u8]) -> Option<&[u8]>
    ensures { option_map (λ content. content.now) result ≡ View6.read_ethernet6 frame.now }
{
    if frame.len() < ETHERNET_HEADER || field_at(frame, 12) != IPV6 {
        return None;
    }
    Some(&frame[ETHERNET_HEADER..])
}

// The IPv6 packet, if it is whole and carries UDP.
#[tactic(auto, unfolding(crate::specs::View6::read_packet6))]
fn read_packet6(packet: &[u8]) -> Option<Packet6<'_>>
    ensures { result ≡ View6.read_packet6 packet.now }
{
    if packet.len() < IPV6_HEADER || packet[0] / 16 != 6 {
        return None;
    }
    let end = IPV6_HEADER + usize::from(field_at(packet, 4));
    if packet.len() < end || packet[6] != UDP {
        return None;
    }
    Some(Packet6 {
        source: ipv6_address_at(packet, 8),
        destination: ipv6_address_at(packet, 24),
        content: &packet[IPV6_HEADER..end],
    })
}

// The IPv6 address at this position.
fn ipv6_address_at(bytes: &[u8], position: usize) -> Ipv6Addr
    requires { position + 16 ≤ length bytes.now }
    ensures { result ≡ View6.ipv6_address_at position bytes.now }
{
    Ipv6Addr::from(array_at::<16>(bytes, position))
}
