//! A frame that owns its payload, and how it is read (RFC 791, section 3.1; RFC 768).

ghost use Rattle.std.specs.Prelude.{ok_or};
ghost use Rattle.dhcp_wire.specs.Outcome.{Gives};
ghost use Rattle.dhcp_frame.specs.View as View;

use crate::FrameView;
use dhcp_wire::{Bytes, DhcpError, ErrorKind, FixedText};
use std::alloc::Global;
use std::net::Ipv4Addr;

/// A UDP datagram over IPv4 in an Ethernet frame.
#[derive(Debug, PartialEq, Eq, Drop)]
pub struct Frame {
    /// The source MAC address, 6 bytes.
    pub src_mac: [u8; 6],
    /// The destination MAC address, 6 bytes.
    pub dst_mac: [u8; 6],
    /// The source address of the IPv4 header (RFC 791, section 3.1).
    pub src_ip: Ipv4Addr,
    /// The destination address of the IPv4 header (RFC 791, section 3.1).
    pub dst_ip: Ipv4Addr,
    /// The source port of the UDP header (RFC 768).
    pub src_port: u16,
    /// The destination port of the UDP header (RFC 768).
    pub dst_port: u16,
    /// The bytes after the UDP header, at most 65,507 in a frame that is written.
    pub payload: Bytes,
}

/// The frame that these bytes are, by the lengths that its headers give. Bytes after the datagram
/// are ignored, and no checksum is tested. `InvalidDhcpMessage` if and only if the bytes are no
/// whole, unfragmented UDP datagram over IPv4 in an Ethernet II frame.
pub fn read_frame(alloc: Global, bytes: &[u8]) -> Result<Frame, DhcpError>
    ensures { Gives (λ frame. frame) result
        (ok_or (View.read_frame bytes.now) ErrorKind.InvalidDhcpMessage) }
{
    match FrameView::new(bytes) {
        None => Err(DhcpError::invalid_message(FixedText::Unreadable)),
        Some(view) => view.to_frame(alloc),
    }
}
