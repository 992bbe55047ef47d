//! Writing a frame (RFC 791, section 3.1; RFC 768).

ghost use Rattle.std.specs.Prelude.{◌≡◌, ◌≤◌, length, IfOk, Some};
ghost use Rattle.dhcp_wire.specs.Outcome.{Makes};
ghost use Rattle.dhcp_frame.specs.Write as Write;
ghost use Rattle.dhcp_frame.specs.Write.{HasMacs, HasAddresses, HasPorts, most_payload};
ghost use Rattle.dhcp_frame.specs.View.{read_frame};

use crate::Frame;
use crate::checksum::{carried, checksum, word_sum};
use crate::view::{ETHERNET_HEADER, IP_HEADER, IPV4, UDP, UDP_HEADER};
use dhcp_wire::{Bytes, DhcpError};
use std::alloc::Global;

/// The most bytes of payload of a frame that is written, 65,507: the most that a total length can
/// say (RFC 791, section 3.1), less the headers of IPv4 and UDP.
pub const MOST_PAYLOAD: usize = 65535 - IP_HEADER - UDP_HEADER;

const _: () = prove!(MOST_PAYLOAD == 65507);

/// The bytes of a frame, with both checksums (RFC 1071). They read back as the frame. The payload
/// has at most `MOST_PAYLOAD` bytes. Out of memory is the only error.
#[tactic(auto, using(crate::proofs::Back::back), unfolding(crate::specs::Write::frame_bytes))]
pub fn write_frame(alloc: Global, frame: &Frame) -> Result<Bytes, DhcpError>
    requires { length frame.now.payload ≤ most_payload }
    ensures bytes { Makes (λ bytes. bytes) result (Write.frame_bytes frame.now) }
    ensures reads_back { IfOk result (λ bytes. read_frame bytes ≡ Some frame.now) }
{
    let headers = ETHERNET_HEADER + IP_HEADER + UDP_HEADER;
    let mut bytes = Vec::with_capacity(alloc, headers + frame.payload.len())?;
    bytes.extend_from_slice(&ethernet_header(frame))?;
    bytes.extend_from_slice(&ip_header(frame, checksum(&ip_header(frame, 0))))?;
    bytes.extend_from_slice(&udp_header(frame, udp_checksum(frame)))?;
    bytes.extend_from_slice(frame.payload.as_slice())?;
    Ok(Bytes::from(bytes))
}

// The Ethernet header.
#[tactic(auto, using(crate::proofs::Spelled::spelled))]
fn ethernet_header(frame: &Frame) -> [u8; 14]
    ensures value { result ≡ Write.ethernet_header frame.now }
    ensures macs { HasMacs frame.now }
{
    let [d0, d1, d2, d3, d4, d5] = frame.dst_mac;
    let [s0, s1, s2, s3, s4, s5] = frame.src_mac;
    let [t0, t1] = IPV4.to_be_bytes();
    [d0, d1, d2, d3, d4, d5, s0, s1, s2, s3, s4, s5, t0, t1]
}

// The length of the UDP header and the payload.
fn udp_length(frame: &Frame) -> u16
    requires { length frame.now.payload ≤ most_payload }
    ensures { result ≡ Write.udp_length frame.now }
{
    (UDP_HEADER + frame.payload.len()) as u16
}

// The IPv4 header with this checksum.
#[tactic(auto, using(crate::proofs::Spelled::spelled))]
fn ip_header(frame: &Frame, sum: u16) -> [u8; 20]
    requires { length frame.now.payload ≤ most_payload }
    ensures value { result ≡ Write.ip_header frame.now sum }
    ensures addresses { HasAddresses frame.now }
{
    let [l0, l1] = (IP_HEADER as u16 + udp_length(frame)).to_be_bytes();
    let [c0, c1] = sum.to_be_bytes();
    let [s0, s1, s2, s3] = frame.src_ip.octets();
    let [d0, d1, d2, d3] = frame.dst_ip.octets();
    [
        0x45, 0x00, l0, l1, 0x00, 0x00, 0x40, 0x00, 0x80, UDP, c0, c1, s0, s1, s2, s3, d0, d1, d2,
        d3,
    ]
}

// The UDP header with this checksum.
#[tactic(auto, using(crate::proofs::Spelled::spelled))]
fn udp_header(frame: &Frame, sum: u16) -> [u8; 8]
    requires { length frame.now.payload ≤ most_payload }
    ensures value { result ≡ Write.udp_header frame.now sum }
    ensures ports { HasPorts frame.now }
{
    let source = frame.src_port;
    let destination = frame.dst_port;
    let [s0, s1] = source.to_be_bytes();
    let [d0, d1] = destination.to_be_bytes();
    let [l0, l1] = udp_length(frame).to_be_bytes();
    let [c0, c1] = sum.to_be_bytes();
    [s0, s1, d0, d1, l0, l1, c0, c1]
}

// The pseudo-header of RFC 768, which the UDP checksum covers before the header.
#[tactic(auto, using(crate::proofs::Spelled::spelled))]
fn pseudo_header(frame: &Frame) -> [u8; 12]
    requires { length frame.now.payload ≤ most_payload }
    ensures { result ≡ Write.pseudo_header frame.now }
{
    let [s0, s1, s2, s3] = frame.src_ip.octets();
    let [d0, d1, d2, d3] = frame.dst_ip.octets();
    let [l0, l1] = udp_length(frame).to_be_bytes();
    [s0, s1, s2, s3, d0, d1, d2, d3, 0x00, UDP, l0, l1]
}

// The UDP checksum; 0 is written as ffff.
fn udp_checksum(frame: &Frame) -> u16
    requires { length frame.now.payload ≤ most_payload }
    ensures { result ≡ Write.udp_checksum frame.now }
{
    match covered_checksum(frame) {
        0 => 0xffff,
        sum => sum,
    }
}

// The checksum of all that the UDP checksum covers, which may be 0.
fn covered_checksum(frame: &Frame) -> u16
    requires { length frame.now.payload ≤ most_payload }
    ensures { result ≡ Write.covered_checksum frame.now }
{
    let pseudo_header = pseudo_header(frame);
    let header = udp_header(frame, 0);
    let payload = frame.payload.as_slice();
    !carried(word_sum(&pseudo_header) + word_sum(&header) + word_sum(payload))
}
