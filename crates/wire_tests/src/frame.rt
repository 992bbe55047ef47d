//! Frames.

use dhcp_frame::{Frame, FrameView, MOST_PAYLOAD, read_frame, write_frame};
use dhcp_wire::{Bytes, ErrorKind};
use std::alloc::{AllocError, Global};
use std::net::Ipv4Addr;

// The message of a client that looks for a lease, 251 bytes.
fn discover(alloc: Global) -> Result<Vec<u8>, AllocError> {
    let mut message = Vec::new(alloc);
    message.extend_from_slice(b"\x01\x01\x06\x00\x12\x34\x56\x78")?;
    message.resize(28, 0)?;
    message.extend_from_slice(b"\x02\x00\x00\x00\x00\x01")?;
    message.resize(236, 0)?;
    message.extend_from_slice(b"\x63\x82\x53\x63\x35\x01\x01\x37\x03\x01\x03\x06\x3d\x00\xff")?;
    Ok(message)
}

// The headers of that message in a frame, with both checksums.
const DISCOVER_HEADERS: [u8; 42] = [
    0xff, 0xff, 0xff, 0xff, 0xff, 0xff, 0x02, 0x00, 0x00, 0x00, 0x00, 0x01, 0x08, 0x00, 0x45, 0x00,
    0x01, 0x17, 0x00, 0x00, 0x40, 0x00, 0x80, 0x11, 0xf9, 0xd6, 0x00, 0x00, 0x00, 0x00, 0xff, 0xff,
    0xff, 0xff, 0x00, 0x44, 0x00, 0x43, 0x01, 0x03, 0x5c, 0x8d,
];

// The headers of a server's offer, whose payload has 256 bytes. Its checksums are 0.
const OFFER_HEADERS: [u8; 42] = [
    0xff, 0xff, 0xff, 0xff, 0xff, 0xff, 0x02, 0x00, 0x00, 0x00, 0x00, 0x02, 0x08, 0x00, 0x45, 0x00,
    0x01, 0x1c, 0x00, 0x00, 0x00, 0x00, 0x40, 0x11, 0x00, 0x00, 0xc0, 0x00, 0x02, 0x01, 0xff, 0xff,
    0xff, 0xff, 0x00, 0x43, 0x00, 0x44, 0x01, 0x08, 0x00, 0x00,
];

// The frame of that offer, 298 bytes.
fn offer(alloc: Global) -> Result<Vec<u8>, AllocError> {
    let mut frame = OFFER_HEADERS.to_vec(alloc)?;
    frame.extend_from_slice(b"\x02\x01\x06\x00\x12\x34\x56\x78")?;
    frame.resize(58, 0)?;
    frame.extend_from_slice(b"\xc0\x00\x02\x0a\xc0\x00\x02\x01\x00\x00\x00\x00")?;
    frame.extend_from_slice(b"\x02\x00\x00\x00\x00\x01")?;
    frame.resize(278, 0)?;
    frame.extend_from_slice(b"\x63\x82\x53\x63\x35\x01\x02\x36\x04\xc0\x00\x02\x01")?;
    frame.extend_from_slice(b"\x33\x04\x00\x00\x00\x64\xff")?;
    Ok(frame)
}

// A frame of 60 bytes with a payload of two, and padding.
const SHORT: [u8; 60] = [
    0xff, 0xff, 0xff, 0xff, 0xff, 0xff, 0x02, 0x00, 0x00, 0x00, 0x00, 0x02, 0x08, 0x00, 0x45, 0x00,
    0x00, 0x1e, 0x00, 0x00, 0x00, 0x00, 0x40, 0x11, 0x00, 0x00, 0xc0, 0x00, 0x02, 0x01, 0xff, 0xff,
    0xff, 0xff, 0x00, 0x43, 0x00, 0x44, 0x00, 0x0a, 0x00, 0x00, 0xab, 0xcd, 0, 0, 0, 0, 0, 0, 0, 0,
    0, 0, 0, 0, 0, 0, 0, 0,
];

// A frame with this payload, from a client to all.
fn broadcast(payload: Bytes) -> Frame {
    Frame {
        src_mac: [2, 0, 0, 0, 0, 1],
        dst_mac: [255; 6],
        src_ip: Ipv4Addr::UNSPECIFIED,
        dst_ip: Ipv4Addr::BROADCAST,
        src_port: 68,
        dst_port: 67,
        payload,
    }
}

// The payload of these bytes, if they read.
fn payload_of(bytes: &[u8]) -> Option<&[u8]> {
    match FrameView::new(bytes) {
        Some(view) => Some(view.payload()),
        None => None,
    }
}

// Whether these bytes are refused.
fn is_refused(alloc: Global, bytes: &[u8]) -> bool {
    match read_frame(alloc, bytes) {
        Ok(_) => false,
        Err(error) => error.kind() == ErrorKind::InvalidDhcpMessage,
    }
}

#[test]
fn a_discover_is_written_with_both_checksums(rt: HostRuntime) {
    let message = discover(rt.alloc()).expect(&rt, "memory");
    assert!(rt; message.len() == 251);
    let frame = broadcast(Bytes::from(discover(rt.alloc()).expect(&rt, "memory")));
    assert!(rt; frame.payload.len() <= MOST_PAYLOAD);
    let bytes = write_frame(rt.alloc(), &frame).expect(&rt, "memory");
    let mut wanted = DISCOVER_HEADERS.to_vec(rt.alloc()).expect(&rt, "memory");
    wanted
        .extend_from_slice(message.as_slice())
        .expect(&rt, "memory");
    assert!(rt; bytes.as_slice() == wanted.as_slice());
    assert!(rt; read_frame(rt.alloc(), bytes.as_slice()).expect(&rt, "reads") == frame);
}

#[test]
fn a_checksum_of_0_is_written_as_ffff(rt: HostRuntime) {
    // All other words that the checksum covers make 00b0 together, so these make ffff, whose
    // complement is 0.
    let frame = broadcast(Bytes::from_slice(rt.alloc(), b"\xff\x4f\x00\x00").expect(&rt, "memory"));
    assert!(rt; frame.payload.len() <= MOST_PAYLOAD);
    let bytes = write_frame(rt.alloc(), &frame).expect(&rt, "memory");
    let bytes = bytes.as_slice();
    assert!(rt; bytes.len() == 46);
    assert!(rt; &bytes[40..42] == [0xff, 0xff].as_slice());
}

// What that frame reads as.
fn short_frame(alloc: Global) -> Result<Frame, AllocError> {
    Ok(Frame {
        src_mac: [2, 0, 0, 0, 0, 2],
        dst_mac: [255; 6],
        src_ip: Ipv4Addr::new(192, 0, 2, 1),
        dst_ip: Ipv4Addr::BROADCAST,
        src_port: 67,
        dst_port: 68,
        payload: Bytes::from([0xab, 0xcd].to_vec(alloc)?),
    })
}

#[test]
fn a_frame_is_read_without_its_padding(rt: HostRuntime) {
    let frame = read_frame(rt.alloc(), &SHORT).expect(&rt, "reads");
    assert!(rt; frame == short_frame(rt.alloc()).expect(&rt, "memory"));
}

#[test]
fn options_of_the_header_are_no_payload(rt: HostRuntime) {
    let mut bytes = SHORT[..34].to_vec(rt.alloc()).expect(&rt, "memory");
    bytes.extend_from_slice(&[1, 1, 1, 0]).expect(&rt, "memory");
    bytes
        .extend_from_slice(&SHORT[34..44])
        .expect(&rt, "memory");
    assert!(rt; bytes.len() == 48);
    bytes[14] = 0x46;
    bytes[17] = 34;
    let frame = read_frame(rt.alloc(), bytes.as_slice()).expect(&rt, "reads");
    assert!(rt; frame.payload.as_slice() == [0xab, 0xcd].as_slice());
}

#[test]
fn one_wrong_field_refuses_a_frame(rt: HostRuntime) {
    const EDITS: [(usize, u8, &str); 14] = [
        (12, 0x81, "another type"),
        (13, 0x06, "a type of ARP"),
        (14, 0x65, "version 6"),
        (14, 0x44, "a header of 16 bytes"),
        (14, 0x47, "a header with two bytes behind it"),
        (14, 0x48, "a header past the packet"),
        (17, 0x1b, "no room for a UDP header"),
        (17, 0x2f, "a total length past the bytes"),
        (20, 0x20, "more fragments"),
        (21, 0x01, "a later fragment"),
        (20, 0x1f, "a far fragment"),
        (23, 0x06, "TCP"),
        (39, 0x07, "a UDP length below 8"),
        (39, 0x0b, "a UDP length past the packet"),
    ];
    for &(place, byte, what) in &EDITS {
        let mut bytes = SHORT;
        if place < 60 {
            bytes[place] = byte;
        }
        assert!(rt; is_refused(rt.alloc(), &bytes), "{what}");
    }
}

#[test]
fn frames_with_a_tag_or_of_ipv6_are_refused(rt: HostRuntime) {
    let mut tagged = SHORT[..12].to_vec(rt.alloc()).expect(&rt, "memory");
    tagged
        .extend_from_slice(&[0x81, 0x00, 0x00, 0x05])
        .expect(&rt, "memory");
    tagged.extend_from_slice(&SHORT[12..]).expect(&rt, "memory");
    assert!(rt; is_refused(rt.alloc(), tagged.as_slice()));
    let mut ipv6 = SHORT[..12].to_vec(rt.alloc()).expect(&rt, "memory");
    ipv6.extend_from_slice(&[0x86, 0xdd, 0x60])
        .expect(&rt, "memory");
    ipv6.resize(100, 0).expect(&rt, "memory");
    assert!(rt; is_refused(rt.alloc(), ipv6.as_slice()));
}

#[test]
fn each_proper_prefix_of_an_offer_is_refused(rt: HostRuntime) {
    let frame = offer(rt.alloc()).expect(&rt, "memory");
    let bytes = frame.as_slice();
    assert!(rt; bytes.len() == 298);
    for len in 0..298usize {
        assert!(rt; is_refused(rt.alloc(), &bytes[..len]), "cut to {len} bytes");
    }
    assert!(rt;
        read_frame(rt.alloc(), bytes)
            .expect(&rt, "reads")
            .payload
            .len()
            == 256
    );
}

#[test]
fn a_frame_reads_without_its_padding_and_no_shorter(rt: HostRuntime) {
    for len in 0..44usize {
        assert!(rt; is_refused(rt.alloc(), &SHORT[..len]), "cut to {len} bytes");
    }
    for len in 44..61usize {
        let payload = payload_of(&SHORT[..len]);
        assert!(rt;
            payload == Some([0xab, 0xcd].as_slice()),
            "cut to {len} bytes"
        );
    }
}

#[test]
fn the_longest_payload_is_written_and_read(rt: HostRuntime) {
    let frame = broadcast(Bytes::from(vec![in rt.alloc(); 0xff; MOST_PAYLOAD].expect(
        &rt, "memory",
    )));
    assert!(rt; frame.payload.len() <= MOST_PAYLOAD);
    let bytes = write_frame(rt.alloc(), &frame).expect(&rt, "memory");
    assert!(rt; bytes.len() == 65549);
    assert!(rt; payload_of(bytes.as_slice()) == Some(frame.payload.as_slice()));
}

#[test]
fn a_view_has_the_port_and_the_payload_of_its_frame(rt: HostRuntime) {
    let view = FrameView::new(&SHORT).expect(&rt, "no frame");
    assert!(rt; view.dst_port() == 68);
    assert!(rt; view.payload() == [0xab, 0xcd].as_slice());
}
