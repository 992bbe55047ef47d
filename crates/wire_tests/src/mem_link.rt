//! A link in memory.

use dhcp_clock::{DhcpLink, Handed, MemLink, Packet, PacketKind, Sent};
use dhcp_wire::{Bytes, DhcpError};
use std::alloc::Global;
use std::net::{Ipv4Addr, Ipv6Addr};

const SERVER: Ipv6Addr = Ipv6Addr::LOCALHOST;

// What became of a message of each kind. Out of memory is an error.
fn send_each<L: DhcpLink>(alloc: Global, link: &mut L) -> Result<[Sent; 3], DhcpError> {
    let first = link.send_frame(Bytes::from_slice(alloc, b"frame")?);
    let old = Bytes::from_slice(alloc, b"old")?;
    let second = link.send_udp4(Ipv4Addr::UNSPECIFIED, Ipv4Addr::BROADCAST, old);
    let third = link.send_udp6(SERVER, 3, Bytes::from_slice(alloc, b"new")?);
    let sent = [first, second, third];
    if sent.contains(&Sent::NoMemory) {
        return Err(DhcpError::out_of_memory());
    }
    Ok(sent)
}

// The packet that waits.
fn take_packet<L: DhcpLink>(link: &mut L) -> Option<Packet> {
    link.receive()
}

// The frame that is sent.
fn frame(alloc: Global) -> Result<Handed, DhcpError> {
    Ok(Handed::Frame(Bytes::from_slice(alloc, b"frame")?))
}

// The payload that is sent over IPv4.
fn old(alloc: Global) -> Result<Handed, DhcpError> {
    let bytes = Bytes::from_slice(alloc, b"old")?;
    Ok(Handed::Udp4(Ipv4Addr::UNSPECIFIED, Ipv4Addr::BROADCAST, bytes))
}

// The payload that is sent over IPv6.
fn new(alloc: Global) -> Result<Handed, DhcpError> {
    Ok(Handed::Udp6(SERVER, 3, Bytes::from_slice(alloc, b"new")?))
}

// Whether the oldest message that the link lists is this one, with what became of it.
fn next_is(
    link: &mut MemLink,
    message: Result<Handed, DhcpError>,
    sent: Sent,
) -> Result<bool, DhcpError> {
    let wanted = Some((message?, sent));
    Ok(link.take_handed() == wanted)
}

// Whether the link lists exactly the three messages, and that this became of each.
fn lists_each(alloc: Global, link: &mut MemLink, sent: Sent) -> Result<bool, DhcpError> {
    Ok(
        next_is(link, frame(alloc), sent)?
            && next_is(link, old(alloc), sent)?
            && next_is(link, new(alloc), sent)?
            && link.take_handed().is_none(),
    )
}

#[test]
fn what_is_handed_is_taken_and_listed_in_order(rt: HostRuntime) {
    let mut link = MemLink::new(rt.alloc());
    assert!(rt; send_each(rt.alloc(), &mut link).expect(&rt, "memory") == [Sent::Taken; 3]);
    assert!(rt; lists_each(rt.alloc(), &mut link, Sent::Taken).expect(&rt, "memory"));
}

#[test]
fn what_is_refused_is_listed_so(rt: HostRuntime) {
    let mut link = MemLink::new(rt.alloc());
    link.set_refuse(true);
    assert!(rt; send_each(rt.alloc(), &mut link).expect(&rt, "memory") == [Sent::Refused; 3]);
    assert!(rt; lists_each(rt.alloc(), &mut link, Sent::Refused).expect(&rt, "memory"));
}

#[test]
fn a_packet_is_received_once(rt: HostRuntime) {
    let mut link = MemLink::new(rt.alloc());
    assert!(rt; take_packet(&mut link) == None);
    let bytes = Bytes::from_slice(rt.alloc(), b"payload").expect(&rt, "memory");
    link.load(Some(Packet {
        kind: PacketKind::Payload,
        bytes,
    }));
    let packet = take_packet(&mut link).expect(&rt, "no packet");
    assert!(rt; packet.kind == PacketKind::Payload);
    assert!(rt; packet.bytes.as_slice() == b"payload".as_slice());
    assert!(rt; take_packet(&mut link) == None);
}
