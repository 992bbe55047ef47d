//! Two clients and a pool of one address; clients and a larger pool.

use crate::messages::{
    Answered, answer, config, discover, framed, pool_ip, release, request, server_ip,
};
use dhcp_clock::{Packet, PacketKind};
use dhcp_wire::{Bytes, DhcpError};
use dhcp4_server::{DhcpV4Server, ServerAnswer, ServerConfig};
use std::alloc::Global;
use std::net::Ipv4Addr;

// Two clients, by their transaction ids.
const ONE: u32 = 0x12345678;

const OTHER: u32 = 0x12345679;

// What a client sends.
#[derive(Clone, Copy)]
enum Sends {
    Discover,
    Request(Ipv4Addr),
    RequestToAnother(Ipv4Addr),
    Release,
}

fn payload_of(alloc: Global, xid: u32, sends: Sends) -> Result<Bytes, DhcpError> {
    match sends {
        Sends::Discover => discover(alloc, xid),
        Sends::Request(address) => request(alloc, xid, server_ip(), address),
        Sends::RequestToAnother(address) => request(alloc, xid, Ipv4Addr::LOCALHOST, address),
        Sends::Release => release(alloc, xid),
    }
}

// A step: the moment, the client, what it sends and what the server answers.
type Step = (u64, u32, Sends, Answered);

// The first of these steps at which a server with a pool of so many addresses answers otherwise.
fn differs_at(alloc: Global, count: u32, steps: &[Step]) -> Result<Option<usize>, DhcpError> {
    let mut server = Box::new(alloc, DhcpV4Server::new(alloc, config(count))?)?;
    for (place, step) in steps.iter().enumerate() {
        let (moment, xid, sends, answered) = *step;
        if !is_answered(alloc, &mut server, moment, xid, sends, answered)? {
            return Ok(Some(place));
        }
    }
    Ok(None)
}

// Whether a server answers this.
fn is_answered(
    alloc: Global,
    server: &mut DhcpV4Server,
    moment: u64,
    xid: u32,
    sends: Sends,
    answered: Answered,
) -> Result<bool, DhcpError> {
    let payload = payload_of(alloc, xid, sends)?;
    // This changes no moment of these tests. By it the proof knows that the moment is below 2^60,
    // as `answer` requires.
    let now = moment % 1_000_000;
    Ok(answer(alloc, server, now, xid, payload)? == answered)
}

#[test]
fn an_address_goes_to_another_client_after_lease_and_bound(rt: HostRuntime) {
    let first = pool_ip(0);
    let steps = [
        (10, ONE, Sends::Discover, Answered::Offer(first)),
        (10, OTHER, Sends::Discover, Answered::Offer(first)),
        (30, ONE, Sends::Request(first), Answered::Ack(first)),
        (30, OTHER, Sends::Request(first), Answered::Nack),
        (40, OTHER, Sends::Discover, Answered::Silent),
        (50, ONE, Sends::Release, Answered::Silent),
        (50, OTHER, Sends::Request(first), Answered::Nack),
        (101_029, OTHER, Sends::Discover, Answered::Silent),
        (101_029, ONE, Sends::Discover, Answered::Offer(first)),
        (101_030, OTHER, Sends::Discover, Answered::Offer(first)),
        (101_030, OTHER, Sends::Request(first), Answered::Ack(first)),
        (101_030, ONE, Sends::Request(first), Answered::Nack),
    ];
    let differs = differs_at(rt.alloc(), 1, steps.as_slice()).expect(&rt, "memory");
    assert!(rt; differs.is_none(), "{differs:?}");
}

#[test]
fn each_client_has_an_address_of_its_own(rt: HostRuntime) {
    let (first, second, third) = (pool_ip(0), pool_ip(1), pool_ip(2));
    let steps = [
        (0, ONE, Sends::Request(second), Answered::Ack(second)),
        (0, ONE, Sends::Discover, Answered::Offer(second)),
        (0, OTHER, Sends::Discover, Answered::Offer(first)),
        (0, OTHER, Sends::Request(second), Answered::Nack),
        (0, OTHER, Sends::Request(third), Answered::Ack(third)),
        (0, OTHER, Sends::Discover, Answered::Offer(third)),
        (0, OTHER, Sends::Request(first), Answered::Ack(first)),
        (0, OTHER, Sends::Discover, Answered::Offer(first)),
        (0, 7, Sends::Discover, Answered::Silent),
    ];
    let differs = differs_at(rt.alloc(), 3, steps.as_slice()).expect(&rt, "memory");
    assert!(rt; differs.is_none(), "{differs:?}");
}

#[test]
fn a_request_to_another_server_and_a_release_are_not_answered(rt: HostRuntime) {
    let first = pool_ip(0);
    let steps = [
        (0, ONE, Sends::RequestToAnother(first), Answered::Silent),
        (0, ONE, Sends::Release, Answered::Silent),
    ];
    let differs = differs_at(rt.alloc(), 1, steps.as_slice()).expect(&rt, "memory");
    assert!(rt; differs.is_none(), "{differs:?}");
}

#[test]
fn a_request_of_an_address_outside_the_pool_is_refused(rt: HostRuntime) {
    let outside = Ipv4Addr::new(192, 0, 2, 9);
    let steps = [(0, ONE, Sends::Request(outside), Answered::Nack)];
    let differs = differs_at(rt.alloc(), 1, steps.as_slice()).expect(&rt, "memory");
    assert!(rt; differs.is_none(), "{differs:?}");
}

// Whether a new server answers this packet.
fn answers(alloc: Global, kind: PacketKind, bytes: Bytes) -> Result<bool, DhcpError> {
    let mut server = Box::new(alloc, DhcpV4Server::new(alloc, config(1))?)?;
    let answer = server.handle(0, &Packet { kind, bytes })?;
    Ok(matches!(answer, ServerAnswer::Reply(_)))
}

#[test]
fn a_frame_counts_if_it_goes_to_port_67(rt: HostRuntime) {
    for (port, answered) in [(67u16, true), (68u16, false)] {
        let payload = discover(rt.alloc(), ONE).expect(&rt, "memory");
        let frame = framed(rt.alloc(), port, payload).expect(&rt, "memory");
        let is = answers(rt.alloc(), PacketKind::Frame, frame).expect(&rt, "memory");
        assert!(rt; is == answered, "{port}");
    }
}

#[test]
fn bytes_that_are_no_message_are_not_answered(rt: HostRuntime) {
    for length in [0usize, 1, 239, 240, 300] {
        let bytes = Bytes::from(vec![in rt.alloc(); 7u8; length].expect(&rt, "memory"));
        let is = answers(rt.alloc(), PacketKind::Payload, bytes).expect(&rt, "memory");
        assert!(rt; !is, "{length}");
    }
}

// The addresses of a large pool, by their numbers from 0 on.
fn large_ip(number: u16) -> Ipv4Addr {
    let [high, low] = number.to_be_bytes();
    Ipv4Addr::new(10, 0, high, low)
}

// A server with a pool of 600 addresses, the first 512 of which are bound to clients of their own.
fn server_with_512_bindings(alloc: Global) -> Result<Box<DhcpV4Server>, DhcpError> {
    let first = large_ip(0);
    let config = ServerConfig {
        first,
        ..config(600)
    };
    let mut server = Box::new(alloc, DhcpV4Server::new(alloc, config)?)?;
    bind_512_addresses(alloc, &mut server)?;
    Ok(server)
}

fn bind_512_addresses(alloc: Global, server: &mut DhcpV4Server) -> Result<(), DhcpError> {
    for number in 0u16..512 {
        let payload = request(alloc, u32::from(number), server_ip(), large_ip(number))?;
        answer(alloc, server, 0, u32::from(number), payload)?;
    }
    Ok(())
}

#[test]
fn the_lowest_free_address_of_a_large_pool_is_offered(rt: HostRuntime) {
    let mut server = server_with_512_bindings(rt.alloc()).expect(&rt, "memory");
    let steps = [
        (0, 511, Sends::Discover, Answered::Offer(large_ip(511))),
        (
            100_999,
            ONE,
            Sends::Discover,
            Answered::Offer(large_ip(512)),
        ),
        (
            100_999,
            300,
            Sends::Request(large_ip(300)),
            Answered::Ack(large_ip(300)),
        ),
        (101_000, ONE, Sends::Discover, Answered::Offer(large_ip(0))),
        (101_000, ONE, Sends::Request(large_ip(300)), Answered::Nack),
        (
            101_000,
            ONE,
            Sends::Request(large_ip(301)),
            Answered::Ack(large_ip(301)),
        ),
        (
            101_000,
            ONE,
            Sends::Discover,
            Answered::Offer(large_ip(301)),
        ),
    ];
    for (place, step) in steps.iter().enumerate() {
        let (moment, xid, sends, answered) = *step;
        let is = is_answered(rt.alloc(), &mut server, moment, xid, sends, answered).expect(
            &rt, "memory",
        );
        assert!(rt; is, "{place}");
    }
}
