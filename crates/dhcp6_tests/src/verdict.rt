//! What a packet is to a client.

use crate::reply::{ASSOCIATION, CLIENT, SERVER, joined, plain_config};
use dhcp_clock::{MemLink, Packet, PacketKind, WordList};
use dhcp_wire::{DhcpError, ErrorKind, boxed};
use dhcp6_client::{DhcpV6Client, PacketVerdict};
use dhcp6_msg::DhcpV6MessageType;
use std::alloc::Global;
use std::net::Ipv6Addr;

type Verdict = PacketVerdict<DhcpV6MessageType>;

// The head of an Advertise with transaction id 0.
const ADVERTISE: [u8; 4] = [2, 0, 0, 0];

// A packet of this kind: a message with this head, and this option after both identifiers.
fn packet(
    alloc: Global,
    kind: PacketKind,
    head: [u8; 4],
    option: &[u8],
) -> Result<Packet, DhcpError> {
    let bytes = joined(alloc, &[&head, &CLIENT, &SERVER, option])?;
    Ok(Packet { kind, bytes })
}

// A client with a time limit of 100 seconds. It draws zeros, so its transaction id is 0.
fn client(alloc: Global) -> Result<Box<DhcpV6Client>, DhcpError> {
    let mut config = plain_config(alloc)?;
    config
        .set_iface_index(1)
        .set_timeout_sec(100)
        .set_link_local_ip(Ipv6Addr::new(0xfe80, 0, 0, 0, 0, 0, 0, 1));
    let mut zeros = WordList::new(Vec::new(alloc));
    let client = DhcpV6Client::init(alloc, config, None, 0, &mut zeros);
    boxed(alloc, client)
}

// A poll at moment 0, which sends a Solicit.
fn solicit(alloc: Global, client: &mut DhcpV6Client) -> Result<(), DhcpError> {
    let mut zeros = WordList::new(Vec::new(alloc));
    client.run(0, &mut zeros, &mut MemLink::new(alloc))?;
    Ok(())
}

// What a packet is at this moment, in milliseconds, to a client that was polled at moment 0, or not
// yet.
fn verdict(
    alloc: Global,
    is_polled: bool,
    now: u64,
    packet: &Packet,
) -> Result<Verdict, DhcpError> {
    match client(alloc) {
        Ok(mut client) => {
            if is_polled {
                solicit(alloc, &mut client)?;
            }
            client.verdict(now, packet)
        }
        Err(error) => Err(error),
    }
}

// Whether a packet is this to a client that was polled at moment 0.
fn is_found(
    alloc: Global,
    kind: PacketKind,
    head: [u8; 4],
    option: &[u8],
    wanted: Verdict,
) -> Result<bool, DhcpError> {
    let packet = packet(alloc, kind, head, option)?;
    Ok(verdict(alloc, true, 1, &packet)? == wanted)
}

// What an Advertise that grants an address is at this moment.
fn offered(alloc: Global, is_polled: bool, now: u64) -> Result<Verdict, DhcpError> {
    let packet = packet(alloc, PacketKind::Payload, ADVERTISE, &ASSOCIATION)?;
    verdict(alloc, is_polled, now, &packet)
}

#[test]
fn each_packet_is_an_answer_or_says_why_not(rt: HostRuntime) {
    let payload = PacketKind::Payload;
    let reply = PacketVerdict::OtherType(DhcpV6MessageType::Reply);
    let no_lease = PacketVerdict::NoLease(ErrorKind::InvalidDhcpMessage);
    let refused = PacketVerdict::NoLease(ErrorKind::NoLease);
    let cases: [(PacketKind, [u8; 4], &[u8], Verdict); 7] = [
        (
            PacketKind::Frame,
            ADVERTISE,
            &ASSOCIATION,
            PacketVerdict::OtherCarrier,
        ),
        // There is no type 0.
        (
            payload,
            [0, 0, 0, 0],
            &ASSOCIATION,
            PacketVerdict::NoMessage,
        ),
        (
            payload,
            [2, 0, 0, 1],
            &ASSOCIATION,
            PacketVerdict::OtherTransactionId,
        ),
        (payload, [7, 0, 0, 0], &ASSOCIATION, reply),
        // Its status is NoAddrsAvail; it grants no address; it grants one.
        (payload, ADVERTISE, &[0, 13, 0, 2, 0, 2], refused),
        (payload, ADVERTISE, &[], no_lease),
        (payload, ADVERTISE, &ASSOCIATION, PacketVerdict::Answer),
    ];
    for (kind, head, option, wanted) in cases {
        assert!(rt; is_found(rt.alloc(), kind, head, option, wanted).expect(&rt, "memory"));
    }
}

#[test]
fn a_packet_answers_between_the_first_message_and_the_time_limit(rt: HostRuntime) {
    const CASES: [(bool, u64, Verdict); 4] = [
        (false, 0, PacketVerdict::NoOpenAttempt),
        (true, 0, PacketVerdict::Answer),
        (true, 99_999, PacketVerdict::Answer),
        (true, 100_000, PacketVerdict::NoOpenAttempt),
    ];
    for &(is_polled, now, wanted) in &CASES {
        assert!(rt; offered(rt.alloc(), is_polled, now).expect(&rt, "memory") == wanted);
    }
}
