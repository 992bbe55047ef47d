//! Whose Nack leads back to the search, by the message forms of RFC 2131, section 3.1.

ghost use Rattle.std.specs.Prelude.{◌<◌, ◌^◌};

use crate::verdict::{OFFER, PLAIN, client, packet, poll, request};
use dhcp_clock::{MemLink, PacketKind, WordList};
use dhcp_wire::DhcpError;
use dhcp4_client::{DhcpV4Client, DhcpV4Lease, DhcpV4State};
use std::alloc::Global;
use std::net::Ipv4Addr;

// An offer of 192.0.2.10 for 100 seconds that names no server: options 53 and 51. In its header
// 192.0.2.1 is the next server.
const UNNAMED_OFFER: [u8; 9] = [53, 1, 2, 51, 4, 0, 0, 0, 100];

// A Nack of 192.0.2.1, one of 192.0.2.9, and one that names no server: options 53 and 54.
const NACK_OF_1: [u8; 9] = [53, 1, 6, 54, 4, 192, 0, 2, 1];

const NACK_OF_9: [u8; 9] = [53, 1, 6, 54, 4, 192, 0, 2, 9];

const UNNAMED_NACK: [u8; 3] = [53, 1, 6];

// A lease of this server of 192.0.2.0/24, or of none if it is 0.0.0.0, which is renewed after ten
// seconds and rebound after twenty.
fn lease(alloc: Global, srv_id: Ipv4Addr) -> DhcpV4Lease {
    let mut lease = DhcpV4Lease::empty(alloc);
    lease.yiaddr = Ipv4Addr::new(192, 0, 2, 10);
    lease.siaddr = Ipv4Addr::new(192, 0, 2, 1);
    lease.srv_id = srv_id;
    lease.t1_sec = 10;
    lease.t2_sec = 20;
    lease.lease_time_sec = 30;
    lease
}

// Whether a client that requests this offer searches anew when this Nack comes.
fn is_offer_refused(alloc: Global, offer: &[u8], nack: &[u8]) -> Result<bool, DhcpError> {
    match client(alloc) {
        Ok(mut client) => {
            request(alloc, &mut client, offer)?;
            is_refused(alloc, &mut client, 2, nack)
        }
        Err(error) => Err(error),
    }
}

// The moment of T1, or of T2, of a lease that is held from moment 0 on, in milliseconds.
fn due(is_t2: bool) -> u64
    ensures { result < 2 ^ 60 }
{
    if is_t2 { 20_000 } else { 10_000 }
}

// Whether a client with a lease of this server, which it renews at T1, or rebinds at T2, searches
// anew when this Nack comes.
fn is_lease_refused(
    alloc: Global,
    srv_id: Ipv4Addr,
    is_t2: bool,
    nack: &[u8],
) -> Result<bool, DhcpError> {
    let now = due(is_t2);
    match client(alloc) {
        Ok(mut client) => {
            client.done(lease(alloc, srv_id), 0)?;
            extend(alloc, &mut client, now)?;
            is_refused(alloc, &mut client, now, nack)
        }
        Err(error) => Err(error),
    }
}

// Has a client that holds a lease enter the state of this moment, at most two states on, and send.
fn extend(alloc: Global, client: &mut DhcpV4Client, now: u64) -> Result<(), DhcpError>
    requires { now < 2 ^ 60 }
{
    poll(alloc, client, now, None)?;
    poll(alloc, client, now, None)?;
    poll(alloc, client, now, None)
}

// Whether a client that has sent a Request searches anew when this Nack comes in a frame.
fn is_refused(
    alloc: Global,
    client: &mut DhcpV4Client,
    now: u64,
    nack: &[u8],
) -> Result<bool, DhcpError>
    requires { now < 2 ^ 60 }
{
    let mut zeros = WordList::new(Vec::new(alloc));
    let mut link = MemLink::new(alloc);
    link.load(Some(packet(alloc, PacketKind::Frame, PLAIN, nack)?));
    let change = client.run(now, &mut zeros, &mut link)?;
    Ok(matches!(change, Some(DhcpV4State::InitReboot)))
}

#[test]
fn an_offer_is_refused_by_its_server_and_by_any_if_it_names_none(rt: HostRuntime) {
    let cases: [(&[u8], &[u8], bool); 6] = [
        (&OFFER, &NACK_OF_1, true),
        (&OFFER, &NACK_OF_9, false),
        (&OFFER, &UNNAMED_NACK, false),
        (&UNNAMED_OFFER, &NACK_OF_1, true),
        (&UNNAMED_OFFER, &NACK_OF_9, true),
        (&UNNAMED_OFFER, &UNNAMED_NACK, true),
    ];
    for &(offer, nack, wanted) in &cases {
        let is_refused = is_offer_refused(rt.alloc(), offer, nack).expect(&rt, "memory");
        assert!(rt; is_refused == wanted);
    }
}

#[test]
fn a_lease_is_refused_by_its_server_and_by_any_if_it_names_none(rt: HostRuntime) {
    let server = Ipv4Addr::new(192, 0, 2, 1);
    let none = Ipv4Addr::UNSPECIFIED;
    // The Request of a lease without a server is broadcast at T1 too.
    let cases: [(Ipv4Addr, bool, &[u8], bool); 7] = [
        (none, false, &NACK_OF_1, true),
        (none, false, &NACK_OF_9, true),
        (none, true, &NACK_OF_9, true),
        (none, true, &UNNAMED_NACK, true),
        (server, true, &NACK_OF_1, true),
        (server, true, &NACK_OF_9, false),
        (server, true, &UNNAMED_NACK, false),
    ];
    for &(srv_id, is_t2, nack, wanted) in &cases {
        let is_refused = is_lease_refused(rt.alloc(), srv_id, is_t2, nack).expect(&rt, "memory");
        assert!(rt; is_refused == wanted);
    }
}
