//! What no script says: leases that are given or released by hand, and the moment of the next poll.

ghost use Rattle.std.specs.Prelude.{◌<◌, ◌^◌};

use dhcp_clock::{Handed, MemLink, Sent, WordList};
use dhcp_wire::{DhcpError, ErrorKind, boxed};
use dhcp4_client::{DhcpV4Client, DhcpV4State};
use dhcp4_lease::{DhcpV4Config, DhcpV4Lease};
use std::alloc::Global;
use std::net::Ipv4Addr;

// The last lawful moment, in milliseconds: 2^60 - 1.
const LAST_MOMENT: u64 = 1_152_921_504_606_846_975;

// Random words, all of them 0.
fn zeros(alloc: Global) -> WordList {
    WordList::new(Vec::new(alloc))
}

// A client without a lease, with this time limit in seconds.
fn client(alloc: Global, timeout_sec: u32) -> Result<Box<DhcpV4Client>, DhcpError> {
    let mut config = DhcpV4Config::new(alloc, "eth0")?;
    config.set_iface_index(1).set_timeout_sec(timeout_sec);
    boxed(
        alloc,
        DhcpV4Client::init(alloc, config, None, &mut zeros(alloc)),
    )
}

// The lease of an address of 192.0.2.0/24, with these times.
fn lease(alloc: Global, host: u8, times: [u32; 3]) -> DhcpV4Lease {
    let [t1_sec, t2_sec, lease_time_sec] = times;
    let mut lease = DhcpV4Lease::empty(alloc);
    lease.yiaddr = Ipv4Addr::new(192, 0, 2, host);
    lease.siaddr = Ipv4Addr::new(192, 0, 2, 1);
    lease.t1_sec = t1_sec;
    lease.t2_sec = t2_sec;
    lease.lease_time_sec = lease_time_sec;
    lease
}

// What a poll at this moment returns, over a link that takes everything.
fn poll(
    alloc: Global,
    client: &mut DhcpV4Client,
    now: u64,
) -> Result<Option<DhcpV4State>, DhcpError>
    requires { now < 2 ^ 60 }
{
    client.run(now, &mut zeros(alloc), &mut MemLink::new(alloc))
}

// What a client shows. One function owns the client of every test: a test that owned one would be
// proved for each place at which it can return.
#[derive(Clone, Copy)]
enum Shows {
    RefusesALeaseOutOfOrder,
    HoldsALeaseUntilT1,
    HoldsALeaseOfTheLastMoment,
    PollsAt(u64),
    KeepsAnErrorFrom(u64),
    ReleasesFromTheHeldAddress,
    ReleasesInAFrame,
    ReleasesTheHeldLease,
    ReleasesOnlyAHeldLease,
}

// Whether a client without a lease, with this time limit in seconds, shows this.
fn is_shown(alloc: Global, timeout_sec: u32, shows: Shows) -> Result<bool, DhcpError> {
    match client(alloc, timeout_sec) {
        Ok(mut client) => shown_by(alloc, &mut client, shows),
        Err(error) => Err(error),
    }
}

// Whether this client does.
fn shown_by(alloc: Global, client: &mut DhcpV4Client, shows: Shows) -> Result<bool, DhcpError> {
    match shows {
        Shows::RefusesALeaseOutOfOrder => Ok(refuses_a_lease_out_of_order(alloc, client)),
        Shows::HoldsALeaseUntilT1 => Ok(holds_a_lease_until_t1(alloc, client)),
        Shows::HoldsALeaseOfTheLastMoment => Ok(holds_a_lease_of_the_last_moment(alloc, client)),
        Shows::PollsAt(moment) => polls_at(alloc, client, moment),
        Shows::KeepsAnErrorFrom(moment) => keeps_an_error_from(alloc, client, moment),
        Shows::ReleasesFromTheHeldAddress => releases_from_the_held_address(alloc, client),
        Shows::ReleasesInAFrame => {
            Ok(matches!(released(alloc, client)?, Some(Handed::Frame(_))))
        }
        Shows::ReleasesTheHeldLease => releases_the_held_lease(alloc, client),
        Shows::ReleasesOnlyAHeldLease => releases_only_a_held_lease(alloc, client),
    }
}

fn refuses_a_lease_out_of_order(alloc: Global, client: &mut DhcpV4Client) -> bool {
    let is_refused = match client.done(lease(alloc, 10, [5, 4, 10]), 7) {
        Ok(()) => false,
        Err(error) => error.kind() == ErrorKind::InvalidArgument,
    };
    is_refused && client.lease().is_none() && client.next_poll() == Some(0)
}

fn holds_a_lease_until_t1(alloc: Global, client: &mut DhcpV4Client) -> bool {
    let is_taken = client.done(lease(alloc, 10, [10, 20, 30]), 7).is_ok();
    is_taken && client.lease().is_some() && client.next_poll() == Some(10_007)
}

fn holds_a_lease_of_the_last_moment(alloc: Global, client: &mut DhcpV4Client) -> bool {
    let is_taken = client
        .done(lease(alloc, 10, [10, 20, 30]), LAST_MOMENT)
        .is_ok();
    let is_quiet = matches!(poll(alloc, client, LAST_MOMENT), Ok(None));
    is_taken && is_quiet && client.next_poll() == Some(1_152_921_504_606_856_975)
}

// Whether it polls next at this moment, after its Discover at 0.
fn polls_at(alloc: Global, client: &mut DhcpV4Client, moment: u64) -> Result<bool, DhcpError> {
    poll(alloc, client, 0)?;
    Ok(client.next_poll() == Some(moment))
}

// Whether its time limit is over at its next poll, after which there is none.
fn keeps_an_error_from(
    alloc: Global,
    client: &mut DhcpV4Client,
    moment: u64,
) -> Result<bool, DhcpError> {
    let is_next = polls_at(alloc, client, moment)?;
    let is_stopped = moment <= LAST_MOMENT && poll(alloc, client, moment).is_err();
    Ok(is_next && is_stopped && client.next_poll().is_none())
}

// What the release of the lease of 192.0.2.11 hands to the link, which takes it.
fn released(alloc: Global, client: &mut DhcpV4Client) -> Result<Option<Handed>, DhcpError> {
    let mut link = MemLink::new(alloc);
    let answer = client.release(&lease(alloc, 11, [10, 20, 30]), 4_000, &mut link);
    answer?;
    match link.take_handed() {
        Some((message, Sent::Taken)) => Ok(Some(message)),
        _ => Ok(None),
    }
}

fn releases_from_the_held_address(
    alloc: Global,
    client: &mut DhcpV4Client,
) -> Result<bool, DhcpError> {
    let is_taken = client.done(lease(alloc, 10, [10, 20, 30]), 7).is_ok();
    let is_from_it = match released(alloc, client)? {
        Some(Handed::Udp4(from, _, _)) => from == Ipv4Addr::new(192, 0, 2, 10),
        _ => false,
    };
    Ok(is_taken && is_from_it && client.lease().is_none())
}

// What the release of the lease that is held hands to the link, which takes it, if it returns true.
fn released_held(alloc: Global, client: &mut DhcpV4Client) -> Result<Option<Handed>, DhcpError> {
    let mut link = MemLink::new(alloc);
    let is_released = client.release_held(4_000, &mut link)?;
    match link.take_handed() {
        Some((message, Sent::Taken)) if is_released => Ok(Some(message)),
        _ => Ok(None),
    }
}

// Whether the release of the lease that is held is that of the same lease by hand.
fn releases_the_held_lease(alloc: Global, client: &mut DhcpV4Client) -> Result<bool, DhcpError> {
    client.done(lease(alloc, 11, [10, 20, 30]), 7)?;
    let by_hand = released(alloc, client)?;
    hands_when_held(alloc, client, &by_hand)
}

// Whether the lease of 192.0.2.11, held anew and then released, hands this message to the link.
fn hands_when_held(
    alloc: Global,
    client: &mut DhcpV4Client,
    message: &Option<Handed>,
) -> Result<bool, DhcpError> {
    client.done(lease(alloc, 11, [10, 20, 30]), 7)?;
    let held = released_held(alloc, client)?;
    Ok(held.is_some() && held == *message && client.lease().is_none())
}

// Whether the release of a lease that isn't held returns false and hands nothing to the link.
fn releases_only_a_held_lease(alloc: Global, client: &mut DhcpV4Client) -> Result<bool, DhcpError> {
    let mut link = MemLink::new(alloc);
    let is_released = client.release_held(4_000, &mut link)?;
    Ok(!is_released && link.take_handed().is_none())
}

#[test]
fn a_lease_out_of_order_is_refused_and_changes_nothing(rt: HostRuntime) {
    assert!(rt; is_shown(rt.alloc(), 0, Shows::RefusesALeaseOutOfOrder).expect(&rt, "answer"));
}

#[test]
fn a_lease_that_is_given_is_held_until_t1(rt: HostRuntime) {
    assert!(rt; is_shown(rt.alloc(), 0, Shows::HoldsALeaseUntilT1).expect(&rt, "answer"));
}

#[test]
fn a_lease_may_begin_at_the_last_lawful_moment(rt: HostRuntime) {
    assert!(rt; is_shown(rt.alloc(), 0, Shows::HoldsALeaseOfTheLastMoment).expect(&rt, "answer"));
}

#[test]
fn the_next_poll_is_that_of_the_next_discover(rt: HostRuntime) {
    assert!(rt; is_shown(rt.alloc(), 0, Shows::PollsAt(3_000)).expect(&rt, "answer"));
}

#[test]
fn a_client_that_keeps_an_error_has_no_next_poll(rt: HostRuntime) {
    assert!(rt; is_shown(rt.alloc(), 1, Shows::KeepsAnErrorFrom(1_000)).expect(&rt, "answer"));
}

#[test]
fn a_lease_is_released_from_the_address_of_the_one_that_is_held(rt: HostRuntime) {
    assert!(rt; is_shown(rt.alloc(), 0, Shows::ReleasesFromTheHeldAddress).expect(&rt, "answer"));
}

#[test]
fn a_client_that_holds_no_lease_releases_one_in_a_frame(rt: HostRuntime) {
    assert!(rt; is_shown(rt.alloc(), 0, Shows::ReleasesInAFrame).expect(&rt, "answer"));
}

#[test]
fn the_lease_that_is_held_is_released_as_by_hand(rt: HostRuntime) {
    assert!(rt; is_shown(rt.alloc(), 0, Shows::ReleasesTheHeldLease).expect(&rt, "answer"));
}

#[test]
fn a_client_without_a_lease_releases_none(rt: HostRuntime) {
    assert!(rt; is_shown(rt.alloc(), 0, Shows::ReleasesOnlyAHeldLease).expect(&rt, "answer"));
}
