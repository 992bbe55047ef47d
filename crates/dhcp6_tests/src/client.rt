//! What no script says: leases that are given or released by hand, counters that begin anew, and
//! how a client begins.

use crate::reply::refusal;
use dhcp_clock::{Handed, MemLink, Sent, WordList};
use dhcp_wire::{Bytes, DhcpError, ErrorKind, boxed};
use dhcp6_client::DhcpV6Client;
use dhcp6_msg::{
    DhcpV6Config, DhcpV6IaType, DhcpV6Lease, DhcpV6Message, DhcpV6MessageType, DhcpV6Mode,
};
use dhcp6_opt::{DhcpV6Duid, DhcpV6Option, DhcpV6OptionCode};
use std::alloc::Global;
use std::net::Ipv6Addr;

// The last lawful moment, in milliseconds: 2^60 - 1.
const LAST_MOMENT: u64 = 1_152_921_504_606_846_975;

// What most of the clients ask for.
const ADDRESSES: DhcpV6Mode = DhcpV6Mode::NonTemporaryAddresses;

// Random words, all of them 0.
fn zeros(alloc: Global) -> WordList {
    WordList::new(Vec::new(alloc))
}

// The identifier of the client, of number 1, and of its server, of number 2.
fn duid(alloc: Global, number: u8) -> Result<DhcpV6Duid, DhcpError> {
    DhcpV6Duid::parse(alloc, &[0, 3, 0, 1, 2, 0, 0, 0, 0, number])
}

// A configuration with which a client can begin, without an identifier.
fn config(alloc: Global, mode: DhcpV6Mode) -> Result<DhcpV6Config, DhcpError> {
    let mut config = DhcpV6Config::new(alloc, "eth1", mode)?;
    config
        .set_iface_index(1)
        .set_link_local_ip(Ipv6Addr::new(0xfe80, 0, 0, 0, 0, 0, 0, 1));
    Ok(config)
}

// A lease with T1 50, T2 80, preferred 100, valid 200.
fn lease(alloc: Global) -> Result<DhcpV6Lease, DhcpError> {
    let mut lease = DhcpV6Lease::empty(alloc);
    lease.t1_sec = 50;
    lease.t2_sec = 80;
    lease.preferred_time_sec = 100;
    lease.valid_time_sec = 200;
    lease.address = Ipv6Addr::new(0x2001, 0xdb8, 0, 0, 0, 0, 0, 0x10);
    lease.ia_type = Some(DhcpV6IaType::NonTemporaryAddresses);
    lease.srv_duid = duid(alloc, 2)?;
    Ok(lease)
}

// What makes a lease one that a client may not hold.
#[derive(Clone, Copy)]
enum Flaw {
    None,
    Times,
    Address,
    Type,
    Server,
}

// A lease with this flaw.
fn flawed(alloc: Global, flaw: Flaw) -> Result<DhcpV6Lease, DhcpError> {
    let mut lease = lease(alloc)?;
    match flaw {
        Flaw::None => {}
        Flaw::Times => lease.t1_sec = 81,
        Flaw::Address => lease.address = Ipv6Addr::UNSPECIFIED,
        Flaw::Type => lease.ia_type = None,
        Flaw::Server => lease.srv_duid = DhcpV6Duid::Raw(Bytes::new(alloc)),
    }
    Ok(lease)
}

// A client of this mode that held a lease before.
fn client(alloc: Global, mode: DhcpV6Mode) -> Result<Box<DhcpV6Client>, DhcpError> {
    begin(alloc, config(alloc, mode)?, lease(alloc))
}

// A client of this configuration that held this lease before.
fn begin(
    alloc: Global,
    config: DhcpV6Config,
    lease: Result<DhcpV6Lease, DhcpError>,
) -> Result<Box<DhcpV6Client>, DhcpError> {
    match lease {
        Ok(lease) => {
            let client = DhcpV6Client::init(alloc, config, Some(lease), 0, &mut zeros(alloc));
            boxed(alloc, client)
        }
        Err(error) => Err(error),
    }
}

// What a client shows. One function owns the client of most tests: a test that owned one would be
// proved for each place at which it can return.
#[derive(Clone, Copy)]
enum Shows {
    HoldsOnlyWithout(Flaw),
    HoldsALeaseOfTheLastMoment,
    ReleasesOnlyToAServer,
    ReleasesTheHeldLease,
    ReleasesOnlyAHeldLease,
    Solicits,
    HoldsUntilTheValidEnd,
    BeginsItsCountersAnew,
}

// Whether a client of this mode that held a lease before shows this.
fn is_shown(alloc: Global, mode: DhcpV6Mode, shows: Shows) -> Result<bool, DhcpError> {
    match client(alloc, mode) {
        Ok(mut client) => shown_by(alloc, &mut client, shows),
        Err(error) => Err(error),
    }
}

// Whether this client does.
fn shown_by(alloc: Global, client: &mut DhcpV6Client, shows: Shows) -> Result<bool, DhcpError> {
    match shows {
        Shows::HoldsOnlyWithout(flaw) => holds_only_without(alloc, client, flaw),
        Shows::HoldsALeaseOfTheLastMoment => holds_a_lease_of_the_last_moment(alloc, client),
        Shows::ReleasesOnlyToAServer => releases_only_to_a_server(alloc, client),
        Shows::ReleasesTheHeldLease => releases_the_held_lease(alloc, client),
        Shows::ReleasesOnlyAHeldLease => releases_only_a_held_lease(alloc, client),
        Shows::Solicits => solicits(alloc, client),
        Shows::HoldsUntilTheValidEnd => holds_until_the_valid_end(alloc, client),
        Shows::BeginsItsCountersAnew => begins_its_counters_anew(alloc, client),
    }
}

// Whether an argument was refused.
fn is_invalid(answer: Result<(), DhcpError>) -> bool {
    match answer {
        Ok(()) => false,
        Err(error) => error.kind() == ErrorKind::InvalidArgument,
    }
}

// Whether it takes a lease, and takes one with this flaw only if that is none.
fn holds_only_without(
    alloc: Global,
    client: &mut DhcpV6Client,
    flaw: Flaw,
) -> Result<bool, DhcpError> {
    client.clean_up();
    let answer = client.done(flawed(alloc, flaw)?, 7);
    let is_held = client.lease().is_some();
    let is_due = client.next_poll() == Some(50_007);
    Ok(match flaw {
        Flaw::None => answer.is_ok() && is_held && is_due,
        _ => is_invalid(answer) && !is_held && !is_due,
    })
}

fn holds_a_lease_of_the_last_moment(
    alloc: Global,
    client: &mut DhcpV6Client,
) -> Result<bool, DhcpError> {
    let is_taken = client.done(lease(alloc)?, LAST_MOMENT).is_ok();
    let polled = client.run(LAST_MOMENT, &mut zeros(alloc), &mut MemLink::new(alloc));
    let is_quiet = matches!(polled, Ok(None));
    Ok(is_taken && is_quiet && client.next_poll() == Some(1_152_921_504_606_896_975))
}

fn releases_only_to_a_server(alloc: Global, client: &mut DhcpV6Client) -> Result<bool, DhcpError> {
    let mut link = MemLink::new(alloc);
    let refused = refusal(release(alloc, client, Flaw::Server, &mut link))?;
    let is_kept = link.take_handed().is_none() && client.lease().is_some();
    release(alloc, client, Flaw::None, &mut link)?;
    let is_released = link.take_handed().is_some() && client.lease().is_none();
    Ok(refused == Some(ErrorKind::InvalidArgument) && is_kept && is_released)
}

// Releases a lease with this flaw by hand.
fn release(
    alloc: Global,
    client: &mut DhcpV6Client,
    flaw: Flaw,
    link: &mut MemLink,
) -> Result<(), DhcpError> {
    let lease = flawed(alloc, flaw)?;
    client.release(&lease, 300, link)
}

// What the release of a lease by hand hands to the link.
fn released(alloc: Global, client: &mut DhcpV6Client) -> Result<Option<Handed>, DhcpError> {
    let mut link = MemLink::new(alloc);
    release(alloc, client, Flaw::None, &mut link)?;
    match link.take_handed() {
        Some((message, Sent::Taken)) => Ok(Some(message)),
        _ => Ok(None),
    }
}

// What the release of the lease that is held hands to the link, if it returns true.
fn released_held(alloc: Global, client: &mut DhcpV6Client) -> Result<Option<Handed>, DhcpError> {
    let mut link = MemLink::new(alloc);
    let is_released = client.release_held(300, &mut link)?;
    match link.take_handed() {
        Some((message, Sent::Taken)) if is_released => Ok(Some(message)),
        _ => Ok(None),
    }
}

// Whether the release of the lease that is held is that of the same lease by hand.
fn releases_the_held_lease(alloc: Global, client: &mut DhcpV6Client) -> Result<bool, DhcpError> {
    let is_taken = client.done(lease(alloc)?, 7).is_ok();
    let by_hand = released(alloc, client)?;
    Ok(is_taken && hands_when_held(alloc, client, &by_hand)?)
}

// Whether that lease, held anew and then released, hands this message to the link.
fn hands_when_held(
    alloc: Global,
    client: &mut DhcpV6Client,
    message: &Option<Handed>,
) -> Result<bool, DhcpError> {
    let is_taken = client.done(lease(alloc)?, 7).is_ok();
    let held = released_held(alloc, client)?;
    Ok(is_taken && held.is_some() && held == *message && client.lease().is_none())
}

// Whether the release of a lease that isn't held returns false and hands nothing to the link.
fn releases_only_a_held_lease(alloc: Global, client: &mut DhcpV6Client) -> Result<bool, DhcpError> {
    client.clean_up();
    let mut link = MemLink::new(alloc);
    let is_released = client.release_held(300, &mut link)?;
    Ok(!is_released && link.take_handed().is_none())
}

// The type and the elapsed time, in hundredths of a second, of what a poll at this moment sends.
fn sent(
    alloc: Global,
    client: &mut DhcpV6Client,
    now: u32,
) -> Result<Option<(DhcpV6MessageType, u16)>, DhcpError> {
    let mut link = MemLink::new(alloc);
    client.run(u64::from(now), &mut zeros(alloc), &mut link)?;
    match link.take_handed() {
        Some((Handed::Udp6(_, _, payload), _)) => read(alloc, payload.as_slice()),
        _ => Ok(None),
    }
}

// The type and the elapsed time of a message.
fn read(alloc: Global, payload: &[u8]) -> Result<Option<(DhcpV6MessageType, u16)>, DhcpError> {
    let message = DhcpV6Message::parse(alloc, payload)?;
    match message.options.get_first(DhcpV6OptionCode::ElapsedTime) {
        Some(DhcpV6Option::ElapsedTime(elapsed)) => Ok(Some((message.msg_type, *elapsed))),
        _ => Ok(None),
    }
}

fn solicits(alloc: Global, client: &mut DhcpV6Client) -> Result<bool, DhcpError> {
    let holds_none = client.lease().is_none();
    Ok(sent(alloc, client, 0)? == Some((DhcpV6MessageType::Solicit, 0)) && holds_none)
}

fn holds_until_the_valid_end(alloc: Global, client: &mut DhcpV6Client) -> Result<bool, DhcpError> {
    let mut lease = lease(alloc)?;
    lease.ia_type = Some(DhcpV6IaType::TemporaryAddresses);
    let is_taken = client.done(lease, 200).is_ok();
    Ok(is_taken && client.next_poll() == Some(200_200))
}

// Whether counters that begin anew at 2,000, after two Solicits, bring the third one at the moment
// at which it was due before, with its elapsed time and its next wait counted anew.
fn begins_its_counters_anew(alloc: Global, client: &mut DhcpV6Client) -> Result<bool, DhcpError> {
    client.clean_up();
    let first = sent(alloc, client, 0)?;
    let second = sent(alloc, client, 900)?;
    client.reset_retransmit_counters(2_000);
    let is_due = client.next_poll() == Some(2_610);
    let third = sent(alloc, client, 2_610)?;
    let solicit = DhcpV6MessageType::Solicit;
    Ok(
        first == Some((solicit, 0))
            && second == Some((solicit, 90))
            && is_due
            && third == Some((solicit, 61))
            && client.next_poll() == Some(3_510),
    )
}

#[test]
fn a_lease_within_its_limits_is_held_until_t1(rt: HostRuntime) {
    assert!(rt;
        is_shown(rt.alloc(), ADDRESSES, Shows::HoldsOnlyWithout(Flaw::None)).expect(&rt, "answer")
    );
}

#[test]
fn a_lease_outside_its_limits_is_refused(rt: HostRuntime) {
    for flaw in [Flaw::Times, Flaw::Address, Flaw::Type, Flaw::Server] {
        assert!(rt;
            is_shown(rt.alloc(), ADDRESSES, Shows::HoldsOnlyWithout(flaw)).expect(&rt, "answer")
        );
    }
}

#[test]
fn a_lease_may_begin_at_the_last_lawful_moment(rt: HostRuntime) {
    assert!(rt;
        is_shown(rt.alloc(), ADDRESSES, Shows::HoldsALeaseOfTheLastMoment).expect(&rt, "answer")
    );
}

#[test]
fn a_lease_without_a_server_is_not_released(rt: HostRuntime) {
    assert!(rt;
        is_shown(rt.alloc(), ADDRESSES, Shows::ReleasesOnlyToAServer).expect(&rt, "answer")
    );
}

#[test]
fn the_lease_that_is_held_is_released_as_by_hand(rt: HostRuntime) {
    assert!(rt; is_shown(rt.alloc(), ADDRESSES, Shows::ReleasesTheHeldLease).expect(&rt, "answer"));
}

#[test]
fn a_client_without_a_lease_releases_none(rt: HostRuntime) {
    assert!(rt;
        is_shown(rt.alloc(), ADDRESSES, Shows::ReleasesOnlyAHeldLease).expect(&rt, "answer")
    );
}

#[test]
fn a_client_for_temporary_addresses_holds_none_before(rt: HostRuntime) {
    let temporary = DhcpV6Mode::TemporaryAddresses;
    assert!(rt; is_shown(rt.alloc(), temporary, Shows::Solicits).expect(&rt, "answer"));
}

#[test]
fn temporary_addresses_are_held_until_they_are_no_longer_valid(rt: HostRuntime) {
    let temporary = DhcpV6Mode::TemporaryAddresses;
    assert!(rt;
        is_shown(rt.alloc(), temporary, Shows::HoldsUntilTheValidEnd).expect(&rt, "answer")
    );
}

#[test]
fn counters_begin_anew_within_a_stay(rt: HostRuntime) {
    assert!(rt;
        is_shown(rt.alloc(), ADDRESSES, Shows::BeginsItsCountersAnew).expect(&rt, "answer")
    );
}

// The identifier that a client fills in, with this MAC address or none, as its first message has
// it.
fn filled(alloc: Global, mac: Option<[u8; 6]>) -> Result<Option<DhcpV6Duid>, DhcpError> {
    let words = vec![in alloc; 0x01020304, 0x05060708, 0x090a0b0c, 0x0d0e0f10]?;
    let mut words = WordList::new(words);
    let client = DhcpV6Client::init(alloc, unnamed(alloc, mac)?, None, 0, &mut words);
    let mut client = boxed(alloc, client)?;
    named_at_first(alloc, &mut client)
}

// The client's identifier in what a poll at 0 sends.
fn named_at_first(
    alloc: Global,
    client: &mut DhcpV6Client,
) -> Result<Option<DhcpV6Duid>, DhcpError> {
    let mut link = MemLink::new(alloc);
    client.run(0, &mut zeros(alloc), &mut link)?;
    match link.take_handed() {
        Some((Handed::Udp6(_, _, payload), _)) => identifier_in(alloc, payload.as_slice()),
        _ => Ok(None),
    }
}

// The client's identifier in a message.
fn identifier_in(alloc: Global, payload: &[u8]) -> Result<Option<DhcpV6Duid>, DhcpError> {
    let message = DhcpV6Message::parse(alloc, payload)?;
    match message.options.get_first(DhcpV6OptionCode::ClientId) {
        Some(DhcpV6Option::ClientId(duid)) => Ok(Some(duid.try_clone(alloc)?)),
        _ => Ok(None),
    }
}

// A configuration without an identifier, with this MAC address or none.
fn unnamed(alloc: Global, mac: Option<[u8; 6]>) -> Result<DhcpV6Config, DhcpError> {
    let mut config = config(alloc, ADDRESSES)?;
    if let Some(mac) = mac {
        config.set_src_mac(mac);
    }
    Ok(config)
}

// Whether the identifier that a client fills in, with this MAC address or none, has these bytes.
fn is_filled(alloc: Global, mac: Option<[u8; 6]>, bytes: &[u8]) -> Result<bool, DhcpError> {
    let wanted = DhcpV6Duid::parse(alloc, bytes)?;
    let made = filled(alloc, mac);
    Ok(made? == Some(wanted))
}

#[test]
fn an_empty_identifier_is_filled_from_the_mac_address_or_at_random(rt: HostRuntime) {
    let of_mac = [0, 3, 0, 1, 2, 0, 0, 0, 0, 1];
    let mac = Some([2, 0, 0, 0, 0, 1]);
    assert!(rt; is_filled(rt.alloc(), mac, &of_mac).expect(&rt, "answer"));
    let random = [0, 255, 3, 4, 5, 6, 7, 8, 9, 10, 11, 12, 13, 14, 15, 16];
    assert!(rt; is_filled(rt.alloc(), None, &random).expect(&rt, "answer"));
}

// Whether a client can't begin with this configuration.
fn is_refused(alloc: Global, config: DhcpV6Config) -> Result<bool, DhcpError> {
    let client = DhcpV6Client::init(alloc, config, None, 0, &mut zeros(alloc));
    match boxed(alloc, client) {
        Ok(_) => Ok(false),
        Err(error) => Ok(error.kind() == ErrorKind::InvalidArgument),
    }
}

#[test]
fn a_client_begins_with_an_interface_and_an_address(rt: HostRuntime) {
    let alloc = rt.alloc();
    let mut without_interface = config(alloc, ADDRESSES).expect(&rt, "memory");
    without_interface.iface_index = 0;
    assert!(rt; is_refused(alloc, without_interface).expect(&rt, "memory"));
    let mut without_address = config(alloc, ADDRESSES).expect(&rt, "memory");
    without_address.src_ip = Ipv6Addr::UNSPECIFIED;
    assert!(rt; is_refused(alloc, without_address).expect(&rt, "memory"));
}
