//! How a client begins, asks and asks again.

use crate::parts::{CLIENT, Host, REPLY, SERVER, config};
use dhcp_history::Report;
use dhcp_wire::{DhcpError, ErrorKind};
use dhcp6_info::DhcpV6InfoState;
use dhcp6_msg::DhcpV6Config;
use std::alloc::Global;
use std::net::Ipv6Addr;

// The head of the first message.
const REQUEST: [u8; 4] = [11, 0xab, 0xcd, 0xef];

// The codes of name servers and of the refresh time, option 6.
const CODES: [u8; 8] = [0, 6, 0, 4, 0, 23, 0, 32];

// The elapsed time 0, option 8.
const AT_ONCE: [u8; 6] = [0, 8, 0, 2, 0, 0];

// A refresh time of 10 seconds, option 32.
const TEN_SECONDS: [u8; 8] = [0, 32, 0, 4, 0, 0, 0, 10];

// Whether a client that asks for these codes sends the first message at once.
fn asks(alloc: Global, codes: &[u16]) -> Result<bool, DhcpError> {
    let mut host = Host::new(alloc, config(alloc, codes, 0)?)?;
    host.poll(0)?;
    host.has_sent(alloc, &[&REQUEST, &CLIENT, &CODES, &AT_ONCE])
}

#[test]
fn the_refresh_time_is_asked_for_once(rt: HostRuntime) {
    let cases: [&[u16]; 2] = [&[23], &[23, 32]];
    for codes in cases {
        assert!(rt; asks(rt.alloc(), codes).expect(&rt, "memory"), "{codes:?}");
    }
}

// Whether a client reports its first message at the event that it is sent at, and no more at the
// next event, behind what was reported.
fn reports_event_by_event(alloc: Global) -> Result<bool, DhcpError> {
    let mut host = Host::new(alloc, config(alloc, &[23], 0)?)?;
    let mut reports = Vec::new(alloc);
    host.play(7, 0, &mut reports)?;
    host.play(8, 1, &mut reports)?;
    Ok(match reports.as_slice() {
        [first] => first.event == 7 && matches!(first.report, Report::Handed(_)),
        _ => false,
    })
}

#[test]
fn each_event_adds_what_it_reports(rt: HostRuntime) {
    assert!(rt; reports_event_by_event(rt.alloc()).expect(&rt, "memory"));
}

// Whether a client that was given a configuration for 600 seconds asks again after them, with a
// new transaction id.
fn asks_again(alloc: Global) -> Result<bool, DhcpError> {
    let mut host = Host::asking(alloc)?;
    host.hear(alloc, 100, &[&REPLY, &SERVER, &TEN_SECONDS])?;
    let early = host.poll(600099)?;
    let due = host.poll(600100)?;
    host.poll(600100)?;
    let sent = host.has_sent(alloc, &[&[11, 0, 0, 0], &CLIENT, &CODES, &AT_ONCE])?;
    Ok(early.is_none() && due == Some(DhcpV6InfoState::Inform) && sent)
}

#[test]
fn a_client_asks_again_after_the_refresh_time(rt: HostRuntime) {
    assert!(rt; asks_again(rt.alloc()).expect(&rt, "memory"));
}

// Whether a client that had no answer asks again with its transaction id, for so long as it has
// tried: 60,010 hundredths of a second.
fn goes_on(alloc: Global) -> Result<bool, DhcpError> {
    let mut host = Host::asking(alloc)?;
    let answer = host.hear(alloc, 100, &[&REPLY, &CLIENT])?;
    host.poll(600100)?;
    let tried = [0, 8, 0, 2, 0xea, 0x6a];
    Ok(answer.is_none() && host.has_sent(alloc, &[&REQUEST, &CLIENT, &CODES, &tried])?)
}

#[test]
fn a_client_without_an_answer_asks_again(rt: HostRuntime) {
    assert!(rt; goes_on(rt.alloc()).expect(&rt, "memory"));
}

// How a client with a time limit of one second polls then, and after a clean-up.
fn gives_up(alloc: Global) -> Result<bool, DhcpError> {
    let mut host = Host::new(alloc, config(alloc, &[23], 1)?)?;
    host.poll(0)?;
    host.sent();
    let late = match host.poll(1000) {
        Ok(_) => false,
        Err(error) => error.kind() == ErrorKind::Timeout,
    };
    let stopped = host.client.next_poll().is_none();
    host.client.clean_up();
    host.poll(1500)?;
    Ok(late && stopped && host.sent().is_some())
}

#[test]
fn a_time_limit_lasts_until_a_clean_up(rt: HostRuntime) {
    assert!(rt; gives_up(rt.alloc()).expect(&rt, "memory"));
}

// Whether a client can't begin with this configuration.
fn is_refused(alloc: Global, config: DhcpV6Config) -> Result<bool, DhcpError> {
    match Host::new(alloc, config) {
        Ok(_host) => Ok(false),
        Err(error) => Ok(error.kind() == ErrorKind::InvalidArgument),
    }
}

#[test]
fn a_client_begins_with_an_interface_and_an_address(rt: HostRuntime) {
    let alloc = rt.alloc();
    let mut without_interface = config(alloc, &[23], 0).expect(&rt, "memory");
    without_interface.iface_index = 0;
    assert!(rt; is_refused(alloc, without_interface).expect(&rt, "memory"));
    let mut without_address = config(alloc, &[23], 0).expect(&rt, "memory");
    without_address.src_ip = Ipv6Addr::UNSPECIFIED;
    assert!(rt; is_refused(alloc, without_address).expect(&rt, "memory"));
}

#[test]
fn the_default_state_asks_for_a_configuration(rt: HostRuntime) {
    assert!(rt; DhcpV6InfoState::default() == DhcpV6InfoState::Inform);
}
