//! Turns of the loop of a network manager.

use crate::boxed::boxed;
use dhcp_clock::{MemLink, WordList};
use std::net::Ipv6Addr;
use uses::{
    Interface, QueueLink, SystemWords, configuration, discover_payload, follow_poll6, give_up6,
    keep_turn, new_client, new_client6, new_info_client, turn,
};

#[test]
fn a_client_of_ipv6_sleeps_until_its_first_solicit(rt: HostRuntime) {
    let alloc = rt.alloc();
    let mut words = WordList::new(vec![in alloc; 1, 600].expect(&rt, "memory"));
    let made = new_client6(alloc, Ipv6Addr::LOCALHOST, &mut words);
    let mut client = boxed(&rt, alloc, made);
    let mut interface = Interface::default();
    let wake = turn(
        &mut *client,
        &mut interface,
        0,
        &mut words,
        &mut MemLink::new(alloc),
    );
    assert!(rt; wake.expect(&rt, "answer") == Some(600));
}

#[test]
fn a_client_for_configuration_alone_runs_in_the_same_loop(rt: HostRuntime) {
    let alloc = rt.alloc();
    let mut words = WordList::new(vec![in alloc; 700].expect(&rt, "memory"));
    let made = new_info_client(alloc, Ipv6Addr::LOCALHOST, &mut words);
    let mut client = boxed(&rt, alloc, made);
    let mut interface = Interface::default();
    let wake = turn(
        &mut *client,
        &mut interface,
        0,
        &mut words,
        &mut MemLink::new(alloc),
    );
    assert!(rt; wake.expect(&rt, "answer") == Some(700));
}

#[test]
fn a_configuration_gives_a_discover(rt: HostRuntime) {
    let alloc = rt.alloc();
    let config = configuration(alloc).expect(&rt, "memory");
    let payload = discover_payload(alloc, 7, &config).expect(&rt, "memory");
    assert!(rt; payload.is_some());
}

#[test]
fn a_link_of_ones_own_keeps_what_is_to_be_sent(rt: HostRuntime) {
    let alloc = rt.alloc();
    let mut words = SystemWords {
        left: Vec::new(alloc),
    };
    let mut client = boxed(&rt, alloc, new_client(alloc, &mut words));
    let mut interface = Interface::default();
    let mut link = QueueLink::new(alloc);
    let wake = keep_turn(&mut *client, &mut interface, 0, &mut words, &mut link);
    assert!(rt; wake.expect(&rt, "answer") == Some(3_000));
    assert!(rt; link.to_send.len() == 1);
}

#[test]
fn a_client_without_a_lease_has_nothing_to_give_up(rt: HostRuntime) {
    let alloc = rt.alloc();
    let mut words = SystemWords {
        left: Vec::new(alloc),
    };
    let made = new_client6(alloc, Ipv6Addr::LOCALHOST, &mut words);
    let mut client = boxed(&rt, alloc, made);
    let mut interface = Interface::default();
    let mut link = QueueLink::new(alloc);
    let changed = follow_poll6(&mut *client, &mut interface, 0, &mut words, &mut link);
    assert!(rt; changed.expect(&rt, "answer").is_none());
    let given_up = give_up6(&mut *client, &mut interface, 0, &mut link);
    assert!(rt; !given_up.expect(&rt, "answer"));
}
