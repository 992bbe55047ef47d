//! The states that a poll reports.

use dhcp_wire::DhcpError;
use dhcp6_client::{DhcpV6Lease, DhcpV6State};
use std::alloc::Global;
use std::fmt::Display;
use std::net::Ipv6Addr;

// The state of a client that has the lease of 2001:db8::10.
fn done(alloc: Global) -> Result<DhcpV6State, DhcpError> {
    let mut lease = DhcpV6Lease::empty(alloc);
    lease.address = Ipv6Addr::new(0x2001, 0xdb8, 0, 0, 0, 0, 0, 0x10);
    Ok(DhcpV6State::Done(Box::new(alloc, lease)?))
}

// Whether a state prints as this text. Its type is a parameter, so that it is not dropped field by
// field.
fn prints<T: Display + Drop>(alloc: Global, state: T, text: &str) -> Result<bool, DhcpError> {
    let printed = format!(in alloc; "{state}")?;
    Ok(printed.as_str() == text)
}

#[test]
fn a_state_with_a_lease_is_done_and_prints_its_address(rt: HostRuntime) {
    let state = done(rt.alloc()).expect(&rt, "memory");
    assert!(rt; state.is_done());
    assert!(rt; state.try_clone(rt.alloc()).expect(&rt, "memory") == state);
    assert!(rt; prints(rt.alloc(), state, "done(2001:db8::10)").expect(&rt, "memory"));
}

#[test]
fn the_other_states_print_as_their_names(rt: HostRuntime) {
    let alloc = rt.alloc();
    assert!(rt; !DhcpV6State::Solicit.is_done());
    assert!(rt; prints(alloc, DhcpV6State::Solicit, "solicit").expect(&rt, "memory"));
    assert!(rt; prints(alloc, DhcpV6State::Request, "request").expect(&rt, "memory"));
    assert!(rt; prints(alloc, DhcpV6State::Renew, "renew").expect(&rt, "memory"));
    assert!(rt; prints(alloc, DhcpV6State::Rebind, "rebind").expect(&rt, "memory"));
}

#[test]
fn the_default_state_is_the_search_for_servers(rt: HostRuntime) {
    assert!(rt; DhcpV6State::default() == DhcpV6State::Solicit);
}
