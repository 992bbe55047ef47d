//! The states that a poll reports.

use dhcp_wire::DhcpError;
use dhcp4_client::{DhcpV4Lease, DhcpV4State};
use std::alloc::Global;
use std::fmt::Display;
use std::net::Ipv4Addr;

// The state of a client that has the lease of 192.0.2.10.
fn done(alloc: Global) -> Result<DhcpV4State, DhcpError> {
    let mut lease = DhcpV4Lease::empty(alloc);
    lease.yiaddr = Ipv4Addr::new(192, 0, 2, 10);
    Ok(DhcpV4State::Done(Box::new(alloc, lease)?))
}

// Whether a state prints as this text. Its type is a parameter, so that it is not dropped field by
// field.
fn prints<T: Display + Drop>(alloc: Global, state: T, text: &str) -> Result<bool, DhcpError> {
    let printed = format!(in alloc; "{state}")?;
    Ok(printed.as_str() == text)
}

#[test]
fn a_state_with_a_lease_is_done_and_prints_its_address(rt: HostRuntime) {
    let state = done(rt.alloc()).expect(&rt, "memory");
    assert!(rt; state.is_done());
    assert!(rt; state.try_clone(rt.alloc()).expect(&rt, "memory") == state);
    assert!(rt; prints(rt.alloc(), state, "done(192.0.2.10)").expect(&rt, "memory"));
}

#[test]
fn the_other_states_print_as_their_names(rt: HostRuntime) {
    let alloc = rt.alloc();
    assert!(rt; !DhcpV4State::InitReboot.is_done());
    assert!(rt; prints(alloc, DhcpV4State::InitReboot, "init_reboot").expect(&rt, "memory"));
    assert!(rt; prints(alloc, DhcpV4State::Selecting, "selecting").expect(&rt, "memory"));
    assert!(rt; prints(alloc, DhcpV4State::Renewing, "renewing").expect(&rt, "memory"));
    assert!(rt; prints(alloc, DhcpV4State::Rebinding, "rebinding").expect(&rt, "memory"));
}

#[test]
fn the_default_state_is_the_search_for_servers(rt: HostRuntime) {
    assert!(rt; DhcpV4State::default() == DhcpV4State::InitReboot);
}
