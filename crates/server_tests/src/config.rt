//! The limits of a server's configuration.

use crate::messages::config;
use dhcp_wire::ErrorKind;
use dhcp4_server::{DhcpV4Server, ServerConfig};
use std::alloc::Global;
use std::net::Ipv4Addr;

// Whether a server refuses this configuration.
fn is_refused(alloc: Global, config: ServerConfig) -> bool {
    match DhcpV4Server::new(alloc, config) {
        Ok(_) => false,
        Err(error) => error.kind() == ErrorKind::InvalidArgument,
    }
}

// A configuration with a pool of so many addresses from this one on.
fn with_pool(first: Ipv4Addr, count: u32) -> ServerConfig {
    ServerConfig {
        first,
        count,
        ..config(1)
    }
}

#[test]
fn a_pool_has_1_to_65536_addresses(rt: HostRuntime) {
    for (count, refused) in [(0, true), (1, false), (65_536, false), (65_537, true)] {
        assert!(rt; is_refused(rt.alloc(), config(count)) == refused, "{count}");
    }
}

#[test]
fn a_pool_ends_at_the_last_address(rt: HostRuntime) {
    let last = Ipv4Addr::BROADCAST;
    assert!(rt; !is_refused(rt.alloc(), with_pool(last, 1)));
    assert!(rt; is_refused(rt.alloc(), with_pool(last, 2)));
}

#[test]
fn a_lease_lasts(rt: HostRuntime) {
    let none = ServerConfig {
        lease_sec: 0,
        ..config(1)
    };
    assert!(rt; is_refused(rt.alloc(), none));
}

#[test]
fn the_bound_is_below_2_to_the_40(rt: HostRuntime) {
    for (bound_ms, refused) in [((1u64 << 40) - 1, false), (1u64 << 40, true)] {
        let bounded = ServerConfig {
            bound_ms,
            ..config(1)
        };
        assert!(rt; is_refused(rt.alloc(), bounded) == refused, "{bound_ms}");
    }
}
