//! A lease that is held, and what is heard of it.

use crate::boxed::boxed;
use dhcp4_client::DhcpV4State;
use dhcp4_lease::DhcpV4Lease;
use std::alloc::Global;
use uses::{QueueLink, SystemWords, end_of_lease, hear, new_client};

// A lease of 100 seconds.
fn lease(alloc: Global) -> DhcpV4Lease {
    let mut lease = DhcpV4Lease::empty(alloc);
    lease.t1_sec = 50;
    lease.t2_sec = 80;
    lease.lease_time_sec = 100;
    lease
}

#[test]
fn a_lease_that_is_held_has_an_end_and_is_renewed(rt: HostRuntime) {
    let alloc = rt.alloc();
    let mut words = SystemWords {
        left: Vec::new(alloc),
    };
    let mut client = boxed(&rt, alloc, new_client(alloc, &mut words));
    client
        .done(lease(alloc), 1_000)
        .expect(&rt, "times in order");
    assert!(rt; end_of_lease(&client) == Some(101_000));
    let heard = hear(&mut *client, 51_000, &mut words, &mut QueueLink::new(alloc));
    assert!(rt; heard.expect(&rt, "answer") == Some(DhcpV4State::Renewing));
}
