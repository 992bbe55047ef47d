//! Leases, as they are read from messages.

use crate::reply::{
    ASSOCIATION, CLIENT, REPLY, SERVER, joined, lease_of, plain_lease, refusal, reply,
    reply_message,
};
use dhcp_wire::{DhcpError, ErrorKind};
use dhcp6_msg::{DhcpV6IaType, DhcpV6Lease, DhcpV6Message};
use std::alloc::Global;

// The bytes of the address that the plain Reply grants.
const ADDRESS: [u8; 16] = [0x20, 1, 0x0d, 0xb8, 0, 0, 0, 0, 0, 0, 0, 0, 0, 0, 0, 0x10];

// The lease of a Reply with four pieces of options.
fn lease(alloc: Global, options: [&[u8]; 4]) -> Result<Box<DhcpV6Lease>, DhcpError> {
    let [first, second, third, fourth] = options;
    let payload = joined(alloc, &[&REPLY, first, second, third, fourth])?;
    lease_of(alloc, payload.as_slice())
}

// T1, T2 and the two lifetimes of a lease.
fn times(lease: &DhcpV6Lease) -> (u32, u32, u32, u32) {
    (
        lease.t1_sec,
        lease.t2_sec,
        lease.preferred_time_sec,
        lease.valid_time_sec,
    )
}

#[test]
fn a_reply_grants_its_address_and_times(rt: HostRuntime) {
    let lease = plain_lease(rt.alloc()).expect(&rt, "answer");
    assert!(rt; times(&lease) == (50, 80, 100, 200));
    assert!(rt; lease.address.octets() == ADDRESS && lease.prefix_len == 128);
    assert!(rt; lease.ia_type == Some(DhcpV6IaType::NonTemporaryAddresses));
    assert!(rt; lease.are_times_in_order() && lease.is_within_limits());
}

// An IA_NA of 2001:db8::10 with these times: T1, T2, preferred and valid, below 256 each.
fn association(alloc: Global, times: [u8; 4]) -> Result<Box<DhcpV6Lease>, DhcpError> {
    let [t1, t2, preferred, valid] = times;
    let ia = [
        0, 3, 0, 40, 0, 0, 0, 9, 0, 0, 0, t1, 0, 0, 0, t2, 0, 5, 0, 24,
    ];
    let times = [0, 0, 0, preferred, 0, 0, 0, valid];
    lease(alloc, [&SERVER, &ia, &ADDRESS, &times])
}

#[test]
fn a_time_of_zero_is_left_to_the_client(rt: HostRuntime) {
    const CASES: [([u8; 4], (u32, u32, u32, u32)); 4] = [
        ([0, 0, 101, 200], (50, 75, 101, 200)),
        ([0, 90, 100, 200], (50, 90, 100, 200)),
        ([10, 0, 100, 200], (10, 75, 100, 200)),
        ([0, 0, 0, 200], (0, 0, 0, 200)),
    ];
    for &(said, wanted) in &CASES {
        assert!(rt; times(&association(rt.alloc(), said).expect(&rt, "memory")) == wanted);
    }
}

#[test]
fn a_message_without_server_or_association_or_with_a_failure_or_a_late_t1_gives_no_lease(
    rt: HostRuntime,
) {
    let invalid = Some(ErrorKind::InvalidDhcpMessage);
    let failed = [0, 13, 0, 2, 0, 2];
    let late_t1 = [0, 3, 0, 40, 0, 0, 0, 9, 0, 0, 0, 81, 0, 0, 0, 80];
    let rest = &ASSOCIATION[16..];
    let cases: [([&[u8]; 4], Option<ErrorKind>); 5] = [
        ([&CLIENT, &SERVER, &ASSOCIATION, &[]], None),
        ([&CLIENT, &ASSOCIATION, &[], &[]], invalid),
        ([&CLIENT, &SERVER, &[], &[]], invalid),
        (
            [&CLIENT, &SERVER, &ASSOCIATION, &failed],
            Some(ErrorKind::NoLease),
        ),
        ([&SERVER, &late_t1, rest, &[]], invalid),
    ];
    for (options, wanted) in cases {
        assert!(rt; refusal(lease(rt.alloc(), options)).expect(&rt, "answer") == wanted);
    }
}

// The lease of the plain Reply with an IA_PD that has failed.
fn lease_with_failed_prefix(alloc: Global) -> Result<Box<DhcpV6Lease>, DhcpError> {
    let failed = [0, 25, 0, 12, 0xc1, 0xdb, 0x20, 0x5c, 0, 0, 0, 0, 0, 0, 0, 0];
    lease(alloc, [&CLIENT, &SERVER, &ASSOCIATION, &failed])
}

#[test]
fn a_failed_association_gives_its_type_alone(rt: HostRuntime) {
    let lease = lease_with_failed_prefix(rt.alloc()).expect(&rt, "answer");
    assert!(rt; lease.ia_type == Some(DhcpV6IaType::PrefixDelegation));
    assert!(rt; lease.iaid == 0 && lease.address.octets() == ADDRESS && lease.prefix_len == 128);
}

#[test]
fn a_lease_keeps_the_options_of_its_message(rt: HostRuntime) {
    let lease = lease_with_failed_prefix(rt.alloc()).expect(&rt, "answer");
    assert!(rt; written(rt.alloc(), &lease, 23, &[]).expect(&rt, "memory"));
    assert!(rt; written(rt.alloc(), &lease, 2, &[&SERVER]).expect(&rt, "memory"));
}

// Whether the options of this code are written so; none if there is no such option.
fn written(
    alloc: Global,
    lease: &DhcpV6Lease,
    code: u16,
    wanted: &[&[u8]],
) -> Result<bool, DhcpError> {
    match lease.get_option_raw(alloc, code)? {
        Some(written) => Ok(are_equal(written.as_slice(), wanted)),
        None => Ok(wanted.is_empty()),
    }
}

// Whether one option is written, and as these bytes.
fn are_equal(written: &[Vec<u8>], wanted: &[&[u8]]) -> bool {
    match (written, wanted) {
        ([written], [wanted]) => written.as_slice() == *wanted,
        _ => false,
    }
}

#[test]
fn a_temporary_address_has_fixed_lifetimes(rt: HostRuntime) {
    let temporary = [0, 4, 0, 32, 0, 0, 0, 5, 0, 5, 0, 24];
    let lifetimes = [0, 0, 0, 1, 0, 0, 0, 2];
    let lease = lease(rt.alloc(), [&SERVER, &temporary, &ADDRESS, &lifetimes]).expect(
        &rt, "answer",
    );
    assert!(rt; times(&lease) == (0, 0, 86400, 604800));
    assert!(rt; lease.iaid == 5 && lease.prefix_len == 128);
}

// The lease of a Reply with an IA_PD of 56 bits.
fn prefix_lease(alloc: Global) -> Result<Box<DhcpV6Lease>, DhcpError> {
    let ia = [
        0, 25, 0, 41, 0, 0, 0, 6, 0, 0, 0, 0, 0, 0, 0, 0, 0, 26, 0, 25,
    ];
    let times = [0, 0, 0, 100, 0, 0, 0, 200, 56];
    lease(alloc, [&SERVER, &ia, &times, &ADDRESS])
}

#[test]
fn a_prefix_has_its_length(rt: HostRuntime) {
    let lease = prefix_lease(rt.alloc()).expect(&rt, "answer");
    assert!(rt; times(&lease) == (50, 75, 100, 200));
    assert!(rt; lease.iaid == 6 && lease.prefix_len == 56 && lease.address.octets() == ADDRESS);
    assert!(rt; lease.ia_type == Some(DhcpV6IaType::PrefixDelegation));
}

#[test]
fn a_truncated_reply_gives_no_lease(rt: HostRuntime) {
    let alloc = rt.alloc();
    let payload = reply(alloc).expect(&rt, "memory");
    for len in 0..payload.len() {
        let part = &payload.as_slice()[..len];
        let invalid = Some(ErrorKind::InvalidDhcpMessage);
        let unread = if len < 4 { invalid } else { None };
        assert!(rt;
            refusal(DhcpV6Message::parse(alloc, part)).expect(&rt, "answer") == unread,
            "{len}"
        );
        assert!(rt;
            refusal(lease_of(alloc, part)).expect(&rt, "answer") == invalid,
            "{len}"
        );
    }
}

#[test]
fn a_lease_is_equal_to_its_copy_and_to_that_of_a_message_that_stays(rt: HostRuntime) {
    let lease = plain_lease(rt.alloc()).expect(&rt, "answer");
    assert!(rt;
        is_copied(rt.alloc(), &lease).expect(&rt, "answer")
            && is_read_again(rt.alloc(), &lease).expect(&rt, "memory")
    );
}

// Whether a lease equals its copy.
fn is_copied(alloc: Global, lease: &DhcpV6Lease) -> Result<bool, DhcpError> {
    Ok(lease.try_clone(alloc)? == *lease)
}

// Whether a lease is that of the plain Reply, which stays.
fn is_read_again(alloc: Global, lease: &DhcpV6Lease) -> Result<bool, DhcpError> {
    let message = reply_message(alloc)?;
    Ok(DhcpV6Lease::new_from_msg(alloc, &message)? == *lease)
}
