//! Leases, as they are read from messages.

use dhcp_clock::{WordList, Words};
use dhcp_wire::{DhcpError, ErrorKind, FixedText, Sequence, Text, boxed};
use dhcp4_lease::DhcpV4Lease;
use dhcp4_msg::{DhcpV4ClasslessRoute, DhcpV4Message, DhcpV4Options};
use std::alloc::Global;
use std::net::Ipv4Addr;

// What no case has as a word.
const UNTOUCHED: u32 = 77;

// A message with these options.
fn message(alloc: Global, options: &[u8]) -> Result<DhcpV4Message, DhcpError> {
    let mut message = DhcpV4Message::empty(alloc);
    message.yiaddr = Ipv4Addr::new(192, 0, 2, 10);
    message.options = DhcpV4Options::parse(alloc, options)?;
    Ok(message)
}

// The lease of a message with these options; these words are drawn for it and no more.
fn lease(alloc: Global, options: &[u8], words: &[u32]) -> Result<Box<DhcpV4Lease>, DhcpError> {
    let mut listed = Vec::from_slice(alloc, words)?;
    listed.push(UNTOUCHED)?;
    let mut list = WordList::new(listed);
    let lease = drawn_lease(alloc, options, &mut list)?;
    if list.next_word() != UNTOUCHED {
        return Err(DhcpError::new_fixed(ErrorKind::Bug, FixedText::Lease));
    }
    Ok(lease)
}

// The lease of a message with these options, for which words are drawn of this list.
fn drawn_lease(
    alloc: Global,
    options: &[u8],
    words: &mut WordList,
) -> Result<Box<DhcpV4Lease>, DhcpError> {
    let message = message(alloc, options)?;
    boxed(alloc, DhcpV4Lease::new_from_msg(alloc, &message, words))
}

// T1, T2 and the end of a lease.
fn times(lease: &DhcpV4Lease) -> (u32, u32, u32) {
    (lease.t1_sec, lease.t2_sec, lease.lease_time_sec)
}

// Those of the lease of a message with these options, for which these words are drawn.
fn times_of(alloc: Global, options: &[u8], words: &[u32]) -> Result<(u32, u32, u32), DhcpError> {
    let lease = lease(alloc, options, words)?;
    Ok(times(&lease))
}

// Whether a list is there and has this address alone.
fn is_just(list: &Option<Sequence<Ipv4Addr>>, address: Ipv4Addr) -> bool {
    match list {
        Some(list) => list.as_slice() == [address].as_slice(),
        None => false,
    }
}

// Whether a text is there and is this one.
fn says(text: &Option<Text>, wanted: &str) -> bool {
    match text {
        Some(text) => text.as_str() == wanted,
        None => false,
    }
}

#[test]
fn times_are_those_said_or_drawn_about_half_and_seven_eighths(rt: HostRuntime) {
    const SAID: [u8; 18] = [
        0x33, 4, 0, 0, 0, 100, 0x3a, 4, 0, 0, 0, 30, 0x3b, 4, 0, 0, 0, 60,
    ];
    const ENDLESS: [u8; 6] = [0x33, 4, 255, 255, 255, 255];
    const CASES: [(&[u8], &[u32], (u32, u32, u32)); 5] = [
        (&[0x33, 4, 0, 0, 0, 100], &[0, 3], (48, 88, 100)),
        (&SAID, &[], (30, 60, 100)),
        (&[0x33, 4, 0, 0, 0, 39], &[0], (19, 32, 39)),
        (&ENDLESS, &[0, 0], (2147483645, 3758096381, u32::MAX)),
        (&ENDLESS, &[3, 3], (2147483648, 3758096384, u32::MAX)),
    ];
    for &(options, words, wanted) in &CASES {
        assert!(rt; times_of(rt.alloc(), options, words).expect(&rt, "answer") == wanted);
    }
}

// The error of the read of a message with these options, if there is one.
fn refusal(alloc: Global, options: &[u8]) -> Result<Option<ErrorKind>, DhcpError> {
    let mut words = WordList::new(Vec::new(alloc));
    let message = message(alloc, options)?;
    refusal_of(DhcpV4Lease::new_from_msg(alloc, &message, &mut words))
}

// How an answer is refused, if it is; out of memory is an error.
fn refusal_of<T: Drop>(answer: Result<T, DhcpError>) -> Result<Option<ErrorKind>, DhcpError> {
    match answer {
        Ok(_answer) => Ok(None),
        Err(error) if error.kind() == ErrorKind::OutOfMemory => Err(error),
        Err(error) => Ok(Some(error.kind())),
    }
}

#[test]
fn a_message_without_a_lease_time_or_out_of_order_is_refused(rt: HostRuntime) {
    const CASES: [&[u8]; 3] = [
        &[0x35, 1, 5],
        &[
            0x33, 4, 0, 0, 0, 100, 0x3a, 4, 0, 0, 0, 61, 0x3b, 4, 0, 0, 0, 60,
        ],
        &[
            0x33, 4, 0, 0, 0, 59, 0x3a, 4, 0, 0, 0, 30, 0x3b, 4, 0, 0, 0, 60,
        ],
    ];
    for &options in &CASES {
        let kind = refusal(rt.alloc(), options).expect(&rt, "answer");
        assert!(rt; kind == Some(ErrorKind::InvalidDhcpMessage));
    }
}

// The options of a usual server's acknowledgement; their lease draws no word.
const USUAL: [u8; 66] = [
    0x35, 1, 5, 0x36, 4, 192, 0, 2, 1, 0x33, 4, 0, 0, 0x0e, 0x10, 0x3a, 4, 0, 0, 7, 8, 0x3b, 4, 0,
    0, 0x0c, 0x4e, 1, 4, 255, 255, 255, 0, 0x1c, 4, 192, 0, 2, 255, 3, 4, 192, 0, 2, 1, 6, 4, 192,
    0, 2, 1, 0x0c, 3, 0x66, 0x6f, 0x6f, 0x0f, 3, 0x6c, 0x61, 0x6e, 255, 0, 0, 0, 0,
];

// The lease of those options.
fn usual_lease(alloc: Global) -> Result<Box<DhcpV4Lease>, DhcpError> {
    lease(alloc, &USUAL, &[])
}

// The same lease, of a message that is moved into it.
fn moved_lease(alloc: Global) -> Result<DhcpV4Lease, DhcpError> {
    let mut words = WordList::new(Vec::new(alloc));
    DhcpV4Lease::from_message(alloc, message(alloc, &USUAL)?, &mut words)
}

// Whether a lease is equal to that one.
fn is_moved(alloc: Global, lease: &DhcpV4Lease) -> Result<bool, DhcpError> {
    Ok(moved_lease(alloc)? == *lease)
}

#[test]
fn the_acknowledgement_of_a_usual_server_has_its_times_and_width(rt: HostRuntime) {
    let lease = usual_lease(rt.alloc()).expect(&rt, "answer");
    assert!(rt; times(&lease) == (1800, 3150, 3600));
    assert!(rt; lease.prefix_length() == 24);
}

#[test]
fn the_acknowledgement_of_a_usual_server_has_its_addresses(rt: HostRuntime) {
    let lease = usual_lease(rt.alloc()).expect(&rt, "answer");
    let server = Ipv4Addr::new(192, 0, 2, 1);
    assert!(rt; lease.srv_id == server);
    assert!(rt; lease.broadcast_addr == Some(Ipv4Addr::new(192, 0, 2, 255)));
    assert!(rt; is_just(&lease.gateways, server));
    assert!(rt; is_just(&lease.dns_srvs, server));
}

#[test]
fn the_acknowledgement_of_a_usual_server_has_its_names(rt: HostRuntime) {
    let lease = usual_lease(rt.alloc()).expect(&rt, "answer");
    assert!(rt; says(&lease.host_name, "foo"));
    assert!(rt; says(&lease.domain_name, "lan"));
}

#[test]
fn a_message_may_be_moved_into_its_lease(rt: HostRuntime) {
    let lease = usual_lease(rt.alloc()).expect(&rt, "answer");
    assert!(rt; lease.are_times_in_order());
    assert!(rt; is_moved(rt.alloc(), &lease).expect(&rt, "memory"));
}

// Whether a copy of a lease is equal to it.
fn is_copied(alloc: Global, lease: &DhcpV4Lease) -> Result<bool, DhcpError> {
    Ok(lease.try_clone(alloc)? == *lease)
}

#[test]
fn a_copy_of_a_lease_is_equal_to_it(rt: HostRuntime) {
    let lease = usual_lease(rt.alloc()).expect(&rt, "answer");
    assert!(rt; is_copied(rt.alloc(), &lease).expect(&rt, "memory"));
}

// The lease of a message with routes in option 249.
fn routed_lease(alloc: Global) -> Result<Box<DhcpV4Lease>, DhcpError> {
    let options = [
        0x33, 4, 0, 0, 0, 39, 0xf9, 8, 0x18, 0xcb, 0, 0x71, 0xc0, 0, 2, 0x28,
    ];
    lease(alloc, &options, &[0])
}

#[test]
fn option_249_is_written_again(rt: HostRuntime) {
    let lease = routed_lease(rt.alloc()).expect(&rt, "answer");
    let raw = lease
        .get_option_raw(rt.alloc(), 249)
        .expect(&rt, "answer")
        .expect(&rt, "no option 249");
    let wanted = [0xf9, 8, 0x18, 0xcb, 0, 0x71, 0xc0, 0, 2, 0x28];
    assert!(rt; raw.as_slice() == wanted.as_slice());
}

#[test]
fn option_249_is_read_as_routes(rt: HostRuntime) {
    let lease = routed_lease(rt.alloc()).expect(&rt, "answer");
    let routes = lease.classless_routes.as_ref().expect(&rt, "no routes");
    let route = DhcpV4ClasslessRoute {
        destination: Ipv4Addr::new(203, 0, 113, 0),
        prefix_length: 24,
        router: Ipv4Addr::new(192, 0, 2, 40),
    };
    assert!(rt; routes.as_slice() == [route].as_slice());
}

#[test]
fn the_prefix_of_a_mask_is_its_one_bits(rt: HostRuntime) {
    let empty = DhcpV4Lease::empty(rt.alloc());
    let mut lease = Box::new(rt.alloc(), empty).expect(&rt, "memory");
    assert!(rt; lease.prefix_length() == 0);
    lease.subnet_mask = Ipv4Addr::new(255, 255, 255, 224);
    assert!(rt; lease.prefix_length() == 27);
    // The one bits count wherever they stand.
    lease.subnet_mask = Ipv4Addr::new(255, 0, 255, 0);
    assert!(rt; lease.prefix_length() == 16);
}
