//! Classless routes.

use dhcp_wire::{Buffer, BufferMut};
use dhcp4_msg::{DhcpV4ClasslessRoute, DhcpV4Options};
use std::net::Ipv4Addr;

#[test]
fn without_option_121_the_routes_are_those_of_249(rt: HostRuntime) {
    let bytes = [0xf9, 8, 0x18, 0xcb, 0, 0x71, 0xc0, 0, 2, 0x28, 255];
    let options = DhcpV4Options::parse(rt.alloc(), &bytes).expect(&rt, "answer");
    let routes = options
        .classless_routes(rt.alloc())
        .expect(&rt, "answer")
        .expect(&rt, "none");
    assert!(rt; routes.len() == 1);
    let raw = options
        .get_data_raw(rt.alloc(), 249)
        .expect(&rt, "answer")
        .expect(&rt, "none");
    assert!(rt; Some(raw.as_slice()) == bytes.get(..10));
}

// A route by 192.0.2.1.
fn route(destination: [u8; 4], prefix_length: u8) -> DhcpV4ClasslessRoute {
    DhcpV4ClasslessRoute {
        destination: Ipv4Addr::from(destination),
        prefix_length,
        router: Ipv4Addr::new(192, 0, 2, 1),
    }
}

#[test]
fn routes_of_249_do_not_count_beside_those_of_121(rt: HostRuntime) {
    let bytes = [
        0x79, 6, 8, 10, 192, 0, 2, 1, 0xf9, 8, 24, 203, 0, 113, 192, 0, 2, 1, 255,
    ];
    let options = DhcpV4Options::parse(rt.alloc(), &bytes).expect(&rt, "answer");
    let routes = options
        .classless_routes(rt.alloc())
        .expect(&rt, "answer")
        .expect(&rt, "none");
    assert!(rt; routes.as_slice() == [route([10, 0, 0, 0], 8)].as_slice());
}

#[test]
fn routes_read_and_are_written_as_the_same_bytes(rt: HostRuntime) {
    let cases: [(&[u8], DhcpV4ClasslessRoute); 2] = [
        (
            &[24, 203, 0, 113, 192, 0, 2, 1],
            route([203, 0, 113, 0], 24),
        ),
        (&[40, 192, 0, 2, 5, 192, 0, 2, 1], route([192, 0, 2, 5], 40)),
    ];
    for (bytes, expected) in cases {
        let read = DhcpV4ClasslessRoute::parse(&mut Buffer::new(bytes)).expect(&rt, "answer");
        assert!(rt; read == expected);
        let mut written = BufferMut::new(rt.alloc());
        read.emit(&mut written).expect(&rt, "memory");
        assert!(rt; written.bytes() == bytes);
    }
}

#[test]
fn routes_are_ordered_by_destination_then_by_prefix_length(rt: HostRuntime) {
    assert!(rt; route([10, 0, 0, 0], 24) < route([10, 0, 0, 1], 8));
    assert!(rt; route([10, 0, 0, 0], 8) < route([10, 0, 0, 0], 24));
}

// A route by 10.0.0.x.
fn route_by(router: u8, destination: [u8; 4], prefix_length: u8) -> DhcpV4ClasslessRoute {
    DhcpV4ClasslessRoute {
        destination: Ipv4Addr::from(destination),
        prefix_length,
        router: Ipv4Addr::new(10, 0, 0, router),
    }
}

#[test]
fn routes_are_ordered_by_router_last(rt: HostRuntime) {
    assert!(rt; route_by(2, [10, 0, 0, 0], 8) < route_by(1, [10, 0, 0, 0], 24));
    assert!(rt; route_by(2, [10, 0, 0, 0], 8) < route_by(1, [10, 0, 0, 1], 8));
    assert!(rt; route_by(1, [10, 0, 0, 0], 8) < route_by(2, [10, 0, 0, 0], 8));
}
