//! Values, and MAC addresses as texts.

use dhcp_wire::{address_in, addresses_in, none_if_refused, parse_mac, text_in, u8_in, u32_in};
use std::net::Ipv4Addr;

#[test]
fn mac_addresses_are_hex_bytes_between_colons(rt: HostRuntime) {
    const TABLE: [(&str, &[u8]); 5] = [
        ("01:02:2a:2c:f7:04", &[0x01, 0x02, 0x2a, 0x2c, 0xf7, 0x04]),
        ("000ff", &[255]),
        ("+1:+fF", &[1, 255]),
        ("0", &[0]),
        ("DE:ad:Be", &[0xde, 0xad, 0xbe]),
    ];
    for &(text, bytes) in &TABLE {
        assert!(rt;
            parse_mac(rt.alloc(), text).expect(&rt, "reads").as_slice() == bytes,
            "at {text}"
        );
    }
}

#[test]
fn other_texts_are_no_mac_address(rt: HostRuntime) {
    const TABLE: [&str; 12] = [
        "", "1:g", "1::2", "1:", ":1", "100", "++1", "+", "-1", " 1", "1-2", "1: 2",
    ];
    for &text in &TABLE {
        assert!(rt;
            none_if_refused(parse_mac(rt.alloc(), text))
                .expect(&rt, "memory")
                .is_none(),
            "at {text}"
        );
    }
}

#[test]
fn values_are_read_from_their_front(rt: HostRuntime) {
    let value = [192, 0, 2, 1, 9];
    assert!(rt; u8_in(&value).expect(&rt, "reads") == 192);
    assert!(rt; u32_in(&value).expect(&rt, "reads") == 0xc0000201);
    assert!(rt; address_in(&value).expect(&rt, "reads") == Ipv4Addr::new(192, 0, 2, 1));
    assert!(rt;
        addresses_in(rt.alloc(), &value)
            .expect(&rt, "reads")
            .as_slice()
            == [address_in(&value).expect(&rt, "reads")].as_slice()
    );
    assert!(rt; text_in(rt.alloc(), b"ab\0c").expect(&rt, "reads").as_str() == "ab");
}
