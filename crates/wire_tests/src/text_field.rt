//! Fields of texts.

use dhcp_stream::{
    ReadError, TextReader, codes_field, hex_field, ipv4_field, ipv6_field, mac_field, number_field,
    push_octets, words_field,
};
use std::net::{Ipv4Addr, Ipv6Addr};

#[test]
fn hex_is_read_in_lower_case_pairs(rt: HostRuntime) {
    const CASES: [(&[u8], &[u8]); 3] = [(b"-", b""), (b"00", b"\0"), (b"09afff", b"\x09\xaf\xff")];
    for &(field, want) in &CASES {
        let bytes = hex_field(rt.alloc(), field)
            .expect(&rt, "memory")
            .expect(&rt, "reads");
        assert!(rt; bytes.as_slice() == want);
    }
}

#[test]
fn other_texts_are_no_hex(rt: HostRuntime) {
    const FIELDS: [&str; 9] = ["", "0", "000", "FF", "0g", "--", "-0", " 00", "0:"];
    for field in &FIELDS {
        assert!(rt;
            hex_field(rt.alloc(), field.as_bytes())
                .expect(&rt, "memory")
                .is_none(),
            "{field}"
        );
    }
}

#[test]
fn octets_are_put_as_two_digits_each(rt: HostRuntime) {
    for count in [0, 1, 64, 65, 200] {
        let octets = vec![in rt.alloc(); 0x0au8; count].expect(&rt, "memory");
        let digits = "0a".repeat(rt.alloc(), count).expect(&rt, "memory");
        let mut text = String::new(rt.alloc());
        push_octets(&mut text, &octets).expect(&rt, "memory");
        assert!(rt; text.as_str() == digits.as_str());
    }
}

#[test]
fn a_mac_address_is_six_bytes_in_hex(rt: HostRuntime) {
    const FIELDS: [&str; 6] = [
        "",
        "-",
        "0200000000",
        "02000000000a0b",
        "02000000000A",
        "0200000000g0",
    ];
    assert!(rt; mac_field(b"02000000000a") == Some([2, 0, 0, 0, 0, 10]));
    for field in &FIELDS {
        assert!(rt; mac_field(field.as_bytes()).is_none(), "{field}");
    }
}

#[test]
fn words_are_read_from_eight_digits_each(rt: HostRuntime) {
    let words = words_field(rt.alloc(), b"12345678ffffffff")
        .expect(&rt, "memory")
        .expect(&rt, "reads");
    assert!(rt; words.as_slice() == [0x12345678u32, 0xffffffff].as_slice());
    for field in ["1234567", "123456"] {
        assert!(rt;
            words_field(rt.alloc(), field.as_bytes())
                .expect(&rt, "memory")
                .is_none(),
            "{field}"
        );
    }
}

#[test]
fn codes_are_read_from_four_digits_each(rt: HostRuntime) {
    let codes = codes_field(rt.alloc(), b"0017ffff")
        .expect(&rt, "memory")
        .expect(&rt, "reads");
    assert!(rt; codes.as_slice() == [0x17u16, 0xffff].as_slice());
    assert!(rt;
        codes_field(rt.alloc(), b"001700")
            .expect(&rt, "memory")
            .is_none()
    );
}

#[test]
fn ipv6_addresses_are_32_lower_case_digits(rt: HostRuntime) {
    const FIELDS: [&str; 7] = [
        "",
        "-",
        "fe80::a",
        "fe8000000000000000000000000000a",
        "fe80000000000000000000000000000a0",
        "fe80000000000000000000000000000A",
        "fe80000000000000000000000000000g",
    ];
    let address = Ipv6Addr::new(0xfe80, 0, 0, 0, 0, 0, 0, 0xa);
    assert!(rt; ipv6_field(b"fe80000000000000000000000000000a") == Some(address));
    for field in &FIELDS {
        assert!(rt; ipv6_field(field.as_bytes()).is_none(), "{field}");
    }
}

#[test]
fn numbers_are_decimal_without_leading_zeros(rt: HostRuntime) {
    const CASES: [(&str, u64, Option<u64>); 6] = [
        ("0", 0, Some(0)),
        ("255", 255, Some(255)),
        ("256", 255, None),
        ("18446744073709551615", u64::MAX, Some(u64::MAX)),
        ("18446744073709551616", u64::MAX, None),
        ("100000000000000000000", u64::MAX, None),
    ];
    const OTHERS: [&str; 12] = [
        "", "00", "07", "+7", "-7", "-0", " 7", "7 ", "7a", "0x7", "7.0", "\u{0667}",
    ];
    for &(field, max, want) in &CASES {
        assert!(rt;
            number_field(field.as_bytes(), max) == want,
            "{field} {max}"
        );
    }
    for field in &OTHERS {
        assert!(rt; number_field(field.as_bytes(), 99) == None, "{field}");
    }
}

#[test]
fn addresses_are_four_numbers_with_dots_between_them(rt: HostRuntime) {
    const CASES: [(&str, [u8; 4]); 3] = [
        ("0.0.0.0", [0, 0, 0, 0]),
        ("192.0.2.10", [192, 0, 2, 10]),
        ("255.255.255.255", [255, 255, 255, 255]),
    ];
    const OTHERS: [&str; 16] = [
        "",
        "1.2.3",
        "1.2.3.4.5",
        "1.2.3.256",
        "1.2.3.1000",
        "1.2.3.04",
        "00.2.3.4",
        "+1.2.3.4",
        "-1.2.3.4",
        "1..3.4",
        ".1.2.3.4",
        "1.2.3.4.",
        "1.2.3.4 ",
        "1,2,3,4",
        "a.2.3.4",
        "3232235786",
    ];
    for &(field, octets) in &CASES {
        assert!(rt;
            ipv4_field(field.as_bytes()) == Some(Ipv4Addr::from(octets)),
            "{field}"
        );
    }
    for field in &OTHERS {
        assert!(rt; ipv4_field(field.as_bytes()) == None, "{field}");
    }
}

#[test]
fn a_text_is_read_from_its_front(rt: HostRuntime) {
    let mut text = TextReader::new(b"at 7 8 192.0.2.1 02000000000a 00ff -\n");
    assert!(rt; !text.skip(b"end"));
    assert!(rt; text.tag(b"at ") == Ok(()));
    assert!(rt; text.number(7, b' ') == Ok(7));
    assert!(rt; text.u32(b' ') == Ok(8));
    assert!(rt; text.ipv4(b' ') == Ok(Ipv4Addr::new(192, 0, 2, 1)));
    assert!(rt; text.mac(b' ') == Ok([2, 0, 0, 0, 0, 10]));
    assert!(rt; text.field(b' ') == Ok(b"00ff".as_slice()));
    assert!(rt; text.field(b' ') == Err(ReadError::Malformed));
    assert!(rt; !text.is_at_end());
}
