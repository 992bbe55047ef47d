//! Fields in network byte order, and reads that leave the position.

use dhcp_wire::{Buffer, BufferMut, DhcpError, ErrorKind, ipv6_address_in, ipv6_addresses_in};
use std::alloc::Global;
use std::net::{Ipv4Addr, Ipv6Addr};
use std::test::Fail;

// Whether a call was refused because bytes are missing or are no text.
fn is_refused<T: Drop>(answer: Result<T, DhcpError>) -> bool {
    match answer {
        Ok(_) => false,
        Err(error) => error.kind() == ErrorKind::InvalidDhcpMessage,
    }
}

// Each field, written.
fn written_fields(alloc: Global) -> Result<BufferMut, DhcpError> {
    let mut fields = BufferMut::with_capacity(alloc, 13)?;
    fields.write_u8(0x01)?;
    fields.write_u16_be(0x0203)?;
    fields.write_u32_be(0x04050607)?;
    fields.write_ipv4(Ipv4Addr::new(192, 0, 2, 1))?;
    fields.reserve(6)?;
    fields.write_bytes(&[8])?;
    fields.write_string_without_null("a")?;
    fields.write_string_with_null("b", 3)?;
    Ok(fields)
}

// The bytes of these fields.
const FIELDS: [u8; 16] = [1, 2, 3, 4, 5, 6, 7, 192, 0, 2, 1, 8, b'a', b'b', 0, 0];

#[test]
fn fields_are_written_in_network_order(rt: HostRuntime) {
    let fields = written_fields(rt.alloc()).expect(&rt, "memory");
    assert!(rt; fields.bytes() == FIELDS.as_slice());
    assert!(rt; fields.len() == 16);
    assert!(rt; fields.into_bytes().as_slice() == FIELDS.as_slice());
}

// The numbers and the address of these fields.
fn read_numbers(left: &mut Buffer) -> Result<(u8, u16, u32, Ipv4Addr), DhcpError> {
    let first = left.get_u8()?;
    let second = left.get_u16_be()?;
    let third = left.get_u32_be()?;
    Ok((first, second, third, left.get_ipv4()?))
}

#[test]
fn fields_are_read_in_network_order(rt: HostRuntime) {
    let mut left = Buffer::new(&FIELDS);
    let numbers = read_numbers(&mut left).expect(&rt, "reads");
    assert!(rt; numbers == (0x01, 0x0203, 0x04050607, Ipv4Addr::new(192, 0, 2, 1)));
    assert!(rt; left.get_bytes(1).expect(&rt, "reads") == [8].as_slice());
    assert!(rt; left.get_remains() == b"ab\0\0".as_slice());
    assert!(rt;
        left.get_string_with_null(rt.alloc(), 4)
            .expect(&rt, "reads")
            .as_str()
            == "ab"
    );
    assert!(rt; left.is_empty());
}

#[test]
fn a_text_is_cut_one_byte_before_its_field_ends(rt: HostRuntime) {
    const TABLE: [(&str, usize, &[u8]); 5] = [
        ("", 1, b"\0"),
        ("abc", 1, b"\0"),
        ("abc", 3, b"ab\0"),
        ("abc", 4, b"abc\0"),
        ("abc", 6, b"abc\0\0\0"),
    ];
    for &(text, size, bytes) in &TABLE {
        let mut written = BufferMut::new(rt.alloc());
        written
            .write_string_with_null(text, size.max(1))
            .expect(&rt, "memory");
        assert!(rt; written.bytes() == bytes, "{text} in {size} bytes");
    }
}

#[test]
fn reads_past_the_end_do_not_move_the_position(rt: HostRuntime) {
    let mut left = Buffer::new(&[1, 2, 3]);
    assert!(rt; is_refused(left.get_u32_be()));
    assert!(rt; is_refused(left.get_ipv4()));
    assert!(rt; is_refused(left.get_bytes(4)));
    assert!(rt; is_refused(left.get_str_with_null(4)));
    assert!(rt; left.remain_len() == 3);
}

#[test]
fn a_text_that_is_not_utf8_is_refused_and_skipped(rt: HostRuntime) {
    let mut left = Buffer::new(&[0xff, 0, 0, 0, b'a', 0, 0xff, 7]);
    assert!(rt; is_refused(left.get_string_with_null(rt.alloc(), 4)));
    assert!(rt; left.get_str_with_null(3).expect(&rt, "reads") == "a");
    assert!(rt; left.get_remains() == [7].as_slice());
}

// The bytes of a number and of an address.
const SIXTEEN: [u8; 32] = [
    0, 1, 2, 3, 4, 5, 6, 7, 8, 9, 10, 11, 12, 13, 14, 15, 0x20, 1, 0x0d, 0xb8, 0, 0, 0, 0, 0, 0, 0,
    0, 0, 0, 0, 0x10,
];

const NUMBER: u128 = 0x000102030405060708090a0b0c0d0e0f;

fn address() -> Ipv6Addr {
    Ipv6Addr::new(0x2001, 0x0db8, 0, 0, 0, 0, 0, 0x10)
}

#[test]
fn sixteen_bytes_are_written_in_network_order(rt: HostRuntime) {
    let mut written = BufferMut::new(rt.alloc());
    written.write_u128_be(NUMBER).expect(&rt, "memory");
    written.write_ipv6(address()).expect(&rt, "memory");
    assert!(rt; written.bytes() == SIXTEEN.as_slice());
}

#[test]
fn sixteen_bytes_are_read_in_network_order(rt: HostRuntime) {
    let mut left = Buffer::new(&SIXTEEN);
    assert!(rt; left.get_u128_be().expect(&rt, "reads") == NUMBER);
    assert!(rt; left.get_ipv6().expect(&rt, "reads") == address());
    assert!(rt; left.is_empty());
}

#[test]
fn fewer_than_sixteen_bytes_are_refused(rt: HostRuntime) {
    let mut left = Buffer::new(&SIXTEEN[..15]);
    assert!(rt; is_refused(left.get_u128_be()));
    assert!(rt; is_refused(left.get_ipv6()));
    assert!(rt; is_refused(ipv6_address_in(&SIXTEEN[..15])));
    assert!(rt; left.remain_len() == 15);
}

#[test]
fn an_array_is_read_whole_or_not_at_all(rt: HostRuntime) {
    let mut left = Buffer::new(&SIXTEEN[..3]);
    let two: [u8; 2] = left.get_array().expect(&rt, "reads");
    assert!(rt; two.as_slice() == &SIXTEEN[..2]);
    assert!(rt; is_refused(left.get_array::<2>()));
    assert!(rt; left.remain_len() == 1);
}

#[test]
fn addresses_are_whole_groups_of_sixteen_bytes(rt: HostRuntime) {
    let addresses = ipv6_addresses_in(rt.alloc(), &SIXTEEN[16..]).expect(&rt, "reads");
    assert!(rt; addresses.as_slice() == [address()].as_slice());
    assert!(rt;
        ipv6_addresses_in(rt.alloc(), &SIXTEEN[..31])
            .expect(&rt, "reads")
            .len()
            == 1
    );
}

#[test]
fn a_peek_leaves_the_position(rt: HostRuntime) {
    let left = Buffer::new(&[1, 2, 3, 4]);
    assert!(rt; left.peek_u16_be().expect(&rt, "reads") == 0x0102);
    assert!(rt; left.peek_u16_be_offset(2).expect(&rt, "reads") == 0x0304);
    assert!(rt; left.peek_bytes(3).expect(&rt, "reads") == [1, 2, 3].as_slice());
    assert!(rt; left.remain_len() == 4);
}

#[test]
fn a_peek_past_the_end_is_refused(rt: HostRuntime) {
    let left = Buffer::new(&[1, 2, 3, 4]);
    assert!(rt; is_refused(left.peek_u16_be_offset(3)));
    assert!(rt; is_refused(left.peek_u16_be_offset(usize::MAX)));
    assert!(rt; is_refused(left.peek_bytes(5)));
}

#[test]
fn a_text_without_null_is_all_its_bytes(rt: HostRuntime) {
    let mut left = Buffer::new(b"a\0b\xff");
    assert!(rt;
        left.get_string_without_null(rt.alloc(), 3)
            .expect(&rt, "reads")
            .as_str()
            == "a\0b"
    );
    assert!(rt; is_refused(left.get_str_without_null(2)));
    assert!(rt; left.remain_len() == 1);
    assert!(rt; is_refused(left.get_str_without_null(1)));
    assert!(rt; left.is_empty());
}

// One of the writers, each of which allocates.
fn write_one(writer: usize, written: &mut BufferMut) -> Result<(), DhcpError> {
    match writer {
        0 => written.write_u8(1),
        1 => written.write_u16_be(1),
        2 => written.write_u32_be(1),
        3 => written.write_ipv4(Ipv4Addr::new(192, 0, 2, 1)),
        4 => written.write_bytes(&[1, 2, 3]),
        5 => written.write_string_without_null("ab"),
        6 => written.reserve(16),
        _ => written.write_string_with_null("ab", 16),
    }
}

#[test]
fn out_of_memory_leaves_what_was_written(rt: HostRuntime) -> Result<(), Fail> {
    for writer in 0..8 {
        // As many bytes as the first growth has room for, so that the writer has to grow again.
        let mut written = BufferMut::new(rt.alloc());
        written.write_bytes(&[9; 8])?;
        if let Err(error) = write_one(writer, &mut written) {
            assert!(rt; written.bytes() == [9; 8].as_slice(), "by writer {writer}");
            Err(error)?;
        }
    }
    Ok(())
}

#[test]
fn out_of_memory_leaves_the_position(rt: HostRuntime) -> Result<(), Fail> {
    let mut left = Buffer::new(&[b'a', 0, 7]);
    if let Err(error) = left.get_string_with_null(rt.alloc(), 2) {
        assert!(rt; left.remain_len() == 3);
        Err(error)?;
    }
    assert!(rt; left.get_remains() == [7].as_slice());
    Ok(())
}
