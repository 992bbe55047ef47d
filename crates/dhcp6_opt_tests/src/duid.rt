//! Identifiers, as they stand on the wire and as they are made.

use crate::option::is_copied;
use dhcp_clock::WordList;
use dhcp_wire::{BufferMut, Bytes, DhcpError, ErrorKind};
use dhcp6_opt::{
    DhcpV6Duid, DhcpV6DuidEnterpriseNumber, DhcpV6DuidLinkLayerAddr,
    DhcpV6DuidLinkLayerAddrPlusTime,
};
use std::alloc::Global;

// The bytes of an identifier.
fn bytes_of(alloc: Global, duid: DhcpV6Duid) -> Result<Bytes, DhcpError> {
    let mut buf = BufferMut::new(alloc);
    duid.emit(&mut buf)?;
    Ok(buf.into_bytes())
}

// Identifiers as they stand on the wire, and whether their types have names.
const DUIDS: [(&[u8], bool); 6] = [
    (&[0, 1, 0, 1, 0x30, 0x7a, 0x70, 0xb8, 0x72, 7], true),
    (&[0, 2, 0, 0, 0, 9, 0xab], true),
    (&[0, 3, 0, 1, 0xd2, 0xfd, 0xf9, 0xb4, 0x48, 0xb7], true),
    (
        &[0, 4, 1, 2, 3, 4, 5, 6, 7, 8, 9, 10, 11, 12, 13, 14, 15, 16],
        true,
    ),
    (
        &[0, 4, 1, 2, 3, 4, 5, 6, 7, 8, 9, 10, 11, 12, 13, 14, 15],
        false,
    ),
    (&[0, 3], false),
];

#[test]
fn identifiers_are_written_as_they_were_read(rt: HostRuntime) {
    for &(bytes, has_name) in &DUIDS {
        let duid = DhcpV6Duid::parse(rt.alloc(), bytes).expect(&rt, "answer");
        assert!(rt; matches!(duid, DhcpV6Duid::Raw(_)) != has_name);
        assert!(rt; duid.written_len() == bytes.len());
        assert!(rt; bytes_of(rt.alloc(), duid).expect(&rt, "answer").as_slice() == bytes);
    }
}

#[test]
fn each_identifier_is_copied(rt: HostRuntime) {
    for &(bytes, _) in &DUIDS {
        let duid = DhcpV6Duid::parse(rt.alloc(), bytes).expect(&rt, "answer");
        assert!(rt; is_copied(rt.alloc(), duid).expect(&rt, "answer"));
    }
}

#[test]
fn one_byte_is_no_identifier(rt: HostRuntime) {
    match DhcpV6Duid::parse(rt.alloc(), &[0]) {
        Ok(_) => assert!(rt; false, "it was read"),
        Err(error) => assert!(rt; error.kind() == ErrorKind::InvalidDhcpMessage),
    }
}

#[test]
fn identifiers_are_made_of_their_parts(rt: HostRuntime) {
    let address = [2, 0, 0, 0, 0, 1];
    let made = DhcpV6DuidLinkLayerAddr::new(rt.alloc(), 1, &address).expect(&rt, "memory");
    let duid = DhcpV6Duid::LinkLayerAddress(made);
    assert!(rt;
        bytes_of(rt.alloc(), duid).expect(&rt, "answer").as_slice()
            == [0, 3, 0, 1, 2, 0, 0, 0, 0, 1].as_slice()
    );
}

#[test]
fn the_time_of_an_identifier_counts_from_2000(rt: HostRuntime) {
    let address = [2, 0, 0, 0, 0, 1];
    let made = DhcpV6DuidLinkLayerAddrPlusTime::new(rt.alloc(), 1, &address, 946684801).expect(
        &rt, "memory",
    );
    let duid = DhcpV6Duid::LinkLayerAddressPlusTime(made);
    assert!(rt;
        bytes_of(rt.alloc(), duid).expect(&rt, "answer").as_slice()
            == [0, 1, 0, 1, 0, 0, 0, 1, 2, 0, 0, 0, 0, 1].as_slice()
    );
    let early = DhcpV6DuidLinkLayerAddrPlusTime::new(rt.alloc(), 1, &[2], 5).expect(&rt, "memory");
    assert!(rt; early.time == 0);
}

// An identifier of the vendor 9.
fn vendor(alloc: Global) -> Result<DhcpV6Duid, DhcpError> {
    let made = DhcpV6DuidEnterpriseNumber::new(alloc, 9, &[0xab])?;
    Ok(DhcpV6Duid::EnterpriseNumber(made))
}

#[test]
fn a_vendor_gives_an_identifier(rt: HostRuntime) {
    let alloc = rt.alloc();
    assert!(rt;
        bytes_of(alloc, vendor(alloc).expect(&rt, "memory"))
            .expect(&rt, "answer")
            .as_slice()
            == [0, 2, 0, 0, 0, 9, 0xab].as_slice()
    );
    assert!(rt; is_copied(alloc, vendor(alloc).expect(&rt, "memory")).expect(&rt, "answer"));
}

// The bytes that the words 01020304, 05060708, 090a0b0c and 0d0e0f10 give.
const RANDOM: [u8; 16] = [0, 255, 3, 4, 5, 6, 7, 8, 9, 10, 11, 12, 13, 14, 15, 16];

// The identifier that those words give.
fn random_identifier(alloc: Global) -> Result<DhcpV6Duid, DhcpError> {
    let drawn = vec![in alloc; 0x01020304, 0x05060708, 0x090a0b0c, 0x0d0e0f10]?;
    DhcpV6Duid::random(alloc, &mut WordList::new(drawn))
}

#[test]
fn an_identifier_is_made_of_four_random_words(rt: HostRuntime) {
    let duid = random_identifier(rt.alloc()).expect(&rt, "memory");
    assert!(rt; !duid.is_empty());
    assert!(rt; bytes_of(rt.alloc(), duid).expect(&rt, "answer").as_slice() == RANDOM.as_slice());
}

#[test]
fn an_identifier_without_bytes_is_empty(rt: HostRuntime) {
    assert!(rt; DhcpV6Duid::Raw(Bytes::new(rt.alloc())).is_empty());
}
