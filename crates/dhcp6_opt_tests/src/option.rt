//! Options, as they stand on the wire.

ghost use Rattle.std.specs.Prelude.{IsTrue};
ghost use Rattle.dhcp6_opt.specs.Value.{fits};

use dhcp_wire::{Buffer, BufferMut, Bytes, DhcpError, Text, TryClone};
use dhcp6_opt::{
    DhcpV6Option, DhcpV6OptionCode, DhcpV6OptionIaAddr, DhcpV6OptionIaNa, DhcpV6OptionIaPd,
    DhcpV6OptionIaTa, DhcpV6OptionNtpServer, DhcpV6OptionStatus, DhcpV6OptionStatusCode,
    DhcpV6OptionUnknown, DhcpV6Options,
};
use std::alloc::Global;
use std::net::Ipv6Addr;

// A status that says this.
fn status(alloc: Global, code: u16) -> Result<DhcpV6OptionStatus, DhcpError> {
    Ok(DhcpV6OptionStatus {
        status: DhcpV6OptionStatusCode::from(code),
        message: Text::from_str(alloc, "a")?,
    })
}

#[test]
fn an_association_succeeds_by_its_address_and_statuses(rt: HostRuntime) {
    let refused = status(rt.alloc(), 3).expect(&rt, "memory");
    let address = DhcpV6OptionIaAddr::new(Ipv6Addr::LOCALHOST, 1, 2);
    let mut ia = DhcpV6OptionIaNa::new(7, 3, 4, address);
    assert!(rt; ia.is_success());
    ia.status = Some(refused);
    assert!(rt; !ia.is_success());
    assert!(rt; !DhcpV6OptionIaTa::empty(0).is_success());
}

#[test]
fn a_hint_is_a_prefix_zero_of_a_length(rt: HostRuntime) {
    let ia = DhcpV6OptionIaPd::new_with_hint(60, 0);
    assert!(rt; ia.is_success());
    match &ia.prefix {
        Some(prefix) => {
            assert!(rt; prefix.prefix_len == 60);
            assert!(rt; prefix.prefix.is_unspecified());
        }
        None => assert!(rt; false, "there is no prefix"),
    }
}

// Whether a copy of a value is equal to it.
pub(crate) fn is_copied<T: TryClone + PartialEq + Drop>(
    alloc: Global,
    value: T,
) -> Result<bool, DhcpError> {
    Ok(value.try_clone(alloc)? == value)
}

#[test]
fn copies_are_equal(rt: HostRuntime) {
    let alloc = rt.alloc();
    assert!(rt; is_copied(alloc, DhcpV6OptionUnknown::empty(alloc)).expect(&rt, "answer"));
    assert!(rt; is_copied(alloc, DhcpV6OptionIaTa::empty(0)).expect(&rt, "answer"));
    assert!(rt; is_copied(alloc, status(alloc, 0).expect(&rt, "memory")).expect(&rt, "answer"));
    assert!(rt; is_copied(alloc, DhcpV6OptionIaPd::new_with_hint(60, 0)).expect(&rt, "answer"));
    assert!(rt;
        is_copied(
            alloc,
            DhcpV6Options::parse(alloc, OPTIONS[4]).expect(&rt, "answer")
        )
        .expect(&rt, "answer")
    );
    assert!(rt; is_copied(alloc, DhcpV6Option::empty(alloc)).expect(&rt, "answer"));
}

#[test]
fn an_empty_option_has_code_0(rt: HostRuntime) {
    let option = Box::new(rt.alloc(), DhcpV6Option::empty(rt.alloc())).expect(&rt, "memory");
    assert!(rt; option.code() == DhcpV6OptionCode::Other(0));
}

// An option as it is written.
fn option_bytes(alloc: Global, option: &DhcpV6Option) -> Result<Bytes, DhcpError>
    requires { IsTrue (fits option.now) }
{
    let mut buf = BufferMut::new(alloc);
    option.emit(&mut buf)?;
    Ok(buf.into_bytes())
}

// The option at the front of some bytes as it is written.
fn written_again(alloc: Global, bytes: &[u8]) -> Result<Bytes, DhcpError> {
    let option = Box::new(alloc, DhcpV6Option::parse(alloc, &mut Buffer::new(bytes))?)?;
    option_bytes(alloc, &option)
}

// Options as they stand on the wire: a status without addresses, a server's and a client's
// identifier, an association with an address, one with a prefix and a status, one without a prefix,
// a client's hint, a time server by its name, and one of a type without a name.
const OPTIONS: [&[u8]; 9] = [
    b"\x00\x0d\x00\x18\x00\x02no addresses available",
    b"\x00\x02\x00\x0e\x00\x01\x00\x01\x30\x7a\x70\xb8\x72\x07\x26\xd9\x99\xd9",
    b"\x00\x01\x00\x0a\x00\x03\x00\x01\xd2\xfd\xf9\xb4\x48\xb7",
    &[
        0, 3, 0, 40, 0xfd, 0x2a, 0xbc, 0x8e, 0, 0, 0, 60, 0, 0, 0, 105, 0, 5, 0, 24, 0x20, 1, 0x0d,
        0xb8, 0, 10, 0, 0, 0, 0, 0, 0, 0, 0, 7, 0x6d, 0, 0, 0, 120, 0, 0, 0, 120,
    ],
    &[
        0, 25, 0, 54, 0x32, 0xaa, 0xbe, 0x4e, 0, 0, 0xa8, 0xc0, 0, 1, 0x0e, 0, 0, 26, 0, 25, 0, 1,
        0x51, 0x80, 0, 1, 0x51, 0x80, 60, 0x24, 0x0e, 3, 0x9c, 0x0e, 0x29, 0xdb, 0xf0, 0, 0, 0, 0,
        0, 0, 0, 0, 0, 13, 0, 9, 0, 0, 0x53, 0x55, 0x43, 0x43, 0x45, 0x53, 0x53,
    ],
    &[
        0, 25, 0, 31, 0xc1, 0xdb, 0x20, 0x5c, 0, 0, 0, 0, 0, 0, 0, 0, 0, 13, 0, 15, 0, 6, 0x4e,
        0x4f, 0x50, 0x52, 0x45, 0x46, 0x49, 0x58, 0x41, 0x56, 0x41, 0x49, 0x4c,
    ],
    &HINT,
    b"\x00\x38\x00\x11\x00\x03\x00\x0d\x07example\x03com\x00",
    OTHER_TIME_SERVER,
];

// A time server of type 9 whose value is one byte.
const OTHER_TIME_SERVER: &[u8] = b"\x00\x38\x00\x05\x00\x09\x00\x01\x61";

// Whether an option has one time server, of this type without a name and with this value.
fn has_other_server(option: &DhcpV6Option, number: u16, value: &[u8]) -> bool {
    match option {
        DhcpV6Option::NtpServer(servers) => match servers.as_slice() {
            [DhcpV6OptionNtpServer::Other(other)] => {
                other.0 == number && other.1.as_slice() == value
            }
            _ => false,
        },
        _ => false,
    }
}

#[test]
fn a_time_server_of_a_type_without_a_name_is_its_bytes(rt: HostRuntime) {
    let options = DhcpV6Options::parse(rt.alloc(), OTHER_TIME_SERVER).expect(&rt, "memory");
    let option = options
        .get_first(DhcpV6OptionCode::NtpServer)
        .expect(&rt, "none");
    assert!(rt; has_other_server(option, 9, &[0x61]));
}

// A client's hint of a prefix of 60 bits.
pub(crate) const HINT: [u8; 45] = [
    0, 25, 0, 41, 0, 0, 0, 0, 0, 0, 0, 0, 0, 0, 0, 0, 0, 26, 0, 25, 0, 0, 0, 0, 0, 0, 0, 0, 60, 0,
    0, 0, 0, 0, 0, 0, 0, 0, 0, 0, 0, 0, 0, 0, 0,
];

#[test]
fn options_are_written_as_they_were_read(rt: HostRuntime) {
    for &bytes in &OPTIONS {
        assert!(rt;
            written_again(rt.alloc(), bytes)
                .expect(&rt, "memory")
                .as_slice()
                == bytes
        );
    }
}

#[test]
fn each_option_is_copied(rt: HostRuntime) {
    for &bytes in &OPTIONS {
        let option = DhcpV6Option::parse(rt.alloc(), &mut Buffer::new(bytes)).expect(&rt, "answer");
        assert!(rt; is_copied(rt.alloc(), option).expect(&rt, "answer"));
    }
}

// Whether a value is less than another. Its type is a parameter, so that it is not dropped field by
// field.
fn is_less<T: PartialOrd + Drop>(first: T, second: T) -> bool {
    first < second
}

#[test]
fn options_are_ordered_by_code_and_then_by_variant(rt: HostRuntime) {
    assert!(rt; is_less(DhcpV6Option::Preference(9), DhcpV6Option::ElapsedTime(1)));
    assert!(rt; is_less(DhcpV6Option::Preference(8), DhcpV6Option::Preference(9)));
    let prefix = DhcpV6Option::IAPD(DhcpV6OptionIaPd::empty(0));
    assert!(rt; is_less(DhcpV6Option::RapidCommit, prefix));
}

#[test]
fn names_are_read_with_and_without_their_zero_byte(rt: HostRuntime) {
    let whole = b"\x00\x18\x00\x05\x03com\x00";
    let open = b"\x00\x18\x00\x04\x03com";
    assert!(rt;
        written_again(rt.alloc(), whole)
            .expect(&rt, "memory")
            .as_slice()
            == whole.as_slice()
    );
    assert!(rt;
        written_again(rt.alloc(), open)
            .expect(&rt, "memory")
            .as_slice()
            == whole.as_slice()
    );
}
