//! Lists of options.

ghost use Rattle.std.specs.Prelude.{◌≡◌, ◌<◌, IsTrue};
ghost use Rattle.dhcp6_opt.specs.Value.{fits};

use crate::option::HINT;
use dhcp_wire::{Buffer, BufferMut, Bytes, DhcpError};
use dhcp6_opt::{DhcpV6Option, DhcpV6OptionCode, DhcpV6OptionIaPd, DhcpV6Options, Steps};
use std::alloc::Global;
use std::marker::Brand;
use std::sync::ledger::{Blank, Ledger};

// A list as it is written.
fn list_bytes(alloc: Global, options: &DhcpV6Options) -> Result<Bytes, DhcpError> {
    let mut buf = BufferMut::new(alloc);
    options.emit(&mut buf)?;
    Ok(buf.into_bytes())
}

// A list of this option alone as it is written.
fn list_of_one(alloc: Global, option: DhcpV6Option) -> Result<Bytes, DhcpError>
    requires { IsTrue (fits option) }
{
    let mut options = DhcpV6Options::new(alloc);
    options.insert(option)?;
    list_bytes(alloc, &options)
}

// A list of bytes as it is written again.
fn list_again(alloc: Global, bytes: &[u8]) -> Result<Bytes, DhcpError> {
    let options = DhcpV6Options::parse(alloc, bytes)?;
    list_bytes(alloc, &options)
}

#[test]
fn a_hint_is_written_with_its_length(rt: HostRuntime) {
    let option = DhcpV6Option::IAPD(DhcpV6OptionIaPd::new_with_hint(60, 0));
    assert!(rt; option.fits());
    let bytes = list_of_one(rt.alloc(), option).expect(&rt, "memory");
    assert!(rt; bytes.as_slice() == HINT.as_slice());
}

// Whether the first option of this code in a list of bytes is there.
fn has_first(alloc: Global, bytes: &[u8], code: u16) -> Result<bool, DhcpError> {
    let options = DhcpV6Options::parse(alloc, bytes)?;
    Ok(options.get_first(DhcpV6OptionCode::from(code)).is_some())
}

// A preference of 5.
const PREFERENCE: [u8; 5] = [0, 7, 0, 1, 5];

// Lists of an option that does not read and that preference behind it: a dot in a label of a domain
// list, an address of a time server cut short, and associations with a truncated inner option, an
// inner option of another association and a truncated address.
const UNREADABLE: [&[u8]; 5] = [
    b"\x00\x18\x00\x05\x03a.b\x00\x00\x07\x00\x01\x05",
    b"\x00\x38\x00\x04\x00\x01\x00\x00\x00\x07\x00\x01\x05",
    b"\x00\x03\x00\x10\0\0\0\0\0\0\0\x32\0\0\0\x50\x00\x0d\x00\x02\x00\x07\x00\x01\x05",
    b"\x00\x03\x00\x10\0\0\0\0\0\0\0\0\0\0\0\0\x00\x1a\x00\x00\x00\x07\x00\x01\x05",
    b"\x00\x03\x00\x10\0\0\0\0\0\0\0\0\0\0\0\0\x00\x05\x00\x00\x00\x07\x00\x01\x05",
];

#[test]
fn what_does_not_read_is_skipped(rt: HostRuntime) {
    for &bytes in &UNREADABLE {
        assert!(rt;
            list_again(rt.alloc(), bytes)
                .expect(&rt, "memory")
                .as_slice()
                == PREFERENCE.as_slice()
        );
    }
}

// Name servers ::1, a status, and an empty list of name servers.
const TWO_NAME_SERVERS: [u8; 30] = [
    0, 23, 0, 16, 0, 0, 0, 0, 0, 0, 0, 0, 0, 0, 0, 0, 0, 0, 0, 1, 0, 13, 0, 2, 0, 0, 0, 23, 0, 0,
];

// A list of these three, inserted one after the other.
fn inserted(alloc: Global) -> Result<DhcpV6Options, DhcpError> {
    let mut options = DhcpV6Options::new(alloc);
    let mut buf = Buffer::new(&TWO_NAME_SERVERS);
    for _ in 0..3u32 {
        options.insert(DhcpV6Option::parse(alloc, &mut buf)?)?;
    }
    Ok(options)
}

// How many name servers the first option of their code has.
fn name_servers(options: &DhcpV6Options) -> usize {
    match options.get_first(DhcpV6OptionCode::DnsServers) {
        Some(DhcpV6Option::DnsServers(addresses)) => addresses.as_slice().len(),
        _ => 0,
    }
}

// Whether an option of this code is found, with the comparisons counted.
fn found<L: Ledger>(blank: Blank, options: &DhcpV6Options, code: DhcpV6OptionCode) -> bool
    requires name { blank.name ≡ L.name }
    requires parts { blank.parts ≡ L.parts }
    requires some { 0 < blank.parts }
{
    let (book, share) = blank.open::<L>();
    options
        .get_first_counted(code, &mut Steps::new(book, share))
        .is_some()
}

#[test]
fn the_first_of_a_code_is_found(rt: HostRuntime) {
    let options = inserted(rt.alloc()).expect(&rt, "memory");
    assert!(rt; name_servers(&options) == 1);
    assert!(rt; found::<Brand>(Blank::new(1), &options, DhcpV6OptionCode::StatusCode));
    assert!(rt; !found::<Brand>(Blank::new(1), &options, DhcpV6OptionCode::IANA));
}

#[test]
fn removal_takes_all_of_a_code(rt: HostRuntime) {
    let mut options = inserted(rt.alloc()).expect(&rt, "memory");
    options.remove(DhcpV6OptionCode::DnsServers);
    assert!(rt; options.get_first(DhcpV6OptionCode::DnsServers).is_none());
    assert!(rt; options.get_first(DhcpV6OptionCode::StatusCode).is_some());
}

#[test]
fn a_list_is_written_by_rising_code(rt: HostRuntime) {
    let bytes = [0, 23, 0, 0, 0, 7, 0, 1, 5, 0, 23, 0, 1, 9];
    let sorted = [0, 7, 0, 1, 5, 0, 23, 0, 0, 0, 23, 0, 0];
    assert!(rt;
        list_again(rt.alloc(), &bytes)
            .expect(&rt, "memory")
            .as_slice()
            == sorted.as_slice()
    );
}

// How many options of a code are handed out as bytes, if there are any.
fn count_raw(
    alloc: Global,
    options: &DhcpV6Options,
    code: u16,
) -> Result<Option<usize>, DhcpError> {
    match options.get_data_raw(alloc, code)? {
        Some(written) => Ok(Some(written.len())),
        None => Ok(None),
    }
}

// The same of a list of bytes.
fn count_raw_in(alloc: Global, bytes: &[u8], code: u16) -> Result<Option<usize>, DhcpError> {
    let options = DhcpV6Options::parse(alloc, bytes)?;
    count_raw(alloc, &options, code)
}

#[test]
fn the_options_of_a_code_are_handed_out_as_bytes(rt: HostRuntime) {
    let bytes = [0, 7, 0, 1, 5, 0, 7, 0, 1, 6];
    assert!(rt; count_raw_in(rt.alloc(), &bytes, 7).expect(&rt, "memory") == Some(2));
    assert!(rt;
        count_raw_in(rt.alloc(), &bytes, 8)
            .expect(&rt, "memory")
            .is_none()
    );
}

// What the last option of a code is handed out as, if there is one.
fn last_raw(
    alloc: Global,
    options: &DhcpV6Options,
    code: u16,
) -> Result<Option<Vec<u8>>, DhcpError> {
    match options.get_data_raw(alloc, code)? {
        Some(mut written) => Ok(written.pop()),
        None => Ok(None),
    }
}

// The same of a list of bytes.
fn last_raw_in(alloc: Global, bytes: &[u8], code: u16) -> Result<Option<Vec<u8>>, DhcpError> {
    let options = DhcpV6Options::parse(alloc, bytes)?;
    last_raw(alloc, &options, code)
}

#[test]
fn the_last_option_of_a_code_is_handed_out_last(rt: HostRuntime) {
    let bytes = [0, 7, 0, 1, 5, 0, 7, 0, 1, 6, 0, 8, 0, 2, 0, 9];
    let last = last_raw_in(rt.alloc(), &bytes, 7)
        .expect(&rt, "memory")
        .expect(&rt, "none");
    assert!(rt; last.as_slice() == [0, 7, 0, 1, 6].as_slice());
}

// Writes a label of so many letters, at most 64.
fn write_label(buf: &mut BufferMut, len: u8) -> Result<(), DhcpError> {
    buf.write_u8(len)?;
    buf.write_bytes(&[b'a'; 64][..usize::from(len.min(64))])
}

// Writes a domain list of one name without its zero byte: so many labels of 63 letters, and a last
// one.
fn write_open_name(buf: &mut BufferMut, len: u16, labels: u16, last: u8) -> Result<(), DhcpError> {
    buf.write_u16_be(24)?;
    buf.write_u16_be(len)?;
    for _ in 0..labels {
        write_label(buf, 63)?;
    }
    write_label(buf, last)
}

// Whether the name of such a list is read.
fn open_name_reads(alloc: Global, len: u16, labels: u16, last: u8) -> Result<bool, DhcpError> {
    let mut buf = BufferMut::new(alloc);
    write_open_name(&mut buf, len, labels, last)?;
    let list = buf.into_bytes();
    has_first(alloc, list.as_slice(), 24)
}

// Names of 65,472 bytes, of 65,535, which would be written in one more, and with a label of 64
// letters; and whether they read.
const OPEN_NAMES: [(u16, u16, u8, bool); 3] = [
    (65472, 1022, 63, true),
    (65535, 1023, 62, false),
    (65, 0, 64, false),
];

#[test]
fn a_name_reads_if_it_can_be_written_again(rt: HostRuntime) {
    for &(len, labels, last, reads) in &OPEN_NAMES {
        assert!(rt; open_name_reads(rt.alloc(), len, labels, last).expect(&rt, "memory") == reads);
    }
}
