//! Options and lists of options.

ghost use Rattle.std.specs.Prelude.{◌≡◌, ◌↔◌, IsTrue, None};
ghost use Rattle.std.specs.FinMap as map;
ghost use Rattle.dhcp4_msg.specs.Value.{fits};

use dhcp_wire::{Buffer, BufferMut, Bytes, DhcpError, ErrorKind, Sequence, Text};
use dhcp4_msg::{DhcpV4MessageType, DhcpV4Option, DhcpV4OptionCode, DhcpV4Options};
use std::alloc::Global;
use std::net::Ipv4Addr;

// What is kept under the code of a subnet mask is a subnet mask.
#[tactic(auto, unfolding(dhcp4_msg::specs::OptionCode::number_of))]
fn subnet_mask(options: &DhcpV4Options) -> Option<Ipv4Addr>
    ensures { (result ≡ None) ↔ (map.get options.now 1 ≡ None) }
{
    match options.get(DhcpV4OptionCode::SubnetMask)? {
        DhcpV4Option::SubnetMask(mask) => Some(*mask),
        _ => None,
    }
}

// A copy of what is kept goes into other options without a test.
fn hand_on(
    alloc: Global,
    from: &DhcpV4Options,
    code: DhcpV4OptionCode,
    to: &mut DhcpV4Options,
) -> Result<(), DhcpError> {
    match from.get(code) {
        Some(option) => to.insert(option.try_clone(alloc)?),
        None => Ok(()),
    }
}

// So does what was read.
fn enter_first(alloc: Global, bytes: &[u8], options: &mut DhcpV4Options) -> Result<(), DhcpError> {
    options.insert(DhcpV4Option::parse(alloc, &mut Buffer::new(bytes))?)
}

// Options with a subnet mask, read from their bytes.
fn with_mask(alloc: Global) -> Result<DhcpV4Options, DhcpError> {
    let mut options = DhcpV4Options::new(alloc);
    enter_first(alloc, &[1, 4, 255, 255, 255, 0], &mut options)?;
    Ok(options)
}

#[test]
fn what_is_kept_is_handed_on(rt: HostRuntime) {
    let from = with_mask(rt.alloc()).expect(&rt, "memory");
    let mut to = DhcpV4Options::new(rt.alloc());
    hand_on(rt.alloc(), &from, DhcpV4OptionCode::SubnetMask, &mut to).expect(&rt, "memory");
    assert!(rt; subnet_mask(&to) == Some(Ipv4Addr::new(255, 255, 255, 0)));
}

#[test]
fn room_for_more_options_changes_nothing(rt: HostRuntime) {
    let mut options = with_mask(rt.alloc()).expect(&rt, "memory");
    options.reserve(6).expect(&rt, "memory");
    assert!(rt; options == with_mask(rt.alloc()).expect(&rt, "memory"));
}

#[test]
fn a_copy_stays_when_the_original_changes(rt: HostRuntime) {
    let mut options = with_mask(rt.alloc()).expect(&rt, "memory");
    let copy = options.try_clone(rt.alloc()).expect(&rt, "memory");
    enter_first(rt.alloc(), &[0x33, 4, 0, 0, 0, 100], &mut options).expect(&rt, "memory");
    assert!(rt; options.seconds(DhcpV4OptionCode::IpAddressLeaseTime) == Some(100));
    assert!(rt; copy == with_mask(rt.alloc()).expect(&rt, "memory"));
}

#[test]
fn what_reads_from_no_bytes_is_no_options(rt: HostRuntime) {
    let none = DhcpV4Options::new(rt.alloc());
    let read = DhcpV4Options::parse(rt.alloc(), &[]).expect(&rt, "memory");
    assert!(rt; read == none);
    assert!(rt; none == read);
    assert!(rt; none != with_mask(rt.alloc()).expect(&rt, "memory"));
}

#[test]
fn of_two_options_51_the_second_is_kept(rt: HostRuntime) {
    let mut options = DhcpV4Options::new(rt.alloc());
    enter_first(rt.alloc(), &[0x33, 4, 0, 0, 0, 100], &mut options).expect(&rt, "memory");
    enter_first(rt.alloc(), &[0x33, 4, 0, 0, 0, 101], &mut options).expect(&rt, "memory");
    let mut written = BufferMut::new(rt.alloc());
    options.emit(&mut written).expect(&rt, "memory");
    assert!(rt; written.bytes() == [0x33, 4, 0, 0, 0, 101, 255].as_slice());
    assert!(rt; options.try_clone(rt.alloc()).expect(&rt, "memory") == options);
}

#[test]
fn a_truncated_option_ends_the_list(rt: HostRuntime) {
    // The second option 51 is too short to read, and option 6 is truncated.
    let bytes = [0x33, 4, 0, 0, 0, 100, 0x33, 2, 1, 2, 6, 4, 8];
    let options = DhcpV4Options::parse(rt.alloc(), &bytes).expect(&rt, "answer");
    assert!(rt; options.seconds(DhcpV4OptionCode::IpAddressLeaseTime) == Some(100));
    assert!(rt; options.get(DhcpV4OptionCode::DomainNameServer).is_none());
}

// Whether a read was refused.
fn is_refused<T: Drop>(answer: Result<T, DhcpError>) -> bool {
    match answer {
        Ok(_) => false,
        Err(error) => error.kind() == ErrorKind::InvalidDhcpMessage,
    }
}

#[test]
fn a_refused_option_is_skipped_and_a_truncated_one_is_not(rt: HostRuntime) {
    let mut buf = Buffer::new(&[0x33, 2, 1, 2, 6, 4, 8]);
    assert!(rt; is_refused(DhcpV4Option::parse(rt.alloc(), &mut buf)));
    assert!(rt; buf.remain_len() == 3);
    assert!(rt; is_refused(DhcpV4Option::parse(rt.alloc(), &mut buf)));
    assert!(rt; buf.remain_len() == 3);
}

// The bytes of an option of every kind.
const KINDS: [&[u8]; 21] = [
    &[0],
    &[1, 4, 255, 255, 255, 0],
    &[3, 8, 192, 0, 2, 1, 192, 0, 2, 2],
    &[6, 4, 192, 0, 2, 3],
    &[12, 5, 0x68, 0x6f, 0x73, 0x74, 0],
    &[15, 4, 0x6f, 0x72, 0x67, 0],
    &[26, 2, 5, 220],
    &[28, 4, 192, 0, 2, 255],
    &[42, 4, 192, 0, 2, 4],
    &[50, 4, 192, 0, 2, 10],
    &[51, 4, 0, 0, 2, 88],
    &[53, 1, 5],
    &[54, 4, 192, 0, 2, 1],
    &[55, 3, 1, 3, 249],
    &[56, 3, 0x6e, 0x6f, 0],
    &[58, 4, 0, 0, 1, 44],
    &[59, 4, 0, 0, 2, 13],
    &[61, 7, 1, 2, 0, 0, 0, 0, 1],
    &[121, 8, 0x18, 0xcb, 0, 0x71, 0xc0, 0, 2, 0x28],
    &[249, 2, 1, 2],
    &[255],
];

// A copy of the option that these bytes read as, as it is written.
fn rewritten(alloc: Global, bytes: &[u8]) -> Result<Bytes, DhcpError> {
    let option = DhcpV4Option::parse(alloc, &mut Buffer::new(bytes))?;
    copy_written(alloc, &option)
}

// A copy of an option as it is written.
fn copy_written(alloc: Global, option: &DhcpV4Option) -> Result<Bytes, DhcpError>
    requires { IsTrue (fits option.now) }
{
    let copy = option.try_clone(alloc)?;
    written(alloc, &copy)
}

// An option as it is written.
fn written(alloc: Global, option: &DhcpV4Option) -> Result<Bytes, DhcpError>
    requires { IsTrue (fits option.now) }
{
    let mut written = BufferMut::new(alloc);
    option.emit(&mut written)?;
    Ok(written.into_bytes())
}

#[test]
fn each_kind_of_option_is_written_as_it_was_read(rt: HostRuntime) {
    for &bytes in &KINDS {
        assert!(rt;
            rewritten(rt.alloc(), bytes)
                .expect(&rt, "answer")
                .as_slice()
                == bytes
        );
    }
}

// The options of all kinds.
fn every_kind(alloc: Global) -> Result<DhcpV4Options, DhcpError> {
    let mut options = DhcpV4Options::new(alloc);
    for &bytes in &KINDS {
        enter_first(alloc, bytes, &mut options)?;
    }
    Ok(options)
}

// The message type that options say.
fn message_type(options: &DhcpV4Options) -> Option<DhcpV4MessageType> {
    options.get(DhcpV4OptionCode::MessageType)?.message_type()
}

#[test]
fn each_kind_says_its_value(rt: HostRuntime) {
    let options = every_kind(rt.alloc()).expect(&rt, "memory");
    assert!(rt; message_type(&options) == Some(DhcpV4MessageType::Ack));
    let address = options.address(DhcpV4OptionCode::ServerIdentifier);
    assert!(rt; address == Some(Ipv4Addr::new(192, 0, 2, 1)));
    assert!(rt;
        options
            .addresses(DhcpV4OptionCode::Router)
            .map(Sequence::len)
            == Some(2)
    );
    let host_name = options.text(DhcpV4OptionCode::HostName).expect(&rt, "none");
    assert!(rt; host_name.as_str() == "host");
    assert!(rt; options.size(DhcpV4OptionCode::InterfaceMtu) == Some(1500));
    assert!(rt; options.seconds(DhcpV4OptionCode::RenewalTime) == Some(300));
    assert!(rt; options.requested_codes().map(Sequence::len) == Some(3));
    assert!(rt;
        options
            .bytes(DhcpV4OptionCode::ClientIdentifier)
            .map(Sequence::len)
            == Some(7)
    );
}

// A host name as it is written, if it fits.
fn written_host_name(alloc: Global, name: &str) -> Result<Option<Bytes>, DhcpError> {
    let name = Text::from_str(alloc, name)?;
    let option = Box::new(alloc, DhcpV4Option::HostName(name))?;
    if option.fits() {
        Ok(Some(written(alloc, &option)?))
    } else {
        Ok(None)
    }
}

#[test]
fn a_long_host_name_is_cut_to_254_bytes(rt: HostRuntime) {
    let name = "a".repeat(rt.alloc(), 300).expect(&rt, "memory");
    let written = written_host_name(rt.alloc(), &name)
        .expect(&rt, "memory")
        .expect(&rt, "it does not fit");
    let bytes = written.as_slice();
    assert!(rt; bytes.len() == 257);
    assert!(rt; bytes.get(..3) == Some([0x0c, 0xff, 0x61].as_slice()));
    assert!(rt; bytes.get(255..) == Some([0x61, 0].as_slice()));
}
