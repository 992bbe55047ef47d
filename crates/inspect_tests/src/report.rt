//! The report on a capture file.

use crate::file::{BIG, Layout};
use crate::packets::{discover, relay_forward, relayed_ack, solicit, untyped};
use dhcp_inspect::{Capture, Message, inspect};
use dhcp_wire::DhcpError;
use std::alloc::Global;

// Little-endian, with microseconds.
const LITTLE: Layout = Layout {
    is_little: true,
    has_nanoseconds: false,
};

// Big-endian, with nanoseconds.
const BIG_NANO: Layout = Layout {
    is_little: false,
    has_nanoseconds: true,
};

// Little-endian, with nanoseconds.
const LITTLE_NANO: Layout = Layout {
    is_little: true,
    has_nanoseconds: true,
};

// The file of the worked example: a Discover, 1.000002 seconds after the beginning.
fn example(alloc: Global) -> Result<Vec<u8>, DhcpError> {
    let mut file = LITTLE.file(alloc, 1)?;
    let packet = discover(alloc)?;
    LITTLE.put_record(&mut file, (1, 2), packet.as_slice(), 293)?;
    Ok(file)
}

// Whether this is the report on these bytes; none is that they are no capture file.
fn reports(alloc: Global, file: &[u8], expected: Option<&str>) -> Result<bool, DhcpError> {
    let report = inspect(alloc, file)?;
    Ok(match (&report, expected) {
        (Some(text), Some(expected)) => text.as_slice() == expected.as_bytes(),
        (None, None) => true,
        _ => false,
    })
}

#[test]
fn the_worked_example_is_one_line(rt: HostRuntime) {
    let file = example(rt.alloc()).expect(&rt, "a file");
    let expected = "1 1.000002 v4 0.0.0.0 255.255.255.255 DISCOVERY 12345678 0.0.0.0\nok\n";
    let is_so = reports(rt.alloc(), file.as_slice(), Some(expected)).expect(&rt, "memory");
    assert!(rt; is_so);
}

#[test]
fn a_truncated_record_is_counted_in_bytes(rt: HostRuntime) {
    let mut file = example(rt.alloc()).expect(&rt, "a file");
    file.truncate(332);
    let is_so = reports(rt.alloc(), file.as_slice(), Some("cut 308\n")).expect(&rt, "memory");
    assert!(rt; is_so);
}

// A file with this link type, and a record that keeps 42 zero bytes.
fn foreign(alloc: Global, link_type: u32) -> Result<Vec<u8>, DhcpError> {
    let mut file = BIG.file(alloc, link_type)?;
    BIG.put_record(&mut file, (0, 0), &[0; 42], 42)?;
    Ok(file)
}

#[test]
fn other_files_have_no_report(rt: HostRuntime) {
    let ethernet = foreign(rt.alloc(), 1).expect(&rt, "a file");
    let radio = foreign(rt.alloc(), 101).expect(&rt, "a file");
    let bytes = ethernet.as_slice();
    assert!(rt; reports(rt.alloc(), bytes, Some("ok\n")).expect(&rt, "memory"));
    assert!(rt; reports(rt.alloc(), radio.as_slice(), None).expect(&rt, "memory"));
    assert!(rt; reports(rt.alloc(), &[], None).expect(&rt, "memory"));
    assert!(rt; reports(rt.alloc(), &[0; 24], None).expect(&rt, "memory"));
}

// A file of this layout with messages of both families, with and without relays, and a packet of
// another protocol between them.
fn mixed(alloc: Global, layout: Layout) -> Result<Vec<u8>, DhcpError> {
    let mut file = layout.file(alloc, 1)?;
    layout.put_record(&mut file, (1, 2), discover(alloc)?.as_slice(), 293)?;
    layout.put_record(&mut file, (1, 3), &[0; 42], 60)?;
    layout.put_record(&mut file, (2, 0), solicit(alloc).as_slice(), 108)?;
    layout.put_record(&mut file, (2, 999999), relay_forward(alloc).as_slice(), 146)?;
    layout.put_record(
        &mut file,
        (3, 123456789),
        relayed_ack(alloc)?.as_slice(),
        298,
    )?;
    layout.put_record(
        &mut file,
        (4294967295, 4294967295),
        untyped(alloc)?.as_slice(),
        293,
    )?;
    Ok(file)
}

// Its report with microseconds.
const MICROSECONDS: &str = "\
1 1.000002 v4 0.0.0.0 255.255.255.255 DISCOVERY 12345678 0.0.0.0
3 2.000000 v6 fe800000000000000000000000000001 ff020000000000000000000000010002 1 abcdef
4 2.999999 v6 20010db8000000000000000000000001 20010db8000000000000000000000002 12 -
5 3.123456789 v4 192.0.2.1 192.0.2.9 ACK 12345678 192.0.2.10
6 4294967295.4294967295 v4 0.0.0.0 255.255.255.255 - 12345678 0.0.0.0
ok
";

// Its report with nanoseconds.
const NANOSECONDS: &str = "\
1 1.000000002 v4 0.0.0.0 255.255.255.255 DISCOVERY 12345678 0.0.0.0
3 2.000000000 v6 fe800000000000000000000000000001 ff020000000000000000000000010002 1 abcdef
4 2.000999999 v6 20010db8000000000000000000000001 20010db8000000000000000000000002 12 -
5 3.123456789 v4 192.0.2.1 192.0.2.9 ACK 12345678 192.0.2.10
6 4294967295.4294967295 v4 0.0.0.0 255.255.255.255 - 12345678 0.0.0.0
ok
";

#[test]
fn each_layout_gives_the_lines_of_its_unit(rt: HostRuntime) {
    for (layout, expected) in [
        (BIG, MICROSECONDS),
        (LITTLE, MICROSECONDS),
        (BIG_NANO, NANOSECONDS),
        (LITTLE_NANO, NANOSECONDS),
    ] {
        let file = mixed(rt.alloc(), layout).expect(&rt, "a file");
        let is_so = reports(rt.alloc(), file.as_slice(), Some(expected)).expect(&rt, "memory");
        assert!(rt; is_so, "in {layout:?}");
    }
}

// A packet with another byte at this position.
fn altered(mut packet: Vec<u8>, position: usize, byte: u8) -> Vec<u8> {
    if let Some(place) = packet.get_mut(position) {
        *place = byte;
    }
    packet
}

// Whether a packet has no line, and the next record is read all the same.
fn is_passed_over(alloc: Global, packet: &[u8], wire_length: u32) -> Result<bool, DhcpError> {
    let mut file = BIG.file(alloc, 1)?;
    BIG.put_record(&mut file, (0, 0), packet, wire_length)?;
    BIG.put_record(&mut file, (1, 2), discover(alloc)?.as_slice(), 293)?;
    let expected = "2 1.000002 v4 0.0.0.0 255.255.255.255 DISCOVERY 12345678 0.0.0.0\nok\n";
    reports(alloc, file.as_slice(), Some(expected))
}

// What makes a Discover no message: a byte of its frame at a position.
const FAULTS4: [(&str, usize, u8); 6] = [
    ("a VLAN tag", 12, 0x81),
    ("a fragment", 20, 0x20),
    ("a UDP length past the packet", 38, 0x02),
    ("a UDP length below 8", 38, 0x00),
    ("no cookie", 278, 0x00),
    ("another protocol", 23, 0x06),
];

// What makes a Solicit no message.
const FAULTS6: [(&str, usize, u8); 5] = [
    ("a payload length past the frame", 19, 0x37),
    ("a UDP length past the payload", 59, 0x37),
    ("a UDP length below 8", 59, 0x07),
    ("options of every hop", 20, 0x00),
    ("a type without a name", 62, 0x0e),
];

#[test]
fn a_faulty_packet_has_no_line(rt: HostRuntime) {
    for (fault, position, byte) in FAULTS4 {
        let packet = altered(discover(rt.alloc()).expect(&rt, "a packet"), position, byte);
        let wire_length = 293;
        let is_so = is_passed_over(rt.alloc(), packet.as_slice(), wire_length);
        assert!(rt; is_so.expect(&rt, "memory"), "{fault}");
    }
    for (fault, position, byte) in FAULTS6 {
        let packet = altered(solicit(rt.alloc()), position, byte);
        let is_so = is_passed_over(rt.alloc(), packet.as_slice(), 108);
        assert!(rt; is_so.expect(&rt, "memory"), "{fault}");
    }
}

#[test]
fn more_bytes_than_on_the_wire_are_no_message(rt: HostRuntime) {
    let packet = discover(rt.alloc()).expect(&rt, "a packet");
    let is_so = is_passed_over(rt.alloc(), packet.as_slice(), 292);
    assert!(rt; is_so.expect(&rt, "memory"));
}

#[test]
fn a_length_of_4294967295_is_no_whole_record(rt: HostRuntime) {
    let mut file = BIG.file(rt.alloc(), 1).expect(&rt, "memory");
    for number in [0, 0, 4294967295, 4294967295, 0] {
        BIG.put(&mut file, number).expect(&rt, "memory");
    }
    let is_so = reports(rt.alloc(), file.as_slice(), Some("cut 20\n"));
    assert!(rt; is_so.expect(&rt, "memory"));
}

#[test]
fn records_are_read_one_by_one(rt: HostRuntime) {
    let file = mixed(rt.alloc(), LITTLE_NANO).expect(&rt, "a file");
    let capture = Capture::new(file.as_slice()).expect(&rt, "a capture");
    assert!(rt; capture.remainder() == 0);
    let messages = capture.filter(|packet| packet.message().is_some()).count();
    assert!(rt; messages == 5);
}

#[test]
fn a_record_has_its_numbers_and_its_message(rt: HostRuntime) {
    let file = example(rt.alloc()).expect(&rt, "a file");
    let mut capture = Capture::new(file.as_slice()).expect(&rt, "a capture");
    let packet = capture.next().expect(&rt, "a record");
    assert!(rt; (packet.seconds(), packet.fraction(), packet.wire_length()) == (1, 2, 293));
    assert!(rt; packet.bytes().len() == 293);
    assert!(rt; matches!(packet.message(), Some(Message::V4(_))));
}
