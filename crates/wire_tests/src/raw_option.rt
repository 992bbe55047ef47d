//! The raw options of a list.

use dhcp_wire::{OptionFormat, RawOptions};

// Whole options at the front: the format, the bytes, the code, the value, and how many bytes
// follow.
const WHOLE: [(OptionFormat, &[u8], u16, &[u8], usize); 5] = [
    (OptionFormat::DhcpV4, &[0, 53, 1, 2], 0, &[], 3),
    (OptionFormat::DhcpV4, &[255, 9], 255, &[], 1),
    (OptionFormat::DhcpV4, &[53, 1, 2, 255], 53, &[2], 1),
    (OptionFormat::DhcpV6, &[0, 0, 0, 0], 0, &[], 0),
    (
        OptionFormat::DhcpV6,
        &[1, 3, 0, 2, 7, 8, 9],
        0x0103,
        &[7, 8],
        1,
    ),
];

#[test]
fn a_whole_option_is_found_at_the_front(rt: HostRuntime) {
    for &(format, bytes, code, value, len) in &WHOLE {
        match format.raw_option_at(bytes) {
            Some((option, rest)) => {
                assert!(rt; (option.code, rest.len()) == (code, len));
                assert!(rt; option.value == value);
            }
            None => assert!(rt; false, "no option of code {code}"),
        }
    }
}

#[test]
fn a_truncated_option_is_none(rt: HostRuntime) {
    const TABLE: [(OptionFormat, &[u8]); 5] = [
        (OptionFormat::DhcpV4, &[]),
        (OptionFormat::DhcpV4, &[53]),
        (OptionFormat::DhcpV4, &[53, 2, 1]),
        (OptionFormat::DhcpV6, &[0, 1, 0]),
        (OptionFormat::DhcpV6, &[0, 1, 0, 2, 7]),
    ];
    for &(format, bytes) in &TABLE {
        assert!(rt; format.raw_option_at(bytes).is_none());
    }
}

#[test]
fn a_list_is_read_up_to_its_end(rt: HostRuntime) {
    let mut options = RawOptions::new(OptionFormat::DhcpV4, &[0, 53, 1, 2, 255, 53, 1, 3]);
    for code in [0, 53, 255] {
        assert!(rt; options.next().map(|option| option.code) == Some(code));
    }
    assert!(rt; options.next().is_none());
}

#[test]
fn end_ends_a_list_of_dhcpv4_alone(rt: HostRuntime) {
    assert!(rt; OptionFormat::DhcpV4.counted_after(255, &[1, 2]).len() == 0);
    assert!(rt; OptionFormat::DhcpV4.counted_after(0, &[1, 2]).len() == 2);
    assert!(rt; OptionFormat::DhcpV6.counted_after(255, &[1, 2]).len() == 2);
}
