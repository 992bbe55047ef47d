//! Scripts of an IPv6 client: texts that are read or refused, their limits and their versions.

use crate::scripts::{
    FRONT, NO_FIELDS, REST, is_read, is_read_v1, is_upgraded_to, is_valid, is_written_back,
};
use std::alloc::{AllocError, Global};

const IFACE: &str = "1 fe800000000000000000000000000001 - na 0";

const DUID: &str = "00030001020000000001";

// A lease up to its times, its times, and its other fields.
const LEASED: &str = "na 40 20010db8000000000000000000000010 128 00030001020000000002";

const TIMES: &str = "50 80 100 200";

const LATER: &str = "7 00030001020000000001 00000000000000000000000000000000";

const NO_LATER: &str = "0 - 00000000000000000000000000000000";

// The text in a version that has these lines of the interface, the identifier, the codes and the
// lease.
fn text6(alloc: Global, version: u8, lines: [&str; 4]) -> Result<String, AllocError> {
    let [iface, duid, codes, lease] = lines;
    format!(in alloc;
        "dhcp6 {version}\niface {iface}\nduid {duid}\ncodes {codes}\nlease {lease}\n{REST}\
        at 0 ok none\nend\n"
    )
}

// Whether the text that has these lines is that of a script.
fn is_read6(alloc: Global, lines: [&str; 4]) -> Result<bool, AllocError> {
    is_read(alloc, text6(alloc, 2, lines)?.as_str())
}

// Whether the text that has these lines is written as the same bytes.
fn is_kept(alloc: Global, lines: [&str; 4]) -> Result<bool, AllocError> {
    is_written_back(alloc, text6(alloc, 2, lines)?.as_str())
}

#[test]
fn texts_of_ipv6_are_written_back(rt: HostRuntime) {
    let lease = format!(in rt.alloc(); "{LEASED} {TIMES} {LATER}").expect(&rt, "memory");
    let cases = [
        [IFACE, DUID, "0017", "none"],
        [
            "4294967295 fe80000000000000000000000000000a 02000000000a pd 60 4294967295",
            "ff",
            "-",
            lease.as_str(),
        ],
        [
            "0 00000000000000000000000000000000 - ta 7",
            "-",
            "default",
            lease.as_str(),
        ],
    ];
    for lines in cases {
        assert!(rt;
            is_kept(rt.alloc(), lines).expect(&rt, "memory"),
            "{lines:?}"
        );
    }
}

#[test]
fn interfaces_of_ipv6_are_read_or_refused(rt: HostRuntime) {
    const CASES: [(&str, bool); 10] = [
        ("1 fe800000000000000000000000000001 02000000000a na 0", true),
        (
            "1 fe800000000000000000000000000001 02000000000A na 0",
            false,
        ),
        ("1 FE800000000000000000000000000001 - na 0", false),
        ("1 fe80::1 - na 0", false),
        ("1 fe800000000000000000000000000001 - pd 255 0", true),
        ("1 fe800000000000000000000000000001 - pd 256 0", false),
        ("1 fe800000000000000000000000000001 - pd 0", false),
        ("1 fe800000000000000000000000000001 - na 60 0", false),
        ("1 fe800000000000000000000000000001 -  na 0", false),
        ("1 020000000001 0 0", false),
    ];
    for &(iface, want) in &CASES {
        let is_read = is_read6(rt.alloc(), [iface, DUID, "default", "none"]).expect(&rt, "memory");
        assert!(rt; is_read == want, "{iface}");
    }
}

// A text whose lease has these fields.
fn text_of_lease(alloc: Global, fields: [&str; 3]) -> Result<String, AllocError> {
    let [leased, times, later] = fields;
    let lease = format!(in alloc; "{leased} {times} {later}")?;
    text6(alloc, 2, [IFACE, DUID, "default", lease.as_str()])
}

// Whether it is that of a script.
fn is_lease_read(alloc: Global, fields: [&str; 3]) -> Result<bool, AllocError> {
    is_read(alloc, text_of_lease(alloc, fields)?.as_str())
}

// Whether its script is valid.
fn is_lease_valid(alloc: Global, fields: [&str; 3]) -> Result<Option<bool>, AllocError> {
    is_valid(alloc, text_of_lease(alloc, fields)?.as_str())
}

#[test]
fn leases_of_ipv6_are_read_or_refused(rt: HostRuntime) {
    const CASES: [(&str, &str, &str, bool); 7] = [
        (LEASED, TIMES, LATER, true),
        (LEASED, TIMES, NO_LATER, true),
        (LEASED, "50 80 100", LATER, false),
        (LEASED, TIMES, "7 - 0.0.0.0", false),
        (
            "no 40 20010db8000000000000000000000010 128 00",
            TIMES,
            LATER,
            false,
        ),
        (
            "pd 40 20010db8000000000000000000000000 256 00",
            TIMES,
            LATER,
            false,
        ),
        (
            "192.0.2.10 192.0.2.1 192.0.2.1",
            "10 20 30",
            NO_FIELDS,
            false,
        ),
    ];
    for &(leased, times, later, want) in &CASES {
        let is_read = is_lease_read(rt.alloc(), [leased, times, later]).expect(&rt, "memory");
        assert!(rt; is_read == want, "{leased} {times} {later}");
    }
}

// Whether the script of the text that has these lines is valid.
fn is_valid6(alloc: Global, lines: [&str; 4]) -> Result<Option<bool>, AllocError> {
    is_valid(alloc, text6(alloc, 2, lines)?.as_str())
}

#[test]
fn an_address_and_an_index_are_not_zero(rt: HostRuntime) {
    let cases = [
        (IFACE, true),
        ("1 00000000000000000000000000000000 - na 0", false),
        ("0 fe800000000000000000000000000001 - na 0", false),
    ];
    for (iface, want) in cases {
        let is_valid = is_valid6(rt.alloc(), [iface, "-", "default", "none"]).expect(&rt, "memory");
        assert!(rt; is_valid == Some(want), "{iface}");
    }
}

#[test]
fn an_identifier_of_a_script_has_2_to_130_bytes(rt: HostRuntime) {
    let whole = "00".repeat(rt.alloc(), 130).expect(&rt, "memory");
    let long = "00".repeat(rt.alloc(), 131).expect(&rt, "memory");
    let cases = [
        ("-", true),
        ("00", false),
        ("0000", true),
        (whole.as_str(), true),
        (long.as_str(), false),
    ];
    for (duid, want) in cases {
        let is_valid = is_valid6(rt.alloc(), [IFACE, duid, "default", "none"]).expect(
            &rt, "memory",
        );
        assert!(rt; is_valid == Some(want), "{duid}");
    }
}

#[test]
fn a_script_lists_at_most_1000_codes(rt: HostRuntime) {
    let most = "0017".repeat(rt.alloc(), 1000).expect(&rt, "memory");
    let more = "0017".repeat(rt.alloc(), 1001).expect(&rt, "memory");
    for (codes, want) in [("-", true), (most.as_str(), true), (more.as_str(), false)] {
        let is_valid = is_valid6(rt.alloc(), [IFACE, "-", codes, "none"]).expect(&rt, "memory");
        assert!(rt; is_valid == Some(want), "{codes}");
    }
}

#[test]
fn leases_of_ipv6_are_within_their_limits(rt: HostRuntime) {
    const CASES: [(&str, &str, bool); 7] = [
        (LEASED, "50 80 100 100", true),
        (LEASED, "81 80 100 100", false),
        (LEASED, "50 101 100 100", false),
        (LEASED, "50 80 101 100", false),
        (
            "na 40 00000000000000000000000000000000 128 0003",
            TIMES,
            false,
        ),
        (
            "na 40 20010db8000000000000000000000010 128 00",
            TIMES,
            false,
        ),
        ("na 40 20010db8000000000000000000000010 128 -", TIMES, false),
    ];
    for &(leased, times, want) in &CASES {
        let is_valid = is_lease_valid(rt.alloc(), [leased, times, NO_LATER]).expect(&rt, "memory");
        assert!(rt; is_valid == Some(want), "{leased} {times}");
    }
}

// The text in a version that has this lease and asks for one option.
fn text_with_lease(alloc: Global, version: u8, lease: &str) -> Result<String, AllocError> {
    text6(alloc, version, [IFACE, DUID, "0017", lease])
}

// Whether the version 1 text that has the first lease is upgraded to the text that has the other.
fn is_lease_upgraded(alloc: Global, first: &str, whole: &str) -> Result<bool, AllocError> {
    let old = text_with_lease(alloc, 1, first)?;
    let new = text_with_lease(alloc, 2, whole)?;
    is_upgraded_to(alloc, old.as_str(), new.as_str())
}

#[test]
fn a_lease_of_ipv6_gains_the_fields_of_the_empty_one(rt: HostRuntime) {
    let first = format!(in rt.alloc(); "{LEASED} {TIMES}").expect(&rt, "memory");
    let whole = format!(in rt.alloc(); "{LEASED} {TIMES} {NO_LATER}").expect(&rt, "memory");
    let is_upgraded = is_lease_upgraded(rt.alloc(), first.as_str(), whole.as_str());
    assert!(rt; is_upgraded.expect(&rt, "memory"));
}

// Whether a text that has this lease is the version 1 text of a script.
fn is_version_1(alloc: Global, version: u8, lease: &str) -> Result<bool, AllocError> {
    let text = text6(alloc, version, [IFACE, DUID, "default", lease])?;
    is_read_v1(alloc, text.as_str())
}

// Whether a text whose lease ends so, after its times, is the version 1 text of a script.
fn is_lease_of_version_1(alloc: Global, version: u8, later: &str) -> Result<bool, AllocError> {
    let lease = format!(in alloc; "{LEASED} {TIMES}{later}")?;
    is_version_1(alloc, version, lease.as_str())
}

#[test]
fn a_text_of_ipv6_is_of_one_version(rt: HostRuntime) {
    assert!(rt; is_version_1(rt.alloc(), 1, "none").expect(&rt, "memory"));
    assert!(rt; !is_version_1(rt.alloc(), 2, "none").expect(&rt, "memory"));
    const CASES: [(u8, &str, bool); 5] = [
        (1, "", true),
        (1, " 7", false),
        (1, " 0 - 00000000000000000000000000000000", false),
        (2, "", false),
        (2, " 0 - 00000000000000000000000000000000", false),
    ];
    for &(version, later, want) in &CASES {
        let is_read = is_lease_of_version_1(rt.alloc(), version, later).expect(&rt, "memory");
        assert!(rt; is_read == want, "{version}{later}");
    }
}

// Whether a text that begins with this line and these, and has no lease, is that of a script.
fn begins_a_script(alloc: Global, first: &str, lines: &str) -> Result<bool, AllocError> {
    let text = format!(in alloc; "{first}\n{lines}lease none\n{REST}end\n")?;
    is_read(alloc, text.as_str())
}

#[test]
fn a_text_has_the_lines_of_its_family(rt: HostRuntime) {
    let lines6 = "iface 1 fe800000000000000000000000000001 - na 0\nduid -\ncodes 0017\n";
    let cases = [
        ("dhcp6 2", lines6, true),
        ("dhcp4 2", lines6, false),
        ("dhcp4 2", FRONT, true),
        ("dhcp6 2", FRONT, false),
    ];
    for (first, lines, want) in cases {
        let begins = begins_a_script(rt.alloc(), first, lines).expect(&rt, "memory");
        assert!(rt; begins == want, "{first}");
    }
}
