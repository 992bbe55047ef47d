//! Each exit status by its cause.

use crate::program::{Ended, Faults, run, run_with_faults};
use crate::scripts::{Family, IPV4, IPV6, USUAL, script};
use dhcp_tool::status_without_words;
use dhcp_wire::DhcpError;
use std::alloc::Global;
use std::env::{Env, FillError};
use std::{env, io};

// Three events that lead to a lease.
const LEASED: &str = "
    at 0 ok none
    at 1000 ok frame OFFER
    at 2000 ok frame ACK
";

// The text of the script that leads to a lease.
fn leased(alloc: Global) -> Result<String, DhcpError> {
    Ok(script(alloc, &IPV4, USUAL, LEASED)?)
}

// A run of it with calls that fail.
fn leased_with(alloc: Global, words: &[&str], faults: Faults) -> Result<Ended, DhcpError> {
    run_with_faults(alloc, words, leased(alloc)?.as_bytes(), faults)
}

// Whether these words are wrong, over a source and a sink that fail.
fn are_wrong(alloc: Global, words: &[&str]) -> Result<bool, DhcpError> {
    let faults = Faults { read: 1, write: 1 };
    Ok(leased_with(alloc, words, faults)?.is_empty(1))
}

#[test]
fn other_words_are_wrong(rt: HostRuntime) {
    const CASES: [&[&str]; 13] = [
        &[],
        &["run", "x"],
        &["Run"],
        &["run "],
        &["upgrade", "1"],
        &["upgrade", "run"],
        &["demo"],
        &["demo", "0"],
        &["demo", "01"],
        &["demo", "2001"],
        &["demo", "+1"],
        &["demo", "1", "1"],
        &["Demo", "1"],
    ];
    for &words in &CASES {
        assert!(rt;
            are_wrong(rt.alloc(), words).expect(&rt, "memory"),
            "{words:?}"
        );
    }
}

// Whether the run of a script with this line and these events ends with this status, and writes
// nothing.
fn ends_with(
    alloc: Global,
    family: &Family,
    line: &str,
    events: &str,
    status: u8,
) -> Result<bool, DhcpError> {
    let text = script(alloc, family, line, events)?;
    Ok(run(alloc, &["run"], text.as_bytes())?.is_empty(status))
}

#[test]
fn texts_are_no_script_or_not_valid(rt: HostRuntime) {
    let zeros = "00".repeat(rt.alloc(), 256).expect(&rt, "memory");
    let codes = format!(in rt.alloc(); "codes {zeros}").expect(&rt, "memory");
    let cases = [
        ("iface 1 02000000000A 0 0", LEASED, 2),
        ("iface 4294967296 020000000001 0 0", LEASED, 2),
        ("iface 0 020000000001 0 0", LEASED, 7),
        (codes.as_str(), LEASED, 7),
        (USUAL, "at 5 ok none\nat 4 ok none", 7),
        ("start 1", "at 0 ok none", 7),
        (
            "start 1152921504606846975",
            "at 1152921504606846976 ok none",
            7,
        ),
        ("lease LEASE 20 10 30 REST", LEASED, 7),
    ];
    for (line, events, status) in cases {
        let ends = ends_with(rt.alloc(), &IPV4, line, events, status).expect(&rt, "memory");
        assert!(rt; ends, "{line} {events}");
    }
}

#[test]
fn a_packet_has_at_most_1500_bytes(rt: HostRuntime) {
    let zeros = "00".repeat(rt.alloc(), 1501).expect(&rt, "memory");
    let event = format!(in rt.alloc(); "at 0 ok frame {zeros}").expect(&rt, "memory");
    let ends = ends_with(rt.alloc(), &IPV4, USUAL, event.as_str(), 7).expect(&rt, "memory");
    assert!(rt; ends);
}

#[test]
fn a_script_has_at_most_20000_events(rt: HostRuntime) {
    let events = "at 0 ok none\n"
        .repeat(rt.alloc(), 20_001)
        .expect(&rt, "memory");
    let ends = ends_with(rt.alloc(), &IPV4, USUAL, events.as_str(), 7).expect(&rt, "memory");
    assert!(rt; ends);
}

#[test]
fn texts_of_ipv6_are_no_script_or_not_valid(rt: HostRuntime) {
    let numbers = "0017".repeat(rt.alloc(), 1001).expect(&rt, "memory");
    let codes = format!(in rt.alloc(); "codes {numbers}").expect(&rt, "memory");
    let cases = [
        (
            "iface 1 fe800000000000000000000000000001 02000000000A na 0",
            2,
        ),
        ("iface 1 020000000001 0 0", 2),
        ("lease LEASE 10 20 30 REST", 2),
        ("lease LEASE6 50 80 100 200", 2),
        ("iface 0 fe800000000000000000000000000001 - na 0", 7),
        ("iface 1 00000000000000000000000000000000 - na 0", 7),
        ("duid ff", 7),
        (codes.as_str(), 7),
        ("lease LEASE6 50 80 70 70 REST6", 7),
        ("lease LEASE6 50 80 201 200 REST6", 7),
    ];
    for (line, status) in cases {
        let ends = ends_with(rt.alloc(), &IPV6, line, "at 0 ok none", status).expect(&rt, "memory");
        assert!(rt; ends, "{line}");
    }
}

// Whether the run of these bytes ends with this status, and writes nothing.
fn ends_over(alloc: Global, bytes: &[u8], status: u8) -> Result<bool, DhcpError> {
    Ok(run(alloc, &["run"], bytes)?.is_empty(status))
}

#[test]
fn more_than_the_limit_is_too_long(rt: HostRuntime) {
    let bytes = vec![in rt.alloc(); b'a'; 16_777_217].expect(&rt, "memory");
    assert!(rt; ends_over(rt.alloc(), bytes.as_slice(), 6).expect(&rt, "memory"));
    assert!(rt; ends_over(rt.alloc(), &bytes.as_slice()[1..], 2).expect(&rt, "memory"));
    assert!(rt; ends_over(rt.alloc(), b"", 2).expect(&rt, "memory"));
}

// Whether the run of a script that leads to a lease ends with this status where these calls fail.
// What it writes is whole with status 0, and else nothing.
fn ends_where(alloc: Global, faults: Faults, status: u8) -> Result<bool, DhcpError> {
    let whole = run(alloc, &["run"], leased(alloc)?.as_bytes())?;
    let ended = leased_with(alloc, &["run"], faults)?;
    if status == 0 {
        Ok(ended.status == 0 && ended.text == whole.text)
    } else {
        Ok(ended.is_empty(status))
    }
}

#[test]
fn each_failing_read_and_write_has_its_status(rt: HostRuntime) {
    // The first read gives all bytes and the second none, and the first write takes all.
    const CASES: [(Faults, u8); 5] = [
        (Faults { read: 1, write: 0 }, 3),
        (Faults { read: 2, write: 0 }, 3),
        (Faults { read: 3, write: 0 }, 0),
        (Faults { read: 0, write: 1 }, 4),
        (Faults { read: 0, write: 2 }, 0),
    ];
    for &(faults, status) in &CASES {
        let ends = ends_where(rt.alloc(), faults, status).expect(&rt, "memory");
        assert!(rt; ends, "{faults:?}");
    }
}

// A command line whose one word is the byte ff, which is not UTF-8.
#[derive(Drop)]
struct OtherBytes;

impl Env for OtherBytes {
    fn arg(&self, i: usize, buf: &mut [u8]) -> Result<usize, FillError> {
        match buf {
            _ if i > 0 => Err(FillError::NotPresent),
            [] => Err(FillError::TooLong),
            [first, ..] => {
                *first = 0xff;
                Ok(1)
            }
        }
    }

    fn var(&self, _name: &str, _buf: &mut [u8]) -> Result<usize, FillError> {
        Err(FillError::NotPresent)
    }

    fn var_at(&self, _i: usize, _buf: &mut [u8]) -> Result<usize, FillError> {
        Err(FillError::NotPresent)
    }
}

// The status where its words cannot be read, if so.
fn status_of_other_bytes(alloc: Global) -> Option<u8> {
    match env::args(&(OtherBytes, alloc)) {
        Ok(_) => None,
        Err(error) => Some(status_of(&error)),
    }
}

// The number of the status where words cannot be read by this error.
fn status_of(error: &io::Error) -> u8 {
    u8::from(status_without_words(error))
}

#[test]
fn a_word_that_is_not_utf_8_is_a_wrong_word(rt: HostRuntime) {
    assert!(rt; status_of_other_bytes(rt.alloc()) == Some(1));
}
