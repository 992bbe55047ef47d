//! Sessions: what is said besides the outputs, and how they end.

use crate::program::{Broken, hold, live};
use crate::scripts::{IPV4, USUAL, script};
use crate::words::push_line;
use dhcp_wire::DhcpError;
use std::alloc::{AllocError, Global};
use std::io::Cursor;

// Random words, the second of which draws a pause of five milliseconds; further ones are added.
const HEAD: &str = "
    dhcp4 2
    iface 1 020000000001 0 0
    host -
    client -
    codes 010306
    lease none
    words 1234567800000005
    start 0
";

// The first Discover draws its wait from the word 0: at 3005 that is over. The second draws it from
// the word 7, which was left when the word 9 was added, and waits 7007 milliseconds.
const TOLD: &str = "
    at 0 ok none
    words 0000000000000007
    at 5 ok none
    words 00000009
    at 3005 ok none
    end
";

const SAID: &str = "
    next 5 deaf 0
    2 handed frame DISCOVER
    next 3005 listening 1
    3 handed frame DISCOVER
    next 10012 listening 1
    ok
";

const DROPPED: &str = "
    at 0 ok none
    at 5 ok none
    at 1000 ok frame OFFER_TO_ANOTHER
    at 1005 ok frame OFFER
    end
";

const SAID_OF_DROPPED: &str = "
    next 5 deaf 0
    2 handed frame DISCOVER
    next 3005 listening 0
    dropped 3 other-transaction-id
    next 3005 listening 0
    4 state selecting
    4 handed frame REQUEST
    next 4005 listening 0
    ok
";

const HEAD6: &str = "
    dhcp6 2
    iface 1 fe800000000000000000000000000001 - na 0
    duid 00030001020000000001
    codes 0017
    lease none
    words 00abcdef
    start 0
";

const DROPPED6: &str = "
    at 0 ok none
    at 50 ok frame ADVERTISE6
    at 60 ok payload 01
    at 70 ok payload REPLY6_TO_7
    at 80 ok payload REPLY6_TO_SOLICIT
    at 100 ok payload ADVERTISE6
    at 200 ok payload REPLY6_OF_NO_ADDRESS
    at 300 ok payload REPLY6
    at 400 ok payload REPLY6
    end
";

const SAID_OF_DROPPED6: &str = "
    1 handed udp6 SOLICIT6.0000
    next 900 listening 0
    dropped 2 other-carrier
    next 900 listening 0
    dropped 3 no-message
    next 900 listening 0
    dropped 4 other-transaction-id
    next 900 listening 0
    dropped 5 other-type 7
    next 900 listening 0
    6 state request
    6 handed udp6 REQUEST6.0000
    next 1000 listening 0
    dropped 7 no-lease NoLease
    next 1000 listening 0
    8 state done LEASE6 50 80 100 200 REST6
    next 50300 deaf 0
    dropped 9 no-open-attempt
    next 50300 deaf 0
    ok
";

// These lines, with their words in capitals replaced.
fn lines(alloc: Global, parts: &[&str]) -> Result<String, AllocError> {
    let mut text = String::new(alloc);
    for part in parts {
        for line in part.lines() {
            push_line(&mut text, line.trim())?;
        }
    }
    Ok(text)
}

// Whether a session over these lines ends with a status, and this is said.
fn is_said(alloc: Global, told: &[&str], status: u8, said: &str) -> Result<bool, DhcpError> {
    let told = lines(alloc, told)?;
    let said = lines(alloc, &[said])?;
    Ok(live(alloc, told.as_bytes())?.is(status, said.as_str()))
}

#[test]
fn words_are_added_behind_those_that_are_left(rt: HostRuntime) {
    let is_said = is_said(rt.alloc(), &[HEAD, TOLD], 0, SAID).expect(&rt, "memory");
    assert!(rt; is_said);
}

#[test]
fn a_packet_that_is_no_answer_has_its_reason(rt: HostRuntime) {
    let cases = [
        (HEAD, DROPPED, SAID_OF_DROPPED),
        (HEAD6, DROPPED6, SAID_OF_DROPPED6),
    ];
    for (head, told, said) in cases {
        let is_said = is_said(rt.alloc(), &[head, told], 0, said).expect(&rt, "memory");
        assert!(rt; is_said, "{head}");
    }
}

#[test]
fn what_was_said_stays(rt: HostRuntime) {
    const CASES: [(&str, u8); 6] = [
        ("", 2),
        ("end of it", 2),
        ("start 0", 2),
        ("words 0000", 2),
        ("at 1 ok none at 2 ok none", 2),
        ("at 1152921504606846976 ok none", 7),
    ];
    for &(line, status) in &CASES {
        let told = [HEAD, "at 0 ok none", line];
        let is_said = is_said(rt.alloc(), &told, status, "next 5 deaf 0").expect(&rt, "memory");
        assert!(rt; is_said, "{line}");
    }
}

// Whether a session over the script with these events ends with this status.
fn ends_with(alloc: Global, line: &str, events: &str, status: u8) -> Result<bool, DhcpError> {
    let text = script(alloc, &IPV4, line, events)?;
    Ok(live(alloc, text.as_bytes())?.status == status)
}

#[test]
fn a_session_without_a_script_or_with_an_invalid_event_is_refused(rt: HostRuntime) {
    const CASES: [(&str, &str, u8); 6] = [
        (USUAL, "", 0),
        (USUAL, "at 5 ok none\nat 4 ok none", 7),
        ("start 1", "at 0 ok none", 7),
        ("iface 0 020000000001 0 0", "", 7),
        ("iface 1 02000000000A 0 0", "", 2),
        ("host 6", "", 2),
    ];
    for &(line, events, status) in &CASES {
        let ends = ends_with(rt.alloc(), line, events, status).expect(&rt, "memory");
        assert!(rt; ends, "{line} {events}");
    }
}

// The status of a session over a reader that fails.
fn status_unheard(alloc: Global) -> Result<u8, DhcpError> {
    let mut said = Vec::new(alloc);
    hold(alloc, Broken, &mut said)
}

// The status of a session with an event, over a writer that fails.
fn status_unsaid(alloc: Global) -> Result<u8, DhcpError> {
    let told = lines(alloc, &[HEAD, "at 0 ok none"])?;
    hold(alloc, Cursor::new(told.as_bytes()), Broken)
}

#[test]
fn a_session_that_is_not_heard_or_not_said_has_its_status(rt: HostRuntime) {
    assert!(rt; status_unheard(rt.alloc()).expect(&rt, "memory") == 3);
    assert!(rt; status_unsaid(rt.alloc()).expect(&rt, "memory") == 4);
}

#[test]
fn a_line_past_the_limit_is_too_long(rt: HostRuntime) {
    let bytes = vec![in rt.alloc(); b'a'; 16_777_217].expect(&rt, "memory");
    let ended = live(rt.alloc(), bytes.as_slice()).expect(&rt, "memory");
    assert!(rt; ended.is_empty(6));
    let ended = live(rt.alloc(), &bytes.as_slice()[1..]).expect(&rt, "memory");
    assert!(rt; ended.is_empty(2));
}

#[test]
fn a_session_has_more_events_than_a_script(rt: HostRuntime) {
    let events = "at 0 ok none\n"
        .repeat(rt.alloc(), 20_001)
        .expect(&rt, "memory");
    let ends = ends_with(rt.alloc(), USUAL, events.as_str(), 0).expect(&rt, "memory");
    assert!(rt; ends);
}
