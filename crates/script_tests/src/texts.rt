//! Texts that are read, and texts that are refused.

use crate::scripts::{ADDRESSES, is_read, is_script, is_written_back, text_of};
use std::alloc::{AllocError, Global};

// Whether the text that has these lease and event lines is written as the same bytes.
fn is_kept(alloc: Global, lease: &str, events: &str) -> Result<bool, AllocError> {
    let text = text_of(alloc, 2, lease, events)?;
    is_written_back(alloc, text.as_str())
}

#[test]
fn texts_are_written_back(rt: HostRuntime) {
    let lease = "192.0.2.10 192.0.2.1 192.0.2.1 10 20 30";
    let rest =
        "255.255.255.0 192.0.2.255 1500 192.0.2.1,192.0.2.2 - none 68 - 10.0.0.0/8/192.0.2.1";
    let held = format!(in rt.alloc(); "{lease} {rest}").expect(&rt, "memory");
    let events = "at 0 ok frame 00ff\nat 7 refuse payload -\nat 7 ok release\nend\n";
    assert!(rt; is_kept(rt.alloc(), held.as_str(), events).expect(&rt, "memory"));
    assert!(rt; is_kept(rt.alloc(), "none", "end\n").expect(&rt, "memory"));
}

// Whether the text of version 3 that says these forms of messages is written as the same bytes.
fn is_kept_with(alloc: Global, forms: &str) -> Result<bool, AllocError> {
    let front = "dhcp4 3\niface 1 020000000001 0 7";
    let rest = "host -\nclient 01ff\ncodes default\nlease none\nwords -\nstart 0\nend";
    let text = format!(in alloc; "{front}\nforms {forms}\n{rest}\n")?;
    is_written_back(alloc, text.as_str())
}

#[test]
fn texts_of_version_3_are_written_back(rt: HostRuntime) {
    for forms in ["mozim", "rfc2131"] {
        assert!(rt;
            is_kept_with(rt.alloc(), forms).expect(&rt, "memory"),
            "{forms}"
        );
    }
}

#[test]
fn lines_of_events_are_read_or_refused(rt: HostRuntime) {
    const CASES: [(&str, bool); 18] = [
        ("end\n", true),
        (
            "at 0 ok none\nat 5 refuse release\nat 5 ok cleanup\nend\n",
            true,
        ),
        ("at 0 ok frame -\nat 0 ok payload 00ff\nend\n", true),
        ("at 18446744073709551615 ok none\nend\n", true),
        ("at 18446744073709551616 ok none\nend\n", false),
        ("at 00 ok none\nend\n", false),
        ("at 0 ok none \nend\n", false),
        ("at 0 ok  none\nend\n", false),
        ("at 0 ok none none\nend\n", false),
        ("at 0 ok none\r\nend\r\n", false),
        ("at 0 ok payload 00FF\nend\n", false),
        ("at 0 ok payload 00f\nend\n", false),
        ("at 0 ok frame\nend\n", false),
        ("at 0 ok wait\nend\n", false),
        ("end", false),
        ("end\nend\n", false),
        ("end\n\n", false),
        ("", false),
    ];
    for &(events, want) in &CASES {
        let is_script = is_script(rt.alloc(), "none", events).expect(&rt, "memory");
        assert!(rt; is_script == want, "{events:?}");
    }
}

// Whether a text whose lease ends with these fields is that of a script.
fn is_script_with(alloc: Global, fields: &str) -> Result<bool, AllocError> {
    let held = format!(in alloc; "{ADDRESSES} 10 20 30 {fields}")?;
    is_script(alloc, held.as_str(), "end\n")
}

#[test]
fn fields_of_a_lease_are_read_or_refused(rt: HostRuntime) {
    const CASES: [(&str, bool); 13] = [
        ("0.0.0.0 none none none none none none none none", true),
        ("0.0.0.0 0.0.0.0 65535 - - - - - -", true),
        (
            "255.255.255.0 none none 192.0.2.1,192.0.2.2 - none 68 - 10.0.0.0/8/192.0.2.1",
            true,
        ),
        ("0.0.0.0 - none none none none none none none", false),
        ("0.0.0.0 none 65536 none none none none none none", false),
        ("0.0.0.0 none none , none none none none none", false),
        (
            "0.0.0.0 none none 192.0.2.1, none none none none none",
            false,
        ),
        ("0.0.0.0 none none none none none ff none none", false),
        (
            "0.0.0.0 none none none none none none none 10.0.0.0/256/192.0.2.1",
            false,
        ),
        (
            "0.0.0.0 none none none none none none none 10.0.0.0/8",
            false,
        ),
        ("0.0.0.0 none none none none none none none", false),
        (
            "0.0.0.0 none none none none none none none none none",
            false,
        ),
        ("0.0.0.0 none none none none none none none none ", false),
    ];
    for &(fields, want) in &CASES {
        let is_script = is_script_with(rt.alloc(), fields).expect(&rt, "memory");
        assert!(rt; is_script == want, "{fields}");
    }
    assert!(rt; !is_script(rt.alloc(), "-", "end\n").expect(&rt, "memory"));
}

// Whether a text that begins with this one, and has no codes, lease, words and events, is read.
fn begins_a_script(alloc: Global, front: &str) -> Result<bool, AllocError> {
    let text = format!(in alloc; "{front}codes default\nlease none\nwords -\nstart 0\nend\n")?;
    is_read(alloc, text.as_str())
}

#[test]
fn first_lines_are_read_or_refused(rt: HostRuntime) {
    const CASES: [(&str, bool); 25] = [
        (
            "dhcp4 2\niface 1 020000000001 0 0\nhost -\nclient -\n",
            true,
        ),
        (
            "dhcp4 2\niface 4294967295 ffffffffffff 1 4294967295\nhost 00\nclient 01ff\n",
            true,
        ),
        (
            "dhcp4 3\niface 1 020000000001 0 0\nforms mozim\nhost -\nclient -\n",
            true,
        ),
        (
            "dhcp4 3\niface 1 020000000001 0 0\nforms rfc2131\nhost -\nclient -\n",
            true,
        ),
        (
            "dhcp6 2\niface 1 00000000000000000000000000000001 - na 0\nduid -\n",
            true,
        ),
        ("", false),
        (
            "dhcp4 1\niface 1 020000000001 0 0\nhost -\nclient -\n",
            false,
        ),
        (
            "dhcp4 3\niface 1 020000000001 0 0\nhost -\nclient -\n",
            false,
        ),
        (
            "dhcp4 2\niface 1 020000000001 0 0\nforms mozim\nhost -\nclient -\n",
            false,
        ),
        (
            "dhcp4 3\nforms mozim\niface 1 020000000001 0 0\nhost -\nclient -\n",
            false,
        ),
        (
            "dhcp4 3\niface 1 020000000001 0 0\nforms RFC2131\nhost -\nclient -\n",
            false,
        ),
        (
            "dhcp4 3\niface 1 020000000001 0 0\nforms \nhost -\nclient -\n",
            false,
        ),
        (
            "dhcp4 4\niface 1 020000000001 0 0\nforms mozim\nhost -\nclient -\n",
            false,
        ),
        (
            "dhcp6 3\niface 1 00000000000000000000000000000001 - na 0\nduid -\n",
            false,
        ),
        (
            "dhcp6 3\niface 1 00000000000000000000000000000001 - na 0\nforms mozim\nduid -\n",
            false,
        ),
        (
            "dhcp6 2\niface 1 020000000001 0 0\nhost -\nclient -\n",
            false,
        ),
        (
            "dhcp4 2\r\niface 1 020000000001 0 0\nhost -\nclient -\n",
            false,
        ),
        (
            "dhcp4 2\niface 4294967296 020000000001 0 0\nhost -\nclient -\n",
            false,
        ),
        (
            "dhcp4 2\niface 1 02000000000A 0 0\nhost -\nclient -\n",
            false,
        ),
        (
            "dhcp4 2\niface 1 02000000001 0 0\nhost -\nclient -\n",
            false,
        ),
        (
            "dhcp4 2\niface 1 020000000001 2 0\nhost -\nclient -\n",
            false,
        ),
        (
            "dhcp4 2\niface 1 020000000001 0 4294967296\nhost -\nclient -\n",
            false,
        ),
        (
            "dhcp4 2\niface 1 020000000001 0 0 \nhost -\nclient -\n",
            false,
        ),
        (
            "dhcp4 2\niface 1 020000000001 0 0\nhost \nclient -\n",
            false,
        ),
        (
            "dhcp4 2\niface 1 020000000001 0 0\nclient -\nhost -\n",
            false,
        ),
    ];
    for &(front, want) in &CASES {
        let begins = begins_a_script(rt.alloc(), front).expect(&rt, "memory");
        assert!(rt; begins == want, "{front:?}");
    }
    assert!(rt; !is_read(rt.alloc(), "").expect(&rt, "memory"));
}
