//! What is written for the words `upgrade` and `demo`.

use crate::program::{Faults, run, run_with_faults};
use crate::scripts::{Family, IPV4, IPV6, USUAL, script_in};
use dhcp_wire::DhcpError;
use std::alloc::Global;

// An event at which nothing comes in.
const EVENT: &str = "at 0 ok none";

// Whether the version 1 text with the first line is upgraded to the version 2 text with the other.
fn is_upgraded(
    alloc: Global,
    family: &Family,
    old_line: &str,
    new_line: &str,
) -> Result<bool, DhcpError> {
    let old = script_in(alloc, family, 1, old_line, EVENT)?;
    let new = script_in(alloc, family, 2, new_line, EVENT)?;
    Ok(run(alloc, &["upgrade"], old.as_bytes())?.is(0, new.as_str()))
}

#[test]
fn an_upgrade_has_the_same_lines_in_version_2(rt: HostRuntime) {
    let cases = [
        (IPV4, "lease LEASE 10 20 30", "lease LEASE 10 20 30 REST"),
        (IPV4, "lease LEASE 20 10 30", "lease LEASE 20 10 30 REST"),
        (IPV4, "iface 0 020000000001 0 0", "iface 0 020000000001 0 0"),
        (
            IPV6,
            "lease LEASE6 50 80 100 200",
            "lease LEASE6 50 80 100 200 NO_REST6",
        ),
        (IPV6, "duid ff", "duid ff"),
    ];
    for (family, old_line, new_line) in cases {
        let is_upgraded = is_upgraded(rt.alloc(), &family, old_line, new_line).expect(
            &rt, "memory",
        );
        assert!(rt; is_upgraded, "{old_line}");
    }
}

// Whether the usual text in a version is no script for this word.
fn is_no_script(
    alloc: Global,
    family: &Family,
    version: u32,
    word: &str,
) -> Result<bool, DhcpError> {
    let text = script_in(alloc, family, version, USUAL, EVENT)?;
    Ok(run(alloc, &[word], text.as_bytes())?.is_empty(2))
}

#[test]
fn each_version_has_its_word(rt: HostRuntime) {
    for family in [IPV4, IPV6] {
        for (version, word) in [(1, "run"), (2, "upgrade")] {
            let is_none = is_no_script(rt.alloc(), &family, version, word).expect(&rt, "memory");
            assert!(rt; is_none, "{version} {word}");
        }
    }
}

// Whether a demonstration of so many rounds has this summary, over a source that fails.
fn is_summed_up(alloc: Global, rounds: &str, summary: &str) -> Result<bool, DhcpError> {
    let faults = Faults { read: 1, write: 0 };
    Ok(run_with_faults(alloc, &["demo", rounds], b"", faults)?.is(0, summary))
}

#[test]
fn a_demonstration_is_counted_and_reads_nothing(rt: HostRuntime) {
    let cases = [
        (
            "1",
            "events 6\nhanded 5\nrefused 0\nchanged 4\nfailed 0\nok\n",
        ),
        (
            "2000",
            "events 10001\nhanded 8001\nrefused 0\nchanged 8000\nfailed 0\nok\n",
        ),
    ];
    for (rounds, summary) in cases {
        let is_summed_up = is_summed_up(rt.alloc(), rounds, summary).expect(&rt, "memory");
        assert!(rt; is_summed_up, "{rounds}");
    }
}
