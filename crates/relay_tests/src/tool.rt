//! The call behind the program: its words, its statuses, and what it writes.

use crate::messages::{FORWARD, REPLIED, REPLY, SOLICIT};
use dhcp_stream::{MemSink, MemSource};
use dhcp_wire::DhcpError;
use dhcp6_relay::relay_tool;
use std::alloc::Global;

const LINK: &str = "20010db8000000000000000000000001";

const PEER: &str = "fe800000000000000000000000000001";

// The exit status for these words and this input, and what was written. The read and the write with
// these numbers fail.
fn run(
    alloc: Global,
    words: &[&str],
    input: &[u8],
    failing: [u32; 2],
) -> Result<(u8, Vec<u8>), DhcpError> {
    let mut owned = Vec::new(alloc);
    for word in words {
        owned.push(String::from_str(alloc, word)?)?;
    }
    let mut source = MemSource::new(input.to_vec(alloc)?, vec![in alloc; failing[0]]?);
    let mut sink = MemSink::new(alloc, 4096, vec![in alloc; failing[1]]?)?;
    let status = relay_tool(alloc, owned.as_slice(), &mut source, &mut sink);
    Ok((status, sink.bytes().to_vec(alloc)?))
}

// Whether a run writes this line, for these words and this line.
fn writes(alloc: Global, words: &[&str], input: &str, output: &str) -> Result<bool, DhcpError> {
    let line = format!(in alloc; "{input}\n")?;
    let (status, taken) = run(alloc, words, line.as_bytes(), [9, 9])?;
    let want = format!(in alloc; "{output}\n")?;
    Ok(status == 0 && taken.as_slice() == want.as_bytes())
}

// Whether a run ends with this status and writes nothing.
fn ends(alloc: Global, words: &[&str], input: &[u8], expected: u8) -> Result<bool, DhcpError> {
    let (status, taken) = run(alloc, words, input, [9, 9])?;
    Ok(status == expected && taken.is_empty())
}

#[test]
fn a_message_is_relayed_there_and_back(rt: HostRuntime) {
    let alloc = rt.alloc();
    let wrap = ["wrap", LINK, PEER, "-"];
    assert!(rt; writes(alloc, &wrap, SOLICIT, FORWARD).expect(&rt, "memory"));
    assert!(rt; writes(alloc, &["reply", REPLY], FORWARD, REPLIED).expect(&rt, "memory"));
    assert!(rt; writes(alloc, &["unwrap"], REPLIED, REPLY).expect(&rt, "memory"));
}

#[test]
fn an_empty_message_is_a_dash(rt: HostRuntime) {
    let alloc = rt.alloc();
    let forward = format!(in alloc; "0c00{LINK}{PEER}0009000000120001ff").expect(&rt, "memory");
    let reply = format!(in alloc; "0d00{LINK}{PEER}0009000000120001ff").expect(&rt, "memory");
    let wrap = ["wrap", LINK, PEER, "ff"];
    assert!(rt; writes(alloc, &wrap, "-", forward.as_str()).expect(&rt, "memory"));
    assert!(rt;
        writes(alloc, &["reply", "-"], forward.as_str(), reply.as_str()).expect(&rt, "memory",)
    );
    assert!(rt; writes(alloc, &["unwrap"], reply.as_str(), "-").expect(&rt, "memory"));
}

#[test]
fn other_words_are_wrong(rt: HostRuntime) {
    const CASES: [&[&str]; 9] = [
        &[],
        &["Unwrap"],
        &["unwrap", "-"],
        &["reply"],
        &["reply", "0"],
        &["wrap", LINK, PEER],
        &["wrap", LINK, "fe80::1", "-"],
        &["wrap", "", PEER, "-"],
        &["wrap", LINK, PEER, ""],
    ];
    for &words in &CASES {
        assert!(rt;
            ends(rt.alloc(), words, b"-\n", 1).expect(&rt, "memory"),
            "{words:?}"
        );
    }
}

#[test]
fn a_line_is_no_message_or_a_refused_one(rt: HostRuntime) {
    const CASES: [(&[u8], u8); 7] = [
        (b"", 2),
        (b"0d", 2),
        (b"0D\n", 2),
        (b"0d0\n", 2),
        (b"0d\n0d\n", 2),
        (b"0d\n", 7),
        (b"-\n", 7),
    ];
    for &(input, status) in &CASES {
        assert!(rt;
            ends(rt.alloc(), &["unwrap"], input, status).expect(&rt, "memory"),
            "{input:?}"
        );
    }
}

#[test]
fn faults_of_the_streams_are_told(rt: HostRuntime) {
    let wrap = ["wrap", LINK, PEER, "-"];
    let (status, taken) = run(rt.alloc(), &wrap, b"-\n", [1, 9]).expect(&rt, "memory");
    assert!(rt; (status, taken.len()) == (3, 0));
    let (status, taken) = run(rt.alloc(), &wrap, b"-\n", [9, 1]).expect(&rt, "memory");
    assert!(rt; (status, taken.len()) == (4, 0));
}
