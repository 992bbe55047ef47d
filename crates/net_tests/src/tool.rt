//! The call behind the program: its script, its words, its statuses, and what it writes.

use dhcp_stream::{MemSink, MemSource};
use dhcp_wire::DhcpError;
use dhcp4_net_play::{net_tool, read_net_script, write_net_script};
use std::alloc::Global;

// Two clients with the message forms of mozim.
const CLIENTS: &str = "client 020000000001 12345678\nclient 020000000003 12345679\n";

// Two clients, of which the second has the message forms of RFC 2131.
const BOTH_FORMS: &str = "client 020000000001 12345678\nclient 020000000003 12345679 rfc2131\n";

// The lines of these clients and a server with this count of addresses, leases of 100 seconds and
// packets that take a second at most.
fn head_of(alloc: Global, count: u32, clients: &str) -> Result<String, DhcpError> {
    Ok(format!(in alloc;
        "net4 1\nserver 192.0.2.1 020000000002 255.255.255.0 192.0.2.10 {count} 100 1000\n\
         {clients}start 0\n"
    )?)
}

// The same of the clients with the message forms of mozim.
fn head(alloc: Global, count: u32) -> Result<String, DhcpError> {
    head_of(alloc, count, CLIENTS)
}

// Both clients ask for an address, the first gets it, and the second is refused.
const EVENTS: &str = "at 0 client 0 ok none\nat 0 client 1 ok none\nat 10 server deliver 0\n\
     at 10 server deliver 1\nat 20 client 0 ok deliver 2\nat 20 client 1 ok deliver 3\n\
     at 30 server deliver 4\nat 30 server deliver 5\nat 40 client 0 ok deliver 6\n\
     at 40 client 1 ok deliver 7\n";

// What is reported of these events.
const OUTPUTS: &str = "1 sent 0\n2 sent 1\n3 sent 2\n4 sent 3\n5 sent 4\n6 sent 5\n7 sent 6\n\
     8 sent 7\n9 hold 0 192.0.2.10 40 100040\n10 sent 8\n";

// The exit status for these words and this input, and what was written. The read and the write with
// these numbers fail.
fn run(
    alloc: Global,
    words: &[&str],
    input: &str,
    failing: [u32; 2],
) -> Result<(u8, Vec<u8>), DhcpError> {
    let mut owned = Vec::new(alloc);
    for word in words {
        owned.push(String::from_str(alloc, word)?)?;
    }
    let bytes = input.as_bytes().to_vec(alloc)?;
    let mut source = MemSource::new(bytes, vec![in alloc; failing[0]]?);
    let mut sink = MemSink::new(alloc, 4096, vec![in alloc; failing[1]]?)?;
    let status = net_tool(alloc, owned.as_slice(), &mut source, &mut sink);
    Ok((status, sink.bytes().to_vec(alloc)?))
}

// Whether a network with these events is answered by this text.
fn answers(alloc: Global, events: &str, more: &str, output: &str) -> Result<bool, DhcpError> {
    let head = head(alloc, 1)?;
    let input = format!(in alloc; "{head}{events}{more}end\n")?;
    prints(alloc, input.as_str(), output)
}

// Whether this input is answered by this text.
fn prints(alloc: Global, input: &str, output: &str) -> Result<bool, DhcpError> {
    let (status, taken) = run(alloc, &["run"], input, [9, 9])?;
    let wanted = format!(in alloc; "{output}ok\n")?;
    Ok(status == 0 && taken.as_slice() == wanted.as_bytes())
}

#[test]
fn an_address_is_offered_again_after_lease_and_bound(rt: HostRuntime) {
    let alloc = rt.alloc();
    let more = "at 101000 client 1 ok none\nat 101029 server deliver 9\n\
         at 101030 server deliver 9\n";
    let output = format!(in alloc; "{OUTPUTS}11 sent 9\n13 sent 10\n").expect(&rt, "memory");
    let is = answers(alloc, EVENTS, more, output.as_str()).expect(&rt, "memory");
    assert!(rt; is);
}

#[test]
fn a_packet_that_comes_again_in_time_changes_nothing(rt: HostRuntime) {
    let more = "at 1030 client 0 ok deliver 6\n";
    assert!(rt; answers(rt.alloc(), EVENTS, more, OUTPUTS).expect(&rt, "memory"));
}

// An Ack is lost, the next one comes twice, and a release is refused, sent and delivered: the
// address goes to the other client only after the last Ack's lease and the bound are over.
#[test]
fn a_released_address_is_kept_until_its_lease_and_the_bound_are_over(rt: HostRuntime) {
    let events = "at 0 client 0 ok none\nat 10 server deliver 0\nat 20 client 0 ok deliver 1\n\
         at 30 server deliver 2\nat 31 server deliver 2\nat 40 client 0 ok deliver 4\n\
         at 50 client 0 ok deliver 4\nat 60 client 0 refuse release\nat 70 client 0 ok release\n\
         at 80 server deliver 5\nat 90 client 1 ok none\nat 100 server deliver 7\n";
    let more = "at 101030 client 1 ok none\nat 101030 server deliver 8\n\
         at 101031 server deliver 8\nat 101040 client 1 ok deliver 9\n\
         at 101050 server deliver 10\nat 101060 client 1 ok deliver 11\n";
    let output = "1 sent 0\n2 sent 1\n3 sent 2\n4 sent 3\n5 sent 4\n\
         6 hold 0 192.0.2.10 40 100040\n8 failed 0 io_error\n9 sent 5\n9 sent 6\n11 sent 7\n\
         13 sent 8\n15 sent 9\n16 sent 10\n17 sent 11\n18 hold 1 192.0.2.10 101060 201060\n";
    assert!(rt; answers(rt.alloc(), events, more, output).expect(&rt, "memory"));
}

// Both clients go through the same: their first Discover is lost, and so is the first Ack. The one
// with mozim's forms waits seven seconds for it, since its attempts count on from the second
// Discover: at 9999 it sends nothing, and at 10000 its request again. The one with those of RFC
// 2131 counts anew from its request, and waits three (section 4.1). Both renewals are payloads that
// the server acknowledges, that of RFC 2131 by `ciaddr` alone, and the server takes a Release
// without an answer.
#[test]
fn each_client_has_its_own_message_forms(rt: HostRuntime) {
    let alloc = rt.alloc();
    let head = head_of(alloc, 2, BOTH_FORMS).expect(&rt, "memory");
    let events = "at 0 client 0 ok none\nat 0 client 1 ok none\nat 3000 client 0 ok none\n\
         at 3000 client 1 ok none\nat 3000 server deliver 2\nat 3000 client 0 ok deliver 4\n\
         at 3000 server deliver 5\nat 3000 server deliver 3\nat 3000 client 1 ok deliver 7\n\
         at 3000 server deliver 8\nat 6000 client 1 ok none\nat 6000 server deliver 10\n\
         at 6000 client 1 ok deliver 11\nat 9999 client 0 ok none\nat 10000 client 0 ok none\n\
         at 10000 server deliver 12\nat 10000 client 0 ok deliver 13\n";
    let more = "at 56000 client 1 ok none\nat 56000 server deliver 14\n\
         at 56000 client 1 ok deliver 15\nat 68000 client 0 ok none\nat 68000 server deliver 16\n\
         at 68000 client 0 ok deliver 17\nat 68000 client 1 ok release\n\
         at 68000 server deliver 18\nend\n";
    let input = format!(in alloc; "{head}{events}{more}").expect(&rt, "memory");
    let output = "1 sent 0\n2 sent 1\n3 sent 2\n4 sent 3\n5 sent 4\n6 sent 5\n7 sent 6\n\
         8 sent 7\n9 sent 8\n10 sent 9\n11 sent 10\n12 sent 11\n\
         13 hold 1 192.0.2.11 6000 106000\n15 sent 12\n16 sent 13\n\
         17 hold 0 192.0.2.10 10000 110000\n18 sent 14\n19 sent 15\n\
         20 hold 1 192.0.2.11 56000 156000\n21 sent 16\n22 sent 17\n\
         23 hold 0 192.0.2.10 68000 168000\n24 sent 18\n24 sent 19\n";
    assert!(rt; prints(alloc, input.as_str(), output).expect(&rt, "memory"));
}

// Whether a run ends with this status and writes nothing.
fn ends(alloc: Global, words: &[&str], input: &str, expected: u8) -> Result<bool, DhcpError> {
    let (status, taken) = run(alloc, words, input, [9, 9])?;
    Ok(status == expected && taken.is_empty())
}

// Whether a network with so many addresses and these further events is not valid.
fn is_invalid(alloc: Global, count: u32, more: &str) -> Result<bool, DhcpError> {
    let head = head(alloc, count)?;
    let input = format!(in alloc; "{head}{EVENTS}{more}end\n")?;
    ends(alloc, &["run"], input.as_str(), 7)
}

#[test]
fn what_may_not_come_is_not_valid(rt: HostRuntime) {
    const CASES: [(u32, &str); 5] = [
        (1, "at 1031 client 0 ok deliver 6\n"),
        (1, "at 40 client 0 ok deliver 9\n"),
        (1, "at 40 client 2 ok none\n"),
        (1, "at 39 client 0 ok none\n"),
        (0, ""),
    ];
    for &(count, more) in &CASES {
        let is = is_invalid(rt.alloc(), count, more).expect(&rt, "memory");
        assert!(rt; is, "{more}");
    }
}

#[test]
fn other_words_are_wrong(rt: HostRuntime) {
    const CASES: [&[&str]; 4] = [&[], &["demo"], &["run", "run"], &["RUN"]];
    for &words in &CASES {
        assert!(rt;
            ends(rt.alloc(), words, "", 1).expect(&rt, "memory"),
            "{words:?}"
        );
    }
}

// Whether these lines after those of the clients are the text of no script.
fn is_no_script(alloc: Global, lines: &str) -> Result<bool, DhcpError> {
    let head = head(alloc, 1)?;
    let input = format!(in alloc; "{head}{lines}")?;
    ends(alloc, &["run"], input.as_str(), 2)
}

#[test]
fn other_lines_are_no_script(rt: HostRuntime) {
    const CASES: [&str; 8] = [
        "",
        "end\nend\n",
        "at 0 client 0 none\nend\n",
        "at 0 client 00 ok none\nend\n",
        "at 0 client 0 ok deliver\nend\n",
        "at 0 client 4294967296 ok none\nend\n",
        "at 0 server none\nend\n",
        "client 020000000005 -\nend\n",
    ];
    for &lines in &CASES {
        assert!(rt;
            is_no_script(rt.alloc(), lines).expect(&rt, "memory"),
            "{lines}"
        );
    }
    assert!(rt; ends(rt.alloc(), &["run"], "", 2).expect(&rt, "memory"));
}

#[test]
fn a_client_says_its_message_forms_in_one_way(rt: HostRuntime) {
    let alloc = rt.alloc();
    const CASES: [&str; 7] = [
        "client 020000000001 - mozim\n",
        "client 020000000001 - \n",
        "client 020000000001 -  rfc2131\n",
        "client 020000000001 - rfc2131 \n",
        "client 020000000001 - RFC2131\n",
        "client 020000000001 rfc2131\n",
        "client 020000000001 rfc2131 -\n",
    ];
    for &line in &CASES {
        let head = head_of(alloc, 1, line).expect(&rt, "memory");
        let input = format!(in alloc; "{head}end\n").expect(&rt, "memory");
        let is = ends(alloc, &["run"], input.as_str(), 2).expect(&rt, "memory");
        assert!(rt; is, "{line}");
    }
}

// Whether a script that was read is written as the same text.
fn is_written_back(alloc: Global, input: &str) -> Result<bool, DhcpError> {
    match read_net_script(alloc, input.as_bytes())? {
        Some(script) => Ok(write_net_script(alloc, &script)?.as_slice() == input.as_bytes()),
        None => Ok(false),
    }
}

#[test]
fn a_script_is_written_as_it_was_read(rt: HostRuntime) {
    let input = "net4 1\nserver 0.0.0.0 0123456789ab 255.255.255.255 10.0.0.1 0 0 0\n\
         client ffffffffffff -\nclient 000000000000 0000000012345678\n\
         client 000000000000 - rfc2131\nclient 000000000001 00000001 rfc2131\nstart 7\n\
         at 7 client 0 refuse deliver 4294967295\nat 5 client 9 ok release\n\
         at 18446744073709551615 client 1 ok cleanup\nat 0 server deliver 3\nend\n";
    assert!(rt; is_written_back(rt.alloc(), input).expect(&rt, "memory"));
}

#[test]
fn faults_of_the_streams_are_told(rt: HostRuntime) {
    let alloc = rt.alloc();
    let head = head(alloc, 1).expect(&rt, "memory");
    let input = format!(in alloc; "{head}end\n").expect(&rt, "memory");
    let (status, taken) = run(alloc, &["run"], input.as_str(), [1, 9]).expect(&rt, "memory");
    assert!(rt; (status, taken.len()) == (3, 0));
    let (status, taken) = run(alloc, &["run"], input.as_str(), [9, 1]).expect(&rt, "memory");
    assert!(rt; (status, taken.len()) == (4, 0));
}
