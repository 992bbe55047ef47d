//! Tests of dhcp6_info_play, which has the call behind the program: its script, its words, its
//! statuses, and what it writes.

use dhcp_stream::{MemSink, MemSource};
use dhcp_wire::DhcpError;
use dhcp6_info_play::{info_tool, read_info_script, write_info_script};
use std::alloc::Global;

// The lines of a script up to its events.
const HEAD: &str = "dhcp6info 1\niface 1 fe800000000000000000000000000001 - 0\n\
     duid 00030001020000000001\ncodes 0017\nwords 0000000000abcdef\nstart 0\n";

// The payload of a Reply with a name server, and what follows its head.
const REPLY: &str = "07abcdef0002000a00030001020000000002001700102\
     0010db8000000000000000000000053";

// What is sent at first.
const REQUEST: &str = "1 handed udp6 0babcdef0001000a00030001020000000001\
     0006000400170020000800020000\n";

// The exit status for these words and this input, and what was written. The read and the write with
// these numbers fail.
fn run(
    alloc: Global,
    words: &[&str],
    input: &str,
    failing: [u32; 2],
) -> Result<(u8, Vec<u8>), DhcpError> {
    let mut owned = Vec::new(alloc);
    for word in words {
        owned.push(String::from_str(alloc, word)?)?;
    }
    let bytes = input.as_bytes().to_vec(alloc)?;
    let mut source = MemSource::new(bytes, vec![in alloc; failing[0]]?);
    let mut sink = MemSink::new(alloc, 4096, vec![in alloc; failing[1]]?)?;
    let status = info_tool(alloc, owned.as_slice(), &mut source, &mut sink);
    Ok((status, sink.bytes().to_vec(alloc)?))
}

// Whether the script with these events is answered by the first message and this text.
fn answers(alloc: Global, events: &str, output: &str) -> Result<bool, DhcpError> {
    let input = format!(in alloc; "{HEAD}at 0 ok none\n{events}end\n")?;
    let (status, taken) = run(alloc, &["run"], input.as_str(), [9, 9])?;
    let wanted = format!(in alloc; "{REQUEST}{output}ok\n")?;
    Ok(status == 0 && taken.as_slice() == wanted.as_bytes())
}

#[test]
fn a_reply_gives_a_configuration(rt: HostRuntime) {
    let alloc = rt.alloc();
    let event = format!(in alloc; "at 100 ok payload {REPLY}\n").expect(&rt, "memory");
    let output = "2 state done 00030001020000000002 20010db8000000000000000000000053 none none \
                  86400\n";
    assert!(rt; answers(alloc, event.as_str(), output).expect(&rt, "memory"));
}

#[test]
fn a_configuration_is_asked_for_again(rt: HostRuntime) {
    let alloc = rt.alloc();
    let events = format!(in alloc;
        "at 100 ok payload {REPLY}002000040000000a\nat 600100 ok none\n"
    ).expect(&rt, "memory");
    let output =
        "2 state done 00030001020000000002 20010db8000000000000000000000053 none none 600\n\
         3 state inform\n3 handed udp6 0b0000000001000a00030001020000000001\
         0006000400170020000800020000\n";
    assert!(rt; answers(alloc, events.as_str(), output).expect(&rt, "memory"));
}

#[test]
fn a_reply_without_a_server_gives_none(rt: HostRuntime) {
    let events = "at 100 ok payload 07abcdef0017001020010db8000000000000000000000053\
         002000040000000a\nat 600100 ok none\n";
    let output = "3 handed udp6 0babcdef0001000a00030001020000000001\
         000600040017002000080002ea6a\n";
    assert!(rt; answers(rt.alloc(), events, output).expect(&rt, "memory"));
}

// Whether a Reply with these options beside its server is reported with these fields.
fn gives(alloc: Global, options: &str, fields: &str) -> Result<bool, DhcpError> {
    let event = format!(in alloc;
        "at 100 ok payload 07abcdef0002000a00030001020000000002{options}\n"
    )?;
    let output = format!(in alloc; "2 state done 00030001020000000002 {fields}\n")?;
    answers(alloc, event.as_str(), output.as_str())
}

#[test]
fn lists_are_joined_by_commas(rt: HostRuntime) {
    const CASES: [(&str, &str); 7] = [
        ("", "none none none 86400"),
        ("0018000100", "none -, none 86400"),
        ("001700000018000000380000", "- - - 86400"),
        ("00180005036c616e00", "none 6c616e none 86400"),
        ("00180009036c616e0002646500", "none 6c616e,6465 none 86400"),
        (
            "0038002c0001001020010db80000000000000000000000530002001000000000000000000000000000000\
             00100090000",
            "none none a/20010db8000000000000000000000053,m/00000000000000000000000000000001,o9/- \
             86400",
        ),
        ("0038000900030005036e747000", "none none n/6e7470 86400"),
    ];
    for &(options, fields) in &CASES {
        assert!(rt;
            gives(rt.alloc(), options, fields).expect(&rt, "memory"),
            "{options}"
        );
    }
}

// Whether a run ends with this status and writes nothing.
fn ends(alloc: Global, words: &[&str], input: &str, expected: u8) -> Result<bool, DhcpError> {
    let (status, taken) = run(alloc, words, input, [9, 9])?;
    Ok(status == expected && taken.is_empty())
}

#[test]
fn other_words_are_wrong(rt: HostRuntime) {
    const CASES: [&[&str]; 4] = [&[], &["demo"], &["run", "run"], &["RUN"]];
    for &words in &CASES {
        assert!(rt;
            ends(rt.alloc(), words, "", 1).expect(&rt, "memory"),
            "{words:?}"
        );
    }
}

// Whether a text with these lines up to its events, and these events, ends a run with this status.
fn ends_with(alloc: Global, head: &str, events: &str, expected: u8) -> Result<bool, DhcpError> {
    let input = format!(in alloc; "{head}{events}end\n")?;
    ends(alloc, &["run"], input.as_str(), expected)
}

#[test]
fn a_lease_a_mode_and_a_release_are_no_script(rt: HostRuntime) {
    let with_lease = "dhcp6info 1\niface 1 fe800000000000000000000000000001 - 0\nduid -\n\
         codes 0017\nlease none\nwords -\nstart 0\n";
    let with_mode = "dhcp6info 1\niface 1 fe800000000000000000000000000001 - na 0\nduid -\n\
         codes 0017\nwords -\nstart 0\n";
    let of_version_2 = "dhcp6info 2\niface 1 fe800000000000000000000000000001 - 0\nduid -\n\
         codes 0017\nwords -\nstart 0\n";
    let cases: [(&str, &str); 5] = [
        (HEAD, "at 0 ok release\n"),
        (HEAD, "at 0 ok none\nat 0 ok release\n"),
        (with_lease, ""),
        (with_mode, ""),
        (of_version_2, ""),
    ];
    for (head, events) in cases {
        let ends = ends_with(rt.alloc(), head, events, 2).expect(&rt, "memory");
        assert!(rt; ends, "{head}{events}");
    }
}

#[test]
fn a_script_without_an_interface_is_not_valid(rt: HostRuntime) {
    let head = "dhcp6info 1\niface 0 fe800000000000000000000000000001 - 0\nduid -\n\
         codes default\nwords -\nstart 0\n";
    assert!(rt; ends_with(rt.alloc(), head, "", 7).expect(&rt, "memory"));
}

// Whether a script that was read is written as the same text.
fn is_written_back(alloc: Global, input: &str) -> Result<bool, DhcpError> {
    match read_info_script(alloc, input.as_bytes())? {
        Some(script) => Ok(write_info_script(alloc, &script)?.as_slice() == input.as_bytes()),
        None => Ok(false),
    }
}

#[test]
fn a_script_is_written_as_it_was_read(rt: HostRuntime) {
    let alloc = rt.alloc();
    let input = format!(in alloc; "{HEAD}at 0 refuse cleanup\nat 1 ok frame 00\nend\n").expect(
        &rt, "memory",
    );
    assert!(rt; is_written_back(alloc, input.as_str()).expect(&rt, "memory"));
}

#[test]
fn faults_of_the_streams_are_told(rt: HostRuntime) {
    let alloc = rt.alloc();
    let input = format!(in alloc; "{HEAD}end\n").expect(&rt, "memory");
    let (status, taken) = run(alloc, &["run"], input.as_str(), [1, 9]).expect(&rt, "memory");
    assert!(rt; (status, taken.len()) == (3, 0));
    let (status, taken) = run(alloc, &["run"], input.as_str(), [9, 1]).expect(&rt, "memory");
    assert!(rt; (status, taken.len()) == (4, 0));
}
