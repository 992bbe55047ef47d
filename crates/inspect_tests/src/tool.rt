//! The program, from its words to its exit status.

use crate::file::BIG;
use crate::packets::discover;
use dhcp_inspect::inspect_tool;
use dhcp_stream::{MAX_INPUT, MemSink, MemSource};
use dhcp_wire::DhcpError;
use std::alloc::Global;

// A file with one message.
fn file(alloc: Global) -> Result<Vec<u8>, DhcpError> {
    let mut file = BIG.file(alloc, 1)?;
    BIG.put_record(&mut file, (1, 2), discover(alloc)?.as_slice(), 293)?;
    Ok(file)
}

// The words of a text, one for each letter.
fn words(alloc: Global, letters: &str) -> Result<Vec<String>, DhcpError> {
    let mut words = Vec::new(alloc);
    for letter in letters.chars() {
        let mut word = String::new(alloc);
        word.push(letter)?;
        words.push(word)?;
    }
    Ok(words)
}

// The status for these words and this file, where the source or the sink fails at the calls with
// these numbers, and how many bytes were written.
fn outcome(
    alloc: Global,
    letters: &str,
    file: Vec<u8>,
    read_fails: u32,
    write_fails: u32,
) -> Result<(u8, usize), DhcpError> {
    let words = words(alloc, letters)?;
    let mut source = MemSource::new(file, vec![in alloc; read_fails]?);
    let mut sink = MemSink::new(alloc, 1000, vec![in alloc; write_fails]?)?;
    let status = inspect_tool(alloc, words.as_slice(), &mut source, &mut sink);
    Ok((status, sink.bytes().len()))
}

#[test]
fn each_status_has_its_cause(rt: HostRuntime) {
    for (letters, read_fails, write_fails, expected) in [
        ("", 0, 0, (0, 68)),
        ("x", 0, 0, (1, 0)),
        ("", 1, 0, (3, 0)),
        ("", 2, 0, (3, 0)),
        ("", 0, 1, (4, 0)),
    ] {
        let file = file(rt.alloc()).expect(&rt, "a file");
        let outcome = outcome(rt.alloc(), letters, file, read_fails, write_fails);
        assert!(rt; outcome.expect(&rt, "memory") == expected, "{expected:?}");
    }
}

#[test]
fn other_files_have_statuses_of_their_own(rt: HostRuntime) {
    let empty = outcome(rt.alloc(), "", Vec::new(rt.alloc()), 0, 0);
    assert!(rt; empty.expect(&rt, "memory") == (2, 0));
    let long = vec![in rt.alloc(); 0; MAX_INPUT + 1].expect(&rt, "memory");
    let long = outcome(rt.alloc(), "", long, 0, 0);
    assert!(rt; long.expect(&rt, "memory") == (6, 0));
}
