//! The program: `wrap`, with the address of a link, the address of a peer and an interface id,
//! relays the message on standard input; `reply`, with an answer, relays that back along the
//! Relay-forward on standard input; `unwrap` writes the message inside a relay message. Messages
//! are lines of hex; the exit status is a `Status` of dhcp_tool.
#![tactic(auto)]

use dhcp_stream::{StdSink, StdSource};
use dhcp_tool::status_without_words;
use dhcp6_relay::relay_tool;
use std::process::ExitCode;
use std::{env, io};

fn main(rt: HostRuntime) -> ExitCode {
    let words = match words(&rt) {
        Ok(words) => words,
        Err(error) => return ExitCode::from(u8::from(status_without_words(&error))),
    };
    let mut source = StdSource::new(rt.reader());
    let mut sink = StdSink::new(io::writer(&rt));
    let status = relay_tool(rt.alloc(), words.as_slice(), &mut source, &mut sink);
    ExitCode::from(status)
}

// The words after the program's name.
fn words(rt: &HostRuntime) -> io::Result<Vec<String>> {
    Ok(env::args(rt)?.skip(1).collect(rt.alloc())?)
}
