//! The program: `run` runs the network whose script is on standard input, and writes what it
//! reports to standard output; the exit status is a `Status` of dhcp_tool.
#![tactic(auto)]

use dhcp_stream::{StdSink, StdSource};
use dhcp_tool::status_without_words;
use dhcp4_net_play::net_tool;
use std::process::ExitCode;
use std::{env, io};

fn main(rt: HostRuntime) -> ExitCode {
    let words = match words(&rt) {
        Ok(words) => words,
        Err(error) => return ExitCode::from(u8::from(status_without_words(&error))),
    };
    let mut source = StdSource::new(rt.reader());
    let mut sink = StdSink::new(io::writer(&rt));
    let status = net_tool(rt.alloc(), words.as_slice(), &mut source, &mut sink);
    ExitCode::from(status)
}

// The words after the program's name.
fn words(rt: &HostRuntime) -> io::Result<Vec<String>> {
    Ok(env::args(rt)?.skip(1).collect(rt.alloc())?)
}
