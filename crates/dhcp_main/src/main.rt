//! The program: `run` plays the script on standard input, `upgrade` writes a script of version 1 in
//! version 2, `live` is told one event at a time, and `demo` with a number from 1 to 2,000 sums up
//! a demonstration. The text goes to standard output; the exit status is a `Status` of dhcp_tool.
#![tactic(auto)]

use dhcp_live::{StdDialogue, live_tool};
use dhcp_replay::{Status, StdSink, StdSource, replay_tool, status_without_words};
use std::process::ExitCode;
use std::{env, io};

fn main(rt: HostRuntime) -> ExitCode {
    let words = match words(&rt) {
        Ok(words) => words,
        Err(error) => return ExitCode::from(u8::from(status_without_words(&error))),
    };
    if is_live(words.as_slice()) {
        return ExitCode::from(live(&rt));
    }
    let mut source = StdSource::new(rt.reader());
    let mut sink = StdSink::new(io::writer(&rt));
    let status = replay_tool(rt.alloc(), words.as_slice(), &mut source, &mut sink);
    ExitCode::from(status)
}

// Whether the words are `live` alone.
fn is_live(words: &[String]) -> bool {
    match words {
        [word] => word.as_str() == "live",
        _ => false,
    }
}

// A session over standard input and output.
fn live(rt: &HostRuntime) -> u8 {
    match StdDialogue::new(rt.alloc(), rt.reader(), io::writer(rt)) {
        Ok(mut dialogue) => live_tool(rt.alloc(), &mut dialogue),
        Err(_) => Status::NoMemory.into(),
    }
}

// The words after the program's name.
fn words(rt: &HostRuntime) -> io::Result<Vec<String>> {
    Ok(env::args(rt)?.skip(1).collect(rt.alloc())?)
}
