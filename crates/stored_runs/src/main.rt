//! Plays the captures, scripts and networks in `data/` one after the other, by the calls behind
//! inspect_main, info_main and net_main: writes the name of each file, what the call writes, and
//! its exit status.
#![tactic(auto)]

use dhcp_inspect::inspect_tool;
use dhcp_stream::{StdSink, StdSource};
use dhcp4_net_play::net_tool;
use dhcp6_info_play::info_tool;
use std::fs::File;
use std::io;

// A program whose call plays a file.
#[derive(Clone, Copy, Debug)]
enum Program {
    Inspect,
    Info,
    Net,
}

// The files, and by which program each is played.
const RUNS: [(Program, &str); 10] = [
    (Program::Inspect, "truncated.pcap"),
    (Program::Inspect, "foreign.pcap"),
    (Program::Inspect, "other_link_type.pcap"),
    (Program::Inspect, "empty.pcap"),
    (Program::Info, "reply.dhcp6info"),
    (Program::Info, "reply_without_server.dhcp6info"),
    (Program::Net, "repeated_in_time.net4"),
    (Program::Net, "repeated_too_late.net4"),
    (Program::Net, "empty_pool.net4"),
    (Program::Net, "released_address.net4"),
];

fn main(rt: HostRuntime) -> io::Result<()> {
    let words = vec![in rt.alloc(); String::from_str(rt.alloc(), "run")?]?;
    for (program, name) in RUNS {
        println!(rt; "{name}")?;
        let status = play(&rt, program, words.as_slice(), name)?;
        println!(rt; "exit status {status}")?;
    }
    Ok(())
}

// The exit status of a program over a file; the inspector has no words.
fn play(rt: &HostRuntime, program: Program, words: &[String], name: &str) -> io::Result<u8> {
    let mut source = StdSource::new(File::open(rt, name)?);
    let mut sink = StdSink::new(io::writer(rt));
    Ok(match program {
        Program::Inspect => inspect_tool(rt.alloc(), &[], &mut source, &mut sink),
        Program::Info => info_tool(rt.alloc(), words, &mut source, &mut sink),
        Program::Net => net_tool(rt.alloc(), words, &mut source, &mut sink),
    })
}
