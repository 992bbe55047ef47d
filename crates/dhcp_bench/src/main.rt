//! Does one thing so many times, for a clock beside it: `<what> <times>`, with bytes as a line of
//! hex on standard input. It prints how many bytes were read and written in all.
//!
//! `read` reads a message, `message` reads and writes it, `lease` reads it and its lease, `moved`
//! does so and moves its options into the lease, `discover` builds and writes a Discover, and
//! `frame` reads and writes a frame. `read6` reads a list of DHCPv6 options, and `options6` reads
//! and writes it. Of a DHCPv6 message, `reply6` reads one, `message6` reads and writes it, `lease6`
//! reads it and its lease, `moved6` does so and moves its options into the lease, and `solicit6`
//! builds and writes a Solicit; `wrap6` relays a message to a server, and `along6` an answer back
//! along a Relay-forward. A message that is read once is written by `written` and `written6`, and
//! `kept` and `kept6` read its lease. `serve256` and `serve65536` have a DHCPv4 server answer a
//! message, with a pool of so many addresses of which all but the last, 10.255.255.255, are bound
//! to other clients; to fill the pool takes its time once. Of an IPv4 client, `idle` polls one that
//! has a lease, `foreign` one whose Discover is open, each time with the frame of the line, and
//! `life` has it live from its Discover to its release, with the frames of an Offer and of an Ack
//! as two lines; `idle6`, `foreign6` and `life6` do so with an IPv6 client, and payloads. These
//! print how many polls or lives there were. A task that is done at least once prints nothing, and
//! fails, if a line that it reads is missing, is not hex or does not read; but a client drops what
//! does not read. A first line has to be there for all.
#![tactic(auto)]

mod client4;
mod client6;
mod exchange;
mod frames;
mod kept;
mod messages4;
mod messages6;
mod options6;
mod relay6;
mod server4;
mod wire;

use crate::exchange::{Client, PollTask, lives, polls};
use crate::kept::{KeptTask, repeat};
use crate::wire::{moved_to_lease, read, read_and_write, read_to_lease};
use dhcp_frame::Frame;
use dhcp_wire::DhcpError;
use dhcp4_client::DhcpV4Client;
use dhcp4_msg::DhcpV4Message;
use dhcp6_client::DhcpV6Client;
use dhcp6_msg::DhcpV6Message;
use dhcp6_opt::DhcpV6Options;
use dhcp6_relay::RelayError;
use std::alloc::{AllocError, Global};
use std::process::ExitCode;
use std::{env, io};

/// Why there is nothing to measure.
#[derive(Drop)]
enum Failure {
    /// The words are not a name of the list above and a number below 2^32.
    Words,
    /// A line is not hex, or there are fewer lines than the task reads.
    Hex,
    /// The bytes do not read, or out of memory.
    Message(DhcpError),
    /// A relay message is refused, or out of memory.
    Relay(RelayError),
    /// A stream failed, or out of memory.
    Stream(io::Error),
}

impl From<DhcpError> for Failure {
    fn from(error: DhcpError) -> Self {
        Failure::Message(error)
    }
}

impl From<RelayError> for Failure {
    fn from(error: RelayError) -> Self {
        Failure::Relay(error)
    }
}

impl From<io::Error> for Failure {
    fn from(error: io::Error) -> Self {
        Failure::Stream(error)
    }
}

impl From<AllocError> for Failure {
    fn from(error: AllocError) -> Self {
        Failure::Stream(io::Error::from(error))
    }
}

fn main(rt: HostRuntime) -> ExitCode {
    match measure(&rt) {
        Ok(()) => ExitCode::SUCCESS,
        Err(_) => ExitCode::FAILURE,
    }
}

fn measure(rt: &HostRuntime) -> Result<(), Failure> {
    let words: Vec<String> = env::args(rt)?.skip(1).collect(rt.alloc())?;
    let [what, times] = words.as_slice() else {
        return Err(Failure::Words);
    };
    let Ok(times) = times.as_str().parse::<u32>() else {
        return Err(Failure::Words);
    };
    let text = io::read_to_string(rt.alloc(), rt.reader())?;
    let total = count_of_task(rt.alloc(), what, times, text.as_str())?;
    println!(rt; "{total}")?;
    Ok(())
}

// What is counted of one thing that is done so many times, with the lines of hex of a text.
fn count_of_task(alloc: Global, what: &str, times: u32, text: &str) -> Result<u64, Failure> {
    let mut lines = text.lines();
    let Some(first) = lines.next() else {
        return Err(Failure::Hex);
    };
    let first = bytes_of(alloc, first)?;
    count_with(alloc, what, times, first.as_slice(), lines.next())
}

// The same with the bytes of the first line, and with the second line.
fn count_with(
    alloc: Global,
    what: &str,
    times: u32,
    first: &[u8],
    second: Option<&str>,
) -> Result<u64, Failure> {
    let count = match what {
        "idle" => polls::<DhcpV4Client>(alloc, PollTask::Idle, times),
        "idle6" => polls::<DhcpV6Client>(alloc, PollTask::Idle, times),
        "foreign" => polls::<DhcpV4Client>(alloc, PollTask::Foreign(first), times),
        "foreign6" => polls::<DhcpV6Client>(alloc, PollTask::Foreign(first), times),
        "written" => repeat::<DhcpV4Message>(alloc, KeptTask::Write, times, first),
        "kept" => repeat::<DhcpV4Message>(alloc, KeptTask::Lease, times, first),
        "written6" => repeat::<DhcpV6Message>(alloc, KeptTask::Write, times, first),
        "kept6" => repeat::<DhcpV6Message>(alloc, KeptTask::Lease, times, first),
        "serve256" => server4::handle(alloc, 256, times, first),
        "serve65536" => server4::handle(alloc, 65_536, times, first),
        "life" => return count_of_lives::<DhcpV4Client>(alloc, times, first, second),
        "life6" => return count_of_lives::<DhcpV6Client>(alloc, times, first, second),
        what => return total_of(alloc, what, times, first),
    };
    Ok(count?)
}

// How many lives there were, with this packet of an offer, and the line of the answer with the
// lease.
fn count_of_lives<C: Client>(
    alloc: Global,
    times: u32,
    offer: &[u8],
    lease: Option<&str>,
) -> Result<u64, Failure> {
    let Some(lease) = lease else {
        return Err(Failure::Hex);
    };
    let lease = bytes_of(alloc, lease)?;
    Ok(lives::<C>(alloc, times, C::answers(offer, lease.as_slice()))?)
}

// The bytes of a line of hex.
fn bytes_of(alloc: Global, line: &str) -> Result<Vec<u8>, Failure> {
    hex::decode(alloc, line).map_err(|_| Failure::Hex)
}

// How many bytes are read and written when one thing is done so many times.
fn total_of(alloc: Global, what: &str, times: u32, bytes: &[u8]) -> Result<u64, Failure> {
    let mut total = 0u64;
    for _ in 0..times {
        total = total.saturating_add(count_of(alloc, what, bytes)? as u64);
    }
    Ok(total)
}

// How many bytes are read and written when one thing is done once.
fn count_of(alloc: Global, what: &str, bytes: &[u8]) -> Result<usize, Failure> {
    let count = match what {
        "read" => read::<DhcpV4Message>(alloc, bytes),
        "message" => read_and_write::<DhcpV4Message>(alloc, bytes),
        "lease" => read_to_lease::<DhcpV4Message>(alloc, bytes),
        "moved" => moved_to_lease::<DhcpV4Message>(alloc, bytes),
        "discover" => messages4::discover(alloc),
        "frame" => read_and_write::<Frame>(alloc, bytes),
        "read6" => read::<DhcpV6Options>(alloc, bytes),
        "options6" => read_and_write::<DhcpV6Options>(alloc, bytes),
        "reply6" => read::<DhcpV6Message>(alloc, bytes),
        "message6" => read_and_write::<DhcpV6Message>(alloc, bytes),
        "lease6" => read_to_lease::<DhcpV6Message>(alloc, bytes),
        "moved6" => moved_to_lease::<DhcpV6Message>(alloc, bytes),
        "solicit6" => messages6::solicit(alloc),
        what => return count_of_relay(alloc, what, bytes),
    };
    Ok(count?)
}

// How many bytes are read and written when a relay message is wrapped or answered.
fn count_of_relay(alloc: Global, what: &str, bytes: &[u8]) -> Result<usize, Failure> {
    let count = match what {
        "wrap6" => relay6::wrap(alloc, bytes),
        "along6" => relay6::reply(alloc, bytes),
        _ => return Err(Failure::Words),
    };
    Ok(count?)
}
