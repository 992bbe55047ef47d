//! The script of a demonstration: a client takes a lease, renews it and releases it, again and
//! again.

ghost use Rattle.std.specs.Prelude.{◌≡◌, ◌++◌, ◌≤◌, ◌*◌, true, IfOk, OnOk};
ghost use Rattle.dhcp_wire.specs.Outcome.{Makes};
ghost use Rattle.dhcp_script.specs.Demo as demo;
ghost use Rattle.dhcp_script.specs.Demo.{most_rounds, reply, AddsRound};
ghost use Rattle.dhcp_script.specs.Script as scripts;
ghost use Rattle.dhcp_script.specs.declared.script.Script.TheVariants.{V4};

use crate::{Event, EventWhat, Script, Script4};
use dhcp_wire::{Bytes, DhcpError, Sequence};
use dhcp4_msg::DhcpV4MessageType;
use std::alloc::{AllocError, Global};

// The headers of a reply: Ethernet from 02:00:00:00:00:02 to all, IPv4 from 192.0.2.1 to all, 296
// bytes, UDP from port 67 to port 68, 276 bytes.
const REPLY_HEADERS: [u8; 42] = [
    0xff, 0xff, 0xff, 0xff, 0xff, 0xff, 0x02, 0x00, 0x00, 0x00, 0x00, 0x02, 0x08, 0x00, // Ethernet
    0x45, 0x00, 0x01, 0x28, 0x00, 0x00, 0x00, 0x00, 0x40, 0x11, 0x00, 0x00, // IPv4
    0xc0, 0x00, 0x02, 0x01, 0xff, 0xff, 0xff, 0xff, // its addresses
    0x00, 0x43, 0x00, 0x44, 0x01, 0x14, 0x00, 0x00, // UDP
];

// A reply from its first field to the MAC address of the client: the id is 0, the client is given
// 192.0.2.10 by the server 192.0.2.1.
const REPLY_FRONT: [u8; 34] = [
    0x02, 0x01, 0x06, 0x00, 0x00, 0x00, 0x00, 0x00, 0x00, 0x00, 0x00, 0x00, 0x00, 0x00, 0x00, 0x00,
    0xc0, 0x00, 0x02, 0x0a, 0xc0, 0x00, 0x02, 0x01, 0x00, 0x00, 0x00, 0x00, // its addresses
    0x02, 0x00, 0x00, 0x00, 0x00, 0x01,
];

// How many bytes a reply has.
const REPLY_LEN: usize = 268;

const OFFER: u8 = DhcpV4MessageType::Offer as u8;

const ACK: u8 = DhcpV4MessageType::Ack as u8;

/// The script of `n` rounds, from 1 to 2,000, of a client with the MAC address 02:00:00:00:00:01:
/// after a first event at 0 there are five events in each round, of 51,000 milliseconds: an offer
/// and an acknowledgement of 192.0.2.10 for 100 seconds, T1, the acknowledgement again, and the
/// release. The script is valid. Out of memory is the only error.
#[tactic(auto, unfolding(crate::specs::Demo::demo_script))]
pub fn demo_script(alloc: Global, n: u32) -> Result<Script, DhcpError>
    requires some { 1 ≤ n }
    requires few { n ≤ most_rounds }
    ensures made { Makes (λ script. script) result (V4 (demo.demo_script n)) }
    ensures valid { IfOk result (λ script. scripts.is_valid script ≡ true) }
{
    let codes = Bytes::from_slice(alloc, &[1, 3, 6])?;
    let events = demo_events(alloc, n)?;
    Ok(Script::V4(Script4 {
        iface_index: 1,
        mac: [2, 0, 0, 0, 0, 1],
        is_proxy: false,
        timeout_sec: 0,
        forms: None,
        host: Bytes::new(alloc),
        client: Bytes::new(alloc),
        codes: Some(codes),
        lease: None,
        words: Sequence::new(alloc),
        start: 0,
        events,
    }))
}

// The events of so many rounds.
fn demo_events(alloc: Global, n: u32) -> Result<Sequence<Event>, DhcpError>
    requires { n ≤ most_rounds }
    ensures { Makes (λ events. events) result (demo.demo_events n) }
{
    let mut events = Vec::with_capacity(alloc, 5 * n as usize + 1)?;
    events.push(event(0, EventWhat::Nothing))?;
    'rounds: for round in 0..n {
        push_round(alloc, &mut events, 51_000 * u64::from(round))?;
    }
    Ok(Sequence::from(events))
}

// Puts the events of a round that begins at this moment at the end of a list.
fn push_round(alloc: Global, events: &mut Vec<Event>, start: u64) -> Result<(), DhcpError>
    requires { start ≤ 51000 * most_rounds }
    ensures { AddsRound result events.old.items events.new.items start }
{
    events.push(event(start + 10, EventWhat::Frame(reply_frame(alloc, OFFER)?)))?;
    events.push(event(start + 20, EventWhat::Frame(reply_frame(alloc, ACK)?)))?;
    events.push(event(start + 50_020, EventWhat::Nothing))?;
    events.push(event(
        start + 50_030,
        EventWhat::Payload(reply_payload(alloc, ACK)?),
    ))?;
    events.push(event(start + 50_040, EventWhat::Release))?;
    Ok(())
}

// An event at which the link refuses nothing.
fn event(moment: u64, what: EventWhat) -> Event
    ensures { result ≡ demo.event_at moment what }
{
    Event {
        moment,
        refuse: false,
        what,
    }
}

// The frame of a reply of this type.
#[tactic(auto, unfolding(crate::specs::Demo::reply_frame))]
fn reply_frame(alloc: Global, kind: u8) -> Result<Bytes, DhcpError>
    ensures { Makes (λ bytes. bytes) result (demo.reply_frame kind) }
{
    let mut bytes = Vec::with_capacity(alloc, REPLY_HEADERS.len() + REPLY_LEN)?;
    bytes.extend_from_slice(&REPLY_HEADERS)?;
    push_reply(&mut bytes, kind)?;
    Ok(Bytes::from(bytes))
}

// A reply of this type.
fn reply_payload(alloc: Global, kind: u8) -> Result<Bytes, DhcpError>
    ensures { Makes (λ bytes. bytes) result (reply kind) }
{
    let mut bytes = Vec::with_capacity(alloc, REPLY_LEN)?;
    push_reply(&mut bytes, kind)?;
    Ok(Bytes::from(bytes))
}

// Puts a reply of this type at the end of bytes: 202 zero bytes after its front, the cookie, and
// its options.
#[tactic(auto, unfolding(crate::specs::Demo::reply))]
fn push_reply(bytes: &mut Vec<u8>, kind: u8) -> Result<(), AllocError>
    ensures { OnOk result (bytes.new.items ≡ bytes.old.items ++ reply kind) }
{
    bytes.extend_from_slice(&REPLY_FRONT)?;
    bytes.extend_from_slice(&[0; 202])?;
    bytes.extend_from_slice(&[
        0x63, 0x82, 0x53, 0x63, 53, 1, kind, 54, 4, 192, 0, 2, 1, 51, 4, 0, 0, 0, 100, 58, 4, 0, 0,
        0, 50, 59, 4, 0, 0, 0, 80, 255,
    ])
}
