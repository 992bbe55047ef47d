//! The limits of a script.

use crate::scripts::{ADDRESSES, NO_FIELDS, is_valid, text_of};
use dhcp_script::{Event, EventWhat, Script4};
use dhcp_wire::{Bytes, Sequence};
use std::alloc::{AllocError, Global};

// Whether the script whose lease has these times is valid, with these events.
fn is_lease_valid(alloc: Global, times: &str, events: &str) -> Result<Option<bool>, AllocError> {
    let lease = format!(in alloc; "{ADDRESSES} {times} {NO_FIELDS}")?;
    let text = text_of(alloc, 2, lease.as_str(), events)?;
    is_valid(alloc, text.as_str())
}

#[test]
fn times_and_moments_are_in_order(rt: HostRuntime) {
    const CASES: [(&str, &str, bool); 7] = [
        ("10 20 30", "at 3 ok none\nat 3 ok none\nend\n", true),
        ("20 20 20", "end\n", true),
        ("21 20 30", "end\n", false),
        ("10 31 30", "end\n", false),
        ("10 20 30", "at 3 ok none\nat 2 ok none\nend\n", false),
        ("10 20 30", "at 1152921504606846975 ok none\nend\n", true),
        ("10 20 30", "at 1152921504606846976 ok none\nend\n", false),
    ];
    for &(times, events, want) in &CASES {
        let is_valid = is_lease_valid(rt.alloc(), times, events).expect(&rt, "memory");
        assert!(rt; is_valid == Some(want), "{times} {events:?}");
    }
}

// So many letters.
fn letters(alloc: Global, len: usize) -> Result<Bytes, AllocError> {
    Ok(Bytes::from(vec![in alloc; b'a'; len]?))
}

// So many events with a packet of so many bytes.
fn packets(alloc: Global, count: usize, len: usize) -> Result<Sequence<Event>, AllocError> {
    let mut events = Vec::with_capacity(alloc, count)?;
    for _ in 0..count {
        events.push(Event {
            moment: 0,
            refuse: false,
            what: EventWhat::Payload(letters(alloc, len)?),
        })?;
    }
    Ok(Sequence::from(events))
}

// A script with this host name, this client identifier, these codes and these events.
fn script_of(
    alloc: Global,
    host: Bytes,
    client: Bytes,
    codes: Bytes,
    events: Sequence<Event>,
) -> Script4 {
    Script4 {
        iface_index: 1,
        mac: [2, 0, 0, 0, 0, 1],
        is_proxy: false,
        timeout_sec: 0,
        forms: None,
        host,
        client,
        codes: Some(codes),
        lease: None,
        words: Sequence::new(alloc),
        start: 0,
        events,
    }
}

// Whether a script with these lengths of its host name, its client identifier, its codes, its
// events and their packets is valid.
fn is_valid_with(alloc: Global, lengths: [usize; 5]) -> Result<bool, AllocError> {
    let [host, client, codes, count, len] = lengths;
    let host = letters(alloc, host)?;
    let client = letters(alloc, client)?;
    let codes = letters(alloc, codes)?;
    let events = packets(alloc, count, len)?;
    Ok(script_of(alloc, host, client, codes, events).is_valid())
}

#[test]
fn lengths_are_within_their_limits(rt: HostRuntime) {
    const CASES: [([usize; 5], bool); 7] = [
        ([254, 255, 255, 1, 1500], true),
        ([255, 0, 0, 0, 0], false),
        ([0, 256, 0, 0, 0], false),
        ([0, 0, 256, 0, 0], false),
        ([0, 0, 0, 20_000, 0], true),
        ([0, 0, 0, 20_001, 0], false),
        ([0, 0, 0, 1, 1501], false),
    ];
    for &(lengths, want) in &CASES {
        let is_valid = is_valid_with(rt.alloc(), lengths).expect(&rt, "memory");
        assert!(rt; is_valid == want, "{lengths:?}");
    }
}
