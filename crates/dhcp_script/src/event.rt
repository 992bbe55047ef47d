//! The events of a script, and their limits.

ghost use Rattle.std.specs.Prelude.{◌≡◌, length};
ghost use Rattle.std.specs.List.{list_all};
ghost use Rattle.dhcp_script.specs.Event as limits;

use dhcp_wire::Bytes;

/// How many events a script has at most.
pub const MAX_EVENTS: usize = 20_000;

/// How many bytes a packet of a script has at most.
pub const MAX_PACKET_LEN: usize = 1500;

/// Every moment of a script is below this one, in milliseconds.
pub const MOMENT_LIMIT: u64 = 1 << 60;

/// What happens at an event, before the client is polled.
#[derive(Debug, PartialEq, Eq, Drop)]
pub enum EventWhat {
    /// Nothing.
    Nothing,
    /// An Ethernet frame comes in, from its Ethernet header on.
    Frame(Bytes),
    /// The payload of a UDP datagram comes in.
    Payload(Bytes),
    /// The client releases the lease that it holds, if it holds one.
    Release,
    /// The client drops its lease, its offer, its attempt and a kept error, and searches anew.
    CleanUp,
}

/// An event of a script.
#[derive(Debug, PartialEq, Eq, Drop)]
pub struct Event {
    /// When it happens, in milliseconds.
    pub moment: u64,
    /// Whether the link refuses what the client sends.
    pub refuse: bool,
    /// What happens.
    pub what: EventWhat,
}

impl EventWhat {
    // How many bytes the packet has that comes in; 0 if none does.
    fn packet_len(&self) -> usize
        ensures { result ≡ length (limits.packet_of self.now) }
    {
        match self {
            EventWhat::Frame(bytes) | EventWhat::Payload(bytes) => bytes.len(),
            EventWhat::Nothing | EventWhat::Release | EventWhat::CleanUp => 0,
        }
    }
}

impl Event {
    /// Whether its moment is below 2^60, and its packet has at most 1,500 bytes.
    pub fn is_within_limits(&self) -> bool
        ensures { result ≡ limits.is_within_limits self.now }
    {
        self.moment < MOMENT_LIMIT && self.what.packet_len() <= MAX_PACKET_LEN
    }
}

/// Whether a start, in milliseconds, and the events after it are valid: there are at most 20,000
/// events, none before the start or before the one above it, all of them and the start within their
/// limits.
#[tactic(auto, unfolding(crate::specs::Event::are_valid))]
pub fn are_valid(start: u64, events: &[Event]) -> bool
    ensures { result ≡ limits.are_valid start events.now }
{
    start < MOMENT_LIMIT
        && events.len() <= MAX_EVENTS
        && all_within_limits(events)
        && are_in_order(start, events)
}

// Whether each event is within its limits.
fn all_within_limits(events: &[Event]) -> bool
    ensures { result ≡ list_all limits.is_within_limits events.now }
{
    events.iter().all(Event::is_within_limits)
}

// Whether no event is before the one above it, nor the first before the start.
fn are_in_order(start: u64, events: &[Event]) -> bool
    ensures { result ≡ limits.are_in_order start events.now }
{
    let mut earliest = start;
    for event in events {
        if event.moment < earliest {
            return false;
        }
        earliest = event.moment;
    }
    true
}
