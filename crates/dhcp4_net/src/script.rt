//! The script of a network: one server, its clients, and what happens when.

ghost use Rattle.std.specs.Prelude.{◌≡◌};
ghost use Rattle.std.specs.List.{list_all};
ghost use Rattle.dhcp4_net.specs.Clients as clients;
ghost use Rattle.dhcp4_net.specs.Script as scripts;

use dhcp_wire::Sequence;
use dhcp4_lease::DhcpV4MessageForms;
use dhcp4_server::ServerConfig;

/// How many clients a network has at most.
pub const MAX_CLIENTS: usize = 64;

/// How many events a script has at most.
pub const MAX_EVENTS: usize = 20_000;

// Every moment is below this one, in milliseconds.
const MOMENT_LIMIT: u64 = 1 << 60;

/// A client of a network, on interface 1, which asks for the options 1, 3 and 6 and has no lease at
/// the start.
#[derive(Debug, PartialEq, Eq, Drop)]
pub struct NetClient {
    /// Its MAC address.
    pub mac: [u8; 6],
    /// The forms of the messages that it sends.
    pub message_forms: DhcpV4MessageForms,
    /// The random words that it draws, in order; after the last one each is 0. The first one is its
    /// transaction id.
    pub words: Sequence<u32>,
}

/// What comes at an event of a client, before it is polled.
#[derive(Clone, Copy, Debug, PartialEq, Eq)]
pub enum NetAct {
    /// Nothing.
    Nothing,
    /// The packet of this number is delivered.
    Deliver(u32),
    /// The client releases the lease that it holds, if it holds one.
    Release,
    /// The client drops its lease, its offer, its attempt and a kept error, and searches anew.
    CleanUp,
}

/// Whom an event is of.
#[derive(Clone, Copy, Debug, PartialEq, Eq)]
pub enum NetWho {
    /// The client of this number; whether its link refuses what it sends; and what comes.
    Client(u32, bool, NetAct),
    /// The server, to which the packet of this number is delivered.
    Server(u32),
}

/// An event of a network.
#[derive(Clone, Copy, Debug, PartialEq, Eq)]
pub struct NetEvent {
    /// When it happens, in milliseconds.
    pub moment: u64,
    /// Whom it is of, and what comes.
    pub who: NetWho,
}

/// The script of a network. Clients and packets are numbered from 0 on, events from 1 on. Each
/// message that the link of a client takes, and each reply of the server, is the next packet.
#[derive(Drop)]
pub struct NetScript {
    /// The configuration of the server.
    pub server: ServerConfig,
    /// The clients.
    pub clients: Sequence<NetClient>,
    /// The moment before which no event is, in milliseconds.
    pub start: u64,
    /// The events, in the order in which they happen.
    pub events: Sequence<NetEvent>,
}

impl NetClient {
    /// The transaction id with which it begins.
    pub fn xid(&self) -> u32
        ensures { result ≡ clients.xid_of self.now }
    {
        match self.words.as_slice().first() {
            Some(word) => *word,
            None => 0,
        }
    }
}

impl NetScript {
    /// Whether it is within its limits: a server can have its configuration; it has 1 to 64
    /// clients, with different transaction ids, and at most 20,000 events, all before 2^60
    /// milliseconds.
    #[tactic(auto, unfolding(crate::specs::Script::is_within_limits))]
    pub fn is_within_limits(&self) -> bool
        ensures { result ≡ scripts.is_within_limits self.now }
    {
        self.server.is_lawful()
            && 0 < self.clients.len()
            && self.clients.len() <= MAX_CLIENTS
            && are_distinct(self.clients.as_slice())
            && self.events.len() <= MAX_EVENTS
            && are_early(self.events.as_slice())
    }
}

// Whether the transaction ids of clients differ.
fn are_distinct(clients: &[NetClient]) -> bool
    ensures { result ≡ scripts.are_distinct clients.now }
{
    for place in 0..clients.len() {
        if has_id(clients[place].xid(), &clients[place + 1..]) {
            return false;
        }
    }
    true
}

// Whether a client with this transaction id is among these.
fn has_id(xid: u32, clients: &[NetClient]) -> bool
    ensures { result ≡ scripts.has_id xid clients.now }
{
    clients.iter().any(|client| client.xid() == xid)
}

// Whether all events are before 2^60 milliseconds.
fn are_early(events: &[NetEvent]) -> bool
    ensures { result ≡ list_all scripts.is_early events.now }
{
    events.iter().all(NetEvent::is_early)
}

impl NetEvent {
    // Whether it is before 2^60 milliseconds.
    fn is_early(&self) -> bool
        ensures { result ≡ scripts.is_early self.now }
    {
        self.moment < MOMENT_LIMIT
    }
}
