//! A link of one's own, and words of one's own: what the sockets of a client received waits in the
//! link, and what it sends waits for them. To a client neither says anything of the outside.

ghost use Rattle.std.specs.Prelude.{◌≡◌, ◌<◌, ◌++◌, ◌∷◌, None, [], vec_len};
ghost use Rattle.uses.specs.Link.{Queues};

use dhcp_clock::{DhcpLink, Handed, Packet, Sent, Words};
use dhcp_wire::Bytes;
use std::alloc::Global;
use std::net::{Ipv4Addr, Ipv6Addr};

/// The link of one client. The manager moves packets and messages between it and its sockets.
#[derive(Drop)]
pub struct QueueLink {
    /// The packet that waits.
    pub received: Option<Packet>,
    /// The messages that wait to be sent.
    pub to_send: Vec<Handed>,
}

impl QueueLink {
    /// A link on which nothing waits.
    pub fn new(alloc: Global) -> Self
        ensures waits { result.received ≡ None }
        ensures sends { result.to_send.items ≡ [] }
    {
        QueueLink {
            received: None,
            to_send: Vec::new(alloc),
        }
    }

    // Puts a message behind those that wait to be sent. It is never refused.
    fn put(&mut self, message: Handed) -> Sent
        ensures { Queues message result self.old self.new }
    {
        match self.to_send.push(message) {
            Ok(()) => Sent::Taken,
            Err(_) => Sent::NoMemory,
        }
    }
}

impl DhcpLink for QueueLink {
    ghost shown = { λ _. None };

    ghost faults = { λ _. 0 };

    fn send_frame(&mut self, bytes: Bytes) -> Sent
        ensures { Queues (Handed.Frame bytes) result self.old self.new }
    {
        self.put(Handed::Frame(bytes))
    }

    fn send_udp4(&mut self, from: Ipv4Addr, to: Ipv4Addr, bytes: Bytes) -> Sent
        ensures { Queues (Handed.Udp4 from to bytes) result self.old self.new }
    {
        self.put(Handed::Udp4(from, to, bytes))
    }

    fn send_udp6(&mut self, from: Ipv6Addr, index: u32, bytes: Bytes) -> Sent
        ensures { Queues (Handed.Udp6 from index bytes) result self.old self.new }
    {
        self.put(Handed::Udp6(from, index, bytes))
    }

    fn receive(&mut self) -> Option<Packet>
        ensures packet { result ≡ self.old.received }
        ensures after { self.new ≡ record self.old { received = None } }
    {
        self.received.take()
    }
}

/// Random words that the manager read from the system beforehand.
#[derive(Drop)]
pub struct SystemWords {
    /// The words that are left.
    pub left: Vec<u32>,
}

impl Words for SystemWords {
    ghost left = { λ _. None };

    fn next_word(&mut self) -> u32
        ensures last { 0 < vec_len self.old.left →
            self.old.left.items ≡ self.new.left.items ++ result ∷ [] }
        ensures none { self.old.left.items ≡ [] → (result ≡ 0) × (self.new.left.items ≡ []) }
    {
        self.left.pop().unwrap_or(0)
    }
}
