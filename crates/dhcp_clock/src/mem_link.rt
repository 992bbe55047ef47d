//! A link in memory, for scripts and tests.

ghost use Rattle.std.specs.Prelude.{◌≡◌, Some, slice_get};

use crate::{DhcpLink, Handed, Packet, Sent};
use dhcp_wire::Bytes;
use std::alloc::Global;
use std::collections::VecDeque;
use std::marker::Model;
use std::net::{Ipv4Addr, Ipv6Addr};

/// A link in memory. It lists the messages that it is handed, each with what became of it, and has
/// at most one packet that waits. Contracts see what it shows and its count of faults.
#[derive(Debug, Drop)]
pub struct MemLink {
    refuses: bool,
    waiting: Option<Packet>,
    handed: VecDeque<(Handed, Sent)>,
    faults: u64,
}

impl Model for MemLink {
    ghost use Rattle.dhcp_clock.specs.Link.{MemoryParts};

    ghost Value = { MemoryParts };

    ghost use Rattle.dhcp_clock.specs.MemLink.{parts_of};

    ghost view = { parts_of };
}

impl MemLink {
    ghost use Rattle.dhcp_clock.specs.MemLink.{empty, ListsMessage, refusing, with_waiting, without_oldest};

    /// A link that takes what it is handed, with no packet that waits and no message listed. Does
    /// not allocate.
    pub fn new(alloc: Global) -> Self
        ensures { result ≡ empty }
    {
        MemLink {
            refuses: false,
            waiting: None,
            handed: VecDeque::new(alloc),
            faults: 0,
        }
    }

    /// Replaces the packet that waits by this one, or by none.
    pub fn load(&mut self, packet: Option<Packet>)
        ensures { self.new ≡ with_waiting packet self.old }
    {
        self.waiting = packet;
    }

    /// Sets whether the link refuses each message from now on, unless out of memory, and counts a
    /// fault for each that it refuses.
    pub fn set_refuse(&mut self, refuse: bool)
        ensures { self.new ≡ refusing refuse self.old }
    {
        self.refuses = refuse;
    }

    /// Takes the oldest message off the list, with what became of it; none if the list is empty.
    pub fn take_handed(&mut self) -> Option<(Handed, Sent)>
        ensures oldest { result ≡ slice_get self.old.shown.handed 0 }
        ensures rest { self.new ≡ without_oldest self.old }
    {
        self.handed.pop_front()
    }

    // Lists a message with what becomes of it, and returns that. Out of memory changes nothing.
    fn list(&mut self, message: Handed) -> Sent
        ensures { ListsMessage message result self.old self.new }
    {
        let sent = if self.refuses {
            Sent::Refused
        } else {
            Sent::Taken
        };
        if self.handed.push_back((message, sent)).is_err() {
            return Sent::NoMemory;
        }
        if self.refuses {
            self.faults = self.faults.saturating_add(1);
        }
        sent
    }
}

impl DhcpLink for MemLink {
    ghost use Rattle.dhcp_clock.specs.declared.link.Handed.{Handed};
    ghost use Rattle.dhcp_clock.specs.MemLink.{ListsMessage, Does, with_waiting};

    ghost shown = { λ link. Some link.shown };

    ghost faults = { λ link. link.faults };

    ghost moves = { Does };

    fn send_frame(&mut self, bytes: Bytes) -> Sent
        ensures { ListsMessage (Handed.Frame bytes) result self.old self.new }
    {
        self.list(Handed::Frame(bytes))
    }

    fn send_udp4(&mut self, from: Ipv4Addr, to: Ipv4Addr, bytes: Bytes) -> Sent
        ensures { ListsMessage (Handed.Udp4 from to bytes) result self.old self.new }
    {
        self.list(Handed::Udp4(from, to, bytes))
    }

    fn send_udp6(&mut self, from: Ipv6Addr, index: u32, bytes: Bytes) -> Sent
        ensures { ListsMessage (Handed.Udp6 from index bytes) result self.old self.new }
    {
        self.list(Handed::Udp6(from, index, bytes))
    }

    fn receive(&mut self) -> Option<Packet>
        ensures packet { result ≡ self.old.shown.waiting }
        ensures after { self.new ≡ with_waiting None self.old }
    {
        self.waiting.take()
    }
}
