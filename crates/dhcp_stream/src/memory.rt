//! A source and a sink in memory, which fail at chosen calls.

ghost use Rattle.std.specs.Prelude.{◌≡◌, ◌≤◌, ◌<◌, Some, [], length, take};
ghost use Rattle.std.specs.Io.KnownBytes.{Appends, Consumes, IsAtEnd};
ghost use Rattle.dhcp_wire.specs.Fault.{HasCause};
ghost use Rattle.dhcp_wire.specs.Outcome.{Makes};
ghost use Rattle.dhcp_stream.specs.Stream.{read_count, write_count};
ghost use Rattle.dhcp_stream.specs.Memory.{after_read, after_write, read_answer, write_answer};
ghost use Rattle.dhcp_stream.specs.Memory as Memory;

use crate::{ReadOutcome, Sink, Source, WriteOutcome};
use dhcp_wire::DhcpError;
use std::alloc::Global;
use std::marker::Model;

/// A source in memory: each read gives as many bytes as fit, but for the calls at which it fails.
/// Contracts see the bytes that are left, the calls that fail, and the numbers of calls and faults
/// so far.
#[derive(Debug, Drop)]
pub struct MemSource {
    bytes: Vec<u8>,
    place: usize,
    fails: Vec<u32>,
    calls: u32,
    faults: u64,
}

impl Model for MemSource {
    ghost use Rattle.std.specs.Prelude.{drop, vec_len, ◌≤◌};
    ghost use Rattle.dhcp_stream.specs.Memory.{MemSourceView};

    ghost Value = { MemSourceView };

    ghost view = { λ source. record {
      left = drop source.place source.bytes.items;
      fails = source.fails.items;
      calls = source.calls;
      faults = source.faults;
    } };

    ghost invariant = { λ source. source.place ≤ vec_len source.bytes };
}

impl MemSource {
    /// These bytes, failing at the calls with these numbers. The first call has number 1; every
    /// call from number 4294967295 on has that number. Does not allocate.
    pub fn new(bytes: Vec<u8>, fails: Vec<u32>) -> Self
        ensures { result
            ≡ record { left = bytes.items; fails = fails.items; calls = 0; faults = 0 } }
    {
        MemSource {
            bytes,
            place: 0,
            fails,
            calls: 0,
            faults: 0,
        }
    }
}

impl Source for MemSource {
    ghost left = { λ source. Some source.left };

    ghost faults = { λ source. source.faults };

    /// As the trait says, and exactly this.
    fn read(&mut self, into: &mut [u8]) -> ReadOutcome
        ensures within { read_count result ≤ length into.new }
        ensures moved { Consumes (Some self.old.left) (Some self.new.left)
            (take (read_count result) into.new) }
        ensures end { result ≡ ReadOutcome.Read 0 → 0 < length into.old
            → IsAtEnd (Some self.new.left) }
        ensures fault { HasCause (result ≡ ReadOutcome.Failed) self.old.faults self.new.faults }

        ensures answer { result ≡ read_answer self.old (length into.old) }
        ensures after { self.new ≡ after_read self.old (length into.old) }
    {
        self.calls = self.calls.saturating_add(1);
        if is_listed(&self.fails, self.calls) {
            self.faults = self.faults.saturating_add(1);
            return ReadOutcome::Failed;
        }
        let left = &self.bytes[self.place..];
        let count = left.len().min(into.len());
        into[..count].copy_from_slice(&left[..count]);
        self.place += count;
        ReadOutcome::Read(count)
    }
}

/// A sink in memory: each write takes as much of its piece as there is room for, but for the calls
/// at which it fails. A piece that is not empty fails if no room is left. Contracts see the bytes
/// written, the room for more, the calls that fail, and the numbers of calls and faults so far.
#[derive(Debug, Drop)]
pub struct MemSink {
    taken: Vec<u8>,
    room: usize,
    fails: Vec<u32>,
    calls: u32,
    faults: u64,
}

impl Model for MemSink {
    ghost use Rattle.std.specs.Prelude.{vec_len, ◌+◌, ◌≤◌};
    ghost use Rattle.std.specs.Vec.{vec_capacity};
    ghost use Rattle.dhcp_stream.specs.Memory.{MemSinkView};

    ghost Value = { MemSinkView };

    ghost view = { λ sink. record {
      taken = sink.taken.items;
      room = sink.room;
      fails = sink.fails.items;
      calls = sink.calls;
      faults = sink.faults;
    } };

    ghost invariant = { λ sink. vec_len sink.taken + sink.room ≤ vec_capacity sink.taken };
}

impl MemSink {
    /// A sink with room for so many bytes, failing at the calls with these numbers. The first call
    /// has number 1; every call from number 4294967295 on has that number. All its memory is taken
    /// here, so a write does not allocate.
    pub fn new(alloc: Global, room: usize, fails: Vec<u32>) -> Result<Self, DhcpError>
        ensures { Makes (λ sink. sink) result
            (record { taken = []; room = room; fails = fails.items; calls = 0; faults = 0 }) }
    {
        Ok(MemSink {
            taken: Vec::with_capacity(alloc, room)?,
            room,
            fails,
            calls: 0,
            faults: 0,
        })
    }

    /// The bytes written so far.
    pub fn bytes(&self) -> &[u8]
        ensures { result.now ≡ self.now.taken }
    {
        self.taken.as_slice()
    }
}

impl Sink for MemSink {
    ghost taken = { λ sink. Some sink.taken };

    ghost faults = { λ sink. sink.faults };

    /// As the trait says, and exactly this.
    fn write(&mut self, bytes: &[u8]) -> WriteOutcome
        ensures within { write_count result ≤ length bytes.now }
        ensures took { Appends (Some self.old.taken) (Some self.new.taken)
            (take (write_count result) bytes.now) }
        ensures some { result ≡ WriteOutcome.Wrote 0 → bytes.now ≡ [] }
        ensures fault { HasCause (result ≡ WriteOutcome.Failed) self.old.faults self.new.faults }

        ensures answer { result ≡ write_answer self.old bytes.now }
        ensures after { self.new ≡ after_write self.old bytes.now }
    {
        self.calls = self.calls.saturating_add(1);
        let is_full = self.room == 0 && !bytes.is_empty();
        if is_listed(&self.fails, self.calls) || is_full {
            self.faults = self.faults.saturating_add(1);
            return WriteOutcome::Failed;
        }
        let count = bytes.len().min(self.room);
        if self.taken.extend_from_slice(&bytes[..count]).is_err() {
            unreachable!("the room was taken at the start");
        }
        self.room -= count;
        WriteOutcome::Wrote(count)
    }
}

// Whether a call with this number is among those that fail.
fn is_listed(fails: &[u32], call: u32) -> bool
    ensures { result ≡ Memory.is_listed fails.now call }
{
    fails.iter().any(|number| *number == call)
}
