//! Sources and sinks of bytes.

ghost use Rattle.std.specs.Prelude.{◌≡◌, ◌≤◌, ◌<◌, ℕ, List, [], Option, length, take};
ghost use Rattle.std.specs.Io.KnownBytes.{Appends, Consumes, IsAtEnd};
ghost use Rattle.dhcp_wire.specs.Fault.{HasCause};
ghost use Rattle.dhcp_stream.specs.Stream.{read_count, write_count};

/// What a read did.
#[derive(Clone, Copy, Debug, PartialEq, Eq)]
pub enum ReadOutcome {
    /// This many bytes were read, to the front of the slice. 0 is the end of the source, unless the
    /// slice is empty.
    Read(usize),
    /// The source failed, and no byte was read.
    Failed,
}

/// What a write did.
#[derive(Clone, Copy, Debug, PartialEq, Eq)]
pub enum WriteOutcome {
    /// This many bytes were written, from the front of the piece.
    Wrote(usize),
    /// The sink failed, and no byte was written.
    Failed,
}

/// A source of bytes.
pub trait Source {
    /// The bytes that are left, where they are known.
    ghost left: { Self → Option (List ℕ) };

    /// How often the source has failed, as far as a u64 counts.
    ghost faults: { Self → ℕ };

    /// Reads the next bytes to the front of the slice, at most as many as fit. `Read(0)` into a
    /// slice that is not empty is the end of the source. `Failed` only if the count of faults rose;
    /// no byte is read then.
    fn read(&mut self, into: &mut [u8]) -> ReadOutcome
        ensures within { read_count result ≤ length into.new }
        ensures moved { Consumes (left self.old) (left self.new)
            (take (read_count result) into.new) }
        ensures end { result ≡ ReadOutcome.Read 0 → 0 < length into.old → IsAtEnd (left self.new) }
        ensures fault { HasCause (result ≡ ReadOutcome.Failed)
            (faults self.old) (faults self.new) };
}

/// A sink of bytes.
pub trait Sink {
    /// The bytes that were written to it, where they are known.
    ghost taken: { Self → Option (List ℕ) };

    /// How often the sink has failed, as far as a u64 counts.
    ghost faults: { Self → ℕ };

    /// Writes bytes from the front of the piece, at least one unless the piece is empty. `Failed`
    /// only if the count of faults rose; no byte is written then.
    fn write(&mut self, bytes: &[u8]) -> WriteOutcome
        ensures within { write_count result ≤ length bytes.now }
        ensures took { Appends (taken self.old) (taken self.new)
            (take (write_count result) bytes.now) }
        ensures some { result ≡ WriteOutcome.Wrote 0 → bytes.now ≡ [] }
        ensures fault { HasCause (result ≡ WriteOutcome.Failed)
            (faults self.old) (faults self.new) };
}
