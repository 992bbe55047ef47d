//! Reading a source to its end, and writing bytes whole.

ghost use Rattle.std.specs.Prelude.{◌≡◌, ◌≤◌, ◌+◌, true, false};
ghost use Rattle.std.specs.Io.KnownBytes.{Appends};
ghost use Rattle.dhcp_wire.specs.Fault.{HasCause};
ghost use Rattle.dhcp_stream.specs.Whole.{HasGone, ReadsWhole, TakesFront, most_bytes};

use crate::{ReadOutcome, Sink, Source, WriteOutcome};
use dhcp_wire::{Bytes, DhcpError};
use std::alloc::Global;

/// How many bytes a source that is read whole may have: 16 MiB. One more is read to tell that there
/// are more.
pub const MAX_INPUT: usize = 16_777_216;

/// What reading a source to its end found.
#[derive(Debug, Drop)]
pub enum Whole {
    /// All the bytes that were left, at most `MAX_INPUT`.
    All(Bytes),
    /// The source failed, after at most `MAX_INPUT` bytes, which are dropped: its count of faults
    /// rose.
    Failed,
    /// More than `MAX_INPUT` bytes were left; reading stopped after one more than these.
    TooLong,
}

/// Reads the source to its end. `Failed` only if the source's count of faults rose. When out of
/// memory, the bytes that were read are dropped.
pub fn read_whole<S: Source>(alloc: Global, source: &mut S) -> Result<Whole, DhcpError>
    ensures outcome { ReadsWhole result (S.left source.old) (S.left source.new)
        (S.faults source.old) (S.faults source.new) }
    ensures goes_on { HasGone (most_bytes + 1) (S.left source.old) (S.left source.new) }
    ensures later { S.faults source.old ≤ S.faults source.new }
{
    let mut bytes = Vec::new(alloc);
    let mut piece = [0u8; 8192];
    while bytes.len() <= MAX_INPUT {
        let room = piece.len().min(MAX_INPUT + 1 - bytes.len());
        match source.read(&mut piece[..room]) {
            ReadOutcome::Read(0) => return Ok(Whole::All(Bytes::from(bytes))),
            ReadOutcome::Read(count) => bytes.extend_from_slice(&piece[..count])?,
            ReadOutcome::Failed => return Ok(Whole::Failed),
        }
    }
    Ok(Whole::TooLong)
}

/// Writes all the bytes, and returns whether the sink took them. Does not allocate. `false` only if
/// the sink's count of faults rose; a prefix of the bytes, but not all of them, was written then.
pub fn write_whole<K: Sink>(sink: &mut K, bytes: &[u8]) -> bool
    ensures done { result ≡ true → Appends (K.taken sink.old) (K.taken sink.new) bytes.now }
    ensures fault { HasCause (result ≡ false) (K.faults sink.old) (K.faults sink.new) }
    ensures front { result ≡ false →
        TakesFront (K.taken sink.old) (K.taken sink.new) bytes.now }
{
    let mut done = 0;
    while done < bytes.len() {
        match sink.write(&bytes[done..]) {
            WriteOutcome::Wrote(count) => done += count,
            WriteOutcome::Failed => return false,
        }
    }
    true
}
