//! Sources and sinks over the readers and writers of std, such as standard input and output. Their
//! bytes are those that the reader has left and the writer holds, and are known where std knows
//! these: of a slice or a cursor it does, of standard input and output it does not. Std does not
//! say which calls fail; each answer `Failed` is counted.

ghost use Rattle.std.specs.Prelude.{◌≡◌, ◌≤◌, ◌<◌, [], false, length, take};
ghost use Rattle.std.specs.Io.KnownBytes.{Appends, Consumes, IsAtEnd, Keeps};
ghost use Rattle.dhcp_wire.specs.Fault.{HasCause};
ghost use Rattle.dhcp_stream.specs.Stream.{
  faults_after_read,
  faults_after_write,
  read_count,
  write_count,
};

use crate::{ReadOutcome, Sink, Source, WriteOutcome};
use std::io::{Read, Write};
use std::marker::Model;

/// A source over a reader: each error of the reader is a fault, which is only tested. Contracts see
/// the number of faults, and the bytes that the reader will give, where std knows them: while there
/// are such bytes, a read that takes none of them into a slice that is not empty is a fault.
#[derive(Debug, Drop)]
pub struct StdSource<R: Read> {
    reader: R,
    faults: u64,
}

/// A sink over a writer: each error of the writer is a fault, and so is a write that took nothing
/// of a piece that is not empty; that errors are faults is only tested. Contracts see the number of
/// faults, and the bytes that the writer holds, where std knows them: a write that adds none of a
/// piece that is not empty to them is a fault.
#[derive(Debug, Drop)]
pub struct StdSink<W: Write> {
    writer: W,
    faults: u64,
}

impl<R: Read> Model for StdSource<R> {
    ghost use Rattle.dhcp_stream.specs.Standard.{StdSourceView};

    ghost Value = { StdSourceView };

    ghost view = { λ source. record {
      remaining = R.remaining source.reader;
      faults = source.faults;
    } };
}

impl<W: Write> Model for StdSink<W> {
    ghost use Rattle.dhcp_stream.specs.Standard.{StdSinkView};

    ghost Value = { StdSinkView };

    ghost view = { λ sink. record {
      contents = W.contents sink.writer;
      faults = sink.faults;
    } };
}

impl<R: Read> StdSource<R> {
    /// Reads from this reader; no fault was counted yet.
    pub fn new(reader: R) -> Self
        ensures { result ≡ record { remaining = R.remaining reader; faults = 0 } }
    {
        StdSource { reader, faults: 0 }
    }

    /// The reader, with the bytes that it has left.
    pub fn into_inner(self) -> R
        ensures { R.remaining result ≡ self.remaining }
    {
        self.reader
    }
}

impl<W: Write> StdSink<W> {
    /// Writes to this writer; no fault was counted yet.
    pub fn new(writer: W) -> Self
        ensures { result ≡ record { contents = W.contents writer; faults = 0 } }
    {
        StdSink { writer, faults: 0 }
    }

    /// The writer, with the bytes that it holds.
    pub fn into_inner(self) -> W
        ensures { W.contents result ≡ self.contents }
    {
        self.writer
    }

    /// Flushes the writer, and returns whether it could: `false`, as at an error of the writer,
    /// only if the count of faults rose. The bytes that the writer holds, where std knows them,
    /// stay.
    pub fn flush(&mut self) -> bool
        ensures fault { HasCause (result ≡ false) self.old.faults self.new.faults }
        ensures bytes { Keeps self.old.contents self.new.contents }
    {
        if self.writer.flush().is_err() {
            self.faults = self.faults.saturating_add(1);
            return false;
        }
        true
    }
}

impl<R: Read> Source for StdSource<R> {
    ghost left = { λ source. source.remaining };

    ghost faults = { λ source. source.faults };

    /// As the trait says. The count of faults rises by one where this answers `Failed`, as it does
    /// at an error of the reader, and stays at every other read.
    fn read(&mut self, into: &mut [u8]) -> ReadOutcome
        ensures within { read_count result ≤ length into.new }
        ensures moved { Consumes self.old.remaining self.new.remaining
            (take (read_count result) into.new) }
        ensures end { result ≡ ReadOutcome.Read 0 → 0 < length into.old
            → IsAtEnd self.new.remaining }
        ensures fault { HasCause (result ≡ ReadOutcome.Failed) self.old.faults self.new.faults }

        ensures count { self.new.faults ≡ faults_after_read result self.old.faults }
    {
        match self.reader.read(into) {
            Ok(count) => ReadOutcome::Read(count),
            Err(_) => {
                self.faults = self.faults.saturating_add(1);
                ReadOutcome::Failed
            }
        }
    }
}

impl<W: Write> Sink for StdSink<W> {
    ghost taken = { λ sink. sink.contents };

    ghost faults = { λ sink. sink.faults };

    /// As the trait says. The count of faults rises by one where this answers `Failed`, as it does
    /// at an error of the writer and if it takes nothing of a piece that is not empty, and stays at
    /// every other write.
    fn write(&mut self, bytes: &[u8]) -> WriteOutcome
        ensures within { write_count result ≤ length bytes.now }
        ensures took { Appends self.old.contents self.new.contents
            (take (write_count result) bytes.now) }
        ensures some { result ≡ WriteOutcome.Wrote 0 → bytes.now ≡ [] }
        ensures fault { HasCause (result ≡ WriteOutcome.Failed) self.old.faults self.new.faults }

        ensures count { self.new.faults ≡ faults_after_write result self.old.faults }
    {
        match self.writer.write(bytes) {
            Ok(count) if count > 0 || bytes.is_empty() => WriteOutcome::Wrote(count),
            _ => {
                self.faults = self.faults.saturating_add(1);
                WriteOutcome::Failed
            }
        }
    }
}
