//! A record of a capture file: a packet, with the moment at which it was seen.

ghost use Rattle.std.specs.Prelude.{◌≡◌};
ghost use Rattle.dhcp_wire.specs.Outcome.{Finds};
ghost use Rattle.dhcp_inspect.specs.Record as records;

use crate::header::ByteOrder;
use std::marker::Model;

/// A record, over the bytes of its file. Contracts see its numbers and the list of its bytes.
#[derive(Debug, Drop)]
pub struct Record<'a> {
    seconds: u32,
    fraction: u32,
    wire_length: u32,
    bytes: &'a [u8],
}

impl<'a> Model for Record<'a> {
    ghost use Rattle.dhcp_inspect.specs.Record.{RecordParts};

    ghost Value = { RecordParts };

    ghost view = { λ packet. record {
      seconds = packet.seconds;
      fraction = packet.fraction;
      wire_length = packet.wire_length;
      bytes = packet.bytes.now;
    } };
}

impl<'a> Record<'a> {
    /// When the packet was seen: seconds since the beginning of 1970.
    pub fn seconds(&self) -> u32
        ensures { result ≡ self.now.seconds }
    {
        self.seconds
    }

    /// The fraction of a second after that, in the unit of the file. It is not tested.
    pub fn fraction(&self) -> u32
        ensures { result ≡ self.now.fraction }
    {
        self.fraction
    }

    /// How many bytes the packet had on the wire.
    pub fn wire_length(&self) -> u32
        ensures { result ≡ self.now.wire_length }
    {
        self.wire_length
    }

    /// The bytes of the packet that are kept.
    pub fn bytes(&self) -> &'a [u8]
        ensures { result.now ≡ self.now.bytes }
    {
        self.bytes
    }
}

impl ByteOrder {
    /// The record at the front, if it is whole, and the bytes after it.
    #[tactic(auto, unfolding(crate::specs::Record::record_at, dhcp_wire::specs::Field::bytes_at))]
    pub fn record_at(self, bytes: &[u8]) -> Option<(Record<'_>, &[u8])>
        ensures { Finds (λ found. (found.0, found.1.now)) result
            (records.record_at self bytes.now) }
    {
        let (seconds, rest) = self.u32_at(bytes)?;
        let (fraction, rest) = self.u32_at(rest)?;
        let (kept, rest) = self.u32_at(rest)?;
        let (wire_length, rest) = self.u32_at(rest)?;
        let (bytes, rest) = rest.split_at_checked(kept as usize)?;
        let packet = Record {
            seconds,
            fraction,
            wire_length,
            bytes,
        };
        Some((packet, rest))
    }

    // The number at the front, and the bytes after it.
    #[tactic(auto, unfolding(crate::specs::Record::u32_at, dhcp_wire::specs::Field::bytes_at))]
    fn u32_at(self, bytes: &[u8]) -> Option<(u32, &[u8])>
        ensures { Finds (λ found. (found.0, found.1.now)) result (records.u32_at self bytes.now) }
    {
        if bytes.len() < 4 {
            return None;
        }
        Some((self.u32_in(bytes), &bytes[4..]))
    }
}
