//! A capture file that is read record by record.

ghost use Rattle.std.specs.Prelude.{◌≡◌, ◌≤◌, ◌↔◌, ⊤, IfSome, IsSome, length};
ghost use Rattle.std.specs.Iterator.{MakesProgress, YieldsFirst, item_count};
ghost use Rattle.dhcp_inspect.specs.Capture.{read_capture, records_left};
ghost use Rattle.dhcp_inspect.specs.Header.{IsCapture};

use crate::header::{Header, TimeUnit};
use crate::record::Record;
use std::marker::Model;

/// A capture file: an iterator over its records, which are read in place. Contracts see the unit of
/// its fractions, the records that are left, and how many bytes remain after the last of them.
#[derive(Debug, Drop)]
pub struct Capture<'a> {
    header: Header,
    left: &'a [u8],
}

impl<'a> Model for Capture<'a> {
    ghost use Rattle.dhcp_inspect.specs.Capture.{CaptureParts, capture_of};

    ghost Value = { CaptureParts };

    ghost view = { λ capture. capture_of capture.header capture.left.now };
}

impl<'a> Capture<'a> {
    /// The capture that a file is: none if and only if it has fewer than 24 bytes, another magic
    /// number or another link type than Ethernet's. Does not allocate.
    #[tactic(auto, unfolding(crate::specs::Capture::read_capture))]
    pub fn new(file: &'a [u8]) -> Option<Self>
        ensures value { result ≡ read_capture file.now }
        ensures capture { IsSome result ↔ IsCapture file.now }
        ensures few { IfSome result (λ capture. length capture.records ≤ length file.now) }
    {
        match Header::read(file) {
            Some((header, left)) => Some(Capture { header, left }),
            None => None,
        }
    }

    /// What the fractions of its records count.
    pub fn unit(&self) -> TimeUnit
        ensures { result ≡ self.now.unit }
    {
        self.header.unit
    }

    /// How many bytes remain after its last record: 0 unless the file ends within a record.
    #[tactic(auto, using(crate::proofs::RecordLemmas::next_record))]
    pub fn remainder(&self) -> usize
        ensures { result ≡ self.now.remainder }
    {
        let order = self.header.order;
        let mut left = self.left;
        while let Some((_, rest)) = order.record_at(left) {
            left = rest;
        }
        left.len()
    }
}

impl<'a> Iterator for Capture<'a> {
    type Item = Record<'a>;

    ghost use Rattle.std.specs.Iterator.{YieldsFirst, item_count};
    ghost use Rattle.dhcp_inspect.specs.Capture.{records_left};

    ghost next_gives = { YieldsFirst records_left };

    ghost remaining = { item_count records_left };

    /// The next record; none where none is left. Neither the unit nor what remains after the last
    /// record changes. Does not allocate.
    #[tactic(auto, using(crate::proofs::RecordLemmas::next_record))]
    fn next(&mut self) -> Option<Record<'a>>
        ensures steps { YieldsFirst records_left self.old result self.new }
        ensures goes { MakesProgress (λ _. ⊤) (item_count records_left) self.old result self.new }
        ensures unit { self.new.unit ≡ self.old.unit }
        ensures remainder { self.new.remainder ≡ self.old.remainder }
    {
        let (packet, rest) = self.header.order.record_at(self.left)?;
        self.left = rest;
        Some(packet)
    }
}
