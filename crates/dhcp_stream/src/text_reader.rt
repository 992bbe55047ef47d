//! Reading a text from its front: words, and fields up to a byte that they do not hold.

ghost use Rattle.std.specs.Prelude.{
  ◌≡◌,
  ◌↔◌,
  [],
  IsTrue,
  IfSome,
  MatchOption,
  None,
  Some,
  length,
  ◌<◌,
  ◌≤◌,
  ◌+◌,
  ◌==◌,
  drop,
  IfErr,
  IfOk,
};
ghost use Rattle.std.specs.List.{list_any, position_or_len};
ghost use Rattle.dhcp_stream.specs.TextReader as values;
ghost use Rattle.dhcp_stream.specs.TextReader.{field_at, in_field, tag_at, Takes};

use crate::{hex_field, ipv4_field, mac_field, number_field, words_field};
use dhcp_wire::{Bytes, DhcpError, Sequence};
use std::alloc::{AllocError, AllocFailed, Global};
use std::marker::Model;
use std::net::Ipv4Addr;

// How many bytes are compared at once.
const PIECE: usize = 32;

/// Why something was not read.
#[derive(Clone, Copy, Debug, PartialEq, Eq)]
pub enum ReadError {
    /// The text does not go on with it.
    Malformed,
    /// Out of memory.
    OutOfMemory,
}

impl From<AllocError> for ReadError {
    ghost use Rattle.dhcp_stream.specs.declared.text_reader.ReadError.TheVariants.{OutOfMemory};

    ghost from_gives = { λ error seen. seen ≡ OutOfMemory };

    fn from(_error: AllocError) -> Self {
        ReadError::OutOfMemory
    }
}

impl<T: Drop> From<AllocFailed<T>> for ReadError {
    ghost use Rattle.dhcp_stream.specs.declared.text_reader.ReadError.TheVariants.{OutOfMemory};

    ghost from_gives = { λ error seen. seen ≡ OutOfMemory };

    fn from(_error: AllocFailed<T>) -> Self {
        ReadError::OutOfMemory
    }
}

/// Reads a text from its front. Contracts see it as the bytes that are left. After an error of
/// `tag` or `field` these are what they were; after another error no clause says what they are.
#[derive(Debug, Drop)]
pub struct TextReader<'a> {
    left: &'a [u8],
}

impl<'a> Model for TextReader<'a> {
    ghost use Rattle.std.specs.Prelude.{ℕ, List};

    ghost Value = { List ℕ };

    ghost view = { λ reader. reader.left.now };
}

impl<'a> TextReader<'a> {
    /// A reader at the front of the text.
    pub fn new(text: &'a [u8]) -> Self
        ensures { result ≡ text.now }
    {
        TextReader { left: text }
    }

    /// Whether nothing is left.
    pub fn is_at_end(&self) -> bool
        ensures { IsTrue result ↔ (self.now ≡ []) }
    {
        self.left.is_empty()
    }

    /// Skips these bytes, if the text goes on with them; else it stays where it is.
    pub fn skip(&mut self, tag: &[u8]) -> bool
        ensures { values.Skips result self.old self.new (tag_at tag.now self.old) }
    {
        match after(self.left, tag) {
            Some(left) => {
                self.left = left;
                true
            }
            None => false,
        }
    }

    /// Skips these bytes. `Malformed`, the only error, if and only if the text does not go on with
    /// them.
    pub fn tag(&mut self, tag: &[u8]) -> Result<(), ReadError>
        ensures takes { Takes result self.new (tag_at tag.now self.old) }
        ensures err { IfErr result (λ error. error ≡ ReadError.Malformed) }
        ensures stays { IfErr result (λ _. self.new ≡ self.old) }
    {
        if self.skip(tag) {
            Ok(())
        } else {
            Err(ReadError::Malformed)
        }
    }

    /// The field before the next `end`, which is skipped. `Malformed`, the only error, if and only
    /// if there is no `end`.
    pub fn field(&mut self, end: u8) -> Result<&'a [u8], ReadError>
        ensures takes { values.TakesField result self.new (field_at end self.old) }
        ensures stays { IfErr result (λ _. self.new ≡ self.old) }
    {
        let Some((field, left)) = cut_field(self.left, end) else {
            return Err(ReadError::Malformed);
        };
        self.left = left;
        Ok(field)
    }

    /// A decimal number without a leading zero, at most `max`, before the next `end`, which is
    /// skipped. `Malformed`, the only error, if and only if the text does not go on with one.
    pub fn number(&mut self, max: u64, end: u8) -> Result<u64, ReadError>
        ensures takes { Takes result self.new (in_field (values.number_in max) end self.old) }
        ensures err { IfErr result (λ error. error ≡ ReadError.Malformed) }
        ensures small { IfOk result (λ number. number ≤ max) }
    {
        let field = self.field(end)?;
        number_field(field, max).ok_or(ReadError::Malformed)
    }

    /// A decimal number of 32 bits without a leading zero, before the next `end`, which is skipped.
    /// `Malformed`, the only error, if and only if the text does not go on with one.
    pub fn u32(&mut self, end: u8) -> Result<u32, ReadError>
        ensures takes { Takes result self.new
            (in_field (values.number_in 4294967295) end self.old) }
        ensures err { IfErr result (λ error. error ≡ ReadError.Malformed) }
    {
        let number = self.number(u64::from(u32::MAX), end)?;
        Ok(number as u32)
    }

    /// An IPv4 address before the next `end`, which is skipped. `Malformed`, the only error, if and
    /// only if the text does not go on with one.
    pub fn ipv4(&mut self, end: u8) -> Result<Ipv4Addr, ReadError>
        ensures takes { Takes result self.new (in_field values.address_in end self.old) }
        ensures err { IfErr result (λ error. error ≡ ReadError.Malformed) }
    {
        let field = self.field(end)?;
        ipv4_field(field).ok_or(ReadError::Malformed)
    }

    /// A MAC address of twelve lower-case hex digits before the next `end`, which is skipped.
    /// `Malformed`, the only error, if and only if the text does not go on with one.
    pub fn mac(&mut self, end: u8) -> Result<[u8; 6], ReadError>
        ensures takes { Takes result self.new (in_field values.mac_in end self.old) }
        ensures err { IfErr result (λ error. error ≡ ReadError.Malformed) }
    {
        let field = self.field(end)?;
        mac_field(field).ok_or(ReadError::Malformed)
    }

    /// Bytes in lower-case hex before the next `end`, which is skipped; `-` is no bytes.
    /// `Malformed` only if the text does not go on with them; the only other error is out of
    /// memory.
    pub fn hex(&mut self, alloc: Global, end: u8) -> Result<Bytes, ReadError>
        ensures { Takes result self.new (in_field values.hex_in end self.old) }
    {
        let field = self.field(end)?;
        found(hex_field(alloc, field))
    }

    /// Words of 32 bits in lower-case hex, eight digits each, before the next `end`, which is
    /// skipped; `-` is no words. `Malformed` only if the text does not go on with them; the only
    /// other error is out of memory.
    pub fn words(&mut self, alloc: Global, end: u8) -> Result<Sequence<u32>, ReadError>
        ensures { Takes result self.new (in_field values.words_in end self.old) }
    {
        let field = self.field(end)?;
        found(words_field(alloc, field))
    }
}

// What follows these bytes, if the text begins with them.
fn after<'a>(text: &'a [u8], tag: &[u8]) -> Option<&'a [u8]>
    ensures { MatchOption result
        (tag_at tag.now text.now ≡ None)
        (λ left. tag_at tag.now text.now ≡ Some (tt, left.now)) }
{
    text.strip_prefix(tag)
}

/// The field before the first `end`, and what follows that; none if and only if there is no `end`.
/// Does not allocate.
pub fn cut_field(text: &[u8], end: u8) -> Option<(&[u8], &[u8])>
    ensures { MatchOption result
        (field_at end text.now ≡ None)
        (λ found. field_at end text.now ≡ Some (found.0.now, found.1.now)) }
{
    let Some(len) = first(text, end) else {
        return None;
    };
    Some((&text[..len], &text[len + 1..]))
}

// Where the first `end` is. Whole pieces without it are passed first.
#[tactic(auto, unfolding(crate::specs::TextReader::first_of))]
fn first(text: &[u8], end: u8) -> Option<usize>
    ensures first { result ≡ values.first_of end text.now }
    ensures within { IfSome result (λ len. len < length text.now) }
{
    let passed = pieces_without(text, end);
    let place = first_by_one(&text[passed..], end)?;
    Some(passed + place)
}

// The same, one byte at a time.
#[tactic(auto, unfolding(crate::specs::TextReader::first_of))]
fn first_by_one(text: &[u8], end: u8) -> Option<usize>
    ensures first { result ≡ values.first_of end text.now }
    ensures within { IfSome result (λ len. len < length text.now) }
{
    text.iter().position(|byte| *byte == end)
}

// How many bytes there are in the whole pieces at the front that have no `end`.
fn pieces_without(text: &[u8], end: u8) -> usize
    ensures within { result ≤ length text.now }
    ensures passed { position_or_len (λ byte. byte == end) text.now
        ≡ result + position_or_len (λ byte. byte == end) (drop result text.now) }
{
    let mut passed = 0;
    while text.len() - passed >= PIECE && !has(&text[passed..passed + PIECE], end) {
        passed += PIECE;
    }
    passed
}

// Whether there is an `end`. It looks at all bytes, so that many are compared at once.
fn has(piece: &[u8], end: u8) -> bool
    ensures { result ≡ list_any (λ byte. byte == end) piece.now }
{
    let mut found = false;
    for byte in piece {
        found |= *byte == end;
    }
    found
}

/// What a field gave, where that may need memory: none is `Malformed`, and any error is out of
/// memory.
pub fn found<T>(read: Result<Option<T>, DhcpError>) -> Result<T, ReadError>
    ensures { values.IsFound read result }
{
    match read {
        Ok(Some(value)) => Ok(value),
        Ok(None) => Err(ReadError::Malformed),
        Err(_) => Err(ReadError::OutOfMemory),
    }
}
