//! Reading fields from the front of a slice.

ghost use Rattle.std.specs.Prelude.{◌≡◌, ◌↔◌, ℕ, ◌==◌, List, [], drop, length, position, ok_or, IsTrue, MatchResult, option_copied, string_bytes};
ghost use Rattle.dhcp_wire.specs.Error.{no_memory};
ghost use Rattle.std.specs.Int.{w8, w16, w32, w128};
ghost use Rattle.dhcp_wire.specs.Outcome.{Answers, Reads, ReadsField, ReadsText};
ghost use Rattle.dhcp_wire.specs.Field as Field;
ghost use Rattle.dhcp_wire.specs.Field.{bytes_at, number_at, address_at, ipv6_address_at, text_at, terminated_text_at};
ghost use Rattle.dhcp_wire.specs.Value as values;

use crate::{DhcpError, ErrorKind, FixedText};
use std::alloc::Global;
use std::marker::Model;
use std::net::{Ipv4Addr, Ipv6Addr};

/// Reads fields from a slice, from its front on. Contracts see it as the bytes that are left.
#[derive(Debug, Drop)]
pub struct Buffer<'a> {
    left: &'a [u8],
}

impl<'a> Model for Buffer<'a> {
    ghost Value = { List ℕ };

    ghost view = { λ buffer. buffer.left.now };
}

impl<'a> Buffer<'a> {
    /// A reader at the first byte.
    pub fn new(bytes: &'a [u8]) -> Self
        ensures { result ≡ bytes.now }
    {
        Buffer { left: bytes }
    }

    /// Whether no byte is left.
    pub fn is_empty(&self) -> bool
        ensures { IsTrue result ↔ (self.now ≡ []) }
    {
        self.left.is_empty()
    }

    /// How many bytes are left.
    pub fn remain_len(&self) -> usize
        ensures { result ≡ length self.now }
    {
        self.left.len()
    }

    /// All the bytes that are left. The position does not move.
    pub fn get_remains(&mut self) -> &'a [u8]
        ensures remains { result.now ≡ self.old }
        ensures position { self.new ≡ self.old }
    {
        self.left
    }

    /// The next two bytes as a number, the more significant first. `InvalidDhcpMessage` if and only
    /// if fewer are left. The position does not move.
    pub fn peek_u16_be(&self) -> Result<u16, DhcpError>
        ensures { Answers (λ number. number) result
            (ok_or (values.number_in w16 self.now) ErrorKind.InvalidDhcpMessage) }
    {
        Buffer::new(self.left).get_u16_be()
    }

    /// The two bytes after the next `offset` bytes as a number, the more significant first.
    /// `InvalidDhcpMessage` if and only if fewer than `offset` and two bytes are left. The position
    /// does not move.
    pub fn peek_u16_be_offset(&self, offset: usize) -> Result<u16, DhcpError>
        ensures { Answers (λ number. number) result
            (ok_or (values.number_in w16 (drop offset self.now)) ErrorKind.InvalidDhcpMessage) }
    {
        let offset = offset.min(self.left.len());
        Buffer::new(&self.left[offset..]).get_u16_be()
    }

    /// The next `len` bytes. `InvalidDhcpMessage` if and only if fewer are left. The position does
    /// not move.
    pub fn peek_bytes(&self, len: usize) -> Result<&'a [u8], DhcpError>
        ensures { Answers (λ bytes. bytes.now) result
            (ok_or (values.bytes_in len self.now) ErrorKind.InvalidDhcpMessage) }
    {
        Buffer::new(self.left).get_bytes(len)
    }

    /// The next `len` bytes. `InvalidDhcpMessage` if and only if fewer are left; the position then
    /// does not move.
    #[tactic(auto, unfolding(crate::specs::Field::bytes_at))]
    pub fn get_bytes(&mut self, len: usize) -> Result<&'a [u8], DhcpError>
        ensures { Reads (λ bytes. bytes.now) result self.old self.new (bytes_at len self.old) }
    {
        if self.left.len() < len {
            return Err(DhcpError::invalid_message(FixedText::Short));
        }
        let (bytes, left) = self.left.split_at(len);
        self.left = left;
        Ok(bytes)
    }

    /// One byte. `InvalidDhcpMessage` if and only if none is left; the position then does not move.
    #[tactic(auto, unfolding(crate::specs::Field::bytes_at))]
    pub fn get_u8(&mut self) -> Result<u8, DhcpError>
        ensures { Reads (λ number. number) result self.old self.new (number_at w8 self.old) }
    {
        let bytes = self.get_bytes(1)?;
        Ok(bytes[0])
    }

    /// A number of two bytes, the more significant first. `InvalidDhcpMessage` if and only if fewer
    /// are left; the position then does not move.
    #[tactic(auto, unfolding(crate::specs::Field::bytes_at))]
    pub fn get_u16_be(&mut self) -> Result<u16, DhcpError>
        ensures { Reads (λ number. number) result self.old self.new (number_at w16 self.old) }
    {
        let bytes = self.get_bytes(2)?;
        Ok(u16::from_be_bytes([bytes[0], bytes[1]]))
    }

    /// A number of four bytes, the most significant first. `InvalidDhcpMessage` if and only if
    /// fewer are left; the position then does not move.
    #[tactic(auto, unfolding(crate::specs::Field::bytes_at))]
    pub fn get_u32_be(&mut self) -> Result<u32, DhcpError>
        ensures { Reads (λ number. number) result self.old self.new (number_at w32 self.old) }
    {
        let bytes = self.get_bytes(4)?;
        Ok(u32::from_be_bytes([bytes[0], bytes[1], bytes[2], bytes[3]]))
    }

    /// A number of sixteen bytes, the most significant first. `InvalidDhcpMessage` if and only if
    /// fewer are left; the position then does not move.
    #[tactic(auto, unfolding(crate::specs::Field::bytes_at))]
    pub fn get_u128_be(&mut self) -> Result<u128, DhcpError>
        ensures { Reads (λ number. number) result self.old self.new (number_at w128 self.old) }
    {
        Ok(u128::from_be_bytes(self.get_array()?))
    }

    /// An address of four bytes. `InvalidDhcpMessage` if and only if fewer are left; the position
    /// then does not move.
    #[tactic(auto, unfolding(crate::specs::Field::bytes_at))]
    pub fn get_ipv4(&mut self) -> Result<Ipv4Addr, DhcpError>
        ensures { Reads (λ address. address) result self.old self.new (address_at self.old) }
    {
        let bytes = self.get_bytes(4)?;
        Ok(Ipv4Addr::new(bytes[0], bytes[1], bytes[2], bytes[3]))
    }

    /// An address of sixteen bytes. `InvalidDhcpMessage` if and only if fewer are left; the
    /// position then does not move.
    pub fn get_ipv6(&mut self) -> Result<Ipv6Addr, DhcpError>
        ensures { Reads (λ address. address) result self.old self.new (ipv6_address_at self.old) }
    {
        let octets: [u8; 16] = self.get_array()?;
        Ok(Ipv6Addr::from(octets))
    }

    /// The next `N` bytes, copied. `InvalidDhcpMessage` if and only if fewer are left; the position
    /// then does not move.
    #[tactic(auto, unfolding(crate::specs::Field::bytes_at))]
    pub fn get_array<const N: usize>(&mut self) -> Result<[u8; N], DhcpError>
        ensures { Reads (λ bytes. bytes) result self.old self.new (bytes_at N self.old) }
    {
        let Some((bytes, left)) = self.left.split_first_chunk::<N>() else {
            return Err(DhcpError::invalid_message(FixedText::Short));
        };
        self.left = left;
        Ok(*bytes)
    }

    /// The text in a field of `fix_size` bytes, up to its first zero byte, or all of it if there is
    /// none. `InvalidDhcpMessage` if and only if fewer bytes are left, and then the position does
    /// not move, or the text is not UTF-8, and then the field is skipped. Out of memory leaves the
    /// position.
    pub fn get_string_with_null(
        &mut self,
        alloc: Global,
        fix_size: usize,
    ) -> Result<String, DhcpError>
        ensures { ReadsText string_bytes result self.old self.new fix_size
            (terminated_text_at fix_size self.old) }
    {
        let start = self.left;
        let text = self.get_str_with_null(fix_size)?;
        self.copied_after(alloc, start, text)
    }

    /// The text in a field of `fix_size` bytes, in place: as `get_string_with_null`, and does not
    /// allocate.
    #[tactic(auto, unfolding(crate::specs::Field::bytes_at))]
    pub fn get_str_with_null(&mut self, fix_size: usize) -> Result<&'a str, DhcpError>
        ensures { ReadsField (λ text. text.now) result self.old self.new fix_size
            (terminated_text_at fix_size self.old) }
    {
        match utf8_of(before_zero(self.get_bytes(fix_size)?)) {
            Some(text) => Ok(text),
            None => Err(DhcpError::invalid_message(FixedText::NotUtf8)),
        }
    }

    // A copy of a text that was read; out of memory puts the position back to where the read began.
    fn copied_after(
        &mut self,
        alloc: Global,
        start: &'a [u8],
        text: &str,
    ) -> Result<String, DhcpError>
        ensures { MatchResult result
            (λ copy. (string_bytes copy ≡ text.now) × (self.new ≡ self.old))
            (λ e. (e ≡ no_memory) × (self.new ≡ start.now)) }
    {
        match String::from_str(alloc, text) {
            Ok(copy) => Ok(copy),
            Err(error) => {
                self.left = start;
                Err(DhcpError::from(error))
            }
        }
    }

    /// The text of the next `size` bytes, zero bytes and all. `InvalidDhcpMessage` if and only if
    /// fewer bytes are left, and then the position does not move, or they are not UTF-8, and then
    /// they are skipped. Out of memory leaves the position.
    pub fn get_string_without_null(
        &mut self,
        alloc: Global,
        size: usize,
    ) -> Result<String, DhcpError>
        ensures { ReadsText string_bytes result self.old self.new size (text_at size self.old) }
    {
        let start = self.left;
        let text = self.get_str_without_null(size)?;
        self.copied_after(alloc, start, text)
    }

    /// The text of the next `size` bytes, in place: as `get_string_without_null`, and does not
    /// allocate.
    #[tactic(auto, unfolding(crate::specs::Field::bytes_at))]
    pub fn get_str_without_null(&mut self, size: usize) -> Result<&'a str, DhcpError>
        ensures { ReadsField (λ text. text.now) result self.old self.new size
            (text_at size self.old) }
    {
        match utf8_of(self.get_bytes(size)?) {
            Some(text) => Ok(text),
            None => Err(DhcpError::invalid_message(FixedText::NotUtf8)),
        }
    }
}

// The bytes before the first zero byte, or all of them if there is none.
fn before_zero(field: &[u8]) -> &[u8]
    ensures { result.now ≡ Field.before_zero field.now }
{
    match first_zero(field) {
        Some(end) => &field[..end],
        None => field,
    }
}

// Where the first zero byte is, if there is one.
fn first_zero(field: &[u8]) -> Option<usize>
    ensures { result ≡ position (λ byte. byte == 0) field.now }
{
    field.iter().position(|byte| *byte == 0)
}

// The bytes as a text, where they are UTF-8.
#[tactic(auto, using(crate::proofs::Utf8::text_of_utf8, crate::proofs::Utf8::text_of_other))]
fn utf8_of(bytes: &[u8]) -> Option<&str>
    ensures { option_copied result ≡ Field.text_of bytes.now }
{
    match str::from_utf8(bytes) {
        Ok(text) => Some(text),
        Err(_) => None,
    }
}
