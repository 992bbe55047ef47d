//! Writing: items one after the other, and a value as an option, RFC 8415 section 21.1.

ghost use Rattle.std.specs.Prelude.{◌≡◌, ◌+◌, ◌-◌, ◌^◌, ◌≤◌, ◌%◌, ◌++◌, ℕ, List, length, min};
ghost use Rattle.std.specs.Int.{w16, w32, to_be_bytes};
ghost use Rattle.std.specs.List.{flat_map};
ghost use Rattle.std.specs.Net.Addr.{ipv6_octets};
ghost use Rattle.dhcp_wire.specs.Outcome.{Emits};
ghost use Rattle.dhcp6_opt.specs.Written.{as_option, if_some};

use dhcp_wire::{BufferMut, Bytes, DhcpError};
use std::net::Ipv6Addr;

// What is written as a value, or as a part of one.
pub(crate) trait Written {
    // The bytes that it is written as.
    ghost written: { Self → List ℕ };

    // How many bytes these are: at most those of one list or text, and a few more.
    fn written_len(&self) -> usize
        ensures value { result ≡ length (written self.now) }
        ensures few { result ≤ 2 ^ 63 + 64 };

    // Writes them.
    fn emit(&self, buf: &mut BufferMut) -> Result<(), DhcpError>
        ensures { Emits result buf.old buf.new (written self.now) };
}

impl Written for Bytes {
    ghost written = { λ bytes. bytes };

    fn written_len(&self) -> usize {
        self.as_slice().len()
    }

    fn emit(&self, buf: &mut BufferMut) -> Result<(), DhcpError> {
        buf.write_bytes(self.as_slice())
    }
}

impl Written for u32 {
    ghost written = { λ number. to_be_bytes w32 number };

    fn written_len(&self) -> usize {
        4
    }

    fn emit(&self, buf: &mut BufferMut) -> Result<(), DhcpError> {
        buf.write_u32_be(*self)
    }
}

impl Written for Ipv6Addr {
    ghost written = { λ address. ipv6_octets address };

    fn written_len(&self) -> usize {
        self.octets().len()
    }

    fn emit(&self, buf: &mut BufferMut) -> Result<(), DhcpError> {
        buf.write_ipv6(*self)
    }
}

// Writes items one after the other.
pub(crate) fn emit_all<T: Written>(items: &[T], buf: &mut BufferMut) -> Result<(), DhcpError>
    ensures { Emits result buf.old buf.new (flat_map T.written items.now) }
{
    for item in items {
        item.emit(buf)?;
    }
    Ok(())
}

// How many bytes items are written in; the greatest `usize` if there are more.
pub(crate) fn len_of_all<T: Written>(items: &[T]) -> usize
    ensures { result ≡ min (length (flat_map T.written items.now)) (2 ^ 64 - 1) }
{
    let mut len = 0usize;
    for item in items {
        len = len.saturating_add(item.written_len());
    }
    len
}

// Writes a value as the option of this code. Of a length that two bytes do not hold the low two
// are written.
pub(crate) fn emit_as_option<T: Written>(
    code: u16,
    value: &T,
    buf: &mut BufferMut,
) -> Result<(), DhcpError>
    ensures { Emits result buf.old buf.new (as_option code (T.written value.now)) }
{
    buf.write_bytes(&pair(code, low_two_bytes(value.written_len())))?;
    value.emit(buf)
}

// The bytes of two numbers, as of a code and a length.
pub(crate) fn pair(first: u16, second: u16) -> [u8; 4]
    ensures { result ≡ to_be_bytes w16 first ++ to_be_bytes w16 second }
{
    let [first_high, first_low] = first.to_be_bytes();
    let [second_high, second_low] = second.to_be_bytes();
    [first_high, first_low, second_high, second_low]
}

// The low two bytes of a length.
fn low_two_bytes(len: usize) -> u16
    ensures { result ≡ len % 2 ^ 16 }
{
    (len & 0xffff) as u16
}

// Writes a value as the option of this code, if there is a value.
pub(crate) fn emit_if_some<T: Written>(
    code: u16,
    value: &Option<T>,
    buf: &mut BufferMut,
) -> Result<(), DhcpError>
    ensures { Emits result buf.old buf.new (if_some code T.written value.now) }
{
    match value {
        Some(value) => emit_as_option(code, value, buf),
        None => Ok(()),
    }
}

// How many bytes the option of a value is written in; 0 if there is no value.
#[tactic(auto, using(crate::proofs::option_len))]
pub(crate) fn len_if_some<T: Written>(value: &Option<T>) -> usize
    ensures value { (code : ℕ) → result ≡ length (if_some code T.written value.now) }
    ensures few { result ≤ 2 ^ 63 + 68 }
{
    match value {
        Some(value) => 4 + value.written_len(),
        None => 0,
    }
}
