//! Fields of texts in hex with numbers of a width: words of 32 bits, and option codes of 16 bits.

ghost use Rattle.std.specs.Prelude.{◌<◌, ◌*◌, ◌^◌, All};
ghost use Rattle.std.specs.Int.{w16, byte_len, to_be_bytes};
ghost use Rattle.std.specs.List.{flat_map};
ghost use Rattle.dhcp_stream.specs.Reading.{GivesReading};
ghost use Rattle.dhcp_stream.specs.HexText.{
  hex_text,
  numbers_text,
  words_text,
  AreOfWidth,
  AreWords,
};

use crate::hex_field;
use dhcp_wire::{DhcpError, Sequence};
use std::alloc::Global;

/// The words, one or more, of a field in lower-case hex, eight digits for each; the field `-` is no
/// words. None if and only if the field is neither.
pub fn words_field(alloc: Global, field: &[u8]) -> Result<Option<Sequence<u32>>, DhcpError>
    ensures { GivesReading words_text AreWords result field.now }
{
    numbers_field(alloc, field)
}

/// The option codes, one or more, of a field in lower-case hex, four digits for each; the field `-`
/// is no codes. None if and only if the field is neither.
pub fn codes_field(alloc: Global, field: &[u8]) -> Result<Option<Sequence<u16>>, DhcpError>
    ensures { GivesReading (numbers_text w16) (AreOfWidth w16) result field.now }
{
    numbers_field(alloc, field)
}

// A number of a width.
trait Number: Copy + Drop {
    ghost use Rattle.std.specs.Prelude.{◌≡◌, ◌<◌, ◌*◌, ◌^◌, ℕ, length};
    ghost use Rattle.std.specs.Int.{Width, byte_len, to_be_bytes};

    ghost width: { Width };

    ghost value: { Self → ℕ };

    // How many bytes it has.
    ghost LEN: { ℕ };

    const LEN: usize;

    // The number of these bytes, the most significant one first.
    fn of_bytes(bytes: &[u8]) -> Self
        requires { length bytes.now ≡ LEN }
        ensures spelled { to_be_bytes width (value result) ≡ bytes.now }
        ensures fits { value result < 2 ^ (8 * byte_len width) };

    ghost is_some: { 0 < LEN };

    ghost long: { byte_len width ≡ LEN };
}

impl Number for u32 {
    ghost use Rattle.std.specs.Int.{w32};
    ghost use Rattle.std.proofs.Common.{lit<, refl};

    ghost width = { w32 };

    ghost value = { λ number. number };

    ghost LEN = { 4 };

    const LEN: usize = 4;

    fn of_bytes(bytes: &[u8]) -> Self {
        u32::from_be_bytes([bytes[0], bytes[1], bytes[2], bytes[3]])
    }

    ghost is_some = { lit< tt };

    ghost long = { refl };
}

impl Number for u16 {
    ghost use Rattle.std.specs.Int.{w16};
    ghost use Rattle.std.proofs.Common.{lit<, refl};

    ghost width = { w16 };

    ghost value = { λ number. number };

    ghost LEN = { 2 };

    const LEN: usize = 2;

    fn of_bytes(bytes: &[u8]) -> Self {
        u16::from_be_bytes([bytes[0], bytes[1]])
    }

    ghost is_some = { lit< tt };

    ghost long = { refl };
}

// The numbers of a field in lower-case hex.
fn numbers_field<N: Number>(alloc: Global, field: &[u8]) -> Result<Option<Sequence<N>>, DhcpError>
    ensures { GivesReading
        (λ numbers. hex_text (flat_map (λ n. to_be_bytes N.width (N.value n)) numbers))
        (All (λ n. N.value n < 2 ^ (8 * byte_len N.width))) result field.now }
{
    let Some(bytes) = hex_field(alloc, field)? else {
        return Ok(None);
    };
    numbers_of(alloc, bytes.as_slice())
}

// The numbers of these bytes.
fn numbers_of<N: Number>(alloc: Global, bytes: &[u8]) -> Result<Option<Sequence<N>>, DhcpError>
    ensures { GivesReading (flat_map (λ n. to_be_bytes N.width (N.value n)))
        (All (λ n. N.value n < 2 ^ (8 * byte_len N.width))) result bytes.now }
{
    let mut numbers = Vec::new(alloc);
    let mut left = bytes;
    while left.len() >= N::LEN {
        let (number, rest) = left.split_at(N::LEN);
        numbers.push(N::of_bytes(number))?;
        left = rest;
    }
    if left.is_empty() {
        Ok(Some(Sequence::from(numbers)))
    } else {
        Ok(None)
    }
}
