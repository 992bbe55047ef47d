//! Bytes and numbers in lower-case hex, put at the end of a text. Out of memory is the only error;
//! a part of the digits may then be there.

ghost use Rattle.std.specs.Prelude.{◌≡◌, ◌++◌, OnOk, string_bytes};
ghost use Rattle.hex.specs.Hex.{encode_lower};
ghost use Rattle.std.specs.List.{flat_map};
ghost use Rattle.dhcp_stream.specs.HexText.{hex_text};
ghost use Rattle.dhcp_stream.specs.Line.{line};

use dhcp_stream::push_octets;
use std::alloc::AllocError;

/// Puts bytes in hex at the end of a text, or `-` for none.
pub fn push_hex(text: &mut String, bytes: &[u8]) -> Result<(), AllocError>
    ensures { OnOk result (string_bytes text.new ≡ string_bytes text.old ++ hex_text bytes.now) }
{
    if bytes.is_empty() {
        text.push('-')
    } else {
        push_octets(text, bytes)
    }
}

/// Puts a line at the end of a text: `tag`, and bytes in hex, or `-` for none.
pub fn push_hex_line(text: &mut String, tag: &str, bytes: &[u8]) -> Result<(), AllocError>
    ensures { OnOk result (string_bytes text.new
        ≡ string_bytes text.old ++ line (tag.now ++ hex_text bytes.now)) }
{
    text.push_str(tag)?;
    push_hex(text, bytes)?;
    text.push('\n')
}

/// A number that is printed as its bytes in hex.
pub trait HexNumber: Copy + Drop {
    ghost use Rattle.std.specs.Prelude.{◌≡◌, ◌<◌, ◌++◌, ℕ, List, OnOk, length, string_bytes};
    ghost use Rattle.hex.specs.Hex.{encode_lower};

    /// Its bytes, the most significant one first.
    ghost bytes: { Self → List ℕ };

    /// Puts the digits of its bytes at the end of a text.
    fn push_to(self, text: &mut String) -> Result<(), AllocError>
        ensures { OnOk result (string_bytes text.new
            ≡ string_bytes text.old ++ encode_lower (bytes self)) };

    /// It has at least one byte.
    ghost is_some: { (number : Self) → 0 < length (bytes number) };
}

// A number of four bytes: eight digits.
impl HexNumber for u32 {
    ghost use Rattle.std.specs.Int.{w32, to_be_bytes};
    ghost use Rattle.std.proofs.Common.{lit<};

    ghost bytes = { to_be_bytes w32 };

    fn push_to(self, text: &mut String) -> Result<(), AllocError> {
        push_octets(text, &self.to_be_bytes())
    }

    ghost is_some = { λ number. lit< tt };
}

// A number of two bytes: four digits.
impl HexNumber for u16 {
    ghost use Rattle.std.specs.Int.{w16, to_be_bytes};
    ghost use Rattle.std.proofs.Common.{lit<};

    ghost bytes = { to_be_bytes w16 };

    fn push_to(self, text: &mut String) -> Result<(), AllocError> {
        push_octets(text, &self.to_be_bytes())
    }

    ghost is_some = { λ number. lit< tt };
}

/// Puts numbers in hex at the end of a text, or `-` for none.
pub fn push_numbers<N: HexNumber>(text: &mut String, numbers: &[N]) -> Result<(), AllocError>
    ensures { OnOk result (string_bytes text.new
        ≡ string_bytes text.old ++ hex_text (flat_map N.bytes numbers.now)) }
{
    if numbers.is_empty() {
        text.push('-')
    } else {
        push_each(text, numbers)
    }
}

// Puts the digits of numbers at the end of a text, number by number.
fn push_each<N: HexNumber>(text: &mut String, numbers: &[N]) -> Result<(), AllocError>
    ensures { OnOk result (string_bytes text.new ≡ string_bytes text.old
        ++ flat_map (λ number. encode_lower (N.bytes number)) numbers.now) }
{
    for number in numbers {
        (*number).push_to(text)?;
    }
    Ok(())
}
