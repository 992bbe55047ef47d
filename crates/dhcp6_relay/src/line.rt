//! A line of hex: bytes, two lower-case digits for each, or `-` for none, and a line feed.

ghost use Rattle.std.specs.Prelude.{◌≡◌, IfOk, string_bytes};
ghost use Rattle.hex.specs.Hex.{IsBytes};
ghost use Rattle.dhcp_stream.specs.HexText.{hex_text};
ghost use Rattle.dhcp_stream.specs.Reading.{GivesReading};
ghost use Rattle.dhcp_wire.specs.Outcome.{Makes};
ghost use Rattle.dhcp6_relay.specs.Tool.{hex_line};

use dhcp_stream::hex_field;
use dhcp_wire::{Bytes, DhcpError};
use std::alloc::{AllocError, Global};

/// The bytes of a line of hex. None if and only if the text is no such line.
pub fn read_line(alloc: Global, text: &[u8]) -> Result<Option<Bytes>, DhcpError>
    ensures { GivesReading hex_line IsBytes result text.now }
{
    match text {
        [field @ .., b'\n'] => hex_field(alloc, field),
        _ => Ok(None),
    }
}

/// The line of hex of some bytes. Out of memory is the only error.
pub fn line_of(alloc: Global, bytes: &[u8]) -> Result<Bytes, DhcpError>
    ensures { Makes (λ text. text) result (hex_line bytes.now) }
{
    let mut text = hex_of(alloc, bytes)?;
    text.push('\n')?;
    Ok(Bytes::from(text.into_bytes()))
}

// Bytes in hex, or `-` for none.
fn hex_of(alloc: Global, bytes: &[u8]) -> Result<String, AllocError>
    ensures { IfOk result (λ text. string_bytes text ≡ hex_text bytes.now) }
{
    if bytes.is_empty() {
        String::from_str(alloc, "-")
    } else {
        hex::encode(alloc, bytes)
    }
}
