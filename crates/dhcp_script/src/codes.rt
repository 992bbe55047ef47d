//! The line of the option codes that a client asks for, in a script of either family.

ghost use Rattle.std.specs.Prelude.{◌≡◌, ◌++◌, OnOk, codes, string_bytes};
ghost use Rattle.dhcp_stream.specs.Line.{line};
ghost use Rattle.dhcp_stream.specs.TextReader.{Takes};
ghost use Rattle.dhcp_script.specs.Codes.{codes_at, listed_text};
ghost use Rattle.dhcp_script.specs.Codes as lists;

use crate::field::{hex, hex_codes};
use crate::hex_text::{push_hex, push_numbers};
use dhcp_stream::{ReadError, TextReader};
use dhcp_wire::{Bytes, Sequence};
use std::alloc::{AllocError, Global};

/// Option codes that a script lists, all of one size.
pub trait ListedCodes: Drop {
    ghost use Rattle.std.specs.Prelude.{◌≡◌, ◌++◌, ℕ, List, Option, OnOk, string_bytes};
    ghost use Rattle.dhcp_stream.specs.TextReader.{Finds};

    /// The codes of a field, if it is the text of a list.
    ghost codes_in: { List ℕ → Option Self };

    /// The text of a list of codes.
    ghost codes_text: { Self → List ℕ };

    /// The codes of a field. `Malformed` only if it is the text of no list; out of memory is the
    /// only other error.
    fn from_field(alloc: Global, field: &[u8]) -> Result<Self, ReadError>
        ensures { Finds result (codes_in field.now) };

    /// Puts the text of the codes at the end of a text. After an error, which is out of memory, a
    /// part of it may be there.
    fn push_to(&self, text: &mut String) -> Result<(), AllocError>
        ensures { OnOk result
            (string_bytes text.new ≡ string_bytes text.old ++ codes_text self.now) };
}

// Codes of one byte, as those of IPv4 are (RFC 2132, section 2): two hex digits for each.
impl ListedCodes for Bytes {
    ghost use Rattle.dhcp_stream.specs.HexText.{hex_text};
    ghost use Rattle.dhcp_stream.specs.TextReader.{hex_in};

    ghost codes_in = { hex_in };

    ghost codes_text = { hex_text };

    fn from_field(alloc: Global, field: &[u8]) -> Result<Self, ReadError> {
        hex(alloc, field)
    }

    fn push_to(&self, text: &mut String) -> Result<(), AllocError> {
        push_hex(text, self.as_slice())
    }
}

// Codes of two bytes, as those of IPv6 are (RFC 8415, section 21.1): four hex digits for each.
impl ListedCodes for Sequence<u16> {
    ghost use Rattle.std.specs.Int.{w16};
    ghost use Rattle.dhcp_stream.specs.HexText.{numbers_text};
    ghost use Rattle.dhcp_stream.specs.TextReader.{numbers_in};

    ghost codes_in = { numbers_in w16 };

    ghost codes_text = { numbers_text w16 };

    fn from_field(alloc: Global, field: &[u8]) -> Result<Self, ReadError> {
        hex_codes(alloc, field)
    }

    fn push_to(&self, text: &mut String) -> Result<(), AllocError> {
        push_numbers(text, self.as_slice())
    }
}

/// Reads the line `codes`: the codes that are listed, or none for the word `default`. `Malformed`
/// only if the text does not go on with such a line; out of memory is the only other error.
pub fn read_codes<C: ListedCodes>(
    alloc: Global,
    text: &mut TextReader,
) -> Result<Option<C>, ReadError>
    ensures { Takes result text.new (codes_at C.codes_in text.old) }
{
    text.tag(b"codes ")?;
    let field = text.field(b'\n')?;
    if field == b"default".as_slice() {
        return Ok(None);
    }
    Ok(Some(C::from_field(alloc, field)?))
}

/// Puts the line `codes` at the end of a text: the codes that are listed, or the word `default`.
/// After an error, which is out of memory, a part of it may be there.
pub fn push_codes<C: ListedCodes>(text: &mut String, listed: &Option<C>) -> Result<(), AllocError>
    ensures { OnOk result (string_bytes text.new ≡ string_bytes text.old
        ++ line (codes "codes " ++ listed_text C.codes_text listed.now)) }
{
    match listed {
        None => text.push_str("codes default\n"),
        Some(listed) => {
            text.push_str("codes ")?;
            listed.push_to(text)?;
            text.push('\n')
        }
    }
}

/// Whether at most `most` codes are listed; true if there is no list.
pub fn are_few<T>(listed: &Option<Sequence<T>>, most: usize) -> bool
    ensures { result ≡ lists.are_few most listed.now }
{
    match listed {
        None => true,
        Some(listed) => listed.len() <= most,
    }
}
