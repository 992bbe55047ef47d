//! Fields of texts in hex: bytes, MAC addresses and IPv6 addresses; and the digits of octets.

ghost use Rattle.std.specs.Prelude.{◌≡◌, ◌↔◌, ◌<◌, ◌≤◌, ◌*◌, ◌%◌, ◌++◌, IfOk, IsTrue, OnOk, length, slice_index, string_bytes, true};
ghost use Rattle.std.specs.List.{AllPass};
ghost use Rattle.std.specs.Net.Addr.{IsIpv6Addr};
ghost use Rattle.hex.specs.Hex.{IsBytes, encode_lower, lower_digits};
ghost use Rattle.dhcp_stream.specs.Reading.{IsReading, GivesReading};
ghost use Rattle.dhcp_stream.specs.HexText.{
  address6_text,
  hex_text,
  is_lower_digit,
  AreOctets,
  IsMac,
};

use dhcp_wire::{Bytes, DhcpError};
use hex::FromHex;
use std::alloc::{AllocError, Global};
use std::net::Ipv6Addr;

/// The bytes, one or more, of a field in lower-case hex, two digits for each byte; the field `-` is
/// no bytes. None if and only if the field is neither.
pub fn hex_field(alloc: Global, field: &[u8]) -> Result<Option<Bytes>, DhcpError>
    ensures { GivesReading hex_text IsBytes result field.now }
{
    if field == b"-".as_slice() {
        return Ok(Some(Bytes::new(alloc)));
    }
    if field.is_empty() || field.len() % 2 != 0 || !is_lower_hex(field) {
        return Ok(None);
    }
    Ok(Some(Bytes::from(octets_of(alloc, field)?)))
}

/// The MAC address of a field of twelve lower-case hex digits. None if and only if the field is not
/// of this form. Does not allocate.
pub fn mac_field(field: &[u8]) -> Option<[u8; 6]>
    ensures { IsReading encode_lower IsMac result field.now }
{
    octets(field)
}

/// The IPv6 address of a field of 32 lower-case hex digits. None if and only if the field is not of
/// this form. Does not allocate.
pub fn ipv6_field(field: &[u8]) -> Option<Ipv6Addr>
    ensures { IsReading address6_text IsIpv6Addr result field.now }
{
    match octets::<16>(field) {
        Some(octets) => Some(Ipv6Addr::from(octets)),
        None => None,
    }
}

// The octets of a field of two lower-case hex digits for each.
fn octets<const N: usize>(field: &[u8]) -> Option<[u8; N]>
    ensures { IsReading encode_lower (AreOctets N) result field.now }
{
    if is_lower_hex(field) {
        <[u8; N] as FromHex>::from_hex(field).ok()
    } else {
        None
    }
}

/// Puts the digits of octets at the end of a text, two lower-case hex digits for each; nothing for
/// none. Out of memory is the only error; no clause says what the text holds then.
pub fn push_octets(text: &mut String, octets: &[u8]) -> Result<(), AllocError>
    ensures { OnOk result (string_bytes text.new
        ≡ string_bytes text.old ++ encode_lower octets.now) }
{
    let mut rest = octets;
    while !rest.is_empty() {
        let (piece, after) = rest.split_at(rest.len().min(64));
        push_piece(text, piece)?;
        rest = after;
    }
    Ok(())
}

// Puts the digits of at most 64 octets at the end of a text.
fn push_piece(text: &mut String, octets: &[u8]) -> Result<(), AllocError>
    requires { length octets.now ≤ 64 }
    ensures { OnOk result (string_bytes text.new
        ≡ string_bytes text.old ++ encode_lower octets.now) }
{
    let mut room = [0u8; 128];
    let digits = &mut room[..2 * octets.len()];
    put_digits(octets, digits);
    text.push_str(std::str::from_utf8(digits).unwrap())
}

// Puts the digits of octets into room for them. Each comes from its value alone, with no table, so
// that many are made at once.
fn put_digits(octets: &[u8], digits: &mut [u8])
    requires { length digits.old ≡ 2 * length octets.now }
    ensures { digits.new ≡ encode_lower octets.now }
{
    'octets: for i in 0..octets.len() {
        digits[2 * i] = digit(octets[i] / 16);
        digits[2 * i + 1] = digit(octets[i] % 16);
    }
}

// The lower-case hex digit of a value.
fn digit(value: u8) -> u8
    requires { value < 16 }
    ensures { result ≡ slice_index lower_digits value }
{
    if value < 10 {
        value + b'0'
    } else {
        value - 10 + b'a'
    }
}

// Whether each byte is a lower-case hex digit. It looks at all of them, so that many are compared
// at once.
fn is_lower_hex(field: &[u8]) -> bool
    ensures { IsTrue result ↔ AllPass is_lower_digit field.now }
{
    let mut is_lower = true;
    for byte in field {
        is_lower &= matches!(*byte, b'0'..=b'9' | b'a'..=b'f');
    }
    is_lower
}

// The octets that lower-case hex digits spell, two digits for each.
fn octets_of(alloc: Global, digits: &[u8]) -> Result<Vec<u8>, AllocError>
    requires lower { AllPass is_lower_digit digits.now }
    requires even { length digits.now % 2 ≡ 0 }
    ensures spelled { IfOk result (λ octets. encode_lower octets.items ≡ digits.now) }
    ensures bytes { IfOk result (λ octets. IsBytes octets.items) }
{
    let mut octets = vec![in alloc; 0u8; digits.len() / 2]?;
    'octets: for i in 0..octets.len() {
        octets[i] = value(digits[2 * i]) * 16 + value(digits[2 * i + 1]);
    }
    Ok(octets)
}

// The value of a lower-case hex digit.
fn value(digit: u8) -> u8
    requires { is_lower_digit digit ≡ true }
    ensures small { result < 16 }
    ensures spelled { slice_index lower_digits result ≡ digit }
{
    if digit <= b'9' {
        digit - b'0'
    } else {
        digit - b'a' + 10
    }
}
