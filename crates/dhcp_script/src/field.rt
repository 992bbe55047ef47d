//! Fields of a line: how their values are read and printed.

ghost use Rattle.std.specs.Prelude.{◌≡◌, ◌≤◌, [], ◌∷◌, ◌++◌, codes, IfOk, OnOk, string_bytes};
ghost use Rattle.std.specs.Int.{w16};
ghost use Rattle.std.specs.List.{flat_map};
ghost use Rattle.dhcp_stream.specs.TextReader.{
  hex_in,
  in_field,
  number_in,
  numbers_in,
  Finds,
  Takes,
};
ghost use Rattle.dhcp_script.specs.FieldReader.{flag_in, items_in, three_at};
ghost use Rattle.dhcp_script.specs.Lease6Reader.{ia_type_in};

use crate::decimal::{push_address, push_decimal};
use crate::hex_text::push_hex;
use dhcp_stream::{
    ReadError, TextReader, codes_field, cut_field, found, hex_field, ipv4_field, ipv6_field,
    number_field, push_octets,
};
use dhcp_wire::{Bytes, Sequence, Text};
use dhcp4_msg::DhcpV4ClasslessRoute;
use dhcp6_msg::DhcpV6IaType;
use dhcp6_opt::DhcpV6OptionNtpServer;
use std::alloc::{AllocError, Global};
use std::net::{Ipv4Addr, Ipv6Addr};

/// A value that has a text as a field of a line.
pub trait FieldText: Drop {
    ghost use Rattle.std.specs.Prelude.{ℕ, List};

    /// The text of a value.
    ghost field_text: { Self → List ℕ };

    /// Puts the text of the value at the end of a text. After an error, which is out of memory, a
    /// part of it may be there.
    fn push_to(&self, text: &mut String) -> Result<(), AllocError>
        ensures { OnOk result
            (string_bytes text.new ≡ string_bytes text.old ++ field_text self.now) };
}

/// A value that is read from a field of a line.
pub trait Field: FieldText {
    ghost use Rattle.std.specs.Prelude.{ℕ, List, Option};

    /// The value of a field, if it has one.
    ghost value_in: { List ℕ → Option Self };

    /// The value of a field. `Malformed` only if the field is the text of no value; out of memory
    /// is the only other error.
    fn from_field(alloc: Global, field: &[u8]) -> Result<Self, ReadError>
        ensures { Finds result (value_in field.now) };
}

// An IPv4 address: four decimal numbers with dots between them.
impl FieldText for Ipv4Addr {
    ghost use Rattle.dhcp_stream.specs.Number.{address_text};

    ghost field_text = { address_text };

    fn push_to(&self, text: &mut String) -> Result<(), AllocError> {
        push_address(text, *self)
    }
}

impl Field for Ipv4Addr {
    ghost use Rattle.dhcp_stream.specs.TextReader.{address_in};

    ghost value_in = { address_in };

    fn from_field(_alloc: Global, field: &[u8]) -> Result<Self, ReadError> {
        ipv4_field(field).ok_or(ReadError::Malformed)
    }
}

// An IPv6 address: the 32 hex digits of its sixteen bytes, without colons.
impl FieldText for Ipv6Addr {
    ghost use Rattle.dhcp_stream.specs.HexText.{address6_text};

    ghost field_text = { address6_text };

    fn push_to(&self, text: &mut String) -> Result<(), AllocError> {
        push_octets(text, &self.octets())
    }
}

impl Field for Ipv6Addr {
    ghost use Rattle.dhcp_stream.specs.TextReader.{address6_in};

    ghost value_in = { address6_in };

    fn from_field(_alloc: Global, field: &[u8]) -> Result<Self, ReadError> {
        ipv6_field(field).ok_or(ReadError::Malformed)
    }
}

// A decimal number of 32 bits, without a leading zero.
impl FieldText for u32 {
    ghost use Rattle.std.specs.Fmt.{decimal};

    ghost field_text = { decimal };

    fn push_to(&self, text: &mut String) -> Result<(), AllocError> {
        push_decimal(text, *self)
    }
}

impl Field for u32 {
    ghost use Rattle.dhcp_stream.specs.TextReader.{number_in};

    ghost value_in = { number_in 4294967295 };

    fn from_field(_alloc: Global, field: &[u8]) -> Result<Self, ReadError> {
        Ok(number(field, u64::from(u32::MAX))? as u32)
    }
}

// A decimal number of 16 bits, without a leading zero.
impl FieldText for u16 {
    ghost use Rattle.std.specs.Fmt.{decimal};

    ghost field_text = { decimal };

    fn push_to(&self, text: &mut String) -> Result<(), AllocError> {
        push_decimal(text, u32::from(*self))
    }
}

impl Field for u16 {
    ghost use Rattle.dhcp_stream.specs.TextReader.{number_in};

    ghost value_in = { number_in 65535 };

    fn from_field(_alloc: Global, field: &[u8]) -> Result<Self, ReadError> {
        Ok(number(field, u64::from(u16::MAX))? as u16)
    }
}

// A decimal number of 8 bits, without a leading zero.
impl FieldText for u8 {
    ghost use Rattle.std.specs.Fmt.{decimal};

    ghost field_text = { decimal };

    fn push_to(&self, text: &mut String) -> Result<(), AllocError> {
        push_decimal(text, u32::from(*self))
    }
}

impl Field for u8 {
    ghost use Rattle.dhcp_stream.specs.TextReader.{number_in};

    ghost value_in = { number_in 255 };

    fn from_field(_alloc: Global, field: &[u8]) -> Result<Self, ReadError> {
        Ok(number(field, u64::from(u8::MAX))? as u8)
    }
}

// A text: its UTF-8 bytes in hex; `-` is the empty text.
impl FieldText for Text {
    ghost use Rattle.dhcp_stream.specs.HexText.{hex_text};

    ghost field_text = { hex_text };

    fn push_to(&self, text: &mut String) -> Result<(), AllocError> {
        push_hex(text, self.as_str().as_bytes())
    }
}

impl Field for Text {
    ghost use Rattle.dhcp_stream.specs.TextReader.{hex_utf8_in};

    ghost value_in = { hex_utf8_in };

    fn from_field(alloc: Global, field: &[u8]) -> Result<Self, ReadError> {
        let bytes = hex(alloc, field)?;
        match String::from_utf8(bytes.into_vec()) {
            Ok(text) => Ok(Text::from(text)),
            Err(_) => Err(ReadError::Malformed),
        }
    }
}

// A classless static route (RFC 3442): its destination, its prefix length in bits and its router,
// with slashes between them.
impl FieldText for DhcpV4ClasslessRoute {
    ghost use Rattle.dhcp_script.specs.Lease4.{route_text};

    ghost field_text = { route_text };

    fn push_to(&self, text: &mut String) -> Result<(), AllocError> {
        let DhcpV4ClasslessRoute {
            destination,
            prefix_length,
            router,
        } = *self;
        push_address(text, destination)?;
        text.push('/')?;
        push_decimal(text, u32::from(prefix_length))?;
        text.push('/')?;
        push_address(text, router)
    }
}

impl Field for DhcpV4ClasslessRoute {
    ghost use Rattle.dhcp_script.specs.FieldReader.{route_in};

    ghost value_in = { route_in };

    #[tactic(auto, unfolding(crate::specs::FieldReader::route_in))]
    fn from_field(alloc: Global, field: &[u8]) -> Result<Self, ReadError> {
        let Some((destination, rest)) = cut_field(field, b'/') else {
            return Err(ReadError::Malformed);
        };
        let destination = Ipv4Addr::from_field(alloc, destination)?;
        let Some((prefix_length, router)) = cut_field(rest, b'/') else {
            return Err(ReadError::Malformed);
        };
        let prefix_length = u8::from_field(alloc, prefix_length)?;
        let router = Ipv4Addr::from_field(alloc, router)?;
        Ok(DhcpV4ClasslessRoute {
            destination,
            prefix_length,
            router,
        })
    }
}

// The type of an identity association (RFC 8415, section 4.2): `na`, `ta` or `pd`.
impl FieldText for DhcpV6IaType {
    ghost use Rattle.dhcp_script.specs.Lease6.{ia_type_text};

    ghost field_text = { ia_type_text };

    fn push_to(&self, text: &mut String) -> Result<(), AllocError> {
        match self {
            DhcpV6IaType::NonTemporaryAddresses => text.push_str("na"),
            DhcpV6IaType::TemporaryAddresses => text.push_str("ta"),
            DhcpV6IaType::PrefixDelegation => text.push_str("pd"),
        }
    }
}

impl Field for DhcpV6IaType {
    ghost use Rattle.dhcp_script.specs.Lease6Reader.{ia_type_in};

    ghost value_in = { ia_type_in };

    fn from_field(_alloc: Global, field: &[u8]) -> Result<Self, ReadError> {
        ia_type(field).ok_or(ReadError::Malformed)
    }
}

// A time server (RFC 5908), which a line of what is reported may have: `a` and its address, `m` and
// the address of its group, `n` and its name, or `o` with the type of any other suboption and its
// bytes.
impl FieldText for DhcpV6OptionNtpServer {
    ghost use Rattle.dhcp_script.specs.TimeServer.{time_server_text};

    ghost field_text = { time_server_text };

    fn push_to(&self, text: &mut String) -> Result<(), AllocError> {
        match self {
            DhcpV6OptionNtpServer::ServerAddr(address) => {
                text.push_str("a/")?;
                address.push_to(text)
            }
            DhcpV6OptionNtpServer::MulticastAddr(address) => {
                text.push_str("m/")?;
                address.push_to(text)
            }
            DhcpV6OptionNtpServer::ServerFqdn(name) => {
                text.push_str("n/")?;
                name.push_to(text)
            }
            DhcpV6OptionNtpServer::Other((kind, bytes)) => {
                let kind = *kind;
                write!(text, "o{kind}/")?;
                push_hex(text, bytes.as_slice())
            }
        }
    }
}

// A value, or the word `none`.
impl<T: FieldText> FieldText for Option<T> {
    ghost use Rattle.dhcp_script.specs.Field.{unless_none};

    ghost field_text = { unless_none T.field_text };

    fn push_to(&self, text: &mut String) -> Result<(), AllocError> {
        match self {
            None => text.push_str("none"),
            Some(value) => value.push_to(text),
        }
    }
}

impl<T: Field> Field for Option<T> {
    ghost use Rattle.std.specs.Prelude.{codes};
    ghost use Rattle.dhcp_script.specs.FieldReader.{word_or};

    ghost value_in = { word_or (codes "none") T.value_in };

    fn from_field(alloc: Global, field: &[u8]) -> Result<Self, ReadError> {
        if field == b"none".as_slice() {
            return Ok(None);
        }
        Ok(Some(T::from_field(alloc, field)?))
    }
}

// A list: its items with commas between them; `-` is the empty list.
impl<T: FieldText> FieldText for Sequence<T> {
    ghost use Rattle.dhcp_script.specs.Field.{list_text};

    ghost field_text = { list_text T.field_text };

    fn push_to(&self, text: &mut String) -> Result<(), AllocError> {
        match self.as_slice().split_first() {
            None => text.push('-'),
            Some((first, rest)) => {
                first.push_to(text)?;
                push_after_commas(text, rest)
            }
        }
    }
}

impl<T: Field> Field for Sequence<T> {
    ghost use Rattle.dhcp_script.specs.FieldReader.{list_in};

    ghost value_in = { list_in T.value_in };

    fn from_field(alloc: Global, field: &[u8]) -> Result<Self, ReadError> {
        if field == b"-".as_slice() {
            return Ok(Sequence::new(alloc));
        }
        items(alloc, field)
    }
}

// The type of an identity association that a field names: `na`, `ta` or `pd`; none for any other.
fn ia_type(field: &[u8]) -> Option<DhcpV6IaType>
    ensures { result ≡ ia_type_in field.now }
{
    if field == b"na".as_slice() {
        Some(DhcpV6IaType::NonTemporaryAddresses)
    } else if field == b"ta".as_slice() {
        Some(DhcpV6IaType::TemporaryAddresses)
    } else if field == b"pd".as_slice() {
        Some(DhcpV6IaType::PrefixDelegation)
    } else {
        None
    }
}

// The decimal number of a field, without a leading zero and at most `max`; else `Malformed`.
fn number(field: &[u8], max: u64) -> Result<u64, ReadError>
    ensures value { Finds result (number_in max field.now) }
    ensures small { IfOk result (λ number. number ≤ max) }
{
    number_field(field, max).ok_or(ReadError::Malformed)
}

/// The bytes of a field in lower-case hex; `-` is no bytes. `Malformed` only if the field is
/// neither; out of memory is the only other error.
pub fn hex(alloc: Global, field: &[u8]) -> Result<Bytes, ReadError>
    ensures { Finds result (hex_in field.now) }
{
    found(hex_field(alloc, field))
}

/// The option codes of a field in lower-case hex, four digits for each; `-` is no codes.
/// `Malformed` only if the field is neither; out of memory is the only other error.
pub fn hex_codes(alloc: Global, field: &[u8]) -> Result<Sequence<u16>, ReadError>
    ensures { Finds result (numbers_in w16 field.now) }
{
    found(codes_field(alloc, field))
}

// The items of a list that is not empty, with commas between them.
fn items<T: Field>(alloc: Global, field: &[u8]) -> Result<Sequence<T>, ReadError>
    ensures { Finds result (items_in T.value_in field.now) }
{
    let mut items = Vec::new(alloc);
    let mut left = field;
    while let Some((item, rest)) = cut_field(left, b',') {
        items.push(T::from_field(alloc, item)?)?;
        left = rest;
    }
    items.push(T::from_field(alloc, left)?)?;
    Ok(Sequence::from(items))
}

// Puts items at the end of a text, each after a comma.
fn push_after_commas<T: FieldText>(text: &mut String, items: &[T]) -> Result<(), AllocError>
    ensures { OnOk result
        (string_bytes text.new ≡ string_bytes text.old
        ++ flat_map (λ item. 44 ∷ T.field_text item) items.now) }
{
    for item in items {
        text.push(',')?;
        item.push_to(text)?;
    }
    Ok(())
}

/// Puts three fields at the end of a text, with single spaces between them.
pub fn push_three<A: FieldText, B: FieldText, C: FieldText>(
    text: &mut String,
    first: &A,
    second: &B,
    third: &C,
) -> Result<(), AllocError>
    ensures { OnOk result (string_bytes text.new ≡ string_bytes text.old
        ++ (A.field_text first.now ++ 32 ∷ (B.field_text second.now
        ++ 32 ∷ C.field_text third.now))) }
{
    first.push_to(text)?;
    text.push(' ')?;
    second.push_to(text)?;
    text.push(' ')?;
    third.push_to(text)
}

/// Puts three fields at the end of a text, each with a space after it.
pub fn push_three_more<A: FieldText, B: FieldText, C: FieldText>(
    text: &mut String,
    first: &A,
    second: &B,
    third: &C,
) -> Result<(), AllocError>
    ensures { OnOk result (string_bytes text.new ≡ string_bytes text.old
        ++ (A.field_text first.now ++ 32 ∷ (B.field_text second.now
        ++ 32 ∷ (C.field_text third.now ++ 32 ∷ [])))) }
{
    push_three(text, first, second, third)?;
    text.push(' ')
}

/// Reads the field before the next byte `end`, and skips that byte. `Malformed` only if there is no
/// such byte, or the field is the text of no value; out of memory is the only other error.
pub fn read_field<T: Field>(alloc: Global, text: &mut TextReader, end: u8) -> Result<T, ReadError>
    ensures { Takes result text.new (in_field T.value_in end text.old) }
{
    let field = text.field(end)?;
    T::from_field(alloc, field)
}

/// Reads three fields: the last before the next byte `end`, and each before it before the next
/// space. `Malformed` only if they are not there, or one is the text of no value; out of memory is
/// the only other error.
#[tactic(auto, unfolding(crate::specs::FieldReader::three_at))]
pub fn read_three<A: Field, B: Field, C: Field>(
    alloc: Global,
    text: &mut TextReader,
    end: u8,
) -> Result<(A, B, C), ReadError>
    ensures { Takes result text.new
        (three_at A.value_in B.value_in C.value_in end text.old) }
{
    let first = read_field(alloc, text, b' ')?;
    let second = read_field(alloc, text, b' ')?;
    let third = read_field(alloc, text, end)?;
    Ok((first, second, third))
}

/// Whether a flag is set: true for the word `set`, false for the word `unset`, `Malformed` for any
/// other field. Does not allocate.
pub fn flag(field: &[u8], set: &[u8], unset: &[u8]) -> Result<bool, ReadError>
    ensures { Finds result (flag_in set.now unset.now field.now) }
{
    if field == set {
        Ok(true)
    } else if field == unset {
        Ok(false)
    } else {
        Err(ReadError::Malformed)
    }
}
