//! Readings of an option's value: one for each kind of value that several options have. A value of
//! fixed size may be longer; what is beyond is ignored.

ghost use Rattle.std.specs.Prelude.{ok_or};
ghost use Rattle.std.specs.Int.{w8, w16, w32};
ghost use Rattle.dhcp_wire.specs.Field.{text_of};
ghost use Rattle.dhcp_wire.specs.Outcome.{Answers, Gives, Makes};
ghost use Rattle.dhcp_wire.specs.Value as values;

use crate::{Buffer, DhcpError, ErrorKind, Sequence, Text};
use std::alloc::Global;
use std::net::{Ipv4Addr, Ipv6Addr};

/// The number of the first byte. `InvalidDhcpMessage` if and only if there is none.
pub fn u8_in(value: &[u8]) -> Result<u8, DhcpError>
    ensures { Answers (λ number. number) result
        (ok_or (values.number_in w8 value.now) ErrorKind.InvalidDhcpMessage) }
{
    Buffer::new(value).get_u8()
}

/// The number of the first two bytes, the more significant first. `InvalidDhcpMessage` if and only
/// if there are fewer.
pub fn u16_in(value: &[u8]) -> Result<u16, DhcpError>
    ensures { Answers (λ number. number) result
        (ok_or (values.number_in w16 value.now) ErrorKind.InvalidDhcpMessage) }
{
    Buffer::new(value).get_u16_be()
}

/// The number of the first four bytes, the most significant first. `InvalidDhcpMessage` if and only
/// if there are fewer.
pub fn u32_in(value: &[u8]) -> Result<u32, DhcpError>
    ensures { Answers (λ number. number) result
        (ok_or (values.number_in w32 value.now) ErrorKind.InvalidDhcpMessage) }
{
    Buffer::new(value).get_u32_be()
}

/// The address of the first four bytes. `InvalidDhcpMessage` if and only if there are fewer.
pub fn address_in(value: &[u8]) -> Result<Ipv4Addr, DhcpError>
    ensures { Answers (λ address. address) result
        (ok_or (values.address_in value.now) ErrorKind.InvalidDhcpMessage) }
{
    Buffer::new(value).get_ipv4()
}

/// An address for each whole group of four bytes; up to three bytes after the last are ignored. Out
/// of memory is the only error.
pub fn addresses_in(alloc: Global, value: &[u8]) -> Result<Sequence<Ipv4Addr>, DhcpError>
    ensures { Makes (λ addresses. addresses) result (values.addresses_in value.now) }
{
    let mut addresses = Sequence::new(alloc);
    let mut rest = value;
    while let [a, b, c, d, later @ ..] = rest {
        addresses.push(Ipv4Addr::new(*a, *b, *c, *d))?;
        rest = later;
    }
    Ok(addresses)
}

/// The text before the first zero byte, or of all the bytes. `InvalidDhcpMessage` if and only if it
/// is not UTF-8.
#[tactic(auto, using(crate::proofs::FieldLemmas::whole_field))]
pub fn text_in(alloc: Global, value: &[u8]) -> Result<Text, DhcpError>
    ensures { Gives (λ text. text) result
        (ok_or (values.text_in value.now) ErrorKind.InvalidDhcpMessage) }
{
    let text = Buffer::new(value).get_string_with_null(alloc, value.len())?;
    Ok(Text::from(text))
}

/// The address of the first sixteen bytes. `InvalidDhcpMessage` if and only if there are fewer.
pub fn ipv6_address_in(value: &[u8]) -> Result<Ipv6Addr, DhcpError>
    ensures { Answers (λ address. address) result
        (ok_or (values.ipv6_address_in value.now) ErrorKind.InvalidDhcpMessage) }
{
    Buffer::new(value).get_ipv6()
}

/// An address for each whole group of sixteen bytes; up to fifteen bytes after the last are
/// ignored. Out of memory is the only error.
#[tactic(auto, using(crate::proofs::AddressLemmas::groups))]
pub fn ipv6_addresses_in(alloc: Global, value: &[u8]) -> Result<Sequence<Ipv6Addr>, DhcpError>
    ensures { Makes (λ addresses. addresses) result (values.ipv6_addresses_in value.now) }
{
    let mut addresses = Sequence::new(alloc);
    let mut rest = value;
    while let Some((octets, later)) = rest.split_first_chunk::<16>() {
        addresses.push(Ipv6Addr::from(*octets))?;
        rest = later;
    }
    Ok(addresses)
}

/// The text of all the bytes, zero bytes too. `InvalidDhcpMessage` if and only if it is not UTF-8.
#[tactic(auto, using(crate::proofs::FieldLemmas::whole_text))]
pub fn whole_text_in(alloc: Global, value: &[u8]) -> Result<Text, DhcpError>
    ensures { Gives (λ text. text) result
        (ok_or (text_of value.now) ErrorKind.InvalidDhcpMessage) }
{
    let text = Buffer::new(value).get_string_without_null(alloc, value.len())?;
    Ok(Text::from(text))
}
