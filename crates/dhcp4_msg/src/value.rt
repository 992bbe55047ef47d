//! The values of options, RFC 2132: how each kind of value reads, how long it is, how it is
//! written, and what an option says; a row for each code in the table of readings.

ghost use Rattle.std.specs.Prelude.{◌≡◌, length, map, ok_or, option_copied, take};
ghost use Rattle.std.specs.List.{flat_map};
ghost use Rattle.dhcp_wire.specs.Outcome.{Answers, Emits, Gives, Makes};
ghost use Rattle.dhcp4_msg.specs.OptionCode.{number_of};
ghost use Rattle.dhcp4_msg.specs.Route.{routes_of, written_route};
ghost use Rattle.dhcp4_msg.specs.Value.{
  address_said,
  addresses_said,
  bytes_said,
  codes_said,
  routes_said,
  seconds_said,
  size_said,
  text_said,
  type_in,
  type_said,
  value_of,
  written_addresses,
  written_text,
};

use crate::{
    DhcpV4ClasslessRoute, DhcpV4MessageType, DhcpV4Option, DhcpV4OptionCode, DhcpV4OptionUnknown,
};
use dhcp_wire::{
    BufferMut, Bytes, DhcpError, ErrorKind, FixedText, Sequence, Text, address_in, addresses_in,
    codes_of, none_if_refused, text_in, u8_in, u16_in, u32_in,
};
use std::alloc::Global;
use std::net::Ipv4Addr;

// What the value of an option of this code reads as.
#[tactic(auto, unfolding(crate::specs::Value::value_of))]
pub(crate) fn read_value(
    alloc: Global,
    code: DhcpV4OptionCode,
    value: &[u8],
) -> Result<DhcpV4Option, DhcpError>
    ensures { Gives (λ option. option) result
        (ok_or (value_of code value.now) ErrorKind.InvalidDhcpMessage) }
{
    match code {
        DhcpV4OptionCode::Pad => Ok(DhcpV4Option::Pad),
        DhcpV4OptionCode::SubnetMask => address_in(value).map(DhcpV4Option::SubnetMask),
        DhcpV4OptionCode::Router => addresses_in(alloc, value).map(DhcpV4Option::Router),
        DhcpV4OptionCode::DomainNameServer => {
            addresses_in(alloc, value).map(DhcpV4Option::DomainNameServer)
        }
        DhcpV4OptionCode::HostName => text_in(alloc, value).map(DhcpV4Option::HostName),
        DhcpV4OptionCode::DomainName => text_in(alloc, value).map(DhcpV4Option::DomainName),
        DhcpV4OptionCode::InterfaceMtu => u16_in(value).map(DhcpV4Option::InterfaceMtu),
        DhcpV4OptionCode::BroadcastAddress => {
            address_in(value).map(DhcpV4Option::BroadcastAddress)
        }
        DhcpV4OptionCode::NtpServers => addresses_in(alloc, value).map(DhcpV4Option::NtpServers),
        DhcpV4OptionCode::RequestedIpAddress => {
            address_in(value).map(DhcpV4Option::RequestedIpAddress)
        }
        DhcpV4OptionCode::IpAddressLeaseTime => {
            u32_in(value).map(DhcpV4Option::IpAddressLeaseTime)
        }
        DhcpV4OptionCode::MessageType => type_in(value).map(DhcpV4Option::MessageType),
        DhcpV4OptionCode::ServerIdentifier => {
            address_in(value).map(DhcpV4Option::ServerIdentifier)
        }
        DhcpV4OptionCode::ParameterRequestList => {
            codes_of(alloc, value).map(DhcpV4Option::ParameterRequestList)
        }
        DhcpV4OptionCode::Message => text_in(alloc, value).map(DhcpV4Option::Message),
        DhcpV4OptionCode::RenewalTime => u32_in(value).map(DhcpV4Option::RenewalTime),
        DhcpV4OptionCode::RebindingTime => u32_in(value).map(DhcpV4Option::RebindingTime),
        DhcpV4OptionCode::ClientIdentifier => {
            Bytes::from_slice(alloc, value).map(DhcpV4Option::ClientIdentifier)
        }
        DhcpV4OptionCode::ClasslessStaticRoute => {
            DhcpV4ClasslessRoute::parse_list(alloc, value).map(DhcpV4Option::ClasslessStaticRoute)
        }
        DhcpV4OptionCode::End => Ok(DhcpV4Option::End),
        DhcpV4OptionCode::Other(code) => {
            let raw = Bytes::from_slice(alloc, value)?;
            Ok(DhcpV4Option::Unknown(DhcpV4OptionUnknown { code, raw }))
        }
    }
}

// The message type of the first byte.
#[tactic(auto, unfolding(crate::specs::Value::type_in))]
pub(crate) fn type_in(value: &[u8]) -> Result<DhcpV4MessageType, DhcpError>
    ensures { Answers (λ kind. kind) result
        (ok_or (type_in value.now) ErrorKind.InvalidDhcpMessage) }
{
    let number = u8_in(value)?;
    match DhcpV4MessageType::try_from(number) {
        Ok(kind) => Ok(kind),
        Err(_) => Err(DhcpError::invalid_message(FixedText::WrongType)),
    }
}

// The most bytes of a text that an option holds, beside its zero byte.
pub(crate) const TEXT_MAX: usize = 254;

// Writes at most 254 bytes of a text, from the first on, and a zero byte.
pub(crate) fn emit_text(text: &str, buf: &mut BufferMut) -> Result<(), DhcpError>
    ensures { Emits result buf.old buf.new (written_text text.now) }
{
    buf.write_bytes(kept_of(text))?;
    buf.write_u8(0)
}

// The first 254 bytes of a text at most.
#[tactic(auto, using(std::proofs::lemmas::List::take_min))]
fn kept_of(text: &str) -> &[u8]
    ensures { result.now ≡ take 254 text.now }
{
    let bytes = text.as_bytes();
    &bytes[..TEXT_MAX.min(bytes.len())]
}

// How many octets the addresses have.
pub(crate) fn addresses_len(addresses: &[Ipv4Addr]) -> usize
    ensures { result ≡ length (written_addresses addresses.now) }
{
    let mut len = 0;
    for address in addresses {
        len += address.octets().len();
    }
    len
}

// Writes addresses one after the other.
pub(crate) fn emit_addresses(addresses: &[Ipv4Addr], buf: &mut BufferMut) -> Result<(), DhcpError>
    ensures { Emits result buf.old buf.new (written_addresses addresses.now) }
{
    for address in addresses {
        buf.write_ipv4(*address)?;
    }
    Ok(())
}

// Writes the numbers of codes.
pub(crate) fn emit_codes(codes: &[DhcpV4OptionCode], buf: &mut BufferMut) -> Result<(), DhcpError>
    ensures { Emits result buf.old buf.new (map number_of codes.now) }
{
    for code in codes {
        buf.write_u8(u8::from(*code))?;
    }
    Ok(())
}

// How many bytes the routes have.
pub(crate) fn routes_len(routes: &[DhcpV4ClasslessRoute]) -> usize
    ensures { result ≡ length (flat_map written_route routes.now) }
{
    let mut len = 0;
    for route in routes {
        len += route.written_len();
    }
    len
}

// Writes routes one after the other.
pub(crate) fn emit_routes(
    routes: &[DhcpV4ClasslessRoute],
    buf: &mut BufferMut,
) -> Result<(), DhcpError>
    ensures { Emits result buf.old buf.new (flat_map written_route routes.now) }
{
    for route in routes {
        route.emit(buf)?;
    }
    Ok(())
}

impl DhcpV4Option {
    /// The address of an option that has one: 1, 28, 50 and 54.
    pub fn address(&self) -> Option<Ipv4Addr>
        ensures { result ≡ address_said self.now }
    {
        match self {
            DhcpV4Option::SubnetMask(address)
            | DhcpV4Option::BroadcastAddress(address)
            | DhcpV4Option::RequestedIpAddress(address)
            | DhcpV4Option::ServerIdentifier(address) => Some(*address),
            _ => None,
        }
    }

    /// The addresses of an option that has a list of them: 3, 6 and 42.
    pub fn addresses(&self) -> Option<&Sequence<Ipv4Addr>>
        ensures { option_copied result ≡ addresses_said self.now }
    {
        match self {
            DhcpV4Option::Router(addresses)
            | DhcpV4Option::DomainNameServer(addresses)
            | DhcpV4Option::NtpServers(addresses) => Some(addresses),
            _ => None,
        }
    }

    /// The text of an option that has one: 12, 15 and 56.
    pub fn text(&self) -> Option<&Text>
        ensures { option_copied result ≡ text_said self.now }
    {
        match self {
            DhcpV4Option::HostName(text)
            | DhcpV4Option::DomainName(text)
            | DhcpV4Option::Message(text) => Some(text),
            _ => None,
        }
    }

    /// The size of an option that has one, in bytes: 26.
    pub fn size(&self) -> Option<u16>
        ensures { result ≡ size_said self.now }
    {
        match self {
            DhcpV4Option::InterfaceMtu(size) => Some(*size),
            _ => None,
        }
    }

    /// The time of an option that has one, in seconds: 51, 58 and 59.
    pub fn seconds(&self) -> Option<u32>
        ensures { result ≡ seconds_said self.now }
    {
        match self {
            DhcpV4Option::IpAddressLeaseTime(seconds)
            | DhcpV4Option::RenewalTime(seconds)
            | DhcpV4Option::RebindingTime(seconds) => Some(*seconds),
            _ => None,
        }
    }

    /// The message type of option 53.
    pub fn message_type(&self) -> Option<DhcpV4MessageType>
        ensures { result ≡ type_said self.now }
    {
        match self {
            DhcpV4Option::MessageType(kind) => Some(*kind),
            _ => None,
        }
    }

    /// The codes that option 55 requests.
    pub fn requested_codes(&self) -> Option<&Sequence<DhcpV4OptionCode>>
        ensures { option_copied result ≡ codes_said self.now }
    {
        match self {
            DhcpV4Option::ParameterRequestList(codes) => Some(codes),
            _ => None,
        }
    }

    /// The bytes of option 61, or the value of an unknown option.
    pub fn bytes(&self) -> Option<&Bytes>
        ensures { option_copied result ≡ bytes_said self.now }
    {
        match self {
            DhcpV4Option::ClientIdentifier(bytes) => Some(bytes),
            DhcpV4Option::Unknown(unknown) => Some(&unknown.raw),
            _ => None,
        }
    }

    /// A copy of the routes of option 121, or the routes that fill the value of an unknown option
    /// exactly, if they do.
    pub fn routes(&self, alloc: Global) -> Result<Option<Sequence<DhcpV4ClasslessRoute>>, DhcpError>
        ensures { Makes (λ routes. routes) result (routes_said self.now) }
    {
        match self {
            DhcpV4Option::ClasslessStaticRoute(routes) => Ok(Some(routes.try_clone(alloc)?)),
            DhcpV4Option::Unknown(unknown) => routes_of(alloc, unknown.raw.as_slice()),
            _ => Ok(None),
        }
    }
}

// The routes that fill the value exactly, if they do.
fn routes_of(
    alloc: Global,
    value: &[u8],
) -> Result<Option<Sequence<DhcpV4ClasslessRoute>>, DhcpError>
    ensures { Makes (λ routes. routes) result (routes_of value.now) }
{
    none_if_refused(DhcpV4ClasslessRoute::parse_list(alloc, value))
}
