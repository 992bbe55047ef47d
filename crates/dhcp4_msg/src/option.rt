//! Options, RFC 2132.

ghost use Rattle.std.specs.Prelude.{◌≡◌, length, IsTrue, IfOk};
ghost use Rattle.dhcp4_msg.specs.Value.{option_code, written_value, written_option, fits, has_own_code};
ghost use Rattle.dhcp_wire.specs.Outcome.{Makes, Emits, ReadsOption};
ghost use Rattle.dhcp4_msg.specs.Options.{option_at};

use crate::option_table::{END, PAD};
use crate::value::{
    TEXT_MAX, addresses_len, emit_addresses, emit_codes, emit_routes, emit_text, read_value,
    routes_len,
};
use crate::{DhcpV4ClasslessRoute, DhcpV4MessageType, DhcpV4OptionCode};
use dhcp_wire::{
    Buffer, BufferMut, Bytes, DhcpError, ErrorKind, FixedText, OptionFormat, Sequence, Text,
};
use std::alloc::Global;
use std::net::Ipv4Addr;

/// An option, with its value read, RFC 2132. Texts are UTF-8; at most 254 bytes of one are written,
/// and a zero byte.
#[derive(Debug, PartialEq, Eq, Drop)]
pub enum DhcpV4Option {
    /// Option 0: fills space between options; a code alone. RFC 2132 section 3.1.
    Pad,
    /// Option 1: the subnet mask of the client's network. RFC 2132 section 3.3.
    SubnetMask(Ipv4Addr),
    /// Option 3: routers on the client's subnet, in order of preference. RFC 2132 section 3.5.
    Router(Sequence<Ipv4Addr>),
    /// Option 6: name servers, in order of preference. RFC 2132 section 3.8.
    DomainNameServer(Sequence<Ipv4Addr>),
    /// Option 12: the client's host name. RFC 2132 section 3.14.
    HostName(Text),
    /// Option 15: the domain in which host names are looked up. RFC 2132 section 3.17.
    DomainName(Text),
    /// Option 26: the MTU of the interface, in bytes. RFC 2132 section 5.1.
    InterfaceMtu(u16),
    /// Option 28: the broadcast address of the client's subnet. RFC 2132 section 5.3.
    BroadcastAddress(Ipv4Addr),
    /// Option 42: time servers, in order of preference. RFC 2132 section 8.3.
    NtpServers(Sequence<Ipv4Addr>),
    /// Option 50: the address that a client asks for. RFC 2132 section 9.1.
    RequestedIpAddress(Ipv4Addr),
    /// Option 51: the lease time, in seconds. RFC 2132 section 9.2.
    IpAddressLeaseTime(u32),
    /// Option 53: the type of the message. RFC 2132 section 9.6.
    MessageType(DhcpV4MessageType),
    /// Option 54: the address of the server that is chosen, or that answers. RFC 2132 section 9.7.
    ServerIdentifier(Ipv4Addr),
    /// Option 55: the codes of the options that a client asks for. RFC 2132 section 9.8.
    ParameterRequestList(Sequence<DhcpV4OptionCode>),
    /// Option 56: what went wrong, for a person to read. RFC 2132 section 9.9.
    Message(Text),
    /// Option 58: T1, when a client renews, in seconds from the assignment of the address. RFC 2132
    /// section 9.11.
    RenewalTime(u32),
    /// Option 59: T2, when a client rebinds, in seconds from the assignment of the address. RFC
    /// 2132 section 9.12.
    RebindingTime(u32),
    /// Option 61: the client's identifier: a type byte, and the identifier. RFC 2132 section 9.14.
    ClientIdentifier(Bytes),
    /// Option 121: classless static routes. RFC 3442.
    ClasslessStaticRoute(Sequence<DhcpV4ClasslessRoute>),
    /// Option 255: ends the options; a code alone. RFC 2132 section 3.2.
    End,
    /// An option of a number without a name.
    Unknown(DhcpV4OptionUnknown),
}

/// An option that this library does not read.
#[derive(Debug, PartialEq, Eq, Drop)]
pub struct DhcpV4OptionUnknown {
    /// Its code.
    pub code: u8,
    /// The bytes of its value.
    pub raw: Bytes,
}

impl DhcpV4OptionUnknown {
    /// A copy; out of memory is the only error.
    pub fn try_clone(&self, alloc: Global) -> Result<Self, DhcpError>
        ensures { Makes (λ made. made) result self.now }
    {
        Ok(DhcpV4OptionUnknown {
            code: self.code,
            raw: self.raw.try_clone(alloc)?,
        })
    }
}

impl DhcpV4Option {
    /// The code of the option; that of an unknown option is the name that its number has, if any.
    #[inline(always)]
    #[tactic(auto, unfolding(crate::specs::Value::option_code))]
    pub fn code(&self) -> DhcpV4OptionCode
        ensures { result ≡ option_code self.now }
    {
        match self {
            DhcpV4Option::Pad => DhcpV4OptionCode::Pad,
            DhcpV4Option::SubnetMask(_) => DhcpV4OptionCode::SubnetMask,
            DhcpV4Option::Router(_) => DhcpV4OptionCode::Router,
            DhcpV4Option::DomainNameServer(_) => DhcpV4OptionCode::DomainNameServer,
            DhcpV4Option::HostName(_) => DhcpV4OptionCode::HostName,
            DhcpV4Option::DomainName(_) => DhcpV4OptionCode::DomainName,
            DhcpV4Option::InterfaceMtu(_) => DhcpV4OptionCode::InterfaceMtu,
            DhcpV4Option::BroadcastAddress(_) => DhcpV4OptionCode::BroadcastAddress,
            DhcpV4Option::NtpServers(_) => DhcpV4OptionCode::NtpServers,
            DhcpV4Option::RequestedIpAddress(_) => DhcpV4OptionCode::RequestedIpAddress,
            DhcpV4Option::IpAddressLeaseTime(_) => DhcpV4OptionCode::IpAddressLeaseTime,
            DhcpV4Option::MessageType(_) => DhcpV4OptionCode::MessageType,
            DhcpV4Option::ServerIdentifier(_) => DhcpV4OptionCode::ServerIdentifier,
            DhcpV4Option::ParameterRequestList(_) => DhcpV4OptionCode::ParameterRequestList,
            DhcpV4Option::Message(_) => DhcpV4OptionCode::Message,
            DhcpV4Option::RenewalTime(_) => DhcpV4OptionCode::RenewalTime,
            DhcpV4Option::RebindingTime(_) => DhcpV4OptionCode::RebindingTime,
            DhcpV4Option::ClientIdentifier(_) => DhcpV4OptionCode::ClientIdentifier,
            DhcpV4Option::ClasslessStaticRoute(_) => DhcpV4OptionCode::ClasslessStaticRoute,
            DhcpV4Option::End => DhcpV4OptionCode::End,
            DhcpV4Option::Unknown(unknown) => DhcpV4OptionCode::from(unknown.code),
        }
    }

    /// Reads the option at the position, RFC 2132 section 2. `InvalidDhcpMessage` if and only if it
    /// is truncated, and then the position does not move, or its value has no reading, and then the
    /// option is skipped. When out of memory the position does not move. The option fits.
    #[tactic(auto, unfolding(crate::specs::Options::option_at))]
    pub fn parse(alloc: Global, buf: &mut Buffer) -> Result<Self, DhcpError>
        ensures read { ReadsOption (λ option. option) result buf.old buf.new (option_at buf.old) }
        ensures fit { IfOk result (λ option. IsTrue (fits option)) }
    {
        let Some((raw, later)) = OptionFormat::DhcpV4.raw_option_at(buf.get_remains()) else {
            return Err(DhcpError::invalid_message(FixedText::Short));
        };
        match read_value(alloc, DhcpV4OptionCode::from(raw.code as u8), raw.value) {
            Ok(option) => {
                *buf = Buffer::new(later);
                Ok(option)
            }
            Err(error) => {
                if error.kind() != ErrorKind::OutOfMemory {
                    *buf = Buffer::new(later);
                }
                Err(error)
            }
        }
    }

    /// A copy; out of memory is the only error.
    pub fn try_clone(&self, alloc: Global) -> Result<Self, DhcpError>
        ensures { Makes (λ made. made) result self.now }
    {
        match self {
            DhcpV4Option::Pad => Ok(DhcpV4Option::Pad),
            DhcpV4Option::SubnetMask(address) => Ok(DhcpV4Option::SubnetMask(*address)),
            DhcpV4Option::Router(addresses) => {
                addresses.try_clone(alloc).map(DhcpV4Option::Router)
            }
            DhcpV4Option::DomainNameServer(addresses) => {
                addresses
                    .try_clone(alloc)
                    .map(DhcpV4Option::DomainNameServer)
            }
            DhcpV4Option::HostName(text) => text.try_clone(alloc).map(DhcpV4Option::HostName),
            DhcpV4Option::DomainName(text) => text.try_clone(alloc).map(DhcpV4Option::DomainName),
            DhcpV4Option::InterfaceMtu(size) => Ok(DhcpV4Option::InterfaceMtu(*size)),
            DhcpV4Option::BroadcastAddress(address) => Ok(DhcpV4Option::BroadcastAddress(*address)),
            DhcpV4Option::NtpServers(addresses) => {
                addresses.try_clone(alloc).map(DhcpV4Option::NtpServers)
            }
            DhcpV4Option::RequestedIpAddress(address) => {
                Ok(DhcpV4Option::RequestedIpAddress(*address))
            }
            DhcpV4Option::IpAddressLeaseTime(seconds) => {
                Ok(DhcpV4Option::IpAddressLeaseTime(*seconds))
            }
            DhcpV4Option::MessageType(kind) => Ok(DhcpV4Option::MessageType(*kind)),
            DhcpV4Option::ServerIdentifier(address) => Ok(DhcpV4Option::ServerIdentifier(*address)),
            DhcpV4Option::ParameterRequestList(codes) => {
                codes
                    .try_clone(alloc)
                    .map(DhcpV4Option::ParameterRequestList)
            }
            DhcpV4Option::Message(text) => text.try_clone(alloc).map(DhcpV4Option::Message),
            DhcpV4Option::RenewalTime(seconds) => Ok(DhcpV4Option::RenewalTime(*seconds)),
            DhcpV4Option::RebindingTime(seconds) => Ok(DhcpV4Option::RebindingTime(*seconds)),
            DhcpV4Option::ClientIdentifier(bytes) => {
                bytes.try_clone(alloc).map(DhcpV4Option::ClientIdentifier)
            }
            DhcpV4Option::ClasslessStaticRoute(routes) => {
                routes
                    .try_clone(alloc)
                    .map(DhcpV4Option::ClasslessStaticRoute)
            }
            DhcpV4Option::End => Ok(DhcpV4Option::End),
            DhcpV4Option::Unknown(unknown) => {
                unknown.try_clone(alloc).map(DhcpV4Option::Unknown)
            }
        }
    }

    /// Whether the option can be written and kept: its value has at most 255 bytes, and an unknown
    /// option has a number without a name.
    #[tactic(auto, unfolding(crate::specs::Value::fits))]
    pub fn fits(&self) -> bool
        ensures { result ≡ fits self.now }
    {
        self.value_len() <= 255 && self.has_own_code()
    }

    // Whether the number is the option's own: an unknown option has one without a name.
    fn has_own_code(&self) -> bool
        ensures { result ≡ has_own_code self.now }
    {
        match self {
            DhcpV4Option::Unknown(unknown) => matches!(
                DhcpV4OptionCode::from(unknown.code),
                DhcpV4OptionCode::Other(_)
            ),
            _ => true,
        }
    }

    // How many bytes the option is written in at most.
    pub(crate) fn room(&self) -> usize {
        self.value_len().saturating_add(2)
    }

    // How many bytes the written value has.
    #[tactic(auto, unfolding(crate::specs::written_value), using(crate::proofs::text_len))]
    fn value_len(&self) -> usize
        ensures { result ≡ length (written_value self.now) }
    {
        match self {
            DhcpV4Option::Pad | DhcpV4Option::End => 0,
            DhcpV4Option::SubnetMask(address)
            | DhcpV4Option::BroadcastAddress(address)
            | DhcpV4Option::RequestedIpAddress(address)
            | DhcpV4Option::ServerIdentifier(address) => address.octets().len(),
            DhcpV4Option::IpAddressLeaseTime(_)
            | DhcpV4Option::RenewalTime(_)
            | DhcpV4Option::RebindingTime(_) => 4,
            DhcpV4Option::InterfaceMtu(_) => 2,
            DhcpV4Option::MessageType(_) => 1,
            DhcpV4Option::Router(addresses)
            | DhcpV4Option::DomainNameServer(addresses)
            | DhcpV4Option::NtpServers(addresses) => addresses_len(addresses.as_slice()),
            DhcpV4Option::HostName(text)
            | DhcpV4Option::DomainName(text)
            | DhcpV4Option::Message(text) => text.len().min(TEXT_MAX) + 1,
            DhcpV4Option::ParameterRequestList(codes) => codes.len(),
            DhcpV4Option::ClientIdentifier(bytes) => bytes.len(),
            DhcpV4Option::ClasslessStaticRoute(routes) => routes_len(routes.as_slice()),
            DhcpV4Option::Unknown(unknown) => unknown.raw.len(),
        }
    }

    /// Writes the option: its code, the length of its value, and the value; Pad and End are a code
    /// alone. Out of memory is the only error; some of the bytes are then written.
    #[tactic(auto, unfolding(crate::specs::written_option, crate::specs::fits))]
    pub fn emit(&self, buf: &mut BufferMut) -> Result<(), DhcpError>
        requires { IsTrue (fits self.now) }
        ensures { Emits result buf.old buf.new (written_option self.now) }
    {
        match self {
            DhcpV4Option::Pad => buf.write_u8(PAD),
            DhcpV4Option::End => buf.write_u8(END),
            option => {
                buf.write_bytes(&[u8::from(option.code()), option.value_len() as u8])?;
                option.emit_value(buf)
            }
        }
    }

    // Writes the value.
    #[tactic(auto, unfolding(crate::specs::Value::written_value))]
    fn emit_value(&self, buf: &mut BufferMut) -> Result<(), DhcpError>
        ensures { Emits result buf.old buf.new (written_value self.now) }
    {
        match self {
            DhcpV4Option::Pad | DhcpV4Option::End => Ok(()),
            DhcpV4Option::SubnetMask(address)
            | DhcpV4Option::BroadcastAddress(address)
            | DhcpV4Option::RequestedIpAddress(address)
            | DhcpV4Option::ServerIdentifier(address) => buf.write_ipv4(*address),
            DhcpV4Option::IpAddressLeaseTime(seconds)
            | DhcpV4Option::RenewalTime(seconds)
            | DhcpV4Option::RebindingTime(seconds) => buf.write_u32_be(*seconds),
            DhcpV4Option::InterfaceMtu(size) => buf.write_u16_be(*size),
            DhcpV4Option::MessageType(kind) => buf.write_u8(u8::from(*kind)),
            DhcpV4Option::Router(addresses)
            | DhcpV4Option::DomainNameServer(addresses)
            | DhcpV4Option::NtpServers(addresses) => emit_addresses(addresses.as_slice(), buf),
            DhcpV4Option::HostName(text)
            | DhcpV4Option::DomainName(text)
            | DhcpV4Option::Message(text) => emit_text(text.as_str(), buf),
            DhcpV4Option::ParameterRequestList(codes) => emit_codes(codes.as_slice(), buf),
            DhcpV4Option::ClientIdentifier(bytes) => buf.write_bytes(bytes.as_slice()),
            DhcpV4Option::ClasslessStaticRoute(routes) => emit_routes(routes.as_slice(), buf),
            DhcpV4Option::Unknown(unknown) => buf.write_bytes(unknown.raw.as_slice()),
        }
    }
}
