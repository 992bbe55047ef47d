//! Options, RFC 8415 section 21, RFC 3646 and RFC 5908.

mod order;

ghost use Rattle.std.specs.Prelude.{◌≡◌, [], IfOk, IsTrue};
ghost use Rattle.dhcp_wire.specs.Outcome.{Emits, Makes, ReadsOption};
ghost use Rattle.dhcp6_opt.specs.OptionCode.{code_of};
ghost use Rattle.dhcp6_opt.specs.Options.{option_at};
ghost use Rattle.dhcp6_opt.specs.Value.{fits, has_own_code, option_code, written_option};

use crate::value::read_value;
use crate::written::pair;
use crate::{
    DhcpV6Duid, DhcpV6OptionCode, DhcpV6OptionIaAddr, DhcpV6OptionIaNa, DhcpV6OptionIaPd,
    DhcpV6OptionIaPrefix, DhcpV6OptionIaTa, DhcpV6OptionNtpServer, DhcpV6OptionStatus,
};
use dhcp_wire::{
    Buffer, BufferMut, Bytes, DhcpError, ErrorKind, FixedText, OptionFormat, Sequence, Text,
    TryClone,
};
use std::alloc::Global;
use std::net::Ipv6Addr;

/// An option, with its value read, RFC 8415 section 21.
#[derive(Debug, Drop, PartialEq, Eq)]
pub enum DhcpV6Option {
    /// Option 1: the client's identifier. RFC 8415 section 21.2.
    ClientId(DhcpV6Duid),
    /// Option 2: the server's identifier. RFC 8415 section 21.3.
    ServerId(DhcpV6Duid),
    /// Option 3: an identity association for non-temporary addresses. RFC 8415 section 21.4.
    IANA(DhcpV6OptionIaNa),
    /// Option 4: an identity association for temporary addresses. RFC 8415 section 21.5.
    IATA(DhcpV6OptionIaTa),
    /// Option 25: an identity association for prefix delegation. RFC 8415 section 21.21.
    IAPD(DhcpV6OptionIaPd),
    /// Option 6: the codes of the options that a client asks for. RFC 8415 section 21.7.
    OptionRequestOption(Sequence<DhcpV6OptionCode>),
    /// Option 5: an address of an identity association. RFC 8415 section 21.6.
    IAAddr(DhcpV6OptionIaAddr),
    /// Option 26: a prefix of an identity association. RFC 8415 section 21.22.
    IAPrefix(DhcpV6OptionIaPrefix),
    /// Option 7: the preference of the server, 255 the highest. RFC 8415 section 21.8.
    Preference(u8),
    /// Option 8: for how long the client has tried, in hundredths of a second. RFC 8415 section
    /// 21.9.
    ElapsedTime(u16),
    /// Option 12: the address to which a client may send its messages. RFC 8415 section 21.12.
    ServerUnicast(Ipv6Addr),
    /// Option 13: a status. RFC 8415 section 21.13.
    StatusCode(DhcpV6OptionStatus),
    /// Option 14: the exchange may take two messages in place of four. RFC 8415 section 21.14.
    RapidCommit,
    /// Option 23: name servers, in order of preference. RFC 3646 section 3.
    DnsServers(Sequence<Ipv6Addr>),
    /// Option 24: the domains in which host names are looked up. RFC 3646 section 4.
    DomainList(Sequence<Text>),
    /// Option 56: time servers. RFC 5908 section 4.
    NtpServer(Sequence<DhcpV6OptionNtpServer>),
    /// An option of a code without a name.
    Unknown(DhcpV6OptionUnknown),
}

/// An option that this library does not read.
#[derive(Debug, Drop, PartialEq, Eq, PartialOrd, Ord)]
pub struct DhcpV6OptionUnknown {
    /// Its code.
    pub code: u16,
    /// The bytes of its value.
    pub raw: Bytes,
}

impl DhcpV6OptionUnknown {
    /// Code 0 and no bytes. Does not allocate.
    pub fn empty(alloc: Global) -> Self
        ensures { result ≡ record { code = 0; raw = [] } }
    {
        DhcpV6OptionUnknown {
            code: 0,
            raw: Bytes::new(alloc),
        }
    }

    /// The code: the name that its number has, if any.
    pub fn code(&self) -> DhcpV6OptionCode
        ensures { result ≡ code_of self.now.code }
    {
        DhcpV6OptionCode::from(self.code)
    }

    /// A copy; out of memory is the only error.
    pub fn try_clone(&self, alloc: Global) -> Result<Self, DhcpError>
        ensures { Makes (λ made. made) result self.now }
    {
        Ok(DhcpV6OptionUnknown {
            code: self.code,
            raw: self.raw.try_clone(alloc)?,
        })
    }
}

impl TryClone for DhcpV6OptionUnknown {
    fn try_clone(&self, alloc: Global) -> Result<Self, DhcpError> {
        DhcpV6OptionUnknown::try_clone(self, alloc)
    }
}

impl DhcpV6Option {
    /// An unknown option with code 0 and no bytes. Does not allocate.
    pub fn empty(alloc: Global) -> Self
        ensures { result ≡ DhcpV6Option.Unknown (record { code = 0; raw = [] }) }
    {
        DhcpV6Option::Unknown(DhcpV6OptionUnknown::empty(alloc))
    }

    /// Reads the option at the position, RFC 8415 section 21.1. `InvalidDhcpMessage` if and only if
    /// it is truncated, and then the position does not move, or its value has no reading, and then
    /// the option is skipped. When out of memory the position does not move. The option fits.
    #[tactic(auto, unfolding(crate::specs::Options::option_at))]
    pub fn parse(alloc: Global, buf: &mut Buffer) -> Result<Self, DhcpError>
        ensures read { ReadsOption (λ option. option) result buf.old buf.new (option_at buf.old) }
        ensures fit { IfOk result (λ option. IsTrue (fits option)) }
    {
        let Some((raw, later)) = OptionFormat::DhcpV6.raw_option_at(buf.get_remains()) else {
            return Err(DhcpError::invalid_message(FixedText::Short));
        };
        match read_value(alloc, DhcpV6OptionCode::from(raw.code), raw.value) {
            Ok(option) => {
                *buf = Buffer::new(later);
                Ok(option)
            }
            Err(error) => {
                if error.kind() != ErrorKind::OutOfMemory {
                    *buf = Buffer::new(later);
                }
                Err(error)
            }
        }
    }

    /// Writes the option: its code, the length of its value, and the value. Out of memory is the
    /// only error; some of the bytes are then written.
    #[tactic(auto, unfolding(crate::specs::written_option, crate::specs::fits))]
    pub fn emit(&self, buf: &mut BufferMut) -> Result<(), DhcpError>
        requires { IsTrue (fits self.now) }
        ensures { Emits result buf.old buf.new (written_option self.now) }
    {
        buf.write_bytes(&pair(u16::from(self.code()), self.value_len() as u16))?;
        self.emit_value(buf)
    }

    /// Whether the option can be written and kept: its value has at most 65,535 bytes, its names
    /// have labels of 1 to 63 bytes, and an unknown option has a number without a name.
    #[tactic(auto, unfolding(crate::specs::Value::fits))]
    pub fn fits(&self) -> bool
        ensures { result ≡ fits self.now }
    {
        self.has_short_value() && self.names_fit() && self.has_own_code()
    }

    // Whether the number is the option's own: an unknown option has one without a name.
    fn has_own_code(&self) -> bool
        ensures { result ≡ has_own_code self.now }
    {
        match self {
            DhcpV6Option::Unknown(unknown) => {
                matches!(unknown.code(), DhcpV6OptionCode::Other(_))
            }
            _ => true,
        }
    }

    /// The code of the option; that of an unknown option is the name that its number has, if any.
    #[inline(always)]
    #[tactic(auto, unfolding(crate::specs::Value::option_code))]
    pub fn code(&self) -> DhcpV6OptionCode
        ensures { result ≡ option_code self.now }
    {
        match self {
            DhcpV6Option::ClientId(_) => DhcpV6OptionCode::ClientId,
            DhcpV6Option::ServerId(_) => DhcpV6OptionCode::ServerId,
            DhcpV6Option::IANA(_) => DhcpV6OptionCode::IANA,
            DhcpV6Option::IATA(_) => DhcpV6OptionCode::IATA,
            DhcpV6Option::IAPD(_) => DhcpV6OptionCode::IAPD,
            DhcpV6Option::OptionRequestOption(_) => DhcpV6OptionCode::OptionRequestOption,
            DhcpV6Option::IAAddr(_) => DhcpV6OptionCode::IAAddr,
            DhcpV6Option::IAPrefix(_) => DhcpV6OptionCode::IAPrefix,
            DhcpV6Option::Preference(_) => DhcpV6OptionCode::Preference,
            DhcpV6Option::ElapsedTime(_) => DhcpV6OptionCode::ElapsedTime,
            DhcpV6Option::ServerUnicast(_) => DhcpV6OptionCode::ServerUnicast,
            DhcpV6Option::StatusCode(_) => DhcpV6OptionCode::StatusCode,
            DhcpV6Option::RapidCommit => DhcpV6OptionCode::RapidCommit,
            DhcpV6Option::DnsServers(_) => DhcpV6OptionCode::DnsServers,
            DhcpV6Option::DomainList(_) => DhcpV6OptionCode::DomainList,
            DhcpV6Option::NtpServer(_) => DhcpV6OptionCode::NtpServer,
            DhcpV6Option::Unknown(unknown) => unknown.code(),
        }
    }

    /// A copy; out of memory is the only error.
    pub fn try_clone(&self, alloc: Global) -> Result<Self, DhcpError>
        ensures { Makes (λ made. made) result self.now }
    {
        match self {
            DhcpV6Option::ClientId(duid) => duid.try_clone(alloc).map(DhcpV6Option::ClientId),
            DhcpV6Option::ServerId(duid) => duid.try_clone(alloc).map(DhcpV6Option::ServerId),
            DhcpV6Option::IANA(ia) => ia.try_clone(alloc).map(DhcpV6Option::IANA),
            DhcpV6Option::IATA(ia) => ia.try_clone(alloc).map(DhcpV6Option::IATA),
            DhcpV6Option::IAPD(ia) => ia.try_clone(alloc).map(DhcpV6Option::IAPD),
            DhcpV6Option::OptionRequestOption(codes) => codes
                .try_clone(alloc)
                .map(DhcpV6Option::OptionRequestOption),
            DhcpV6Option::IAAddr(address) => address.try_clone(alloc).map(DhcpV6Option::IAAddr),
            DhcpV6Option::IAPrefix(prefix) => prefix.try_clone(alloc).map(DhcpV6Option::IAPrefix),
            DhcpV6Option::Preference(value) => Ok(DhcpV6Option::Preference(*value)),
            DhcpV6Option::ElapsedTime(value) => Ok(DhcpV6Option::ElapsedTime(*value)),
            DhcpV6Option::ServerUnicast(value) => Ok(DhcpV6Option::ServerUnicast(*value)),
            DhcpV6Option::StatusCode(status) => status
                .try_clone(alloc)
                .map(DhcpV6Option::StatusCode),
            DhcpV6Option::RapidCommit => Ok(DhcpV6Option::RapidCommit),
            DhcpV6Option::DnsServers(addresses) => addresses
                .try_clone(alloc)
                .map(DhcpV6Option::DnsServers),
            DhcpV6Option::DomainList(names) => names.try_clone(alloc).map(DhcpV6Option::DomainList),
            DhcpV6Option::NtpServer(servers) => servers
                .try_clone(alloc)
                .map(DhcpV6Option::NtpServer),
            DhcpV6Option::Unknown(unknown) => unknown.try_clone(alloc).map(DhcpV6Option::Unknown),
        }
    }
}

impl TryClone for DhcpV6Option {
    fn try_clone(&self, alloc: Global) -> Result<Self, DhcpError> {
        DhcpV6Option::try_clone(self, alloc)
    }
}
