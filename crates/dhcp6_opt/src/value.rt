//! The values of options, RFC 8415 section 21, RFC 3646 and RFC 5908: what the value of each code
//! says.

ghost use Rattle.std.specs.Prelude.{◌≡◌, ◌-◌, ◌^◌, length, min, ok_or};
ghost use Rattle.dhcp_wire.specs.Outcome.{Emits, Gives, Makes};
ghost use Rattle.dhcp6_opt.specs.Value as values;

use crate::domain_name::{names_fit, names_in};
use crate::ntp_server::ntp_servers_fit;
use crate::written::{Written, emit_all, len_of_all};
use crate::{
    DhcpV6Duid, DhcpV6Option, DhcpV6OptionCode, DhcpV6OptionIaAddr, DhcpV6OptionIaNa,
    DhcpV6OptionIaPd, DhcpV6OptionIaPrefix, DhcpV6OptionIaTa, DhcpV6OptionNtpServer,
    DhcpV6OptionStatus, DhcpV6OptionUnknown,
};
use dhcp_wire::{
    BufferMut, Bytes, DhcpError, ErrorKind, FixedText, Sequence, ipv6_address_in,
    ipv6_addresses_in, u8_in, u16_in,
};
use std::alloc::Global;

// What the value of an option of this code says, whether or not that can be written again.
#[tactic(auto, unfolding(crate::specs::Value::said_in))]
pub(crate) fn said_in(
    alloc: Global,
    code: DhcpV6OptionCode,
    value: &[u8],
) -> Result<DhcpV6Option, DhcpError>
    ensures { Gives (λ option. option) result
        (ok_or (values.said_in code value.now) ErrorKind.InvalidDhcpMessage) }
{
    match code {
        DhcpV6OptionCode::ClientId => {
            DhcpV6Duid::parse(alloc, value).map(DhcpV6Option::ClientId)
        }
        DhcpV6OptionCode::ServerId => {
            DhcpV6Duid::parse(alloc, value).map(DhcpV6Option::ServerId)
        }
        DhcpV6OptionCode::IANA => { DhcpV6OptionIaNa::parse(alloc, value).map(DhcpV6Option::IANA) }
        DhcpV6OptionCode::IATA => { DhcpV6OptionIaTa::parse(alloc, value).map(DhcpV6Option::IATA) }
        DhcpV6OptionCode::IAAddr => {
            DhcpV6OptionIaAddr::parse(alloc, value).map(DhcpV6Option::IAAddr)
        }
        DhcpV6OptionCode::OptionRequestOption => {
            codes_in(alloc, value).map(DhcpV6Option::OptionRequestOption)
        }
        DhcpV6OptionCode::Preference => u8_in(value).map(DhcpV6Option::Preference),
        DhcpV6OptionCode::ElapsedTime => u16_in(value).map(DhcpV6Option::ElapsedTime),
        DhcpV6OptionCode::ServerUnicast => {
            ipv6_address_in(value).map(DhcpV6Option::ServerUnicast)
        }
        DhcpV6OptionCode::StatusCode => {
            DhcpV6OptionStatus::parse(alloc, value).map(DhcpV6Option::StatusCode)
        }
        DhcpV6OptionCode::RapidCommit => Ok(DhcpV6Option::RapidCommit),
        DhcpV6OptionCode::DnsServers => {
            ipv6_addresses_in(alloc, value).map(DhcpV6Option::DnsServers)
        }
        DhcpV6OptionCode::DomainList => names_in(alloc, value).map(DhcpV6Option::DomainList),
        DhcpV6OptionCode::IAPD => { DhcpV6OptionIaPd::parse(alloc, value).map(DhcpV6Option::IAPD) }
        DhcpV6OptionCode::IAPrefix => {
            DhcpV6OptionIaPrefix::parse(alloc, value).map(DhcpV6Option::IAPrefix)
        }
        DhcpV6OptionCode::NtpServer => {
            DhcpV6OptionNtpServer::parse_list(alloc, value).map(DhcpV6Option::NtpServer)
        }
        DhcpV6OptionCode::Other(code) => {
            let raw = Bytes::from_slice(alloc, value)?;
            Ok(DhcpV6Option::Unknown(DhcpV6OptionUnknown { code, raw }))
        }
    }
}

// A code for each whole pair of bytes.
fn codes_in(alloc: Global, value: &[u8]) -> Result<Sequence<DhcpV6OptionCode>, DhcpError>
    ensures { Makes (λ codes. codes) result (values.codes_in value.now) }
{
    let mut codes = Sequence::new(alloc);
    let mut rest = value;
    while let [high, low, later @ ..] = rest {
        codes.push(DhcpV6OptionCode::from(u16::from_be_bytes([*high, *low])))?;
        rest = later;
    }
    Ok(codes)
}

impl Written for DhcpV6OptionCode {
    ghost written = { values.written_code };

    fn written_len(&self) -> usize {
        2
    }

    fn emit(&self, buf: &mut BufferMut) -> Result<(), DhcpError> {
        buf.write_u16_be(u16::from(*self))
    }
}

// What the value of an option of this code reads as: what it says, if that can be written again.
#[tactic(auto, unfolding(crate::specs::Value::value_of))]
pub(crate) fn read_value(
    alloc: Global,
    code: DhcpV6OptionCode,
    value: &[u8],
) -> Result<DhcpV6Option, DhcpError>
    ensures { Gives (λ option. option) result
        (ok_or (values.value_of code value.now) ErrorKind.InvalidDhcpMessage) }
{
    let option = said_in(alloc, code, value)?;
    let is_short = option.has_short_value();
    is_short
        .then_some(option)
        .ok_or(DhcpError::invalid_message(FixedText::Unreadable))
}

// The most bytes of a value.
const VALUE_MAX: usize = 65535;

impl DhcpV6Option {
    // Whether the written value has at most 65,535 bytes.
    pub(crate) fn has_short_value(&self) -> bool
        ensures { result ≡ values.has_short_value self.now }
    {
        self.value_len() <= VALUE_MAX
    }

    // How many bytes the written value has; the greatest `usize` if there are more.
    #[tactic(auto, unfolding(crate::specs::Value::written_value))]
    pub(crate) fn value_len(&self) -> usize
        ensures { result ≡ min (length (values.written_value self.now)) (2 ^ 64 - 1) }
    {
        match self {
            DhcpV6Option::ClientId(duid) | DhcpV6Option::ServerId(duid) => duid.written_len(),
            DhcpV6Option::IANA(ia) => ia.written_len(),
            DhcpV6Option::IATA(ia) => ia.written_len(),
            DhcpV6Option::IAPD(ia) => ia.written_len(),
            DhcpV6Option::OptionRequestOption(codes) => len_of_all(codes.as_slice()),
            DhcpV6Option::IAAddr(address) => address.written_len(),
            DhcpV6Option::IAPrefix(prefix) => prefix.written_len(),
            DhcpV6Option::Preference(_) => 1,
            DhcpV6Option::ElapsedTime(_) => 2,
            DhcpV6Option::ServerUnicast(address) => address.written_len(),
            DhcpV6Option::StatusCode(status) => status.written_len(),
            DhcpV6Option::RapidCommit => 0,
            DhcpV6Option::DnsServers(addresses) => len_of_all(addresses.as_slice()),
            DhcpV6Option::DomainList(names) => len_of_all(names.as_slice()),
            DhcpV6Option::NtpServer(servers) => len_of_all(servers.as_slice()),
            DhcpV6Option::Unknown(unknown) => unknown.raw.as_slice().len(),
        }
    }

    // Writes the value.
    #[tactic(auto, unfolding(crate::specs::Value::written_value))]
    pub(crate) fn emit_value(&self, buf: &mut BufferMut) -> Result<(), DhcpError>
        ensures { Emits result buf.old buf.new (values.written_value self.now) }
    {
        match self {
            DhcpV6Option::ClientId(duid) | DhcpV6Option::ServerId(duid) => duid.emit(buf),
            DhcpV6Option::IANA(ia) => ia.emit(buf),
            DhcpV6Option::IATA(ia) => ia.emit(buf),
            DhcpV6Option::IAPD(ia) => ia.emit(buf),
            DhcpV6Option::OptionRequestOption(codes) => emit_all(codes.as_slice(), buf),
            DhcpV6Option::IAAddr(address) => address.emit(buf),
            DhcpV6Option::IAPrefix(prefix) => prefix.emit(buf),
            DhcpV6Option::Preference(value) => buf.write_u8(*value),
            DhcpV6Option::ElapsedTime(hundredths) => buf.write_u16_be(*hundredths),
            DhcpV6Option::ServerUnicast(address) => address.emit(buf),
            DhcpV6Option::StatusCode(status) => status.emit(buf),
            DhcpV6Option::RapidCommit => Ok(()),
            DhcpV6Option::DnsServers(addresses) => emit_all(addresses.as_slice(), buf),
            DhcpV6Option::DomainList(names) => emit_all(names.as_slice(), buf),
            DhcpV6Option::NtpServer(servers) => emit_all(servers.as_slice(), buf),
            DhcpV6Option::Unknown(unknown) => buf.write_bytes(unknown.raw.as_slice()),
        }
    }

    // Whether its names can be written.
    pub(crate) fn names_fit(&self) -> bool
        ensures { result ≡ values.names_fit self.now }
    {
        match self {
            DhcpV6Option::DomainList(names) => names_fit(names.as_slice()),
            DhcpV6Option::NtpServer(servers) => ntp_servers_fit(servers.as_slice()),
            _ => true,
        }
    }
}
