//! Time servers: the suboptions of the NTP server option, RFC 5908 section 4.

ghost use Rattle.std.specs.Prelude.{◌≡◌, ok_or};
ghost use Rattle.std.specs.List.{list_all};
ghost use Rattle.dhcp_wire.specs.Outcome.{Gives, Makes};
ghost use Rattle.dhcp6_opt.specs.NtpServer.{ntp_server_fits, ntp_server_of, ntp_servers_in, written_ntp_server};
ghost use Rattle.dhcp6_opt.specs.RawOption.{parts_of};

use crate::domain_name::{name_at, name_fits};
use crate::written::{Written, emit_as_option};
use dhcp_wire::{
    BufferMut, Bytes, DhcpError, ErrorKind, FixedText, OptionFormat, RawOption, Sequence, Text,
    TryClone, ipv6_address_in,
};
use std::alloc::Global;
use std::net::Ipv6Addr;

/// A suboption of the NTP server option, RFC 5908 section 4. Suboptions are ordered by type, as
/// they stand here, then by their fields.
#[derive(Debug, Drop, PartialEq, Eq, PartialOrd, Ord)]
pub enum DhcpV6OptionNtpServer {
    /// Type 1: the address of a server. RFC 5908 section 4.1.
    ServerAddr(Ipv6Addr),
    /// Type 2: the address of a multicast group. RFC 5908 section 4.2.
    MulticastAddr(Ipv6Addr),
    /// Type 3: the name of a server or of a group of servers. RFC 5908 section 4.3.
    ServerFqdn(Text),
    /// Any other type, and the bytes of its value.
    Other((u16, Bytes)),
}

// The types of RFC 5908 sections 4.1 to 4.3.
const SERVER_ADDRESS: u16 = 1;

const MULTICAST_ADDRESS: u16 = 2;

const SERVER_NAME: u16 = 3;

impl DhcpV6OptionNtpServer {
    // The suboptions of a value. `InvalidDhcpMessage` if and only if suboptions do not fill it, or
    // one of them has no reading.
    pub(crate) fn parse_list(alloc: Global, value: &[u8]) -> Result<Sequence<Self>, DhcpError>
        ensures { Gives (λ servers. servers) result
            (ok_or (ntp_servers_in value.now) ErrorKind.InvalidDhcpMessage) }
    {
        let mut servers = Sequence::new(alloc);
        let mut rest = value;
        while !rest.is_empty() {
            let Some((raw, later)) = OptionFormat::DhcpV6.raw_option_at(rest) else {
                return Err(DhcpError::invalid_message(FixedText::Short));
            };
            servers.push(DhcpV6OptionNtpServer::parse(alloc, raw)?)?;
            rest = later;
        }
        Ok(servers)
    }

    // What a suboption reads as. `InvalidDhcpMessage` if and only if its address is truncated, or
    // its value does not begin with a name.
    #[tactic(auto, unfolding(crate::specs::NtpServer::ntp_server_of))]
    fn parse(alloc: Global, raw: RawOption) -> Result<Self, DhcpError>
        ensures { Gives (λ server. server) result
            (ok_or (ntp_server_of (parts_of raw.entry)) ErrorKind.InvalidDhcpMessage) }
    {
        match raw.code {
            SERVER_ADDRESS => Ok(DhcpV6OptionNtpServer::ServerAddr(ipv6_address_in(raw.value)?)),
            MULTICAST_ADDRESS => {
                Ok(DhcpV6OptionNtpServer::MulticastAddr(ipv6_address_in(raw.value)?))
            }
            SERVER_NAME => {
                let (name, _) = name_at(alloc, raw.value)?;
                Ok(DhcpV6OptionNtpServer::ServerFqdn(name))
            }
            code => {
                let bytes = Bytes::from_slice(alloc, raw.value)?;
                Ok(DhcpV6OptionNtpServer::Other((code, bytes)))
            }
        }
    }

    // Whether its name can be written, if it has one.
    fn fits(&self) -> bool
        ensures { result ≡ ntp_server_fits self.now }
    {
        match self {
            DhcpV6OptionNtpServer::ServerFqdn(name) => name_fits(name),
            _ => true,
        }
    }

    /// A copy; out of memory is the only error.
    pub fn try_clone(&self, alloc: Global) -> Result<Self, DhcpError>
        ensures { Makes (λ made. made) result self.now }
    {
        match self {
            DhcpV6OptionNtpServer::ServerAddr(address) => {
                Ok(DhcpV6OptionNtpServer::ServerAddr(*address))
            }
            DhcpV6OptionNtpServer::MulticastAddr(address) => {
                Ok(DhcpV6OptionNtpServer::MulticastAddr(*address))
            }
            DhcpV6OptionNtpServer::ServerFqdn(name) => {
                Ok(DhcpV6OptionNtpServer::ServerFqdn(name.try_clone(alloc)?))
            }
            DhcpV6OptionNtpServer::Other(other) => {
                let bytes = other.1.try_clone(alloc)?;
                Ok(DhcpV6OptionNtpServer::Other((other.0, bytes)))
            }
        }
    }
}

// A suboption: its type, the length of its value, and the value.
impl Written for DhcpV6OptionNtpServer {
    ghost written = { written_ntp_server };

    #[tactic(auto, unfolding(crate::specs::written_ntp_server), using(crate::proofs::option_len))]
    fn written_len(&self) -> usize {
        4 + match self {
            DhcpV6OptionNtpServer::ServerAddr(address)
            | DhcpV6OptionNtpServer::MulticastAddr(address) => address.octets().len(),
            DhcpV6OptionNtpServer::ServerFqdn(name) => name.written_len(),
            DhcpV6OptionNtpServer::Other(other) => other.1.as_slice().len(),
        }
    }

    #[tactic(auto, unfolding(crate::specs::NtpServer::written_ntp_server))]
    fn emit(&self, buf: &mut BufferMut) -> Result<(), DhcpError> {
        match self {
            DhcpV6OptionNtpServer::ServerAddr(address) => {
                emit_as_option(SERVER_ADDRESS, address, buf)
            }
            DhcpV6OptionNtpServer::MulticastAddr(address) => {
                emit_as_option(MULTICAST_ADDRESS, address, buf)
            }
            DhcpV6OptionNtpServer::ServerFqdn(name) => emit_as_option(SERVER_NAME, name, buf),
            DhcpV6OptionNtpServer::Other(other) => emit_as_option(other.0, &other.1, buf),
        }
    }
}

// Whether the names of some suboptions can be written.
pub(crate) fn ntp_servers_fit(servers: &[DhcpV6OptionNtpServer]) -> bool
    ensures { result ≡ list_all ntp_server_fits servers.now }
{
    servers.iter().all(|server| server.fits())
}

impl TryClone for DhcpV6OptionNtpServer {
    fn try_clone(&self, alloc: Global) -> Result<Self, DhcpError> {
        DhcpV6OptionNtpServer::try_clone(self, alloc)
    }
}
