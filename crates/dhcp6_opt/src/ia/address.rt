//! The addresses of identity associations, RFC 8415 section 21.6.

ghost use Rattle.std.specs.Prelude.{◌≡◌, ok_or};
ghost use Rattle.dhcp_wire.specs.Outcome.{Gives, Makes};
ghost use Rattle.dhcp6_opt.specs.Ia as ia;

use crate::DhcpV6OptionStatus;
use crate::status::{STATUS_CODE, status_after, status_len};
use crate::written::{Written, emit_all, emit_if_some};
use dhcp_wire::{Buffer, BufferMut, DhcpError, ErrorKind, TryClone, copied};
use std::alloc::Global;
use std::net::Ipv6Addr;

/// An address of an identity association, RFC 8415 section 21.6.
#[derive(Debug, Drop, PartialEq, Eq, PartialOrd, Ord)]
pub struct DhcpV6OptionIaAddr {
    /// The address.
    pub address: Ipv6Addr,
    /// For how many seconds it is preferred.
    pub preferred_time_sec: u32,
    /// For how many seconds it is valid.
    pub valid_time_sec: u32,
    /// Its status, if it says one.
    pub status: Option<DhcpV6OptionStatus>,
}

impl DhcpV6OptionIaAddr {
    /// An address without a status, its times in seconds. Does not allocate.
    pub fn new(address: Ipv6Addr, preferred_time_sec: u32, valid_time_sec: u32) -> Self
        ensures { result ≡ ia.plain_address address preferred_time_sec valid_time_sec }
    {
        DhcpV6OptionIaAddr {
            address,
            preferred_time_sec,
            valid_time_sec,
            status: None,
        }
    }

    /// The unspecified address, with times 0 and without a status. Does not allocate.
    pub fn empty() -> Self
        ensures { result ≡ ia.plain_address ia.unspecified 0 0 }
    {
        DhcpV6OptionIaAddr::new(Ipv6Addr::UNSPECIFIED, 0, 0)
    }

    // The address of an option's value. `InvalidDhcpMessage` if and only if its fixed part is
    // truncated, or something follows it that does not begin with a whole status option that reads.
    #[tactic(auto, unfolding(crate::specs::Ia::ia_address_in))]
    pub(crate) fn parse(alloc: Global, value: &[u8]) -> Result<Self, DhcpError>
        ensures { Gives (λ address. address) result
            (ok_or (ia.ia_address_in value.now) ErrorKind.InvalidDhcpMessage) }
    {
        // address, preferred lifetime, valid lifetime, status
        let mut rest = Buffer::new(value);
        let address = rest.get_ipv6()?;
        let preferred_time_sec = rest.get_u32_be()?;
        let valid_time_sec = rest.get_u32_be()?;
        let status = status_after(alloc, rest.get_remains())?;
        Ok(DhcpV6OptionIaAddr {
            address,
            preferred_time_sec,
            valid_time_sec,
            status,
        })
    }

    /// A copy; out of memory is the only error.
    pub fn try_clone(&self, alloc: Global) -> Result<Self, DhcpError>
        ensures { Makes (λ made. made) result self.now }
    {
        Ok(DhcpV6OptionIaAddr {
            address: self.address,
            preferred_time_sec: self.preferred_time_sec,
            valid_time_sec: self.valid_time_sec,
            status: copied(alloc, self.status.as_ref())?,
        })
    }
}

impl Written for DhcpV6OptionIaAddr {
    ghost written = { ia.written_ia_address };

    #[tactic(auto, unfolding(crate::specs::Ia::written_ia_address))]
    fn written_len(&self) -> usize {
        self.address.octets().len() + 8 + status_len(&self.status)
    }

    #[tactic(auto, unfolding(crate::specs::Ia::written_ia_address))]
    fn emit(&self, buf: &mut BufferMut) -> Result<(), DhcpError> {
        buf.write_ipv6(self.address)?;
        emit_all(&[self.preferred_time_sec, self.valid_time_sec], buf)?;
        emit_if_some(STATUS_CODE, &self.status, buf)
    }
}

impl TryClone for DhcpV6OptionIaAddr {
    fn try_clone(&self, alloc: Global) -> Result<Self, DhcpError> {
        DhcpV6OptionIaAddr::try_clone(self, alloc)
    }
}
