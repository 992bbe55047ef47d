//! The prefixes of identity associations, RFC 8415 section 21.22.

ghost use Rattle.std.specs.Prelude.{◌≡◌, ok_or};
ghost use Rattle.dhcp_wire.specs.Outcome.{Gives, Makes};
ghost use Rattle.dhcp6_opt.specs.Ia as ia;

use crate::DhcpV6OptionStatus;
use crate::status::{STATUS_CODE, status_after, status_len};
use crate::written::{Written, emit_all, emit_if_some};
use dhcp_wire::{Buffer, BufferMut, DhcpError, ErrorKind, TryClone, copied};
use std::alloc::Global;
use std::net::Ipv6Addr;

/// A prefix that is delegated to a requesting router, RFC 8415 section 21.22.
#[derive(Debug, Drop, PartialEq, Eq, PartialOrd, Ord)]
pub struct DhcpV6OptionIaPrefix {
    /// For how many seconds it is preferred.
    pub preferred_time_sec: u32,
    /// For how many seconds it is valid.
    pub valid_time_sec: u32,
    /// Its length, in bits. That it is at most 128 is not tested.
    pub prefix_len: u8,
    /// Its address.
    pub prefix: Ipv6Addr,
    /// Its status, if it says one.
    pub status: Option<DhcpV6OptionStatus>,
}

impl DhcpV6OptionIaPrefix {
    /// A prefix without a status, its length in bits and its times in seconds. Does not allocate.
    pub fn new(
        prefix: Ipv6Addr,
        prefix_len: u8,
        preferred_time_sec: u32,
        valid_time_sec: u32,
    ) -> Self
        ensures { result ≡ ia.plain_prefix prefix prefix_len preferred_time_sec valid_time_sec }
    {
        DhcpV6OptionIaPrefix {
            preferred_time_sec,
            valid_time_sec,
            prefix_len,
            prefix,
            status: None,
        }
    }

    /// The unspecified address with length 0 and times 0, without a status. Does not allocate.
    pub fn empty() -> Self
        ensures { result ≡ ia.plain_prefix ia.unspecified 0 0 0 }
    {
        DhcpV6OptionIaPrefix::new(Ipv6Addr::UNSPECIFIED, 0, 0, 0)
    }

    // The prefix of an option's value. `InvalidDhcpMessage` if and only if its fixed part is
    // truncated, or something follows it that does not begin with a whole status option that reads.
    #[tactic(auto, unfolding(crate::specs::Ia::ia_prefix_in))]
    pub(crate) fn parse(alloc: Global, value: &[u8]) -> Result<Self, DhcpError>
        ensures { Gives (λ prefix. prefix) result
            (ok_or (ia.ia_prefix_in value.now) ErrorKind.InvalidDhcpMessage) }
    {
        // preferred lifetime, valid lifetime, prefix length, prefix, status
        let mut rest = Buffer::new(value);
        let preferred_time_sec = rest.get_u32_be()?;
        let valid_time_sec = rest.get_u32_be()?;
        let prefix_len = rest.get_u8()?;
        let prefix = rest.get_ipv6()?;
        let status = status_after(alloc, rest.get_remains())?;
        Ok(DhcpV6OptionIaPrefix {
            preferred_time_sec,
            valid_time_sec,
            prefix_len,
            prefix,
            status,
        })
    }

    /// A copy; out of memory is the only error.
    pub fn try_clone(&self, alloc: Global) -> Result<Self, DhcpError>
        ensures { Makes (λ made. made) result self.now }
    {
        Ok(DhcpV6OptionIaPrefix {
            preferred_time_sec: self.preferred_time_sec,
            valid_time_sec: self.valid_time_sec,
            prefix_len: self.prefix_len,
            prefix: self.prefix,
            status: copied(alloc, self.status.as_ref())?,
        })
    }
}

impl Written for DhcpV6OptionIaPrefix {
    ghost written = { ia.written_ia_prefix };

    #[tactic(auto, unfolding(crate::specs::Ia::written_ia_prefix))]
    fn written_len(&self) -> usize {
        9 + self.prefix.octets().len() + status_len(&self.status)
    }

    #[tactic(auto, unfolding(crate::specs::Ia::written_ia_prefix))]
    fn emit(&self, buf: &mut BufferMut) -> Result<(), DhcpError> {
        emit_all(&[self.preferred_time_sec, self.valid_time_sec], buf)?;
        buf.write_u8(self.prefix_len)?;
        buf.write_ipv6(self.prefix)?;
        emit_if_some(STATUS_CODE, &self.status, buf)
    }
}

impl TryClone for DhcpV6OptionIaPrefix {
    fn try_clone(&self, alloc: Global) -> Result<Self, DhcpError> {
        DhcpV6OptionIaPrefix::try_clone(self, alloc)
    }
}
