//! Identity associations for prefix delegation, RFC 8415 section 21.21.

ghost use Rattle.std.specs.Prelude.{◌≡◌, ◌-◌, ◌^◌, length, min, ok_or, None, Some};
ghost use Rattle.dhcp_wire.specs.Outcome.{Emits, Gives, Makes};
ghost use Rattle.dhcp6_opt.specs.Ia as ia;

use super::inside::{IA_PREFIX, InsideIa};
use crate::status::{STATUS_CODE, is_no_failure, status_len};
use crate::written::{emit_all, emit_if_some, len_if_some};
use crate::{DhcpV6OptionIaPrefix, DhcpV6OptionStatus};
use dhcp_wire::{Buffer, BufferMut, DhcpError, ErrorKind, TryClone, copied};
use std::alloc::Global;
use std::net::Ipv6Addr;

/// An identity association for prefix delegation (IA_PD), RFC 8415 section 21.21.
#[derive(Debug, Drop, PartialEq, Eq, PartialOrd, Ord)]
pub struct DhcpV6OptionIaPd {
    /// The identifier of the association, unique among those of the client.
    pub iaid: u32,
    /// T1: after how many seconds the client renews; 0 leaves it to the client.
    pub t1_sec: u32,
    /// T2: after how many seconds the client rebinds; 0 leaves it to the client.
    pub t2_sec: u32,
    /// Its prefix, if it has one: the last where it was read.
    pub prefix: Option<DhcpV6OptionIaPrefix>,
    /// Its status, if it says one: the last where it was read.
    pub status: Option<DhcpV6OptionStatus>,
}

impl DhcpV6OptionIaPd {
    /// An association with this prefix and without a status, its times in seconds. Does not
    /// allocate.
    pub fn new(iaid: u32, t1_sec: u32, t2_sec: u32, prefix: DhcpV6OptionIaPrefix) -> Self
        ensures { result ≡ record {
          iaid = iaid;
          t1_sec = t1_sec;
          t2_sec = t2_sec;
          prefix = Some prefix;
          status = None;
        } }
    {
        DhcpV6OptionIaPd {
            iaid,
            t1_sec,
            t2_sec,
            prefix: Some(prefix),
            status: None,
        }
    }

    /// An association with times 0 and the prefix zero of this length in bits: a client's hint.
    /// Does not allocate.
    pub fn new_with_hint(prefix_len: u8, iaid: u32) -> Self
        ensures { result ≡ record {
          iaid = iaid;
          t1_sec = 0;
          t2_sec = 0;
          prefix = Some (ia.plain_prefix ia.unspecified prefix_len 0 0);
          status = None;
        } }
    {
        let prefix = DhcpV6OptionIaPrefix::new(Ipv6Addr::UNSPECIFIED, prefix_len, 0, 0);
        DhcpV6OptionIaPd::new(iaid, 0, 0, prefix)
    }

    /// An association with times 0 and nothing inside. Does not allocate.
    pub fn empty(iaid: u32) -> Self
        ensures { result ≡ record {
          iaid = iaid;
          t1_sec = 0;
          t2_sec = 0;
          prefix = None;
          status = None;
        } }
    {
        DhcpV6OptionIaPd {
            iaid,
            t1_sec: 0,
            t2_sec: 0,
            prefix: None,
            status: None,
        }
    }

    // The association of an option's value. `InvalidDhcpMessage` if and only if its fixed part is
    // truncated, options do not fill the rest, or one of these is neither a prefix nor a status, or
    // has no reading.
    #[tactic(auto, unfolding(crate::specs::Ia::ia_pd_in))]
    pub(crate) fn parse(alloc: Global, value: &[u8]) -> Result<Self, DhcpError>
        ensures { Gives (λ ia. ia) result
            (ok_or (ia.ia_pd_in value.now) ErrorKind.InvalidDhcpMessage) }
    {
        let mut rest = Buffer::new(value);
        let iaid = rest.get_u32_be()?;
        let t1_sec = rest.get_u32_be()?;
        let t2_sec = rest.get_u32_be()?;
        let inside = InsideIa::parse(alloc, rest.get_remains())?;
        Ok(DhcpV6OptionIaPd {
            iaid,
            t1_sec,
            t2_sec,
            prefix: inside.address,
            status: inside.status,
        })
    }

    /// Whether the prefix is there, and neither it nor the association has a status other than
    /// `Success`.
    pub fn is_success(&self) -> bool
        ensures { result ≡ ia.is_delegated self.now.prefix self.now.status }
    {
        match &self.prefix {
            Some(prefix) => is_no_failure(&prefix.status) && is_no_failure(&self.status),
            None => false,
        }
    }

    /// A copy; out of memory is the only error.
    pub fn try_clone(&self, alloc: Global) -> Result<Self, DhcpError>
        ensures { Makes (λ made. made) result self.now }
    {
        Ok(DhcpV6OptionIaPd {
            iaid: self.iaid,
            t1_sec: self.t1_sec,
            t2_sec: self.t2_sec,
            prefix: copied(alloc, self.prefix.as_ref())?,
            status: copied(alloc, self.status.as_ref())?,
        })
    }
}

impl DhcpV6OptionIaPd {
    // Writes the value.
    #[tactic(auto, unfolding(crate::specs::Ia::written_ia_pd))]
    pub(crate) fn emit(&self, buf: &mut BufferMut) -> Result<(), DhcpError>
        ensures { Emits result buf.old buf.new (ia.written_ia_pd self.now) }
    {
        emit_all(&[self.iaid, self.t1_sec, self.t2_sec], buf)?;
        emit_if_some(IA_PREFIX, &self.prefix, buf)?;
        emit_if_some(STATUS_CODE, &self.status, buf)
    }

    // How many bytes the written value has; the greatest `usize` if there are more.
    #[tactic(auto, unfolding(crate::specs::Ia::written_ia_pd))]
    pub(crate) fn written_len(&self) -> usize
        ensures { result ≡ min (length (ia.written_ia_pd self.now)) (2 ^ 64 - 1) }
    {
        (12 + len_if_some(&self.prefix)).saturating_add(status_len(&self.status))
    }
}

impl TryClone for DhcpV6OptionIaPd {
    fn try_clone(&self, alloc: Global) -> Result<Self, DhcpError> {
        DhcpV6OptionIaPd::try_clone(self, alloc)
    }
}
