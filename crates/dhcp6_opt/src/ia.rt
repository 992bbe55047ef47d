//! Identity associations of addresses, RFC 8415 sections 21.4 and 21.5.

mod address;
mod inside;
mod pd;
mod prefix;

ghost use Rattle.std.specs.Prelude.{◌≡◌, ◌-◌, ◌^◌, length, min, ok_or, None, Some};
ghost use Rattle.dhcp_wire.specs.Outcome.{Emits, Gives, Makes};
ghost use Rattle.dhcp6_opt.specs.Ia as ia;

use crate::DhcpV6OptionStatus;
use crate::status::{STATUS_CODE, is_no_failure, status_len};
use crate::written::{emit_all, emit_if_some, len_if_some};
pub use address::DhcpV6OptionIaAddr;
use dhcp_wire::{Buffer, BufferMut, DhcpError, ErrorKind, TryClone, copied};
use inside::{IA_ADDRESS, InsideIa};
pub use pd::DhcpV6OptionIaPd;
pub use prefix::DhcpV6OptionIaPrefix;
use std::alloc::Global;

/// An identity association for non-temporary addresses (IA_NA), RFC 8415 section 21.4.
#[derive(Debug, Drop, PartialEq, Eq, PartialOrd, Ord)]
pub struct DhcpV6OptionIaNa {
    /// The identifier of the association, unique among those of the client.
    pub iaid: u32,
    /// T1: after how many seconds the client renews; 0 leaves it to the client.
    pub t1_sec: u32,
    /// T2: after how many seconds the client rebinds; 0 leaves it to the client.
    pub t2_sec: u32,
    /// Its address, if it has one: the last where it was read.
    pub address: Option<DhcpV6OptionIaAddr>,
    /// Its status, if it says one: the last where it was read.
    pub status: Option<DhcpV6OptionStatus>,
}

impl DhcpV6OptionIaNa {
    /// An association with this address and without a status, its times in seconds. Does not
    /// allocate.
    pub fn new(iaid: u32, t1_sec: u32, t2_sec: u32, address: DhcpV6OptionIaAddr) -> Self
        ensures { result ≡ record {
          iaid = iaid;
          t1_sec = t1_sec;
          t2_sec = t2_sec;
          address = Some address;
          status = None;
        } }
    {
        DhcpV6OptionIaNa {
            iaid,
            t1_sec,
            t2_sec,
            address: Some(address),
            status: None,
        }
    }

    /// An association with times 0 and nothing inside. Does not allocate.
    pub fn empty(iaid: u32) -> Self
        ensures { result ≡ record {
          iaid = iaid;
          t1_sec = 0;
          t2_sec = 0;
          address = None;
          status = None;
        } }
    {
        DhcpV6OptionIaNa {
            iaid,
            t1_sec: 0,
            t2_sec: 0,
            address: None,
            status: None,
        }
    }

    // The association of an option's value. `InvalidDhcpMessage` if and only if its fixed part is
    // truncated, options do not fill the rest, or one of these is neither an address nor a status,
    // or has no reading.
    #[tactic(auto, unfolding(crate::specs::Ia::ia_na_in))]
    pub(crate) fn parse(alloc: Global, value: &[u8]) -> Result<Self, DhcpError>
        ensures { Gives (λ ia. ia) result
            (ok_or (ia.ia_na_in value.now) ErrorKind.InvalidDhcpMessage) }
    {
        let mut rest = Buffer::new(value);
        let iaid = rest.get_u32_be()?;
        let t1_sec = rest.get_u32_be()?;
        let t2_sec = rest.get_u32_be()?;
        let inside = InsideIa::parse(alloc, rest.get_remains())?;
        Ok(DhcpV6OptionIaNa {
            iaid,
            t1_sec,
            t2_sec,
            address: inside.address,
            status: inside.status,
        })
    }

    /// Whether the address is there, and neither it nor the association has a status other than
    /// `Success`.
    pub fn is_success(&self) -> bool
        ensures { result ≡ ia.is_granted self.now.address self.now.status }
    {
        is_granted(&self.address, &self.status)
    }

    /// A copy; out of memory is the only error.
    pub fn try_clone(&self, alloc: Global) -> Result<Self, DhcpError>
        ensures { Makes (λ made. made) result self.now }
    {
        Ok(DhcpV6OptionIaNa {
            iaid: self.iaid,
            t1_sec: self.t1_sec,
            t2_sec: self.t2_sec,
            address: copied(alloc, self.address.as_ref())?,
            status: copied(alloc, self.status.as_ref())?,
        })
    }
}

impl DhcpV6OptionIaNa {
    // Writes the value.
    #[tactic(auto, unfolding(crate::specs::Ia::written_ia_na))]
    pub(crate) fn emit(&self, buf: &mut BufferMut) -> Result<(), DhcpError>
        ensures { Emits result buf.old buf.new (ia.written_ia_na self.now) }
    {
        emit_all(&[self.iaid, self.t1_sec, self.t2_sec], buf)?;
        emit_if_some(IA_ADDRESS, &self.address, buf)?;
        emit_if_some(STATUS_CODE, &self.status, buf)
    }

    // How many bytes the written value has; the greatest `usize` if there are more.
    #[tactic(auto, unfolding(crate::specs::Ia::written_ia_na))]
    pub(crate) fn written_len(&self) -> usize
        ensures { result ≡ min (length (ia.written_ia_na self.now)) (2 ^ 64 - 1) }
    {
        (12 + len_if_some(&self.address)).saturating_add(status_len(&self.status))
    }
}

impl TryClone for DhcpV6OptionIaNa {
    fn try_clone(&self, alloc: Global) -> Result<Self, DhcpError> {
        DhcpV6OptionIaNa::try_clone(self, alloc)
    }
}

/// An identity association for temporary addresses (IA_TA), RFC 8415 section 21.5.
#[derive(Debug, Drop, PartialEq, Eq, PartialOrd, Ord)]
pub struct DhcpV6OptionIaTa {
    /// The identifier of the association, unique among those of the client.
    pub iaid: u32,
    /// Its address, if it has one: the last where it was read.
    pub address: Option<DhcpV6OptionIaAddr>,
    /// Its status, if it says one: the last where it was read.
    pub status: Option<DhcpV6OptionStatus>,
}

impl DhcpV6OptionIaTa {
    /// An association with this address and without a status. Does not allocate.
    pub fn new(iaid: u32, address: DhcpV6OptionIaAddr) -> Self
        ensures { result ≡ record {
          iaid = iaid;
          address = Some address;
          status = None;
        } }
    {
        DhcpV6OptionIaTa {
            iaid,
            address: Some(address),
            status: None,
        }
    }

    /// An association with nothing inside. Does not allocate.
    pub fn empty(iaid: u32) -> Self
        ensures { result ≡ record {
          iaid = iaid;
          address = None;
          status = None;
        } }
    {
        DhcpV6OptionIaTa {
            iaid,
            address: None,
            status: None,
        }
    }

    // The association of an option's value. `InvalidDhcpMessage` if and only if its fixed part is
    // truncated, options do not fill the rest, or one of these is neither an address nor a status,
    // or has no reading.
    #[tactic(auto, unfolding(crate::specs::Ia::ia_ta_in))]
    pub(crate) fn parse(alloc: Global, value: &[u8]) -> Result<Self, DhcpError>
        ensures { Gives (λ ia. ia) result
            (ok_or (ia.ia_ta_in value.now) ErrorKind.InvalidDhcpMessage) }
    {
        let mut rest = Buffer::new(value);
        let iaid = rest.get_u32_be()?;
        let inside = InsideIa::parse(alloc, rest.get_remains())?;
        Ok(DhcpV6OptionIaTa {
            iaid,
            address: inside.address,
            status: inside.status,
        })
    }

    /// Whether the address is there, and neither it nor the association has a status other than
    /// `Success`.
    pub fn is_success(&self) -> bool
        ensures { result ≡ ia.is_granted self.now.address self.now.status }
    {
        is_granted(&self.address, &self.status)
    }

    /// A copy; out of memory is the only error.
    pub fn try_clone(&self, alloc: Global) -> Result<Self, DhcpError>
        ensures { Makes (λ made. made) result self.now }
    {
        Ok(DhcpV6OptionIaTa {
            iaid: self.iaid,
            address: copied(alloc, self.address.as_ref())?,
            status: copied(alloc, self.status.as_ref())?,
        })
    }
}

impl DhcpV6OptionIaTa {
    // Writes the value.
    #[tactic(auto, unfolding(crate::specs::Ia::written_ia_ta))]
    pub(crate) fn emit(&self, buf: &mut BufferMut) -> Result<(), DhcpError>
        ensures { Emits result buf.old buf.new (ia.written_ia_ta self.now) }
    {
        buf.write_u32_be(self.iaid)?;
        emit_if_some(IA_ADDRESS, &self.address, buf)?;
        emit_if_some(STATUS_CODE, &self.status, buf)
    }

    // How many bytes the written value has; the greatest `usize` if there are more.
    #[tactic(auto, unfolding(crate::specs::Ia::written_ia_ta))]
    pub(crate) fn written_len(&self) -> usize
        ensures { result ≡ min (length (ia.written_ia_ta self.now)) (2 ^ 64 - 1) }
    {
        (4 + len_if_some(&self.address)).saturating_add(status_len(&self.status))
    }
}

impl TryClone for DhcpV6OptionIaTa {
    fn try_clone(&self, alloc: Global) -> Result<Self, DhcpError> {
        DhcpV6OptionIaTa::try_clone(self, alloc)
    }
}

// Whether the address of an association is there, and neither it nor the association has a status
// other than `Success`.
fn is_granted(address: &Option<DhcpV6OptionIaAddr>, status: &Option<DhcpV6OptionStatus>) -> bool
    ensures { result ≡ ia.is_granted address.now status.now }
{
    match address {
        Some(address) => is_no_failure(&address.status) && is_no_failure(status),
        None => false,
    }
}
