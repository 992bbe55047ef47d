//! What stands inside an identity association: an address or a prefix, and a status; RFC 8415
//! section 21.4.

ghost use Rattle.std.specs.Prelude.{◌≡◌, ◌⊎◌, None, Some, ok_or, MatchResult};
ghost use Rattle.dhcp_wire.specs.Error.{no_memory};
ghost use Rattle.dhcp_wire.specs.Outcome.{Gives};
ghost use Rattle.dhcp6_opt.specs.AddressKind.{AddressKind};
ghost use Rattle.dhcp6_opt.specs.Ia as ia;
ghost use Rattle.dhcp6_opt.specs.RawOption.{parts_of};

use super::{DhcpV6OptionIaAddr, DhcpV6OptionIaPrefix};
use crate::DhcpV6OptionStatus;
use crate::status::STATUS_CODE;
use dhcp_wire::{DhcpError, ErrorKind, FixedText, OptionFormat, RawOption};
use std::alloc::Global;

// The codes of the options that hold an address and a prefix.
pub(crate) const IA_ADDRESS: u16 = 5;

pub(crate) const IA_PREFIX: u16 = 26;

// A type of addresses that stand inside an association.
pub(crate) trait InnerAddress: Drop {
    // The code of its option, and how its value reads.
    ghost kind: { AddressKind Self };

    // The code of its option.
    fn option_code() -> u16
        ensures { result ≡ kind.code };

    // The reading of its value.
    fn read(alloc: Global, value: &[u8]) -> Result<Self, DhcpError>
        ensures { Gives (λ address. address) result
            (ok_or (kind.value_in value.now) ErrorKind.InvalidDhcpMessage) };
}

impl InnerAddress for DhcpV6OptionIaAddr {
    ghost kind = { ia.address_kind };

    fn option_code() -> u16 {
        IA_ADDRESS
    }

    fn read(alloc: Global, value: &[u8]) -> Result<Self, DhcpError> {
        DhcpV6OptionIaAddr::parse(alloc, value)
    }
}

impl InnerAddress for DhcpV6OptionIaPrefix {
    ghost kind = { ia.prefix_kind };

    fn option_code() -> u16 {
        IA_PREFIX
    }

    fn read(alloc: Global, value: &[u8]) -> Result<Self, DhcpError> {
        DhcpV6OptionIaPrefix::parse(alloc, value)
    }
}

// What stands inside an association: of each kind of option the last.
#[derive(Drop)]
pub(crate) struct InsideIa<A> {
    // The address or the prefix.
    pub(crate) address: Option<A>,
    // The status.
    pub(crate) status: Option<DhcpV6OptionStatus>,
}

impl<A: InnerAddress> InsideIa<A> {
    // What stands inside these bytes. `InvalidDhcpMessage` if and only if options do not fill them,
    // one may not stand there, or one has no reading.
    pub(crate) fn parse(alloc: Global, bytes: &[u8]) -> Result<Self, DhcpError>
        ensures { Gives (λ inside. inside) result
            (ok_or (ia.inside_in A.kind bytes.now) ErrorKind.InvalidDhcpMessage) }
    {
        let mut inside = InsideIa {
            address: None,
            status: None,
        };
        let mut rest = bytes;
        while !rest.is_empty() {
            let Some((raw, later)) = OptionFormat::DhcpV6.raw_option_at(rest) else {
                return Err(DhcpError::invalid_message(FixedText::Short));
            };
            inside.put(alloc, raw)?;
            rest = later;
        }
        Ok(inside)
    }

    // Puts in what an option reads as, in place of an earlier one of its code. `InvalidDhcpMessage`
    // if and only if it may not stand there, or has no reading.
    fn put(&mut self, alloc: Global, raw: RawOption) -> Result<(), DhcpError>
        ensures { MatchResult result
            (λ _. ia.with_inner A.kind self.old (parts_of raw.entry) ≡ Some self.new)
            (λ e. (e ≡ no_memory) ⊎ ((e.kind ≡ ErrorKind.InvalidDhcpMessage)
            × (ia.with_inner A.kind self.old (parts_of raw.entry) ≡ None))) }
    {
        if raw.code == A::option_code() {
            self.address = Some(A::read(alloc, raw.value)?);
            return Ok(());
        }
        if raw.code == STATUS_CODE {
            self.status = Some(DhcpV6OptionStatus::parse(alloc, raw.value)?);
            return Ok(());
        }
        Err(DhcpError::invalid_message(FixedText::Unreadable))
    }
}
