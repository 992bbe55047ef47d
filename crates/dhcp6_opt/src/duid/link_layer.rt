//! Identifiers with a link-layer address, RFC 8415 sections 11.2 and 11.4.

ghost use Rattle.std.specs.Prelude.{◌≡◌};
ghost use Rattle.dhcp_wire.specs.Outcome.{Makes};
ghost use Rattle.dhcp6_opt.specs.Duid.{duid_time};

use dhcp_wire::{Bytes, DhcpError, TryClone};
use std::alloc::Global;
use std::marker::Model;

// How many seconds there are from 1970 to 2000.
const SECONDS_TO_2000: u64 = 946_684_800;

/// A link-layer address and the time at which the identifier was made, RFC 8415 section 11.2.
#[derive(Debug, Drop, PartialEq, Eq, PartialOrd, Ord)]
pub struct DhcpV6DuidLinkLayerAddrPlusTime {
    /// The hardware type that IANA assigns, RFC 826: 1 for Ethernet.
    pub hardware_type: u16,
    /// Seconds since midnight (UTC) of 1 January 2000, modulo 2^32.
    pub time: u32,
    /// The address, of as many bytes as its hardware type has.
    pub link_layer_address: Bytes,
}

impl DhcpV6DuidLinkLayerAddrPlusTime {
    /// The identifier of an address that is made at this second since midnight (UTC) of 1 January
    /// 1970; before the year 2000 its time is 0. Out of memory is the only error.
    pub fn new(
        alloc: Global,
        hardware_type: u16,
        link_layer_address: &[u8],
        unix_sec: u64,
    ) -> Result<Self, DhcpError>
        ensures { Makes (λ made. made) result (record {
          hardware_type = hardware_type;
          time = duid_time unix_sec;
          link_layer_address = link_layer_address.now;
        }) }
    {
        let seconds = unix_sec.saturating_sub(SECONDS_TO_2000) & 0xffff_ffff;
        Ok(DhcpV6DuidLinkLayerAddrPlusTime {
            hardware_type,
            time: seconds as u32,
            link_layer_address: Bytes::from_slice(alloc, link_layer_address)?,
        })
    }

    /// A copy; out of memory is the only error.
    pub fn try_clone(&self, alloc: Global) -> Result<Self, DhcpError>
        ensures { Makes (λ made. made) result self.now }
    {
        Ok(DhcpV6DuidLinkLayerAddrPlusTime {
            hardware_type: self.hardware_type,
            time: self.time,
            link_layer_address: self.link_layer_address.try_clone(alloc)?,
        })
    }
}

impl TryClone for DhcpV6DuidLinkLayerAddrPlusTime {
    fn try_clone(&self, alloc: Global) -> Result<Self, DhcpError> {
        DhcpV6DuidLinkLayerAddrPlusTime::try_clone(self, alloc)
    }
}

/// A link-layer address, RFC 8415 section 11.4. Contracts see its hardware type and the bytes of
/// its address.
#[derive(Debug, Drop, PartialEq, Eq, PartialOrd, Ord)]
pub struct DhcpV6DuidLinkLayerAddr {
    hardware_type: u16,
    link_layer_address: Bytes,
}

impl Model for DhcpV6DuidLinkLayerAddr {
    ghost use Rattle.dhcp6_opt.specs.LinkLayerAddress.{LinkLayerAddressParts};

    ghost Value = { LinkLayerAddressParts };

    ghost view = { λ duid. record {
      hardware_type = duid.hardware_type;
      link_layer_address = duid.link_layer_address;
    } };

    ghost inverse = { λ parts. record {
      hardware_type = parts.hardware_type;
      link_layer_address = parts.link_layer_address;
    } };
}

impl DhcpV6DuidLinkLayerAddr {
    /// The identifier of an address; out of memory is the only error.
    pub fn new(
        alloc: Global,
        hardware_type: u16,
        link_layer_address: &[u8],
    ) -> Result<Self, DhcpError>
        ensures { Makes (λ made. made) result (record {
          hardware_type = hardware_type;
          link_layer_address = link_layer_address.now;
        }) }
    {
        Ok(DhcpV6DuidLinkLayerAddr {
            hardware_type,
            link_layer_address: Bytes::from_slice(alloc, link_layer_address)?,
        })
    }

    /// A copy; out of memory is the only error.
    pub fn try_clone(&self, alloc: Global) -> Result<Self, DhcpError>
        ensures { Makes (λ made. made) result self.now }
    {
        Ok(DhcpV6DuidLinkLayerAddr {
            hardware_type: self.hardware_type,
            link_layer_address: self.link_layer_address.try_clone(alloc)?,
        })
    }
}

impl DhcpV6DuidLinkLayerAddr {
    // The identifier of these parts.
    pub(crate) fn of_parts(hardware_type: u16, link_layer_address: Bytes) -> Self
        ensures { result ≡ record {
          hardware_type = hardware_type;
          link_layer_address = link_layer_address;
        } }
    {
        DhcpV6DuidLinkLayerAddr {
            hardware_type,
            link_layer_address,
        }
    }

    // Its hardware type.
    pub(crate) fn hardware_type(&self) -> u16
        ensures { result ≡ self.now.hardware_type }
    {
        self.hardware_type
    }

    // Its address.
    pub(crate) fn link_layer_address(&self) -> &Bytes
        ensures { result.now ≡ self.now.link_layer_address }
    {
        &self.link_layer_address
    }
}

impl TryClone for DhcpV6DuidLinkLayerAddr {
    fn try_clone(&self, alloc: Global) -> Result<Self, DhcpError> {
        DhcpV6DuidLinkLayerAddr::try_clone(self, alloc)
    }
}
