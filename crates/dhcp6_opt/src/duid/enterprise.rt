//! Identifiers that a vendor assigns, RFC 8415 section 11.3.

ghost use Rattle.dhcp_wire.specs.Outcome.{Makes};

use dhcp_wire::{Bytes, DhcpError, TryClone};
use std::alloc::Global;

/// An identifier that a vendor assigns, RFC 8415 section 11.3.
#[derive(Debug, Drop, PartialEq, Eq, PartialOrd, Ord)]
pub struct DhcpV6DuidEnterpriseNumber {
    /// The private enterprise number of the vendor, which IANA assigns.
    pub enterprise_number: u32,
    /// The vendor's identifier.
    pub identifier: Bytes,
}

impl DhcpV6DuidEnterpriseNumber {
    /// The identifier of a vendor; out of memory is the only error.
    pub fn new(alloc: Global, enterprise_number: u32, identifier: &[u8]) -> Result<Self, DhcpError>
        ensures { Makes (λ made. made) result
            (record { enterprise_number = enterprise_number; identifier = identifier.now }) }
    {
        Ok(DhcpV6DuidEnterpriseNumber {
            enterprise_number,
            identifier: Bytes::from_slice(alloc, identifier)?,
        })
    }

    /// A copy; out of memory is the only error.
    pub fn try_clone(&self, alloc: Global) -> Result<Self, DhcpError>
        ensures { Makes (λ made. made) result self.now }
    {
        Ok(DhcpV6DuidEnterpriseNumber {
            enterprise_number: self.enterprise_number,
            identifier: self.identifier.try_clone(alloc)?,
        })
    }
}

impl TryClone for DhcpV6DuidEnterpriseNumber {
    fn try_clone(&self, alloc: Global) -> Result<Self, DhcpError> {
        DhcpV6DuidEnterpriseNumber::try_clone(self, alloc)
    }
}
