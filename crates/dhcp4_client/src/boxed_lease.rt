//! A lease that a server offers or grants.

ghost use Rattle.std.specs.Prelude.{◌≡◌, IfOk};

use dhcp4_lease::DhcpV4Lease;
use std::alloc::{AllocError, Global};
use std::marker::Model;

/// A lease that a server offers or grants, in a box of its own: a lease is large, and this one is
/// handed on from call to call. Contracts see it as the lease.
#[derive(Drop)]
pub struct BoxedLease {
    lease: Box<DhcpV4Lease>,
}

impl Model for BoxedLease {
    ghost use Rattle.std.specs.Coded.{codes};
    ghost use Rattle.dhcp4_lease.specs.contracts.lease.DhcpV4Lease as lease_model;
    ghost use Rattle.dhcp4_lease.specs.Lease.{Lease};

    ghost Value = { Lease };

    ghost coded = { Prim.hlevel (codes, lease_model.the_row.coded) };

    ghost view = { λ boxed. boxed.lease.value };
}

impl BoxedLease {
    /// A lease that is granted. Out of memory is the only error.
    pub fn new(alloc: Global, lease: DhcpV4Lease) -> Result<Self, AllocError>
        ensures { IfOk result (λ boxed. boxed ≡ lease) }
    {
        Ok(BoxedLease {
            lease: Box::new(alloc, lease)?,
        })
    }

    /// The lease.
    pub fn lease(&self) -> &DhcpV4Lease
        ensures { result.now ≡ self.now }
    {
        &self.lease
    }

    /// The lease in its box. Does not allocate.
    pub fn into_box(self) -> Box<DhcpV4Lease>
        ensures { result.value ≡ self }
    {
        self.lease
    }
}
