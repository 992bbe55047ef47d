//! A lease that a server offered or granted, or that a client held before, and the moments of its
//! times, RFC 8415 sections 14.2 and 18.2.10.1.

ghost use Rattle.std.specs.Prelude.{◌≡◌, ◌≤◌, ◌<◌, ◌^◌, IfOk, length};
ghost use Rattle.dhcp_history.specs.BoundLease.{after};
ghost use Rattle.dhcp6_opt.specs.Duid.{written_duid};

use dhcp_history::BoundLease;
use dhcp6_msg::DhcpV6Lease;
use std::alloc::{AllocError, Global};
use std::marker::Model;

/// A lease whose messages can be built: its server's identifier fits its option, with at most
/// 65,535 bytes. Contracts see it as the lease.
#[derive(Drop)]
pub struct GrantedLease {
    lease: DhcpV6Lease,
}

impl Model for GrantedLease {
    ghost use Rattle.std.specs.Prelude.{◌≤◌, length};
    ghost use Rattle.std.specs.Coded.{codes};
    ghost use Rattle.dhcp6_msg.specs.contracts.lease.DhcpV6Lease as lease_model;
    ghost use Rattle.dhcp6_msg.specs.Lease.{Lease};
    ghost use Rattle.dhcp6_opt.specs.Duid.{written_duid};

    ghost Value = { Lease };

    ghost coded = { Prim.hlevel (codes, lease_model.the_row.coded) };

    ghost view = { λ granted. granted.lease };

    ghost invariant = { λ granted. length (written_duid granted.lease.srv_duid) ≤ 65535 };
}

impl GrantedLease {
    /// A lease whose server's identifier has at most 65,535 bytes.
    pub fn new(lease: DhcpV6Lease) -> Self
        requires { length (written_duid lease.srv_duid) ≤ 65535 }
        ensures { result ≡ lease }
    {
        GrantedLease { lease }
    }

    /// The lease.
    pub fn lease(&self) -> &DhcpV6Lease
        ensures same { result.now ≡ self.now }
        ensures server { length (written_duid result.now.srv_duid) ≤ 65535 }
    {
        &self.lease
    }
}

/// Such a lease as a packet grants it, in a box of its own: a lease is large, and this one is
/// handed on from call to call. Contracts see it as the lease.
#[derive(Drop)]
pub struct BoxedLease {
    lease: Box<DhcpV6Lease>,
}

impl Model for BoxedLease {
    ghost use Rattle.std.specs.Prelude.{◌≤◌, length};
    ghost use Rattle.std.specs.Coded.{codes};
    ghost use Rattle.dhcp6_msg.specs.contracts.lease.DhcpV6Lease as lease_model;
    ghost use Rattle.dhcp6_msg.specs.Lease.{Lease};
    ghost use Rattle.dhcp6_opt.specs.Duid.{written_duid};

    ghost Value = { Lease };

    ghost coded = { Prim.hlevel (codes, lease_model.the_row.coded) };

    ghost view = { λ boxed. boxed.lease.value };

    ghost invariant = { λ boxed. length (written_duid boxed.lease.value.srv_duid) ≤ 65535 };
}

impl BoxedLease {
    /// A lease whose server's identifier has at most 65,535 bytes. Out of memory is the only error.
    pub fn new(alloc: Global, lease: DhcpV6Lease) -> Result<Self, AllocError>
        requires { length (written_duid lease.srv_duid) ≤ 65535 }
        ensures { IfOk result (λ boxed. boxed ≡ lease) }
    {
        Ok(BoxedLease {
            lease: Box::new(alloc, lease)?,
        })
    }

    /// A copy without a box. Out of memory is the only error.
    pub fn to_granted(&self, alloc: Global) -> Result<GrantedLease, AllocError>
        ensures { IfOk result (λ granted. granted ≡ self.now) }
    {
        // not by map_err, which copies the lease once more
        match self.lease.try_clone(alloc) {
            Ok(lease) => Ok(GrantedLease::new(lease)),
            Err(_) => Err(AllocError),
        }
    }

    /// The lease without its box. Does not allocate.
    pub fn into_granted(self) -> GrantedLease
        ensures { result ≡ self }
    {
        GrantedLease::new(Box::into_inner(self.lease))
    }

    /// The lease in its box. Does not allocate.
    pub fn into_box(self) -> Box<DhcpV6Lease>
        ensures { result.value ≡ self }
    {
        self.lease
    }
}

/// The moment of T1, in milliseconds.
pub fn renewal(bound: &BoundLease<GrantedLease>) -> u64
    ensures moment { result ≡ after bound.now bound.now.lease.t1_sec }
    ensures small { result < 2 ^ 61 }
{
    bound.after(bound.lease().lease().t1_sec)
}

/// The moment of T2, in milliseconds.
pub fn rebinding(bound: &BoundLease<GrantedLease>) -> u64
    ensures moment { result ≡ after bound.now bound.now.lease.t2_sec }
    ensures small { result < 2 ^ 61 }
{
    bound.after(bound.lease().lease().t2_sec)
}

/// The moment at which its address or prefix is no longer valid, in milliseconds.
pub fn expiry(bound: &BoundLease<GrantedLease>) -> u64
    ensures moment { result ≡ after bound.now bound.now.lease.valid_time_sec }
    ensures small { result < 2 ^ 61 }
{
    bound.after(bound.lease().lease().valid_time_sec)
}
