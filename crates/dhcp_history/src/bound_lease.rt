//! A lease with the moments of its times, RFC 2131 section 4.4.5 and RFC 8415 section 18.2.10.1.

ghost use Rattle.std.specs.Prelude.{◌≡◌, ◌<◌, ◌^◌};
ghost use Rattle.dhcp_history.specs.BoundLease as bounds;

use std::marker::Model;

/// A lease that a server granted, and since when its times count. Contracts see both.
#[derive(Drop)]
pub struct BoundLease<L> {
    lease: L,
    since: u64,
}

impl<L> Model for BoundLease<L> {
    ghost use Rattle.std.specs.Prelude.{◌<◌, ◌^◌};
    ghost use Rattle.dhcp_history.specs.BoundLease.{Bound};

    ghost Value = { Bound L };

    ghost view = { λ bound. record { lease = bound.lease; since = bound.since } };

    ghost invariant = { λ bound. bound.since < 2 ^ 60 };
}

impl<L> BoundLease<L> {
    /// A lease that was granted at this moment, in milliseconds.
    pub fn new(lease: L, now: u64) -> Self
        requires { now < 2 ^ 60 }
        ensures { result ≡ record { lease = lease; since = now } }
    {
        BoundLease { lease, since: now }
    }

    /// The lease.
    pub fn lease(&self) -> &L
        ensures { result.now ≡ self.now.lease }
    {
        &self.lease
    }

    /// The moment so many seconds after it was granted, in milliseconds.
    pub fn after(&self, seconds: u32) -> u64
        ensures moment { result ≡ bounds.after self.now seconds }
        ensures small { result < 2 ^ 61 }
    {
        self.since + 1000 * seconds as u64
    }
}
