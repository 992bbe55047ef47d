//! The states of a client with what each rests on, RFC 2131 figure 5.

ghost use Rattle.std.specs.Prelude.{◌≡◌};
ghost use Rattle.dhcp_wire.specs.Outcome.{Finds};
ghost use Rattle.dhcp_history.specs.BoundLease.{after};
ghost use Rattle.dhcp4_client.specs.Rules as table;

use dhcp_history::BoundLease;
use dhcp4_lease::DhcpV4Lease;

/// The state of a client, with the offer or lease that it rests on.
#[derive(Drop)]
pub enum ClientState {
    /// INIT and SELECTING: it sends Discover messages and awaits offers.
    InitReboot,
    /// REQUESTING: it requests the lease of this offer.
    Selecting(DhcpV4Lease),
    /// INIT-REBOOT and REBOOTING: it requests this lease, which it held before and which no server
    /// has confirmed yet.
    Rebooting(DhcpV4Lease),
    /// BOUND: T1 of this lease is still to come.
    Done(BoundLease<DhcpV4Lease>),
    /// RENEWING: T1 of this lease is past, and T2 is still to come.
    Renewing(BoundLease<DhcpV4Lease>),
    /// REBINDING: T2 of this lease is past, and its end is still to come.
    Rebinding(BoundLease<DhcpV4Lease>),
}

impl ClientState {
    /// The lease that is held. In REBOOTING no server has confirmed it yet.
    pub fn held_lease(&self) -> Option<&DhcpV4Lease>
        ensures { Finds (λ lease. lease.now) result (table.held_lease self.now) }
    {
        match self {
            ClientState::InitReboot => None,
            ClientState::Selecting(_) => None,
            ClientState::Rebooting(held) => Some(held),
            ClientState::Done(bound) => Some(bound.lease()),
            ClientState::Renewing(bound) => Some(bound.lease()),
            ClientState::Rebinding(bound) => Some(bound.lease()),
        }
    }

    /// The moment at which the lease that is held ends, in milliseconds. In REBOOTING its time does
    /// not count yet.
    pub fn lease_end(&self) -> Option<u64>
        ensures { result ≡ table.lease_end self.now }
    {
        match self {
            ClientState::InitReboot => None,
            ClientState::Selecting(_) => None,
            ClientState::Rebooting(_) => None,
            ClientState::Done(bound) => Some(end_of(bound)),
            ClientState::Renewing(bound) => Some(end_of(bound)),
            ClientState::Rebinding(bound) => Some(end_of(bound)),
        }
    }
}

// The moment at which a lease ends.
fn end_of(bound: &BoundLease<DhcpV4Lease>) -> u64
    ensures { result ≡ after bound.now bound.now.lease.lease_time_sec }
{
    bound.after(bound.lease().lease_time_sec)
}

/// What a client keeps from one attempt to the next.
#[derive(Clone, Copy, Debug, PartialEq, Eq)]
pub struct Exchange {
    /// The transaction id, which the client drew at its start.
    pub xid: u32,
    /// How many attempts that the link took had no answer when their wait was over, since `init`,
    /// or since the client last entered BOUND or REBINDING, or by the forms of RFC 2131 REQUESTING;
    /// by those of mozim it counts on from INIT to REQUESTING. A Nack, the last request in
    /// REQUESTING or REBOOTING, the end of a lease, a clean-up and a release lead to INIT with the
    /// count as it is. It stays at 2^32 - 1 once it is there.
    pub retry_count: u32,
}
