//! The states of a client with what each rests on, RFC 8415 section 18.2.

ghost use Rattle.std.specs.Prelude.{◌≡◌, ◌≤◌, IfSome, length, option_copied};
ghost use Rattle.dhcp_wire.specs.Outcome.{Finds};
ghost use Rattle.dhcp6_opt.specs.Duid.{written_duid};
ghost use Rattle.dhcp6_client.specs.Rules as table;

use crate::granted_lease::{GrantedLease, expiry};
use dhcp_history::BoundLease;
use dhcp6_msg::DhcpV6Lease;

/// The state of a client, with the offer or lease that it rests on.
#[derive(Drop)]
pub enum ClientState {
    /// It searches for servers.
    Solicit,
    /// It requests the lease of this offer.
    Request(GrantedLease),
    /// It has this lease, whose T1 is still to come.
    Done(BoundLease<GrantedLease>),
    /// It has this lease, whose end is still to come, and asks for temporary addresses, which are
    /// not renewed.
    Temporary(BoundLease<GrantedLease>),
    /// T1 of this lease is past, and T2 is still to come.
    Renew(BoundLease<GrantedLease>),
    /// T2 of this lease is past, and its end is still to come.
    Rebind(BoundLease<GrantedLease>),
}

impl ClientState {
    /// The lease that is held.
    pub fn held_lease(&self) -> Option<&DhcpV6Lease>
        ensures found { Finds (λ lease. lease.now) result (table.held_lease self.now) }
        ensures server { IfSome (option_copied result)
            (λ lease. length (written_duid lease.srv_duid) ≤ 65535) }
    {
        match self {
            ClientState::Solicit => None,
            ClientState::Request(_) => None,
            ClientState::Done(bound) => Some(bound.lease().lease()),
            ClientState::Temporary(bound) => Some(bound.lease().lease()),
            ClientState::Renew(bound) => Some(bound.lease().lease()),
            ClientState::Rebind(bound) => Some(bound.lease().lease()),
        }
    }

    /// The moment at which the valid lifetime of the lease that is held ends, in milliseconds.
    pub fn lease_end(&self) -> Option<u64>
        ensures { result ≡ table.lease_end self.now }
    {
        match self {
            ClientState::Solicit => None,
            ClientState::Request(_) => None,
            ClientState::Done(bound) => Some(expiry(bound)),
            ClientState::Temporary(bound) => Some(expiry(bound)),
            ClientState::Renew(bound) => Some(expiry(bound)),
            ClientState::Rebind(bound) => Some(expiry(bound)),
        }
    }
}

/// What a client keeps from one attempt to the next, RFC 8415 sections 15 and 16.1.
#[derive(Clone, Copy, Debug, PartialEq, Eq)]
pub struct Exchange {
    /// The transaction id that was drawn last, of three bytes.
    pub xid: u32,
    /// RC: how many attempts that the link took had no answer when their wait was over, since the
    /// state was entered, or since `reset_retransmit_counters` within it. It stays at 2^32 - 1 once
    /// it is there.
    pub retransmit_count: u32,
    /// RTprev: the wait of the last attempt since then, whether the link took it or refused it, in
    /// milliseconds; 0 if there was none.
    pub previous_wait: u32,
    /// The moment from which the elapsed time counts, if it comes after the first poll of the stay;
    /// in milliseconds.
    pub counted_from: u64,
}
