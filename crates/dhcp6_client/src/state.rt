//! The states of a client, RFC 8415 section 18.2.

ghost use Rattle.std.specs.Prelude.{◌≡◌, Some};
ghost use Rattle.dhcp_wire.specs.Outcome.{Makes};
ghost use Rattle.dhcp6_client.specs.State.{is_done, plain_state, state_text};

use dhcp_history::Plain;
use dhcp_wire::DhcpError;
use dhcp6_msg::DhcpV6Lease;
use std::alloc::Global;
use std::fmt;

/// The state of a client, RFC 8415 section 18.2. The default is `Solicit`.
#[derive(Debug, Default, PartialEq, Eq, Drop)]
pub enum DhcpV6State {
    /// It has this lease, and need not renew it yet.
    Done(Box<DhcpV6Lease>),
    /// It searches for servers.
    #[default]
    Solicit,
    /// It requests the lease of an offer.
    Request,
    /// T1 is past, and it asks the server of its lease to renew it.
    Renew,
    /// T2 is past, and it asks any server to extend its lease.
    Rebind,
}

impl DhcpV6State {
    /// Whether the client is done: it has a lease that it need not renew yet.
    pub fn is_done(&self) -> bool
        ensures { result ≡ is_done self.now }
    {
        matches!(self, DhcpV6State::Done(_))
    }

    /// A copy. Out of memory is the only error.
    pub fn try_clone(&self, alloc: Global) -> Result<Self, DhcpError>
        ensures { Makes plain_state result (plain_state self.now) }
    {
        match self {
            DhcpV6State::Done(lease) => {
                let copy = lease.try_clone(alloc)?;
                Ok(DhcpV6State::Done(Box::new(alloc, copy)?))
            }
            DhcpV6State::Solicit => Ok(DhcpV6State::Solicit),
            DhcpV6State::Request => Ok(DhcpV6State::Request),
            DhcpV6State::Renew => Ok(DhcpV6State::Renew),
            DhcpV6State::Rebind => Ok(DhcpV6State::Rebind),
        }
    }
}

impl fmt::Display for DhcpV6State {
    ghost output = { λ state. Some (state_text state) };

    #[tactic(auto, unfolding(crate::specs::State::state_text))]
    fn fmt<W: fmt::Write>(&self, f: &mut fmt::Formatter<W>) -> fmt::Result {
        match self {
            DhcpV6State::Done(lease) => {
                let address = lease.address;
                write!(f, "done({address})")
            }
            DhcpV6State::Solicit => f.write_str("solicit"),
            DhcpV6State::Request => f.write_str("request"),
            DhcpV6State::Renew => f.write_str("renew"),
            DhcpV6State::Rebind => f.write_str("rebind"),
        }
    }
}

/// What contracts compare of a state: its lease itself, wherever the state keeps it. No program
/// makes one.
#[derive(Drop)]
pub enum PlainState {
    /// It has this lease.
    Done(DhcpV6Lease),
    /// It searches for servers.
    Solicit,
    /// It requests the lease of an offer.
    Request,
    /// It asks the server of its lease to renew it.
    Renew,
    /// It asks any server to extend its lease.
    Rebind,
}

impl Plain for DhcpV6State {
    ghost use Rattle.dhcp6_client.specs.State.{plain_state};

    type Contents = PlainState;

    ghost contents = { plain_state };
}
