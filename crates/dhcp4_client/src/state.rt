//! The states of a client, RFC 2131 section 4.4.

ghost use Rattle.std.specs.Prelude.{◌≡◌, Some};
ghost use Rattle.dhcp_wire.specs.Outcome.{Makes};
ghost use Rattle.dhcp4_client.specs.State.{is_done, plain_state, state_text};

use dhcp_history::Plain;
use dhcp_wire::DhcpError;
use dhcp4_lease::DhcpV4Lease;
use std::alloc::Global;
use std::fmt;

/// The state of a client; each variant names its states of RFC 2131 figure 5. The default is
/// `InitReboot`.
#[derive(Debug, Default, PartialEq, Drop)]
pub enum DhcpV4State {
    /// BOUND: it has this lease, and T1 is still to come.
    Done(Box<DhcpV4Lease>),
    /// INIT and SELECTING: it sends Discover messages and awaits offers.
    #[default]
    InitReboot,
    /// REQUESTING: it requests the lease of an offer. Or INIT-REBOOT and REBOOTING: it requests a
    /// lease that it held before.
    Selecting,
    /// RENEWING: T1 is past, and it asks the server of its lease to renew it.
    Renewing,
    /// REBINDING: T2 is past, and it asks any server to extend its lease.
    Rebinding,
}

impl DhcpV4State {
    /// Whether the client is done: it has a lease that it need not renew yet.
    pub fn is_done(&self) -> bool
        ensures { result ≡ is_done self.now }
    {
        matches!(self, DhcpV4State::Done(_))
    }

    /// A copy. Out of memory is the only error.
    pub fn try_clone(&self, alloc: Global) -> Result<Self, DhcpError>
        ensures { Makes plain_state result (plain_state self.now) }
    {
        match self {
            DhcpV4State::Done(lease) => {
                let copy = lease.try_clone(alloc)?;
                Ok(DhcpV4State::Done(Box::new(alloc, copy)?))
            }
            DhcpV4State::InitReboot => Ok(DhcpV4State::InitReboot),
            DhcpV4State::Selecting => Ok(DhcpV4State::Selecting),
            DhcpV4State::Renewing => Ok(DhcpV4State::Renewing),
            DhcpV4State::Rebinding => Ok(DhcpV4State::Rebinding),
        }
    }
}

impl fmt::Display for DhcpV4State {
    ghost output = { λ state. Some (state_text state) };

    #[tactic(auto, unfolding(crate::specs::State::state_text))]
    fn fmt<W: fmt::Write>(&self, f: &mut fmt::Formatter<W>) -> fmt::Result {
        match self {
            DhcpV4State::Done(lease) => {
                let address = lease.yiaddr;
                write!(f, "done({address})")
            }
            DhcpV4State::InitReboot => f.write_str("init_reboot"),
            DhcpV4State::Selecting => f.write_str("selecting"),
            DhcpV4State::Renewing => f.write_str("renewing"),
            DhcpV4State::Rebinding => f.write_str("rebinding"),
        }
    }
}

/// What contracts compare of a state: its lease itself, wherever the state keeps it. No program
/// makes one.
#[derive(Drop)]
pub enum PlainState {
    /// BOUND, with its lease.
    Done(DhcpV4Lease),
    /// INIT and SELECTING.
    InitReboot,
    /// REQUESTING; INIT-REBOOT and REBOOTING.
    Selecting,
    /// RENEWING.
    Renewing,
    /// REBINDING.
    Rebinding,
}

impl Plain for DhcpV4State {
    ghost use Rattle.dhcp4_client.specs.State.{plain_state};

    type Contents = PlainState;

    ghost contents = { plain_state };
}
