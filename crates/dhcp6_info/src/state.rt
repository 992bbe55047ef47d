//! The states of a client for configuration alone, RFC 8415 section 18.2.6.

ghost use Rattle.std.specs.Prelude.{◌≡◌, Some};
ghost use Rattle.dhcp_wire.specs.Outcome.{Makes};
ghost use Rattle.dhcp6_info.specs.State.{is_done, plain_state, state_text};

use crate::DhcpV6Info;
use dhcp_history::Plain;
use dhcp_wire::DhcpError;
use std::alloc::Global;
use std::fmt;

/// The state of a client, RFC 8415 section 18.2.6. The default is `Inform`.
#[derive(Debug, Default, PartialEq, Eq, Drop)]
pub enum DhcpV6InfoState {
    /// It has this configuration, and need not ask for it again yet.
    Done(Box<DhcpV6Info>),
    /// It asks for a configuration.
    #[default]
    Inform,
}

impl DhcpV6InfoState {
    /// Whether the client is done: it has a configuration that it need not ask for again yet.
    pub fn is_done(&self) -> bool
        ensures { result ≡ is_done self.now }
    {
        matches!(self, DhcpV6InfoState::Done(_))
    }

    /// A copy. Out of memory is the only error.
    pub fn try_clone(&self, alloc: Global) -> Result<Self, DhcpError>
        ensures { Makes plain_state result (plain_state self.now) }
    {
        match self {
            DhcpV6InfoState::Done(info) => {
                let copy = info.try_clone(alloc)?;
                Ok(DhcpV6InfoState::Done(Box::new(alloc, copy)?))
            }
            DhcpV6InfoState::Inform => Ok(DhcpV6InfoState::Inform),
        }
    }
}

impl fmt::Display for DhcpV6InfoState {
    ghost output = { λ state. Some (state_text state) };

    #[tactic(auto, unfolding(crate::specs::State::state_text))]
    fn fmt<W: fmt::Write>(&self, f: &mut fmt::Formatter<W>) -> fmt::Result {
        match self {
            DhcpV6InfoState::Done(_) => f.write_str("done"),
            DhcpV6InfoState::Inform => f.write_str("inform"),
        }
    }
}

/// What contracts compare of a state: its configuration itself, wherever the state keeps it. No
/// program makes one.
#[derive(Drop)]
pub enum PlainInfoState {
    /// It has this configuration.
    Done(DhcpV6Info),
    /// It asks for a configuration.
    Inform,
}

impl Plain for DhcpV6InfoState {
    ghost use Rattle.dhcp6_info.specs.State.{plain_state};

    type Contents = PlainInfoState;

    ghost contents = { plain_state };
}
