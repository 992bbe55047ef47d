//! The states of a client with what each rests on, RFC 8415 section 18.2.6.

use crate::given_info::GivenInfo;
use dhcp_history::BoundLease;

/// The state of a client, with the configuration that it rests on.
#[derive(Drop)]
pub enum ClientState {
    /// It asks for a configuration.
    Inform,
    /// It has this configuration, whose refresh time counts as that of a lease does.
    Done(BoundLease<GivenInfo>),
}

/// What a client keeps from one attempt to the next, RFC 8415 sections 15 and 16.1.
#[derive(Clone, Copy, Debug, PartialEq, Eq)]
pub struct Exchange {
    /// The transaction id that was drawn last, of three bytes; 0 if there was none.
    pub xid: u32,
    /// RTprev: the wait of the last attempt in the state, whether the link took it or refused it,
    /// in milliseconds; 0 if there was none.
    pub previous_wait: u32,
}

/// A lease that this client holds: there is none.
pub enum NoLease {}
