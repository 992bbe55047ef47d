//! The events of a script, and what a client reports of them.

/// What comes at an event, besides its polls.
#[derive(Debug, Drop)]
pub enum Input<P> {
    /// Nothing: time has passed.
    Nothing,
    /// A packet waits at the link.
    Arrival(P),
    /// The user asks for the release of the lease that is held.
    Release,
    /// The user asks for a clean-up.
    CleanUp,
}

/// An event of a script.
#[derive(Debug, Drop)]
pub struct NumberedEvent<P> {
    /// Its number, by which what is reported names it.
    pub number: u32,
    /// Its moment, in milliseconds.
    pub moment: u64,
    /// Whether the link refuses what is sent at this event.
    pub refuse: bool,
    /// What comes.
    pub input: Input<P>,
}

/// An error that is reported.
#[derive(Clone, Copy, Debug, PartialEq, Eq)]
pub enum Failure {
    /// The time limit of the client is over.
    TimedOut,
    /// The link refused the message of a release.
    SendRefused,
}

/// What a client reports, `S` being what is reported of its state and `M` a message.
#[derive(Debug, Drop)]
pub enum Report<S, M> {
    /// The link took this message.
    Handed(M),
    /// The link refused this message.
    Refused(M),
    /// The client has changed to this state.
    Changed(S),
    /// An error.
    Failed(Failure),
}

/// A report, with the number of its event.
#[derive(Debug, Drop)]
pub struct NumberedReport<S, M> {
    /// The number of the event.
    pub event: u32,
    /// What is reported of it.
    pub report: Report<S, M>,
}
