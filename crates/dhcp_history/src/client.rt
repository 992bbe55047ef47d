//! A client: its state, and where it stands in it.

ghost use Rattle.std.specs.Prelude.{◌<◌, ◌^◌};

/// How far a client has come in its state.
#[derive(Clone, Copy, Debug, PartialEq, Eq)]
pub enum Phase {
    /// It was not polled in this state yet.
    Unpolled,
    /// It was polled, and has sent nothing yet.
    Pausing,
    /// The link took its last message: the attempt is open, and a packet may answer it.
    Listening,
    /// The link refused its last message: no packet is taken until it takes one.
    Resting,
    /// Its time limit is over: it keeps that error until a clean-up, or a release that the link
    /// takes.
    Stopped,
}

/// Where a client stands in its state. Moments are in milliseconds.
#[derive(Clone, Copy)]
pub struct Standing<X> {
    /// The exchange with the servers.
    pub exchange: X,
    /// The moment of the first poll in this state; 0 before it.
    pub entered: u64,
    /// How far the client has come in it.
    pub phase: Phase,
    /// The moment from which the next attempt is due; none before the first poll in this state, and
    /// in a state in which the client does not send.
    pub deadline: Option<u64>,
}

/// A client of some rules.
#[derive(Drop)]
pub struct Client<S, X> {
    /// The state it is in, with the offer or lease that the state rests on.
    pub state: S,
    /// Its time limit in each state in which it sends, in seconds from the first poll there; 0 is
    /// no limit.
    pub timeout_sec: u32,
    /// Where it stands in its state.
    pub standing: Standing<X>,
    /// The last moment that was given to it, in milliseconds; 0 where there was none. A release
    /// that is out of memory leaves it, and so does a poll, unless it has sent its message.
    pub last_moment: u64,
    ghost entered_in: { standing.entered < 2 ^ 60 },
}
