//! A client that begins in a state, or is brought into one from outside.

ghost use Rattle.std.specs.Prelude.{◌≡◌};
ghost use Rattle.dhcp_history.specs.Client as standing;
ghost use Rattle.dhcp_history.specs.Client.{BeginsIn, Enters};

use crate::{Client, Phase, Standing};

impl<S: Drop, X: Copy> Client<S, X> {
    /// A client that begins in this state and was not polled there yet. The time limit is in
    /// seconds, and 0 is none; the moment, in milliseconds, is the last one given to the client.
    pub fn new(state: S, exchange: X, timeout_sec: u32, last_moment: u64) -> Self
        ensures { BeginsIn state exchange timeout_sec last_moment result }
    {
        Client {
            state,
            timeout_sec,
            standing: Standing::unpolled(exchange),
            last_moment,
        }
    }

    /// Brings the client into a state from outside, at a moment in milliseconds: it was not polled
    /// there yet. An error that is kept stays.
    pub fn enter(&mut self, state: S, exchange: X, now: u64)
        ensures { Enters state exchange now self.old self.new }
    {
        self.state = state;
        self.standing = self.standing.anew(exchange);
        self.last_moment = now;
    }
}

impl<X: Copy> Standing<X> {
    /// How a client stands that was not polled in its state yet.
    pub fn unpolled(exchange: X) -> Self
        ensures { result ≡ standing.unpolled exchange }
    {
        Standing {
            exchange,
            entered: 0,
            phase: Phase::Unpolled,
            deadline: None,
        }
    }

    /// How one stands that is brought into a state with this exchange from outside: it was not
    /// polled there yet, and an error that is kept stays.
    pub fn anew(self, exchange: X) -> Self
        ensures { result ≡ standing.standing_anew self.phase exchange }
    {
        Standing {
            exchange,
            entered: 0,
            phase: self.phase.anew(),
            deadline: None,
        }
    }
}

impl Phase {
    // Not polled yet, unless an error is kept.
    fn anew(self) -> Phase
        ensures { result ≡ standing.phase_anew self }
    {
        match self {
            Phase::Unpolled | Phase::Pausing | Phase::Listening | Phase::Resting => Phase::Unpolled,
            Phase::Stopped => Phase::Stopped,
        }
    }
}
