//! The rules of a protocol: one function for each column of its table of states.

ghost use Rattle.std.specs.Prelude.{◌≡◌, ◌<◌, ◌^◌, Bool, true, false, is_some, None, Ok, option_map, IfOk, OnOk, OnErr};
ghost use Rattle.dhcp_clock.specs.declared.link.Handed.{Handed};
ghost use Rattle.dhcp_clock.specs.declared.link.Packet.{Packet};
ghost use Rattle.dhcp_clock.specs.Words.{DrawsBy};
ghost use Rattle.dhcp_history.specs.Rules.{GivesDrawn, IsNext};
ghost use Rattle.dhcp_history.specs.Protocol.{Protocol};

use dhcp_clock::{Handed, Packet, Words};
use std::alloc::AllocError;

/// Where an attempt begins.
#[derive(Clone, Copy, Debug, PartialEq, Eq)]
pub struct AttemptStart {
    /// Whether it is the first attempt of its stay.
    pub is_first: bool,
    /// The moment at which the stay was entered, in milliseconds.
    pub entered: u64,
    /// Now, in milliseconds.
    pub now: u64,
}

/// An attempt: a message that is to be sent.
#[derive(Debug, Drop)]
pub struct NewAttempt<X, M> {
    /// How long an answer is awaited, in milliseconds.
    pub wait: u64,
    /// The message.
    pub message: M,
    /// The exchange from then on.
    pub exchange: X,
}

/// The rules of a protocol. Moments and waits are in milliseconds.
pub trait Rules {
    /// What the client reports of its state.
    type PublicState: Drop;
    /// The state of the client, with what it rests on: an offer, or a lease and the moment at which
    /// it was taken.
    type State: Drop;
    /// What is kept from one attempt to the next: the transaction id, how often the client has
    /// sent, its previous wait.
    type Exchange: Copy;
    /// What a packet answers: a lease, or the refusal of one.
    type Answer: Drop;
    /// A lease that is held.
    type Lease;

    /// The table of states.
    ghost protocol: { Self →
        Protocol Self.PublicState Packet Handed Self.State Self.Exchange Self.Answer Self.Lease };

    /// Whether a packet may answer an open attempt. Of one that may not, the reading gives nothing
    /// and is never out of memory.
    ghost may_answer: { Self → Self.State → Self.Exchange → Packet → Bool };

    /// The moment at which a state ends.
    fn ending_moment(&self, state: &Self::State) -> Option<u64>
        ensures { result ≡ (protocol self.now).ending_moment state.now };

    /// Whether the client sends in a state. There its time limit counts.
    fn has_attempts(&self, state: &Self::State) -> bool
        ensures { result ≡ (protocol self.now).has_attempts state.now };

    /// Whether the state ends once the wait of this attempt is over, if the link took it.
    fn is_last_attempt(&self, state: &Self::State, exchange: Self::Exchange) -> bool
        ensures { result ≡ (protocol self.now).is_last_attempt state.now exchange };

    /// The exchange once the wait of an attempt that the link took is over.
    fn after_wait(&self, exchange: Self::Exchange) -> Self::Exchange
        ensures { result ≡ (protocol self.now).after_wait exchange };

    /// How long the client waits in a state before it sends for the first time.
    fn pause<W: Words>(&self, state: &Self::State, exchange: Self::Exchange, words: &mut W) -> u64
        ensures drawn { GivesDrawn ((protocol self.now).pause state.now exchange)
            (W.left words.old) result (W.left words.new) }
        ensures taken { DrawsBy W.gives ((protocol self.now).pause state.now exchange)
            words.old result words.new }
        ensures below { result < 2 ^ 62 };

    /// An attempt in a state: its message, and how long an answer is awaited.
    fn attempt<W: Words>(
        &self,
        state: &Self::State,
        exchange: Self::Exchange,
        start: AttemptStart,
        words: &mut W,
    ) -> Result<NewAttempt<Self::Exchange, Handed>, AllocError>
        ensures drawn { IfOk result (λ attempt.
            GivesDrawn ((protocol self.now).attempt state.now exchange start)
            (W.left words.old) attempt (W.left words.new)) }
        ensures taken { IfOk result (λ attempt.
            DrawsBy W.gives ((protocol self.now).attempt state.now exchange start)
            words.old attempt words.new) }
        ensures below { IfOk result (λ attempt. attempt.wait < 2 ^ 62) };

    /// What a packet answers to an open attempt in a state, if it answers.
    fn reading<W: Words>(
        &self,
        state: &Self::State,
        exchange: Self::Exchange,
        packet: Packet,
        words: &mut W,
    ) -> Result<Option<Self::Answer>, AllocError>
        ensures drawn { IfOk result (λ answer.
            GivesDrawn ((protocol self.now).reading state.now exchange packet)
            (W.left words.old) answer (W.left words.new)) }
        ensures taken { IfOk result (λ answer.
            DrawsBy W.gives ((protocol self.now).reading state.now exchange packet)
            words.old answer words.new) }
        ensures free { may_answer self.now state.now exchange packet ≡ false → result ≡ Ok None };

    /// Goes to the state after an answer, and returns what is reported of it. When out of memory
    /// the state is unchanged.
    fn after_answer(
        &self,
        state: &mut Self::State,
        answer: Self::Answer,
        now: u64,
        exchange: &mut Self::Exchange,
    ) -> Result<Self::PublicState, AllocError>
        requires { now < 2 ^ 60 }
        ensures next { OnOk result (IsNext
            ((protocol self.now).after_answer state.old answer now exchange.old)
            state.new exchange.new) }
        ensures reported { IfOk result (λ reported.
            reported ≡ (protocol self.now).public_state state.new) }
        ensures unchanged { OnErr result (state.new ≡ state.old) };

    /// Goes to the state after the end of a state, and returns what is reported of it.
    fn after_end(&self, state: &mut Self::State, exchange: &mut Self::Exchange) -> Self::PublicState
        ensures next { IsNext ((protocol self.now).after_end state.old exchange.old)
            state.new exchange.new }
        ensures reported { result ≡ (protocol self.now).public_state state.new };

    /// Goes to the state after a clean-up.
    fn after_clean_up(&self, state: &mut Self::State, exchange: &mut Self::Exchange)
        ensures { IsNext ((protocol self.now).after_clean_up exchange.old)
            state.new exchange.new };

    /// The message that releases the lease that is held in a state, if one is held. Without one
    /// it is never out of memory.
    fn release_message(
        &self,
        state: &Self::State,
        exchange: Self::Exchange,
    ) -> Result<Option<Handed>, AllocError>
        ensures message { IfOk result (λ message.
            message ≡ option_map (λ lease. (protocol self.now).release_message lease exchange)
            ((protocol self.now).held_lease state.now)) }
        ensures needed { OnErr result (is_some ((protocol self.now).held_lease state.now) ≡ true) };
}

/// Goes to a state; the one before is dropped. A rule changes a state by this call, since here the
/// type is a parameter: an assignment is proved for each field of a type that is named.
pub fn enter<S: Drop>(state: &mut S, next: S)
    ensures { state.new ≡ next }
{
    *state = next;
}
