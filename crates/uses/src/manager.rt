//! The loop of a network manager, for clients of both families, with leases or without.

mod clients;
mod interface;

ghost use Rattle.std.specs.Prelude.{◌≡◌, ◌<◌, ◌^◌, ◌⊎◌, Bool, IfErr, IfOk, is_some, not};
ghost use Rattle.dhcp_wire.specs.Error.{no_memory};
ghost use Rattle.dhcp_history.specs.Calls.{HasNextPoll};
ghost use Rattle.dhcp_history.specs.Errors.{timed_out};
ghost use Rattle.uses.specs.Manager.{HasTurned, Polled, linked, rests_for_ever};

pub use clients::{new_client, new_client6, new_info_client};
use dhcp_clock::{DhcpLink, Words};
use dhcp_wire::DhcpError;
pub use interface::Interface;

/// A client, as its manager runs it.
pub trait ManagedClient {
    ghost use Rattle.dhcp_clock.specs.declared.link.Handed.{Handed};
    ghost use Rattle.dhcp_clock.specs.declared.link.Packet.{Packet};
    ghost use Rattle.dhcp_history.specs.Calls.{HasNextPoll};
    ghost use Rattle.dhcp_history.specs.Protocol.{Protocol};
    ghost use Rattle.dhcp_history.specs.declared.client.Client.{Client};
    ghost use Rattle.uses.specs.Manager.{Polled, linked, rests_for_ever};

    /// A state that it reports.
    type State: Drop;

    // What contracts see of a reported state, of the state of the client, of what it keeps from one
    // attempt to the next, of what a packet answers, and of a lease.
    ghost PublicState: { Type 0 };

    ghost ClientState: { Type 0 };

    ghost Exchange: { Type 0 };

    ghost Answer: { Type 0 };

    ghost Lease: { Type 0 };

    /// What contracts compare of a reported state.
    ghost public_state: { Self.State → PublicState };

    /// Its table of states.
    ghost protocol: { Self →
        Protocol PublicState Packet Handed ClientState Exchange Answer Lease };

    /// The client of its rules.
    ghost client: { Self → Client ClientState Exchange };

    /// Whether a packet may answer an open attempt. Of one that may not, the reading gives nothing
    /// and is never out of memory.
    ghost may_answer: { Self → ClientState → Exchange → Packet → Bool };

    /// Whether a state lasts for ever, if no packet comes.
    ghost lasts_for_ever: { ClientState → Bool };

    /// One poll at a moment, in milliseconds: the new state, or none if it has not changed.
    fn run<W: Words, L: DhcpLink>(
        &mut self,
        now: u64,
        words: &mut W,
        link: &mut L,
    ) -> Result<Option<Self::State>, DhcpError>
        requires { now < 2 ^ 60 }
        ensures polled { Polled (protocol self.old) W.gives L.moves public_state
            (may_answer self.old) W.left L.shown L.faults now result
            (linked (client self.old) words.old link.old)
            (linked (client self.new) words.new link.new) }
        ensures same { protocol self.new ≡ protocol self.old }
        ensures answers { may_answer self.new ≡ may_answer self.old }
        ensures errors { IfErr result (λ error. (error ≡ timed_out) ⊎ (error ≡ no_memory)) };

    /// The moment, in milliseconds, before which it has nothing to do without a packet; none if and
    /// only if it keeps an error, or its state lasts for ever and no attempt lies ahead in it.
    fn next_poll(&self) -> Option<u64>
        ensures next { HasNextPoll (protocol self.now) result (client self.now) }
        ensures none { is_some result ≡ not (rests_for_ever lasts_for_ever (client self.now)) };
}

/// What is set up as the states of a client ask.
pub trait Follow<S> {
    /// What it does to follow a state.
    ghost follows: { S → Self → Self → Type 0 };

    /// Does what a new state asks.
    fn follow(&mut self, state: &S)
        ensures { follows state.now self.old self.new };
}

/// One turn of the loop, now and whenever a packet comes: polls until nothing changes any more, at
/// most seven times, since one packet changes the state at most six times. The interface follows
/// each new state. Returns the moment, in milliseconds, until which the manager may sleep; none if
/// and only if the client keeps an error, or its state lasts for ever and no attempt lies ahead in
/// it.
pub fn turn<C: ManagedClient, I: Follow<C::State>, W: Words, L: DhcpLink>(
    client: &mut C,
    interface: &mut I,
    now: u64,
    words: &mut W,
    link: &mut L,
) -> Result<Option<u64>, DhcpError>
    requires { now < 2 ^ 60 }
    ensures turned { HasTurned (C.protocol client.old) W.gives L.moves C.public_state
        I.follows now (Polled (C.protocol client.old) W.gives L.moves C.public_state
        (C.may_answer client.old) W.left L.shown L.faults now) result
        (linked (C.client client.old) words.old link.old) interface.old
        (linked (C.client client.new) words.new link.new) interface.new }
    ensures same { C.protocol client.new ≡ C.protocol client.old }
    ensures next { IfOk result (λ moment.
        HasNextPoll (C.protocol client.new) moment (C.client client.new)) }
    ensures none { IfOk result (λ moment.
        is_some moment ≡ not (rests_for_ever C.lasts_for_ever (C.client client.new))) }
    ensures errors { IfErr result (λ error. (error ≡ timed_out) ⊎ (error ≡ no_memory)) }
{
    for _ in 0..7u32 {
        let Some(state) = client.run(now, words, link)? else {
            break;
        };
        interface.follow(&state);
    }
    Ok(client.next_poll())
}
