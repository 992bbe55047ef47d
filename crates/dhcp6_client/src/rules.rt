//! The table of states, RFC 8415 section 18.2, as rules of dhcp_history: one method for each
//! column, every state named.

ghost use Rattle.std.specs.Prelude.{◌≡◌, ◌<◌, ◌^◌, false, IfOk, IsTrue, OnOk, OnErr};
ghost use Rattle.dhcp_history.specs.Rules.{IsNext};
ghost use Rattle.dhcp6_msg.specs.Config.{is_within_limits};
ghost use Rattle.dhcp6_client.specs.Rules as table;
ghost use Rattle.dhcp6_client.specs.declared.client_state.Exchange.{Exchange};
ghost use Rattle.dhcp6_client.specs.declared.state.PlainState.TheVariants as plain;

use crate::DhcpV6State;
use crate::answer::{awaited_type, read_answer};
use crate::client_state::{ClientState, Exchange};
use crate::draws::{association_id, restarted, transaction_id, wait};
use crate::granted_lease::{BoxedLease, GrantedLease, expiry, rebinding, renewal};
use crate::message::{attempt_message, release_message};
use dhcp_clock::{Handed, Packet, Words, draw};
use dhcp_history::{AttemptStart, BoundLease, NewAttempt, Rules, StateReport, enter};
use dhcp_wire::DhcpError;
use dhcp6_msg::{DhcpV6Config, DhcpV6Lease, DhcpV6Mode};
use std::alloc::{AllocError, Global};
use std::mem;

/// The pause before the first Solicit is below so many milliseconds. RFC 8415 section 7.6.
const SOL_MAX_DELAY: u64 = 1_000;

/// How often the Request of an offer is sent again, RFC 8415 section 7.6. So it is sent eleven
/// times in all, where section 15 means ten.
const REQ_MAX_RC: u32 = 10;

/// The rules of a client with this configuration.
#[derive(Drop)]
pub struct ClientRules {
    /// Where its messages and leases are allocated.
    pub alloc: Global,
    /// Its configuration.
    pub config: DhcpV6Config,
    pub ghost within: { IsTrue (is_within_limits config) },
}

impl Rules for ClientRules {
    ghost use Rattle.dhcp6_client.specs.Rules as table;

    type PublicState = StateReport<DhcpV6State>;

    type State = ClientState;

    type Exchange = Exchange;

    type Answer = BoxedLease;

    type Lease = DhcpV6Lease;

    ghost protocol = { λ rules. table.protocol rules.config };

    ghost may_answer = { λ rules. table.may_answer };

    fn ending_moment(&self, state: &ClientState) -> Option<u64> {
        match state {
            ClientState::Solicit | ClientState::Request(_) => None,
            ClientState::Done(bound) => Some(renewal(bound)),
            ClientState::Renew(bound) => Some(rebinding(bound)),
            ClientState::Temporary(bound) | ClientState::Rebind(bound) => Some(expiry(bound)),
        }
    }

    fn has_attempts(&self, state: &ClientState) -> bool {
        match state {
            ClientState::Solicit
            | ClientState::Request(_)
            | ClientState::Renew(_)
            | ClientState::Rebind(_) => true,
            ClientState::Done(_) | ClientState::Temporary(_) => false,
        }
    }

    fn is_last_attempt(&self, state: &ClientState, exchange: Exchange) -> bool {
        match state {
            ClientState::Request(_) => exchange.retransmit_count >= REQ_MAX_RC,
            ClientState::Solicit
            | ClientState::Done(_)
            | ClientState::Temporary(_)
            | ClientState::Renew(_)
            | ClientState::Rebind(_) => false,
        }
    }

    fn after_wait(&self, exchange: Exchange) -> Exchange {
        Exchange {
            xid: exchange.xid,
            retransmit_count: exchange.retransmit_count.saturating_add(1),
            previous_wait: exchange.previous_wait,
            counted_from: exchange.counted_from,
        }
    }

    fn pause<W: Words>(&self, state: &ClientState, exchange: Exchange, words: &mut W) -> u64 {
        match state {
            ClientState::Solicit => draw(0, SOL_MAX_DELAY, words.next_word()),
            ClientState::Request(_)
            | ClientState::Done(_)
            | ClientState::Temporary(_)
            | ClientState::Renew(_)
            | ClientState::Rebind(_) => 0,
        }
    }

    fn attempt<W: Words>(
        &self,
        state: &ClientState,
        exchange: Exchange,
        start: AttemptStart,
        words: &mut W,
    ) -> Result<NewAttempt<Exchange, Handed>, AllocError> {
        let xid = transaction_id(state, start.is_first, exchange, words);
        let wait = wait(state, exchange, start.now, words);
        let iaid = association_id(state, words);
        let elapsed_ms = elapsed_time(start, exchange);
        let built = attempt_message(self.alloc, xid, &self.config, elapsed_ms, iaid, state);
        let message = built.map_err(out_of_memory)?;
        Ok(NewAttempt {
            wait,
            message,
            exchange: Exchange {
                xid,
                retransmit_count: exchange.retransmit_count,
                previous_wait: wait as u32,
                counted_from: exchange.counted_from,
            },
        })
    }

    fn reading<W: Words>(
        &self,
        state: &ClientState,
        exchange: Exchange,
        packet: Packet,
        words: &mut W,
    ) -> Result<Option<BoxedLease>, AllocError> {
        let Some(kind) = awaited_type(state) else {
            return Ok(None);
        };
        read_answer(self.alloc, kind, exchange.xid, &packet).map_err(out_of_memory)
    }

    // The first Advertise that grants a lease counts at once. By RFC 8415 section 18.2.1 a client
    // collects them until its first wait is over, unless one has preference 255, and the best
    // counts.
    fn after_answer(
        &self,
        state: &mut ClientState,
        answer: BoxedLease,
        now: u64,
        exchange: &mut Exchange,
    ) -> Result<StateReport<DhcpV6State>, AllocError> {
        match state {
            ClientState::Solicit => {
                enter(state, ClientState::Request(answer.into_granted()));
                *exchange = restarted(*exchange);
                Ok(StateReport::new(DhcpV6State::Request))
            }
            ClientState::Request(_)
            | ClientState::Done(_)
            | ClientState::Temporary(_)
            | ClientState::Renew(_)
            | ClientState::Rebind(_) => self.bind(state, answer, now, exchange),
        }
    }

    fn after_end(
        &self,
        state: &mut ClientState,
        exchange: &mut Exchange,
    ) -> StateReport<DhcpV6State> {
        *exchange = restarted(*exchange);
        let reported = reported_after_end(state);
        let ended = mem::replace(state, ClientState::Solicit);
        enter(state, state_after_end(ended));
        reported
    }

    fn after_clean_up(&self, state: &mut ClientState, exchange: &mut Exchange) {
        *exchange = restarted(*exchange);
        enter(state, ClientState::Solicit);
    }

    fn release_message(
        &self,
        state: &ClientState,
        exchange: Exchange,
    ) -> Result<Option<Handed>, AllocError> {
        let Some(lease) = state.held_lease() else {
            return Ok(None);
        };
        let built = release_message(self.alloc, exchange.xid, &self.config, lease);
        Ok(Some(built.map_err(out_of_memory)?))
    }
}

impl ClientRules {
    // Goes to the state of a client that has this lease, from now on.
    fn bind(
        &self,
        state: &mut ClientState,
        lease: BoxedLease,
        now: u64,
        exchange: &mut Exchange,
    ) -> Result<StateReport<DhcpV6State>, AllocError>
        requires { now < 2 ^ 60 }
        ensures next { OnOk result (IsNext
            (table.bound_from self.now.config.mode now lease exchange.old)
            state.new exchange.new) }
        ensures reported { IfOk result (λ reported.
            reported ≡ table.public_state state.new) }
        ensures unchanged { OnErr result (state.new ≡ state.old) }
    {
        let kept = lease.to_granted(self.alloc)?;
        let next = bound_state(self.config.mode, BoundLease::new(kept, now));
        enter(state, next);
        *exchange = restarted(*exchange);
        Ok(StateReport::new(DhcpV6State::Done(lease.into_box())))
    }
}

// The error of a call of which out of memory is the only one.
fn out_of_memory(_error: DhcpError) -> AllocError {
    AllocError
}

// The state after the end of one.
fn state_after_end(state: ClientState) -> ClientState
    ensures { (exchange : Exchange) → result ≡ (table.after_end state exchange).state }
{
    match state {
        ClientState::Solicit => ClientState::Solicit,
        ClientState::Request(offer) => search_without(offer),
        ClientState::Done(bound) => ClientState::Renew(bound),
        ClientState::Temporary(bound) => search_without(bound),
        ClientState::Renew(bound) => ClientState::Rebind(bound),
        ClientState::Rebind(bound) => search_without(bound),
    }
}

// A search, once a lease is dropped.
fn search_without<T: Drop>(lease: T) -> ClientState
    ensures { result ≡ ClientState.Solicit }
{
    drop(lease);
    ClientState::Solicit
}

// What is reported after the end of a state.
fn reported_after_end(state: &ClientState) -> StateReport<DhcpV6State>
    ensures { (exchange : Exchange) → result ≡
        table.public_state (table.after_end state.now exchange).state }
{
    match state {
        ClientState::Solicit => StateReport::new(DhcpV6State::Solicit),
        ClientState::Request(_) => StateReport::new(DhcpV6State::Solicit),
        ClientState::Done(_) => StateReport::new(DhcpV6State::Renew),
        ClientState::Temporary(_) => StateReport::new(DhcpV6State::Solicit),
        ClientState::Renew(_) => StateReport::new(DhcpV6State::Rebind),
        ClientState::Rebind(_) => StateReport::new(DhcpV6State::Solicit),
    }
}

/// The state of a client that has this lease, by what it asks for.
pub fn bound_state(mode: DhcpV6Mode, bound: BoundLease<GrantedLease>) -> ClientState
    ensures state { result ≡ table.bound_state mode bound }
    ensures reported { table.public_state result ≡ plain.Done bound.lease }
    ensures silent { table.has_attempts result ≡ false }
{
    match mode {
        DhcpV6Mode::NonTemporaryAddresses => ClientState::Done(bound),
        DhcpV6Mode::TemporaryAddresses => ClientState::Temporary(bound),
        DhcpV6Mode::PrefixDelegation(_) => ClientState::Done(bound),
    }
}

// For how many milliseconds the client has tried: from the first poll in its state on, or from the
// moment within its stay from which it counts anew. RFC 8415 section 21.9 asks for 0 in the first
// message; here the pause of Solicit is in it.
fn elapsed_time(start: AttemptStart, exchange: Exchange) -> u64
    ensures { result ≡ table.elapsed_time start exchange }
{
    start
        .now
        .saturating_sub(start.entered.max(exchange.counted_from))
}
