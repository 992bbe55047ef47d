//! The table of states, RFC 2131 section 4.4, as rules of dhcp_history: one method for each column,
//! every state named. Three columns depend on the forms of the messages: which attempt is the last,
//! which packets answer, and what follows an answer.

ghost use Rattle.std.specs.Prelude.{◌≡◌, ◌<◌, ◌-◌, ◌^◌, IfOk, IsTrue, OnErr, OnOk, None, Ok, Some, Option};
ghost use Rattle.dhcp_clock.specs.Wait as waits;
ghost use Rattle.dhcp_clock.specs.Words.{DrawsBy};
ghost use Rattle.dhcp_history.specs.Rules.{GivesDrawn, IsNext};
ghost use Rattle.dhcp4_lease.specs.Config.{is_within_limits};
ghost use Rattle.dhcp4_client.specs.Rules as table;
ghost use Rattle.dhcp4_client.specs.State.{plain_state};
ghost use Rattle.dhcp4_client.specs.declared.client_state.Exchange.{Exchange};

use crate::DhcpV4State;
use crate::answer::{Answer, Awaited, read_answer};
use crate::boxed_lease::BoxedLease;
use crate::client_state::{ClientState, Exchange};
use crate::message::{attempt_message, release_message};
use dhcp_clock::{Handed, Packet, Words, discovery_wait, draw, half_wait};
use dhcp_history::{AttemptStart, BoundLease, NewAttempt, Rules, StateReport, enter};
use dhcp_wire::DhcpError;
use dhcp4_lease::{DhcpV4Config, DhcpV4Lease, DhcpV4MessageForms};
use std::alloc::{AllocError, Global};
use std::mem;

/// The pause before the first Discover is below so many milliseconds; RFC 2131 section 4.4.1 asks
/// for one to ten seconds.
const MOST_PAUSE: u64 = 200;

/// How often the Request of a lease that was held before, or by the forms of RFC 2131 that of an
/// offer, is sent again, so that it is sent four times in all; RFC 2131 section 3.2 leaves the
/// number open, and section 3.1 has four as its example.
const MOST_RETRIES: u32 = 3;

/// The rules of a client with this configuration.
#[derive(Drop)]
pub struct ClientRules {
    /// Where its messages and leases are allocated.
    pub alloc: Global,
    /// Its configuration.
    pub config: DhcpV4Config,
    pub ghost within: { IsTrue (is_within_limits config) },
}

impl Rules for ClientRules {
    ghost use Rattle.dhcp4_client.specs.Rules as table;

    type PublicState = StateReport<DhcpV4State>;

    type State = ClientState;

    type Exchange = Exchange;

    type Answer = Answer;

    type Lease = DhcpV4Lease;

    ghost protocol = { λ rules. table.protocol rules.config };

    ghost may_answer = { λ rules. table.may_answer rules.config.message_forms };

    fn ending_moment(&self, state: &ClientState) -> Option<u64> {
        match state {
            ClientState::InitReboot | ClientState::Selecting(_) | ClientState::Rebooting(_) => None,
            ClientState::Done(bound) => Some(bound.after(bound.lease().t1_sec)),
            ClientState::Renewing(bound) => Some(bound.after(bound.lease().t2_sec)),
            ClientState::Rebinding(bound) => Some(bound.after(bound.lease().lease_time_sec)),
        }
    }

    fn has_attempts(&self, state: &ClientState) -> bool {
        match state {
            ClientState::InitReboot
            | ClientState::Selecting(_)
            | ClientState::Rebooting(_)
            | ClientState::Renewing(_)
            | ClientState::Rebinding(_) => true,
            ClientState::Done(_) => false,
        }
    }

    // Whether this attempt is the last one of its state: the fourth request of a lease that was
    // held before, and of an offer as `is_last_request` says.
    fn is_last_attempt(&self, state: &ClientState, exchange: Exchange) -> bool {
        match state {
            ClientState::Selecting(_) => is_last_request(self.config.message_forms(), exchange),
            ClientState::Rebooting(_) => exchange.retry_count >= MOST_RETRIES,
            ClientState::InitReboot
            | ClientState::Done(_)
            | ClientState::Renewing(_)
            | ClientState::Rebinding(_) => false,
        }
    }

    fn after_wait(&self, exchange: Exchange) -> Exchange {
        Exchange {
            xid: exchange.xid,
            retry_count: exchange.retry_count.saturating_add(1),
        }
    }

    fn pause<W: Words>(&self, state: &ClientState, exchange: Exchange, words: &mut W) -> u64 {
        match state {
            ClientState::InitReboot => first_pause(exchange, words),
            ClientState::Selecting(_)
            | ClientState::Rebooting(_)
            | ClientState::Done(_)
            | ClientState::Renewing(_)
            | ClientState::Rebinding(_) => 0,
        }
    }

    fn attempt<W: Words>(
        &self,
        state: &ClientState,
        exchange: Exchange,
        start: AttemptStart,
        words: &mut W,
    ) -> Result<NewAttempt<Exchange, Handed>, AllocError> {
        let wait = wait(state, exchange, start.now, words);
        let built = attempt_message(self.alloc, exchange.xid, &self.config, state);
        let message = built.map_err(out_of_memory)?;
        Ok(NewAttempt {
            wait,
            message,
            exchange,
        })
    }

    fn reading<W: Words>(
        &self,
        state: &ClientState,
        exchange: Exchange,
        packet: Packet,
        words: &mut W,
    ) -> Result<Option<Answer>, AllocError> {
        let Some(awaited) = Awaited::in_state(self.config.message_forms(), state) else {
            return Ok(None);
        };
        read_answer(self.alloc, awaited, exchange.xid, &packet, words).map_err(out_of_memory)
    }

    fn after_answer(
        &self,
        state: &mut ClientState,
        answer: Answer,
        now: u64,
        exchange: &mut Exchange,
    ) -> Result<StateReport<DhcpV4State>, AllocError> {
        match answer {
            Answer::Granted(lease) => self.after_grant(state, lease, now, exchange),
            Answer::Refused => {
                enter(state, ClientState::InitReboot);
                Ok(StateReport::new(DhcpV4State::InitReboot))
            }
        }
    }

    fn after_end(
        &self,
        state: &mut ClientState,
        exchange: &mut Exchange,
    ) -> StateReport<DhcpV4State> {
        let reported = reported_after_end(state);
        *exchange = exchange_after_end(state, *exchange);
        let next = state_after_end(mem::replace(state, ClientState::InitReboot));
        enter(state, next);
        StateReport::new(reported)
    }

    fn after_clean_up(&self, state: &mut ClientState, exchange: &mut Exchange) {
        // It stays as it is; it is read so that the proof knows that.
        let _kept = *exchange;
        enter(state, ClientState::InitReboot);
    }

    fn release_message(
        &self,
        state: &ClientState,
        exchange: Exchange,
    ) -> Result<Option<Handed>, AllocError> {
        let Some(lease) = state.held_lease() else {
            return Ok(None);
        };
        let built = release_message(self.alloc, exchange.xid, &self.config, Some(lease), lease);
        Ok(Some(built.map_err(out_of_memory)?))
    }
}

impl ClientRules {
    // Goes to the state after a lease was offered or granted.
    fn after_grant(
        &self,
        state: &mut ClientState,
        lease: BoxedLease,
        now: u64,
        exchange: &mut Exchange,
    ) -> Result<StateReport<DhcpV4State>, AllocError>
        requires { now < 2 ^ 60 }
        ensures next { OnOk result (IsNext (table.after_grant self.now.config.message_forms
            state.old lease now exchange.old) state.new exchange.new) }
        ensures reported { IfOk result (λ reported.
            reported ≡ table.public_state state.new) }
        ensures unchanged { OnErr result (state.new ≡ state.old) }
    {
        match state {
            ClientState::InitReboot => {
                let offer = Box::into_inner(lease.into_box());
                enter(state, ClientState::Selecting(offer));
                *exchange = requesting(self.config.message_forms(), *exchange);
                Ok(StateReport::new(DhcpV4State::Selecting))
            }
            ClientState::Selecting(_)
            | ClientState::Rebooting(_)
            | ClientState::Done(_)
            | ClientState::Renewing(_)
            | ClientState::Rebinding(_) => self.bind(state, lease, now, exchange),
        }
    }

    // Goes to BOUND with this lease, from now on.
    fn bind(
        &self,
        state: &mut ClientState,
        lease: BoxedLease,
        now: u64,
        exchange: &mut Exchange,
    ) -> Result<StateReport<DhcpV4State>, AllocError>
        requires { now < 2 ^ 60 }
        ensures next { OnOk result (IsNext (table.bound_from now lease exchange.old)
            state.new exchange.new) }
        ensures reported { IfOk result (λ reported.
            reported ≡ table.public_state state.new) }
        ensures unchanged { OnErr result (state.new ≡ state.old) }
    {
        // not by map_err, which copies the lease once more
        let kept = match lease.lease().try_clone(self.alloc) {
            Ok(kept) => kept,
            Err(_) => return Err(AllocError),
        };
        enter(state, ClientState::Done(BoundLease::new(kept, now)));
        *exchange = restarted(*exchange);
        Ok(StateReport::new(DhcpV4State::Done(lease.into_box())))
    }
}

// The error of a call of which out of memory is the only one.
fn out_of_memory(_error: DhcpError) -> AllocError {
    AllocError
}

// The state after the end of one.
fn state_after_end(state: ClientState) -> ClientState
    ensures { (exchange : Exchange) → result ≡ (table.after_end state exchange).state }
{
    match state {
        ClientState::InitReboot => ClientState::InitReboot,
        ClientState::Selecting(offer) => search_without(offer),
        ClientState::Rebooting(held) => search_without(held),
        ClientState::Done(bound) => ClientState::Renewing(bound),
        ClientState::Renewing(bound) => ClientState::Rebinding(bound),
        ClientState::Rebinding(bound) => search_without(bound),
    }
}

// A search, once a lease is dropped.
fn search_without<T: Drop>(lease: T) -> ClientState
    ensures { result ≡ ClientState.InitReboot }
{
    drop(lease);
    ClientState::InitReboot
}

// What is reported after the end of a state.
fn reported_after_end(state: &ClientState) -> DhcpV4State
    ensures { (exchange : Exchange) → plain_state result
        ≡ table.public_state (table.after_end state.now exchange).state }
{
    match state {
        ClientState::InitReboot => DhcpV4State::InitReboot,
        ClientState::Selecting(_) => DhcpV4State::InitReboot,
        ClientState::Rebooting(_) => DhcpV4State::InitReboot,
        ClientState::Done(_) => DhcpV4State::Renewing,
        ClientState::Renewing(_) => DhcpV4State::Rebinding,
        ClientState::Rebinding(_) => DhcpV4State::InitReboot,
    }
}

// The exchange after the end of a state.
fn exchange_after_end(state: &ClientState, exchange: Exchange) -> Exchange
    ensures { result ≡ (table.after_end state.now exchange).exchange }
{
    match state {
        ClientState::InitReboot => exchange,
        ClientState::Selecting(_) => exchange,
        ClientState::Rebooting(_) => exchange,
        ClientState::Done(_) => exchange,
        ClientState::Renewing(_) => restarted(exchange),
        ClientState::Rebinding(_) => exchange,
    }
}

// Whether this request of an offer is the last one. By RFC 2131 section 3.1 a client gives up an
// offer after some requests, four in its example, and begins its search anew; by mozim it requests
// it until an answer comes or the time limit is over.
fn is_last_request(forms: DhcpV4MessageForms, exchange: Exchange) -> bool
    ensures { result ≡ table.is_last_request forms exchange }
{
    match forms {
        DhcpV4MessageForms::Mozim => false,
        DhcpV4MessageForms::Rfc2131 => exchange.retry_count >= MOST_RETRIES,
    }
}

// The exchange with which a client requests an offer: by RFC 2131 its count begins anew, by mozim
// it goes on.
fn requesting(forms: DhcpV4MessageForms, exchange: Exchange) -> Exchange
    ensures { result ≡ table.requesting forms exchange }
{
    match forms {
        DhcpV4MessageForms::Mozim => exchange,
        DhcpV4MessageForms::Rfc2131 => restarted(exchange),
    }
}

/// An exchange whose count begins anew.
pub fn restarted(exchange: Exchange) -> Exchange
    ensures { result ≡ table.restarted exchange }
{
    Exchange {
        xid: exchange.xid,
        retry_count: 0,
    }
}

// How long a client waits before its first Discover, in milliseconds; RFC 2131 section 4.4.1 asks
// for 1 to 10 seconds. One whose count is not 0 does not wait.
fn first_pause<W: Words>(exchange: Exchange, words: &mut W) -> u64
    ensures drawn { GivesDrawn (table.first_pause exchange)
        (W.left words.old) result (W.left words.new) }
    ensures taken { DrawsBy W.gives (table.first_pause exchange) words.old result words.new }
    ensures below { result < 2 ^ 62 }
{
    if exchange.retry_count == 0 {
        draw(0, MOST_PAUSE, words.next_word())
    } else {
        0
    }
}

// How long an answer is awaited in a state, in milliseconds. In RENEWING and REBINDING it is half
// of the time to T2 or to the end of the lease, at least a minute (RFC 2131 section 4.4.5), and
// never past that moment.
fn wait<W: Words>(state: &ClientState, exchange: Exchange, now: u64, words: &mut W) -> u64
    ensures drawn { GivesDrawn (table.wait state.now exchange now)
        (W.left words.old) result (W.left words.new) }
    ensures taken { DrawsBy W.gives (table.wait state.now exchange now) words.old result words.new }
    ensures below { result < 2 ^ 62 }
{
    match state {
        ClientState::InitReboot => growing_wait(exchange, words),
        ClientState::Selecting(_) => growing_wait(exchange, words),
        ClientState::Rebooting(_) => growing_wait(exchange, words),
        ClientState::Done(bound) => half_until(bound.after(bound.lease().t1_sec), now),
        ClientState::Renewing(bound) => half_until(bound.after(bound.lease().t2_sec), now),
        ClientState::Rebinding(bound) => half_until(bound.after(bound.lease().lease_time_sec), now),
    }
}

// Half of the time until this moment, at least a minute, and never past it; in milliseconds.
fn half_until(moment: u64, now: u64) -> u64
    requires { moment < 2 ^ 61 }
    ensures wait { result ≡ waits.half_wait (moment - now) }
    ensures below { result < 2 ^ 62 }
{
    half_wait(moment.saturating_sub(now))
}

// The wait in INIT, REQUESTING and REBOOTING, in milliseconds: about 4, 8, 16, 32 and then 64
// seconds, by the retry count (RFC 2131 section 4.1). The last is 62 to 64 seconds, so that none is
// longer than the RFC allows. Where the count goes on from INIT to REQUESTING, the first Request of
// an offer may have a longer wait than 5 seconds.
fn growing_wait<W: Words>(exchange: Exchange, words: &mut W) -> u64
    ensures drawn { GivesDrawn (table.growing_wait exchange)
        (W.left words.old) result (W.left words.new) }
    ensures taken { DrawsBy W.gives (table.growing_wait exchange) words.old result words.new }
    ensures below { result < 2 ^ 62 }
{
    discovery_wait(exchange.retry_count, words.next_word())
}
