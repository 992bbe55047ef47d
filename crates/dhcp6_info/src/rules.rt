//! The table of states, RFC 8415 section 18.2.6, as rules of dhcp_history: one method for each
//! column, every state named.

ghost use Rattle.std.specs.Prelude.{◌≡◌, ◌≤◌, IfOk, length};
ghost use Rattle.dhcp6_opt.specs.Duid.{written_duid};
ghost use Rattle.dhcp6_info.specs.Rules as table;
ghost use Rattle.dhcp6_info.specs.State.{plain_state};
ghost use Rattle.dhcp6_info.specs.declared.state.PlainInfoState.TheVariants as plain;

use crate::DhcpV6InfoState;
use crate::answer::read_answer;
use crate::client_state::{ClientState, Exchange, NoLease};
use crate::draws::{restarted, transaction_id, wait};
use crate::given_info::{GivenInfo, refresh_moment};
use crate::message::attempt_message;
use dhcp_clock::{Handed, Packet, Words, draw};
use dhcp_history::{AttemptStart, BoundLease, NewAttempt, Rules, StateReport, enter};
use dhcp_wire::DhcpError;
use dhcp6_msg::DhcpV6Config;
use std::alloc::{AllocError, Global};

/// The pause before the first Information-request is below so many milliseconds. RFC 8415 section
/// 7.6.
const INF_MAX_DELAY: u64 = 1_000;

/// The rules of a client with this configuration.
#[derive(Drop)]
pub struct ClientRules {
    /// Where its messages and what it is given are allocated.
    pub alloc: Global,
    /// Its configuration.
    pub config: DhcpV6Config,
    pub ghost identifier: { length (written_duid config.duid) ≤ 65535 },
    pub ghost codes: { length config.request_opts ≤ 32766 },
}

impl Rules for ClientRules {
    ghost use Rattle.dhcp6_info.specs.Rules as table;

    type PublicState = StateReport<DhcpV6InfoState>;

    type State = ClientState;

    type Exchange = Exchange;

    type Answer = GivenInfo;

    type Lease = NoLease;

    ghost protocol = { λ rules. table.protocol rules.config };

    ghost may_answer = { λ rules. table.may_answer };

    fn ending_moment(&self, state: &ClientState) -> Option<u64> {
        match state {
            ClientState::Inform => None,
            ClientState::Done(bound) => refresh_moment(bound),
        }
    }

    fn has_attempts(&self, state: &ClientState) -> bool {
        match state {
            ClientState::Inform => true,
            ClientState::Done(_) => false,
        }
    }

    fn is_last_attempt(&self, state: &ClientState, exchange: Exchange) -> bool {
        match state {
            ClientState::Inform => false,
            ClientState::Done(_) => false,
        }
    }

    fn after_wait(&self, exchange: Exchange) -> Exchange {
        exchange
    }

    fn pause<W: Words>(&self, state: &ClientState, exchange: Exchange, words: &mut W) -> u64 {
        match state {
            ClientState::Inform => draw(0, INF_MAX_DELAY, words.next_word()),
            ClientState::Done(_) => 0,
        }
    }

    fn attempt<W: Words>(
        &self,
        state: &ClientState,
        exchange: Exchange,
        start: AttemptStart,
        words: &mut W,
    ) -> Result<NewAttempt<Exchange, Handed>, AllocError> {
        let xid = transaction_id(start.is_first, exchange, words);
        let wait = wait(exchange, words);
        let built = attempt_message(self.alloc, xid, &self.config, elapsed_time(start));
        let message = built.map_err(out_of_memory)?;
        Ok(NewAttempt {
            wait,
            message,
            exchange: Exchange {
                xid,
                previous_wait: wait as u32,
            },
        })
    }

    fn reading<W: Words>(
        &self,
        state: &ClientState,
        exchange: Exchange,
        packet: Packet,
        words: &mut W,
    ) -> Result<Option<GivenInfo>, AllocError> {
        match state {
            ClientState::Inform => {
                read_answer(self.alloc, exchange.xid, &packet).map_err(out_of_memory)
            }
            ClientState::Done(_) => Ok(None),
        }
    }

    fn after_answer(
        &self,
        state: &mut ClientState,
        answer: GivenInfo,
        now: u64,
        exchange: &mut Exchange,
    ) -> Result<StateReport<DhcpV6InfoState>, AllocError> {
        let reported = done_with(self.alloc, &answer)?;
        enter(state, ClientState::Done(BoundLease::new(answer, now)));
        *exchange = restarted(*exchange);
        Ok(StateReport::new(reported))
    }

    fn after_end(
        &self,
        state: &mut ClientState,
        exchange: &mut Exchange,
    ) -> StateReport<DhcpV6InfoState> {
        *exchange = restarted(*exchange);
        enter(state, ClientState::Inform);
        StateReport::new(DhcpV6InfoState::Inform)
    }

    fn after_clean_up(&self, state: &mut ClientState, exchange: &mut Exchange) {
        *exchange = restarted(*exchange);
        enter(state, ClientState::Inform);
    }

    fn release_message(
        &self,
        state: &ClientState,
        exchange: Exchange,
    ) -> Result<Option<Handed>, AllocError> {
        Ok(None)
    }
}

// What is reported of a client that was given this configuration.
fn done_with(alloc: Global, given: &GivenInfo) -> Result<DhcpV6InfoState, AllocError>
    ensures { IfOk result (λ state. plain_state state ≡ plain.Done given.now) }
{
    let info = given.to_info(alloc).map_err(out_of_memory)?;
    Ok(DhcpV6InfoState::Done(Box::new(alloc, info)?))
}

// The error of what is made here: out of memory is the only one.
fn out_of_memory(_error: DhcpError) -> AllocError {
    AllocError
}

// For how many milliseconds the client has tried, from the first poll of its stay on. RFC 8415
// section 21.9 asks for 0 in the first message; here the pause is in it.
fn elapsed_time(start: AttemptStart) -> u64
    ensures { result ≡ table.elapsed_time start }
{
    start.now.saturating_sub(start.entered)
}
