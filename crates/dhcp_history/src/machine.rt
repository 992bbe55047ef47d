//! The client as a machine that is polled: the seven steps of a poll, over any rules, words and
//! link. Each step has a function of its own; the last two, what a refused attempt and an open one
//! await, share `receive`.

ghost use Rattle.std.specs.Prelude.{◌≡◌, ◌<◌, ◌+◌, ◌^◌, ◌⊎◌, ◌&&◌, ◌||◌, ℕ, List, true, false, Option, Some, None, is_some, Ok, Err, OnErr, IfSome, IsSomeAnd};
ghost use Rattle.dhcp_history.specs.Protocol.{has_come, pause_of};
ghost use Rattle.dhcp_history.specs.History.{limit_moment, after_wait_if};
ghost use Rattle.dhcp_history.specs.Machine.{is_unpolled, has_open_attempt, is_stopped, limit_is_over, has_ended, exchange_at, enter, begin_stay, receive};
ghost use Rattle.dhcp_history.specs.Calls.{Polls};
ghost use Rattle.dhcp_history.specs.Seen.{seen};
ghost use Rattle.dhcp_history.specs.Work.{HasWorked};
ghost use Rattle.dhcp_history.specs.Schedule.{HasNextAttempt};
ghost use Rattle.dhcp_history.specs.Client.{view_of, view_with, unpolled, silent};
ghost use Rattle.dhcp_clock.specs.Words.{DrawsBy};
ghost use Rattle.dhcp_history.specs.Traced.{StepsBy, Traces, Works, due_of};
ghost use Rattle.dhcp_history.specs.Turns.{PollsUnheard, RunsOut, TakesTurns, WorksUnheard};
ghost use Rattle.dhcp_history.specs.Run.{UsesLink, UnlessNoMemory, OnNoMemory, HasDrawn, HasDue, IsShut, PacketMayAnswer, IsUnsent, IsSent};

use crate::attempt::{receive, transmit};
use crate::schedule::limit_moment;
use crate::{Client, Phase, Rules, Standing};
use dhcp_clock::{DhcpLink, Words};

/// Why a poll returns an error.
#[derive(Clone, Copy, Debug, PartialEq, Eq)]
pub enum RunError {
    /// The time limit of the client is over.
    TimedOut,
    /// Out of memory.
    OutOfMemory,
}

// Whether there is such a moment, and it has come.
pub(crate) fn has_come(now: u64, moment: Option<u64>) -> bool
    ensures { result ≡ has_come now moment }
{
    match moment {
        None => false,
        Some(moment) => moment <= now,
    }
}

// Step 1: whether an error is kept.
pub(crate) fn is_stopped(phase: Phase) -> bool
    ensures { result ≡ is_stopped phase }
{
    phase == Phase::Stopped
}

// Step 2: whether the time limit is over; it counts from the first poll in a state on.
pub(crate) fn limit_is_over<R: Rules>(
    rules: &R,
    client: &Client<R::State, R::Exchange>,
    now: u64,
) -> bool
    ensures { (available : List ℕ) →
        result ≡ limit_is_over (R.protocol rules.now) now (view_of client.now available) }
{
    client.standing.phase != Phase::Unpolled && has_come(now, limit_moment(rules, client))
}

// Whether the wait of an open attempt is over.
fn is_wait_over<X: Copy>(standing: Standing<X>, now: u64) -> bool
    ensures { result ≡ (has_open_attempt standing.phase && has_come now standing.deadline) }
{
    standing.phase == Phase::Listening && has_come(now, standing.deadline)
}

// Step 3: whether the state ends, since its moment has come or the wait of its last attempt is
// over.
pub(crate) fn has_ended<R: Rules>(
    rules: &R,
    client: &Client<R::State, R::Exchange>,
    now: u64,
) -> bool
    ensures { (available : List ℕ) →
        result ≡ has_ended (R.protocol rules.now) now (view_of client.now available) }
{
    has_come(now, rules.ending_moment(&client.state))
        || (is_wait_over(client.standing, now)
            && rules.is_last_attempt(&client.state, client.standing.exchange))
}

// The exchange of the next attempt, where one is made now.
pub(crate) fn exchange_at<R: Rules>(
    rules: &R,
    standing: Standing<R::Exchange>,
    now: u64,
) -> R::Exchange
    ensures { result ≡ after_wait_if (R.protocol rules.now)
        (has_open_attempt standing.phase && has_come now standing.deadline) standing.exchange }
{
    if is_wait_over(standing, now) {
        rules.after_wait(standing.exchange)
    } else {
        standing.exchange
    }
}

// Goes to the state after this one, and returns what is reported of it.
fn end_state<R: Rules>(
    rules: &R,
    client: &mut Client<R::State, R::Exchange>,
    now: u64,
) -> R::PublicState
    ensures client { (available : List ℕ) → view_of client.new available
        ≡ enter ((R.protocol rules.now).after_end client.old.state
        (exchange_at (R.protocol rules.now) now (view_of client.old available)))
        (view_of client.old available) }
    ensures reported { result ≡ (R.protocol rules.now).public_state client.new.state }
    ensures unpolled { is_unpolled client.new.standing.phase ≡ true }
    ensures timeout { client.new.timeout_sec ≡ client.old.timeout_sec }
    ensures moment { client.new.last_moment ≡ now }
{
    let mut exchange = exchange_at(rules, client.standing, now);
    let reported = rules.after_end(&mut client.state, &mut exchange);
    client.standing = Standing::unpolled(exchange);
    client.last_moment = now;
    reported
}

// The moment from which the first attempt of a state is due, after its pause; none where the client
// does not send, and then no word is drawn.
fn first_due<R: Rules, W: Words>(
    rules: &R,
    client: &Client<R::State, R::Exchange>,
    now: u64,
    words: &mut W,
) -> Option<u64>
    requires { now < 2 ^ 60 }
    ensures drawn { IfSome (W.left words.old) (λ available.
        HasDue (R.protocol rules.now) now client.now.state
        (pause_of (R.protocol rules.now) client.now.state client.now.standing.exchange available)
        result (W.left words.new)) }
    ensures taken { DrawsBy W.gives
        (due_of (R.protocol rules.now) now client.now.state client.now.standing.exchange)
        words.old result words.new }
    ensures armed { (R.protocol rules.now).has_attempts client.now.state ≡ true →
        is_some result ≡ true }
    ensures silent { (R.protocol rules.now).has_attempts client.now.state ≡ false →
        (result ≡ None) × (W.left words.new ≡ W.left words.old) }
{
    if rules.has_attempts(&client.state) {
        let pause = rules.pause(&client.state, client.standing.exchange, words);
        Some(now + pause)
    } else {
        None
    }
}

// Step 4: how the client stands once it was polled in its state; the first poll draws the pause.
fn begin_stay<R: Rules, W: Words>(
    rules: &R,
    client: &Client<R::State, R::Exchange>,
    now: u64,
    words: &mut W,
) -> Standing<R::Exchange>
    requires { now < 2 ^ 60 }
    ensures drawn { IfSome (W.left words.old) (λ available.
        HasDrawn (begin_stay (R.protocol rules.now) now (view_of client.now available))
        (view_with client.now result) (W.left words.new)) }
    ensures taken { StepsBy W.gives (begin_stay (R.protocol rules.now) now)
        (view_of client.now) (view_with client.now result) words.old words.new }
    ensures listens { has_open_attempt result.phase ≡ has_open_attempt client.now.standing.phase }
    ensures open { has_open_attempt result.phase ≡ true → result ≡ client.now.standing }
    ensures polled { is_unpolled client.now.standing.phase ≡ false →
        (result ≡ client.now.standing) × (W.left words.new ≡ W.left words.old) }
    ensures silent { is_unpolled client.now.standing.phase ≡ true →
        (R.protocol rules.now).has_attempts client.now.state ≡ false →
        (result ≡ silent now client.now.standing.exchange) × (W.left words.new ≡ W.left words.old) }
    ensures armed { HasNextAttempt (R.protocol rules.now).has_attempts client.now →
        (R.protocol rules.now).has_attempts client.now.state ≡ true →
        is_some result.deadline ≡ true }
    ensures small { result.entered < 2 ^ 60 }
{
    if client.standing.phase != Phase::Unpolled {
        return client.standing;
    }
    Standing {
        exchange: client.standing.exchange,
        entered: now,
        phase: Phase::Pausing,
        deadline: first_due(rules, client, now, words),
    }
}

// A poll whose attempt is not due: the packet, for a client that stands so once it was polled.
fn receive_early<R: Rules, W: Words, L: DhcpLink>(
    rules: &R,
    client: &mut Client<R::State, R::Exchange>,
    begun: Standing<R::Exchange>,
    now: u64,
    words: &mut W,
    link: &mut L,
) -> Result<Option<R::PublicState>, RunError>
    requires moment { now < 2 ^ 60 }
    requires small { begun.entered < 2 ^ 60 }
    requires early { has_come now begun.deadline ≡ false }
    requires open { has_open_attempt begun.phase ≡ true → begun ≡ client.old.standing }
    ensures worked { HasWorked (R.protocol rules.now) now result begun
        (seen client.old (W.left words.old) (L.shown link.old) (L.faults link.old))
        (seen client.new (W.left words.new) (L.shown link.new) (L.faults link.new)) }
    ensures traced { UnlessNoMemory result (Works (R.protocol rules.now) W.gives L.moves now result
        (view_with client.old begun) (view_of client.new)
        words.old words.new link.old link.new) }
    ensures shut { has_open_attempt begun.phase ≡ false → IsShut result begun
        (seen client.old (W.left words.old) (L.shown link.old) (L.faults link.old))
        (seen client.new (W.left words.new) (L.shown link.new) (L.faults link.new)) }
    ensures needed { OnErr result (PacketMayAnswer (R.may_answer rules.now)
        client.old (L.shown link.old)) }
    ensures armed { ((R.protocol rules.now).has_attempts client.old.state ≡ true →
        is_some begun.deadline ≡ true) →
        HasNextAttempt (R.protocol rules.now).has_attempts client.new }
    ensures unsent { OnErr result (IsUnsent client.old client.new
        (L.shown link.old) (L.shown link.new)) }
    ensures ran_out { OnErr result (RunsOut L.moves (λ message. ⊥)
        client.old client.new link.old link.new) }
    ensures uses { IfSome (L.shown link.old) (λ before. IsSomeAnd (L.shown link.new) (λ after.
        UsesLink (has_open_attempt begun.phase) before after)) }
{
    client.standing = begun;
    let change = receive(rules, client, now, words, link)?;
    client.last_moment = now;
    Ok(change)
}

// A poll whose attempt is due: the attempt, and then the packet, for a client that stands so once
// it was polled.
fn transmit_due<R: Rules, W: Words, L: DhcpLink>(
    rules: &R,
    client: &mut Client<R::State, R::Exchange>,
    begun: Standing<R::Exchange>,
    now: u64,
    words: &mut W,
    link: &mut L,
) -> Result<Option<R::PublicState>, RunError>
    requires moment { now < 2 ^ 60 }
    requires small { begun.entered < 2 ^ 60 }
    requires due { has_come now begun.deadline ≡ true }
    ensures worked { HasWorked (R.protocol rules.now) now result begun
        (seen client.old (W.left words.old) (L.shown link.old) (L.faults link.old))
        (seen client.new (W.left words.new) (L.shown link.new) (L.faults link.new)) }
    ensures traced { UnlessNoMemory result (Works (R.protocol rules.now) W.gives L.moves now result
        (view_with client.old begun) (view_of client.new)
        words.old words.new link.old link.new) }
    ensures memory { OnErr result (IsUnsent client.old client.new
        (L.shown link.old) (L.shown link.new)
        ⊎ IsSent (R.protocol rules.now) now (view_with client.old begun) client.new
        (W.left words.old) (L.shown link.old) (L.shown link.new)) }
    ensures ran_out { OnErr result (RunsOut L.moves (λ message.
        WorksUnheard (R.protocol rules.now) W.gives now message
        (view_with client.old begun) (view_of client.new) words.old)
        client.old client.new link.old link.new) }
    ensures armed { HasNextAttempt (R.protocol rules.now).has_attempts client.old →
        HasNextAttempt (R.protocol rules.now).has_attempts client.new }
    ensures uses { IfSome (L.shown link.old) (λ before. IsSomeAnd (L.shown link.new) (λ after.
        UsesLink false before after)) }
{
    transmit(rules, client, begun, now, words, link)?;
    Ok(receive(rules, client, now, words, link)?)
}

/// One poll at a moment, in milliseconds, in seven steps: a kept error, the time limit, the end of
/// the state, the pause, an attempt, the wait of a refused attempt, the packet. Returns what is
/// reported of the new state, or none if the state has not changed. Each error is the one that
/// [`RunError`] names.
pub fn run<R: Rules, W: Words, L: DhcpLink>(
    rules: &R,
    client: &mut Client<R::State, R::Exchange>,
    now: u64,
    words: &mut W,
    link: &mut L,
) -> Result<Option<R::PublicState>, RunError>
    requires { now < 2 ^ 60 }
    ensures polls { Polls (R.protocol rules.now) (R.may_answer rules.now) now result
        (seen client.old (W.left words.old) (L.shown link.old) (L.faults link.old))
        (seen client.new (W.left words.new) (L.shown link.new) (L.faults link.new)) }
    ensures traced { UnlessNoMemory result (Traces (R.protocol rules.now) W.gives L.moves now result
        client.old client.new words.old words.new link.old link.new) }
    ensures ran_out { OnNoMemory result (RunsOut L.moves (λ message.
        PollsUnheard (R.protocol rules.now) W.gives now message client.old client.new words.old)
        client.old client.new link.old link.new) }
    ensures used { TakesTurns L.moves (has_open_attempt client.old.standing.phase)
        link.old link.new }
{
    if is_stopped(client.standing.phase) {
        client.last_moment = now;
        return Err(RunError::TimedOut);
    }
    if limit_is_over(rules, client, now) {
        client.standing.phase = Phase::Stopped;
        client.last_moment = now;
        return Err(RunError::TimedOut);
    }
    if has_ended(rules, client, now) {
        return Ok(Some(end_state(rules, client, now)));
    }
    let begun = begin_stay(rules, client, now, words);
    if has_come(now, begun.deadline) {
        return transmit_due(rules, client, begun, now, words, link);
    }
    receive_early(rules, client, begun, now, words, link)
}
