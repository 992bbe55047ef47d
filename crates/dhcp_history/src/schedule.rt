//! When a client next does something without a packet.

ghost use Rattle.std.specs.Prelude.{◌≡◌, ◌||◌, ℕ, List, if◌then◌else◌};
ghost use Rattle.dhcp_history.specs.Protocol.{has_come};
ghost use Rattle.dhcp_history.specs.Machine.{has_ended, has_open_attempt, is_stopped, is_unpolled, limit_is_over};
ghost use Rattle.dhcp_history.specs.Client.{view_of};
ghost use Rattle.dhcp_history.specs.Calls.{HasListening, HasNextPoll};
ghost use Rattle.dhcp_history.specs.History.{limit_moment};
ghost use Rattle.dhcp_history.specs.Schedule.{earlier, next_moment};

use crate::machine::{has_come, has_ended, is_stopped, limit_is_over};
use crate::{Client, Phase, Rules};

// The earlier of two moments, where there are any.
fn earlier(first: Option<u64>, second: Option<u64>) -> Option<u64>
    ensures { result ≡ earlier first second }
{
    match (first, second) {
        (None, second) => second,
        (first, None) => first,
        (Some(first), Some(second)) => Some(first.min(second)),
    }
}

// The moment at which the time limit of the state is over, for a client that was polled in it.
pub(crate) fn limit_moment<R: Rules>(
    rules: &R,
    client: &Client<R::State, R::Exchange>,
) -> Option<u64>
    ensures { result ≡ limit_moment (R.protocol rules.now)
        client.now.timeout_sec client.now.standing.entered client.now.state }
{
    if client.timeout_sec == 0 || !rules.has_attempts(&client.state) {
        return None;
    }
    Some(client.standing.entered + 1000 * client.timeout_sec as u64)
}

// The next attempt, the end of the state or that of the time limit, whichever comes first.
fn next_moment<R: Rules>(rules: &R, client: &Client<R::State, R::Exchange>) -> Option<u64>
    ensures { result ≡ next_moment (R.protocol rules.now) client.now }
{
    let end = earlier(
        rules.ending_moment(&client.state),
        limit_moment(rules, client),
    );
    earlier(client.standing.deadline, end)
}

/// The moment at which a poll next does something without a packet, in milliseconds. Before it, but
/// not before the last moment of the client, a poll without a packet does nothing; at or after it a
/// poll answers a change or the error, sends, or begins a pause. It is none where the client has
/// stopped, or nothing lies ahead in its state.
pub fn next_poll<R: Rules>(rules: &R, client: &Client<R::State, R::Exchange>) -> Option<u64>
    ensures { HasNextPoll (R.protocol rules.now) result client.now }
{
    match client.standing.phase {
        Phase::Stopped => None,
        Phase::Unpolled => {
            if rules.has_attempts(&client.state) {
                Some(client.last_moment)
            } else {
                rules.ending_moment(&client.state)
            }
        }
        Phase::Pausing => next_moment(rules, client),
        Phase::Listening => next_moment(rules, client),
        Phase::Resting => next_moment(rules, client),
    }
}

// Whether a poll neither sends nor takes a packet: an error is kept, the time limit is over, or the
// state ends.
fn is_over<R: Rules>(rules: &R, client: &Client<R::State, R::Exchange>, now: u64) -> bool
    ensures { (available : List ℕ) → result ≡ (is_stopped client.now.standing.phase
        || (limit_is_over (R.protocol rules.now) now (view_of client.now available)
        || has_ended (R.protocol rules.now) now (view_of client.now available))) }
{
    is_stopped(client.standing.phase)
        || (limit_is_over(rules, client, now) || has_ended(rules, client, now))
}

// Whether an attempt is open or due; in the first poll of a state, whether the client sends there.
fn has_attempt<R: Rules>(rules: &R, client: &Client<R::State, R::Exchange>, now: u64) -> bool
    ensures { result ≡ (if is_unpolled client.now.standing.phase
        then (R.protocol rules.now).has_attempts client.now.state
        else (has_come now client.now.standing.deadline
        || has_open_attempt client.now.standing.phase)) }
{
    if client.standing.phase == Phase::Unpolled {
        return rules.has_attempts(&client.state);
    }
    has_come(now, client.standing.deadline) || client.standing.phase == Phase::Listening
}

/// Whether a packet may be asked for at a moment, in milliseconds: an attempt is open then, or is
/// due and made then. A poll of a client that was polled in its state asks its link for a packet if
/// and only if this is true, unless the link refuses what the poll sends; in the first poll of a
/// state its pause decides. If it is false, no poll at this moment asks.
pub fn is_listening<R: Rules>(rules: &R, client: &Client<R::State, R::Exchange>, now: u64) -> bool
    ensures { HasListening (R.protocol rules.now) now result client.now }
{
    !is_over(rules, client, now) && has_attempt(rules, client, now)
}
