//! What a client draws for an attempt, RFC 8415 sections 15, 16.1 and 18.2.

ghost use Rattle.std.specs.Prelude.{◌≡◌, ◌≤◌, ◌<◌, ◌-◌};
ghost use Rattle.dhcp_clock.specs.Wait as retransmit;
ghost use Rattle.dhcp_clock.specs.Words.{DrawsBy};
ghost use Rattle.dhcp_history.specs.Rules.{GivesDrawn};
ghost use Rattle.dhcp6_client.specs.Rules as table;

use crate::client_state::{ClientState, Exchange};
use crate::granted_lease::{expiry, rebinding, renewal};
use dhcp_clock::{Words, retransmit_wait};
use dhcp6_msg::new_id;

/// About how long the first Solicit of a stay awaits an answer, in milliseconds. RFC 8415 section
/// 7.6.
const SOL_TIMEOUT: u64 = 1_000;

/// About how long a Solicit awaits an answer at most, in milliseconds. RFC 8415 section 7.6.
const SOL_MAX_RT: u64 = 3_600_000;

/// About how long the first Request of a stay awaits an answer, in milliseconds. RFC 8415 section
/// 7.6.
const REQ_TIMEOUT: u64 = 1_000;

/// About how long a Request awaits an answer at most, in milliseconds. RFC 8415 section 7.6.
const REQ_MAX_RT: u64 = 30_000;

/// About how long the first Renew of a stay awaits an answer, in milliseconds; and the first
/// Rebind, whose REB_TIMEOUT is the same. RFC 8415 section 7.6.
const REN_TIMEOUT: u64 = 10_000;

/// About how long a Renew awaits an answer at most, in milliseconds; and a Rebind, whose REB_MAX_RT
/// is the same. RFC 8415 section 7.6.
const REN_MAX_RT: u64 = 600_000;

/// How long an answer is awaited in a state, in milliseconds, RFC 8415 section 15; in Renew until
/// T2 at most, and in Rebind until the end of the lease. The first wait of a Solicit is from nine
/// tenths of SOL_TIMEOUT on, as that of any other message; section 18.2.1 asks for more than
/// SOL_TIMEOUT.
pub fn wait<W: Words>(state: &ClientState, exchange: Exchange, now: u64, words: &mut W) -> u64
    ensures drawn { GivesDrawn (table.wait state.now exchange now)
        (W.left words.old) result (W.left words.new) }
    ensures taken { DrawsBy W.gives (table.wait state.now exchange now) words.old result words.new }
    ensures short { result ≤ 3960000 }
{
    match state {
        ClientState::Solicit => next_wait(exchange, SOL_TIMEOUT, SOL_MAX_RT, words),
        ClientState::Request(_) => next_wait(exchange, REQ_TIMEOUT, REQ_MAX_RT, words),
        ClientState::Done(bound) => wait_until(renewal(bound), exchange, now, words),
        ClientState::Temporary(bound) => wait_until(expiry(bound), exchange, now, words),
        ClientState::Renew(bound) => wait_until(rebinding(bound), exchange, now, words),
        ClientState::Rebind(bound) => wait_until(expiry(bound), exchange, now, words),
    }
}

// The next wait of a stay, until this moment at most.
fn wait_until<W: Words>(moment: u64, exchange: Exchange, now: u64, words: &mut W) -> u64
    ensures drawn { GivesDrawn (table.wait_until moment exchange now)
        (W.left words.old) result (W.left words.new) }
    ensures taken { DrawsBy W.gives (table.wait_until moment exchange now)
        words.old result words.new }
    ensures short { result ≤ 3960000 }
{
    let wait = next_wait(exchange, REN_TIMEOUT, REN_MAX_RT, words);
    moment.saturating_sub(now).min(wait)
}

// The next wait of a stay, by the one before.
fn next_wait<W: Words>(exchange: Exchange, first: u64, longest: u64, words: &mut W) -> u64
    requires first { first ≤ 3600000 }
    requires longest { longest ≤ 3600000 }
    ensures drawn { GivesDrawn (retransmit.retransmit_wait exchange.previous_wait first longest)
        (W.left words.old) result (W.left words.new) }
    ensures taken { DrawsBy W.gives
        (retransmit.retransmit_wait exchange.previous_wait first longest)
        words.old result words.new }
    ensures short { result ≤ 3960000 }
{
    retransmit_wait(u64::from(exchange.previous_wait), first, longest, words)
}

/// The transaction id of an attempt: a new one for the first of a stay that is no search, and for
/// the others the one that was drawn last. So each Solicit of a search has that of `init`, or of
/// the last other message; RFC 8415 section 16.1 asks for a new one for its first.
pub fn transaction_id<W: Words>(
    state: &ClientState,
    is_first: bool,
    exchange: Exchange,
    words: &mut W,
) -> u32
    ensures drawn { GivesDrawn (table.transaction_id state.now is_first exchange)
        (W.left words.old) result (W.left words.new) }
    ensures taken { DrawsBy W.gives (table.transaction_id state.now is_first exchange)
        words.old result words.new }
{
    match state {
        ClientState::Solicit => exchange.xid,
        ClientState::Request(_) => id_for(is_first, exchange, words),
        ClientState::Done(_) => id_for(is_first, exchange, words),
        ClientState::Temporary(_) => id_for(is_first, exchange, words),
        ClientState::Renew(_) => id_for(is_first, exchange, words),
        ClientState::Rebind(_) => id_for(is_first, exchange, words),
    }
}

// A new transaction id for the first attempt of a stay, and that of the exchange for the others.
fn id_for<W: Words>(is_first: bool, exchange: Exchange, words: &mut W) -> u32
    ensures drawn { GivesDrawn (table.id_for is_first exchange)
        (W.left words.old) result (W.left words.new) }
    ensures taken { DrawsBy W.gives (table.id_for is_first exchange) words.old result words.new }
{
    if is_first {
        new_id(words.next_word())
    } else {
        exchange.xid
    }
}

/// The identifier of the identity association that is asked for: drawn anew at each attempt of a
/// Solicit, where RFC 8415 section 12 asks for the same one over restarts. The other messages have
/// that of their lease, and for them it is 0.
pub fn association_id<W: Words>(state: &ClientState, words: &mut W) -> u32
    ensures drawn { GivesDrawn (table.association_id state.now)
        (W.left words.old) result (W.left words.new) }
    ensures taken { DrawsBy W.gives (table.association_id state.now) words.old result words.new }
{
    match state {
        ClientState::Solicit => words.next_word(),
        ClientState::Request(_) => 0,
        ClientState::Done(_) => 0,
        ClientState::Temporary(_) => 0,
        ClientState::Renew(_) => 0,
        ClientState::Rebind(_) => 0,
    }
}

/// An exchange whose count and previous wait begin anew.
pub fn restarted(exchange: Exchange) -> Exchange
    ensures { result ≡ table.restarted exchange }
{
    Exchange {
        xid: exchange.xid,
        retransmit_count: 0,
        previous_wait: 0,
        counted_from: exchange.counted_from,
    }
}
