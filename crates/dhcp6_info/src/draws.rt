//! What a client draws for an attempt, RFC 8415 sections 15, 16.1 and 18.2.6.

ghost use Rattle.std.specs.Prelude.{◌≡◌, ◌≤◌};
ghost use Rattle.dhcp_clock.specs.Words.{DrawsBy};
ghost use Rattle.dhcp_history.specs.Rules.{GivesDrawn};
ghost use Rattle.dhcp6_info.specs.Rules as table;

use crate::client_state::Exchange;
use dhcp_clock::{Words, retransmit_wait};
use dhcp6_msg::new_id;

/// About how long the first Information-request of a stay awaits an answer, in milliseconds. RFC
/// 8415 section 7.6.
const INF_TIMEOUT: u64 = 1_000;

/// About how long an Information-request awaits an answer at most, in milliseconds. RFC 8415
/// section 7.6.
const INF_MAX_RT: u64 = 3_600_000;

/// How long an answer is awaited, in milliseconds, by the wait before. RFC 8415 section 15.
pub fn wait<W: Words>(exchange: Exchange, words: &mut W) -> u64
    ensures drawn { GivesDrawn (table.wait exchange)
        (W.left words.old) result (W.left words.new) }
    ensures taken { DrawsBy W.gives (table.wait exchange) words.old result words.new }
    ensures short { result ≤ 3960000 }
{
    retransmit_wait(
        u64::from(exchange.previous_wait),
        INF_TIMEOUT,
        INF_MAX_RT,
        words,
    )
}

/// The transaction id of an attempt: a new one for the first of a stay, and for the others that of
/// the exchange. RFC 8415 section 16.1.
pub fn transaction_id<W: Words>(is_first: bool, exchange: Exchange, words: &mut W) -> u32
    ensures drawn { GivesDrawn (table.transaction_id is_first exchange)
        (W.left words.old) result (W.left words.new) }
    ensures taken { DrawsBy W.gives (table.transaction_id is_first exchange)
        words.old result words.new }
{
    if is_first {
        new_id(words.next_word())
    } else {
        exchange.xid
    }
}

/// An exchange whose previous wait begins anew.
pub fn restarted(exchange: Exchange) -> Exchange
    ensures { result ≡ table.restarted exchange }
{
    Exchange {
        xid: exchange.xid,
        previous_wait: 0,
    }
}
