//! Whether a client has an open attempt, which a packet may answer.

ghost use Rattle.std.specs.Prelude.{◌≡◌};
ghost use Rattle.dhcp_verdict.specs.OpenAttempt.{is_open};

use dhcp_history::{Client, Phase, Rules, is_listening};

/// Whether an attempt is open at a moment, in milliseconds: the link took the last message of the
/// client, and a poll at this moment neither ends the state nor finds its time limit over. Does not
/// allocate.
pub fn is_open<R: Rules>(rules: &R, client: &Client<R::State, R::Exchange>, now: u64) -> bool
    ensures { result ≡ is_open (R.protocol rules.now) now client.now }
{
    // `is_listening` alone is true, too, of an attempt that is due.
    client.standing.phase == Phase::Listening && is_listening(rules, client, now)
}
