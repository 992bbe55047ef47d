//! A release at a moment, which the client keeps, with the errors of its calls.

ghost use Rattle.std.specs.Prelude.{◌≡◌, ◌⊎◌, IfErr};
ghost use Rattle.dhcp_wire.specs.Error.{no_memory};
ghost use Rattle.dhcp_clock.specs.Link.{Hands};
ghost use Rattle.dhcp_history.specs.Calls.{Releases, ReleasesHeld};
ghost use Rattle.dhcp_history.specs.Errors.{release_answer, send_refused, sent_of};
ghost use Rattle.dhcp_history.specs.Release.{UnlessOutOfMemory, held_message};
ghost use Rattle.dhcp_history.specs.Turns.{TracesRelease};

use crate::{Client, ReleaseError, Rules, release_by, release_held};
use dhcp_clock::{DhcpLink, Handed};
use dhcp_wire::DhcpError;

/// Hands the release of a lease to the link at a moment, in milliseconds, and cleans up where the
/// link took it. `IoError` if and only if the link refused it; the client is then unchanged but for
/// its last moment.
pub fn release_at<R: Rules, L: DhcpLink>(
    rules: &R,
    client: &mut Client<R::State, R::Exchange>,
    message: Handed,
    now: u64,
    link: &mut L,
) -> Result<(), DhcpError>
    ensures releases { Releases (R.protocol rules.now) message now result client.old client.new
        (L.shown link.old) (L.shown link.new) (L.faults link.old) (L.faults link.new) }
    ensures moved { L.moves (Hands message (sent_of result)) link.old link.new }
{
    let released = release_by(rules, client, message, link);
    keep_moment(client, released, now)
}

/// Releases the lease that is held, at a moment in milliseconds, and cleans up where the link took
/// the message; returns false if no lease is held, and then sends nothing. `IoError` if and only if
/// the link refused the message; the client is then unchanged but for its last moment.
pub fn release_held_at<R: Rules, L: DhcpLink>(
    rules: &R,
    client: &mut Client<R::State, R::Exchange>,
    now: u64,
    link: &mut L,
) -> Result<bool, DhcpError>
    ensures releases { ReleasesHeld (R.protocol rules.now) now result client.old client.new
        (L.shown link.old) (L.shown link.new) (L.faults link.old) (L.faults link.new) }
    ensures traced { TracesRelease L.moves
        (held_message (R.protocol rules.now) client.old.state client.old.standing.exchange)
        (release_answer result) link.old link.new }
{
    let released = release_held(rules, client, link);
    keep_moment(client, released, now)
}

// The answer of a release at this moment, which the client keeps unless out of memory.
fn keep_moment<S, X: Copy, T>(
    client: &mut Client<S, X>,
    released: Result<T, ReleaseError>,
    now: u64,
) -> Result<T, DhcpError>
    ensures same { release_answer result ≡ released }
    ensures errors { IfErr result (λ error. (error ≡ send_refused) ⊎ (error ≡ no_memory)) }
    ensures moment { UnlessOutOfMemory released (client.new.last_moment ≡ now) }
    ensures timeout { client.new.timeout_sec ≡ client.old.timeout_sec }
    ensures state { client.new.state ≡ client.old.state }
    ensures standing { client.new.standing ≡ client.old.standing }
{
    if !matches!(released, Err(ReleaseError::OutOfMemory)) {
        client.last_moment = now;
    }
    Ok(released?)
}
