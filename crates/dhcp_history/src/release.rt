//! The release of a lease, and the clean-up.

ghost use Rattle.std.specs.Prelude.{◌≡◌, ℕ, List, true, is_some, if◌then◌else◌, Err, OnOk, IfOk, IfSome};
ghost use Rattle.dhcp_wire.specs.Fault.{HasCause};
ghost use Rattle.dhcp_clock.specs.Link.{Hands, HandsOver};
ghost use Rattle.dhcp_history.specs.Machine.{clean_up};
ghost use Rattle.dhcp_history.specs.Calls.{CleansUp, KeepsClient};
ghost use Rattle.dhcp_history.specs.Client.{unpolled, view_of};
ghost use Rattle.dhcp_history.specs.Errors.{sent_when};
ghost use Rattle.dhcp_history.specs.Release.{OnOutOfMemory, UnlessOutOfMemory, held_message, release_held, HasReleased};
ghost use Rattle.dhcp_history.specs.Turns.{TracesRelease};

use crate::attempt::send;
use crate::{Client, Rules, Standing};
use dhcp_clock::{DhcpLink, Handed, Sent};

/// Why a lease was not released.
#[derive(Clone, Copy, Debug, PartialEq, Eq)]
pub enum ReleaseError {
    /// The link refused the message.
    Refused,
    /// Out of memory.
    OutOfMemory,
}

/// Drops lease, attempt and error.
pub fn clean_up<R: Rules>(rules: &R, client: &mut Client<R::State, R::Exchange>)
    ensures { CleansUp (R.protocol rules.now) client.old client.new }
{
    let mut exchange = client.standing.exchange;
    rules.after_clean_up(&mut client.state, &mut exchange);
    client.standing = Standing::unpolled(exchange);
}

/// Releases the lease that is held, and cleans up where the link took the message; returns false
/// where no lease is held.
pub fn release_held<R: Rules, L: DhcpLink>(
    rules: &R,
    client: &mut Client<R::State, R::Exchange>,
    link: &mut L,
) -> Result<bool, ReleaseError>
    ensures released { UnlessOutOfMemory result
        (IfSome (L.shown link.old) (λ before. (available : List ℕ) →
        HasReleased (release_held (R.protocol rules.now) before.refuses
        (view_of client.old available))
        result (view_of client.new available) before (L.shown link.new))) }
    ensures held { IfOk result (λ released.
        released ≡ is_some ((R.protocol rules.now).held_lease client.old.state)) }
    ensures needed { OnOutOfMemory result
        (is_some ((R.protocol rules.now).held_lease client.old.state) ≡ true) }
    ensures unsent { OnOutOfMemory result (L.shown link.new ≡ L.shown link.old) }
    ensures traced { TracesRelease L.moves
        (held_message (R.protocol rules.now) client.old.state client.old.standing.exchange)
        result link.old link.new }
    ensures cleaned { IfOk result (λ released. (available : List ℕ) →
        view_of client.new available ≡ (if released
        then clean_up (R.protocol rules.now) (view_of client.old available)
        else view_of client.old available)) }
    ensures anew { IfOk result (λ released. released ≡ true →
        client.new.standing ≡ unpolled client.new.standing.exchange) }
    ensures kept { KeepsClient (R.protocol rules.now) result client.old client.new }
    ensures moment { client.new.last_moment ≡ client.old.last_moment }
    ensures faults { HasCause (result ≡ Err ReleaseError.Refused)
        (L.faults link.old) (L.faults link.new) }
{
    let Some(message) = rules.release_message(&client.state, client.standing.exchange)? else {
        return Ok(false);
    };
    release_by(rules, client, message, link)?;
    Ok(true)
}

/// Hands the release of a lease to the link, and cleans up where the link took it.
pub fn release_by<R: Rules, L: DhcpLink>(
    rules: &R,
    client: &mut Client<R::State, R::Exchange>,
    message: Handed,
    link: &mut L,
) -> Result<(), ReleaseError>
    ensures handed { HandsOver message (sent_when result) (L.shown link.old) (L.shown link.new) }
    ensures moved { L.moves (Hands message (sent_when result)) link.old link.new }
    ensures cleaned { OnOk result ((available : List ℕ) → view_of client.new available
        ≡ clean_up (R.protocol rules.now) (view_of client.old available)) }
    ensures anew { OnOk result (client.new.standing ≡ unpolled client.new.standing.exchange) }
    ensures kept { KeepsClient (R.protocol rules.now) result client.old client.new }
    ensures moment { client.new.last_moment ≡ client.old.last_moment }
    ensures faults { HasCause (result ≡ Err ReleaseError.Refused)
        (L.faults link.old) (L.faults link.new) }
{
    match send(link, message) {
        Sent::Taken => {
            clean_up(rules, client);
            Ok(())
        }
        Sent::Refused => Err(ReleaseError::Refused),
        Sent::NoMemory => Err(ReleaseError::OutOfMemory),
    }
}
