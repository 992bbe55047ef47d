//! What a manager keeps of a lease of IPv4, over a link and words of which nothing is known.

ghost use Rattle.std.specs.Prelude.{◌≡◌, ◌⊎◌, ◌<◌, ◌^◌, IfErr, IfOk, None, OnErr, OnOk, Some};
ghost use Rattle.std.specs.declared.net.Ipv4Addr.{Ipv4Addr};
ghost use Rattle.dhcp_wire.specs.Error.{no_memory};
ghost use Rattle.dhcp_history.specs.Calls.{HasNextPoll, IsHeldRelease, IsRun};
ghost use Rattle.dhcp_history.specs.Errors.{timed_out};
ghost use Rattle.dhcp_history.specs.Seen.{seen};
ghost use Rattle.dhcp4_client.specs.Rules.{held_lease, may_answer, protocol};
ghost use Rattle.dhcp4_client.specs.State.{plain_state};
ghost use Rattle.uses.specs.Upkeep.{HeardAddress, address_in_use, interface_following};

use crate::manager::{Follow, Interface, turn};
use dhcp_clock::{DhcpLink, Words};
use dhcp_wire::DhcpError;
use dhcp4_client::{DhcpV4Client, DhcpV4State};
use std::net::Ipv4Addr;

/// One poll at a moment, in milliseconds, which the interface follows: it returns what `run` says
/// of it, and only a change of the state changes the interface. An address that the interface takes
/// on is that of a lease which was read from the packet that the link gave last in this poll,
/// carried as awaited and with the client's transaction id.
pub fn follow_poll<W: Words, L: DhcpLink>(
    client: &mut DhcpV4Client,
    interface: &mut Interface,
    now: u64,
    words: &mut W,
    link: &mut L,
) -> Result<Option<DhcpV4State>, DhcpError>
    requires { now < 2 ^ 60 }
    ensures ran { IsRun protocol plain_state (may_answer client.old.config.message_forms) now
        result (seen client.old (W.left words.old) (L.shown link.old) (L.faults link.old))
        (seen client.new (W.left words.new) (L.shown link.new) (L.faults link.new)) }
    ensures followed { interface.new ≡ interface_following result interface.old }
    ensures heard { (address : Ipv4Addr) → interface.new.address ≡ Some address →
        (interface.old.address ≡ Some address) ⊎ HeardAddress W.gives L.moves now address
        client.old words.old words.new link.old link.new }
{
    let polled = client.run(now, words, link);
    if let Ok(Some(state)) = &polled {
        interface.follow(state);
    }
    polled
}

/// One turn at a moment, in milliseconds. Whatever it returns, the interface has afterwards the
/// address that may be used, and no other. Moment and errors are those of `turn`.
pub fn keep_turn<W: Words, L: DhcpLink>(
    client: &mut DhcpV4Client,
    interface: &mut Interface,
    now: u64,
    words: &mut W,
    link: &mut L,
) -> Result<Option<u64>, DhcpError>
    requires { now < 2 ^ 60 }
    ensures kept { interface.new.address ≡ address_in_use now client.new }
    ensures next { IfOk result (λ moment.
        HasNextPoll (protocol client.new.config) moment client.new.client) }
    ensures errors { IfErr result (λ error. (error ≡ timed_out) ⊎ (error ≡ no_memory)) }
{
    let next = turn(client, interface, now, words, link);
    interface.address = address_in_use(client, now);
    next
}

/// The address that may be used at a moment, in milliseconds: that of the lease that is held,
/// before the end of that; else none. A client that keeps an error may hold a lease that has ended.
pub fn address_in_use(client: &DhcpV4Client, now: u64) -> Option<Ipv4Addr>
    ensures { result ≡ address_in_use now client.now }
{
    let end = client.lease_end()?;
    if end <= now {
        return None;
    }
    let lease = client.lease()?;
    Some(lease.yiaddr)
}

/// Releases the lease that is held, at a moment in milliseconds, and takes its address off the
/// interface; whether one was held. Client, link and errors are those of `release_held`. Unless it
/// fails, the client holds nothing afterwards; if it fails, the interface is unchanged.
pub fn give_up<L: DhcpLink>(
    client: &mut DhcpV4Client,
    interface: &mut Interface,
    now: u64,
    link: &mut L,
) -> Result<bool, DhcpError>
    ensures released { IsHeldRelease protocol now result client.old client.new
        (L.shown link.old) (L.shown link.new) (L.faults link.old) (L.faults link.new) }
    ensures dropped { OnOk result (held_lease client.new.client.state ≡ None) }
    ensures taken_off { OnOk result (interface.new ≡ record interface.old { address = None }) }
    ensures unchanged { OnErr result (interface.new ≡ interface.old) }
{
    let released = client.release_held(now, link)?;
    interface.address = None;
    Ok(released)
}
