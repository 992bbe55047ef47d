//! The life of an IPv4 client over the events of a script.

ghost use Rattle.std.specs.Prelude.{◌≡◌, All, IfErr, IfOk, IfSome, OnOk, Some, map, true};
ghost use Rattle.dhcp_clock.specs.Words.{GivesNext};
ghost use Rattle.dhcp4_client.specs.Client.{Begins};
ghost use Rattle.dhcp_output.specs.Output.{HasText, plain_output};
ghost use Rattle.dhcp_replay.specs.Promises4.{KeepsPromises};
ghost use Rattle.dhcp_replay.specs.Replayed4 as lives;

use crate::family::play;
use crate::laws;
use crate::life::check_events;
use dhcp_clock::Words;
use dhcp_output::Output;
use dhcp_script::Event;
use dhcp_wire::{DhcpError, Sequence, beside, boxed};
use dhcp4_client::DhcpV4Client;
use dhcp4_lease::{DhcpV4Config, DhcpV4Lease};
use std::alloc::Global;

/// What happened to an IPv4 client, and the client at the end.
#[derive(Drop)]
pub struct Replayed4 {
    /// What is reported of each event, in order.
    pub outputs: Sequence<Output>,
    /// The client as it is after the last event.
    pub client: Box<DhcpV4Client>,
}

/// Plays the events of a script with a client of this configuration, and with a lease that it held
/// before, if there is one. The start and the moments of the events are in milliseconds; the start
/// says only that no event is before it. `InvalidArgument` if and only if the client cannot begin
/// so, or start and events are not within their limits; else out of memory is the only error.
pub fn replay4<W: Words>(
    alloc: Global,
    config: DhcpV4Config,
    lease: Option<DhcpV4Lease>,
    words: &mut W,
    start: u64,
    events: &[Event],
) -> Result<Replayed4, DhcpError>
    ensures valid { OnOk result (lives.can_replay config lease start events.now ≡ true) }
    ensures refused { IfErr result
        (lives.IsRefusal (lives.can_replay config lease start events.now)) }
    ensures outputs { IfOk result (λ replayed. IfSome (W.left words.old) (λ drawn.
        map plain_output replayed.outputs ≡ lives.outputs4 config lease drawn events.now)) }
    ensures client { IfOk result (λ replayed. IfSome (W.left words.old) (λ drawn.
        lives.IsClientAfter config lease drawn events.now replayed.client.value)) }
    ensures words { IfOk result (λ replayed. IfSome (W.left words.old) (λ drawn.
        W.left words.new ≡ Some (lives.client_after config lease drawn events.now).words)) }
    ensures failures { IfOk result (λ replayed. All HasText replayed.outputs) }
    ensures promises { OnOk result (IfSome (W.left words.old) (λ drawn.
        KeepsPromises config lease drawn events.now)) }
{
    let mut client = begun4(alloc, config, lease, words, start, events)?;
    laws::promises_are_kept(&client);
    let outputs = play(alloc, &mut *client, words, events)?;
    Ok(Replayed4 { outputs, client })
}

// A client that begins, in a box, if start and events are within the limits of a script.
fn begun4<W: Words>(
    alloc: Global,
    config: DhcpV4Config,
    lease: Option<DhcpV4Lease>,
    words: &mut W,
    start: u64,
    events: &[Event],
) -> Result<Box<DhcpV4Client>, DhcpError>
    ensures valid { OnOk result (lives.can_replay config lease start events.now ≡ true) }
    ensures refused { IfErr result
        (lives.IsRefusal (lives.can_replay config lease start events.now)) }
    ensures begun { IfOk result (λ client. Begins config lease client.value) }
    ensures drawn { IfOk result (λ client. GivesNext (W.left words.old)
        client.value.client.standing.exchange.xid (W.left words.new)) }
{
    let ((config, lease), ()) = beside((config, lease), check_events(start, events))?;
    boxed(alloc, DhcpV4Client::init(alloc, config, lease, words))
}
