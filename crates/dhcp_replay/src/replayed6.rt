//! The life of an IPv6 client over the events of a script.

ghost use Rattle.std.specs.Prelude.{◌≡◌, ◌&&◌, All, IfErr, IfOk, IfSome, OnOk, Some, is_ok, map, true};
ghost use Rattle.dhcp6_opt.specs.Duid.{written_duid};
ghost use Rattle.dhcp_history.specs.Rules.{GivesDrawn};
ghost use Rattle.dhcp6_client.specs.Client.{Begins, drawn_for, first_draws};
ghost use Rattle.dhcp_script.specs.Duid as duids;
ghost use Rattle.dhcp_script.specs.Event.{are_valid as are_within_limits};
ghost use Rattle.dhcp_output.specs.Output.{HasText, plain_output};
ghost use Rattle.dhcp_replay.specs.Promises6.{KeepsPromises};
ghost use Rattle.dhcp_replay.specs.Replayed6 as lives;

use crate::family::play;
use crate::laws;
use crate::life::check_events;
use dhcp_clock::Words;
use dhcp_output::Output;
use dhcp_script::{Event, MAX_CODES_V6, MAX_DUID_LEN};
use dhcp_wire::{DhcpError, ErrorKind, FixedText, Sequence, beside, boxed};
use dhcp6_client::DhcpV6Client;
use dhcp6_msg::{DhcpV6Config, DhcpV6Lease};
use dhcp6_opt::DhcpV6Duid;
use std::alloc::Global;

/// What happened to an IPv6 client, and the client at the end.
#[derive(Drop)]
pub struct Replayed6 {
    /// What is reported of each event, in order.
    pub outputs: Sequence<Output>,
    /// The client as it is after the last event.
    pub client: Box<DhcpV6Client>,
}

/// Plays the events of a script with a client of this configuration, and with a lease that it held
/// before, if there is one, whose times count from the start. The start and the moments of the
/// events are in milliseconds. `InvalidArgument` if and only if the client cannot begin so, or what
/// is given is not within the limits of a script: start and events are not, the client's identifier
/// is neither empty nor 2 to 130 bytes, there are more than 1,000 option codes, or the server's
/// identifier of the lease is not 2 to 130 bytes; else out of memory is the only error.
pub fn replay6<W: Words>(
    alloc: Global,
    config: DhcpV6Config,
    lease: Option<DhcpV6Lease>,
    words: &mut W,
    start: u64,
    events: &[Event],
) -> Result<Replayed6, DhcpError>
    ensures valid { OnOk result (lives.can_replay config lease start events.now ≡ true) }
    ensures refused { IfErr result
        (lives.IsRefusal (lives.can_replay config lease start events.now)) }
    ensures outputs { IfOk result (λ replayed. IfSome (W.left words.old) (λ drawn.
        map plain_output replayed.outputs
        ≡ lives.outputs6 config lease start drawn events.now)) }
    ensures client { IfOk result (λ replayed. IfSome (W.left words.old) (λ drawn.
        lives.IsClientAfter config lease start drawn events.now replayed.client.value)) }
    ensures words { IfOk result (λ replayed. IfSome (W.left words.old) (λ drawn.
        W.left words.new ≡ Some (lives.client_after config lease start drawn events.now).words)) }
    ensures failures { IfOk result (λ replayed. IfSome (W.left words.old) (λ drawn.
        All HasText replayed.outputs)) }
    ensures promises { OnOk result (IfSome (W.left words.old) (λ drawn.
        KeepsPromises config lease start drawn events.now)) }
{
    let mut client = begun6(alloc, config, lease, words, start, events)?;
    laws::promises6_are_kept(&client);
    let outputs = play(alloc, &mut *client, words, events)?;
    Ok(Replayed6 { outputs, client })
}

// A client that begins, in a box, if all that it is given is within the limits of a script.
fn begun6<W: Words>(
    alloc: Global,
    config: DhcpV6Config,
    lease: Option<DhcpV6Lease>,
    words: &mut W,
    start: u64,
    events: &[Event],
) -> Result<Box<DhcpV6Client>, DhcpError>
    ensures valid { OnOk result (lives.can_replay config lease start events.now ≡ true) }
    ensures refused { IfErr result
        (lives.IsRefusal (lives.can_replay config lease start events.now)) }
    ensures begun { IfOk result (λ client. Begins config lease start client.value) }
    ensures drawn { IfOk result (λ client. GivesDrawn (first_draws config)
        (W.left words.old) (drawn_for client.value) (W.left words.new)) }
{
    let within = check_limits(&config, &lease, start, events);
    let ((config, lease), ()) = beside((config, lease), within)?;
    boxed(
        alloc,
        DhcpV6Client::init(alloc, config, lease, start, words),
    )
}

// Whether all that a client is given is within the limits of a script; the error says that it is
// not.
fn check_limits(
    config: &DhcpV6Config,
    lease: &Option<DhcpV6Lease>,
    start: u64,
    events: &[Event],
) -> Result<(), DhcpError>
    ensures within { is_ok result
        ≡ are_within_limits start events.now && lives.fit_a_script config.now lease.now }
    ensures refused { IfErr result (λ error. error.kind ≡ ErrorKind.InvalidArgument) }
{
    check_events(start, events)?;
    if !fit_a_script(config, lease) {
        return Err(DhcpError::new_fixed(ErrorKind::InvalidArgument, FixedText::Script));
    }
    Ok(())
}

// Whether a configuration and a lease are within the limits of a script.
fn fit_a_script(config: &DhcpV6Config, lease: &Option<DhcpV6Lease>) -> bool
    ensures { result ≡ lives.fit_a_script config.now lease.now }
{
    let names_its_server = match lease {
        Some(lease) => is_script_duid(&lease.srv_duid),
        None => true,
    };
    (config.duid.written_len() == 0 || is_script_duid(&config.duid))
        && config.request_opts.len() <= MAX_CODES_V6
        && names_its_server
}

// Whether an identifier has 2 to 130 bytes.
fn is_script_duid(duid: &DhcpV6Duid) -> bool
    ensures { result ≡ duids.is_script_duid (written_duid duid.now) }
{
    let len = duid.written_len();
    2 <= len && len <= MAX_DUID_LEN
}
