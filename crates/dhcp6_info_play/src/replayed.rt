//! The life of a client for configuration alone over the events of a script.

ghost use Rattle.std.specs.Prelude.{◌≡◌, All, IfErr, IfOk, IfSome, OnOk, map, true};
ghost use Rattle.dhcp_wire.specs.Error.{no_memory};
ghost use Rattle.dhcp_script.specs.Script6.{is_valid};
ghost use Rattle.dhcp_output.specs.Output.{HasText, plain_output};
ghost use Rattle.dhcp_replay.specs.Life.{CanPlay, IsRefusal};
ghost use Rattle.dhcp_history.specs.Rules.{GivesDrawn};
ghost use Rattle.dhcp6_msg.specs.Config.{client_duid};
ghost use Rattle.dhcp6_info.specs.Client.{Begins, can_begin};
ghost use Rattle.dhcp6_info_play.specs.Promises.{KeepsPromises, KeepsPromisesOf};
ghost use Rattle.dhcp6_info_play.specs.Replayed.{outputs_of, outputs_with};

use crate::laws;
use dhcp_clock::{WordList, Words};
use dhcp_output::Output;
use dhcp_replay::play;
use dhcp_script::{Event, Script6};
use dhcp_wire::{DhcpError, ErrorKind, FixedText, Sequence, boxed};
use dhcp6_info::DhcpV6InfoClient;
use dhcp6_msg::DhcpV6Config;
use std::alloc::Global;

/// Plays a script with a client for configuration alone, which uses neither its mode nor its lease,
/// and returns what is reported of its events, in order. `InvalidArgument` if and only if the
/// script is not valid; else out of memory is the only error.
pub fn replay_info(alloc: Global, script: &Script6) -> Result<Sequence<Output>, DhcpError>
    ensures valid { OnOk result (is_valid script.now ≡ true) }
    ensures refused { IfErr result (IsRefusal (is_valid script.now)) }
    ensures outputs { IfOk result (λ outputs. map plain_output outputs ≡ outputs_of script.now) }
    ensures failures { IfOk result (λ outputs. All HasText outputs) }
    ensures promises { OnOk result (KeepsPromisesOf script.now) }
{
    if !script.is_valid() {
        return Err(DhcpError::new_fixed(ErrorKind::InvalidArgument, FixedText::Script));
    }
    let mut words = WordList::new(script.words.as_slice().to_vec(alloc)?);
    let config = script.config(alloc)?;
    play_with(alloc, config, &mut words, script.events.as_slice())
}

// Plays events with a client of this configuration, with which one can begin.
fn play_with<W: Words>(
    alloc: Global,
    config: DhcpV6Config,
    words: &mut W,
    events: &[Event],
) -> Result<Sequence<Output>, DhcpError>
    requires begins { can_begin config ≡ true }
    requires plays { CanPlay events.now }
    ensures error { IfErr result (λ error. error ≡ no_memory) }
    ensures outputs { IfOk result (λ outputs. IfSome (W.left words.old) (λ drawn.
        map plain_output outputs ≡ outputs_with config drawn events.now)) }
    ensures failures { IfOk result (λ outputs. All HasText outputs) }
    ensures promises { OnOk result (IfSome (W.left words.old) (λ drawn.
        KeepsPromises config drawn events.now)) }
{
    let mut client = begun(alloc, config, words)?;
    laws::promises_are_kept(&client);
    play(alloc, &mut *client, words, events)
}

// A client that begins with this configuration, in a box.
fn begun<W: Words>(
    alloc: Global,
    config: DhcpV6Config,
    words: &mut W,
) -> Result<Box<DhcpV6InfoClient>, DhcpError>
    requires { can_begin config ≡ true }
    ensures error { IfErr result (λ error. error ≡ no_memory) }
    ensures begun { IfOk result (λ client. Begins config client.value) }
    ensures drawn { IfOk result (λ client. GivesDrawn (client_duid config)
        (W.left words.old) client.value.config.duid (W.left words.new)) }
{
    boxed(alloc, DhcpV6InfoClient::init(alloc, config, words))
}
