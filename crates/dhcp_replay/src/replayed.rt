//! A script of either family, played.

ghost use Rattle.std.specs.Prelude.{◌≡◌, IfErr, IfOk, OnOk, All, map, true};
ghost use Rattle.dhcp_output.specs.Output.{HasText, plain_output};
ghost use Rattle.dhcp_script.specs.Script as scripts;
ghost use Rattle.dhcp_script.specs.Script4 as v4;
ghost use Rattle.dhcp_script.specs.Script6 as v6;
ghost use Rattle.dhcp_replay.specs.Life.{IsRefusal};
ghost use Rattle.dhcp_replay.specs.Promises.{KeepsPromisesOf};
ghost use Rattle.dhcp_replay.specs.Promises4.{KeepsPromisesOfV4};
ghost use Rattle.dhcp_replay.specs.Promises6.{KeepsPromisesOfV6};
ghost use Rattle.dhcp_replay.specs.Replayed as lives;
ghost use Rattle.dhcp_replay.specs.Replayed.{outputs_in};

use crate::{Replayed4, Replayed6, replay4, replay6};
use dhcp_clock::WordList;
use dhcp_output::Output;
use dhcp_script::{Script, Script4, Script6};
use dhcp_wire::{DhcpError, ErrorKind, FixedText, beside};
use std::alloc::Global;

/// What happened to the client of a script, and the client at the end.
#[derive(Drop)]
pub enum Replayed {
    /// Of an IPv4 script.
    V4(Box<Replayed4>),
    /// Of an IPv6 script.
    V6(Box<Replayed6>),
}

impl Replayed {
    /// What is reported of each event, in order.
    pub fn outputs(&self) -> &[Output]
        ensures { result.now ≡ outputs_in self.now }
    {
        match self {
            Replayed::V4(replayed) => replayed.outputs.as_slice(),
            Replayed::V6(replayed) => replayed.outputs.as_slice(),
        }
    }
}

/// Plays a script. `InvalidArgument` if and only if it is not valid; else out of memory is the only
/// error.
pub fn replay(alloc: Global, script: &Script) -> Result<Replayed, DhcpError>
    ensures valid { OnOk result (scripts.is_valid script.now ≡ true) }
    ensures refused { IfErr result (IsRefusal (scripts.is_valid script.now)) }
    ensures outputs { IfOk result (λ replayed.
        map plain_output (outputs_in replayed) ≡ lives.outputs_of script.now) }
    ensures failures { IfOk result (λ replayed. All HasText (outputs_in replayed)) }
    ensures client { IfOk result (λ replayed. lives.HasClientOf script.now replayed) }
    ensures promises { OnOk result (KeepsPromisesOf script.now) }
{
    match script {
        Script::V4(script) => {
            let replayed = replay_script4(alloc, script)?;
            Ok(Replayed::V4(Box::new(alloc, replayed)?))
        }
        Script::V6(script) => {
            let replayed = replay_script6(alloc, script)?;
            Ok(Replayed::V6(Box::new(alloc, replayed)?))
        }
    }
}

// Plays an IPv4 script.
fn replay_script4(alloc: Global, script: &Script4) -> Result<Replayed4, DhcpError>
    ensures valid { OnOk result (v4.is_valid script.now ≡ true) }
    ensures refused { IfErr result (IsRefusal (v4.is_valid script.now)) }
    ensures outputs { IfOk result (λ replayed.
        map plain_output replayed.outputs ≡ lives.outputs_of_v4 script.now) }
    ensures failures { IfOk result (λ replayed. All HasText replayed.outputs) }
    ensures client { IfOk result (λ replayed. lives.HasClientOfV4 script.now replayed) }
    ensures promises { OnOk result (KeepsPromisesOfV4 script.now) }
{
    if !script.is_valid() {
        return Err(DhcpError::new_fixed(ErrorKind::InvalidArgument, FixedText::Script));
    }
    let mut words = WordList::new(script.words.as_slice().to_vec(alloc)?);
    let config = script.config(alloc)?;
    let (config, lease) = beside(config, script.held_lease(alloc))?;
    let events = script.events.as_slice();
    replay4(alloc, config, lease, &mut words, script.start, events)
}

// Plays an IPv6 script.
fn replay_script6(alloc: Global, script: &Script6) -> Result<Replayed6, DhcpError>
    ensures valid { OnOk result (v6.is_valid script.now ≡ true) }
    ensures refused { IfErr result (IsRefusal (v6.is_valid script.now)) }
    ensures outputs { IfOk result (λ replayed.
        map plain_output replayed.outputs ≡ lives.outputs_of_v6 script.now) }
    ensures failures { IfOk result (λ replayed. All HasText replayed.outputs) }
    ensures client { IfOk result (λ replayed. lives.HasClientOfV6 script.now replayed) }
    ensures promises { OnOk result (KeepsPromisesOfV6 script.now) }
{
    if !script.is_valid() {
        return Err(DhcpError::new_fixed(ErrorKind::InvalidArgument, FixedText::Script));
    }
    let mut words = WordList::new(script.words.as_slice().to_vec(alloc)?);
    let config = script.config(alloc)?;
    let (config, lease) = beside(config, script.held_lease(alloc))?;
    let events = script.events.as_slice();
    replay6(alloc, config, lease, &mut words, script.start, events)
}
