//! How a client begins: with the head of a script.

ghost use Rattle.std.specs.Prelude.{◌≡◌, IfErr, IfOk, OnOk, true};
ghost use Rattle.dhcp_script.specs.Script4 as v4;
ghost use Rattle.dhcp_script.specs.Script6 as v6;
ghost use Rattle.dhcp_replay.specs.Life.{IsRefusal};
ghost use Rattle.dhcp_live.specs.Begin.{Begins4, Begins6, held4, held6};

use crate::{LiveClient, WordQueue};
use dhcp_replay::{begin_script4, begin_script6};
use dhcp_script::{Script4, Script6};
use dhcp_wire::{DhcpError, ErrorKind, FixedText};
use dhcp4_client::DhcpV4Client;
use dhcp6_client::DhcpV6Client;
use std::alloc::Global;

/// An IPv4 client that begins as a script says; the events of the script are not played.
/// `InvalidArgument` if and only if the script is not valid; else out of memory is the only error.
pub fn begin4(alloc: Global, script: &Script4) -> Result<LiveClient<DhcpV4Client>, DhcpError>
    ensures valid { OnOk result (v4.is_valid script.now ≡ true) }
    ensures refused { IfErr result (IsRefusal (v4.is_valid script.now)) }
    ensures begins { IfOk result (λ client. Begins4 script.now (held4 client)) }
{
    if !script.is_valid() {
        return Err(DhcpError::new_fixed(ErrorKind::InvalidArgument, FixedText::Script));
    }
    let mut words = WordQueue::with_words(alloc, script.words.as_slice())?;
    let client = begin_script4(alloc, script, &mut words)?;
    Ok(LiveClient::new(client, words, script.start))
}

/// An IPv6 client that begins as a script says; the events of the script are not played.
/// `InvalidArgument` if and only if the script is not valid; else out of memory is the only error.
pub fn begin6(alloc: Global, script: &Script6) -> Result<LiveClient<DhcpV6Client>, DhcpError>
    ensures valid { OnOk result (v6.is_valid script.now ≡ true) }
    ensures refused { IfErr result (IsRefusal (v6.is_valid script.now)) }
    ensures begins { IfOk result (λ client. Begins6 script.now (held6 client)) }
{
    if !script.is_valid() {
        return Err(DhcpError::new_fixed(ErrorKind::InvalidArgument, FixedText::Script));
    }
    let mut words = WordQueue::with_words(alloc, script.words.as_slice())?;
    let client = begin_script6(alloc, script, &mut words)?;
    Ok(LiveClient::new(client, words, script.start))
}
