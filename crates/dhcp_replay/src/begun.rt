//! How the client of a script begins.

ghost use Rattle.std.specs.Prelude.{◌≡◌, IfErr, IfOk, option_map, true};
ghost use Rattle.dhcp_wire.specs.Error.{no_memory};
ghost use Rattle.dhcp_clock.specs.Words.{GivesNext};
ghost use Rattle.dhcp_history.specs.Rules.{GivesDrawn};
ghost use Rattle.dhcp4_client.specs.Client.{Begins as Begins4};
ghost use Rattle.dhcp6_client.specs.Client.{Begins as Begins6, drawn_for, first_draws};
ghost use Rattle.dhcp_script.specs.Lease4 as lease4;
ghost use Rattle.dhcp_script.specs.Lease6 as lease6;
ghost use Rattle.dhcp_script.specs.Script4 as v4;
ghost use Rattle.dhcp_script.specs.Script6 as v6;

use dhcp_clock::Words;
use dhcp_script::{Script4, Script6};
use dhcp_wire::{DhcpError, beside, boxed};
use dhcp4_client::DhcpV4Client;
use dhcp6_client::DhcpV6Client;
use std::alloc::Global;

/// The client of a valid IPv4 script before its first event, in a box, with the configuration and
/// the lease of the script. Out of memory is the only error.
pub fn begin_script4<W: Words>(
    alloc: Global,
    script: &Script4,
    words: &mut W,
) -> Result<Box<DhcpV4Client>, DhcpError>
    requires { v4.is_valid script.now ≡ true }
    ensures begun { IfOk result (λ client. Begins4 (v4.config_of script.now)
        (option_map lease4.lease_with script.now.lease) client.value) }
    ensures drawn { IfOk result (λ client. GivesNext (W.left words.old)
        client.value.client.standing.exchange.xid (W.left words.new)) }
    ensures error { IfErr result (λ error. error ≡ no_memory) }
{
    let config = script.config(alloc)?;
    let (config, lease) = beside(config, script.held_lease(alloc))?;
    boxed(alloc, DhcpV4Client::init(alloc, config, lease, words))
}

/// The client of a valid IPv6 script before its first event, in a box, with the configuration and
/// the lease of the script, whose times count from the start. Out of memory is the only error.
pub fn begin_script6<W: Words>(
    alloc: Global,
    script: &Script6,
    words: &mut W,
) -> Result<Box<DhcpV6Client>, DhcpError>
    requires { v6.is_valid script.now ≡ true }
    ensures begun { IfOk result (λ client. Begins6 (v6.config_of script.now)
        (option_map lease6.lease_with script.now.lease) script.now.start client.value) }
    ensures drawn { IfOk result (λ client. GivesDrawn (first_draws (v6.config_of script.now))
        (W.left words.old) (drawn_for client.value) (W.left words.new)) }
    ensures error { IfErr result (λ error. error ≡ no_memory) }
{
    let config = script.config(alloc)?;
    let (config, lease) = beside(config, script.held_lease(alloc))?;
    boxed(
        alloc,
        DhcpV6Client::init(alloc, config, lease, script.start, words),
    )
}
