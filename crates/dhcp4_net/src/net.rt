//! A network, run by its script.

ghost use Rattle.std.specs.Prelude.{◌≡◌, ◌<◌, All, IfOk, IfSome, length, ok_or, true};
ghost use Rattle.dhcp_wire.specs.Outcome.{Gives};
ghost use Rattle.dhcp4_net.specs.Clients.{IsTypedClient};
ghost use Rattle.dhcp4_net.specs.OneAddress.{OneAddress, OneHolder};
ghost use Rattle.dhcp4_net.specs.Script.{IsWithin, is_within_limits, net_at_end, outputs_at_end};

use crate::running::RunningNet;
use crate::{NetClient, NetOutput, NetScript};
use dhcp_wire::laws::has_six_bytes;
use dhcp_wire::{DhcpError, ErrorKind, FixedText};
use dhcp4_server::laws::a_configuration_is_typed;
use std::alloc::Global;

/// What is reported of a network, event by event. `InvalidArgument` if and only if the script is
/// not valid: it is not within its limits, or an event may not come, since its moment is before the
/// one above it or the start, there is no such client, or its packet was not sent or was sent
/// longer than the server's bound before. Out of memory is the only other error.
pub fn run_net(alloc: Global, script: &NetScript) -> Result<Vec<NetOutput>, DhcpError>
    ensures played { Gives (λ outputs. outputs.items) result
        (ok_or (outputs_at_end script.now) ErrorKind.InvalidArgument) }
    ensures one_address { IfOk result (λ outputs. OneAddress outputs.items) }
    ensures one_holder { IfOk result (λ _. IfSome (net_at_end script.now)
        (OneHolder (length script.now.clients))) }
{
    if !script.is_within_limits() {
        return Err(not_valid());
    }
    keeps_one_address(script);
    play(alloc, script)
}

// The error of a script that is not valid.
fn not_valid() -> DhcpError
    ensures { result.kind ≡ ErrorKind.InvalidArgument }
{
    DhcpError::new_fixed(ErrorKind::InvalidArgument, FixedText::Script)
}

// What is reported of a network, if its script is within its limits.
fn play(alloc: Global, script: &NetScript) -> Result<Vec<NetOutput>, DhcpError>
    requires { IsWithin script.now }
    ensures { Gives (λ outputs. outputs.items) result
        (ok_or (outputs_at_end script.now) ErrorKind.InvalidArgument) }
{
    let mut net = Box::new(alloc, RunningNet::begun(alloc, script)?)?;
    if !net.play_all(script.events.as_slice())? {
        return Err(not_valid());
    }
    Ok(Box::into_inner(net).into_outputs())
}

// No address has two holders in a network within its limits. A call does nothing.
fn keeps_one_address(script: &NetScript)
    requires { is_within_limits script.now ≡ true }
    ensures within { IsWithin script.now }
    ensures address { IfSome (net_at_end script.now) (λ net. OneAddress net.outputs) }
    ensures holder { IfSome (net_at_end script.now) (OneHolder (length script.now.clients)) }
{
    a_configuration_is_typed(&script.server);
    are_typed(script.clients.as_slice());
}

// What the types of clients keep. A call does nothing.
fn are_typed(clients: &[NetClient])
    ensures { All IsTypedClient clients.now }
{
    for client in clients {
        is_typed(client);
    }
}

// What the types of a client keep. A call does nothing.
fn is_typed(client: &NetClient)
    ensures { IsTypedClient client.now }
{
    has_six_bytes(client.mac);
    let _xid = client.xid();
}
