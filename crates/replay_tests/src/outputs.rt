//! The text of what is reported, and its summary.

ghost use Rattle.std.specs.Prelude.{All, IfOk};
ghost use Rattle.dhcp6_client.specs.State.{plain_state};
ghost use Rattle.dhcp_output.specs.Output.{HasText, HasStateText6};

use dhcp_clock::Handed;
use dhcp_output::{Output, OutputWhat, Reported, print_outputs, print_summary};
use dhcp_wire::{Bytes, DhcpError, ErrorKind};
use dhcp4_client::DhcpV4State;
use dhcp6_client::DhcpV6State;
use dhcp6_msg::{DhcpV6IaType, DhcpV6Lease};
use std::alloc::Global;

// Whether these outputs of 21 events have this text and this summary.
fn are_printed(
    alloc: Global,
    outputs: &[Output],
    text: &str,
    summary: &str,
) -> Result<bool, DhcpError>
    requires { All HasText outputs.now }
{
    let printed = print_outputs(alloc, outputs)?;
    let counted = print_summary(alloc, 21, outputs)?;
    Ok(printed.as_slice() == text.as_bytes() && counted.as_slice() == summary.as_bytes())
}

// Whether a message that was taken, a state and a failure have this text and this summary.
fn are_three_printed(
    alloc: Global,
    message: Bytes,
    text: &str,
    summary: &str,
) -> Result<bool, DhcpError> {
    let outputs = [
        Output {
            event: 1,
            what: OutputWhat::Handed(Handed::Frame(message)),
        },
        Output {
            event: 20,
            what: OutputWhat::Changed(Reported::V4(DhcpV4State::Selecting)),
        },
        Output {
            event: 21,
            what: OutputWhat::Failed(ErrorKind::Timeout),
        },
    ];
    are_printed(alloc, &outputs, text, summary)
}

#[test]
fn outputs_are_printed_in_lines_and_counted_by_kind(rt: HostRuntime) {
    let message = Bytes::from_slice(rt.alloc(), &[0, 255]).expect(&rt, "memory");
    let text = "1 handed frame 00ff\n20 state selecting\n21 failed timeout\nok\n";
    let summary = "events 21\nhanded 1\nrefused 0\nchanged 1\nfailed 1\nok\n";
    let are_printed = are_three_printed(rt.alloc(), message, text, summary);
    assert!(rt; are_printed.expect(&rt, "memory"));
}

// Whether this state, reported of the third event, has this text.
fn is_state_printed(alloc: Global, state: DhcpV6State, text: &str) -> Result<bool, DhcpError>
    requires { HasStateText6 (plain_state state) }
{
    let outputs = [Output {
        event: 3,
        what: OutputWhat::Changed(Reported::V6(state)),
    }];
    are_printed(
        alloc,
        &outputs,
        text,
        "events 21\nhanded 0\nrefused 0\nchanged 1\nfailed 0\nok\n",
    )
}

#[test]
fn states_of_ipv6_are_printed(rt: HostRuntime) {
    let alloc = rt.alloc();
    let is_solicit = is_state_printed(alloc, DhcpV6State::Solicit, "3 state solicit\nok\n");
    assert!(rt; is_solicit.expect(&rt, "memory"));
    let is_request = is_state_printed(alloc, DhcpV6State::Request, "3 state request\nok\n");
    assert!(rt; is_request.expect(&rt, "memory"));
    let is_renew = is_state_printed(alloc, DhcpV6State::Renew, "3 state renew\nok\n");
    assert!(rt; is_renew.expect(&rt, "memory"));
    let is_rebind = is_state_printed(alloc, DhcpV6State::Rebind, "3 state rebind\nok\n");
    assert!(rt; is_rebind.expect(&rt, "memory"));
}

// A state with the lease of a prefix of 60 bits.
fn done_with_prefix(alloc: Global) -> Result<DhcpV6State, DhcpError>
    ensures { IfOk result (λ state. HasStateText6 (plain_state state)) }
{
    let mut lease = DhcpV6Lease::empty(alloc);
    lease.ia_type = Some(DhcpV6IaType::PrefixDelegation);
    lease.prefix_len = 60;
    lease.preferred_time_sec = 7;
    lease.valid_time_sec = 8;
    Ok(DhcpV6State::Done(Box::new(alloc, lease)?))
}

#[test]
fn a_lease_of_ipv6_is_printed_with_its_type_and_its_length(rt: HostRuntime) {
    let state = done_with_prefix(rt.alloc()).expect(&rt, "memory");
    let text = "3 state done pd 0 00000000000000000000000000000000 60 - 0 0 7 8 0 - \
        00000000000000000000000000000000\nok\n";
    assert!(rt; is_state_printed(rt.alloc(), state, text).expect(&rt, "memory"));
}
