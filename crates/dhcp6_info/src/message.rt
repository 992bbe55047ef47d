//! What a client hands to its link, RFC 8415 sections 7.1, 7.2 and 18.2.6.

ghost use Rattle.std.specs.Prelude.{◌≡◌, ◌≤◌, IfOk, length};
ghost use Rattle.dhcp_wire.specs.Outcome.{Makes};
ghost use Rattle.dhcp6_opt.specs.Duid.{written_duid};
ghost use Rattle.dhcp6_msg.specs.Message.{written_message};
ghost use Rattle.dhcp6_info.specs.Message as messages;

use crate::refresh_time::REFRESH_TIME;
use dhcp_clock::Handed;
use dhcp_wire::{Bytes, DhcpError, Sequence};
use dhcp6_msg::{DhcpV6Config, DhcpV6Message, DhcpV6MessageType};
use dhcp6_opt::{DhcpV6Option, DhcpV6OptionCode};
use std::alloc::Global;

/// What is handed to the link at an attempt, by a client that has tried for so many milliseconds:
/// an Information-request from its address on its interface. Out of memory is the only error.
pub fn attempt_message(
    alloc: Global,
    xid: u32,
    config: &DhcpV6Config,
    elapsed_ms: u64,
) -> Result<Handed, DhcpError>
    requires identifier { length (written_duid config.now.duid) ≤ 65535 }
    requires codes { length config.now.request_opts ≤ 32766 }
    ensures { Makes (λ handed. handed) result
        (messages.attempt_message xid config.now elapsed_ms) }
{
    let payload = information_request(alloc, xid, config, elapsed_ms)?;
    Ok(Handed::Udp6(config.src_ip, config.iface_index, payload))
}

// The bytes of the message: the client's identifier, the codes that it asks for, and the elapsed
// time.
#[tactic(auto, using(dhcp6_msg::proofs::OptionLemmas::requests_fit))]
fn information_request(
    alloc: Global,
    xid: u32,
    config: &DhcpV6Config,
    elapsed_ms: u64,
) -> Result<Bytes, DhcpError>
    requires identifier { length (written_duid config.now.duid) ≤ 65535 }
    requires codes { length config.now.request_opts ≤ 32766 }
    ensures { Makes (λ payload. payload) result
        (written_message (messages.information_request xid config.now elapsed_ms)) }
{
    let codes = requested_codes(alloc, &config.request_opts)?;
    let msg_type = DhcpV6MessageType::InformationRequest;
    let mut message = DhcpV6Message::new(alloc, msg_type, xid, &config.duid, elapsed_ms)?;
    message
        .options
        .insert(DhcpV6Option::OptionRequestOption(codes))?;
    message.emit(alloc)
}

// These codes, and that of the refresh time.
fn requested_codes(
    alloc: Global,
    codes: &Sequence<DhcpV6OptionCode>,
) -> Result<Sequence<DhcpV6OptionCode>, DhcpError>
    requires { length codes.now ≤ 32766 }
    ensures made { Makes (λ made. made) result (messages.requested_codes codes.now) }
    ensures few { IfOk result (λ made. length made ≤ 32767) }
{
    let mut requested = codes.try_clone(alloc)?;
    if !asks_for_refresh(codes) {
        requested.push(DhcpV6OptionCode::from(REFRESH_TIME))?;
    }
    Ok(requested)
}

// Whether that of the refresh time is among these codes.
fn asks_for_refresh(codes: &Sequence<DhcpV6OptionCode>) -> bool
    ensures { result ≡ messages.asks_for_refresh codes.now }
{
    codes
        .as_slice()
        .iter()
        .any(|code| u16::from(*code) == REFRESH_TIME)
}
