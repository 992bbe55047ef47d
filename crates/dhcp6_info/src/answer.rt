//! A packet as the awaited answer, RFC 8415 sections 16.10 and 18.2.10.4. It is tested in the bytes
//! that it was received in: its carrier, its type, its transaction id; only a packet that may
//! answer is copied.

ghost use Rattle.std.specs.Prelude.{◌≡◌, IfErr, IfOk, None, Ok, false, is_some};
ghost use Rattle.dhcp_wire.specs.Error.{no_memory};
ghost use Rattle.dhcp6_info.specs.Answer as answers;
ghost use Rattle.dhcp6_info.specs.Info as infos;

use crate::given_info::GivenInfo;
use crate::refresh_time::refresh_time;
use dhcp_clock::Packet;
use dhcp_wire::DhcpError;
use dhcp6_msg::{DhcpV6MessageType, DhcpV6View, concerns, payload_in};
use dhcp6_opt::DhcpV6Options;
use std::alloc::Global;

/// The configuration that a packet gives to an attempt with this transaction id, if it gives one.
/// Out of memory is the only error, and comes only of a packet that may answer.
pub fn read_answer(alloc: Global, xid: u32, packet: &Packet) -> Result<Option<GivenInfo>, DhcpError>
    ensures answer { IfOk result (λ answer. answer ≡ answers.info_in xid packet.now) }
    ensures error { IfErr result (λ error. error ≡ no_memory) }
    ensures free { is_some (answers.reply_for xid packet.now) ≡ false → result ≡ Ok None }
{
    let Some(payload) = payload_in(packet) else {
        return Ok(None);
    };
    let Some(view) = DhcpV6View::new(payload) else {
        return Ok(None);
    };
    if !concerns(DhcpV6MessageType::Reply, xid, &view) {
        return Ok(None);
    }
    given_by(alloc, payload, &view)
}

// The configuration that this message of a payload gives, if it gives one.
fn given_by(
    alloc: Global,
    payload: &[u8],
    message: &DhcpV6View,
) -> Result<Option<GivenInfo>, DhcpError>
    ensures given { IfOk result (λ given. given ≡ answers.given_by payload.now message.now) }
    ensures error { IfErr result (λ error. error ≡ no_memory) }
{
    let options = message.to_message(alloc)?.options;
    if !is_given(&options) {
        return Ok(None);
    }
    Ok(Some(GivenInfo::new(options, refresh_time(payload))))
}

// Whether these options of a Reply give a configuration.
fn is_given(options: &DhcpV6Options) -> bool
    ensures { result ≡ infos.is_given options.now }
{
    !options.has_failed() && options.server_id().is_some()
}
