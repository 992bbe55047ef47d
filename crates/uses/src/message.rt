//! Building a message, writing it and reading it.

ghost use Rattle.std.specs.Prelude.{◌≡◌, ◌↔◌, None, IfErr, IfOk, IfSome, IsTrue, is_some};
ghost use Rattle.std.specs.FinMap as map;
ghost use Rattle.dhcp_wire.specs.Error.{no_memory};
ghost use Rattle.dhcp_wire.specs.Outcome.{Makes};
ghost use Rattle.dhcp4_msg.specs.Laws.{MessageIsInRange, read_back};
ghost use Rattle.dhcp4_msg.specs.Message.{written_message};
ghost use Rattle.dhcp4_lease.specs.Config.{is_within_limits};
ghost use Rattle.dhcp4_lease.specs.MessageTable.{discover, table_message};
ghost use Rattle.uses.specs.Configs.{named_config4};

use dhcp_wire::{Bytes, DhcpError};
use dhcp4_lease::{DhcpV4Config, DhcpV4MessageForms, new_discovery};
use dhcp4_msg::DhcpV4Message;
use dhcp4_msg::laws::message_reads_back;
use std::alloc::Global;

/// The configuration of a client on `eth0` that names its host, is known by its MAC address, sends
/// the messages of RFC 2131, and asks for static routes too. Out of memory is the only error.
#[tactic(auto, using(crate::proofs::Facts::facts))]
pub fn configuration(alloc: Global) -> Result<DhcpV4Config, DhcpError>
    ensures { Makes (λ config. config) result named_config4 }
{
    let mut config = DhcpV4Config::new(alloc, "eth0")?;
    config
        .set_iface_index(3)
        .set_message_forms(DhcpV4MessageForms::Rfc2131);
    config
        .set_iface_mac(alloc, "02:00:00:00:00:01")?
        .use_mac_as_client_id(alloc)?;
    config.set_host_name(alloc, "foo")?;
    config.request_extra_dhcp_opts(alloc, &[33])?;
    Ok(config)
}

/// The payload of a Discover with this transaction id. None if and only if the configuration is
/// outside its limits.
pub fn discover_payload(
    alloc: Global,
    xid: u32,
    config: &DhcpV4Config,
) -> Result<Option<Bytes>, DhcpError>
    ensures bytes { IfOk result (λ found. IfSome found (λ payload.
        payload ≡ written_message (table_message xid config.now discover))) }
    ensures made { IfOk result (λ found. is_some found ≡ is_within_limits config.now) }
    ensures error { IfErr result (λ e. e ≡ no_memory) }
{
    if !config.is_within_limits() {
        return Ok(None);
    }
    new_discovery(alloc, xid, config)?.to_bytes(alloc).map(Some)
}

/// Writes a message and reads it again: it is the same, with End added to its options.
pub fn read_again(alloc: Global, message: &DhcpV4Message) -> Result<DhcpV4Message, DhcpError>
    requires { MessageIsInRange message.now }
    ensures { Makes (λ read. read) result (read_back message.now) }
{
    message_reads_back(message);
    let payload = message.to_bytes(alloc)?;
    DhcpV4Message::parse(alloc, payload.as_slice())
}

/// Whether a message has no option 53.
pub fn has_no_type(message: &DhcpV4Message) -> bool
    ensures { IsTrue result ↔ (map.get message.now.options 53 ≡ None) }
{
    message.message_type().is_none()
}
