//! Laws of leases and of the messages that a client sends. A call does nothing.

ghost use Rattle.std.specs.Prelude.{◌≡◌, ℕ, List, None, IsTrue, IsSome};
ghost use Rattle.std.specs.Net.Addr.{IsIpv4Addr};
ghost use Rattle.dhcp4_msg.specs.Options.{OptionMap, said_by};
ghost use Rattle.dhcp4_lease.specs.Config.{is_within_limits};
ghost use Rattle.dhcp4_lease.specs.Laws.{IsTyped, RowIsShort, RowReadsBack};
ghost use Rattle.dhcp4_lease.specs.Lease.{read_times};
ghost use Rattle.dhcp4_msg.specs.Value.{seconds_said};
ghost use Rattle.dhcp4_lease.specs.MessageTable as table;

use crate::message_table::server_of;
use crate::{DhcpV4Config, DhcpV4Lease};
use dhcp_wire::laws::has_six_bytes;
use dhcp4_msg::laws::messages_read_back;

/// A message that says its lease time and neither T1 nor T2 is never refused for its times,
/// whatever words are drawn.
pub fn usual_times_are_in_order()
    ensures { (options : OptionMap) (words : List ℕ) → said_by seconds_said options 58 ≡ None
        → said_by seconds_said options 59 ≡ None → IsSome (said_by seconds_said options 51)
        → IsSome (read_times options words).value }
{}

/// The messages of a configuration within its limits read back, whatever the transaction id: as the
/// table of messages has them, with the codes that they request under their names, and with End,
/// which is written after their options.
pub fn built_messages_read_back(config: &DhcpV4Config, lease: &DhcpV4Lease)
    requires { IsTrue (is_within_limits config.now) }
    ensures discover { RowReadsBack config.now table.discover }
    ensures request { RowReadsBack config.now (table.request lease.now) }
    ensures reboot { RowReadsBack config.now (table.reboot lease.now) }
    ensures extend { RowReadsBack config.now (table.extend config.now.message_forms lease.now) }
    ensures release { RowReadsBack config.now (table.release config.now.message_forms lease.now) }
{
    is_typed(config);
    has_addresses(lease);
    messages_read_back();
}

/// The Discover of a configuration within its limits has at most 1,027 bytes, whatever the
/// transaction id.
pub fn discovery_is_short(config: &DhcpV4Config)
    requires { IsTrue (is_within_limits config.now) }
    ensures { RowIsShort config.now table.discover }
{
    is_typed(config);
}

/// The other messages of a configuration within its limits have at most 1,027 bytes as well,
/// whatever the transaction id.
pub fn requests_are_short(config: &DhcpV4Config, lease: &DhcpV4Lease)
    requires { IsTrue (is_within_limits config.now) }
    ensures request { RowIsShort config.now (table.request lease.now) }
    ensures reboot { RowIsShort config.now (table.reboot lease.now) }
    ensures extend { RowIsShort config.now (table.extend config.now.message_forms lease.now) }
    ensures release { RowIsShort config.now (table.release config.now.message_forms lease.now) }
{
    is_typed(config);
    has_addresses(lease);
}

// What the types of a configuration keep.
fn is_typed(config: &DhcpV4Config)
    ensures { IsTyped config.now }
{
    has_six_bytes(config.src_mac);
    let _host_name = config.host_name.as_str();
}

// What the types of a lease keep of the addresses that messages name.
fn has_addresses(lease: &DhcpV4Lease)
    ensures yiaddr { IsIpv4Addr lease.now.yiaddr }
    ensures server { IsIpv4Addr (table.server_of lease.now) }
{
    let _yiaddr = lease.yiaddr.octets();
    let _server = server_of(lease).octets();
}
