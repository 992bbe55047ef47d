//! A network of DHCPv4 clients and one server.
#![tactic(auto)]

mod log;
mod net;
mod output;
mod peer;
mod running;
mod script;

ghost use Rattle.std.specs.Prelude.{◌≡◌, ℕ, List, Some, true, All, length};
ghost use Rattle.dhcp4_server.specs.Config.{is_lawful};
ghost use Rattle.dhcp4_server.specs.declared.config.ServerConfig.{ServerConfig};
ghost use Rattle.dhcp4_server.specs.Config.{IsTyped};
ghost use Rattle.dhcp4_net.specs.Clients.{HaveDistinctIds, IsTypedClient, net_of};
ghost use Rattle.dhcp4_net.specs.declared.script.NetClient.{NetClient};
ghost use Rattle.dhcp4_net.specs.Net.{Net};
ghost use Rattle.dhcp4_net.specs.declared.script.NetEvent.{NetEvent};
ghost use Rattle.dhcp4_net.specs.OneAddress.{OneAddress, OneHolder};

pub use log::SentPacket;
pub use net::run_net;
pub use output::{NetOutput, NetWhat};
pub use script::{MAX_CLIENTS, MAX_EVENTS, NetAct, NetClient, NetEvent, NetScript, NetWho};

/// In every network of a lawful server and clients with different transaction ids, after whatever
/// events may come, no moment is covered by two holds of one address by different clients; and no
/// two clients hold one address at one moment, by the states in which they stand.
pub fn one_address()
    ensures reported { (server : ServerConfig) (clients : List NetClient) (start : ℕ)
        (events : List NetEvent) (end : Net) →
        IsTyped server → is_lawful server ≡ true →
        All IsTypedClient clients → HaveDistinctIds clients →
        net_of server clients start events ≡ Some end → OneAddress end.outputs }
    ensures held { (server : ServerConfig) (clients : List NetClient) (start : ℕ)
        (events : List NetEvent) (end : Net) →
        IsTyped server → is_lawful server ≡ true →
        All IsTypedClient clients → HaveDistinctIds clients →
        net_of server clients start events ≡ Some end → OneHolder (length clients) end }
{}
