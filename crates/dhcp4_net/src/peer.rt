//! A client of a network, with the random words that it has left.

ghost use Rattle.std.specs.Prelude.{◌≡◌, ◌<◌, ◌^◌, IfErr, IfOk, length};
ghost use Rattle.dhcp_wire.specs.Error.{no_memory};
ghost use Rattle.dhcp_wire.specs.Outcome.{Makes};
ghost use Rattle.dhcp4_net.specs.Becomes.{Becomes};
ghost use Rattle.dhcp4_net.specs.Clients as clients;
ghost use Rattle.dhcp4_net.specs.Clients.{IsPeer, Plays};

use crate::NetClient;
use crate::log::ClientReports;
use dhcp_clock::{Packet, WordList};
use dhcp_history::NumberedEvent;
use dhcp_wire::DhcpError;
use dhcp4_client::DhcpV4Client;
use dhcp4_lease::DhcpV4Config;
use std::alloc::Global;

// The options that every client asks for: subnet mask, router and name servers.
const CODES: [u8; 3] = [1, 3, 6];

/// A client, and the random words that it has left.
#[derive(Drop)]
pub struct Peer {
    /// The client.
    pub client: Box<DhcpV4Client>,
    /// The words.
    pub words: WordList,
}

/// A client as a network begins it. Out of memory is the only error.
pub(crate) fn begun(alloc: Global, client: &NetClient) -> Result<Peer, DhcpError>
    ensures peer { IfOk result (λ peer.
        IsPeer (clients.config_of client.now) (clients.begun client.now) peer) }
    ensures error { IfErr result (λ error. error ≡ no_memory) }
{
    let mut words = WordList::new(client.words.as_slice().to_vec(alloc)?);
    let config = config_of(alloc, client)?;
    let client = DhcpV4Client::init(alloc, config, None, &mut words)?;
    Ok(Peer {
        client: Box::new(alloc, client)?,
        words,
    })
}

// The configuration of a client.
#[tactic(auto, unfolding(crate::specs::Clients::config_of, dhcp4_lease::specs::Config::config_of))]
fn config_of(alloc: Global, client: &NetClient) -> Result<DhcpV4Config, DhcpError>
    ensures { Makes (λ config. config) result (clients.config_of client.now) }
{
    let mut config = DhcpV4Config::new(alloc, "")?;
    put_fields(alloc, &mut config, client)?;
    Ok(config)
}

// Puts what a client has of its own into a configuration.
fn put_fields(alloc: Global, config: &mut DhcpV4Config, client: &NetClient) -> Result<(), DhcpError>
    ensures { Becomes result config.new (clients.with_fields client.now config.old) }
{
    config.iface_index = 1;
    config.set_message_forms(client.message_forms);
    let mac = client.mac;
    put_mac(config, &mac)?;
    put_codes(alloc, config)
}

// Puts the six bytes of a MAC address into a configuration.
#[tactic(auto, unfolding(dhcp4_lease::specs::Config::with_mac))]
fn put_mac(config: &mut DhcpV4Config, mac: &[u8]) -> Result<(), DhcpError>
    requires { length mac.now ≡ 6 }
    ensures { Becomes result config.new (record config.old { src_mac = mac.now }) }
{
    config.set_iface_mac_raw(mac)?;
    Ok(())
}

// Puts the options that every client asks for into a configuration.
fn put_codes(alloc: Global, config: &mut DhcpV4Config) -> Result<(), DhcpError>
    ensures { Becomes result config.new (record config.old { request_opts = clients.codes }) }
{
    config.override_request_dhcp_opts(alloc, &CODES)?;
    Ok(())
}

impl Peer {
    /// What the client reports of an event. Out of memory is the only error.
    pub(crate) fn play(
        &mut self,
        alloc: Global,
        event: NumberedEvent<Packet>,
    ) -> Result<ClientReports, DhcpError>
        requires { event.moment < 2 ^ 60 }
        ensures plays { IfOk result (λ reported. Plays event reported.items self.old self.new) }
        ensures error { IfErr result (λ error. error ≡ no_memory) }
    {
        let mut reports = Vec::new(alloc);
        self.client
            .play_event(&mut self.words, event, &mut reports)?;
        Ok(reports)
    }
}
