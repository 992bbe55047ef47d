//! The clients that a manager runs.

ghost use Rattle.std.specs.Prelude.{◌≡◌, ◌⊎◌, false, true, None, IfErr, IfOk, OnOk};
ghost use Rattle.dhcp_wire.specs.Error.{no_memory};
ghost use Rattle.dhcp_clock.specs.Words.{DrawsBy};
ghost use Rattle.dhcp4_client.specs.Client as client4;
ghost use Rattle.dhcp4_client.specs.Rules as rules4;
ghost use Rattle.dhcp4_client.specs.State as states4;
ghost use Rattle.dhcp4_client.specs.declared.answer.Answer as answer4;
ghost use Rattle.dhcp4_client.specs.declared.client_state.ClientState as held4;
ghost use Rattle.dhcp4_client.specs.declared.client_state.Exchange as exchange4;
ghost use Rattle.dhcp4_client.specs.declared.state.PlainState as plain4;
ghost use Rattle.dhcp4_lease.specs.Lease as lease4;
ghost use Rattle.dhcp6_msg.specs.Config.{client_duid, ethernet_duid};
ghost use Rattle.dhcp6_msg.specs.Lease.{is_unspecified};
ghost use Rattle.dhcp6_client.specs.Client as client6;
ghost use Rattle.dhcp6_client.specs.Rules as rules6;
ghost use Rattle.dhcp6_client.specs.State as states6;
ghost use Rattle.dhcp6_client.specs.declared.client_state.ClientState as held6;
ghost use Rattle.dhcp6_client.specs.declared.client_state.Exchange as exchange6;
ghost use Rattle.dhcp6_client.specs.declared.state.PlainState as plain6;
ghost use Rattle.dhcp6_msg.specs.Lease as lease6;
ghost use Rattle.dhcp6_info.specs.Client as client_info;
ghost use Rattle.dhcp6_info.specs.Rules as rules_info;
ghost use Rattle.dhcp6_info.specs.State as states_info;
ghost use Rattle.dhcp6_info.specs.declared.client_state.ClientState as held_info;
ghost use Rattle.dhcp6_info.specs.declared.client_state.Exchange as exchange_info;
ghost use Rattle.dhcp6_info.specs.declared.client_state.NoLease as no_lease;
ghost use Rattle.dhcp6_info.specs.declared.info.DhcpV6Info as info;
ghost use Rattle.dhcp6_info.specs.declared.state.PlainInfoState as plain_info;
ghost use Rattle.uses.specs.Configs.{config4, config6, mac};

use super::ManagedClient;
use dhcp_clock::{DhcpLink, Words};
use dhcp_wire::{DhcpError, ErrorKind};
use dhcp4_client::{DhcpV4Client, DhcpV4State};
use dhcp4_lease::{DhcpV4Config, DhcpV4MessageForms};
use dhcp6_client::{DhcpV6Client, DhcpV6State};
use dhcp6_info::{DhcpV6InfoClient, DhcpV6InfoState};
use dhcp6_msg::{DhcpV6Config, DhcpV6Mode};
use std::alloc::Global;
use std::net::Ipv6Addr;

impl ManagedClient for DhcpV4Client {
    type State = DhcpV4State;

    ghost PublicState = { plain4.PlainState };

    ghost ClientState = { held4.ClientState };

    ghost Exchange = { exchange4.Exchange };

    ghost Answer = { answer4.Answer };

    ghost Lease = { lease4.Lease };

    ghost public_state = { states4.plain_state };

    ghost protocol = { λ parts. rules4.protocol parts.config };

    ghost client = { λ parts. parts.client };

    ghost may_answer = { λ parts. rules4.may_answer parts.config.message_forms };

    ghost lasts_for_ever = { λ state. false };

    fn run<W: Words, L: DhcpLink>(
        &mut self,
        now: u64,
        words: &mut W,
        link: &mut L,
    ) -> Result<Option<DhcpV4State>, DhcpError> {
        DhcpV4Client::run(self, now, words, link)
    }

    fn next_poll(&self) -> Option<u64> {
        DhcpV4Client::next_poll(self)
    }
}

impl ManagedClient for DhcpV6Client {
    type State = DhcpV6State;

    ghost PublicState = { plain6.PlainState };

    ghost ClientState = { held6.ClientState };

    ghost Exchange = { exchange6.Exchange };

    ghost Answer = { lease6.Lease };

    ghost Lease = { lease6.Lease };

    ghost public_state = { states6.plain_state };

    ghost protocol = { λ parts. rules6.protocol parts.config };

    ghost client = { λ parts. parts.client };

    ghost may_answer = { λ parts. rules6.may_answer };

    ghost lasts_for_ever = { λ state. false };

    fn run<W: Words, L: DhcpLink>(
        &mut self,
        now: u64,
        words: &mut W,
        link: &mut L,
    ) -> Result<Option<DhcpV6State>, DhcpError> {
        DhcpV6Client::run(self, now, words, link)
    }

    fn next_poll(&self) -> Option<u64> {
        DhcpV6Client::next_poll(self)
    }
}

impl ManagedClient for DhcpV6InfoClient {
    type State = DhcpV6InfoState;

    ghost PublicState = { plain_info.PlainInfoState };

    ghost ClientState = { held_info.ClientState };

    ghost Exchange = { exchange_info.Exchange };

    ghost Answer = { info.DhcpV6Info };

    ghost Lease = { no_lease.NoLease };

    ghost public_state = { states_info.plain_state };

    ghost protocol = { λ parts. rules_info.protocol parts.config };

    ghost client = { λ parts. parts.client };

    ghost may_answer = { λ parts. rules_info.may_answer };

    ghost lasts_for_ever = { client_info.lasts_for_ever };

    fn run<W: Words, L: DhcpLink>(
        &mut self,
        now: u64,
        words: &mut W,
        link: &mut L,
    ) -> Result<Option<DhcpV6InfoState>, DhcpError> {
        DhcpV6InfoClient::run(self, now, words, link)
    }

    #[tactic(auto, using(crate::proofs::NextPoll::rests_without_a_moment))]
    fn next_poll(&self) -> Option<u64> {
        DhcpV6InfoClient::next_poll(self)
    }
}

/// A client of IPv4 on `eth0`, the interface with index 3, that is known by its MAC address and
/// sends the messages of RFC 2131. Out of memory is the only error.
#[tactic(auto, using(crate::proofs::Facts::facts))]
pub fn new_client<W: Words>(alloc: Global, words: &mut W) -> Result<DhcpV4Client, DhcpError>
    ensures begun { IfOk result (client4.Begins config4 None) }
    ensures given { IfOk result (λ client.
        W.gives client.client.standing.exchange.xid words.old words.new) }
    ensures error { IfErr result (λ e. e ≡ no_memory) }
{
    let mut config = DhcpV4Config::new(alloc, "eth0")?;
    config
        .set_iface_index(3)
        .set_message_forms(DhcpV4MessageForms::Rfc2131);
    config
        .set_iface_mac(alloc, "02:00:00:00:00:01")?
        .use_mac_as_client_id(alloc)?;
    DhcpV4Client::init(alloc, config, None, words)
}

/// A client of IPv6 on `eth0`, the interface with index 3, that sends from this link-local address
/// and is known by the identifier of its MAC address. `InvalidArgument` if and only if the address
/// is ::, and else out of memory is the only error.
#[tactic(auto, using(crate::proofs::Facts::facts), unfolding(dhcp6_msg::specs::Config::config_of))]
pub fn new_client6<W: Words>(
    alloc: Global,
    link_local: Ipv6Addr,
    words: &mut W,
) -> Result<DhcpV6Client, DhcpError>
    ensures begun { IfOk result (client6.Begins (config6 link_local) None 0) }
    ensures given { IfOk result (λ client. DrawsBy W.gives
        (client6.first_draws (config6 link_local))
        words.old (client6.drawn_for client) words.new) }
    ensures identifier { IfOk result (λ client. client.config.duid ≡ ethernet_duid mac) }
    ensures begins { OnOk result (is_unspecified link_local ≡ false) }
    ensures error { IfErr result (λ e. (e ≡ no_memory)
        ⊎ ((e.kind ≡ ErrorKind.InvalidArgument) × (is_unspecified link_local ≡ true))) }
{
    let mut config = DhcpV6Config::new(alloc, "eth0", DhcpV6Mode::NonTemporaryAddresses)?;
    config
        .set_iface_index(3)
        .set_link_local_ip(link_local)
        .set_src_mac([2, 0, 0, 0, 0, 1]);
    DhcpV6Client::init(alloc, config, None, 0, words)
}

/// A client for configuration alone, with the configuration of `new_client6`. `InvalidArgument` if
/// and only if the address is ::, and else out of memory is the only error.
#[tactic(auto, using(crate::proofs::Facts::facts), unfolding(dhcp6_msg::specs::Config::config_of))]
pub fn new_info_client<W: Words>(
    alloc: Global,
    link_local: Ipv6Addr,
    words: &mut W,
) -> Result<DhcpV6InfoClient, DhcpError>
    ensures begun { IfOk result (client_info.Begins (config6 link_local)) }
    ensures given { IfOk result (λ client. DrawsBy W.gives (client_duid (config6 link_local))
        words.old client.config.duid words.new) }
    ensures begins { OnOk result (is_unspecified link_local ≡ false) }
    ensures error { IfErr result (λ e. (e ≡ no_memory)
        ⊎ ((e.kind ≡ ErrorKind.InvalidArgument) × (is_unspecified link_local ≡ true))) }
{
    let mut config = DhcpV6Config::new(alloc, "eth0", DhcpV6Mode::NonTemporaryAddresses)?;
    config
        .set_iface_index(3)
        .set_link_local_ip(link_local)
        .set_src_mac([2, 0, 0, 0, 0, 1]);
    DhcpV6InfoClient::init(alloc, config, words)
}
