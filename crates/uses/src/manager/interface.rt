//! The interface that is managed.

ghost use Rattle.std.specs.Prelude.{◌≡◌};
ghost use Rattle.dhcp4_client.specs.State as states4;
ghost use Rattle.dhcp6_client.specs.State as states6;
ghost use Rattle.dhcp6_info.specs.State as states_info;
ghost use Rattle.uses.specs.Manager.{interface_after, interface_after6, interface_told, first_of};

use super::Follow;
use dhcp_wire::Sequence;
use dhcp4_client::DhcpV4State;
use dhcp6_client::DhcpV6State;
use dhcp6_info::DhcpV6InfoState;
use std::net::{Ipv4Addr, Ipv6Addr};

/// An interface. All clients may be followed by one.
#[derive(Clone, Copy, Debug, Default, PartialEq, Eq)]
pub struct Interface {
    /// Its IPv4 address, if it has one.
    pub address: Option<Ipv4Addr>,
    /// How many bits of the IPv4 address are those of its network.
    pub prefix_length: u8,
    /// Its leased IPv6 address, if it has one.
    pub address6: Option<Ipv6Addr>,
    /// The name server that is asked over it, if there is one.
    pub name_server: Option<Ipv6Addr>,
}

impl Follow<DhcpV4State> for Interface {
    ghost follows = { λ state old new. new ≡ interface_after (states4.plain_state state) old };

    fn follow(&mut self, state: &DhcpV4State) {
        match state {
            DhcpV4State::Done(lease) => {
                self.address = Some(lease.yiaddr);
                self.prefix_length = lease.prefix_length();
            }
            DhcpV4State::Renewing | DhcpV4State::Rebinding => {}
            DhcpV4State::InitReboot | DhcpV4State::Selecting => self.address = None,
        }
    }
}

impl Follow<DhcpV6State> for Interface {
    ghost follows = { λ state old new. new ≡ interface_after6 (states6.plain_state state) old };

    fn follow(&mut self, state: &DhcpV6State) {
        match state {
            DhcpV6State::Done(lease) => self.address6 = Some(lease.address),
            DhcpV6State::Renew | DhcpV6State::Rebind => {}
            DhcpV6State::Solicit | DhcpV6State::Request => self.address6 = None,
        }
    }
}

impl Follow<DhcpV6InfoState> for Interface {
    ghost follows = { λ state old new. new ≡ interface_told (states_info.plain_state state) old };

    fn follow(&mut self, state: &DhcpV6InfoState) {
        match state {
            DhcpV6InfoState::Done(info) => self.name_server = first_of(&info.dns_srvs),
            DhcpV6InfoState::Inform => {}
        }
    }
}

// The first of these addresses, if there is one.
fn first_of(addresses: &Option<Sequence<Ipv6Addr>>) -> Option<Ipv6Addr>
    ensures { result ≡ first_of addresses.now }
{
    addresses.as_ref()?.as_slice().first().copied()
}
