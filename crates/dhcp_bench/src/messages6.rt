//! DHCPv6 messages.

use crate::wire::{LeaseMessage, Wire, counted};
use dhcp_wire::{DhcpError, ErrorKind, FixedText};
use dhcp6_msg::{DhcpV6Config, DhcpV6Lease, DhcpV6Message, new_solicit_msg};
use std::alloc::Global;

// The MAC address of which the client's identifier is made.
const MAC: [u8; 6] = [2, 0, 0, 0, 0, 1];

impl Wire for DhcpV6Message {
    fn read(alloc: Global, bytes: &[u8]) -> Result<Self, DhcpError> {
        DhcpV6Message::parse(alloc, bytes)
    }

    fn write(&self, alloc: Global) -> Result<usize, DhcpError> {
        Ok(self.emit(alloc)?.len())
    }
}

impl LeaseMessage for DhcpV6Message {
    fn read_lease(&self, alloc: Global) -> Result<(), DhcpError> {
        counted(DhcpV6Lease::new_from_msg(alloc, self), ())
    }

    fn move_to_lease(self, alloc: Global) -> Result<(), DhcpError> {
        counted(DhcpV6Lease::from_message(alloc, self), ())
    }
}

// Builds a Solicit of an identifier of this MAC address and writes it.
pub(crate) fn solicit(alloc: Global) -> Result<usize, DhcpError> {
    let mut config = DhcpV6Config::empty(alloc)?;
    written_solicit(alloc, &mut config)
}

// The same with a configuration, in which it sets the identifier.
fn written_solicit(alloc: Global, config: &mut DhcpV6Config) -> Result<usize, DhcpError> {
    config.set_duid_by_iface_mac(alloc, &MAC)?;
    if !config.is_within_limits() {
        return Err(DhcpError::new_fixed(ErrorKind::Bug, FixedText::Config));
    }
    new_solicit_msg(alloc, 0xabcdef, config, 0, 0)?.write(alloc)
}
